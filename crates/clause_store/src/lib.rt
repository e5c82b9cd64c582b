//! Formulas: hard and soft clauses, and edges under literals, the assignments of their variables, and a store
//! in which a formula grows.
#![tactic(auto)]

mod assignment;
mod clause_list;
mod conjunction;
mod formula;
mod gate;
mod known;
mod linked;
mod store;

pub use assignment::Assignment;
pub use clause_list::{Clause, ClauseList};
pub use formula::{Formula, LitEdge, LitEdgeList, SoftClause, SoftList};
pub use store::Store;
