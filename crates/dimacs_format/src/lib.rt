//! The DIMACS texts of formulas, read and written: CNF, ECNF with edges, and WCNF with soft clauses.
#![tactic(auto)]

mod append;
mod clauses;
mod ecnf_writer;
mod edges;
mod fields;
mod header;
mod kind;
pub mod laws;
mod reading;
mod tokens;
mod wcnf_writer;
mod weighted;
mod write;

pub use ecnf_writer::write_ecnf;
pub use kind::{FormulaKind, FormulaRefusal};
pub use reading::read;
pub use wcnf_writer::write_wcnf;
pub use write::write_cnf;
