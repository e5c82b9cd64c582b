//! The strongly connected components of the positive dependencies of ground programs, and two measures of how tangled
//! these are.
#![tactic(auto)]

mod adding;
mod costs;
mod finding;
pub mod laws;
mod links;
mod parts;

pub use finding::components;
pub use links::node_of;
pub use parts::{Parts, pairs, tangle};
