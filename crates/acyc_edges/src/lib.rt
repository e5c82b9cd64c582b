//! Programs whose acyclicity edges stand for the positive recursion of a normal program.
#![tactic(auto)]

mod bodies;
mod choosing;
mod comparing;
mod edges;
mod kept;
mod kind;
pub mod laws;
mod made;
mod name;
mod named;
mod names;
mod nodes;
mod numbers;
mod once;
mod refusal;
mod rules;
mod setting;
mod tables;
mod writer;

pub use choosing::plain;
pub use comparing::unique;
pub use refusal::UniqueRefusal;
