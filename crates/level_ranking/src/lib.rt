//! Strong level rankings: clauses that leave of the models of a completion those of founded sets.
#![tactic(auto)]

mod comparisons;
mod gathering;
pub mod laws;
mod numbers;
mod ranking;
mod rules;

pub use ranking::rank;
