//! Laws of the programs that are made piece by piece.
#![tactic(auto)]

pub mod laws;
