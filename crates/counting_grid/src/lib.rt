//! Counting grids: at least so many of some literals.
#![tactic(auto)]

mod cells;
mod counting;

pub use counting::grid;
