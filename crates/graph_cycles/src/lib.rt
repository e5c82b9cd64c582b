//! Cycles of directed graphs. The edges are sorted, and a depth-first search looks at each of them once and finds a
//! node by halving: n log n steps for n edges, and memory for the edges.
#![tactic(auto)]

mod arcs;
mod descent;
pub mod laws;
mod search;
mod turn;

pub use search::find_cycle;
