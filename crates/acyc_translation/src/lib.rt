//! The translation of positive recursion to acyclic edges: from a program to one of normal rules and edges in which no
//! atom depends on itself, and from there to clauses with edges and a map.
#![tactic(auto)]

mod encoding;
mod linking;
mod recursion;
mod translation;

pub use encoding::{AcycRefusal, Encoding};
pub use recursion::encode;
pub use translation::translate;
