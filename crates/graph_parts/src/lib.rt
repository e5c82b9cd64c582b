//! The strongly connected components of directed graphs, the parts for short, and values put together by keys. All of
//! it is linear in nodes and edges.
#![tactic(auto)]

mod among;
mod apart;
mod dividing;
mod groups;
pub mod laws;
mod numbering;
mod parts;
mod search;

pub use among::parts_among;
pub use apart::parts_apart;
pub use dividing::{divide, parts_of};
pub use groups::{Groups, StartList, ValueList, grouped};
pub use parts::Parts;
