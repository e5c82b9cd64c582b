//! The aspif text of ground programs: a reader, a writer, and the law that joins them.
#![tactic(auto)]

mod header;
pub mod laws;
mod parts;
mod reading;
mod statement;
mod writing;

pub use reading::read;
pub use writing::write;
