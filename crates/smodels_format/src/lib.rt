//! The smodels text of ground programs: a reader, and a writer of a program that stands for the given one.
#![tactic(auto)]

mod body;
mod entry;
pub mod laws;
mod new_atoms;
mod push_bodies;
mod push_rules;
mod push_shows;
mod reading;
mod rule;
mod sign;
mod writability;
mod writing;

pub use reading::read;
pub use writability::writable;
pub use writing::{WriteRefusal, write};
