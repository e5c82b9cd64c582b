//! Whether a set of atoms is a stable model of a program, what it shows and what it costs.
#![tactic(auto)]

mod atoms_text;
mod checking;
mod counters;
mod flags;
mod growth;
mod lacks;
mod least_model;
mod occurrences;
mod table;
mod truth;
mod verdict;
mod weighing;

pub use atoms_text::read_atoms;
pub use checking::check;
pub use evaluation::{NameList, Seen};
pub use verdict::Verdict;
pub use weighing::cost_and_names;
