//! Numbers in ascending order, each once, and the place of a number among them, in constant time where they lie close
//! together.
#![tactic(auto)]

mod ascending;
mod index;
mod marks;
mod numbers;

pub use numbers::RisingNumbers;
