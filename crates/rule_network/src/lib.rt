//! Blocks of normal rules that define new atoms from literals over others.
#![tactic(auto)]

mod cells;
pub mod laws;
mod network;

pub use cells::{all_of, any_of, one_or_all};
pub use network::Network;
