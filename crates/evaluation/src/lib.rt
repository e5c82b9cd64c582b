//! What an interpretation, a set of atoms or an assignment, makes true: literals, conditions, the names of shows, the
//! costs of levels.
#![tactic(auto)]

mod costs;
mod literals;
mod names;
mod seen;

pub use literals::{all_hold, literal_holds};
pub use seen::{NameList, Seen, evaluate};
