//! Sums of weights by rules, in mixed radix.
#![tactic(auto)]

mod counts;
mod kept;
mod lists;
mod planning;
mod reach;
mod sum;
mod sums;

pub use planning::{NumberList, RadixPlan, plan};
pub use sum::{Reach, sum_at_least};
