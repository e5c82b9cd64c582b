//! Verdicts on sets of atoms.

use asp_base::Walk;
use ground_program::AtomSet;

/// The verdict on a set of atoms.
#[derive(Debug, Drop)]
pub enum Verdict {
    /// It is a stable model.
    Stable,
    /// The place, from 1, of the first rule whose body holds and whose head is nothing or an atom outside the set.
    BrokenRule(u64),
    /// The place, from 1, of the first required literal that does not hold.
    BrokenRequirement(u64),
    /// All atoms of the set outside the least model of the reduct.
    Unfounded(AtomSet),
    /// A closed walk of edges whose conditions hold: its nodes differ but for the ends, and it starts at its least
    /// node.
    Cycle(Walk),
}
