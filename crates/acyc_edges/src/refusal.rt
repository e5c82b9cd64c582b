//! Why there is no program that compares stages.

use asp_base::Memory;

/// Why there is no program that compares stages.
#[derive(Clone, Copy, Debug, PartialEq, Eq)]
pub enum UniqueRefusal {
    /// The cyclic components have more than 2^24 pairs of an atom with an atom, a rule or a positive literal; so many,
    /// at most 2^63.
    TooManyPairs { pairs: u64 },
    /// Want of memory.
    Memory,
}

impl From<Memory> for UniqueRefusal {
    ghost use Rattle.std.specs.Prelude.{◌≡◌};
    ghost use Rattle.acyc_edges.specs.declared.refusal.UniqueRefusal.TheVariants as refusals;

    ghost from_gives = { λ _ e. e ≡ refusals.Memory };

    fn from(_: Memory) -> UniqueRefusal {
        UniqueRefusal::Memory
    }
}
