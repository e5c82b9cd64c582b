//! The two encodings of positive recursion, and why a program has none.

use asp_base::Memory;

/// How positive recursion is told by edges.
#[derive(Clone, Copy, Debug, PartialEq, Eq)]
pub enum Encoding {
    /// Edges that are chosen for each atom: linear in the program, and a stable model may have several choices.
    Plain,
    /// Edges by comparing the stages of atoms: one to one, and as large as there are pairs of atoms in components.
    Unique,
}

/// Why a program is not encoded.
#[derive(Clone, Copy, Debug, PartialEq, Eq)]
pub enum AcycRefusal {
    /// The program's room, or with `Unique` its tangle, is this number, above 2^24.
    TooLarge { number: u64 },
    /// Want of memory.
    Memory,
}

impl From<Memory> for AcycRefusal {
    ghost use Rattle.std.specs.Prelude.{◌≡◌};
    ghost use Rattle.acyc_translation.specs.declared.encoding.AcycRefusal.TheVariants as refusals;

    ghost from_gives = { λ _ e. e ≡ refusals.Memory };

    fn from(_: Memory) -> AcycRefusal {
        AcycRefusal::Memory
    }
}
