//! Sets of atoms.

ghost use Rattle.std.specs.Prelude.{◌≡◌, IfOk};
ghost use Rattle.std.specs.List.Sorted.{IsStrictlyIncreasing};
ghost use Rattle.asp_base.specs.Sets.{members};
ghost use Rattle.rising_numbers.specs.Rising.{rising};

use asp_base::{Interpretation, Memory};
use rising_numbers::RisingNumbers;
use std::alloc::Global;
use std::marker::Model;

/// Atoms in ascending order, each once.
#[derive(Debug, Drop)]
pub struct AtomSet {
    numbers: RisingNumbers,
}

impl Model for AtomSet {
    ghost use Rattle.std.specs.Prelude.{List, ℕ};

    ghost Value = { List ℕ };

    ghost view = { λ s. s.numbers };
}

impl AtomSet {
    /// The set of the given atoms, which may stand in any order and repeat.
    pub fn of(alloc: Global, atoms: &[u32]) -> Result<AtomSet, Memory>
        ensures { IfOk result (λ set. set ≡ rising atoms.now) }
    {
        AtomSet::of_vec(alloc, atoms.to_vec(alloc)?)
    }

    /// The set of the given atoms, which may stand in any order and repeat. It keeps their memory.
    pub fn of_vec(alloc: Global, atoms: Vec<u32>) -> Result<AtomSet, Memory>
        ensures { IfOk result (λ set. set ≡ rising atoms.items) }
    {
        Ok(AtomSet {
            numbers: RisingNumbers::of_vec(alloc, atoms)?,
        })
    }

    /// Whether the atom is in the set, in constant time where the numbers of the set lie close together.
    pub fn contains(&self, atom: u32) -> bool
        ensures { result ≡ members self.now atom }
    {
        self.numbers.contains(atom)
    }

    /// The atoms in ascending order.
    pub fn atoms(&self) -> &[u32]
        ensures atoms { result.now ≡ self.now }
        ensures ascending { IsStrictlyIncreasing self.now }
    {
        self.numbers.as_slice()
    }
}

/// The set makes its atoms true.
impl Interpretation for AtomSet {
    ghost use Rattle.asp_base.specs.Sets.{members};

    ghost truth = { λ set. members set };

    fn is_true(&self, atom: u32) -> bool {
        self.contains(atom)
    }
}
