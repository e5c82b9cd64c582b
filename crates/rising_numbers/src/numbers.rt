//! Numbers in ascending order, with the place of each.

ghost use Rattle.std.specs.Prelude.{◌≡◌, ◌<◌, ◌≤◌, ◌↔◌, length, false, IsNone, IfSome, IfOk};
ghost use Rattle.std.specs.List.Sorted.{IsStrictlyIncreasing};
ghost use Rattle.asp_base.specs.Sets.{members};
ghost use Rattle.rising_numbers.specs.Rising.{place, rising};

use crate::ascending::ascending;
use crate::index::PlaceIndex;
use asp_base::Memory;
use std::alloc::Global;
use std::marker::Model;

/// Numbers in ascending order, each once. Contracts see the list.
#[derive(Debug, Drop)]
pub struct RisingNumbers {
    items: Vec<u32>,
    index: PlaceIndex,
}

impl Model for RisingNumbers {
    ghost use Rattle.std.specs.Prelude.{List, ℕ};
    ghost use Rattle.std.specs.List.Sorted.{IsStrictlyIncreasing};
    ghost use Rattle.rising_numbers.specs.private.Index.{Indexes};

    ghost Value = { List ℕ };

    ghost view = { λ s. s.items.items };

    ghost invariant = { λ s. IsStrictlyIncreasing s.items.items × Indexes s.items.items s.index };
}

impl RisingNumbers {
    /// The given numbers, which may stand in any order and repeat. It keeps their memory.
    pub fn of_vec(alloc: Global, numbers: Vec<u32>) -> Result<RisingNumbers, Memory>
        ensures { IfOk result (λ set. set ≡ rising numbers.items) }
    {
        let items = ascending(alloc, numbers)?;
        let index = PlaceIndex::of(alloc, items.as_slice())?;
        Ok(RisingNumbers { items, index })
    }

    /// The numbers, lent.
    pub fn as_slice(&self) -> &[u32]
        ensures is { result.now ≡ self.now }
        ensures rise { IsStrictlyIncreasing self.now }
    {
        self.items.as_slice()
    }

    /// How many numbers there are.
    pub fn len(&self) -> usize
        ensures { result ≡ length self.now }
    {
        self.items.len()
    }

    /// The place of the number, from 1. None exactly where it is not among them.
    pub fn place(&self, number: u32) -> Option<usize>
        ensures none { IsNone result ↔ (members self.now number ≡ false) }
        ensures place { IfSome result (λ v. (v ≡ place self.now number) × (0 < v) × (v ≤ length self.now)) }
    {
        match self.index.find(self.items.as_slice(), number) {
            Some(index) => Some(index + 1),
            None => None,
        }
    }

    /// Whether the number is among them.
    pub fn contains(&self, number: u32) -> bool
        ensures { result ≡ members self.now number }
    {
        self.place(number).is_some()
    }
}
