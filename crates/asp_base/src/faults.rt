//! What can go wrong: a call of a desk, memory, and a text with a fault at a line.

ghost use Rattle.std.specs.Prelude.{◌≡◌};
ghost use Rattle.asp_base.specs.Faults.{refusal_at};

use std::alloc::{AllocError, AllocFailed};

/// A call of a desk that failed. The desk tells by its counts and places what failed.
#[derive(Clone, Copy, Debug, PartialEq, Eq)]
pub struct Failed;

/// Want of memory.
#[derive(Clone, Copy, Debug, PartialEq, Eq)]
pub struct Memory;

impl From<AllocError> for Memory {
    fn from(_: AllocError) -> Memory {
        Memory
    }
}

impl<T: Drop> From<AllocFailed<T>> for Memory {
    fn from(_: AllocFailed<T>) -> Memory {
        Memory
    }
}

/// Why a text was not read: its first fault with the number of its line, from 1, or want of memory.
#[derive(Clone, Copy, Debug, PartialEq, Eq)]
pub enum Refusal<Kind> {
    At { line: u64, kind: Kind },
    Memory,
}

impl<Kind> From<Memory> for Refusal<Kind> {
    ghost use Rattle.std.specs.Prelude.{◌≡◌};
    ghost use Rattle.asp_base.specs.declared.faults.Refusal.TheVariants as refusals;

    ghost from_gives = { λ _ e. e ≡ refusals.Memory };

    fn from(_: Memory) -> Refusal<Kind> {
        Refusal::Memory
    }
}

impl<Kind, T: Drop> From<AllocFailed<T>> for Refusal<Kind> {
    ghost use Rattle.std.specs.Prelude.{◌≡◌};
    ghost use Rattle.asp_base.specs.declared.faults.Refusal.TheVariants as refusals;

    ghost from_gives = { λ _ e. e ≡ refusals.Memory };

    fn from(_: AllocFailed<T>) -> Refusal<Kind> {
        Refusal::Memory
    }
}

/// Why a part of a line was not read: its first fault, or want of memory.
#[derive(Clone, Copy, Debug, PartialEq, Eq)]
pub enum LineFault<Kind> {
    Kind(Kind),
    Memory,
}

impl<Kind: Copy> LineFault<Kind> {
    /// The same fault, at the line of this number.
    pub fn at(self, line: u64) -> Refusal<Kind>
        ensures { result ≡ refusal_at line self }
    {
        match self {
            LineFault::Kind(kind) => Refusal::At { line, kind },
            LineFault::Memory => Refusal::Memory,
        }
    }
}

impl<Kind> From<Memory> for LineFault<Kind> {
    ghost use Rattle.std.specs.Prelude.{◌≡◌};
    ghost use Rattle.asp_base.specs.declared.faults.LineFault.TheVariants as faults;

    ghost from_gives = { λ _ e. e ≡ faults.Memory };

    fn from(_: Memory) -> LineFault<Kind> {
        LineFault::Memory
    }
}

impl<Kind, T: Drop> From<AllocFailed<T>> for LineFault<Kind> {
    ghost use Rattle.std.specs.Prelude.{◌≡◌};
    ghost use Rattle.asp_base.specs.declared.faults.LineFault.TheVariants as faults;

    ghost from_gives = { λ _ e. e ≡ faults.Memory };

    fn from(_: AllocFailed<T>) -> LineFault<Kind> {
        LineFault::Memory
    }
}
