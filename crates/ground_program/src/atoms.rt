//! The atoms of a program, and their variables: the place of an atom, from 1, is its variable.

ghost use Rattle.std.specs.Prelude.{◌≡◌, ◌-◌, ◌<◌, ◌≤◌, ◌^◌, ◌↔◌, length, false, IsNone, IfSome, IfOk};
ghost use Rattle.std.specs.List.{AllByRecursion};
ghost use Rattle.asp_base.specs.Literal.{atom_of};
ghost use Rattle.asp_base.specs.Sets.{members};
ghost use Rattle.rising_numbers.specs.Rising.{RisesFrom, place, rising};
ghost use Rattle.ground_program.specs.Facts.{Among, IsAtom};
ghost use Rattle.ground_program.specs.Occurrences.{over_variables};

use crate::program::Program;
use asp_base::{Lit, Memory};
use rising_numbers::RisingNumbers;
use std::alloc::Global;
use std::marker::Model;

/// The atoms of a program in ascending order, each once and from 1 to 2^30. Contracts see the list.
#[derive(Debug, Drop)]
pub struct Atoms {
    numbers: RisingNumbers,
}

impl Model for Atoms {
    ghost use Rattle.std.specs.Prelude.{List, ℕ};
    ghost use Rattle.ground_program.specs.private.AreAtoms.{AreAtoms};

    ghost Value = { List ℕ };

    ghost view = { λ a. a.numbers };

    ghost invariant = { λ a. AreAtoms a.numbers };
}

impl Atoms {
    /// The given atoms, which may stand in any order and repeat. It keeps their memory. `Memory` where the index of
    /// their places finds none.
    pub fn of_vec(alloc: Global, atoms: Vec<u32>) -> Result<Atoms, Memory>
        requires { AllByRecursion IsAtom atoms.items }
        ensures { IfOk result (λ list. list ≡ rising atoms.items) }
    {
        Ok(Atoms {
            numbers: RisingNumbers::of_vec(alloc, atoms)?,
        })
    }

    /// The atoms, lent.
    pub fn as_slice(&self) -> &[u32]
        ensures is { result.now ≡ self.now }
        ensures rise { RisesFrom 0 self.now }
        ensures fit { AllByRecursion (λ a. a ≤ 2 ^ 30) self.now }
    {
        self.numbers.as_slice()
    }

    /// The number of atoms.
    pub fn len(&self) -> usize
        ensures is { result ≡ length self.now }
        ensures few { result ≤ 2 ^ 30 }
    {
        self.numbers.len()
    }

    /// The place of the atom, from 1. None exactly where it is none of these. In constant time where the
    /// numbers of the atoms lie close together.
    pub fn place(&self, atom: u32) -> Option<u32>
        ensures none { IsNone result ↔ (members self.now atom ≡ false) }
        ensures place { IfSome result (λ v. (v ≡ place self.now atom) × (0 < v) × (v ≤ length self.now)) }
        ensures few { length self.now ≤ 2 ^ 30 }
    {
        match self.numbers.place(atom) {
            Some(place) => Some(place as u32),
            None => None,
        }
    }

    /// Whether the atom is one of these.
    pub fn contains(&self, atom: u32) -> bool
        ensures { result ≡ members self.now atom }
    {
        self.numbers.contains(atom)
    }

    /// The index of one of the atoms. It has no other, since the atoms rise.
    pub fn index_of(&self, atom: u32) -> usize
        requires { Among self.now atom }
        ensures index { result ≡ place self.now atom - 1 }
        ensures within { result < length self.now }
        ensures rise { RisesFrom 0 self.now }
    {
        let Some(place) = self.numbers.place(atom) else {
            unreachable!()
        };
        place - 1
    }

    /// The literal over variables: the place of its atom, which is one of these, in the atom's stead.
    pub fn literal_over(&self, lit: Lit) -> Lit
        requires { Among self.now (atom_of lit) }
        ensures { result ≡ over_variables self.now lit }
    {
        let Some(variable) = self.place(lit.var()) else {
            unreachable!()
        };
        let positive = Lit::positive(variable);
        if lit.is_positive() {
            positive
        } else {
            positive.negate()
        }
    }
}

/// The variable of an atom: its place among the program's atoms, from 1. None exactly where it is no atom
/// of the program.
pub fn variable(program: &Program, atom: u32) -> Option<u32>
    ensures none { IsNone result ↔ (members program.now.atoms atom ≡ false) }
    ensures place { IfSome result (λ v.
        (v ≡ place program.now.atoms atom) × (0 < v) × (v ≤ length program.now.atoms)) }
{
    program.atoms.place(atom)
}
