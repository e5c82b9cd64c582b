//! New atoms for new names, found by hashing. There is room for all of them from the start, so the table never grows: a
//! name takes 12 bytes, its atom 4, its hash and slot 8, and the table 7 to 15, so 31 to 39 bytes in all, beside the 12
//! bytes that it takes in the list of names.

ghost use Rattle.std.specs.Prelude.{◌≡◌, ◌+◌, ◌<◌, ◌≤◌, ◌^◌, [], ◌∷◌, ◌++◌, false, true, length, OnOk, OnErr, IfOk};
ghost use Rattle.std.specs.List.{filter};
ghost use Rattle.acyc_edges.specs.Names.{is_new};
ghost use Rattle.acyc_edges.specs.private.Numbers.{is_numbered, number_in, number_of, numbered, IsOnce};

use crate::name::Name;
use asp_base::Memory;
use ground_program::{FreshAtoms, Program};
use indexmap::IndexMap;
use std::alloc::Global;
use std::marker::Model;

/// New names with their atoms, in the order in which they were numbered.
#[derive(Drop)]
pub(crate) struct Numbers {
    atoms: IndexMap<Name, u32>,
}

impl Model for Numbers {
    ghost use Rattle.std.specs.Prelude.{List, ℕ};
    ghost use Rattle.acyc_edges.specs.declared.name.Name.{Name};
    ghost use Rattle.acyc_edges.specs.private.Numbers.{AreAtoms};

    ghost Value = { List (Name × ℕ) };

    ghost view = { λ n. n.atoms.entries };

    ghost invariant = { λ n. AreAtoms n.atoms.entries };
}

impl Numbers {
    /// None, with room for so many.
    fn with_room(alloc: Global, count: usize) -> Result<Numbers, Memory>
        ensures { IfOk result (λ numbers. numbers ≡ []) }
    {
        let atoms = IndexMap::with_capacity(alloc, count)?;
        Ok(Numbers { atoms })
    }

    /// Numbers a name that has no atom yet. After `Memory` nothing is numbered.
    pub(crate) fn insert(&mut self, name: Name, atom: u32) -> Result<(), Memory>
        requires new { is_numbered self.old name ≡ false }
        requires above { 0 < atom }
        requires below { atom ≤ 2 ^ 30 }
        ensures ok { OnOk result (self.new ≡ self.old ++ ((name, atom) ∷ [])) }
        ensures err { OnErr result (self.new ≡ self.old) }
    {
        self.atoms.insert(name, atom)?;
        Ok(())
    }

    /// The atom of a numbered name, 1 for any other.
    fn get(&self, name: Name) -> u32
        ensures is { result ≡ number_in self.now name }
        ensures above { 0 < result }
        ensures below { result ≤ 2 ^ 30 }
    {
        match self.atoms.get(&name) {
            Some(atom) => *atom,
            None => 1,
        }
    }

    /// The atom of a new name.
    pub(crate) fn of(&self, name: Name) -> u32
        requires { is_new name ≡ true }
        ensures is { result ≡ number_of self.now name }
        ensures above { 0 < result }
        ensures below { result ≤ 2 ^ 30 }
    {
        self.get(name)
    }
}

/// How many of the names are new.
fn count_of_new(names: &[Name]) -> usize {
    let mut count = 0;
    for name in names {
        if name.is_new() {
            count += 1;
        }
    }
    count
}

/// Gives new names new atoms, in order. No name may stand twice.
pub(crate) fn number(alloc: Global, program: &Program, names: &[Name]) -> Result<Numbers, Memory>
    requires once { IsOnce names.now }
    requires room { length program.now.atoms + length (filter is_new names.now) < 2 ^ 30 }
    ensures { IfOk result (λ numbers. numbers ≡ numbered program.now.atoms names.now) }
{
    let mut fresh = FreshAtoms::new(alloc, program)?;
    let mut numbers = Numbers::with_room(alloc, count_of_new(names))?;
    for name in names {
        if name.is_new() {
            let atom = fresh.next();
            numbers.insert(*name, atom)?;
        }
    }
    Ok(numbers)
}
