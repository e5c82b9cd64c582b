//! The complements of atoms, found by a hash of the atom, so that each choice takes constant time.

ghost use Rattle.std.specs.Prelude.{◌≡◌, [], ◌∷◌, ◌++◌, IfSome, IfNone, OnOk};
ghost use Rattle.normalize.specs.private.Stage.{Listed, IsUnlisted};

use asp_base::Memory;
use indexmap::IndexMap;
use std::alloc::Global;
use std::marker::Model;

/// Atoms with their complements, in the order in which these were made.
#[derive(Drop)]
pub(crate) struct Complements {
    atoms: IndexMap<u32, u32>,
}

impl Model for Complements {
    ghost use Rattle.std.specs.Prelude.{List, ℕ};

    ghost Value = { List (ℕ × ℕ) };

    ghost view = { λ c. c.atoms.entries };
}

impl Complements {
    /// None yet.
    pub(crate) fn new(alloc: Global) -> Complements
        ensures { result ≡ [] }
    {
        Complements {
            atoms: IndexMap::new(alloc),
        }
    }

    /// The complement of an atom.
    pub(crate) fn get(&self, atom: u32) -> Option<u32>
        ensures listed { IfSome result (λ x. Listed self.now atom x) }
        ensures unlisted { IfNone result (IsUnlisted self.now atom) }
    {
        self.atoms.get(&atom).copied()
    }

    /// Adds the complement of an atom that has none.
    pub(crate) fn insert(&mut self, atom: u32, complement: u32) -> Result<(), Memory>
        requires unlisted { IsUnlisted self.old atom }
        ensures { OnOk result (self.new ≡ self.old ++ ((atom, complement) ∷ [])) }
    {
        self.atoms.insert(atom, complement)?;
        Ok(())
    }
}
