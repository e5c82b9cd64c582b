//! The names of the atoms that get new rules.

ghost use Rattle.std.specs.Prelude.{◌≡◌};
ghost use Rattle.acyc_edges.specs.Names.{is_new};

/// An atom that has new rules, by what it says. Rules are named by their index.
#[derive(Clone, Copy, Debug, PartialEq, Eq, Hash)]
pub(crate) enum Name {
    /// An atom of a cyclic component.
    Atom(u32),
    /// That this atom does not hold.
    Complement(u32),
    /// That the body of this rule holds.
    Fires(u32),
    /// That the edge from the first atom to the second is chosen.
    Chosen(u32, u32),
    /// That it is not.
    Left(u32, u32),
    /// That a rule of the atom fires with all its edges chosen.
    Backed(u32),
    /// That the first atom is derived, and no later than the second.
    NoLater(u32, u32),
    /// That this rule fires, and its head is not derived as early as an atom of its body in the component.
    Backs(u32),
}

impl Name {
    /// It is no atom of the program.
    pub(crate) fn is_new(&self) -> bool
        ensures { result ≡ is_new self.now }
    {
        !matches!(self, Name::Atom(_))
    }
}
