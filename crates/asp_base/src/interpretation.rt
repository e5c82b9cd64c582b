//! What says of each atom, or of each variable, whether it is true.

ghost use Rattle.std.specs.Prelude.{◌≡◌};
ghost use Rattle.asp_base.specs.Sets.{Set};

/// A total interpretation: a set of atoms, or an assignment of variables. Contracts see it as the
/// set of what it makes true.
pub trait Interpretation {
    /// What is true.
    ghost truth: { Self → Set };

    /// Whether the atom, or variable, is true.
    fn is_true(&self, atom: u32) -> bool
        ensures { result ≡ truth self.now atom };
}
