//! Literals that are written as their atoms, with a sign that their place tells.

ghost use Rattle.std.specs.Prelude.{◌≡◌};
ghost use Rattle.asp_base.specs.Literal.{Pos};
ghost use Rattle.ground_program.specs.Facts.{IsAtom};
ghost use Rattle.smodels_format.specs.private.Steps.{signed};

use asp_base::Lit;

/// Which literal of an atom is meant: literals are written as their atoms.
#[derive(Clone, Copy)]
pub(crate) enum Sign {
    Negative,
    Positive,
}

impl Sign {
    /// The literal of an atom.
    pub(crate) fn of(self, atom: u32) -> Lit
        requires { IsAtom atom }
        ensures { result ≡ signed self atom }
    {
        let lit = Lit::positive(atom);
        match self {
            Sign::Negative => lit.negate(),
            Sign::Positive => lit,
        }
    }
}
