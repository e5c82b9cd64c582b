//! Literals.

ghost use Rattle.std.specs.Prelude.{◌≡◌, ◌≢◌, negsuc, pos, ◌<◌, ◌⊎◌, ◌^◌, ◌↔◌, ◌-◌, IsNone, IfSome};
ghost use Rattle.asp_base.specs.Literal.{Pos, atom_of, is_positive, negation, literal_of, integer_of};

use std::marker::Model;

/// A literal: an atom or its negation, kept as a number that is neither 0 nor the least i32.
/// Contracts see it as `Pos a` or `Neg a`, with the atom `a` from 1 to 2^31 - 1.
#[derive(Clone, Copy, Debug, PartialEq, Eq, Hash)]
pub struct Lit {
    value: i32,
}

impl Model for Lit {
    ghost use Rattle.asp_base.specs.Literal.{Literal, literal_of, integer_of, IsLiteral};
    ghost use Rattle.asp_base.specs.private.InsideLit.{inside_back};

    ghost Value = { Literal };

    ghost view = { λ l. literal_of l.value };

    ghost invariant = { λ l. IsLiteral l.value };

    ghost inverse = { λ x. record { value = integer_of x } };

    ghost inverse_ok = { λ a h. inside_back a };
}

impl Lit {
    /// The literal of a number: positive for an atom, negative for its negation.
    /// None exactly at 0 and at the least i32.
    pub fn new(value: i32) -> Option<Lit>
        ensures none { IsNone result ↔ ((value ≡ pos 0) ⊎ (value ≡ negsuc (2 ^ 31 - 1))) }
        ensures value { IfSome result (λ lit. lit ≡ literal_of value) }
    {
        if value == 0 || value == i32::MIN {
            None
        } else {
            Some(Lit { value })
        }
    }

    /// The positive literal of an atom or a variable, a number from 1 to 2^31 - 1.
    pub fn positive(atom: u32) -> Lit
        requires above { 0 < atom }
        requires below { atom < 2 ^ 31 }
        ensures { result ≡ Pos atom }
    {
        Lit { value: atom as i32 }
    }

    /// The number of the literal: its atom, negated where the literal is negative. Not 0.
    pub fn value(self) -> i32
        ensures is { result ≡ integer_of self }
        ensures back { literal_of result ≡ self }
        ensures nonzero { result ≢ pos 0 }
    {
        self.value
    }

    /// The atom or variable of the literal, a number from 1 to 2^31 - 1.
    pub fn var(self) -> u32
        ensures is { result ≡ atom_of self }
        ensures above { 0 < result }
        ensures below { result < 2 ^ 31 }
    {
        self.value.unsigned_abs()
    }

    /// Whether the literal is an atom or variable itself, and not its negation.
    pub fn is_positive(self) -> bool
        ensures { result ≡ is_positive self }
    {
        self.value > 0
    }

    /// The literal of the same atom that holds where this one does not.
    pub fn negate(self) -> Lit
        ensures { result ≡ negation self }
    {
        Lit { value: -self.value }
    }
}

/// The literal of atom 1: a small vector fills its free places with it.
impl Default for Lit {
    ghost is_default = { λ lit. lit ≡ Pos 1 };

    fn default() -> Lit {
        Lit { value: 1 }
    }
}
