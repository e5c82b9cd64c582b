//! Literals and conditions.

ghost use Rattle.std.specs.Prelude.{◌≡◌};
ghost use Rattle.asp_base.specs.Literal.{literal_holds, all_hold};

use asp_base::{Interpretation, Lit};

/// Whether the literal holds.
pub fn literal_holds<I: Interpretation>(truth: &I, lit: Lit) -> bool
    ensures { result ≡ literal_holds lit (I.truth truth.now) (I.truth truth.now) }
{
    truth.is_true(lit.var()) == lit.is_positive()
}

/// Whether all the literals hold.
pub fn all_hold<I: Interpretation>(truth: &I, lits: &[Lit]) -> bool
    ensures { result ≡ all_hold lits.now (I.truth truth.now) (I.truth truth.now) }
{
    for lit in lits {
        if !literal_holds(truth, *lit) {
            return false;
        }
    }
    true
}
