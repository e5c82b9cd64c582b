//! Comparisons of a number with others, as literals. A comparison is made anew for each rule, so that a rule's gates
//! stand together.

ghost use Rattle.std.specs.Prelude.{◌≡◌, ◌+◌, ◌*◌, ◌<◌, ◌^◌, ◌++◌, length, OnOk};
ghost use Rattle.std.specs.List.{AllByRecursion};
ghost use Rattle.digit_gates.specs.DigitGates.{less_vars};
ghost use Rattle.level_ranking.specs.Encoding.{after_compared, compared};
ghost use Rattle.level_ranking.specs.private.Pairs.{IsPair, in_order, paired};

use asp_base::{Lit, Memory};
use clause_store::Store;
use digit_gates::less;
use ground_program::LitList;

/// Which number stands first where a number is compared with others: this one, or the other.
#[derive(Clone, Copy)]
pub(crate) enum First {
    Own,
    Other,
}

/// A number and another, in the order of a comparison.
fn in_order<'a>(first: First, x: &'a LitList, y: &'a LitList) -> (&'a LitList, &'a LitList)
    ensures { (result.0.now, result.1.now) ≡ in_order first x.now y.now }
{
    match first {
        First::Own => (x, y),
        First::Other => (y, x),
    }
}

/// Adds a literal for each of the numbers at these places, compared with `x`: it is true where the first of the two is
/// not below the second.
pub(crate) fn push_not_below(
    store: &mut Store,
    first: First,
    x: &LitList,
    digits: &[LitList],
    places: &[usize],
    out: &mut Vec<Lit>,
) -> Result<(), Memory>
    requires places { AllByRecursion (λ i. i < length digits.now) places.now }
    requires pairs { AllByRecursion (IsPair (length x.now) store.old.vars) (paired first x.now digits.now places.now) }
    requires room { store.old.vars + less_vars (length x.now) * length places.now < 2 ^ 31 }
    ensures store { OnOk result (store.new ≡ after_compared (paired first x.now digits.now places.now) store.old) }
    ensures literals { OnOk result
        (out.new.items ≡ out.old.items ++ compared (paired first x.now digits.now places.now) store.old) }
{
    for place in places {
        let (before, after) = in_order(first, x, &digits[*place]);
        let below = less(store, before, after)?;
        out.push(below.negate())?;
    }
    Ok(())
}
