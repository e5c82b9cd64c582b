//! What a set breaks: bodies, heads and rules.

ghost use Rattle.std.specs.Prelude.{◌≡◌, ◌-◌, cond, int_le};
ghost use Rattle.std.specs.List.{AllByRecursion};
ghost use Rattle.asp_base.specs.Literal.{literal_holds};
ghost use Rattle.asp_base.specs.Sets.{members};
ghost use Rattle.ground_program.specs.Broken.{head_fails, breaks};
ghost use Rattle.ground_program.specs.Facts.{FitsBodyWeight, FitsWeight};
ghost use Rattle.ground_program.specs.Stable.{weight_of, holds};
ghost use Rattle.stable_check.specs.private.Lack.{natural, naturals, total, WeightsFit};

use crate::lacks::natural;
use asp_base::Lit;
use evaluation::{all_hold, literal_holds};
use ground_program::{AtomSet, Body, Head, Rule};

/// What is lacking once the literal has its say.
fn less(set: &AtomSet, lit: Lit, weight: u32, lacking: u32) -> u32
    ensures { result ≡ lacking - cond (literal_holds lit (members set.now) (members set.now)) weight 0 }
{
    if literal_holds(set, lit) {
        lacking.saturating_sub(weight)
    } else {
        lacking
    }
}

/// What is missing of the bound in the set.
fn lack(set: &AtomSet, bound: i64, items: &[(Lit, i64)]) -> u32
    requires bound { FitsWeight bound }
    requires fits { AllByRecursion (λ item. FitsBodyWeight item.1) items.now }
    ensures { result ≡ natural bound - total (naturals items.now) (members set.now) (members set.now) }
{
    let mut lacking = natural(bound);
    for item in items {
        lacking = less(set, item.0, natural(item.1), lacking);
    }
    lacking
}

/// Whether the weights of the items that hold in the set reach the bound.
fn sum_reaches(set: &AtomSet, bound: i64, items: &[(Lit, i64)]) -> bool
    requires bound { FitsWeight bound }
    requires fits { AllByRecursion (λ item. FitsBodyWeight item.1) items.now }
    ensures { result ≡ int_le bound (weight_of items.now (members set.now) (members set.now)) }
{
    lack(set, bound, items) == 0
}

/// Whether the body holds in the set.
pub(crate) fn body_holds(set: &AtomSet, body: &Body) -> bool
    requires { WeightsFit body.now }
    ensures { result ≡ holds body.now (members set.now) (members set.now) }
{
    match body {
        Body::All(lits) => all_hold(set, lits.as_slice()),
        Body::Sum { bound, items } => sum_reaches(set, *bound, items.as_slice()),
    }
}

/// Whether the head asks for what the set does not have.
fn head_fails(set: &AtomSet, head: &Head) -> bool
    ensures { result ≡ head_fails head.now (members set.now) }
{
    match head {
        Head::Nothing => true,
        Head::One(atom) => !set.contains(*atom),
        Head::Choice(_) => false,
    }
}

/// Whether the set breaks the rule.
pub(crate) fn breaks(set: &AtomSet, rule: &Rule) -> bool
    requires { WeightsFit rule.now.body }
    ensures { result ≡ breaks rule.now (members set.now) }
{
    body_holds(set, &rule.body) && head_fails(set, &rule.head)
}
