//! Costs: for each level the sum of the weights of the items whose literal holds.

ghost use Rattle.std.specs.Prelude.{◌≡◌, ◌^◌, pos, neg_ℤ, ◌≤ℤ◌, cond, IfOk};
ghost use Rattle.std.specs.List.{AllByRecursion};
ghost use Rattle.asp_base.specs.Literal.{literal_holds};
ghost use Rattle.ground_program.specs.Facts.{FitsWeight};
ghost use Rattle.ground_program.specs.Stable.{weight_of, costs_of};

use crate::literals::literal_holds;
use asp_base::{Interpretation, Lit, Memory};
use ground_program::{CostList, Level};
use std::alloc::Global;

/// The cost of each level.
pub(crate) fn costs<I: Interpretation>(
    alloc: Global,
    truth: &I,
    levels: &[Level],
) -> Result<CostList, Memory>
    requires { AllByRecursion (λ level. AllByRecursion (λ item. FitsWeight item.1) level.items) levels.now }
    ensures { IfOk result (λ costs. costs ≡ costs_of levels.now (I.truth truth.now)) }
{
    let mut costs = Vec::new(alloc);
    for level in levels {
        costs.push(cost_of_items(truth, level.items.as_slice()))?;
    }
    Ok(CostList::from_vec(costs))
}

/// The sum of the weights of the items whose literal holds.
fn cost_of_items<I: Interpretation>(truth: &I, items: &[(Lit, i64)]) -> i128
    requires { AllByRecursion (λ item. FitsWeight item.1) items.now }
    ensures is { result ≡ weight_of items.now (I.truth truth.now) (I.truth truth.now) }
    ensures least { neg_ℤ (pos (2 ^ 95)) ≤ℤ result }
    ensures most { result ≤ℤ pos (2 ^ 95) }
{
    let mut cost = 0;
    for item in items {
        cost += cost_of_item(truth, item);
    }
    cost
}

/// What an item adds to the cost of its level: its weight where its literal holds, else 0.
fn cost_of_item<I: Interpretation>(truth: &I, item: &(Lit, i64)) -> i128
    ensures { result ≡ cond (literal_holds item.now.0 (I.truth truth.now) (I.truth truth.now)) item.now.1 (pos 0) }
{
    if literal_holds(truth, item.0) {
        i128::from(item.1)
    } else {
        0
    }
}
