//! The least that each level may cost.

ghost use Rattle.std.specs.Prelude.{◌≡◌, ◌^◌, pos, neg_ℤ, ◌≤ℤ◌, int_lt, cond, map, IfOk};
ghost use Rattle.symbol_map.specs.Scale.{offset_of};
ghost use Rattle.soft_costs.specs.Softening.{offsets_of};

use asp_base::{Lit, Memory};
use ground_program::{CostList, Level};
use std::alloc::Global;

/// The least that each level may cost.
pub(crate) fn least_costs(alloc: Global, levels: &[Level]) -> Result<CostList, Memory>
    ensures { IfOk result (λ costs. costs ≡ offsets_of levels.now) }
{
    let mut costs = Vec::new(alloc);
    for level in levels {
        costs.push(least_cost(level.items.as_slice()))?;
    }
    Ok(CostList::from_vec(costs))
}

/// The sum of the negative weights.
fn least_cost(items: &[(Lit, i64)]) -> i128
    ensures { result ≡ offset_of items.now }
{
    let mut cost = 0;
    for item in items {
        cost += least_of_item(item);
    }
    cost
}

fn least_of_item(item: &(Lit, i64)) -> i128
    ensures is { result ≡ cond (int_lt item.now.1 (pos 0)) item.now.1 (pos 0) }
    ensures least { neg_ℤ (pos (2 ^ 63)) ≤ℤ result }
    ensures most { result ≤ℤ pos 0 }
{
    if item.1 < 0 { i128::from(item.1) } else { 0 }
}

/// The numbers as costs.
pub(crate) fn as_costs(alloc: Global, numbers: &[u64]) -> Result<CostList, Memory>
    ensures { IfOk result (λ costs. costs ≡ map (λ n. pos n) numbers.now) }
{
    let mut costs = Vec::new(alloc);
    for number in numbers {
        costs.push(i128::from(*number))?;
    }
    Ok(CostList::from_vec(costs))
}
