//! The items of a sum that count: those of weight 0 are left out, and the weights are cut to the bound.

ghost use Rattle.std.specs.Prelude.{◌≡◌, ◌==◌, ◌<◌, ◌^◌, leb, map, IfOk};
ghost use Rattle.std.specs.List.{list_all};
ghost use Rattle.ground_program.specs.Radix.{number_of, cut_weights, total};
ghost use Rattle.ground_program.specs.private.Levels.{AreCut};

use asp_base::{Lit, Memory};
use ground_program::LitList;
use std::alloc::Global;

/// The number, and 0 for one that is negative.
pub(crate) fn number_of(n: i64) -> u64
    ensures { result ≡ number_of n }
{
    if n <= 0 { 0 } else { n as u64 }
}

/// The items without those of weight 0, each weight cut to the bound.
pub(crate) fn kept_items(
    alloc: Global,
    items: &[(Lit, i64)],
    bound: u64,
) -> Result<Vec<(Lit, u64)>, Memory>
    ensures { IfOk result (λ kept. kept.items ≡ cut_weights bound items.now) }
{
    let mut kept = Vec::new(alloc);
    for item in items {
        let weight = number_of(item.1);
        if weight != 0 {
            kept.push((item.0, weight.min(bound)))?;
        }
    }
    Ok(kept)
}

/// Whether all the weights together reach the bound.
pub(crate) fn total_reaches(items: &[(Lit, u64)], bound: u64) -> bool
    requires positive { 0 < bound }
    requires small { bound < 2 ^ 63 }
    requires cut { AreCut bound items.now }
    ensures { result ≡ leb bound (total items.now) }
{
    let mut total = 0;
    for item in items {
        total += item.1;
        if total >= bound {
            return true;
        }
    }
    false
}

/// Whether all weights are this one.
pub(crate) fn are_equal(items: &[(Lit, u64)], weight: u64) -> bool
    ensures { result ≡ list_all (λ item. item.1 == weight) items.now }
{
    for item in items {
        if item.1 != weight {
            return false;
        }
    }
    true
}

/// The literals of the items.
pub(crate) fn lits_of(alloc: Global, items: &[(Lit, u64)]) -> Result<LitList, Memory>
    ensures { IfOk result (λ lits. lits ≡ map (λ item. item.0) items.now) }
{
    let mut lits = LitList::new(alloc);
    for item in items {
        lits.push(item.0)?;
    }
    Ok(lits)
}
