//! Sums whose weights are from 1 to the bound, and together reach it: items of one weight are counted, others go level
//! by level.

ghost use Rattle.std.specs.Prelude.{◌≡◌, ◌==◌, ◌≤◌, ◌<◌, ◌^◌, true, leb, length, IfOk, OnOk};
ghost use Rattle.std.specs.List.{list_all};
ghost use Rattle.ground_program.specs.Radix.{cut_weights, total};
ghost use Rattle.ground_program.specs.Room.{equal_measure, least_number, items_measure};
ghost use Rattle.rule_network.specs.Block.{HasRoom, Defines, Adds};
ghost use Rattle.weight_rules.specs.private.Kept.{ItemsKnown};
ghost use Rattle.weight_rules.specs.private.Levels.{held, truths};

use crate::counts::at_least;
use crate::kept::{are_equal, lits_of};
use crate::planning::plan;
use crate::reach::reached;
use asp_base::{Lit, Memory};
use ground_program::LitList;
use rule_network::Network;
use std::alloc::Global;

/// A literal that holds exactly where items of one weight reach the bound.
fn equal_reached(
    alloc: Global,
    net: &mut Network<'_>,
    items: &[(Lit, u64)],
    weight: u64,
    bound: u64,
) -> Result<Lit, Memory>
    requires weight { 0 < weight }
    requires equal { list_all (λ item. item.1 == weight) items.now ≡ true }
    requires positive { 0 < bound }
    requires small { bound < 2 ^ 63 }
    requires light { weight ≤ bound }
    requires enough { bound ≤ total items.now }
    requires short { length items.now ≤ 2 ^ 24 }
    requires room { HasRoom (equal_measure (least_number bound weight) (length items.now)) net.old }
    requires items { ItemsKnown net.old items.now }
    ensures reaches { IfOk result (λ lit.
        Defines net.old net.new lit (λ X M. leb bound (held (truths net.old X M items.now)))) }
    ensures adds { let m = equal_measure (least_number bound weight) (length items.now) in
        OnOk result (Adds m m net.old net.new) }
{
    let lits = lits_of(alloc, items)?;
    let k = (bound + weight - 1) / weight;
    at_least(alloc, net, lits.as_slice(), k as usize)
}

/// A literal that holds exactly where the items reach the bound. The given items were cut to these.
pub(crate) fn cut_sum_reached(
    alloc: Global,
    net: &mut Network<'_>,
    given: &[(Lit, i64)],
    items: &mut [(Lit, u64)],
    bound: u64,
) -> Result<Lit, Memory>
    requires positive { 0 < bound }
    requires small { bound < 2 ^ 63 }
    requires cut { items.old ≡ cut_weights bound given.now }
    requires enough { bound ≤ total items.old }
    requires short { length items.old ≤ 2 ^ 24 }
    requires room { HasRoom (items_measure bound items.old) net.old }
    requires items { ItemsKnown net.old items.old }
    ensures reaches { IfOk result (λ lit.
        Defines net.old net.new lit (λ X M. leb bound (held (truths net.old X M items.old)))) }
    ensures adds { let m = items_measure bound items.old in OnOk result (Adds m m net.old net.new) }
{
    let weight = items[0].1;
    if are_equal(items, weight) {
        return equal_reached(alloc, net, items, weight, bound);
    }
    let plan = plan(alloc, given, bound as i64)?;
    let carries = LitList::new(alloc);
    reached(
        alloc,
        net,
        items,
        carries.as_slice(),
        bound,
        plan.radices.as_slice(),
        plan.tares.as_slice(),
    )
}
