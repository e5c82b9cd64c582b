//! A sum in mixed radix, level by level. At a level with radix b and tare t the literals that its weights leave over
//! and the carries from below are ordered, and the entries at the places b - t, 2b - t, .. are the carries to the next
//! level: as many of them hold as b goes into the number of those that hold, with t added. Since b divides the bound
//! with t, the bound is reached exactly where the bound of the next level is reached there. At the top level the entry
//! at the place of the bound says so. Besides ordering, each level goes over the items twice and over its list once.
//!   J. Bomanson, M. Gebser, T. Janhunen. Improving the normalization of weight rules in answer set programs.
//!     JELIA 2014.

ghost use Rattle.std.specs.Prelude.{◌≡◌, ◌<◌, ◌≤◌, ◌+◌, ◌^◌, leb, length, IfOk, OnOk};
ghost use Rattle.ground_program.specs.Radix.{rest_sum, total};
ghost use Rattle.ground_program.specs.Room.{network_measure, levels_measure};
ghost use Rattle.rule_network.specs.Block.{AllKnown, HasRoom, Defines, Adds, values};
ghost use Rattle.rule_network.specs.Truths.{count};
ghost use Rattle.weight_rules.specs.private.Kept.{ItemsKnown};
ghost use Rattle.weight_rules.specs.private.Levels.{held, truths, IsPlan, Carries};

use crate::kept::number_of;
use crate::lists::{carries_of, divide, level_list, top_list};
use asp_base::{Lit, Memory};
use ground_program::LitList;
use merge_networks::ordered;
use rule_network::Network;
use std::alloc::Global;

/// The carries of a level to the next.
fn level_carries(
    alloc: Global,
    net: &mut Network<'_>,
    items: &[(Lit, u64)],
    carries: &[Lit],
    radix: u64,
    tare: u64,
) -> Result<LitList, Memory>
    requires tare { tare < radix }
    requires room { HasRoom (network_measure (rest_sum radix items.now + length carries.now)) net.old }
    requires items { ItemsKnown net.old items.now }
    requires carries { AllKnown net.old carries.now }
    ensures carries { IfOk result (λ next. Carries net.old net.new items.now carries.now next radix tare) }
    ensures adds { let m = network_measure (rest_sum radix items.now + length carries.now) in
        OnOk result (Adds m m net.old net.new) }
{
    let list = level_list(alloc, items, radix, carries)?;
    let sorted = ordered(alloc, net, list.as_slice())?;
    carries_of(alloc, sorted.as_slice(), radix, radix - tare - 1)
}

/// The top level: whether so many of its list hold.
fn reached_at_top(
    alloc: Global,
    net: &mut Network<'_>,
    items: &[(Lit, u64)],
    carries: &[Lit],
    bound: u64,
) -> Result<Lit, Memory>
    requires positive { 0 < bound }
    requires enough { bound ≤ total items.now + length carries.now }
    requires room { HasRoom (network_measure (total items.now + length carries.now)) net.old }
    requires items { ItemsKnown net.old items.now }
    requires carries { AllKnown net.old carries.now }
    ensures reaches { IfOk result (λ lit. Defines net.old net.new lit (λ X M.
        leb bound (held (truths net.old X M items.now) + count (values net.old X M carries.now)))) }
    ensures adds { let m = network_measure (total items.now + length carries.now) in
        OnOk result (Adds m m net.old net.new) }
{
    let list = top_list(alloc, items, carries)?;
    let sorted = ordered(alloc, net, list.as_slice())?;
    let entries = sorted.as_slice();
    Ok(entries[bound as usize - 1])
}

/// A literal that holds exactly where the weights of the items that hold, with the carries that do, reach the bound.
/// The items are left as they are at the top level.
pub(crate) fn reached(
    alloc: Global,
    net: &mut Network<'_>,
    items: &mut [(Lit, u64)],
    carries: &[Lit],
    bound: u64,
    radices: &[i64],
    tares: &[i64],
) -> Result<Lit, Memory>
    requires positive { 0 < bound }
    requires small { bound ≤ 2 ^ 63 }
    requires plan { IsPlan radices.now tares.now items.old bound }
    requires enough { bound ≤ total items.old + length carries.now }
    requires room { HasRoom (levels_measure (length radices.now) bound items.old (length carries.now)) net.old }
    requires items { ItemsKnown net.old items.old }
    requires carries { AllKnown net.old carries.now }
    ensures reaches { IfOk result (λ lit. Defines net.old net.new lit (λ X M.
        leb bound (held (truths net.old X M items.old) + count (values net.old X M carries.now)))) }
    ensures adds { let m = levels_measure (length radices.now) bound items.old (length carries.now) in
        OnOk result (Adds m m net.old net.new) }
{
    if radices.is_empty() {
        return reached_at_top(alloc, net, items, carries, bound);
    }
    let radix = number_of(radices[0]);
    let tare = number_of(tares[0]);
    let next = level_carries(alloc, net, items, carries, radix, tare)?;
    divide(items, radix);
    reached(
        alloc,
        net,
        items,
        next.as_slice(),
        (bound + tare) / radix,
        &radices[1..],
        &tares[1..],
    )
}
