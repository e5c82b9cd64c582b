//! Whether a sum of weights reaches its bound, by rules.

ghost use Rattle.std.specs.Prelude.{◌≡◌, ◌≤◌, ◌<◌, ◌≤ℤ◌, ◌^◌, pos, length, IfOk, OnOk};
ghost use Rattle.std.specs.List.{AllByRecursion};
ghost use Rattle.ground_program.specs.Room.{sum_measure};
ghost use Rattle.rule_network.specs.Block.{Known, HasRoom, Adds};
ghost use Rattle.weight_rules.specs.Sum.{Reaches};

use crate::kept::{kept_items, total_reaches};
use crate::sums::cut_sum_reached;
use asp_base::{Lit, Memory};
use rule_network::Network;
use std::alloc::Global;

/// Whether a sum reaches its bound: always, never, or where a literal holds.
#[derive(Clone, Copy)]
pub enum Reach {
    Always,
    Never,
    By(Lit),
}

/// Whether the weights of the items that hold reach a positive bound.
fn positive_sum_reached(
    alloc: Global,
    net: &mut Network<'_>,
    items: &[(Lit, i64)],
    bound: u64,
) -> Result<Reach, Memory>
    requires positive { 0 < bound }
    requires small { bound < 2 ^ 63 }
    requires weights { AllByRecursion (λ item. pos 0 ≤ℤ item.1) items.now }
    requires short { length items.now ≤ 2 ^ 24 }
    requires known { AllByRecursion (λ item. Known net.old item.0) items.now }
    requires room { HasRoom (sum_measure (pos bound) items.now) net.old }
    ensures reaches { IfOk result (λ reach. Reaches (pos bound) items.now net.old net.new reach) }
    ensures adds { let m = sum_measure (pos bound) items.now in OnOk result (Adds m m net.old net.new) }
{
    let mut kept = kept_items(alloc, items, bound)?;
    if !total_reaches(kept.as_slice(), bound) {
        return Ok(Reach::Never);
    }
    let lit = cut_sum_reached(alloc, net, items, kept.as_mut_slice(), bound)?;
    Ok(Reach::By(lit))
}

/// Whether the weights of the items that hold reach the bound: always where the bound is not positive, never where it
/// is above all the weights together, else where the literal holds. The rules that are added for it are at most as
/// large as what the sum counts in the room of a program. After `Memory` the network is of no use.
pub fn sum_at_least(
    alloc: Global,
    net: &mut Network<'_>,
    items: &[(Lit, i64)],
    bound: i64,
) -> Result<Reach, Memory>
    requires weights { AllByRecursion (λ item. pos 0 ≤ℤ item.1) items.now }
    requires short { length items.now ≤ 2 ^ 24 }
    requires known { AllByRecursion (λ item. Known net.old item.0) items.now }
    requires room { HasRoom (sum_measure bound items.now) net.old }
    ensures reaches { IfOk result (λ reach. Reaches bound items.now net.old net.new reach) }
    ensures adds { let m = sum_measure bound items.now in OnOk result (Adds m m net.old net.new) }
{
    if bound <= 0 {
        return Ok(Reach::Always);
    }
    positive_sum_reached(alloc, net, items, bound as u64)
}
