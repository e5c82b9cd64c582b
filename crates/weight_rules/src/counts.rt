//! At least k of n literals: by a counting grid, or by a network that orders them, whichever is smaller by its measure.
//! A grid has k (n - k + 1) cells, few where k is near to 1 or to n; a network grows with n and the square of the
//! number of digits of n.
//!   J. Bomanson, M. Gebser, T. Janhunen. Improving the normalization of weight rules in answer set programs.
//!     JELIA 2014.

ghost use Rattle.std.specs.Prelude.{◌≡◌, ◌≤◌, ◌<◌, ◌^◌, leb, length, IfOk, OnOk};
ghost use Rattle.ground_program.specs.Room.{network_measure, equal_measure};
ghost use Rattle.rule_network.specs.Block.{AllKnown, HasRoom, Defines, Adds, values};
ghost use Rattle.rule_network.specs.Truths.{count};
ghost use Rattle.weight_rules.specs.private.Counts.{takes_grid};

use asp_base::{Lit, Memory};
use counting_grid::grid;
use ground_program::digits;
use merge_networks::ordered;
use rule_network::{Network, all_of, any_of};
use std::alloc::Global;

/// Whether a grid is at most as large as a network that orders the literals may be.
fn takes_grid(k: u64, n: u64) -> bool
    requires most { k ≤ n }
    requires short { n ≤ 2 ^ 24 }
    ensures { result ≡ takes_grid k n }
{
    let d = digits(n);
    6 * (k * (n - k + 1)) <= 9 * (n * (d * d))
}

/// The entry of the ordered literals that says that at least k hold.
fn sorted_entry(alloc: Global, net: &mut Network<'_>, lits: &[Lit], k: usize) -> Result<Lit, Memory>
    requires least { 0 < k }
    requires most { k ≤ length lits.now }
    requires room { HasRoom (network_measure (length lits.now)) net.old }
    requires known { AllKnown net.old lits.now }
    ensures defines { IfOk result (λ lit.
        Defines net.old net.new lit (λ X M. leb k (count (values net.old X M lits.now)))) }
    ensures adds { let m = network_measure (length lits.now) in OnOk result (Adds m m net.old net.new) }
{
    let sorted = ordered(alloc, net, lits)?;
    let entries = sorted.as_slice();
    Ok(entries[k - 1])
}

/// A literal that holds exactly where at least k of these do. One literal stands for itself.
pub(crate) fn at_least(
    alloc: Global,
    net: &mut Network<'_>,
    lits: &[Lit],
    k: usize,
) -> Result<Lit, Memory>
    requires least { 0 < k }
    requires most { k ≤ length lits.now }
    requires short { length lits.now ≤ 2 ^ 24 }
    requires room { HasRoom (equal_measure k (length lits.now)) net.old }
    requires known { AllKnown net.old lits.now }
    ensures defines { IfOk result (λ lit.
        Defines net.old net.new lit (λ X M. leb k (count (values net.old X M lits.now)))) }
    ensures adds { let m = equal_measure k (length lits.now) in OnOk result (Adds m m net.old net.new) }
{
    if lits.len() == 1 {
        return Ok(lits[0]);
    }
    if k == 1 {
        return any_of(net, lits);
    }
    if k == lits.len() {
        return all_of(net, lits);
    }
    if takes_grid(k as u64, lits.len() as u64) {
        return grid(alloc, net, lits, k);
    }
    sorted_entry(alloc, net, lits, k)
}
