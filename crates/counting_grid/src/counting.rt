//! A counting grid: cell (i, j) says that at least j of the first i literals hold. It does where at least j of the
//! first i - 1 do, or at least j - 1 of them and the literal i. Only cells that the last one rests on are built, so for
//! at least k of n literals there are k (n - k + 1) of them, with at most two rules each: few where k is low or near n;
//! between, a network that orders the literals has fewer.
//!   C. Sinz. Towards an optimal CNF encoding of Boolean cardinality constraints. CP 2005.
//!   J. Bomanson, M. Gebser, T. Janhunen. Improving the normalization of weight rules in answer set programs.
//!     JELIA 2014.

ghost use Rattle.std.specs.Prelude.{◌≡◌, ◌+◌, ◌-◌, ◌*◌, ◌<◌, ◌≤◌, leb, length, IfOk, OnOk};
ghost use Rattle.rule_network.specs.Block.{AllKnown, HasRoom, Adds, Defines, values};
ghost use Rattle.rule_network.specs.Truths.{count};

use crate::cells::next_row;
use asp_base::{Lit, Memory};
use ground_program::LitList;
use rule_network::Network;
use std::alloc::Global;

/// A literal that holds exactly where at least k of these hold. For n literals at most `k * (n - k + 1)` atoms are
/// added, with at most two rules each.
pub fn grid(alloc: Global, net: &mut Network<'_>, lits: &[Lit], k: usize) -> Result<Lit, Memory>
    requires least { 0 < k }
    requires most { k ≤ length lits.now }
    requires room { HasRoom (k * (length lits.now - k + 1)) net.old }
    requires known { AllKnown net.old lits.now }
    ensures defines { IfOk result (λ lit.
        Defines net.old net.new lit (λ X M. leb k (count (values net.old X M lits.now)))) }
    ensures adds { OnOk result
        (Adds (k * (length lits.now - k + 1)) (6 * (k * (length lits.now - k + 1))) net.old net.new) }
{
    let width = lits.len() - k + 1;
    let mut row = LitList::new(alloc);
    for i in 0..lits.len() {
        let next = next_row(alloc, net, row.as_slice(), lits[i], i < width, i < k)?;
        row = next;
    }
    let cells = row.as_slice();
    Ok(cells[0])
}
