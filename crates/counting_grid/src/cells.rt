//! A row of a counting grid from the one before it and the next literal.

ghost use Rattle.std.specs.Prelude.{◌≡◌, ◌+◌, ◌-◌, ◌*◌, [], ◌∷◌, cond, min, length, IfOk, OnOk};
ghost use Rattle.rule_network.specs.Block.{Known, AllKnown, HasRoom, Adds, DefinesAll, value, values};
ghost use Rattle.counting_grid.specs.private.Rows.{first_value, first_says, pairs_say, last_says, next_says, next_length, Appends};

use asp_base::{Lit, Memory};
use ground_program::LitList;
use rule_network::{Network, all_of, any_of, one_or_all};
use std::alloc::Global;

/// The cell of at least one: the first of the row before holds, or the literal.
fn first_cell(net: &mut Network<'_>, before: &[Lit], lit: Lit) -> Result<Lit, Memory>
    requires room { HasRoom 1 net.old }
    requires before { AllKnown net.old before.now }
    requires lit { Known net.old lit }
    ensures defines { IfOk result (λ cell. DefinesAll net.old net.new (cell ∷ [])
        (λ X M. first_value (values net.old X M before.now) (value net.old X M lit))) }
    ensures adds { OnOk result (Adds 1 6 net.old net.new) }
{
    if before.is_empty() {
        return all_of(net, &[lit]);
    }
    any_of(net, &[before[0], lit])
}

/// Puts the cell of at least one behind the others, if it is wanted.
fn push_first(
    net: &mut Network<'_>,
    row: &mut LitList,
    before: &[Lit],
    lit: Lit,
    wanted: bool,
) -> Result<(), Memory>
    requires room { HasRoom (cond wanted 1 0) net.old }
    requires row { AllKnown net.old row.old }
    requires before { AllKnown net.old before.now }
    requires lit { Known net.old lit }
    ensures { OnOk result (Appends net.old net.new row.old row.new (first_says net.old before.now lit wanted)) }
{
    if !wanted {
        return Ok(());
    }
    let cell = first_cell(net, before, lit)?;
    row.push(cell)
}

/// Puts the cells that have one above them behind the others.
fn push_pairs(
    net: &mut Network<'_>,
    row: &mut LitList,
    before: &[Lit],
    lit: Lit,
) -> Result<(), Memory>
    requires room { HasRoom (length before.now - 1) net.old }
    requires row { AllKnown net.old row.old }
    requires before { AllKnown net.old before.now }
    requires lit { Known net.old lit }
    ensures { OnOk result (Appends net.old net.new row.old row.new (pairs_say net.old before.now lit)) }
{
    let pairs = before.len().saturating_sub(1);
    for i in 0..pairs {
        let cell = one_or_all(net, before[i + 1], &[before[i], lit])?;
        row.push(cell)?;
    }
    Ok(())
}

/// Puts the cell that has none above it behind the others, if it is wanted.
fn push_last(
    net: &mut Network<'_>,
    row: &mut LitList,
    before: &[Lit],
    lit: Lit,
    wanted: bool,
) -> Result<(), Memory>
    requires room { HasRoom (cond wanted (min 1 (length before.now)) 0) net.old }
    requires row { AllKnown net.old row.old }
    requires before { AllKnown net.old before.now }
    requires lit { Known net.old lit }
    ensures { OnOk result (Appends net.old net.new row.old row.new (last_says net.old before.now lit wanted)) }
{
    if !wanted {
        return Ok(());
    }
    if before.is_empty() {
        return Ok(());
    }
    let cell = all_of(net, &[before[before.len() - 1], lit])?;
    row.push(cell)
}

/// The row behind another one, for one more literal.
pub(crate) fn next_row(
    alloc: Global,
    net: &mut Network<'_>,
    before: &[Lit],
    lit: Lit,
    first: bool,
    last: bool,
) -> Result<LitList, Memory>
    requires room { HasRoom (next_length first last (length before.now)) net.old }
    requires before { AllKnown net.old before.now }
    requires lit { Known net.old lit }
    ensures row { IfOk result (λ row.
        Appends net.old net.new [] row (next_says net.old before.now lit first last)) }
{
    let mut row = LitList::new(alloc);
    push_first(net, &mut row, before, lit, first)?;
    push_pairs(net, &mut row, before, lit)?;
    push_last(net, &mut row, before, lit, last)?;
    Ok(row)
}
