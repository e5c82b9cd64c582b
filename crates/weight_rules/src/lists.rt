//! The lists of a level: what is ordered there, and which entries of the ordered list are the carries to the next.

ghost use Rattle.std.specs.Prelude.{◌≡◌, ◌<◌, ◌++◌, replicate, IfOk, OnOk};
ghost use Rattle.ground_program.specs.Radix.{divided};
ghost use Rattle.weight_rules.specs.private.Levels.{picked, rest_lits, all_lits};

use asp_base::{Lit, Memory};
use ground_program::LitList;
use std::alloc::Global;

/// Puts a literal so many times behind others.
fn push_times(list: &mut LitList, lit: Lit, times: u64) -> Result<(), Memory>
    ensures { OnOk result (list.new ≡ list.old ++ replicate times lit) }
{
    for _ in 0..times {
        list.push(lit)?;
    }
    Ok(())
}

/// Puts literals behind others.
fn push_all(list: &mut LitList, more: &[Lit]) -> Result<(), Memory>
    ensures { OnOk result (list.new ≡ list.old ++ more.now) }
{
    for lit in more {
        list.push(*lit)?;
    }
    Ok(())
}

/// The list of a level: each literal so many times as its weight leaves over, and then the carries from below.
pub(crate) fn level_list(
    alloc: Global,
    items: &[(Lit, u64)],
    radix: u64,
    carries: &[Lit],
) -> Result<LitList, Memory>
    requires { 0 < radix }
    ensures { IfOk result (λ list. list ≡ rest_lits radix items.now ++ carries.now) }
{
    let mut list = LitList::new(alloc);
    for item in items {
        push_times(&mut list, item.0, item.1 % radix)?;
    }
    push_all(&mut list, carries)?;
    Ok(list)
}

/// The list of the top level: each literal so many times as its weight says, and then the carries from below.
pub(crate) fn top_list(
    alloc: Global,
    items: &[(Lit, u64)],
    carries: &[Lit],
) -> Result<LitList, Memory>
    ensures { IfOk result (λ list. list ≡ all_lits items.now ++ carries.now) }
{
    let mut list = LitList::new(alloc);
    for item in items {
        push_times(&mut list, item.0, item.1)?;
    }
    push_all(&mut list, carries)?;
    Ok(list)
}

/// One entry after so many, and then every one that is as many places further as the radix says.
pub(crate) fn carries_of(
    alloc: Global,
    list: &[Lit],
    radix: u64,
    skip: u64,
) -> Result<LitList, Memory>
    requires { 0 < radix }
    ensures { IfOk result (λ carries. carries ≡ picked radix skip list.now) }
{
    let mut carries = LitList::new(alloc);
    let mut left = skip;
    for lit in list {
        if left == 0 {
            carries.push(*lit)?;
            left = radix - 1;
        } else {
            left -= 1;
        }
    }
    Ok(carries)
}

/// Makes the items those of the next level.
pub(crate) fn divide(items: &mut [(Lit, u64)], radix: u64)
    requires { 0 < radix }
    ensures { items.new ≡ divided radix items.old }
{
    for item in items.iter_mut() {
        item.1 /= radix;
    }
}
