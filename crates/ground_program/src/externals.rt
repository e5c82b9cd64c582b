//! The rules of external atoms.

ghost use Rattle.std.specs.Prelude.{◌≡◌, ◌++◌, ◌≤◌, drop, length, OnOk};
ghost use Rattle.std.specs.List.Sorted.{IsPermutation, IsSortedByKey, IsStableByKey};
ghost use Rattle.std.specs.Ordering.{nat_cmp};
ghost use Rattle.ground_program.specs.Draft.{external_rule, external_rules};
ghost use Rattle.ground_program.specs.private.Externals.{begins_with, rules_of_setting, rules_of_last};

use crate::atom_set::AtomSet;
use crate::builder::External;
use crate::gather::push_heads;
use crate::lists::{AtomList, LitList};
use crate::program::{Body, Head, Rule, RuleList};
use asp_base::Memory;
use std::alloc::Global;

/// Puts the rules of the external atoms that head no rule behind the others, by rising atom. The last
/// setting of an atom counts.
pub(crate) fn push_external_rules(
    alloc: Global,
    rules: &mut RuleList,
    mut externals: Vec<(u32, External)>,
) -> Result<(), Memory>
    ensures { OnOk result (rules.new ≡ rules.old ++ external_rules rules.old externals.items) }
{
    if externals.is_empty() {
        return Ok(());
    }
    let mut heads = Vec::new(alloc);
    push_heads(&mut heads, rules.as_slice())?;
    sort_settings(&mut externals)?;
    let heads = AtomSet::of_vec(alloc, heads)?;
    push_last_settings(alloc, rules, &heads, externals.as_slice())
}

/// By rising atom; the settings of one atom keep their order.
fn sort_settings(externals: &mut Vec<(u32, External)>) -> Result<(), Memory>
    ensures permutation { IsPermutation externals.old.items externals.new.items }
    ensures sorted { OnOk result (IsSortedByKey (λ set. set.0) nat_cmp externals.new.items) }
    ensures stable { IsStableByKey (λ set. set.0) nat_cmp externals.old.items externals.new.items }
{
    Ok(externals.sort_by_key(|set| set.0)?)
}

/// The rules of the last of neighbouring settings of one atom.
fn push_last_settings(
    alloc: Global,
    rules: &mut RuleList,
    heads: &AtomSet,
    sorted: &[(u32, External)],
) -> Result<(), Memory>
    ensures { OnOk result (rules.new ≡ rules.old ++ rules_of_last heads.now sorted.now) }
{
    for (i, set) in sorted.iter().enumerate() {
        if !is_of(sorted, i + 1, set.0) {
            push_setting(alloc, rules, heads, *set)?;
        }
    }
    Ok(())
}

/// The setting at this index is there, and of this atom.
fn is_of(sorted: &[(u32, External)], index: usize, atom: u32) -> bool
    ensures { result ≡ begins_with atom (drop index sorted.now) }
{
    index < sorted.len() && sorted[index].0 == atom
}

fn push_setting(
    alloc: Global,
    rules: &mut RuleList,
    heads: &AtomSet,
    set: (u32, External),
) -> Result<(), Memory>
    ensures { OnOk result (rules.new ≡ rules.old ++ rules_of_setting heads.now set) }
{
    if heads.contains(set.0) {
        return Ok(());
    }
    push_rule_of(alloc, rules, set.0, set.1)
}

fn push_rule_of(
    alloc: Global,
    rules: &mut RuleList,
    atom: u32,
    value: External,
) -> Result<(), Memory>
    ensures { OnOk result (rules.new ≡ rules.old ++ external_rule atom value) }
{
    let head = match value {
        External::Free => {
            let mut atoms = Vec::new(alloc);
            atoms.push(atom)?;
            Head::Choice(AtomList::from_vec(atoms))
        }
        External::True => Head::One(atom),
        External::False | External::Release => return Ok(()),
    };
    let body = Body::All(LitList::new(alloc));
    rules.push(Rule { head, body })
}
