//! The rules of a program by their heads: the places of the heads among the atoms, each with the place of its rule, and
//! these put together by the heads.

ghost use Rattle.std.specs.Prelude.{◌≡◌, ◌<◌, ◌≤◌, ◌^◌, ◌++◌, ℕ, length, slice_index, EachIndex, IfOk, OnOk};
ghost use Rattle.std.specs.List.{AllByRecursion};
ghost use Rattle.graph_parts.specs.Groups.{AreGroups, pair_at};
ghost use Rattle.ground_program.specs.Facts.{Among, HeadFits, RuleFits};
ghost use Rattle.completion.specs.Heads.{head_pairs, heads_from};

use asp_base::Memory;
use graph_parts::{Groups, grouped};
use ground_program::{Atoms, Head, Rule};
use std::alloc::Global;

/// Adds the place of a head, from 0, with that of its rule.
fn push_head(
    pairs: &mut Vec<(u32, u32)>,
    atoms: &Atoms,
    head: &Head,
    place: u32,
) -> Result<(), Memory>
    requires { HeadFits (Among atoms.now) head.now }
    ensures { OnOk result (pairs.new.items ≡ pairs.old.items ++ head_pairs atoms.now head.now place) }
{
    if let Head::One(atom) = head {
        let Some(variable) = atoms.place(*atom) else {
            unreachable!()
        };
        pairs.push((variable - 1, place))?;
    }
    Ok(())
}

/// The places of the heads among the atoms, from 0, each with that of its rule, in the order of the rules; a rule
/// without head has none. `Memory` where there is none for them.
pub fn heads(alloc: Global, atoms: &Atoms, rules: &[Rule]) -> Result<Vec<(u32, u32)>, Memory>
    requires fit { AllByRecursion (RuleFits (Among atoms.now)) rules.now }
    requires few { length rules.now < 2 ^ 32 }
    ensures pairs { IfOk result (λ pairs. pairs.items ≡ heads_from atoms.now 0 rules.now) }
    ensures few { IfOk result (λ pairs. length pairs.items ≤ length rules.now) }
    ensures keys { IfOk result (λ pairs. (j : ℕ) → j < length pairs.items
        → (pair_at pairs.items j).0 < length atoms.now) }
    ensures places { IfOk result (λ pairs. (j : ℕ) → j < length pairs.items
        → (pair_at pairs.items j).1 < length rules.now) }
{
    let mut pairs = Vec::with_capacity(alloc, rules.len())?;
    for (i, rule) in rules.iter().enumerate() {
        push_head(&mut pairs, atoms, &rule.head, i as u32)?;
    }
    Ok(pairs)
}

/// The places of the rules put together under those of their heads, from 0, in the order of the rules. What they are
/// put together from is gone when it returns.
pub(crate) fn rules_by_head(alloc: Global, atoms: &Atoms, rules: &[Rule]) -> Result<Groups, Memory>
    requires fit { AllByRecursion (RuleFits (Among atoms.now)) rules.now }
    requires few { length rules.now < 2 ^ 32 }
    ensures groups { IfOk result (λ groups. AreGroups (heads_from atoms.now 0 rules.now) (length atoms.now)
        groups.starts groups.values) }
    ensures places { IfOk result (λ groups. EachIndex groups.values
        (λ j. slice_index groups.values j < length rules.now)) }
{
    let pairs = heads(alloc, atoms, rules)?;
    grouped(alloc, pairs.as_slice(), atoms.len())
}
