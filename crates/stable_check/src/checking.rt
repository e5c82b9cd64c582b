//! Checks whether a set is a stable model: rules first, then required literals, the least model, and cycles of edges.

ghost use Rattle.std.specs.Prelude.{◌≡◌, ◌↔◌, Bool, not, map, length, IfOk, IsNone, IfSome};
ghost use Rattle.std.specs.List.{AllByRecursion, filter};
ghost use Rattle.asp_base.specs.Literal.{literal_holds};
ghost use Rattle.asp_base.specs.Sets.{members, Set, Within};
ghost use Rattle.asp_base.specs.Walks.{Acyclic};
ghost use Rattle.graph_cycles.specs.Cycle.{IsCycle};
ghost use Rattle.ground_program.specs.Broken.{breaks};
ghost use Rattle.ground_program.specs.Stable.{Stable, joined};
ghost use Rattle.stable_check.specs.private.Lack.{flag, WeightsFit};
ghost use Rattle.stable_check.specs.Verdicts.{first_where, unfounded, VerdictIs};
ghost use Rattle.stable_check.specs.private.Parts.{pairs, flagged};

use crate::least_model::least_model;
use crate::truth::breaks;
use crate::verdict::Verdict;
use asp_base::{Lit, Memory, Walk};
use evaluation::{all_hold, literal_holds};
use graph_cycles::find_cycle;
use ground_program::{AtomSet, Atoms, Edge, Program, Rule};
use std::alloc::Global;

/// The place, from 1, of the first rule that the set breaks.
fn first_broken(set: &AtomSet, rules: &[Rule]) -> Option<u64>
    requires { AllByRecursion (λ rule. WeightsFit rule.body) rules.now }
    ensures { result ≡ first_where (λ rule. breaks rule (members set.now)) rules.now }
{
    for (i, rule) in rules.iter().enumerate() {
        if breaks(set, rule) {
            return Some(i as u64 + 1);
        }
    }
    None
}

/// The place, from 1, of the first literal that does not hold.
fn first_failing(set: &AtomSet, lits: &[Lit]) -> Option<u64>
    ensures { result ≡ first_where (λ l. not (literal_holds l (members set.now) (members set.now))) lits.now }
{
    for (i, lit) in lits.iter().enumerate() {
        if !literal_holds(set, *lit) {
            return Some(i as u64 + 1);
        }
    }
    None
}

/// A flag for each atom: whether it is in the set.
fn flags(alloc: Global, atoms: &Atoms, set: &AtomSet) -> Result<Vec<bool>, Memory>
    ensures { IfOk result (λ flags. flags.items ≡ map (members set.now) atoms.now) }
{
    let mut flags = Vec::with_capacity(alloc, atoms.len())?;
    for atom in atoms.as_slice() {
        flags.push(set.contains(*atom))?;
    }
    Ok(flags)
}

/// Whether the atom is one of these and has a flag.
fn is_flagged(atoms: &Atoms, flags: &[bool], atom: u32) -> bool
    requires same { length flags.now ≡ length atoms.now }
    ensures { result ≡ flagged atoms.now flags.now atom }
{
    match atoms.place(atom) {
        Some(place) => flags[place as usize - 1],
        None => false,
    }
}

/// The atoms of the set that are not flagged.
fn not_flagged(
    alloc: Global,
    atoms: &Atoms,
    flags: &[bool],
    set: &AtomSet,
) -> Result<AtomSet, Memory>
    requires same { length flags.now ≡ length atoms.now }
    ensures { IfOk result (λ rest. rest ≡ filter (λ a. not (flagged atoms.now flags.now a)) set.now) }
{
    let members = set.atoms();
    let mut rest = Vec::new(alloc);
    for atom in members {
        if !is_flagged(atoms, flags, *atom) {
            rest.push(*atom)?;
        }
    }
    AtomSet::of_vec(alloc, rest)
}

/// The edges whose condition holds.
fn joined(alloc: Global, edges: &[Edge], set: &AtomSet) -> Result<Vec<(i32, i32)>, Memory>
    ensures { IfOk result (λ list. list.items ≡ pairs edges.now (members set.now)) }
{
    let mut list = Vec::new(alloc);
    for edge in edges {
        if all_hold(set, edge.condition.as_slice()) {
            list.push((edge.from, edge.to))?;
        }
    }
    Ok(list)
}

/// A cycle of the edges whose condition holds.
fn joined_cycle(alloc: Global, edges: &[Edge], set: &AtomSet) -> Result<Option<Walk>, Memory>
    ensures none { IfOk result (λ found. IsNone found → Acyclic (joined edges.now (members set.now))) }
    ensures cycle { IfOk result (λ found. IfSome found (λ walk. IsCycle (joined edges.now (members set.now)) walk)) }
{
    let list = joined(alloc, edges, set)?;
    find_cycle(alloc, list.as_slice())
}

/// All atoms of the set outside the least model of the reduct by it.
fn unfounded(alloc: Global, program: &Program, set: &AtomSet) -> Result<AtomSet, Memory>
    ensures { IfOk result (λ rest. rest ≡ unfounded program.now set.now) }
{
    program.known();
    let atoms = &program.atoms;
    let flags = flags(alloc, atoms, set)?;
    let model = least_model(alloc, program, flags.as_slice())?;
    not_flagged(alloc, atoms, model.as_slice(), set)
}

/// The first verdict that applies.
fn first_verdict(alloc: Global, program: &Program, set: &AtomSet) -> Result<Verdict, Memory>
    ensures { IfOk result (λ verdict. VerdictIs program.now set.now verdict) }
{
    program.known();
    if let Some(place) = first_broken(set, program.rules.as_slice()) {
        return Ok(Verdict::BrokenRule(place));
    }
    if let Some(place) = first_failing(set, program.required.as_slice()) {
        return Ok(Verdict::BrokenRequirement(place));
    }
    let rest = unfounded(alloc, program, set)?;
    if !rest.atoms().is_empty() {
        return Ok(Verdict::Unfounded(rest));
    }
    match joined_cycle(alloc, program.edges.as_slice(), set)? {
        Some(walk) => Ok(Verdict::Cycle(walk)),
        None => Ok(Verdict::Stable),
    }
}

/// The verdict on a set of atoms: the first that applies of a broken rule, a broken requirement, unfounded atoms and a
/// cycle, or that the set is a stable model.
pub fn check(alloc: Global, program: &Program, set: &AtomSet) -> Result<Verdict, Memory>
    ensures verdict { IfOk result (λ verdict. VerdictIs program.now set.now verdict) }
    // Stable exactly where the set is a stable model.
    ensures stable { IfOk result (λ verdict. (verdict ≡ Verdict.Stable) ↔ Stable program.now (members set.now)) }
{
    program.known();
    first_verdict(alloc, program, set)
}
