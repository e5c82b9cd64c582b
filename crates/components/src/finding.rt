//! The components of a program: its links, the parts of their graph among the atoms' nodes by one walk with stacks of
//! its own (`graph_parts`), sums for the measures where a component is cyclic, and the atoms of each component by a
//! counting sort. All of it is linear in the program. Where no body has a positive literal, nothing is linked, and
//! nothing but the numbers is kept.

ghost use Rattle.std.specs.Prelude.{ℕ, min, ◌≡◌, ◌+◌, ◌-◌, ◌^◌, ◌<◌, ◌≤◌, true, false, [], length, map, slice_index, IfOk, EachIndex};
ghost use Rattle.std.specs.List.{AllByRecursion};
ghost use Rattle.ground_program.specs.Dependencies.{positives_of_body};
ghost use Rattle.ground_program.specs.Facts.{Among, RuleFits};
ghost use Rattle.ground_program.specs.Tangle.{AreCyclicComponents};
ghost use Rattle.ground_program.specs.declared.program.Rule.{Rule};
ghost use Rattle.components.specs.Components.{AreComponents};
ghost use Rattle.components.specs.Divided.{cyclic_parts, members_of};
ghost use Rattle.components.specs.Parts.{ArePartsOf};
ghost use Rattle.components.specs.private.Adding.{added};
ghost use Rattle.components.specs.private.Kept.{CountUp, HasEntries, HaveSums, HoldMembers, IsNoneCyclic, divided, numbered};
ghost use Rattle.graph_parts.specs.Groups.{AreGroups};
ghost use Rattle.components.specs.private.Links.{links_of_rules};

use crate::adding::{Sums, added};
use crate::costs::{odd_ones, ones, terms};
use crate::links::{has_positive, links_of};
use crate::parts::{Members, Parts};
use asp_base::Memory;
use graph_parts::{Groups, Parts as GraphParts, grouped, parts_among, parts_apart};
use ground_program::{Atoms, Program, Rule};
use std::alloc::Global;

/// So many nodes are not numbered, and so many links not put together.
const TOO_MANY: usize = 0xffff_ffff;

/// The components of a program's positive dependencies: an atom depends on each atom that stands positive in the body
/// of a rule with it in the head, whatever the kinds of head and body. Their numbers run from 1 on, and a component
/// depends on lower ones and itself alone. In time linear in the program's size, where the numbers of the atoms lie
/// close together. `Memory` where there is none left, and where atoms and rules together, or the links, are 2^32 - 1 or
/// more.
pub fn components(alloc: Global, program: &Program) -> Result<Parts, Memory>
    ensures parts { IfOk result (λ parts. ArePartsOf program.now parts) }
    ensures cyclic { IfOk result (λ parts. AreCyclicComponents program.now.rules (cyclic_parts parts)) }
{
    program.known();
    found(alloc, program)
}

fn found(alloc: Global, program: &Program) -> Result<Parts, Memory>
    ensures { IfOk result (λ parts. ArePartsOf program.now parts) }
{
    program.known();
    let rules = program.rules.as_slice();
    if rules.len() >= TOO_MANY - program.atoms.len() {
        return Err(Memory);
    }
    if !has_positive(rules) {
        let parts = alone(alloc, program)?;
        return put_together(alloc, &program.atoms, parts, Sums::none(alloc));
    }
    let edges = links_of(alloc, &program.atoms, program.atoms.len() as u32, rules)?;
    if edges.len() >= TOO_MANY {
        return Err(Memory);
    }
    let parts = places(alloc, program, edges.as_slice())?;
    let sums = sums(alloc, &program.atoms, edges.as_slice(), rules, &parts)?;
    put_together(alloc, &program.atoms, parts, sums)
}

/// The components of the atoms' places where no body has a positive literal: each is one atom, and none is cyclic.
fn alone(alloc: Global, program: &Program) -> Result<GraphParts, Memory>
    requires none { AllByRecursion (λ rule. positives_of_body rule.body ≡ []) program.now.rules }
    ensures sized { IfOk result (λ parts. length parts.numbers ≡ length program.now.atoms) }
    ensures most { IfOk result (λ parts. EachIndex parts.numbers (λ u. slice_index parts.numbers u ≤ parts.count)) }
    ensures components { IfOk result (λ parts. AreComponents program.now parts.numbers parts.count parts.cyclic) }
    ensures cyclic { IfOk result (λ parts. IsNoneCyclic parts) }
{
    program.known();
    parts_apart(alloc, program.atoms.len() as u32)
}

/// The components of the atoms' places, by the links of the program.
fn places(alloc: Global, program: &Program, edges: &[(u32, u32)]) -> Result<GraphParts, Memory>
    requires edges { edges.now ≡ links_of_rules program.now.atoms (length program.now.atoms) program.now.rules }
    requires few { length program.now.atoms + length program.now.rules < 2 ^ 32 - 1 }
    requires links { length edges.now < 2 ^ 32 }
    ensures sized { IfOk result (λ parts. length parts.numbers ≡ length program.now.atoms) }
    ensures most { IfOk result (λ parts. EachIndex parts.numbers (λ u. slice_index parts.numbers u ≤ parts.count)) }
    ensures components { IfOk result (λ parts. AreComponents program.now parts.numbers parts.count parts.cyclic) }
{
    program.known();
    let first = program.atoms.len() as u32;
    let rules = program.rules.as_slice().len() as u32;
    parts_among(alloc, first + rules, first, edges)
}

/// Whether a component is cyclic.
fn is_any_cyclic(parts: &GraphParts) -> bool
    ensures { result ≡ false → IsNoneCyclic parts.now }
{
    for k in 0..parts.count() {
        if parts.is_cyclic(k + 1) {
            return true;
        }
    }
    false
}

/// What is added up for each component, if one is cyclic.
fn sums(
    alloc: Global,
    atoms: &Atoms,
    edges: &[(u32, u32)],
    rules: &[Rule],
    parts: &GraphParts,
) -> Result<Sums, Memory>
    requires fit { AllByRecursion (RuleFits (Among atoms.now)) rules.now }
    requires few { length atoms.now + length rules.now < 2 ^ 32 }
    requires edges { edges.now ≡ links_of_rules atoms.now (length atoms.now) rules.now }
    requires sized { length parts.now.numbers ≡ length atoms.now }
    requires most { EachIndex parts.now.numbers (λ u. slice_index parts.now.numbers u ≤ parts.now.count) }
    ensures { IfOk result (λ sums. HaveSums rules.now (λ i. members_of i atoms.now parts.now.numbers) parts.now
        sums.weights.items sums.terms.items sums.odd.items) }
{
    if !is_any_cyclic(parts) {
        return Ok(Sums::none(alloc));
    }
    let costs = ones(alloc, rules)?;
    let weights = added_over(alloc, atoms, edges, rules, parts, costs.as_slice(), 1)?;
    let costs = terms(alloc, rules)?;
    let terms = added_over(alloc, atoms, edges, rules, parts, costs.as_slice(), 0)?;
    let costs = odd_ones(alloc, rules)?;
    let odd = added_over(alloc, atoms, edges, rules, parts, costs.as_slice(), 0)?;
    Ok(Sums {
        weights,
        terms,
        odd,
    })
}

/// For each component the costs of the rules with a head in it, and so much for each positive literal of theirs over
/// it.
fn added_over(
    alloc: Global,
    atoms: &Atoms,
    edges: &[(u32, u32)],
    rules: &[Rule],
    parts: &GraphParts,
    costs: &[u64],
    each: u64,
) -> Result<Vec<u64>, Memory>
    requires fit { AllByRecursion (RuleFits (Among atoms.now)) rules.now }
    requires few { length atoms.now + length rules.now < 2 ^ 32 }
    requires edges { edges.now ≡ links_of_rules atoms.now (length atoms.now) rules.now }
    requires sized { length parts.now.numbers ≡ length atoms.now }
    requires most { EachIndex parts.now.numbers (λ u. slice_index parts.now.numbers u ≤ parts.now.count) }
    requires costs { length costs.now ≡ length rules.now }
    ensures sized { IfOk result (λ sums. length sums.items ≡ parts.now.count + 1) }
    ensures sums { IfOk result (λ sums. (cost : Rule → ℕ) → costs.now ≡ map cost rules.now
        → (i : ℕ) → i ≤ parts.now.count → slice_index sums.items i
        ≡ min (added (members_of i atoms.now parts.now.numbers) cost each rules.now) (2 ^ 63)) }
{
    added(alloc, edges, parts.numbers(), parts.count(), costs, each)
}

/// Components of atoms, from those of their places.
fn put_together(
    alloc: Global,
    atoms: &Atoms,
    parts: GraphParts,
    sums: Sums,
) -> Result<Parts, Memory>
    requires few { length atoms.now ≤ 2 ^ 30 }
    requires sized { length parts.numbers ≡ length atoms.now }
    requires most { EachIndex parts.numbers (λ u. slice_index parts.numbers u ≤ parts.count) }
    requires weights { HasEntries parts sums.weights.items }
    requires terms { HasEntries parts sums.terms.items }
    requires odd { HasEntries parts sums.odd.items }
    ensures { IfOk result (λ all. all
        ≡ divided atoms.now parts sums.weights.items sums.terms.items sums.odd.items) }
{
    let members = members(alloc, atoms.as_slice(), &parts)?;
    let copy = copied(alloc, atoms)?;
    Ok(Parts::new(copy, parts, members, sums))
}

/// The atoms of the components. Where each is one atom, as it is without positive bodies, nothing is kept.
fn members(alloc: Global, atoms: &[u32], parts: &GraphParts) -> Result<Members, Memory>
    requires few { length atoms.now ≤ 2 ^ 30 }
    requires sized { length parts.now.numbers ≡ length atoms.now }
    requires most { EachIndex parts.now.numbers (λ u. slice_index parts.now.numbers u ≤ parts.now.count) }
    ensures { IfOk result (HoldMembers atoms.now parts.now.numbers parts.now.count) }
{
    if parts.count() as usize == atoms.len() && count_up(parts.numbers()) {
        return Ok(Members::Each);
    }
    Ok(Members::Grouped(grouped_atoms(alloc, atoms, parts)?))
}

/// Whether the numbers are those from 1 on, in order.
fn count_up(numbers: &[u32]) -> bool
    ensures { result ≡ true → CountUp numbers.now }
{
    for (place, number) in numbers.iter().enumerate() {
        if *number as usize != place + 1 {
            return false;
        }
    }
    true
}

/// The atoms put together by their numbers.
fn grouped_atoms(alloc: Global, atoms: &[u32], parts: &GraphParts) -> Result<Groups, Memory>
    requires few { length atoms.now ≤ 2 ^ 30 }
    requires sized { length parts.now.numbers ≡ length atoms.now }
    requires most { EachIndex parts.now.numbers (λ u. slice_index parts.now.numbers u ≤ parts.now.count) }
    ensures { IfOk result (λ groups. AreGroups (numbered atoms.now parts.now.numbers) (parts.now.count + 1)
        groups.starts groups.values) }
{
    let pairs = behind_numbers(alloc, atoms, parts)?;
    grouped(alloc, pairs.as_slice(), parts.count() as usize + 1)
}

/// The same atoms.
fn copied(alloc: Global, atoms: &Atoms) -> Result<Atoms, Memory>
    ensures { IfOk result (λ copy. copy ≡ atoms.now) }
{
    Atoms::of_vec(alloc, atoms.as_slice().to_vec(alloc)?)
}

/// Each atom behind its number.
fn behind_numbers(
    alloc: Global,
    atoms: &[u32],
    parts: &GraphParts,
) -> Result<Vec<(u32, u32)>, Memory>
    requires few { length atoms.now ≤ 2 ^ 30 }
    requires sized { length parts.now.numbers ≡ length atoms.now }
    ensures { IfOk result (λ pairs. pairs.items ≡ numbered atoms.now parts.now.numbers) }
{
    let mut pairs = Vec::with_capacity(alloc, atoms.len())?;
    for (place, atom) in atoms.iter().enumerate() {
        pairs.push((parts.number(place as u32), *atom))?;
    }
    Ok(pairs)
}
