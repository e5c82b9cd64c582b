//! What the rankings of a program are made from: its rules by their heads, and for each rule its atoms in a component,
//! each once. A rule is looked up when its head's turn comes, so that no more than one atom's rules are held. Linear in
//! the rules, but for the hashing of the atoms of one body.

ghost use Rattle.std.specs.Prelude.{◌≡◌, ◌+◌, ◌-◌, ◌<◌, ◌∷◌, [], true, map, length, MatchOption, IfOk, OnOk};
ghost use Rattle.std.specs.List.{AllByRecursion};
ghost use Rattle.asp_base.specs.Literal.{atom_of};
ghost use Rattle.asp_base.specs.Sets.{members, once};
ghost use Rattle.rising_numbers.specs.Rising.{place};
ghost use Rattle.graph_parts.specs.Groups.{values_of};
ghost use Rattle.ground_program.specs.Facts.{Among};
ghost use Rattle.level_ranking.specs.Encoding.{positive_in};
ghost use Rattle.level_ranking.specs.Components.{atoms_of_part, component};
ghost use Rattle.components.specs.Divided.{part_of};
ghost use Rattle.level_ranking.specs.private.Ready.{IsReady};
ghost use Rattle.level_ranking.specs.private.Sources.{placed, rows_listed, with_once};
ghost use Rattle.completion.specs.Heads.{heads_from};

use crate::rules::RankedRule;
use asp_base::{Lit, Memory};
use completion::Bodies;
use components::Parts;
use graph_parts::Groups;
use ground_program::{Atoms, LitList, Program, literals};
use indexmap::IndexSet;
use std::alloc::Global;

/// The atom of a positive literal, where it is in the component.
fn atom_inside(parts: &Parts, part: u64, lit: Lit) -> Option<u32>
    requires among { members parts.now.atoms (atom_of lit) ≡ true }
    ensures { let S = members (atoms_of_part (part_of parts.now) part parts.now.atoms) in
        MatchOption result (positive_in S (lit ∷ []) ≡ [])
        (λ a. (a ≡ atom_of lit) × (positive_in S (lit ∷ []) ≡ a ∷ [])) }
{
    if lit.is_positive() {
        let Some(number) = parts.of(lit.var()) else {
            unreachable!()
        };
        if number == part {
            return Some(lit.var());
        }
    }
    None
}

/// Adds the place of an atom, from 0, where the atom was not seen.
fn push_once(
    seen: &mut IndexSet<u32>,
    places: &mut Vec<usize>,
    atoms: &Atoms,
    atom: u32,
) -> Result<(), Memory>
    requires { Among atoms.now atom }
    ensures seen { OnOk result (seen.new.keys ≡ with_once atom seen.old.keys) }
    ensures places { OnOk result (places.old.items ≡ map (λ b. place atoms.now b - 1) seen.old.keys
        → places.new.items ≡ map (λ b. place atoms.now b - 1) seen.new.keys) }
{
    if seen.insert(atom)? {
        places.push(atoms.index_of(atom))?;
    }
    Ok(())
}

/// The places, from 0, of the atoms of the positive literals in the component, each once.
fn places_inside(
    alloc: Global,
    atoms: &Atoms,
    parts: &Parts,
    part: u64,
    lits: &[Lit],
) -> Result<Vec<usize>, Memory>
    requires same { parts.now.atoms ≡ atoms.now }
    requires among { AllByRecursion (λ l. Among atoms.now (atom_of l)) lits.now }
    ensures { IfOk result (λ places. let S = members (atoms_of_part (part_of parts.now) part atoms.now) in
        places.items ≡ map (λ b. place atoms.now b - 1) (once (positive_in S lits.now))) }
{
    let mut seen = IndexSet::new(alloc);
    let mut places = Vec::new(alloc);
    for lit in lits {
        if let Some(atom) = atom_inside(parts, part, *lit) {
            push_once(&mut seen, &mut places, atoms, atom)?;
        }
    }
    Ok(places)
}

/// What is given for rankings: a program, its components, and the literals of its rules' bodies.
#[derive(Drop)]
pub(crate) struct Given<'a> {
    pub(crate) program: &'a Program,
    pub(crate) parts: &'a Parts,
    pub(crate) bodies: &'a Bodies,
}

/// What the rankings of a program are made from: what is given, the digits of its atoms, and the places of its rules by
/// those of their heads.
#[derive(Drop)]
pub(crate) struct Sources<'a> {
    pub(crate) given: Given<'a>,
    pub(crate) numbers: &'a [LitList],
    pub(crate) heads: &'a Groups,
}

/// The rule at a place, as a rule of an atom of the component.
fn ranked_rule(
    alloc: Global,
    sources: &Sources<'_>,
    part: u64,
    place: u32,
) -> Result<RankedRule, Memory>
    requires ready { IsReady sources.now }
    requires within { place < length sources.now.given.program.now.rules }
    ensures { IfOk result (λ row. let P = sources.now.given.program.now in
        let S = component P (part_of sources.now.given.parts.now) part in
        row ∷ [] ≡ map (placed P.atoms) (rows_listed S P.rules sources.now.given.bodies.now (place ∷ []))) }
{
    let program = sources.given.program;
    program.known();
    let rule = &program.rules.as_slice()[place as usize];
    let inside = places_inside(
        alloc,
        &program.atoms,
        sources.given.parts,
        part,
        literals(&rule.body),
    )?;
    let body = sources.given.bodies.literal(u64::from(place) + 1);
    Ok(RankedRule { body, inside })
}

/// The rules of the atom at a place, from 0, as rules of an atom of the component.
pub(crate) fn ranked_rules(
    alloc: Global,
    sources: &Sources<'_>,
    part: u64,
    index: u32,
) -> Result<Vec<RankedRule>, Memory>
    requires ready { IsReady sources.now }
    requires within { index < length sources.now.given.program.now.atoms }
    ensures { IfOk result (λ rows. let P = sources.now.given.program.now in
        let S = component P (part_of sources.now.given.parts.now) part in
        rows.items ≡ map (placed P.atoms) (rows_listed S P.rules sources.now.given.bodies.now
        (values_of index (heads_from P.atoms 0 P.rules)))) }
{
    let at = index as usize;
    let starts = sources.heads.starts.as_slice();
    let values = sources.heads.values.as_slice();
    let places = &values[starts[at] as usize..starts[at + 1] as usize];
    let mut rows = Vec::new(alloc);
    for place in places {
        let row = ranked_rule(alloc, sources, part, *place)?;
        rows.push(row)?;
    }
    Ok(rows)
}
