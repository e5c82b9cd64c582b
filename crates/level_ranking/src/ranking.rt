//! Adds the rankings: first the digits of all atoms of cyclic components, then for each atom the clauses of its rank. A
//! founded set has just one strong level ranking, the rounds in which its atoms are derived, and another supported set
//! has none, so clauses that ask for one leave the founded sets. An atom's digits are those of the number of its
//! component's atoms, so that the clauses are n log n in the program's size. (T. Janhunen, I. Niemelä, Compact
//! translations of non-disjunctive answer set programs to propositional clauses, 2011.)

ghost use Rattle.std.specs.Prelude.{ℕ, ◌≡◌, ◌+◌, ◌<◌, ◌≤◌, ◌^◌, true, false, [], OnOk};
ghost use Rattle.asp_base.specs.Sets.{members};
ghost use Rattle.asp_base.specs.Walks.{Reaches};
ghost use Rattle.rising_numbers.specs.Rising.{place};
ghost use Rattle.graph_parts.specs.Divided.{is_cyclic_at};
ghost use Rattle.ground_program.specs.Dependencies.{depends};
ghost use Rattle.ground_program.specs.Normal.{AreNormal};
ghost use Rattle.ground_program.specs.Size.{size};
ghost use Rattle.components.specs.Parts.{ArePartsOf};
ghost use Rattle.clause_store.specs.Stored.{formula_of_store};
ghost use Rattle.completion.specs.Completion.{body_literals, completed};
ghost use Rattle.completion.specs.Supported.{HasStable};
ghost use Rattle.components.specs.Divided.{part_of, cyclic_numbers};
ghost use Rattle.level_ranking.specs.Encoding.{after_atom, after_atoms, after_parts, with_rankings};
ghost use Rattle.level_ranking.specs.Ranked.{HasFounded, DigitsComeFirst, AddsFew, AddsByParts};
ghost use Rattle.level_ranking.specs.private.Counts.{atom_vars, atoms_vars, parts_vars};
ghost use Rattle.level_ranking.specs.private.Ready.{IsGiven, IsReady};
ghost use Rattle.level_ranking.specs.private.Sources.{ranking_digits, ranking_rows, ranking_width, ranking_base, in_component, atoms_in};

use crate::gathering::{Given, Sources, ranked_rules};
use crate::numbers::numbers;
use crate::rules::add_atom;
use asp_base::Memory;
use clause_store::Store;
use completion::{Bodies, heads};
use components::{Parts, node_of};
use graph_parts::grouped;
use ground_program::Program;
use std::alloc::Global;

/// Adds the clauses of the rank of an atom of a cyclic component.
fn add_ranked(
    alloc: Global,
    sources: &Sources<'_>,
    part: u64,
    atom: u32,
    store: &mut Store,
) -> Result<(), Memory>
    requires ready { IsReady sources.now }
    requires cyclic { members (cyclic_numbers sources.now.given.parts.now) part ≡ true }
    requires inside { in_component sources.now.given.program.now sources.now.given.parts.now part atom ≡ true }
    requires above { (ranking_base sources.now.given.program.now sources.now.given.parts.now).vars ≤ store.old.vars }
    requires room { let P = sources.now.given.program.now in let d = sources.now.given.parts.now in
        store.old.vars + atom_vars (ranking_width P d part) (ranking_rows P d part atom) < 2 ^ 31 }
    ensures store { OnOk result (let P = sources.now.given.program.now in let d = sources.now.given.parts.now in
        store.new ≡ after_atom (place P.atoms atom) (ranking_digits P d atom) (ranking_digits P d)
        (ranking_rows P d part atom) store.old) }
    ensures from { OnOk result (store.old.vars ≤ store.new.vars) }
    ensures few { OnOk result (let P = sources.now.given.program.now in let d = sources.now.given.parts.now in
        store.new.vars ≤ store.old.vars + atom_vars (ranking_width P d part) (ranking_rows P d part atom)) }
{
    let program = sources.given.program;
    program.known();
    let index = node_of(&program.atoms, atom);
    let rules = ranked_rules(alloc, sources, part, index)?;
    let table = sources.numbers;
    let own = &table[index as usize];
    add_atom(alloc, store, index + 1, own, table, rules.as_slice())?;
    Ok(())
}

/// Adds the clauses of the ranks of the atoms of a cyclic component.
fn add_component(
    alloc: Global,
    sources: &Sources<'_>,
    part: u64,
    store: &mut Store,
) -> Result<(), Memory>
    requires ready { IsReady sources.now }
    requires cyclic { members (cyclic_numbers sources.now.given.parts.now) part ≡ true }
    requires above { (ranking_base sources.now.given.program.now sources.now.given.parts.now).vars ≤ store.old.vars }
    requires room { let P = sources.now.given.program.now in let d = sources.now.given.parts.now in
        store.old.vars + atoms_vars (ranking_width P d part) (ranking_rows P d part) (atoms_in P d part) < 2 ^ 31 }
    ensures store { OnOk result (let P = sources.now.given.program.now in let d = sources.now.given.parts.now in
        store.new ≡ after_atoms (place P.atoms) (ranking_digits P d) (ranking_rows P d part) (atoms_in P d part)
        store.old) }
    ensures from { OnOk result (store.old.vars ≤ store.new.vars) }
    ensures few { OnOk result (let P = sources.now.given.program.now in let d = sources.now.given.parts.now in
        store.new.vars ≤ store.old.vars
        + atoms_vars (ranking_width P d part) (ranking_rows P d part) (atoms_in P d part)) }
{
    for atom in sources.given.parts.members(part) {
        add_ranked(alloc, sources, part, *atom, store)?;
    }
    Ok(())
}

/// Adds the clauses of the ranks of the atoms of all cyclic components.
fn add_components(alloc: Global, sources: &Sources<'_>, store: &mut Store) -> Result<(), Memory>
    requires ready { IsReady sources.now }
    requires above { (ranking_base sources.now.given.program.now sources.now.given.parts.now).vars ≤ store.old.vars }
    requires room { let d = sources.now.given.parts.now in store.old.vars
        + parts_vars sources.now.given.program.now (part_of d) (cyclic_numbers d) (cyclic_numbers d) < 2 ^ 31 }
    ensures { OnOk result (let d = sources.now.given.parts.now in store.new
        ≡ after_parts sources.now.given.program.now (part_of d) (cyclic_numbers d) (cyclic_numbers d) store.old) }
{
    let parts = sources.given.parts;
    for i in 0..parts.count() {
        let part = i + 1;
        if parts.is_cyclic(part) {
            add_component(alloc, sources, part, store)?;
        }
    }
    Ok(())
}

/// Whether a component is cyclic.
fn has_cyclic(parts: &Parts) -> bool
    ensures { result ≡ false → (i : ℕ) → 1 ≤ i → i ≤ parts.now.count → is_cyclic_at parts.now.cyclic i ≡ false }
{
    for before in 0..parts.count() {
        if parts.is_cyclic(before + 1) {
            return true;
        }
    }
    false
}

/// Adds the clauses of the rankings. Where no component is cyclic there are none, and no list is made.
fn add_rankings(alloc: Global, given: Given<'_>, store: &mut Store) -> Result<(), Memory>
    requires given { IsGiven given }
    requires store { store.old ≡ completed given.program.now }
    ensures { OnOk result (let d = given.entry.parts.now in
        store.new ≡ with_rankings given.entry.program.now (part_of d) (cyclic_numbers d)) }
{
    if !has_cyclic(given.parts) {
        return Ok(());
    }
    let program = given.program;
    program.known();
    let atoms = program.atoms.as_slice();
    let table = numbers(alloc, atoms, given.parts, store)?;
    let pairs = heads(alloc, &program.atoms, program.rules.as_slice())?;
    let rules_by_head = grouped(alloc, pairs.as_slice(), atoms.len())?;
    drop(pairs);
    let sources = Sources {
        given,
        numbers: table.as_slice(),
        heads: &rules_by_head,
    };
    add_components(alloc, &sources, store)?;
    Ok(())
}

/// Adds rankings to what `complete` left in a store: clauses whose models, cut to the atoms' variables, are one to one
/// the founded sets of the program, which without edges are its stable models. In each model the digits of the atoms of
/// cyclic components are their ranks; a program without such components needs none. The parts and the bodies are this
/// program's, which is of size 2^24 at most. After `Memory` the store may hold a part of it.
pub fn rank(
    alloc: Global,
    program: &Program,
    parts: &Parts,
    bodies: &Bodies,
    store: &mut Store,
) -> Result<(), Memory>
    requires normal { AreNormal program.now.rules }
    requires small { size program.now ≤ 2 ^ 24 }
    requires parts { ArePartsOf program.now parts.now }
    requires bodies { bodies.now ≡ body_literals program.now }
    requires store { store.old ≡ completed program.now }
    // Its variables and clauses, in their order.
    ensures store { OnOk result (store.new ≡ with_rankings program.now (part_of parts.now) (cyclic_numbers parts.now)) }
    ensures founded { OnOk result (HasFounded program.now (part_of parts.now) (cyclic_numbers parts.now)
        (formula_of_store store.new 1)) }
    ensures stable { OnOk result (program.now.edges ≡ [] → HasStable program.now (formula_of_store store.new 1)) }
    ensures digits { OnOk result (DigitsComeFirst program.now (part_of parts.now) (cyclic_numbers parts.now)) }
    ensures few { OnOk result (AddsFew program.now store.old store.new) }
    ensures by_parts { OnOk result (AddsByParts program.now (part_of parts.now) (cyclic_numbers parts.now)
        store.old store.new) }
    // Where no atom depends on itself.
    ensures unchanged { OnOk result (((a : ℕ) → Reaches (depends program.now.rules) a a → ⊥) → store.new ≡ store.old) }
{
    program.known();
    let given = Given {
        program,
        parts,
        bodies,
    };
    add_rankings(alloc, given, store)?;
    Ok(())
}
