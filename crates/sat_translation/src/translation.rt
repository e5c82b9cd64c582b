//! From a program to its formula and its map: the program is normalized, its completion made, and strong level rankings
//! are added for its cyclic components. The map tells where the atoms of the given program are; those that normalizing
//! adds have variables that it does not name.

ghost use Rattle.std.specs.Prelude.{◌≡◌, ◌≢◌, ◌≤◌, ◌<◌, ◌^◌, true, false, [], length, IfOk, IfErr, OnOk};
ghost use Rattle.asp_base.specs.Sets.{members, Within};
ghost use Rattle.ground_program.specs.Normal.{AreNormal};
ghost use Rattle.ground_program.specs.Room.{room};
ghost use Rattle.ground_program.specs.Size.{size};
ghost use Rattle.clause_store.specs.Stored.{inputs_only, formula_of_store};
ghost use Rattle.normalize.specs.Kept.{room_limit};
ghost use Rattle.symbol_map.specs.FaithfulMap.{FaithfulMap};
ghost use Rattle.symbol_map.specs.declared.map.Form.TheVariants as forms;
ghost use Rattle.sat_translation.specs.InputMap.{input_map};
ghost use Rattle.sat_translation.specs.Ranked.{IsRanked};
ghost use Rattle.sat_translation.specs.Translated.{IsCnf, FitsRoom, RefusedAs};
ghost use Rattle.sat_translation.specs.private.Sizes.{FitsSize};

use crate::mapping::input_map;
use asp_base::Memory;
use clause_store::{Formula, Store};
use completion::complete;
use components::components;
use ground_program::Program;
use level_ranking::rank;
use normalize::{NormalRefusal, Normalized, into_normal};
use std::alloc::Global;
use symbol_map::SymbolMap;

/// A formula, and the map of its variables.
#[derive(Drop)]
pub struct Translation {
    pub formula: Formula,
    pub map: SymbolMap,
}

/// A formula that grows, and the map of its variables.
#[derive(Drop)]
pub(crate) struct Draft {
    pub(crate) store: Store,
    pub(crate) map: SymbolMap,
}

/// Why a program is not translated.
#[derive(Clone, Copy, Debug, PartialEq, Eq)]
pub enum TranslateRefusal {
    /// The program has edges.
    Edges,
    /// The program's room is this number, above 2^24.
    TooLarge { number: u64 },
    /// Want of memory.
    Memory,
}

impl From<Memory> for TranslateRefusal {
    ghost use Rattle.std.specs.Prelude.{◌≡◌};
    ghost use Rattle.sat_translation.specs.declared.translation.TranslateRefusal.TheVariants as refusals;

    ghost from_gives = { λ _ e. e ≡ refusals.Memory };

    fn from(_: Memory) -> TranslateRefusal {
        TranslateRefusal::Memory
    }
}

/// The formula and the map of a program. Through the map the models of the formula are one to one the stable models of
/// the program, with their names and costs. The formula is a CNF whose size is near linear in the program's room; for
/// a program of normal rules it is the completion, with the rankings behind it.
///
/// `Edges` exactly where the program has edges, `TooLarge` exactly where it has none and its room is above 2^24.
pub fn translate(alloc: Global, program: Program) -> Result<Translation, TranslateRefusal>
    ensures faithful { IfOk result (λ t. FaithfulMap program t.formula t.map) }
    ensures cnf { IfOk result (λ t. IsCnf t.formula) }
    ensures form { IfOk result (λ t. t.map.form ≡ forms.Cnf) }
    ensures small { IfOk result (λ t. FitsRoom program t.formula) }
    ensures ranked { IfOk result (λ t. AreNormal program.rules → IsRanked program t.formula) }
    ensures accepted { IfOk result (λ _. (program.edges ≡ []) × (room program ≤ room_limit)) }
    ensures refused { IfErr result (λ refusal. RefusedAs program refusal) }
{
    if has_edges(&program) {
        return Err(TranslateRefusal::Edges);
    }
    match into_normal(alloc, program) {
        Ok(made) => {
            made.program.known();
            Ok(translated(alloc, made)?)
        }
        Err(NormalRefusal::TooLarge { room }) => Err(TranslateRefusal::TooLarge { number: room }),
        Err(NormalRefusal::Memory) => Err(TranslateRefusal::Memory),
    }
}

/// Whether the program has edges.
pub(crate) fn has_edges(program: &Program) -> bool
    ensures some { result ≡ true → program.now.edges ≢ [] }
    ensures none { result ≡ false → program.now.edges ≡ [] }
{
    match program.edges.as_slice() {
        [] => false,
        _ => true,
    }
}

/// The formula of a program of normal rules, with a map of the given atoms, those of the program that it stands for.
fn translated(alloc: Global, made: Normalized) -> Result<Translation, Memory>
    requires normal { AreNormal made.program.rules }
    requires small { size made.program ≤ 2 ^ 24 }
    requires within { Within (members made.given) (members made.program.atoms) }
    ensures ranked { IfOk result (λ t. IsRanked made.program t.formula) }
    ensures cnf { IfOk result (λ t. IsCnf t.formula) }
    ensures size { IfOk result (λ t. FitsSize made.program t.formula) }
    ensures map { IfOk result (λ t. t.map ≡ input_map made.program made.given t.formula.vars) }
{
    let Draft { store, map } = mapped(alloc, made)?;
    Ok(Translation {
        formula: store.finish(1),
        map,
    })
}

/// The clauses of a program of normal rules, with a map of the given atoms.
pub(crate) fn mapped(alloc: Global, made: Normalized) -> Result<Draft, Memory>
    requires normal { AreNormal made.program.rules }
    requires small { size made.program ≤ 2 ^ 24 }
    requires within { Within (members made.given) (members made.program.atoms) }
    ensures ranked { IfOk result (λ d. IsRanked made.program (formula_of_store d.store 1)) }
    ensures cnf { IfOk result (λ d. IsCnf (formula_of_store d.store 1)) }
    ensures size { IfOk result (λ d. FitsSize made.program (formula_of_store d.store 1)) }
    ensures map { IfOk result (λ d. d.map ≡ input_map made.program made.given d.store.vars) }
{
    let Normalized { program, given } = made;
    let store = store_of(alloc, &program)?;
    let map = input_map(alloc, program, &given, store.vars())?;
    Ok(Draft { store, map })
}

/// The completion of a program of normal rules, with rankings.
fn store_of(alloc: Global, program: &Program) -> Result<Store, Memory>
    requires normal { AreNormal program.now.rules }
    requires small { size program.now ≤ 2 ^ 24 }
    ensures ranked { IfOk result (λ store. IsRanked program.now (formula_of_store store 1)) }
    ensures cnf { IfOk result (λ store. IsCnf (formula_of_store store 1)) }
    ensures size { IfOk result (λ store. FitsSize program.now (formula_of_store store 1)) }
{
    let mut store = Store::new(alloc, program.atoms.len() as u32);
    add_ranked(alloc, program, &mut store)?;
    Ok(store)
}

/// Adds the completion and the rankings to a store with a variable for each atom.
fn add_ranked(alloc: Global, program: &Program, store: &mut Store) -> Result<(), Memory>
    requires normal { AreNormal program.now.rules }
    requires small { size program.now ≤ 2 ^ 24 }
    requires inputs { store.old ≡ inputs_only (length program.now.atoms) }
    ensures ranked { OnOk result (IsRanked program.now (formula_of_store store.new 1)) }
    ensures cnf { OnOk result (IsCnf (formula_of_store store.new 1)) }
    ensures size { OnOk result (FitsSize program.now (formula_of_store store.new 1)) }
{
    program.known();
    let bodies = complete(alloc, program, store)?;
    let parts = components(alloc, program)?;
    rank(alloc, program, &parts, &bodies, store)?;
    store.known();
    Ok(())
}
