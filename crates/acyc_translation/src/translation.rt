//! From a program to its clauses with edges and its map: what encodes its recursion is completed, and each edge gets a
//! literal that stands for its condition. Since no atom depends on itself, the supported sets are the founded ones, and
//! the edges say the rest. (M. Gebser, T. Janhunen, J. Rintanen, Answer set programming as SAT modulo acyclicity,
//! 2014.)

ghost use Rattle.std.specs.Prelude.{◌≡◌, ◌≤◌, ◌^◌, length, IfOk, IfErr, OnOk};
ghost use Rattle.asp_base.specs.Sets.{members, Within};
ghost use Rattle.asp_base.specs.Walks.{Acyclic};
ghost use Rattle.ground_program.specs.Dependencies.{depends};
ghost use Rattle.ground_program.specs.Normal.{AreNormal};
ghost use Rattle.ground_program.specs.Size.{size};
ghost use Rattle.clause_store.specs.Stored.{inputs_only, formula_of_store};
ghost use Rattle.completion.specs.Supported.{HasStable};
ghost use Rattle.symbol_map.specs.declared.map.Form.TheVariants as forms;
ghost use Rattle.sat_translation.specs.InputMap.{input_map};
ghost use Rattle.acyc_translation.specs.Encoded.{IsAccepted, RefusedAs, StandsThrough, IsEcnf, FitsClauses};
ghost use Rattle.acyc_translation.specs.private.Made.{IsLight, FitsSize, with_form};

use crate::encoding::{AcycRefusal, Encoding};
use crate::linking::add_edges;
use crate::recursion::encode;
use asp_base::Memory;
use clause_store::{Formula, Store};
use completion::complete;
use ground_program::{Atoms, Program};
use sat_translation::{Translation, in_form, input_map};
use std::alloc::Global;
use symbol_map::Form;

/// The clauses and edges of a program, and the map of its atoms. Through the map the models of the formula cut to the
/// program's atoms are its stable models, with their names and costs: with `Plain` maybe several for one, with `Unique`
/// one to one.
///
/// `TooLarge` exactly where the room is above 2^24, or else, with `Unique`, the tangle.
pub fn translate(
    alloc: Global,
    encoding: Encoding,
    program: Program,
) -> Result<Translation, AcycRefusal>
    ensures stands { IfOk result (λ t. StandsThrough encoding program t.formula t.map) }
    ensures ecnf { IfOk result (λ t. IsEcnf t.formula) }
    ensures form { IfOk result (λ t. t.map.form ≡ forms.Ecnf) }
    ensures small { IfOk result (λ t. FitsClauses encoding program t.formula) }
    ensures accepted { IfOk result (λ _. IsAccepted encoding program) }
    ensures refused { IfErr result (λ refusal. RefusedAs encoding program refusal) }
{
    match encode(alloc, encoding, &program) {
        Ok(made) => {
            made.known();
            Ok(translated(alloc, program, made)?)
        }
        Err(refusal) => Err(refusal),
    }
}

/// The clauses and edges of a program without positive recursion, with a map of the atoms of the program that it stands
/// for, of which the rest is let go first.
fn translated(alloc: Global, program: Program, made: Program) -> Result<Translation, Memory>
    requires normal { AreNormal made.rules }
    requires acyclic { Acyclic (depends made.rules) }
    requires small { size made ≤ 2 ^ 28 }
    requires light { IsLight made }
    requires within { Within (members program.atoms) (members made.atoms) }
    ensures stable { IfOk result (λ t. HasStable made t.formula) }
    ensures ecnf { IfOk result (λ t. IsEcnf t.formula) }
    ensures few { IfOk result (λ t. FitsSize made t.formula) }
    ensures map { IfOk result (λ t. t.map ≡ with_form forms.Ecnf (input_map made program.atoms t.formula.vars)) }
{
    let given = atoms_of(program);
    let formula = formula_of(alloc, &made)?;
    let map = input_map(alloc, made, &given, formula.vars)?;
    Ok(Translation {
        formula,
        map: in_form(map, Form::Ecnf),
    })
}

/// The atoms of a program, of which the rest is let go.
fn atoms_of(program: Program) -> Atoms
    ensures { result ≡ program.atoms }
{
    let Program { atoms, .. } = program;
    atoms
}

/// The completion of a program without positive recursion, with its edges.
fn formula_of(alloc: Global, program: &Program) -> Result<Formula, Memory>
    requires normal { AreNormal program.now.rules }
    requires acyclic { Acyclic (depends program.now.rules) }
    requires small { size program.now ≤ 2 ^ 28 }
    ensures stable { IfOk result (λ formula. HasStable program.now formula) }
    ensures ecnf { IfOk result (λ formula. IsEcnf formula) }
    ensures few { IfOk result (λ formula. FitsSize program.now formula) }
{
    let mut store = Store::new(alloc, program.atoms.len() as u32);
    add_all(alloc, program, &mut store)?;
    Ok(store.finish(1))
}

/// Adds the completion and the edges to a store with a variable for each atom.
fn add_all(alloc: Global, program: &Program, store: &mut Store) -> Result<(), Memory>
    requires normal { AreNormal program.now.rules }
    requires acyclic { Acyclic (depends program.now.rules) }
    requires small { size program.now ≤ 2 ^ 28 }
    requires inputs { store.old ≡ inputs_only (length program.now.atoms) }
    ensures stable { OnOk result (HasStable program.now (formula_of_store store.new 1)) }
    ensures ecnf { OnOk result (IsEcnf (formula_of_store store.new 1)) }
    ensures few { OnOk result (FitsSize program.now (formula_of_store store.new 1)) }
{
    program.known();
    let bodies = complete(alloc, program, store)?;
    drop(bodies);
    add_edges(alloc, &program.atoms, program.edges.as_slice(), store)?;
    store.known();
    Ok(())
}
