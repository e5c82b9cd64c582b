//! What is looked up while names and rules are made: the rules of each atom, put together by the places of their heads
//! with a counting sort, and the atoms of each rule's body in the component of its head. Linear in the program, but for
//! the look-up of places, which takes constant time where the numbers of the atoms lie close together.

ghost use Rattle.std.specs.Prelude.{◌≡◌, ◌==◌, ◌<◌, ◌≤◌, ◌^◌, ◌++◌, map, length, IfOk, OnOk};
ghost use Rattle.std.specs.List.{filter};
ghost use Rattle.components.specs.Parts.{ArePartsOf};
ghost use Rattle.components.specs.Divided.{part_of};
ghost use Rattle.ground_program.specs.Facts.{Among, HeadFits, LiteralsFit, RuleFits};
ghost use Rattle.ground_program.specs.Dependencies.{positives_of_literals};
ghost use Rattle.ground_program.specs.Normal.{AreNormal, IsNormalBody, IsNormalHead};
ghost use Rattle.acyc_edges.specs.private.Tables.{AreTables, inner_by, owners_of, with_owner};

use crate::once::each_once;
use asp_base::{Lit, Memory};
use components::Parts;
use graph_parts::{Groups, grouped};
use ground_program::{AtomList, Atoms, Head, Program, Rule, literals};
use std::alloc::Global;

/// The rules of each atom, by its place, and for each rule the atoms of its body in the component of its head.
#[derive(Drop)]
pub(crate) struct Tables {
    pub(crate) owners: Groups,
    pub(crate) inner: Vec<AtomList>,
}

/// Each rule with one head, behind the place of its head.
fn owners(alloc: Global, program: &Program) -> Result<Vec<(u32, u32)>, Memory>
    requires few { length program.now.rules < 2 ^ 32 }
    ensures { IfOk result (λ pairs. pairs.items ≡ owners_of program.now) }
{
    program.known();
    let mut pairs = Vec::new(alloc);
    for (index, rule) in program.rules.as_slice().iter().enumerate() {
        push_owner(&mut pairs, &program.atoms, index as u32, &rule.head)?;
    }
    Ok(pairs)
}

fn push_owner(
    pairs: &mut Vec<(u32, u32)>,
    atoms: &Atoms,
    index: u32,
    head: &Head,
) -> Result<(), Memory>
    requires fit { HeadFits (Among atoms.now) head.now }
    requires few { length atoms.now ≤ 2 ^ 30 }
    ensures { OnOk result (pairs.new.items ≡ pairs.old.items ++ with_owner atoms.now index head.now) }
{
    if let Head::One(atom) = head {
        pairs.push((atoms.index_of(*atom) as u32, index))?;
    }
    Ok(())
}

/// The positive atoms of literals that have this number.
fn with_number(alloc: Global, parts: &Parts, number: u64, lits: &[Lit]) -> Result<Vec<u32>, Memory>
    requires fit { LiteralsFit (Among parts.now.atoms) lits.now }
    ensures { IfOk result (λ list. list.items
        ≡ filter (λ b. part_of parts.now b == number) (positives_of_literals lits.now)) }
{
    let mut list = Vec::new(alloc);
    for lit in lits {
        if lit.is_positive() && parts.of(lit.var()) == Some(number) {
            list.push(lit.var())?;
        }
    }
    Ok(list)
}

/// The positive atoms of a rule's body in the component of its head, each once.
fn inner_atoms(alloc: Global, parts: &Parts, rule: &Rule) -> Result<AtomList, Memory>
    requires head { IsNormalHead rule.now.head }
    requires body { IsNormalBody rule.now.body }
    requires fit { RuleFits (Among parts.now.atoms) rule.now }
    ensures { IfOk result (λ list. list ≡ inner_by (part_of parts.now) rule.now) }
{
    let Head::One(atom) = &rule.head else {
        return Ok(AtomList::from_vec(Vec::new(alloc)));
    };
    let Some(number) = parts.of(*atom) else {
        unreachable!()
    };
    let inner = with_number(alloc, parts, number, literals(&rule.body))?;
    each_once(alloc, inner.as_slice())
}

/// These atoms of each rule.
fn inner(alloc: Global, program: &Program, parts: &Parts) -> Result<Vec<AtomList>, Memory>
    requires parts { ArePartsOf program.now parts.now }
    requires normal { AreNormal program.now.rules }
    ensures { IfOk result (λ lists. lists.items ≡ map (inner_by (part_of parts.now)) program.now.rules) }
{
    program.known();
    let mut lists = Vec::new(alloc);
    for rule in program.rules.as_slice() {
        lists.push(inner_atoms(alloc, parts, rule)?)?;
    }
    Ok(lists)
}

/// In time linear in the size of the program, but for the search of places.
pub(crate) fn tables_of(alloc: Global, program: &Program, parts: &Parts) -> Result<Tables, Memory>
    requires parts { ArePartsOf program.now parts.now }
    requires normal { AreNormal program.now.rules }
    requires few { length program.now.rules < 2 ^ 32 }
    ensures { IfOk result (λ tables. AreTables program.now (part_of parts.now) tables) }
{
    program.known();
    let pairs = owners(alloc, program)?;
    let owners = grouped(alloc, pairs.as_slice(), program.atoms.len())?;
    let inner = inner(alloc, program, parts)?;
    Ok(Tables { owners, inner })
}
