//! A normal program with its components, and what is looked up in both while names, rules and edges are made.

ghost use Rattle.std.specs.Prelude.{◌≡◌, ◌<◌, ◌≤◌, ◌^◌, [], true, length, IfOk};
ghost use Rattle.std.specs.List.{AllByRecursion};
ghost use Rattle.asp_base.specs.Sets.{members};
ghost use Rattle.components.specs.Divided.{cyclic_numbers, part_of};
ghost use Rattle.components.specs.Parts.{ArePartsOf};
ghost use Rattle.ground_program.specs.Facts.{IsProgram};
ghost use Rattle.ground_program.specs.Normal.{AreNormal};
ghost use Rattle.ground_program.specs.Size.{size};
ghost use Rattle.acyc_edges.specs.Encoding.{ends_of, inner_at, rules_of};
ghost use Rattle.acyc_edges.specs.Encoding.{head_at, head_atom, node_of, node_of_atom, rule_at};
ghost use Rattle.acyc_edges.specs.private.Tables.{HasHead};

use crate::nodes::{Nodes, index_of, nodes_for, raised, signed};
use crate::once::each_once;
use crate::tables::{Tables, tables_of};
use asp_base::Memory;
use components::Parts;
use ground_program::{AtomList, Head, Program, Rule};
use std::alloc::Global;
use std::marker::Model;

/// A normal program of at most 2^24 entries with its components, the rules of each atom, the atoms of each rule's body
/// in the component of its head, and the nodes of edges. It is seen as the program and its components.
#[derive(Drop)]
pub(crate) struct Setting<'a> {
    program: &'a Program,
    parts: &'a Parts,
    tables: Tables,
    nodes: Nodes,
}

impl<'a> Model for Setting<'a> {
    ghost use Rattle.acyc_edges.specs.private.Setting.{Given, IsSetting};

    ghost Value = { Given };

    ghost view = { λ s. record { program = s.program.now; parts = s.parts.now } };

    ghost invariant = { λ s. IsSetting s.program.now s.parts.now s.tables s.nodes };
}

/// The atom of a head; 0 where it is not one.
fn atom_of(head: &Head) -> u32
    ensures { result ≡ head_atom head.now }
{
    match head {
        Head::One(atom) => *atom,
        _ => 0,
    }
}

impl<'a> Setting<'a> {
    /// In time linear in the size of the program, but for the search of places.
    pub(crate) fn new(
        alloc: Global,
        program: &'a Program,
        parts: &'a Parts,
    ) -> Result<Setting<'a>, Memory>
        requires normal { AreNormal program.now.rules }
        requires parts { ArePartsOf program.now parts.now }
        requires small { size program.now ≤ 2 ^ 24 }
        ensures { IfOk result (λ setting. setting ≡ record { program = program.now; parts = parts.now }) }
    {
        let tables = tables_of(alloc, program, parts)?;
        let nodes = nodes_for(alloc, program, parts)?;
        Ok(Setting {
            program,
            parts,
            tables,
            nodes,
        })
    }

    /// What is true of every setting.
    pub(crate) fn known(&self)
        ensures normal { AreNormal self.now.program.rules }
        ensures parts { ArePartsOf self.now.program self.now.parts }
        ensures small { size self.now.program ≤ 2 ^ 24 }
        ensures program { IsProgram self.now.program }
    {
        self.program.known();
    }

    pub(crate) fn program(&self) -> &'a Program
        ensures { result.now ≡ self.now.program }
    {
        self.program
    }

    pub(crate) fn parts(&self) -> &'a Parts
        ensures { result.now ≡ self.now.parts }
    {
        self.parts
    }

    /// The rule at an index.
    pub(crate) fn rule_of(&self, index: u32) -> &'a Rule
        requires { index < length self.now.program.rules }
        ensures { result.now ≡ rule_at self.now.program.rules index }
    {
        let program = self.program;
        &program.rules.as_slice()[index as usize]
    }

    /// The head of a rule of an atom.
    pub(crate) fn head_of(&self, index: u32) -> u32
        requires { HasHead self.now.program (part_of self.now.parts) index }
        ensures is { result ≡ head_at self.now.program (part_of self.now.parts) [] index }
        ensures above { 0 < result }
        ensures below { result < 2 ^ 31 }
    {
        atom_of(&self.rule_of(index).head)
    }

    /// The indices of an atom's rules, rising.
    pub(crate) fn rules_of(&self, atom: u32) -> &[u32]
        requires { members self.now.program.atoms atom ≡ true }
        ensures are { result.now ≡ rules_of self.now.program (part_of self.now.parts) [] atom }
        ensures heads { AllByRecursion (HasHead self.now.program (part_of self.now.parts)) result.now }
    {
        let program = self.program;
        program.known();
        let place = program.atoms.index_of(atom);
        let starts = self.tables.owners.starts.as_slice();
        &self.tables.owners.values.as_slice()[starts[place] as usize..starts[place + 1] as usize]
    }

    /// The positive atoms of the body of a rule of an atom in the component of its head, each once.
    pub(crate) fn inner_of(&self, index: u32) -> &[u32]
        requires { HasHead self.now.program (part_of self.now.parts) index }
        ensures { result.now ≡ inner_at self.now.program (part_of self.now.parts) [] index }
    {
        self.tables.inner[index as usize].as_slice()
    }

    /// The atoms to which edges may lead from an atom.
    pub(crate) fn ends_of(&self, alloc: Global, atom: u32) -> Result<AtomList, Memory>
        requires { members self.now.program.atoms atom ≡ true }
        ensures { IfOk result (λ list. list ≡ ends_of self.now.program (part_of self.now.parts) [] atom) }
    {
        let mut list = Vec::new(alloc);
        for index in self.rules_of(atom) {
            list.extend_from_slice(self.inner_of(*index))?;
        }
        each_once(alloc, list.as_slice())
    }

    /// The node of an atom.
    pub(crate) fn node_of_atom(&self, atom: u32) -> i32
        ensures { result ≡ node_of_atom self.now.program (part_of self.now.parts) (cyclic_numbers self.now.parts) atom }
    {
        signed(self.nodes.given.len() + index_of(&self.nodes.cyclic, atom))
    }

    /// The new number of a node of the program's edges.
    pub(crate) fn node_of(&self, node: i32) -> i32
        ensures { result ≡ node_of self.now.program (part_of self.now.parts) (cyclic_numbers self.now.parts) node }
    {
        signed(index_of(&self.nodes.given, raised(node)))
    }
}
