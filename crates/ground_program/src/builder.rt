//! Programs are made part by part. What is added is kept in order, so that adding costs no more than a
//! push; levels are merged, and externals and atoms settled, in `finish`.

ghost use Rattle.std.specs.Prelude.{◌≡◌, [], ◌∷◌, IfOk, OnOk, OnErr};
ghost use Rattle.asp_base.specs.Literal.{atom_of};
ghost use Rattle.ground_program.specs.Draft.{empty_draft, with_rule, with_required, with_edge, with_level, with_show, with_external, atoms_of_draft, program_of};
ghost use Rattle.ground_program.specs.Facts.{IsAtom, HeadFits, BodyFits, ConditionFits, LevelFits, ShowFits};

use crate::atoms::Atoms;
use crate::externals::push_external_rules;
use crate::gather::{
    push_edges, push_externals, push_levels, push_literals, push_rules, push_shows,
};
use crate::levels::merge_levels;
use crate::lists::LitList;
use crate::program::{
    Body, Edge, EdgeList, Head, Level, LevelList, Program, Rule, RuleList, Show, ShowList,
};
use asp_base::{Lit, Memory};
use std::alloc::Global;
use std::marker::Model;

/// The value of an external atom.
#[derive(Clone, Copy, Debug, PartialEq, Eq)]
pub enum External {
    Free,
    True,
    False,
    Release,
}

/// A program to which parts are added, in any order.
#[derive(Drop)]
pub struct ProgramBuilder {
    alloc: Global,
    rules: RuleList,
    required: LitList,
    edges: EdgeList,
    levels: LevelList,
    shows: ShowList,
    externals: Vec<(u32, External)>,
}

impl Model for ProgramBuilder {
    ghost use Rattle.ground_program.specs.Draft.{Draft};
    ghost use Rattle.ground_program.specs.Facts.{IsDraft};
    ghost use Rattle.ground_program.specs.private.InsideDraft.{draft_of};

    ghost Value = { Draft };

    ghost view = { draft_of };

    ghost invariant = { λ b. IsDraft (draft_of b) };
}

impl ProgramBuilder {
    /// No parts.
    pub fn new(alloc: Global) -> ProgramBuilder
        ensures { result ≡ empty_draft }
    {
        ProgramBuilder {
            alloc,
            rules: RuleList::new(alloc),
            required: LitList::new(alloc),
            edges: EdgeList::new(alloc),
            levels: LevelList::new(alloc),
            shows: ShowList::new(alloc),
            externals: Vec::new(alloc),
        }
    }
    /// Puts a rule behind the others. After `Memory` the builder is unchanged.
    pub fn add_rule(&mut self, head: Head, body: Body) -> Result<(), Memory>
        requires head { HeadFits IsAtom head }
        requires body { BodyFits IsAtom body }
        ensures ok { OnOk result (self.new ≡ with_rule (record { head = head; body = body }) self.old) }
        ensures err { OnErr result (self.new ≡ self.old) }
    {
        self.rules.push(Rule { head, body })
    }

    /// Puts a required literal behind the others. After `Memory` the builder is unchanged.
    pub fn add_required(&mut self, lit: Lit) -> Result<(), Memory>
        requires { IsAtom (atom_of lit) }
        ensures ok { OnOk result (self.new ≡ with_required (lit ∷ []) self.old) }
        ensures err { OnErr result (self.new ≡ self.old) }
    {
        self.required.push(lit)
    }

    /// Puts an edge behind the others. After `Memory` the builder is unchanged.
    pub fn add_edge(&mut self, edge: Edge) -> Result<(), Memory>
        requires { ConditionFits IsAtom edge.condition }
        ensures ok { OnOk result (self.new ≡ with_edge edge self.old) }
        ensures err { OnErr result (self.new ≡ self.old) }
    {
        self.edges.push(edge)
    }

    /// Puts items behind those of their priority. After `Memory` the builder is unchanged.
    pub fn add_level(&mut self, level: Level) -> Result<(), Memory>
        requires { LevelFits IsAtom level }
        ensures ok { OnOk result (self.new ≡ with_level level self.old) }
        ensures err { OnErr result (self.new ≡ self.old) }
    {
        self.levels.push(level)
    }

    /// Puts a show behind the others. After `Memory` the builder is unchanged.
    pub fn add_show(&mut self, show: Show) -> Result<(), Memory>
        requires { ShowFits IsAtom show }
        ensures ok { OnOk result (self.new ≡ with_show show self.old) }
        ensures err { OnErr result (self.new ≡ self.old) }
    {
        self.shows.push(show)
    }

    /// Makes an atom external, with this value. The last value of an atom counts.
    /// After `Memory` the builder is unchanged.
    pub fn set_external(&mut self, atom: u32, value: External) -> Result<(), Memory>
        requires { IsAtom atom }
        ensures ok { OnOk result (self.new ≡ with_external atom value self.old) }
        ensures err { OnErr result (self.new ≡ self.old) }
    {
        match self.externals.push((atom, value)) {
            Ok(()) => Ok(()),
            Err(_) => Err(Memory),
        }
    }

    /// The program of the parts: its atoms are those that were named; levels stand by falling priority, each
    /// with its items in the order in which they came; last stand the rules of the external atoms that head
    /// no rule, by rising atom: a free atom may be chosen, a true one is a fact.
    pub fn finish(self) -> Result<Program, Memory>
        ensures { IfOk result (λ p. p ≡ program_of self) }
    {
        let named = self.named_atoms()?;
        let atoms = Atoms::of_vec(self.alloc, named)?;
        let mut rules = self.rules;
        push_external_rules(self.alloc, &mut rules, self.externals)?;
        let levels = merge_levels(self.alloc, self.levels.into_vec())?;
        Ok(Program {
            atoms,
            rules,
            required: self.required,
            edges: self.edges,
            levels: LevelList::from_vec(levels),
            shows: self.shows,
        })
    }

    /// Every atom that was named, in any order, with repeats.
    fn named_atoms(&self) -> Result<Vec<u32>, Memory>
        ensures { IfOk result (λ named. named.items ≡ atoms_of_draft self.now) }
    {
        let mut named = Vec::new(self.alloc);
        push_rules(&mut named, self.rules.as_slice())?;
        push_literals(&mut named, self.required.as_slice())?;
        push_edges(&mut named, self.edges.as_slice())?;
        push_levels(&mut named, self.levels.as_slice())?;
        push_shows(&mut named, self.shows.as_slice())?;
        push_externals(&mut named, self.externals.as_slice())?;
        Ok(named)
    }
}
