//! A store in which a formula grows: variables, hard and soft clauses, edges, gates, and conjunctions with a variable
//! of their own.

ghost use Rattle.std.specs.Prelude.{◌≡◌, ◌<◌, ◌+◌, ◌-◌, ◌^◌, ℕ, suc, length, List, [], ◌∷◌, None, IfOk, OnOk, OnErr};
ghost use Rattle.std.specs.List.{AllByRecursion};
ghost use Rattle.asp_base.specs.Literal.{Pos};
ghost use Rattle.clause_store.specs.Additions.{IsSound};
ghost use Rattle.clause_store.specs.Edges.{with_edge};
ghost use Rattle.clause_store.specs.Facts.{IsOver};
ghost use Rattle.clause_store.specs.Gates.{after_gate, IsGateOf};
ghost use Rattle.clause_store.specs.Extension.{StandsForAll};
ghost use Rattle.clause_store.specs.Soft.{with_soft};
ghost use Rattle.clause_store.specs.Stored.{inputs_only, with_variable, with_clause, conjunction, after_conjunction, formula_of_store, find_known, gate_output, with_gate};

use crate::clause_list::{Clause, ClauseList};
use crate::conjunction::push_conjunction;
use crate::formula::{Formula, LitEdge, LitEdgeList, SoftClause, SoftList};
use crate::gate::push_gate;
use crate::known::Known;
use asp_base::{Lit, Memory};
use gate_tables::Table;
use std::alloc::Global;
use std::marker::Model;

/// A formula that grows.
#[derive(Drop)]
pub struct Store {
    alloc: Global,
    vars: u32,
    hard: ClauseList,
    edges: LitEdgeList,
    soft: SoftList,
    known: Known,
}

impl Model for Store {
    ghost use Rattle.clause_store.specs.Stored.{Stored};
    ghost use Rattle.clause_store.specs.private.Kept.{IsStore};

    ghost Value = { Stored };

    ghost use Rattle.clause_store.specs.private.InsideStore.{stored_of};

    ghost view = { stored_of };

    ghost invariant = { λ s. IsStore (stored_of s) };
}

impl Store {
    /// Variables 1 to `inputs`, and no clause.
    pub fn new(alloc: Global, inputs: u32) -> Store
        requires { inputs < 2 ^ 31 }
        ensures { result ≡ inputs_only inputs }
    {
        Store {
            alloc,
            vars: inputs,
            hard: ClauseList::new(alloc),
            edges: LitEdgeList::new(alloc),
            soft: SoftList::new(alloc),
            known: Known::new(alloc),
        }
    }

    /// The number of variables.
    pub fn vars(&self) -> u32
        ensures { result ≡ self.now.vars }
    {
        self.vars
    }

    /// The allocator that the store takes its memory from.
    pub fn allocator(&self) -> Global {
        self.alloc
    }

    /// What every store is known to keep.
    pub fn known(&self)
        ensures sound { IsSound self.now }
        ensures few { self.now.vars < 2 ^ 31 }
    {
        let _vars = &self.vars;
    }

    /// A new variable. After `Memory` the store is unchanged.
    pub fn fresh(&mut self) -> Result<Lit, Memory>
        requires { self.old.vars < 2 ^ 31 - 1 }
        ensures ok { IfOk result (λ l. (l ≡ Pos (suc self.old.vars)) × (self.new ≡ with_variable self.old)) }
        ensures err { OnErr result (self.new ≡ self.old) }
    {
        self.vars += 1;
        Ok(Lit::positive(self.vars))
    }

    /// Adds a hard clause. After `Memory` the store is unchanged.
    pub fn clause(&mut self, lits: &[Lit]) -> Result<(), Memory>
        requires { AllByRecursion (IsOver self.old.vars) lits.now }
        ensures ok { OnOk result (self.new ≡ with_clause lits.now self.old) }
        ensures err { OnErr result (self.new ≡ self.old) }
    {
        self.hard.push(lits)
    }

    /// Adds a soft clause, whose weight is paid where it has no true literal. After `Memory` the store is unchanged.
    pub fn soft(&mut self, weight: u64, lits: &[Lit]) -> Result<(), Memory>
        requires weight { 0 < weight }
        requires over { AllByRecursion (IsOver self.old.vars) lits.now }
        ensures ok { OnOk result (self.new ≡ with_soft (record { weight = weight; lits = lits.now } ∷ []) self.old) }
        ensures err { OnErr result (self.new ≡ self.old) }
    {
        let lits = Clause::from_vec(Vec::from_slice(self.alloc, lits)?);
        self.soft.push(SoftClause { weight, lits })
    }

    /// Adds an edge, which is there where its literal is true. After `Memory` the store is unchanged.
    pub fn edge(&mut self, from: i32, to: i32, lit: Lit) -> Result<(), Memory>
        requires { IsOver self.old.vars lit }
        ensures ok { OnOk result (self.new ≡ with_edge (record { from = from; to = to; lit = lit }) self.old) }
        ensures err { OnErr result (self.new ≡ self.old) }
    {
        self.edges.push(LitEdge { from, to, lit })
    }

    /// A new variable that has the table's value for the inputs, with a clause for each of the table's rows. After
    /// `Memory` the store is unchanged.
    pub fn gate<const K: usize, const C: usize>(
        &mut self,
        table: &Table<K, C>,
        inputs: [Lit; K],
    ) -> Result<Lit, Memory>
        requires over { AllByRecursion (IsOver self.old.vars) inputs }
        requires room { self.old.vars < 2 ^ 31 - 1 }
        ensures gate { IfOk result (λ l. IsGateOf table.now inputs.entry self.old self.new l) }
        ensures literal { IfOk result (λ l. l ≡ Pos (suc self.old.vars)) }
        ensures ok { OnOk result (self.new ≡ after_gate table.now inputs.entry self.old) }
        ensures count { OnOk result (length self.new.hard ≡ length self.old.hard + C) }
        ensures err { OnErr result (self.new ≡ self.old) }
    {
        table.known();
        let output = Lit::positive(self.vars + 1);
        let count = self.hard.len();
        let pushed = push_gate(&mut self.hard, table, &inputs, output);
        self.hard.roll_back(count, pushed)?;
        self.vars += 1;
        Ok(output)
    }

    /// A literal that is true just where all of the literals are. A single literal is answered itself, no literal gives
    /// a new variable with a unit clause, and two or more give the variable of an earlier call with the same list, or a
    /// new one with its clauses. After `Memory` the store is unchanged.
    pub fn all_of(&mut self, lits: &[Lit]) -> Result<Lit, Memory>
        requires over { AllByRecursion (IsOver self.old.vars) lits.now }
        requires room { self.old.vars < 2 ^ 31 - 1 }
        ensures gate { IfOk result (λ l. StandsForAll lits.now self.old self.new l) }
        ensures literal { IfOk result (λ l. l ≡ conjunction lits.now self.old) }
        ensures ok { OnOk result (self.new ≡ after_conjunction lits.now self.old) }
        ensures err { OnErr result (self.new ≡ self.old) }
    {
        match lits {
            [] => self.always(),
            [lit] => Ok(*lit),
            _ => self.conjunction(lits),
        }
    }

    /// A new variable with a unit clause.
    fn always(&mut self) -> Result<Lit, Memory>
        requires { self.old.vars < 2 ^ 31 - 1 }
        ensures gate { IfOk result (λ l. StandsForAll [] self.old self.new l) }
        ensures literal { IfOk result (λ l. l ≡ conjunction [] self.old) }
        ensures ok { OnOk result (self.new ≡ after_conjunction [] self.old) }
        ensures err { OnErr result (self.new ≡ self.old) }
    {
        let lit = Lit::positive(self.vars + 1);
        self.hard.push(&[lit])?;
        self.vars += 1;
        Ok(lit)
    }

    /// The variable of an equal list, or a new one.
    fn conjunction(&mut self, lits: &[Lit]) -> Result<Lit, Memory>
        requires over { AllByRecursion (IsOver self.old.vars) lits.now }
        requires room { self.old.vars < 2 ^ 31 - 1 }
        ensures gate { IfOk result (λ l. StandsForAll lits.now self.old self.new l) }
        ensures literal { IfOk result (λ l. l ≡ Pos (gate_output self.old (find_known lits.now self.old.known))) }
        ensures ok { OnOk result (self.new ≡ with_gate lits.now self.old (find_known lits.now self.old.known)) }
        ensures err { OnErr result (self.new ≡ self.old) }
    {
        if let Some(output) = self.known.get(lits) {
            return Ok(Lit::positive(output));
        }
        self.new_conjunction(lits)
    }

    fn new_conjunction(&mut self, lits: &[Lit]) -> Result<Lit, Memory>
        requires over { AllByRecursion (IsOver self.old.vars) lits.now }
        requires room { self.old.vars < 2 ^ 31 - 1 }
        requires unknown { find_known lits.now self.old.known ≡ None }
        ensures gate { IfOk result (λ l. StandsForAll lits.now self.old self.new l) }
        ensures literal { IfOk result (λ l. l ≡ Pos (suc self.old.vars)) }
        ensures ok { OnOk result (self.new ≡ with_gate lits.now self.old None) }
        ensures err { OnErr result (self.new ≡ self.old) }
    {
        let output = self.vars + 1;
        let count = self.hard.len();
        let pushed = push_conjunction(self.alloc, &mut self.hard, output, lits);
        self.hard.roll_back(count, pushed)?;
        let noted = self.known.insert(self.alloc, lits, output);
        self.hard.roll_back(count, noted)?;
        self.vars = output;
        Ok(Lit::positive(output))
    }

    /// The formula, with this top weight.
    pub fn finish(self, top: u64) -> Formula
        ensures { result ≡ formula_of_store self top }
    {
        Formula {
            vars: self.vars,
            hard: self.hard,
            edges: self.edges,
            soft: self.soft,
            top,
        }
    }
}
