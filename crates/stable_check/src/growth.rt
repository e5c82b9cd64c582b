//! The least model grows: atoms are derived one by one, and each takes its weight off what the rules lack.

ghost use Rattle.std.specs.Prelude.{◌≡◌, ◌<◌, [], length, map, replicate, OnOk};
ghost use Rattle.std.specs.List.{AllByRecursion};
ghost use Rattle.asp_base.specs.Sets.{none};
ghost use Rattle.ground_program.specs.Facts.{Among, HeadFits, RuleFits};
ghost use Rattle.ground_program.specs.Stable.{grown};
ghost use Rattle.stable_check.specs.private.Lack.{flag};
ghost use Rattle.stable_check.specs.private.Links.{with_rules};
ghost use Rattle.stable_check.specs.private.UnderWay.{IsUnderWay};
ghost use Rattle.stable_check.specs.private.Growth.{derive, derive_if_chosen, derive_chosen, derive_head};

use crate::counters::Counters;
use crate::flags::flag;
use crate::occurrences::Occurrences;
use asp_base::Memory;
use ground_program::{Atoms, Head, Rule};
use std::marker::Model;

/// The atoms that were derived, by their flags, and what the rules lack with them.
#[derive(Drop)]
pub(crate) struct Growth {
    derived: Vec<bool>,
    counters: Counters,
}

impl Model for Growth {
    ghost use Rattle.stable_check.specs.private.Growth.{Growing};

    ghost Value = { Growing };

    ghost view = { λ g. record { derived = g.derived.items; counts = g.counters } };
}

impl Growth {
    pub(crate) fn new(derived: Vec<bool>, counters: Counters) -> Growth
        ensures { result ≡ record { derived = derived.items; counts = counters } }
    {
        Growth { derived, counters }
    }

    pub(crate) fn into_derived(self) -> Vec<bool>
        ensures { result.items ≡ self.derived }
    {
        self.derived
    }

    /// Derives the atom with this index, unless it was.
    fn derive(&mut self, table: &Occurrences, index: usize) -> Result<(), Memory>
        requires index { index < length self.old.derived }
        requires rows { length table.now.rows ≡ length self.old.derived }
        requires rules { table.now.rules ≡ length self.old.counts.lacks }
        ensures { OnOk result (self.new ≡ derive table.now.rows index self.old) }
    {
        if self.derived[index] {
            return Ok(());
        }
        self.derived[index] = true;
        table.take_off(index, &mut self.counters)
    }

    /// Derives an atom, if it is in the set.
    fn derive_if_chosen(
        &mut self,
        atoms: &Atoms,
        set: &[bool],
        table: &Occurrences,
        atom: u32,
    ) -> Result<(), Memory>
        requires set { length set.now ≡ length atoms.now }
        requires derived { length self.old.derived ≡ length atoms.now }
        requires rows { length table.now.rows ≡ length self.old.derived }
        requires rules { table.now.rules ≡ length self.old.counts.lacks }
        requires among { Among atoms.now atom }
        ensures { OnOk result (self.new ≡ derive_if_chosen atoms.now set.now table.now.rows atom self.old) }
    {
        if !flag(atoms, set, atom) {
            return Ok(());
        }
        self.derive(table, atoms.index_of(atom))
    }

    /// Derives the atoms of a choice that are in the set.
    fn derive_chosen(
        &mut self,
        atoms: &Atoms,
        set: &[bool],
        table: &Occurrences,
        heads: &[u32],
    ) -> Result<(), Memory>
        requires set { length set.now ≡ length atoms.now }
        requires derived { length self.old.derived ≡ length atoms.now }
        requires rows { length table.now.rows ≡ length self.old.derived }
        requires rules { table.now.rules ≡ length self.old.counts.lacks }
        requires fit { AllByRecursion (Among atoms.now) heads.now }
        ensures { OnOk result (self.new ≡ derive_chosen atoms.now set.now table.now.rows heads.now self.old) }
    {
        for head in heads {
            self.derive_if_chosen(atoms, set, table, *head)?;
        }
        Ok(())
    }

    /// Derives what a head may.
    fn derive_head(
        &mut self,
        atoms: &Atoms,
        set: &[bool],
        table: &Occurrences,
        head: &Head,
    ) -> Result<(), Memory>
        requires set { length set.now ≡ length atoms.now }
        requires derived { length self.old.derived ≡ length atoms.now }
        requires rows { length table.now.rows ≡ length self.old.derived }
        requires rules { table.now.rules ≡ length self.old.counts.lacks }
        requires fits { HeadFits (Among atoms.now) head.now }
        ensures { OnOk result (self.new ≡ derive_head atoms.now set.now table.now.rows head.now self.old) }
    {
        match head {
            Head::Nothing => Ok(()),
            Head::One(atom) => self.derive(table, atoms.index_of(*atom)),
            Head::Choice(heads) => self.derive_chosen(atoms, set, table, heads.as_slice()),
        }
    }
    /// Derives the heads of rules that are ready until none is.
    pub(crate) fn run(
        &mut self,
        atoms: &Atoms,
        set: &[bool],
        rules: &[Rule],
        table: &Occurrences,
    ) -> Result<(), Memory>
        requires set { length set.now ≡ length atoms.now }
        requires fit { AllByRecursion (RuleFits (Among atoms.now)) rules.now }
        requires table { table.now ≡ record {
          rules = length rules.now;
          rows = with_rules atoms.now 0 rules.now
              (replicate (length atoms.now) []);
        } }
        requires begun { IsUnderWay atoms.now rules.now (flag atoms.now set.now) (λ r. ⊥) self.old }
        ensures { OnOk result (self.new.derived ≡ map (grown rules.now (flag atoms.now set.now) none) atoms.now) }
    {
        while let Some(rule) = self.counters.next_ready() {
            self.derive_head(atoms, set, table, &rules[rule as usize].head)?;
        }
        Ok(())
    }
}
