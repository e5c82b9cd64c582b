//! The table of occurrences of a program: for each atom the rules and weights where it stands as a positive literal.

ghost use Rattle.std.specs.Prelude.{◌≡◌, ◌<◌, ◌^◌, [], length, replicate, OnOk, IfOk};
ghost use Rattle.std.specs.List.{AllByRecursion};
ghost use Rattle.asp_base.specs.Literal.{atom_of};
ghost use Rattle.ground_program.specs.Facts.{Among, LiteralsFit, FitsBodyWeight, RuleFits};
ghost use Rattle.stable_check.specs.private.Lack.{one_each, naturals, weighed};
ghost use Rattle.stable_check.specs.private.Links.{with_literal, with_items, with_rules};

use crate::lacks::natural;
use crate::occurrences::Occurrences;
use asp_base::{Lit, Memory};
use ground_program::{Atoms, Body, Rule};
use std::alloc::Global;

/// Adds the literal's occurrence in the rule, if it is a positive one.
fn add_literal(
    atoms: &Atoms,
    rule: u32,
    weight: u32,
    lit: Lit,
    table: &mut Occurrences,
) -> Result<(), Memory>
    requires same { length table.old.rows ≡ length atoms.now }
    requires rule { rule < table.old.rules }
    requires among { Among atoms.now (atom_of lit) }
    ensures { OnOk result
        (table.new ≡ record { rules = table.old.rules; rows = with_literal atoms.now rule weight lit table.old.rows }) }
{
    if !lit.is_positive() {
        return Ok(());
    }
    table.push(atoms.index_of(lit.var()), rule, weight)
}

fn add_literals(
    atoms: &Atoms,
    rule: u32,
    lits: &[Lit],
    table: &mut Occurrences,
) -> Result<(), Memory>
    requires same { length table.old.rows ≡ length atoms.now }
    requires rule { rule < table.old.rules }
    requires among { LiteralsFit (Among atoms.now) lits.now }
    ensures { OnOk result (table.new ≡ record {
      rules = table.old.rules;
      rows = with_items atoms.now rule
          (one_each lits.now) table.old.rows;
    }) }
{
    for lit in lits {
        add_literal(atoms, rule, 1, *lit, table)?;
    }
    Ok(())
}

fn add_items(
    atoms: &Atoms,
    rule: u32,
    items: &[(Lit, i64)],
    table: &mut Occurrences,
) -> Result<(), Memory>
    requires same { length table.old.rows ≡ length atoms.now }
    requires rule { rule < table.old.rules }
    requires fits { AllByRecursion (λ item. Among atoms.now (atom_of item.0) × FitsBodyWeight item.1) items.now }
    ensures { OnOk result (table.new ≡ record {
      rules = table.old.rules;
      rows = with_items atoms.now rule
          (naturals items.now) table.old.rows;
    }) }
{
    for item in items {
        add_literal(atoms, rule, natural(item.1), item.0, table)?;
    }
    Ok(())
}

/// Adds the occurrences in the body of the rule with this index.
fn add_rule(atoms: &Atoms, n: u32, rule: &Rule, table: &mut Occurrences) -> Result<(), Memory>
    requires same { length table.old.rows ≡ length atoms.now }
    requires rule { n < table.old.rules }
    requires fits { RuleFits (Among atoms.now) rule.now }
    ensures { OnOk result (table.new ≡ record {
      rules = table.old.rules;
      rows = with_items atoms.now n
          (weighed rule.now.body) table.old.rows;
    }) }
{
    match &rule.body {
        Body::All(lits) => add_literals(atoms, n, lits.as_slice(), table),
        Body::Sum { items, .. } => add_items(atoms, n, items.as_slice(), table),
    }
}

/// The occurrences of the atoms in the bodies of the rules as positive literals.
pub(crate) fn occurrences(
    alloc: Global,
    atoms: &Atoms,
    rules: &[Rule],
) -> Result<Occurrences, Memory>
    requires few { length rules.now < 2 ^ 32 }
    requires fit { AllByRecursion (RuleFits (Among atoms.now)) rules.now }
    ensures { IfOk result (λ table. table ≡ record {
      rules = length rules.now;
      rows = with_rules atoms.now 0 rules.now
          (replicate (length atoms.now) []);
    }) }
{
    let mut table = Occurrences::new(alloc, atoms.len(), rules.len() as u32)?;
    for (n, rule) in rules.iter().enumerate() {
        add_rule(atoms, n as u32, rule, &mut table)?;
    }
    Ok(table)
}
