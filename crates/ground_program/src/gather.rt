//! The atoms that occur in parts of a program, put behind those of a list.

ghost use Rattle.std.specs.Prelude.{◌≡◌, ◌++◌, map, OnOk};
ghost use Rattle.std.specs.List.{flat_map};
ghost use Rattle.ground_program.specs.Occurrences.{atoms_of_literals, atoms_of_items, atoms_of_head, atoms_of_body, atoms_of_rule};

use crate::builder::External;
use crate::program::{Body, Edge, Head, Level, Rule, Show};
use asp_base::{Lit, Memory};

pub(crate) fn push_literals(out: &mut Vec<u32>, lits: &[Lit]) -> Result<(), Memory>
    ensures { OnOk result (out.new.items ≡ out.old.items ++ atoms_of_literals lits.now) }
{
    for lit in lits {
        out.push(lit.var())?;
    }
    Ok(())
}

fn push_items(out: &mut Vec<u32>, items: &[(Lit, i64)]) -> Result<(), Memory>
    ensures { OnOk result (out.new.items ≡ out.old.items ++ atoms_of_items items.now) }
{
    for item in items {
        out.push(item.0.var())?;
    }
    Ok(())
}

fn push_head(out: &mut Vec<u32>, head: &Head) -> Result<(), Memory>
    ensures { OnOk result (out.new.items ≡ out.old.items ++ atoms_of_head head.now) }
{
    match head {
        Head::Nothing => Ok(()),
        Head::One(atom) => Ok(out.push(*atom)?),
        Head::Choice(atoms) => Ok(out.extend_from_slice(atoms.as_slice())?),
    }
}

fn push_body(out: &mut Vec<u32>, body: &Body) -> Result<(), Memory>
    ensures { OnOk result (out.new.items ≡ out.old.items ++ atoms_of_body body.now) }
{
    match body {
        Body::All(lits) => push_literals(out, lits.as_slice()),
        Body::Sum { items, .. } => push_items(out, items.as_slice()),
    }
}

pub(crate) fn push_heads(out: &mut Vec<u32>, rules: &[Rule]) -> Result<(), Memory>
    ensures { OnOk result (out.new.items ≡ out.old.items ++ flat_map (λ rule. atoms_of_head rule.head) rules.now) }
{
    for rule in rules {
        push_head(out, &rule.head)?;
    }
    Ok(())
}

fn push_rule(out: &mut Vec<u32>, rule: &Rule) -> Result<(), Memory>
    ensures { OnOk result (out.new.items ≡ out.old.items ++ atoms_of_rule rule.now) }
{
    push_head(out, &rule.head)?;
    push_body(out, &rule.body)
}

pub fn push_rules(out: &mut Vec<u32>, rules: &[Rule]) -> Result<(), Memory>
    ensures { OnOk result (out.new.items ≡ out.old.items ++ flat_map atoms_of_rule rules.now) }
{
    for rule in rules {
        push_rule(out, rule)?;
    }
    Ok(())
}

pub(crate) fn push_edges(out: &mut Vec<u32>, edges: &[Edge]) -> Result<(), Memory>
    ensures { OnOk result (out.new.items ≡ out.old.items
        ++ flat_map (λ edge. atoms_of_literals edge.condition) edges.now) }
{
    for edge in edges {
        push_literals(out, edge.condition.as_slice())?;
    }
    Ok(())
}

pub(crate) fn push_levels(out: &mut Vec<u32>, levels: &[Level]) -> Result<(), Memory>
    ensures { OnOk result (out.new.items ≡ out.old.items ++ flat_map (λ level. atoms_of_items level.items) levels.now) }
{
    for level in levels {
        push_items(out, level.items.as_slice())?;
    }
    Ok(())
}

pub(crate) fn push_shows(out: &mut Vec<u32>, shows: &[Show]) -> Result<(), Memory>
    ensures { OnOk result (out.new.items ≡ out.old.items
        ++ flat_map (λ show. atoms_of_literals show.condition) shows.now) }
{
    for show in shows {
        push_literals(out, show.condition.as_slice())?;
    }
    Ok(())
}

pub(crate) fn push_externals(
    out: &mut Vec<u32>,
    externals: &[(u32, External)],
) -> Result<(), Memory>
    ensures { OnOk result (out.new.items ≡ out.old.items ++ map (λ set. set.0) externals.now) }
{
    for set in externals {
        out.push(set.0)?;
    }
    Ok(())
}
