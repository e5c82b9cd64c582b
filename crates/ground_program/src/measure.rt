//! The size of a program.

ghost use Rattle.std.specs.Prelude.{◌≡◌, ◌+◌, ◌^◌, min, length};
ghost use Rattle.std.specs.List.{sum_by};
ghost use Rattle.ground_program.specs.Size.{choices, entries, rule_size, size};

use crate::program::{Body, Edge, Head, Level, Program, Rule, Show};

/// Where sizes saturate.
const LIMIT: u64 = 1 << 63;

/// The size of a program: its atoms; for each rule 1, the entries of its body and the heads of a choice;
/// its required literals; for each edge, level and show 1 and its literals or items. Saturates at 2^63.
pub fn size(program: &Program) -> u64
    ensures { result ≡ min (size program.now) (2 ^ 63) }
{
    let atoms = program.atoms.as_slice().len() as u64;
    let required = program.required.as_slice().len() as u64;
    let mut total = joined(atoms, rules_size(program.rules.as_slice()));
    total = joined(total, required);
    total = joined(total, edges_size(program.edges.as_slice()));
    total = joined(total, levels_size(program.levels.as_slice()));
    joined(total, shows_size(program.shows.as_slice()))
}

/// The sum, saturating at 2^63.
pub(crate) fn joined(left: u64, right: u64) -> u64
    ensures { result ≡ min (left + right) (2 ^ 63) }
{
    left.saturating_add(right).min(LIMIT)
}

fn rules_size(rules: &[Rule]) -> u64
    ensures { result ≡ min (sum_by rule_size rules.now) (2 ^ 63) }
{
    let mut total = 0;
    for rule in rules {
        total = joined(total, rule_size(rule));
    }
    total
}

fn rule_size(rule: &Rule) -> u64
    ensures { result ≡ min (rule_size rule.now) (2 ^ 63) }
{
    joined(joined(1, entries(&rule.body)), choices(&rule.head))
}

fn entries(body: &Body) -> u64
    ensures { result ≡ entries body.now }
{
    match body {
        Body::All(lits) => lits.as_slice().len() as u64,
        Body::Sum { items, .. } => items.as_slice().len() as u64,
    }
}

fn choices(head: &Head) -> u64
    ensures { result ≡ choices head.now }
{
    match head {
        Head::Choice(atoms) => atoms.as_slice().len() as u64,
        _ => 0,
    }
}

pub(crate) fn edges_size(edges: &[Edge]) -> u64
    ensures { result ≡ min (sum_by (λ edge. 1 + length edge.condition) edges.now) (2 ^ 63) }
{
    let mut total = 0;
    for edge in edges {
        total = joined(total, joined(1, edge.condition.as_slice().len() as u64));
    }
    total
}

pub(crate) fn levels_size(levels: &[Level]) -> u64
    ensures { result ≡ min (sum_by (λ level. 1 + length level.items) levels.now) (2 ^ 63) }
{
    let mut total = 0;
    for level in levels {
        total = joined(total, joined(1, level.items.as_slice().len() as u64));
    }
    total
}

pub(crate) fn shows_size(shows: &[Show]) -> u64
    ensures { result ≡ min (sum_by (λ show. 1 + length show.condition) shows.now) (2 ^ 63) }
{
    let mut total = 0;
    for show in shows {
        total = joined(total, joined(1, show.condition.as_slice().len() as u64));
    }
    total
}
