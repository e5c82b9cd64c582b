//! What each rule still lacks before any atom is derived: the literals, or the weight, that are missing of its body.

ghost use Rattle.std.specs.Prelude.{◌≡◌, ◌-◌, ◌+◌, ◌^◌, ◌≤ℤ◌, ◌<◌, pos, length, map, cond, IfOk};
ghost use Rattle.std.specs.List.{AllByRecursion};
ghost use Rattle.asp_base.specs.Literal.{atom_of, literal_holds};
ghost use Rattle.asp_base.specs.Sets.{none};
ghost use Rattle.ground_program.specs.Facts.{Among, IsShort, LiteralsFit, FitsWeight, FitsBodyWeight, BodyFits, RuleFits};
ghost use Rattle.stable_check.specs.private.Lack.{flag, natural, one_each, naturals, asks, weighed, total, lack, zeros};

use crate::flags::flag;
use asp_base::{Lit, Memory};
use ground_program::{Atoms, Body, Rule};
use std::alloc::Global;

/// The number, or 0 where it is negative.
pub(crate) fn natural(number: i64) -> u32
    requires { number ≤ℤ pos (2 ^ 31 - 1) }
    ensures { result ≡ natural number }
{
    if number > 0 { number as u32 } else { 0 }
}

/// What is lacking once the literal has its say, if it is a negative one whose atom is outside the set.
fn less(atoms: &Atoms, set: &[bool], lit: Lit, weight: u32, lacking: u32) -> u32
    requires same { length set.now ≡ length atoms.now }
    requires among { Among atoms.now (atom_of lit) }
    ensures { result ≡ lacking - cond (literal_holds lit none (flag atoms.now set.now)) weight 0 }
{
    if lit.is_positive() {
        return lacking;
    }
    if flag(atoms, set, lit.var()) {
        lacking
    } else {
        lacking.saturating_sub(weight)
    }
}

/// How many of the literals are not negative ones whose atom is outside the set.
fn lack_of_literals(atoms: &Atoms, set: &[bool], lits: &[Lit]) -> u32
    requires same { length set.now ≡ length atoms.now }
    requires short { IsShort lits.now }
    requires among { LiteralsFit (Among atoms.now) lits.now }
    ensures { result ≡ length lits.now - total (one_each lits.now) none (flag atoms.now set.now) }
{
    let mut lacking = lits.len() as u32;
    for lit in lits {
        lacking = less(atoms, set, *lit, 1, lacking);
    }
    lacking
}

/// What is missing of the bound where only negative literals whose atom is outside the set hold.
fn lack_of_items(atoms: &Atoms, set: &[bool], bound: i64, items: &[(Lit, i64)]) -> u32
    requires same { length set.now ≡ length atoms.now }
    requires bound { FitsWeight bound }
    requires fits { AllByRecursion (λ item. Among atoms.now (atom_of item.0) × FitsBodyWeight item.1) items.now }
    ensures { result ≡ natural bound - total (naturals items.now) none (flag atoms.now set.now) }
{
    let mut lacking = natural(bound);
    for item in items {
        lacking = less(atoms, set, item.0, natural(item.1), lacking);
    }
    lacking
}

/// What the rule lacks before any atom is derived.
fn lack(atoms: &Atoms, set: &[bool], rule: &Rule) -> u32
    requires same { length set.now ≡ length atoms.now }
    requires fits { RuleFits (Among atoms.now) rule.now }
    ensures { result ≡ lack none (flag atoms.now set.now) rule.now }
{
    match &rule.body {
        Body::All(lits) => lack_of_literals(atoms, set, lits.as_slice()),
        Body::Sum { bound, items } => lack_of_items(atoms, set, *bound, items.as_slice()),
    }
}

/// What the rules lack before any atom is derived.
pub(crate) fn lacks(
    alloc: Global,
    atoms: &Atoms,
    set: &[bool],
    rules: &[Rule],
) -> Result<Vec<u32>, Memory>
    requires same { length set.now ≡ length atoms.now }
    requires fit { AllByRecursion (RuleFits (Among atoms.now)) rules.now }
    ensures { IfOk result (λ lacks. lacks.items ≡ map (lack none (flag atoms.now set.now)) rules.now) }
{
    let mut lacks = Vec::with_capacity(alloc, rules.len())?;
    for rule in rules {
        lacks.push(lack(atoms, set, rule))?;
    }
    Ok(lacks)
}

/// The indices of the zeros.
pub(crate) fn zeros(alloc: Global, numbers: &[u32]) -> Result<Vec<u32>, Memory>
    requires { length numbers.now < 2 ^ 32 }
    ensures { IfOk result (λ places. places.items ≡ zeros 0 numbers.now) }
{
    let mut places = Vec::new(alloc);
    for (i, number) in numbers.iter().enumerate() {
        if *number == 0 {
            places.push(i as u32)?;
        }
    }
    Ok(places)
}
