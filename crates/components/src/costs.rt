//! What each rule costs in the sums over a component's rules.

ghost use Rattle.std.specs.Prelude.{◌≡◌, ◌^◌, ⊤, min, map, IfOk};
ghost use Rattle.std.specs.List.{AllByRecursion};
ghost use Rattle.ground_program.specs.Facts.{BodyFits};
ghost use Rattle.ground_program.specs.Room.{term};
ghost use Rattle.ground_program.specs.Tangle.{is_all, is_one};
ghost use Rattle.components.specs.private.Adding.{oddness};

use asp_base::Memory;
use ground_program::{Body, Head, Rule, term};
use std::alloc::Global;

fn is_one(head: &Head) -> bool
    ensures { result ≡ is_one head.now }
{
    match head {
        Head::One(_) => true,
        _ => false,
    }
}

fn is_all(body: &Body) -> bool
    ensures { result ≡ is_all body.now }
{
    match body {
        Body::All(_) => true,
        _ => false,
    }
}

fn oddness(rule: &Rule) -> u64
    ensures { result ≡ oddness rule.now }
{
    if is_one(&rule.head) && is_all(&rule.body) {
        0
    } else {
        1
    }
}

/// 1 for each rule.
pub(crate) fn ones(alloc: Global, rules: &[Rule]) -> Result<Vec<u64>, Memory>
    ensures { IfOk result (λ costs. costs.items ≡ map (λ rule. 1) rules.now) }
{
    let mut costs = Vec::new(alloc);
    for _rule in rules {
        costs.push(1)?;
    }
    Ok(costs)
}

/// The terms of the rules.
pub(crate) fn terms(alloc: Global, rules: &[Rule]) -> Result<Vec<u64>, Memory>
    requires { AllByRecursion (λ rule. BodyFits (λ a. ⊤) rule.body) rules.now }
    ensures { IfOk result (λ costs. costs.items ≡ map (λ rule. min (term rule) (2 ^ 63)) rules.now) }
{
    let mut costs = Vec::new(alloc);
    for rule in rules {
        costs.push(term(rule))?;
    }
    Ok(costs)
}

/// 1 for each rule of another kind than one head over all literals.
pub(crate) fn odd_ones(alloc: Global, rules: &[Rule]) -> Result<Vec<u64>, Memory>
    ensures { IfOk result (λ costs. costs.items ≡ map oddness rules.now) }
{
    let mut costs = Vec::new(alloc);
    for rule in rules {
        costs.push(oddness(rule))?;
    }
    Ok(costs)
}
