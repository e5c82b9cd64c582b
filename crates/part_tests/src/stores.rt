//! Conjunctions of a store, and the first false clause of a formula.

ghost use Rattle.std.specs.Prelude.{◌≡◌, ◌<◌, ◌≤◌, ◌+◌};
ghost use Rattle.std.specs.List.{AllByRecursion};
ghost use Rattle.clause_store.specs.Facts.{IsOver};

use asp_base::{Lit, Memory};
use clause_store::{Assignment, Formula, Store};
use std::alloc::Global;
use std::test::Fail;

fn output(store: &mut Store, lits: &[Lit]) -> Result<i32, Memory>
    requires over { AllByRecursion (IsOver 2) lits.now }
    requires inputs { 2 ≤ store.old.vars }
    requires room { store.old.vars < 1000 }
    ensures inputs { 2 ≤ store.new.vars }
    ensures few { store.new.vars ≤ store.old.vars + 1 }
{
    Ok(store.all_of(lits)?.value())
}

fn outputs(store: &mut Store) -> Result<[i32; 5], Memory>
    requires { store.old.vars ≡ 2 }
{
    let a = Lit::positive(1);
    let b = Lit::positive(2).negate();
    let none = output(store, &[])?;
    let one = output(store, &[b])?;
    let two = output(store, &[a, b])?;
    let again = output(store, &[a, b])?;
    let turned = output(store, &[b, a])?;
    Ok([none, one, two, again, turned])
}

fn first_false(alloc: Global, formula: &Formula, true_vars: &[u32]) -> Result<u64, Memory>
    requires { AllByRecursion (λ v. (0 < v) × (v ≤ formula.now.vars)) true_vars.now }
{
    let values = Assignment::of(alloc, formula.vars, true_vars)?;
    Ok(formula.first_false(&values).unwrap_or(0))
}

fn first_false_clauses(alloc: Global, formula: &Formula) -> Result<[u64; 5], Memory>
    requires { formula.now.vars ≡ 5 }
{
    Ok([
        first_false(alloc, formula, &[1, 3, 4, 5])?,
        first_false(alloc, formula, &[1, 4, 5])?,
        first_false(alloc, formula, &[1, 2, 3, 4])?,
        first_false(alloc, formula, &[1, 3, 5])?,
        first_false(alloc, formula, &[1, 3, 4])?,
    ])
}

#[test]
fn conjunctions_stand_in_the_formula(rt: HostRuntime) -> Result<(), Fail> {
    let alloc = rt.alloc();
    let mut store = Store::new(alloc, 2);
    assert_eq!(rt; outputs(&mut store)?, [3, -2, 4, 4, 5]);
    let formula = store.finish(1);
    assert_eq!(rt; formula.hard.len(), 7);
    assert_eq!(rt; formula.vars, 5);
    assert_eq!(rt; first_false_clauses(alloc, &formula)?, [0, 1, 3, 4, 7]);
    Ok(())
}
