//! The completion of a small program, clause by clause.

ghost use Rattle.std.specs.Prelude.{◌≡◌, ◌≤◌, ◌^◌, length, OnOk, IfOk};
ghost use Rattle.ground_program.specs.Draft.{with_rule};
ghost use Rattle.ground_program.specs.Facts.{IsAtom, HeadFits, ConditionFits};
ghost use Rattle.ground_program.specs.Normal.{AreNormal};
ghost use Rattle.ground_program.specs.Size.{size};
ghost use Rattle.ground_program.specs.declared.program.Body.TheVariants as bodies;

use asp_base::{Lit, Memory};
use clause_store::{ClauseList, Formula, Store};
use completion::{Bodies, complete};
use ground_program::{Body, Head, LitList, Program, ProgramBuilder};
use std::alloc::Global;
use std::test::Fail;

fn add_rule(
    alloc: Global,
    builder: &mut ProgramBuilder,
    head: Head,
    lits: &[Lit],
) -> Result<(), Memory>
    requires head { HeadFits IsAtom head }
    requires body { ConditionFits IsAtom lits.now }
    ensures { OnOk result (builder.new ≡ with_rule (record { head = head; body = bodies.All lits.now }) builder.old) }
{
    builder.add_rule(head, Body::All(LitList::from_slice(alloc, lits)?))
}

/// a :- b, not c. a :- b, not c. a :- c. b. :- a, not b. The literal c is required.
fn small_program(alloc: Global) -> Result<Program, Memory>
    ensures normal { IfOk result (λ p. AreNormal p.rules) }
    ensures small { IfOk result (λ p. size p ≤ 2 ^ 30) }
    ensures atoms { IfOk result (λ p. length p.atoms ≡ 3) }
{
    let a = Lit::positive(1);
    let b = Lit::positive(2);
    let c = Lit::positive(3);
    let mut builder = ProgramBuilder::new(alloc);
    add_rule(alloc, &mut builder, Head::One(1), &[b, c.negate()])?;
    add_rule(alloc, &mut builder, Head::One(1), &[b, c.negate()])?;
    add_rule(alloc, &mut builder, Head::One(1), &[c])?;
    add_rule(alloc, &mut builder, Head::One(2), &[])?;
    add_rule(alloc, &mut builder, Head::Nothing, &[a, b.negate()])?;
    builder.add_required(c)?;
    builder.finish()
}

/// The completion of the small program, and the literals of its bodies.
fn complete_small(alloc: Global) -> Result<(Formula, Bodies), Memory> {
    let program = small_program(alloc)?;
    let mut store = Store::new(alloc, 3);
    let bodies = complete(alloc, &program, &mut store)?;
    Ok((store.finish(1), bodies))
}

/// The numbers of the clauses' literals, with a 0 behind each clause.
fn numbers(alloc: Global, clauses: &ClauseList) -> Result<Vec<i32>, Memory> {
    let mut numbers = Vec::new(alloc);
    for i in 0..clauses.len() {
        for lit in clauses.get(i) {
            numbers.push(lit.value())?;
        }
        numbers.push(0)?;
    }
    Ok(numbers)
}

/// The number of the literal of a rule's body, 0 for none.
fn body_value(bodies: &Bodies, rule: u64) -> i32 {
    match bodies.literal(rule) {
        Some(literal) => literal.value(),
        None => 0,
    }
}

#[test]
fn completes_a_small_program(rt: HostRuntime) -> Result<(), Fail> {
    let alloc = rt.alloc();
    let (formula, bodies) = complete_small(alloc)?;
    assert_eq!(rt; formula.vars, 4);
    let clauses = [
        -4, 2, 0, -4, -3, 0, 4, -2, 3, 0, -1, 4, 3, 0, 1, -4, 0, 1, -3, 0, 2, 0, -3, 0, -1, 2, 0,
        3, 0,
    ];
    assert_eq!(rt;
        numbers(alloc, &formula.hard)?.as_slice(),
        clauses.as_slice()
    );
    let expected = [0, 4, 4, 3, 0, 0, 0];
    for (rule, value) in expected.iter().enumerate() {
        assert_eq!(rt; body_value(&bodies, rule as u64), *value);
    }
    Ok(())
}
