//! Lines of the rules. What follows the number of a rule's type goes to the builder when its line has ended.

ghost use Rattle.std.specs.Prelude.{◌≡◌, ◌≤◌, ◌<◌, ◌+◌, ◌^◌, pos, length, Ok, Err, IfOk, OnOk, IfErr};
ghost use Rattle.ground_program.specs.Draft.{with_rule};
ghost use Rattle.ground_program.specs.Facts.{IsAtom, HeadFits, BodyFits};
ghost use Rattle.statement_fields.specs.Fields.{ended, Faults};
ghost use Rattle.smodels_format.specs.Read.{basic_rule, constraint_rule, choice_rule, weight_rule, minimize, disjunctive_rule, by_type, rule_entry};
ghost use Rattle.smodels_format.specs.private.Steps.{rule_said, levels_added};

use crate::body::{count_body, items, plain_body, weight_body};
use asp_scan::Scan;
use ground_program::{Body, Head, Level, ProgramBuilder, ReadKind};
use statement_fields::{FieldFault, atom, choice, count, ended, many_atoms, number, plain_head};
use std::alloc::Global;

/// What a line of the rules was.
#[derive(Clone, Copy)]
pub(crate) enum RuleLine {
    Rule,
    Minimize,
    End,
}

/// A line of the rules: the type of a rule, and what stands behind it. So many levels were added before.
pub(crate) fn rule_line(
    alloc: Global,
    scan: &mut Scan<'_>,
    builder: &mut ProgramBuilder,
    levels: u32,
) -> Result<RuleLine, FieldFault>
    requires counted { levels ≡ length builder.old.levels }
    requires few { levels < 2 ^ 31 }
    ensures ok { IfOk result (λ line. rule_entry builder.old scan.old.left ≡ Ok (rule_said line builder.new)) }
    ensures err { IfErr result (λ fault. Faults (rule_entry builder.old scan.old.left) fault) }
    ensures end { IfOk result (λ line. line ≡ RuleLine.End → builder.new ≡ builder.old) }
    ensures levels { IfOk result (λ line. length builder.new.levels ≡ length builder.old.levels + levels_added line) }
    ensures rest { scan.new ≡ record scan.old { left = scan.new.left } }
{
    let n = number(scan)?;
    by_type(alloc, scan, builder, levels, n)
}

fn by_type(
    alloc: Global,
    scan: &mut Scan<'_>,
    builder: &mut ProgramBuilder,
    levels: u32,
    n: i64,
) -> Result<RuleLine, FieldFault>
    requires counted { levels ≡ length builder.old.levels }
    requires few { levels < 2 ^ 31 }
    ensures ok { IfOk result (λ line. by_type n builder.old scan.old.left ≡ Ok (rule_said line builder.new)) }
    ensures err { IfErr result (λ fault. Faults (by_type n builder.old scan.old.left) fault) }
    ensures end { IfOk result (λ line. line ≡ RuleLine.End → builder.new ≡ builder.old) }
    ensures levels { IfOk result (λ line. length builder.new.levels ≡ length builder.old.levels + levels_added line) }
    ensures rest { scan.new ≡ record scan.old { left = scan.new.left } }
{
    match n {
        0 => {
            ended(scan)?;
            return Ok(RuleLine::End);
        }
        1 => basic_rule(alloc, scan, builder)?,
        2 => constraint_rule(alloc, scan, builder)?,
        3 => choice_rule(alloc, scan, builder)?,
        5 => weight_rule(alloc, scan, builder)?,
        6 => {
            minimize(alloc, scan, builder, levels)?;
            return Ok(RuleLine::Minimize);
        }
        8 => disjunctive_rule(alloc, scan, builder)?,
        _ => return Err(FieldFault::Kind(ReadKind::UnknownStatement)),
    }
    Ok(RuleLine::Rule)
}

/// An atom that is true where the literals are.
fn basic_rule(
    alloc: Global,
    scan: &mut Scan<'_>,
    builder: &mut ProgramBuilder,
) -> Result<(), FieldFault>
    ensures ok { OnOk result (basic_rule builder.old scan.old.left ≡ Ok builder.new) }
    ensures err { IfErr result (λ fault. Faults (basic_rule builder.old scan.old.left) fault) }
    ensures levels { OnOk result (builder.new.levels ≡ builder.old.levels) }
    ensures rest { scan.new ≡ record scan.old { left = scan.new.left } }
{
    let head = Head::One(atom(scan)?);
    let body = plain_body(alloc, scan)?;
    add_rule(scan, builder, head, body)
}

/// An atom that is true where enough of the literals are.
fn constraint_rule(
    alloc: Global,
    scan: &mut Scan<'_>,
    builder: &mut ProgramBuilder,
) -> Result<(), FieldFault>
    ensures ok { OnOk result (constraint_rule builder.old scan.old.left ≡ Ok builder.new) }
    ensures err { IfErr result (λ fault. Faults (constraint_rule builder.old scan.old.left) fault) }
    ensures levels { OnOk result (builder.new.levels ≡ builder.old.levels) }
    ensures rest { scan.new ≡ record scan.old { left = scan.new.left } }
{
    let head = Head::One(atom(scan)?);
    let body = count_body(alloc, scan)?;
    add_rule(scan, builder, head, body)
}

/// Atoms of which any may be true where the literals are.
fn choice_rule(
    alloc: Global,
    scan: &mut Scan<'_>,
    builder: &mut ProgramBuilder,
) -> Result<(), FieldFault>
    ensures ok { OnOk result (choice_rule builder.old scan.old.left ≡ Ok builder.new) }
    ensures err { IfErr result (λ fault. Faults (choice_rule builder.old scan.old.left) fault) }
    ensures levels { OnOk result (builder.new.levels ≡ builder.old.levels) }
    ensures rest { scan.new ≡ record scan.old { left = scan.new.left } }
{
    let n = count(scan)?;
    let head = Head::Choice(many_atoms(alloc, scan, n)?);
    let body = plain_body(alloc, scan)?;
    add_rule(scan, builder, head, body)
}

/// An atom that is true where the weights of the literals that are true reach a bound.
fn weight_rule(
    alloc: Global,
    scan: &mut Scan<'_>,
    builder: &mut ProgramBuilder,
) -> Result<(), FieldFault>
    ensures ok { OnOk result (weight_rule builder.old scan.old.left ≡ Ok builder.new) }
    ensures err { IfErr result (λ fault. Faults (weight_rule builder.old scan.old.left) fault) }
    ensures levels { OnOk result (builder.new.levels ≡ builder.old.levels) }
    ensures rest { scan.new ≡ record scan.old { left = scan.new.left } }
{
    let head = Head::One(atom(scan)?);
    let body = weight_body(alloc, scan)?;
    add_rule(scan, builder, head, body)
}

/// No atom, or one, that is true where the literals are.
fn disjunctive_rule(
    alloc: Global,
    scan: &mut Scan<'_>,
    builder: &mut ProgramBuilder,
) -> Result<(), FieldFault>
    ensures ok { OnOk result (disjunctive_rule builder.old scan.old.left ≡ Ok builder.new) }
    ensures err { IfErr result (λ fault. Faults (disjunctive_rule builder.old scan.old.left) fault) }
    ensures levels { OnOk result (builder.new.levels ≡ builder.old.levels) }
    ensures rest { scan.new ≡ record scan.old { left = scan.new.left } }
{
    let n = count(scan)?;
    let head = plain_head(scan, n)?;
    let body = plain_body(alloc, scan)?;
    add_rule(scan, builder, head, body)
}

/// The end of a rule's line, and the rule.
fn add_rule(
    scan: &Scan<'_>,
    builder: &mut ProgramBuilder,
    head: Head,
    body: Body,
) -> Result<(), FieldFault>
    requires head { HeadFits IsAtom head }
    requires body { BodyFits IsAtom body }
    ensures ok { OnOk result (ended (with_rule (record { head = head; body = body }) builder.old) scan.now.left
        ≡ Ok builder.new) }
    ensures err { IfErr result (λ fault.
        Faults (ended (with_rule (record { head = head; body = body }) builder.old) scan.now.left) fault) }
    ensures levels { OnOk result (builder.new.levels ≡ builder.old.levels) }
{
    ended(scan)?;
    builder.add_rule(head, body)?;
    Ok(())
}

/// Items to be minimized, at the priority that is the number of levels before.
fn minimize(
    alloc: Global,
    scan: &mut Scan<'_>,
    builder: &mut ProgramBuilder,
    levels: u32,
) -> Result<(), FieldFault>
    requires counted { levels ≡ length builder.old.levels }
    requires few { levels < 2 ^ 31 }
    ensures ok { OnOk result (minimize builder.old scan.old.left ≡ Ok builder.new) }
    ensures err { IfErr result (λ fault. Faults (minimize builder.old scan.old.left) fault) }
    ensures levels { OnOk result (length builder.new.levels ≡ length builder.old.levels + 1) }
    ensures rest { scan.new ≡ record scan.old { left = scan.new.left } }
{
    choice(scan, 0)?;
    let items = items(alloc, scan)?;
    ended(scan)?;
    builder.add_level(Level {
        priority: levels as i32,
        items,
    })?;
    Ok(())
}
