//! Statements: each adds to the program, is read and dropped (projections, heuristics, comments), or ends the text.

ghost use Rattle.std.specs.Prelude.{◌≡◌, ◌≤◌, Ok, Err, IfOk, OnOk, IfErr};
ghost use Rattle.asp_base.specs.Literal.{atom_of};
ghost use Rattle.ground_program.specs.Draft.{Draft, with_required};
ghost use Rattle.ground_program.specs.Facts.{IsAtom, LiteralsFit};
ghost use Rattle.asp_scan.specs.Feeds.{HasNoFeed};
ghost use Rattle.statement_fields.specs.Fields.{Faults};
ghost use Rattle.aspif_format.specs.Read.{rule, level, projection, show, external, external_value, required, heuristic, edge, by_number, statement};
ghost use Rattle.aspif_format.specs.private.Steps.{statement_of};

use crate::parts::{body, head};
use asp_base::{Lit, Memory};
use asp_scan::Scan;
use ground_program::{Edge, External, Level, ProgramBuilder, ReadKind, Show};
use statement_fields::{
    FieldFault, atom, atoms, choice, ended, level_items, literals, name, not_negative, number,
    small,
};
use std::alloc::Global;

/// Whether more statements may follow.
#[derive(Clone, Copy)]
pub(crate) enum Step {
    On,
    End,
}

/// A statement: its number, and what stands behind it.
pub(crate) fn statement(
    alloc: Global,
    scan: &mut Scan<'_>,
    builder: &mut ProgramBuilder,
) -> Result<Step, FieldFault>
    requires { HasNoFeed scan.old.left }
    ensures ok { IfOk result
        (λ step. statement builder.old scan.old.left ≡ Ok (statement_of step builder.new)) }
    ensures err { IfErr result (λ fault. Faults (statement builder.old scan.old.left) fault) }
    ensures end { IfOk result (λ step. step ≡ Step.End → builder.new ≡ builder.old) }
    ensures rest { scan.new ≡ record scan.old { left = scan.new.left } }
{
    let n = number(scan)?;
    if n < 0 || n > 10 {
        return Err(FieldFault::Kind(ReadKind::UnknownStatement));
    }
    by_number(alloc, scan, builder, n as u32)
}

fn by_number(
    alloc: Global,
    scan: &mut Scan<'_>,
    builder: &mut ProgramBuilder,
    n: u32,
) -> Result<Step, FieldFault>
    requires { HasNoFeed scan.old.left }
    ensures ok { IfOk result (λ step. by_number n builder.old scan.old.left ≡ Ok (statement_of step builder.new)) }
    ensures err { IfErr result (λ fault. Faults (by_number n builder.old scan.old.left) fault) }
    ensures end { IfOk result (λ step. step ≡ Step.End → builder.new ≡ builder.old) }
    ensures rest { scan.new ≡ record scan.old { left = scan.new.left } }
{
    match n {
        0 => {
            ended(scan)?;
            return Ok(Step::End);
        }
        1 => rule(alloc, scan, builder)?,
        2 => level(alloc, scan, builder)?,
        3 => projection(alloc, scan)?,
        4 => show(alloc, scan, builder)?,
        5 => external(scan, builder)?,
        6 => required(alloc, scan, builder)?,
        7 => heuristic(alloc, scan)?,
        8 => edge(alloc, scan, builder)?,
        9 => return Err(FieldFault::Kind(ReadKind::Theory)),
        _ => {}
    }
    Ok(Step::On)
}

fn rule(alloc: Global, scan: &mut Scan<'_>, builder: &mut ProgramBuilder) -> Result<(), FieldFault>
    ensures ok { OnOk result (rule builder.old scan.old.left ≡ Ok builder.new) }
    ensures err { IfErr result (λ fault. Faults (rule builder.old scan.old.left) fault) }
    ensures rest { scan.new ≡ record scan.old { left = scan.new.left } }
{
    let head = head(alloc, scan)?;
    let body = body(alloc, scan)?;
    ended(scan)?;
    builder.add_rule(head, body)?;
    Ok(())
}

fn level(alloc: Global, scan: &mut Scan<'_>, builder: &mut ProgramBuilder) -> Result<(), FieldFault>
    ensures ok { OnOk result (level builder.old scan.old.left ≡ Ok builder.new) }
    ensures err { IfErr result (λ fault. Faults (level builder.old scan.old.left) fault) }
    ensures rest { scan.new ≡ record scan.old { left = scan.new.left } }
{
    let priority = small(scan)?;
    let items = level_items(alloc, scan)?;
    ended(scan)?;
    builder.add_level(Level { priority, items })?;
    Ok(())
}

/// The atoms of a projection are read and dropped.
fn projection(alloc: Global, scan: &mut Scan<'_>) -> Result<(), FieldFault>
    ensures ok { OnOk result ((draft : Draft) → projection draft scan.old.left ≡ Ok draft) }
    ensures err { IfErr result (λ fault. (draft : Draft) → Faults (projection draft scan.old.left) fault) }
    ensures rest { scan.new ≡ record scan.old { left = scan.new.left } }
{
    atoms(alloc, scan)?;
    ended(scan)?;
    Ok(())
}

fn show(alloc: Global, scan: &mut Scan<'_>, builder: &mut ProgramBuilder) -> Result<(), FieldFault>
    requires { HasNoFeed scan.old.left }
    ensures ok { OnOk result (show builder.old scan.old.left ≡ Ok builder.new) }
    ensures err { IfErr result (λ fault. Faults (show builder.old scan.old.left) fault) }
    ensures rest { scan.new ≡ record scan.old { left = scan.new.left } }
{
    let name = name(alloc, scan)?;
    let condition = literals(alloc, scan)?;
    ended(scan)?;
    builder.add_show(Show { name, condition })?;
    Ok(())
}

fn external(scan: &mut Scan<'_>, builder: &mut ProgramBuilder) -> Result<(), FieldFault>
    ensures ok { OnOk result (external builder.old scan.old.left ≡ Ok builder.new) }
    ensures err { IfErr result (λ fault. Faults (external builder.old scan.old.left) fault) }
    ensures rest { scan.new ≡ record scan.old { left = scan.new.left } }
{
    let atom = atom(scan)?;
    let value = choice(scan, 3)?;
    ended(scan)?;
    builder.set_external(atom, external_value(value))?;
    Ok(())
}

fn external_value(n: u32) -> External
    ensures { result ≡ external_value n }
{
    match n {
        0 => External::Free,
        1 => External::True,
        2 => External::False,
        _ => External::Release,
    }
}

fn required(
    alloc: Global,
    scan: &mut Scan<'_>,
    builder: &mut ProgramBuilder,
) -> Result<(), FieldFault>
    ensures ok { OnOk result (required builder.old scan.old.left ≡ Ok builder.new) }
    ensures err { IfErr result (λ fault. Faults (required builder.old scan.old.left) fault) }
    ensures rest { scan.new ≡ record scan.old { left = scan.new.left } }
{
    let lits = literals(alloc, scan)?;
    ended(scan)?;
    add_all_required(builder, lits.as_slice())?;
    Ok(())
}

fn add_all_required(builder: &mut ProgramBuilder, lits: &[Lit]) -> Result<(), Memory>
    requires { LiteralsFit IsAtom lits.now }
    ensures { OnOk result (builder.new ≡ with_required lits.now builder.old) }
{
    for lit in lits {
        builder.add_required(*lit)?;
    }
    Ok(())
}

/// A heuristic statement is read and dropped.
fn heuristic(alloc: Global, scan: &mut Scan<'_>) -> Result<(), FieldFault>
    ensures ok { OnOk result ((draft : Draft) → heuristic draft scan.old.left ≡ Ok draft) }
    ensures err { IfErr result (λ fault. (draft : Draft) → Faults (heuristic draft scan.old.left) fault) }
    ensures rest { scan.new ≡ record scan.old { left = scan.new.left } }
{
    choice(scan, 5)?;
    atom(scan)?;
    number(scan)?;
    not_negative(scan)?;
    literals(alloc, scan)?;
    ended(scan)?;
    Ok(())
}

fn edge(alloc: Global, scan: &mut Scan<'_>, builder: &mut ProgramBuilder) -> Result<(), FieldFault>
    ensures ok { OnOk result (edge builder.old scan.old.left ≡ Ok builder.new) }
    ensures err { IfErr result (λ fault. Faults (edge builder.old scan.old.left) fault) }
    ensures rest { scan.new ≡ record scan.old { left = scan.new.left } }
{
    let from = small(scan)?;
    let to = small(scan)?;
    let condition = literals(alloc, scan)?;
    ended(scan)?;
    builder.add_edge(Edge {
        from,
        to,
        condition,
    })?;
    Ok(())
}
