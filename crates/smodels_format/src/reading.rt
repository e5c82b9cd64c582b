//! The reader. A text is read in one pass, part by part and line by line, each line from left to right; memory is taken
//! as entries come, never by the counts that the text claims.

ghost use Rattle.std.specs.Prelude.{◌≡◌, ◌≤◌, ◌^◌, ℕ, [], List, length, Ok, IfOk, OnOk, IfErr};
ghost use Rattle.asp_scan.specs.Lines.{Line};
ghost use Rattle.ground_program.specs.Draft.{Draft};
ghost use Rattle.asp_base.specs.Faults.{Refuses};
ghost use Rattle.asp_base.specs.declared.faults.Refusal.TheVariants as refusals;
ghost use Rattle.asp_scan.specs.Feeds.{HaveNoFeed};
ghost use Rattle.smodels_format.specs.Read.{smodels_of, Stage, part, rule_entry, required_entry, headed, models, rule_part};
ghost use Rattle.smodels_format.specs.private.Steps.{signed, entry_of};

use crate::entry::{Entries, EntryLine, entry_line, heading, number_of_models};
use crate::rule::{RuleLine, rule_line};
use crate::sign::Sign;
use asp_scan::Scan;
use ground_program::{Program, ProgramBuilder, ReadKind, ReadRefusal};
use statement_fields::{FieldFault, ended_text};
use std::alloc::Global;

/// The program of an smodels text: rules, a symbol table, and the atoms that are required to be true and to be false.
/// Refused with the first fault and its line, where the tokens are checked from left to right; a text that ends before
/// the last of these parts does is refused with `NoEnd` at its last line, and want of memory is `Memory`.
///
/// The text must have at most 2^32 bytes, so that the priority of each minimize statement, their number less one, is
/// one of 32 bits.
pub fn read(alloc: Global, text: &[u8]) -> Result<Program, ReadRefusal>
    requires { length text.now ≤ 2 ^ 32 }
    ensures program { IfOk result (λ program. smodels_of text.now ≡ Ok program) }
    ensures fault { IfErr result (λ refusal. Refuses (smodels_of text.now) refusal) }
{
    let mut scan = Scan::new(text);
    let mut builder = ProgramBuilder::new(alloc);
    parts(alloc, &mut scan, &mut builder)?;
    Ok(builder.finish()?)
}

/// The parts of a text: rules, a symbol table, the atoms that are required to be true and those that are required to be
/// false, and the number of models.
fn parts(
    alloc: Global,
    scan: &mut Scan<'_>,
    builder: &mut ProgramBuilder,
) -> Result<(), ReadRefusal>
    requires none { builder.old.levels ≡ [] }
    requires few { length scan.old.ahead ≤ 2 ^ 31 }
    requires no_feed { HaveNoFeed scan.old.ahead }
    ensures ok { OnOk result (rule_part scan.old.last builder.old scan.old.ahead ≡ Ok builder.new) }
    ensures err { IfErr result (λ refusal. Refuses (rule_part scan.old.last builder.old scan.old.ahead) refusal) }
{
    rules(alloc, scan, builder)?;
    entries(alloc, scan, builder, Entries::Symbols)?;
    required(alloc, scan, builder, b"B+", Sign::Positive)?;
    required(alloc, scan, builder, b"B-", Sign::Negative)?;
    models(scan)
}

/// The rules, up to the 0 that ends them.
fn rules(
    alloc: Global,
    scan: &mut Scan<'_>,
    builder: &mut ProgramBuilder,
) -> Result<(), ReadRefusal>
    requires none { builder.old.levels ≡ [] }
    requires few { length scan.old.ahead ≤ 2 ^ 31 }
    requires no_feed { HaveNoFeed scan.old.ahead }
    ensures ok { OnOk result ((next : Stage) → part rule_entry next scan.old.last builder.old scan.old.ahead
        ≡ next builder.new scan.new.ahead) }
    ensures err { IfErr result (λ refusal. (next : Stage)
        → Refuses (part rule_entry next scan.old.last builder.old scan.old.ahead) refusal) }
    ensures last { scan.new.last ≡ scan.old.last }
    ensures no_feed { HaveNoFeed scan.new.ahead }
{
    let mut levels: u32 = 0;
    'lines: while scan.next_line() {
        match rule_line(alloc, scan, builder, levels) {
            Ok(RuleLine::Rule) => {}
            Ok(RuleLine::Minimize) => levels += 1,
            Ok(RuleLine::End) => return Ok(()),
            Err(fault) => return Err(fault.at(scan.line())),
        }
    }
    Err(no_end(scan))
}

/// The entries of a part, up to the 0 that ends it.
fn entries(
    alloc: Global,
    scan: &mut Scan<'_>,
    builder: &mut ProgramBuilder,
    entries: Entries,
) -> Result<(), ReadRefusal>
    requires { HaveNoFeed scan.old.ahead }
    ensures ok { OnOk result ((next : Stage) → part (entry_of entries) next scan.old.last builder.old scan.old.ahead
        ≡ next builder.new scan.new.ahead) }
    ensures err { IfErr result (λ refusal. (next : Stage)
        → Refuses (part (entry_of entries) next scan.old.last builder.old scan.old.ahead) refusal) }
    ensures last { scan.new.last ≡ scan.old.last }
    ensures no_feed { HaveNoFeed scan.new.ahead }
{
    'lines: while scan.next_line() {
        match entry_line(alloc, scan, builder, entries) {
            Ok(EntryLine::Entry) => {}
            Ok(EntryLine::End) => return Ok(()),
            Err(fault) => return Err(fault.at(scan.line())),
        }
    }
    Err(no_end(scan))
}

/// The atoms that are required to be true, or to be false: a heading, and the atoms up to the 0 that ends them.
fn required(
    alloc: Global,
    scan: &mut Scan<'_>,
    builder: &mut ProgramBuilder,
    text: &[u8],
    sign: Sign,
) -> Result<(), ReadRefusal>
    requires { HaveNoFeed scan.old.ahead }
    ensures ok { OnOk result ((next : Stage)
        → headed text.now (part (required_entry (signed sign)) next scan.old.last)
        scan.old.last builder.old scan.old.ahead
        ≡ next builder.new scan.new.ahead) }
    ensures err { IfErr result (λ refusal. (next : Stage)
        → Refuses (headed text.now (part (required_entry (signed sign)) next scan.old.last)
        scan.old.last builder.old scan.old.ahead) refusal) }
    ensures last { scan.new.last ≡ scan.old.last }
    ensures no_feed { HaveNoFeed scan.new.ahead }
{
    heading_line(scan, text)?;
    entries(alloc, scan, builder, Entries::Required(sign))
}

/// The heading of a part.
fn heading_line(scan: &mut Scan<'_>, text: &[u8]) -> Result<(), ReadRefusal>
    ensures ok { OnOk result ((next : Stage) (draft : Draft)
        → headed text.now next scan.old.last draft scan.old.ahead ≡ next draft scan.new.ahead) }
    ensures err { IfErr result (λ refusal. (next : Stage) (draft : Draft)
        → Refuses (headed text.now next scan.old.last draft scan.old.ahead) refusal) }
    ensures last { scan.new.last ≡ scan.old.last }
    ensures no_feed { HaveNoFeed scan.old.ahead → HaveNoFeed scan.new.ahead }
{
    if !scan.next_line() {
        return Err(no_end(scan));
    }
    match heading(scan, text) {
        Ok(()) => Ok(()),
        Err(kind) => Err(FieldFault::Kind(kind).at(scan.line())),
    }
}

/// The number of models, which may be left out, and the end of the text.
fn models(scan: &mut Scan<'_>) -> Result<(), ReadRefusal>
    ensures ok { OnOk result ((draft : Draft) → models draft scan.old.ahead ≡ Ok draft) }
    ensures err { IfErr result (λ refusal. (draft : Draft) → Refuses (models draft scan.old.ahead) refusal) }
{
    if !scan.next_line() {
        return Ok(());
    }
    match number_of_models(scan) {
        Ok(()) => ended_text(scan),
        Err(kind) => Err(FieldFault::Kind(kind).at(scan.line())),
    }
}

/// A text that ends before its last part does.
fn no_end(scan: &Scan<'_>) -> ReadRefusal
    ensures { result ≡ refusals.At scan.now.line.number ReadKind.NoEnd }
{
    FieldFault::Kind(ReadKind::NoEnd).at(scan.line())
}
