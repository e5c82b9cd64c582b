//! The map of a text, in one walk over its lines.

ghost use Rattle.std.specs.Prelude.{◌≡◌, ◌<◌, ◌^◌, true, length, Ok, IfOk, OnOk, IfErr, IfSome, IsNone, IsSome, false, []};
ghost use Rattle.asp_base.specs.Faults.{Refuses};
ghost use Rattle.asp_base.specs.declared.faults.Refusal.TheVariants as refusals;
ghost use Rattle.asp_scan.specs.Scanning.{next};
ghost use Rattle.asp_scan.specs.Feeds.{HaveNoFeed};
ghost use Rattle.symbol_map.specs.private.EntryFacts.{EntryFits};
ghost use Rattle.symbol_map.specs.Read.{is_next, stage_of, before, ended_text, entries, empty_map, from_lines, map_of};
ghost use Rattle.symbol_map.specs.Symbols.{Symbols};

use crate::draft::Draft;
use crate::entry::{Entry, Stage};
use crate::header::header;
use crate::kind::{MapKind, MapRefusal};
use crate::line::entry;
use crate::map::{Form, SymbolMap};
use asp_scan::Scan;
use statement_fields::FieldFault;
use std::alloc::Global;

/// The map of a text: a header, lines of places by rising atoms, of shows, of levels by falling priorities, and the
/// end. Refused with the first fault and its line, `BadHeader`, `BadLine`, `WrongOrder` or `NoEnd`, or with `Memory`.
pub fn read(alloc: Global, text: &[u8]) -> Result<SymbolMap, MapRefusal>
    ensures map { IfOk result (λ m. map_of text.now ≡ Ok m) }
    ensures fault { IfErr result (λ refusal. Refuses (map_of text.now) refusal) }
{
    let mut scan = Scan::new(text);
    let (form, vars) = header_line(&mut scan)?;
    entries(alloc, &mut scan, form, vars)
}

/// The header, in the first line that is not blank.
fn header_line(scan: &mut Scan<'_>) -> Result<(Form, u32), MapRefusal>
    ensures ok { IfOk result (λ h. from_lines scan.old.last scan.old.ahead
        ≡ entries scan.old.last (empty_map h.0 h.1) (Stage.Atoms 0) scan.new.ahead) }
    ensures err { IfErr result (λ refusal. Refuses (from_lines scan.old.last scan.old.ahead) refusal) }
    ensures vars { IfOk result (λ h. h.1 < 2 ^ 31) }
    ensures last { scan.new.last ≡ scan.old.last }
    ensures ahead { (next scan.old).ahead ≡ scan.new.ahead }
{
    if scan.next_line() {
        if let Ok(header) = header(scan) {
            return Ok(header);
        }
    }
    Err(at(scan, MapKind::BadHeader))
}

/// The lines behind the header, up to the end of the text.
fn entries(
    alloc: Global,
    scan: &mut Scan<'_>,
    form: Form,
    vars: u32,
) -> Result<SymbolMap, MapRefusal>
    requires vars { vars < 2 ^ 31 }
    requires no_feed { HaveNoFeed scan.old.ahead }
    ensures ok { IfOk result (λ m. entries scan.old.last (empty_map form vars) (Stage.Atoms 0) scan.old.ahead ≡ Ok m) }
    ensures err { IfErr result (λ refusal. Refuses
        (entries scan.old.last (empty_map form vars) (Stage.Atoms 0) scan.old.ahead) refusal) }
{
    let mut draft = Draft::new(alloc, form, vars);
    let mut stage = Stage::Atoms(0);
    'lines: while let Some(entry) = next_entry(alloc, scan, vars, stage)? {
        stage = Stage::of(&entry);
        draft.push(entry)?;
    }
    ended_text(scan)?;
    Ok(draft.into_map())
}

/// The entry of the next line, or none at the end.
fn next_entry(
    alloc: Global,
    scan: &mut Scan<'_>,
    vars: u32,
    stage: Stage,
) -> Result<Option<Entry>, MapRefusal>
    requires vars { vars < 2 ^ 31 }
    requires no_feed { HaveNoFeed scan.old.ahead }
    ensures some { IfOk result (λ o. IfSome o (λ e. (empty : Symbols) → empty.vars ≡ vars
        → entries scan.old.last empty stage scan.old.ahead
        ≡ before e (entries scan.old.last empty (stage_of e) scan.new.ahead))) }
    ensures none { IfOk result (λ o. IsNone o → (empty : Symbols) → empty.vars ≡ vars
        → entries scan.old.last empty stage scan.old.ahead ≡ ended_text empty scan.new.ahead) }
    ensures err { IfErr result (λ refusal. (empty : Symbols) → empty.vars ≡ vars
        → Refuses (entries scan.old.last empty stage scan.old.ahead) refusal) }
    ensures fits { IfOk result (λ o. IfSome o (λ e. EntryFits vars e)) }
    ensures next { IfOk result (λ o. IfSome o (λ e. is_next stage e ≡ true)) }
    ensures last { scan.new.last ≡ scan.old.last }
    ensures no_feed { HaveNoFeed scan.new.ahead }
    ensures shorter { OnOk result (length scan.new.ahead < length scan.old.ahead) }
{
    if !scan.next_line() {
        return Err(at(scan, MapKind::NoEnd));
    }
    match entry(alloc, scan, vars) {
        Ok(found) => in_order(scan, stage, found),
        Err(FieldFault::Kind(_)) => Err(at(scan, MapKind::BadLine)),
        Err(FieldFault::Memory) => Err(MapRefusal::Memory),
    }
}

/// The entry of the present line, where it may follow.
fn in_order(
    scan: &Scan<'_>,
    stage: Stage,
    found: Option<Entry>,
) -> Result<Option<Entry>, MapRefusal>
    ensures ok { IfOk result (λ o. o ≡ found) }
    ensures next { IfOk result (λ o. IfSome o (λ e. is_next stage e ≡ true)) }
    ensures err { IfErr result (λ refusal. (refusal ≡ refusals.At scan.now.line.number MapKind.WrongOrder)
        × IfSome found (λ e. is_next stage e ≡ false)) }
    ensures some { IfErr result (λ _. IsSome found) }
{
    match found {
        Some(entry) => {
            if stage.admits(&entry) {
                Ok(Some(entry))
            } else {
                Err(at(scan, MapKind::WrongOrder))
            }
        }
        None => Ok(None),
    }
}

/// Behind the end of the text there are blank lines only.
fn ended_text(scan: &mut Scan<'_>) -> Result<(), MapRefusal>
    ensures ok { OnOk result (scan.old.ahead ≡ []) }
    ensures err { IfErr result (λ refusal. (m : Symbols) → Refuses (ended_text m scan.old.ahead) refusal) }
{
    if scan.next_line() {
        return Err(at(scan, MapKind::BadLine));
    }
    Ok(())
}

/// A fault of the present line.
fn at(scan: &Scan<'_>, kind: MapKind) -> MapRefusal
    ensures { result ≡ refusals.At scan.now.line.number kind }
{
    MapRefusal::At {
        line: scan.line(),
        kind,
    }
}
