//! A line of a map behind its header. Which fault it has does not count, only whether it has one.

ghost use Rattle.std.specs.Prelude.{◌≡◌, ◌<◌, ◌^◌, Ok, Err, IfOk, IfErr, IfSome};
ghost use Rattle.ground_program.specs.Facts.{ShowFits};
ghost use Rattle.asp_scan.specs.Feeds.{HasNoFeed};
ghost use Rattle.statement_fields.specs.Fields.{Faults};
ghost use Rattle.symbol_map.specs.private.EntryFacts.{PlaceFits, LevelOver, EntryFits};
ghost use Rattle.symbol_map.specs.IsMap.{IsVariable};
ghost use Rattle.symbol_map.specs.Read.{place, show, level, entry};

use crate::entry::Entry;
use crate::fields::{items, literal, literals};
use crate::map::Place;
use asp_scan::Scan;
use ground_program::{Level, ReadKind, Show};
use statement_fields::{FieldFault, atom, ended, name, small};
use std::alloc::Global;

/// The entry of a line, or none at the end.
#[tactic(auto, using(asp_scan::proofs::NoFeed::token_feeds))]
pub(crate) fn entry(
    alloc: Global,
    scan: &mut Scan<'_>,
    vars: u32,
) -> Result<Option<Entry>, FieldFault>
    requires vars { vars < 2 ^ 31 }
    requires no_feed { HasNoFeed scan.old.left }
    ensures ok { IfOk result (λ e. entry vars scan.old.left ≡ Ok e) }
    ensures err { IfErr result (λ fault. Faults (entry vars scan.old.left) fault) }
    ensures fits { IfOk result (λ e. IfSome e (λ e. EntryFits vars e)) }
    ensures rest { scan.new ≡ record scan.old { left = scan.new.left } }
{
    let Some(word) = scan.next_word() else {
        return Err(FieldFault::Kind(ReadKind::Missing));
    };
    if word == b"atom".as_slice() {
        return Ok(Some(Entry::Atom(place(scan, vars)?)));
    }
    if word == b"show".as_slice() {
        return Ok(Some(Entry::Shown(show(alloc, scan, vars)?)));
    }
    if word == b"level".as_slice() {
        return Ok(Some(Entry::Leveled(level(alloc, scan, vars)?)));
    }
    if word == b"end".as_slice() {
        ended(scan)?;
        return Ok(None);
    }
    Err(FieldFault::Kind(ReadKind::UnknownStatement))
}

/// An atom and its literal.
fn place(scan: &mut Scan<'_>, vars: u32) -> Result<Place, ReadKind>
    requires { vars < 2 ^ 31 }
    ensures ok { IfOk result (λ x. place vars scan.old.left ≡ Ok x) }
    ensures err { IfErr result (λ kind. place vars scan.old.left ≡ Err kind) }
    ensures fits { IfOk result (λ x. PlaceFits vars x) }
    ensures rest { scan.new ≡ record scan.old { left = scan.new.left } }
{
    let atom = atom(scan)?;
    let lit = literal(scan, vars)?;
    ended(scan)?;
    Ok(Place { atom, lit })
}

/// A name and its condition.
fn show(alloc: Global, scan: &mut Scan<'_>, vars: u32) -> Result<Show, FieldFault>
    requires vars { vars < 2 ^ 31 }
    requires no_feed { HasNoFeed scan.old.left }
    ensures ok { IfOk result (λ x. show vars scan.old.left ≡ Ok x) }
    ensures err { IfErr result (λ fault. Faults (show vars scan.old.left) fault) }
    ensures fits { IfOk result (λ x. ShowFits (IsVariable vars) x) }
    ensures rest { scan.new ≡ record scan.old { left = scan.new.left } }
{
    let name = name(alloc, scan)?;
    let condition = literals(alloc, scan, vars)?;
    ended(scan)?;
    Ok(Show { name, condition })
}

/// A priority and its literals with weights.
fn level(alloc: Global, scan: &mut Scan<'_>, vars: u32) -> Result<Level, FieldFault>
    requires { vars < 2 ^ 31 }
    ensures ok { IfOk result (λ x. level vars scan.old.left ≡ Ok x) }
    ensures err { IfErr result (λ fault. Faults (level vars scan.old.left) fault) }
    ensures fits { IfOk result (λ x. LevelOver vars x) }
    ensures rest { scan.new ≡ record scan.old { left = scan.new.left } }
{
    let priority = small(scan)?;
    let items = items(alloc, scan, vars)?;
    ended(scan)?;
    Ok(Level { priority, items })
}
