//! Lines of the symbol table and of the required atoms: each begins with an atom, or it is the 0 that ends its part;
//! and the lines between the parts.

ghost use Rattle.std.specs.Prelude.{◌≡◌, ℕ, List, Result, Ok, Err, IfOk, OnOk, IfErr, IfSome};
ghost use Rattle.ground_program.specs.Draft.{Draft};
ghost use Rattle.ground_program.specs.Facts.{IsAtom};
ghost use Rattle.ground_program.specs.declared.reading.ReadKind.{ReadKind};
ghost use Rattle.asp_scan.specs.Feeds.{HasNoFeed};
ghost use Rattle.statement_fields.specs.Fields.{Faults};
ghost use Rattle.smodels_format.specs.Read.{unless_zero, symbol_name, heading, number_of_models};
ghost use Rattle.smodels_format.specs.private.Steps.{said, behind_atom, begun, symbol_behind, required_behind, behind, entry_of};

use crate::sign::Sign;
use asp_base::{ByteList, Lit};
use asp_scan::Scan;
use ground_program::{LitList, ProgramBuilder, ReadKind, Show};
use statement_fields::{FieldFault, atom_from, ended, not_negative, number, word};
use std::alloc::Global;

/// Which part has the entries: the symbol table, or the atoms that are required to have a sign.
#[derive(Clone, Copy)]
pub(crate) enum Entries {
    Symbols,
    Required(Sign),
}

/// What a line of a part was that has entries of atoms.
#[derive(Clone, Copy)]
pub(crate) enum EntryLine {
    Entry,
    End,
}

/// The atom that begins an entry, or None at the 0 that ends its part, which is alone in its line.
fn entry_atom(scan: &mut Scan<'_>) -> Result<Option<u32>, ReadKind>
    ensures ok { IfOk result (λ first. (entry : ℕ × List ℕ → Result Draft ReadKind)
        → unless_zero scan.old.left (behind_atom entry scan.old.left) ≡ begun first scan.new.left entry) }
    ensures err { IfErr result (λ kind. (entry : ℕ × List ℕ → Result Draft ReadKind)
        → unless_zero scan.old.left (behind_atom entry scan.old.left) ≡ Err kind) }
    ensures fits { IfOk result (λ first. IfSome first (λ a. IsAtom a)) }
    ensures rest { scan.new ≡ record scan.old { left = scan.new.left } }
    ensures no_feed { HasNoFeed scan.old.left → HasNoFeed scan.new.left }
{
    let n = number(scan)?;
    if n == 0 {
        ended(scan)?;
        return Ok(None);
    }
    Ok(Some(atom_from(n)?))
}

/// A line of a part: an atom and what stands behind it, or the 0 that ends the part.
pub(crate) fn entry_line(
    alloc: Global,
    scan: &mut Scan<'_>,
    builder: &mut ProgramBuilder,
    entries: Entries,
) -> Result<EntryLine, FieldFault>
    requires { HasNoFeed scan.old.left }
    ensures ok { IfOk result (λ line. entry_of entries builder.old scan.old.left ≡ Ok (said line builder.new)) }
    ensures err { IfErr result (λ fault. Faults (entry_of entries builder.old scan.old.left) fault) }
    ensures end { IfOk result (λ line. line ≡ EntryLine.End → builder.new ≡ builder.old) }
    ensures rest { scan.new ≡ record scan.old { left = scan.new.left } }
{
    match entry_atom(scan)? {
        None => Ok(EntryLine::End),
        Some(atom) => {
            entry(alloc, scan, builder, entries, atom)?;
            Ok(EntryLine::Entry)
        }
    }
}

fn entry(
    alloc: Global,
    scan: &mut Scan<'_>,
    builder: &mut ProgramBuilder,
    entries: Entries,
    atom: u32,
) -> Result<(), FieldFault>
    requires atom { IsAtom atom }
    requires no_feed { HasNoFeed scan.old.left }
    ensures ok { OnOk result (behind entries builder.old (atom, scan.old.left) ≡ Ok builder.new) }
    ensures err { IfErr result (λ fault. Faults (behind entries builder.old (atom, scan.old.left)) fault) }
    ensures rest { scan.new ≡ record scan.old { left = scan.new.left } }
{
    match entries {
        Entries::Symbols => symbol(alloc, scan, builder, atom),
        Entries::Required(sign) => required(scan, builder, sign, atom),
    }
}

/// A symbol: the atom's name, which is shown where the atom is true.
fn symbol(
    alloc: Global,
    scan: &mut Scan<'_>,
    builder: &mut ProgramBuilder,
    atom: u32,
) -> Result<(), FieldFault>
    requires atom { IsAtom atom }
    requires no_feed { HasNoFeed scan.old.left }
    ensures ok { OnOk result (symbol_behind builder.old (atom, scan.old.left) ≡ Ok builder.new) }
    ensures err { IfErr result (λ fault. Faults (symbol_behind builder.old (atom, scan.old.left)) fault) }
    ensures rest { scan.new ≡ record scan.old { left = scan.new.left } }
{
    let name = symbol_name(alloc, scan)?;
    let condition = LitList::from_slice(alloc, &[Lit::positive(atom)])?;
    builder.add_show(Show { name, condition })?;
    Ok(())
}

/// The rest of the line behind its blanks.
#[tactic(auto, using(crate::proofs::Names::name_feeds))]
fn symbol_name(alloc: Global, scan: &mut Scan<'_>) -> Result<ByteList, FieldFault>
    requires { HasNoFeed scan.old.left }
    ensures ok { IfOk result (λ name. symbol_name scan.old.left ≡ Ok name) }
    ensures err { IfErr result (λ fault. Faults (symbol_name scan.old.left) fault) }
    ensures no_feed { IfOk result (λ name. HasNoFeed name) }
    ensures rest { scan.new ≡ record scan.old { left = scan.new.left } }
{
    if scan.next_bytes(0).is_none() && scan.end_of_line() {
        return Err(FieldFault::Kind(ReadKind::Missing));
    }
    let name = scan.rest();
    if name.is_empty() {
        return Err(FieldFault::Kind(ReadKind::BadName));
    }
    let mut copy = ByteList::new(alloc);
    copy.append(name)?;
    Ok(copy)
}

/// A required atom, which is alone in its line.
fn required(
    scan: &Scan<'_>,
    builder: &mut ProgramBuilder,
    sign: Sign,
    atom: u32,
) -> Result<(), FieldFault>
    requires { IsAtom atom }
    ensures ok { OnOk result (required_behind sign builder.old (atom, scan.now.left) ≡ Ok builder.new) }
    ensures err { IfErr result (λ fault. Faults (required_behind sign builder.old (atom, scan.now.left)) fault) }
{
    ended(scan)?;
    builder.add_required(sign.of(atom))?;
    Ok(())
}

/// This word alone in its line.
pub(crate) fn heading(scan: &mut Scan<'_>, text: &[u8]) -> Result<(), ReadKind>
    ensures ok { OnOk result (heading text.now scan.old.left ≡ Ok scan.new.left) }
    ensures err { IfErr result (λ kind. heading text.now scan.old.left ≡ Err kind) }
    ensures rest { scan.new ≡ record scan.old { left = scan.new.left } }
{
    word(scan, text)?;
    if scan.end_of_line() {
        Ok(())
    } else {
        Err(ReadKind::BadHeader)
    }
}

/// How many models were asked for, which is not used.
pub(crate) fn number_of_models(scan: &mut Scan<'_>) -> Result<(), ReadKind>
    ensures ok { OnOk result ((draft : Draft) → number_of_models draft scan.old.left ≡ Ok draft) }
    ensures err { IfErr result (λ kind. (draft : Draft) → number_of_models draft scan.old.left ≡ Err kind) }
    ensures rest { scan.new ≡ record scan.old { left = scan.new.left } }
{
    not_negative(scan)?;
    ended(scan)
}
