//! Fields of one number or word, each read from what is left of the present line and checked against its limits.

ghost use Rattle.std.specs.Prelude.{◌≡◌, ◌≤◌, ◌^◌, ℕ, List, pos, ◌≤ℤ◌, Ok, Err, None, IfOk, OnOk, IfErr, IsSome};
ghost use Rattle.asp_base.specs.Literal.{atom_of};
ghost use Rattle.ground_program.specs.Facts.{IsAtom, FitsWeight, FitsBodyWeight};
ghost use Rattle.asp_scan.specs.Feeds.{HasNoFeed};
ghost use Rattle.statement_fields.specs.Fields.{number, count, name_length, atom, atom_from, literal, body_weight, weight, small, not_negative, choice, word, kind_of};
ghost use Rattle.asp_scan.specs.Tokens.{token_at};

use asp_base::Lit;
use asp_scan::{Scan, ScanFault};
use ground_program::ReadKind;

const MOST_ENTRIES: u64 = 1 << 24;

const GREATEST_ATOM: u64 = 1 << 30;

const GREATEST_WEIGHT: u64 = (1 << 31) - 1;

fn kind_of(fault: ScanFault) -> ReadKind
    ensures { result ≡ kind_of fault }
{
    match fault {
        ScanFault::Missing => ReadKind::Missing,
        ScanFault::BadNumber => ReadKind::BadNumber,
        ScanFault::TooWide => ReadKind::TooWide,
    }
}

/// A number of 64 bits. Refused with `Missing`, `BadNumber` or `TooWide`.
#[tactic(auto, using(asp_scan::proofs::NoFeed::no_feeds))]
pub fn number(scan: &mut Scan<'_>) -> Result<i64, ReadKind>
    ensures ok { IfOk result (λ n. number scan.old.left ≡ Ok (n, scan.new.left)) }
    ensures err { IfErr result (λ kind. number scan.old.left ≡ Err kind) }
    ensures rest { scan.new ≡ record scan.old { left = scan.new.left } }
    ensures no_feed { HasNoFeed scan.old.left → HasNoFeed scan.new.left }
{
    match scan.next_number() {
        Ok(n) => Ok(n),
        Err(fault) => Err(kind_of(fault)),
    }
}

/// How many entries follow: from 0 to 2^24. Refused with `NegativeCount` below, and `TooManyLiterals` above.
pub fn count(scan: &mut Scan<'_>) -> Result<u32, ReadKind>
    ensures ok { IfOk result (λ n. count scan.old.left ≡ Ok (n, scan.new.left)) }
    ensures err { IfErr result (λ kind. count scan.old.left ≡ Err kind) }
    ensures most { IfOk result (λ n. n ≤ 2 ^ 24) }
    ensures rest { scan.new ≡ record scan.old { left = scan.new.left } }
{
    let n = number(scan)?;
    if n < 0 {
        return Err(ReadKind::NegativeCount);
    }
    if n as u64 > MOST_ENTRIES {
        return Err(ReadKind::TooManyLiterals);
    }
    Ok(n as u32)
}

/// How many bytes a name has. Refused with `NegativeCount` below 0.
pub fn name_length(scan: &mut Scan<'_>) -> Result<u64, ReadKind>
    ensures ok { IfOk result (λ n. name_length scan.old.left ≡ Ok (n, scan.new.left)) }
    ensures err { IfErr result (λ kind. name_length scan.old.left ≡ Err kind) }
    ensures rest { scan.new ≡ record scan.old { left = scan.new.left } }
    ensures no_feed { HasNoFeed scan.old.left → HasNoFeed scan.new.left }
{
    let n = number(scan)?;
    if n < 0 {
        return Err(ReadKind::NegativeCount);
    }
    Ok(n as u64)
}

/// An atom, from 1 to 2^30. Refused with `ZeroAtom` at 0, `BadNumber` below, and `AtomTooLarge` above.
pub fn atom(scan: &mut Scan<'_>) -> Result<u32, ReadKind>
    ensures ok { IfOk result (λ a. atom scan.old.left ≡ Ok (a, scan.new.left)) }
    ensures err { IfErr result (λ kind. atom scan.old.left ≡ Err kind) }
    ensures fits { IfOk result (λ a. IsAtom a) }
    ensures rest { scan.new ≡ record scan.old { left = scan.new.left } }
{
    let n = number(scan)?;
    atom_from(n)
}

/// The atom that a number is, from 1 to 2^30. Refused with the faults of `atom`.
pub fn atom_from(n: i64) -> Result<u32, ReadKind>
    ensures ok { IfOk result (λ a. (line : List ℕ) → atom_from n line ≡ Ok (a, line)) }
    ensures err { IfErr result (λ kind. (line : List ℕ) → atom_from n line ≡ Err kind) }
    ensures fits { IfOk result (λ a. IsAtom a) }
{
    if n == 0 {
        return Err(ReadKind::ZeroAtom);
    }
    if n < 0 {
        return Err(ReadKind::BadNumber);
    }
    if n as u64 > GREATEST_ATOM {
        return Err(ReadKind::AtomTooLarge);
    }
    Ok(n as u32)
}

/// A literal: an atom, or its negation. Refused with `ZeroAtom` at 0, and `AtomTooLarge` where its atom is above 2^30.
pub fn literal(scan: &mut Scan<'_>) -> Result<Lit, ReadKind>
    ensures ok { IfOk result (λ lit. literal scan.old.left ≡ Ok (lit, scan.new.left)) }
    ensures err { IfErr result (λ kind. literal scan.old.left ≡ Err kind) }
    ensures fits { IfOk result (λ lit. IsAtom (atom_of lit)) }
    ensures rest { scan.new ≡ record scan.old { left = scan.new.left } }
{
    let n = number(scan)?;
    if n == 0 {
        return Err(ReadKind::ZeroAtom);
    }
    if n.unsigned_abs() > GREATEST_ATOM {
        return Err(ReadKind::AtomTooLarge);
    }
    match Lit::new(n as i32) {
        Some(lit) => Ok(lit),
        None => Err(ReadKind::ZeroAtom),
    }
}

/// A weight of a body, from 0 to 2^31 - 1. Refused with `NegativeWeight` below, and `WeightTooLarge` above.
pub fn body_weight(scan: &mut Scan<'_>) -> Result<i64, ReadKind>
    ensures ok { IfOk result (λ n. body_weight scan.old.left ≡ Ok (n, scan.new.left)) }
    ensures err { IfErr result (λ kind. body_weight scan.old.left ≡ Err kind) }
    ensures fits { IfOk result (λ n. FitsBodyWeight n) }
    ensures rest { scan.new ≡ record scan.old { left = scan.new.left } }
{
    let n = number(scan)?;
    if n < 0 {
        return Err(ReadKind::NegativeWeight);
    }
    if n.unsigned_abs() > GREATEST_WEIGHT {
        return Err(ReadKind::WeightTooLarge);
    }
    Ok(n)
}

/// A weight of a level, or a bound: of a magnitude of at most 2^31 - 1. Refused with `WeightTooLarge`.
pub fn weight(scan: &mut Scan<'_>) -> Result<i64, ReadKind>
    ensures ok { IfOk result (λ n. weight scan.old.left ≡ Ok (n, scan.new.left)) }
    ensures err { IfErr result (λ kind. weight scan.old.left ≡ Err kind) }
    ensures fits { IfOk result (λ n. FitsWeight n) }
    ensures rest { scan.new ≡ record scan.old { left = scan.new.left } }
{
    let n = number(scan)?;
    if n.unsigned_abs() > GREATEST_WEIGHT {
        return Err(ReadKind::WeightTooLarge);
    }
    Ok(n)
}

/// A priority or a node: a number of 32 bits. Refused with `BadNumber`.
pub fn small(scan: &mut Scan<'_>) -> Result<i32, ReadKind>
    ensures ok { IfOk result (λ n. small scan.old.left ≡ Ok (n, scan.new.left)) }
    ensures err { IfErr result (λ kind. small scan.old.left ≡ Err kind) }
    ensures rest { scan.new ≡ record scan.old { left = scan.new.left } }
{
    let n = number(scan)?;
    if n < i32::MIN as i64 || n > i32::MAX as i64 {
        return Err(ReadKind::BadNumber);
    }
    Ok(n as i32)
}

/// A number of 64 bits that is at least 0. Refused with `BadNumber`.
pub fn not_negative(scan: &mut Scan<'_>) -> Result<i64, ReadKind>
    ensures ok { IfOk result (λ n. not_negative scan.old.left ≡ Ok (n, scan.new.left)) }
    ensures err { IfErr result (λ kind. not_negative scan.old.left ≡ Err kind) }
    ensures above { IfOk result (λ n. pos 0 ≤ℤ n) }
    ensures rest { scan.new ≡ record scan.old { left = scan.new.left } }
{
    let n = number(scan)?;
    if n < 0 {
        return Err(ReadKind::BadNumber);
    }
    Ok(n)
}

/// One of the numbers from 0 to this one. Refused with `BadNumber`.
pub fn choice(scan: &mut Scan<'_>, most: u32) -> Result<u32, ReadKind>
    ensures ok { IfOk result (λ n. choice most scan.old.left ≡ Ok (n, scan.new.left)) }
    ensures err { IfErr result (λ kind. choice most scan.old.left ≡ Err kind) }
    ensures most { IfOk result (λ n. n ≤ most) }
    ensures rest { scan.new ≡ record scan.old { left = scan.new.left } }
{
    let n = number(scan)?;
    if n < 0 || n > most as i64 {
        return Err(ReadKind::BadNumber);
    }
    Ok(n as u32)
}

/// The end of a statement: nothing is left of the line but blanks. Refused with `TrailingText`.
pub fn ended(scan: &Scan<'_>) -> Result<(), ReadKind>
    ensures ok { OnOk result (token_at scan.now.left ≡ None) }
    ensures err { IfErr result (λ kind. (kind ≡ ReadKind.TrailingText) × IsSome (token_at scan.now.left)) }
{
    if scan.end_of_line() {
        Ok(())
    } else {
        Err(ReadKind::TrailingText)
    }
}

/// This word of a header. Refused with `BadHeader` where another one stands next, or none.
pub fn word(scan: &mut Scan<'_>, text: &[u8]) -> Result<(), ReadKind>
    ensures ok { IfOk result (λ _. word text.now scan.old.left ≡ Ok scan.new.left) }
    ensures err { IfErr result (λ kind. word text.now scan.old.left ≡ Err kind) }
    ensures rest { scan.new ≡ record scan.old { left = scan.new.left } }
{
    match scan.next_word() {
        Some(token) if token == text => Ok(()),
        _ => Err(ReadKind::BadHeader),
    }
}
