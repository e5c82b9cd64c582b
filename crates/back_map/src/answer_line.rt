//! What a line of an answer adds.

ghost use Rattle.std.specs.Prelude.{◌≡◌, codes, IsErr, IfErr, OnOk};
ghost use Rattle.std.specs.Str.{bytes_eq};
ghost use Rattle.asp_scan.specs.Tokens.{number_at, tokens};
ghost use Rattle.back_map.specs.Read.{with_line, with_numbers};
ghost use Rattle.back_map.specs.private.Reading.{Follows, Faults, with_bare, with_words};

use crate::answer::AnswerKind;
use crate::hearing::Hearing;
use crate::status::line_status;
use asp_scan::Scan;

/// The present line, of which nothing is read yet.
pub(crate) fn line(scan: &mut Scan<'_>, hearing: &mut Hearing) -> Result<(), AnswerKind>
    requires front { scan.old.left ≡ scan.old.line.bytes }
    ensures ok { OnOk result (Follows (λ n. with_line n scan.old.line) hearing.old hearing.new) }
    ensures err { IfErr result (λ kind. Faults (λ n. with_line n scan.old.line) hearing.old kind) }
    ensures rest { scan.new ≡ record scan.old { left = scan.new.left } }
{
    if scan.begins_with(b'c') {
        return Ok(());
    }
    match scan.next_number() {
        Ok(first) => bare_numbers(scan, hearing, first),
        Err(_) => words(scan, hearing),
    }
}

/// A line that begins with this number: where the status was `SAT`, it has the literals.
fn bare_numbers(scan: &mut Scan<'_>, hearing: &mut Hearing, first: i64) -> Result<(), AnswerKind>
    ensures ok { OnOk result (Follows (with_bare first (tokens scan.old.left)) hearing.old hearing.new) }
    ensures err { IfErr result (λ kind. Faults (with_bare first (tokens scan.old.left)) hearing.old kind) }
    ensures rest { scan.new ≡ record scan.old { left = scan.new.left } }
{
    if !hearing.is_bare() {
        return Err(AnswerKind::BadLine);
    }
    hearing.hear_number(first)?;
    numbers(scan, hearing)
}

/// A line that does not begin with a number of 64 bits.
fn words(scan: &mut Scan<'_>, hearing: &mut Hearing) -> Result<(), AnswerKind>
    requires no_number { IsErr (number_at scan.old.left) }
    ensures ok { OnOk result (Follows (with_words (tokens scan.old.left)) hearing.old hearing.new) }
    ensures err { IfErr result (λ kind. Faults (with_words (tokens scan.old.left)) hearing.old kind) }
    ensures rest { scan.new ≡ record scan.old { left = scan.new.left } }
{
    let Some(first) = scan.next_word() else {
        return Ok(());
    };
    if is_o(first) {
        return Ok(());
    }
    if is_v(first) {
        return numbers(scan, hearing);
    }
    match line_status(scan, first) {
        Some(found) => hearing.hear_status(found),
        None => Err(AnswerKind::BadLine),
    }
}

fn is_o(word: &[u8]) -> bool
    ensures { result ≡ bytes_eq word.now (codes "o") }
{
    word == b"o".as_slice()
}

fn is_v(word: &[u8]) -> bool
    ensures { result ≡ bytes_eq word.now (codes "v") }
{
    word == b"v".as_slice()
}

/// The numbers that are left of a line.
fn numbers(scan: &mut Scan<'_>, hearing: &mut Hearing) -> Result<(), AnswerKind>
    ensures ok { OnOk result (Follows (λ n. with_numbers n (tokens scan.old.left)) hearing.old hearing.new) }
    ensures err { IfErr result (λ kind. Faults (λ n. with_numbers n (tokens scan.old.left)) hearing.old kind) }
    ensures rest { scan.new ≡ record scan.old { left = scan.new.left } }
{
    'numbers: while !scan.end_of_line() {
        let Ok(number) = scan.next_number() else {
            return Err(AnswerKind::BadLine);
        };
        hearing.hear_number(number)?;
    }
    Ok(())
}
