//! The tokens of a line that is a header or an edge, each checked before the next one.

ghost use Rattle.std.specs.Prelude.{◌≡◌, Ok, Err, IfOk, OnOk, IfErr, []};
ghost use Rattle.asp_scan.specs.Tokens.{tokens};
ghost use Rattle.dimacs_format.specs.Read.{word, this_word, numeral, line_end};

use crate::kind::FormulaKind;
use asp_scan::Scan;

/// The next token. Refused with `bad` where there is none.
pub(crate) fn word<'a>(scan: &mut Scan<'a>, bad: FormulaKind) -> Result<&'a [u8], FormulaKind>
    ensures ok { IfOk result (λ text. word bad (tokens scan.old.left) ≡ Ok (text.now, tokens scan.new.left)) }
    ensures err { IfErr result (λ kind. word bad (tokens scan.old.left) ≡ Err kind) }
    ensures rest { scan.new ≡ record scan.old { left = scan.new.left } }
{
    match scan.next_word() {
        Some(text) => Ok(text),
        None => Err(bad),
    }
}

/// This very word. Refused with `bad` where it does not stand next.
pub(crate) fn this_word(
    scan: &mut Scan<'_>,
    due: &[u8],
    bad: FormulaKind,
) -> Result<(), FormulaKind>
    ensures ok { OnOk result (this_word bad due.now (tokens scan.old.left) ≡ Ok (tokens scan.new.left)) }
    ensures err { IfErr result (λ kind. this_word bad due.now (tokens scan.old.left) ≡ Err kind) }
    ensures rest { scan.new ≡ record scan.old { left = scan.new.left } }
{
    let text = word(scan, bad)?;
    if text == due { Ok(()) } else { Err(bad) }
}

/// The number of 64 bits that the next token is. Refused with `bad` where it is none.
pub(crate) fn numeral(scan: &mut Scan<'_>, bad: FormulaKind) -> Result<i64, FormulaKind>
    ensures ok { IfOk result (λ n. numeral bad (tokens scan.old.left) ≡ Ok (n, tokens scan.new.left)) }
    ensures err { IfErr result (λ kind. numeral bad (tokens scan.old.left) ≡ Err kind) }
    ensures rest { scan.new ≡ record scan.old { left = scan.new.left } }
{
    match scan.next_number() {
        Ok(n) => Ok(n),
        Err(_) => Err(bad),
    }
}

/// No further token. Refused with `bad` where there is one.
pub(crate) fn line_end(scan: &Scan<'_>, bad: FormulaKind) -> Result<(), FormulaKind>
    ensures ok { OnOk result (line_end bad (tokens scan.now.left) ≡ Ok tt) }
    ensures end { OnOk result (tokens scan.now.left ≡ []) }
    ensures err { IfErr result (λ kind. line_end bad (tokens scan.now.left) ≡ Err kind) }
{
    if scan.end_of_line() { Ok(()) } else { Err(bad) }
}
