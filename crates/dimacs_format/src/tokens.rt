//! The tokens of a formula's text, over the ends of lines and comments.

ghost use Rattle.std.specs.Prelude.{◌≡◌, ◌<◌, ◌≤◌, [], ◌∷◌, length, Ok, IsSome, OnOk, IfErr};
ghost use Rattle.std.specs.Bool.{OnTrue, OnFalse};
ghost use Rattle.asp_base.specs.Faults.{Refuses};
ghost use Rattle.asp_scan.specs.Tokens.{token_at};
ghost use Rattle.dimacs_format.specs.Read.{content_of, whole_lines, ended};
ghost use Rattle.dimacs_format.specs.private.Walks.{items_left, skipped};
ghost use Rattle.asp_base.specs.declared.faults.Refusal.TheVariants as refusals;

use crate::kind::{FormulaKind, FormulaRefusal};
use asp_scan::Scan;

/// A fault at the line where the walk stands.
pub(crate) fn fault_at(scan: &Scan<'_>, kind: FormulaKind) -> FormulaRefusal
    ensures { result ≡ refusals.At scan.now.line.number kind }
{
    FormulaRefusal::At {
        line: scan.line(),
        kind,
    }
}

/// Goes to the next line that is neither blank nor a comment. False where there is none: the walk then stands at the
/// line of the end.
pub(crate) fn next_content(scan: &mut Scan<'_>) -> bool
    ensures more { OnTrue result (content_of scan.old.ahead ≡ scan.new.line ∷ content_of scan.new.ahead) }
    ensures front { OnTrue result (scan.new.left ≡ scan.new.line.bytes) }
    ensures shorter { OnTrue result (length scan.new.ahead < length scan.old.ahead) }
    ensures none { OnFalse result (content_of scan.old.ahead ≡ []) }
    ensures end { OnFalse result (scan.new.line.number ≡ scan.old.last) }
    ensures last { scan.new.last ≡ scan.old.last }
{
    'lines: while scan.next_line() {
        if !scan.begins_with(b'c') {
            return true;
        }
    }
    false
}

/// Goes to the next token, which may stand in a later line. False where there is none: the walk then stands at the
/// line of the end.
pub(crate) fn find_token(scan: &mut Scan<'_>) -> bool
    ensures same { OnTrue result (skipped (items_left scan.old) ≡ items_left scan.new) }
    ensures found { OnTrue result (IsSome (token_at scan.new.left)) }
    ensures shorter { OnTrue result (length (items_left scan.new) ≤ length (items_left scan.old)) }
    ensures none { OnFalse result (skipped (items_left scan.old) ≡ []) }
    ensures end { OnFalse result (scan.new.line.number ≡ scan.old.last) }
    ensures last { scan.new.last ≡ scan.old.last }
{
    'lines: while scan.end_of_line() {
        if !next_content(scan) {
            return false;
        }
    }
    true
}

/// Behind the last clause: no token is left in its line.
pub(crate) fn whole_lines(scan: &Scan<'_>) -> Result<(), FormulaRefusal>
    ensures ok { OnOk result (whole_lines (items_left scan.now) ≡ Ok (content_of scan.now.ahead)) }
    ensures err { IfErr result (λ refusal. Refuses (whole_lines (items_left scan.now)) refusal) }
{
    if scan.end_of_line() {
        Ok(())
    } else {
        Err(fault_at(scan, FormulaKind::WrongCount))
    }
}

/// No line is left.
pub(crate) fn ended(scan: &mut Scan<'_>) -> Result<(), FormulaRefusal>
    ensures ok { OnOk result (ended (content_of scan.old.ahead) ≡ Ok tt) }
    ensures err { IfErr result (λ refusal. Refuses (ended (content_of scan.old.ahead)) refusal) }
{
    if next_content(scan) {
        Err(fault_at(scan, FormulaKind::WrongCount))
    } else {
        Ok(())
    }
}
