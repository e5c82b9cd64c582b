//! The header of a formula's text.

ghost use Rattle.std.specs.Prelude.{◌≡◌, ◌<◌, ◌≤◌, ◌-◌, ◌^◌, ⊤, [], Ok, Err, IfOk, OnOk, IfErr};
ghost use Rattle.asp_scan.specs.Tokens.{tokens};
ghost use Rattle.dimacs_format.specs.Read.{content_of, count, form_of, header_of, behind, from_lines};
ghost use Rattle.asp_base.specs.Faults.{Refuses};
ghost use Rattle.dimacs_format.specs.private.Walks.{items_left};

use crate::fields::{line_end, numeral, this_word, word};
use crate::kind::{FormulaKind, FormulaRefusal};
use crate::tokens::{fault_at, next_content};
use asp_scan::Scan;

const MOST_VARS: u64 = (1 << 31) - 1;

/// The greatest number of clauses or of edges, and the greatest top weight.
const MOST: u64 = (1 << 63) - 1;

/// What a header has behind the number of clauses.
#[derive(Clone, Copy)]
pub(crate) enum Form {
    Cnf,
    /// The number of edges.
    Ecnf(u64),
    /// The top weight.
    Wcnf(u64),
}

/// The numbers of variables and of clauses, and the form.
#[derive(Clone, Copy)]
pub(crate) struct Header {
    pub(crate) vars: u32,
    pub(crate) clauses: u64,
    pub(crate) form: Form,
}

/// The header, in the first line that counts.
pub(crate) fn first_line(scan: &mut Scan<'_>) -> Result<Header, FormulaRefusal>
    ensures ok { IfOk result (λ h. from_lines scan.old.last (content_of scan.old.ahead)
        ≡ behind scan.old.last h (items_left scan.new)) }
    ensures vars { IfOk result (λ h. h.vars ≤ 2 ^ 31 - 1) }
    ensures err { IfErr result (λ refusal. Refuses (from_lines scan.old.last (content_of scan.old.ahead)) refusal) }
    ensures last { scan.new.last ≡ scan.old.last }
{
    if !next_content(scan) {
        return Err(fault_at(scan, FormulaKind::BadHeader));
    }
    match header_line(scan) {
        Ok(header) => Ok(header),
        Err(kind) => Err(fault_at(scan, kind)),
    }
}

/// The word `p`, the form, the numbers that it has, and no more.
fn header_line(scan: &mut Scan<'_>) -> Result<Header, FormulaKind>
    ensures ok { IfOk result (λ h. header_of (tokens scan.old.left) ≡ Ok h) }
    ensures vars { IfOk result (λ h. h.vars ≤ 2 ^ 31 - 1) }
    ensures end { OnOk result (tokens scan.new.left ≡ []) }
    ensures err { IfErr result (λ kind. header_of (tokens scan.old.left) ≡ Err kind) }
    ensures rest { scan.new ≡ record scan.old { left = scan.new.left } }
{
    this_word(scan, b"p", FormulaKind::BadHeader)?;
    let name = word(scan, FormulaKind::BadHeader)?;
    let vars = count(scan, 0, MOST_VARS)? as u32;
    let clauses = count(scan, 0, MOST)?;
    let form = form_of(scan, name)?;
    line_end(scan, FormulaKind::BadHeader)?;
    Ok(Header {
        vars,
        clauses,
        form,
    })
}

/// What the header of the form of this name has behind the number of clauses.
fn form_of(scan: &mut Scan<'_>, name: &[u8]) -> Result<Form, FormulaKind>
    ensures ok { IfOk result (λ form. form_of name.now (tokens scan.old.left) ≡ Ok (form, tokens scan.new.left)) }
    ensures err { IfErr result (λ kind. form_of name.now (tokens scan.old.left) ≡ Err kind) }
    ensures rest { scan.new ≡ record scan.old { left = scan.new.left } }
{
    if name == b"cnf".as_slice() {
        Ok(Form::Cnf)
    } else if name == b"ecnf".as_slice() {
        Ok(Form::Ecnf(count(scan, 0, MOST)?))
    } else if name == b"wcnf".as_slice() {
        Ok(Form::Wcnf(count(scan, 1, MOST)?))
    } else {
        Err(FormulaKind::BadHeader)
    }
}

/// A number from `low` to `high`.
fn count(scan: &mut Scan<'_>, low: u64, high: u64) -> Result<u64, FormulaKind>
    ensures ok { IfOk result (λ n. count low high (tokens scan.old.left) ≡ Ok (n, tokens scan.new.left)) }
    ensures most { IfOk result (λ n. n ≤ high) }
    ensures err { IfErr result (λ kind. count low high (tokens scan.old.left) ≡ Err kind) }
    ensures rest { scan.new ≡ record scan.old { left = scan.new.left } }
{
    match numeral(scan, FormulaKind::BadHeader)? {
        n if n >= 0 && low <= n as u64 && n as u64 <= high => Ok(n as u64),
        _ => Err(FormulaKind::BadHeader),
    }
}
