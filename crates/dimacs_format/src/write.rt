//! The writer of CNF. It takes room for the whole text at once, so that a text of many clauses is not copied as it
//! grows, as the other writers do.

ghost use Rattle.std.specs.Prelude.{◌≡◌, ℕ, ◌++◌, ◌<◌, ◌≤◌, ◌-◌, ◌^◌, min, List, [], length, take, Ok, OnOk, OnErr};
ghost use Rattle.asp_scan.specs.Words.{line_of};
ghost use Rattle.dimacs_format.specs.Written.{clause_words, header_words, clause_lines, cnf_text};
ghost use Rattle.dimacs_format.specs.Read.{formula_of};

use crate::append::{Format, append_text};
use asp_base::{Lit, Memory};
use asp_scan::push_number;
use clause_store::{ClauseList, Formula};

/// At least the length of a header.
const HEADER_BYTES: usize = 40;

/// Appends the CNF text of a formula without edges and soft clauses. After `Memory` the text is as it was.
pub fn write_cnf(formula: &Formula, out: &mut Vec<u8>) -> Result<(), Memory>
    requires edges { formula.now.edges ≡ [] }
    requires soft { formula.now.soft ≡ [] }
    requires top { formula.now.top ≡ 1 }
    ensures ok { OnOk result (out.new.items ≡ out.old.items ++ cnf_text formula.now) }
    // What is appended is read as this formula.
    ensures read_back { OnOk result (formula_of (cnf_text formula.now) ≡ Ok formula.now) }
    ensures err { OnErr result (out.new.items ≡ out.old.items) }
{
    formula.known();
    append_text(Format::Cnf, formula, out)
}

/// After `Memory` more may stand behind the text that was there.
pub(crate) fn push_cnf(formula: &Formula, out: &mut Vec<u8>) -> Result<(), Memory>
    ensures ok { OnOk result (out.new.items ≡ out.old.items ++ cnf_text formula.now) }
    ensures err { OnErr result (take (length out.old.items) out.new.items ≡ out.old.items) }
{
    out.reserve_exact(most_bytes(formula))?;
    push_header(formula, out)?;
    push_clauses(&formula.hard, out)
}

/// At least the length of the text, or the greatest number.
fn most_bytes(formula: &Formula) -> usize
    ensures { min (length (cnf_text formula.now)) (2 ^ 64 - 1) ≤ result }
{
    formula.known();
    HEADER_BYTES.saturating_add(hard_bytes(formula))
}

/// At least the length of the lines of the hard clauses, or the greatest number: no literal is longer than a sign, as
/// many digits as the last variable has, and a blank.
pub(crate) fn hard_bytes(formula: &Formula) -> usize
    ensures room { min (length (clause_lines formula.now.hard)) (2 ^ 64 - 1) ≤ result }
    ensures count { length formula.now.hard < 2 ^ 64 }
{
    let width = digits(formula.vars) + 2;
    let mut most: usize = 0;
    for i in 0..formula.hard.len() {
        let literals = formula.hard.get(i).len().saturating_mul(width);
        most = most.saturating_add(literals).saturating_add(2);
    }
    most
}

/// The number of decimal digits.
pub(crate) fn digits(n: u32) -> usize
    ensures some { 0 < result }
    ensures few { result ≤ 10 }
    ensures enough { n < 10 ^ result }
{
    match n {
        0..=9 => 1,
        10..=99 => 2,
        100..=999 => 3,
        1_000..=9_999 => 4,
        10_000..=99_999 => 5,
        100_000..=999_999 => 6,
        1_000_000..=9_999_999 => 7,
        10_000_000..=99_999_999 => 8,
        100_000_000..=999_999_999 => 9,
        _ => 10,
    }
}

pub(crate) fn push_clauses(clauses: &ClauseList, out: &mut Vec<u8>) -> Result<(), Memory>
    ensures ok { OnOk result (out.new.items ≡ out.old.items ++ clause_lines clauses.now) }
    ensures err { OnErr result (take (length out.old.items) out.new.items ≡ out.old.items) }
{
    for i in 0..clauses.len() {
        push_clause(clauses.get(i), out)?;
    }
    Ok(())
}

fn push_header(formula: &Formula, out: &mut Vec<u8>) -> Result<(), Memory>
    ensures ok { OnOk result (out.new.items ≡ out.old.items ++ line_of (header_words formula.now)) }
    ensures err { OnErr result (take (length out.old.items) out.new.items ≡ out.old.items) }
{
    out.extend_from_slice(b"p cnf ")?;
    push_number(out, formula.vars.into())?;
    out.push(b' ')?;
    push_number(out, formula.hard.len() as i128)?;
    out.push(b'\n')?;
    Ok(())
}

pub(crate) fn push_clause(lits: &[Lit], out: &mut Vec<u8>) -> Result<(), Memory>
    ensures ok { OnOk result (out.new.items ≡ out.old.items ++ line_of (clause_words lits.now)) }
    ensures err { OnErr result (take (length out.old.items) out.new.items ≡ out.old.items) }
{
    for lit in lits {
        push_number(out, lit.value().into())?;
        out.push(b' ')?;
    }
    out.extend_from_slice(b"0\n")?;
    Ok(())
}
