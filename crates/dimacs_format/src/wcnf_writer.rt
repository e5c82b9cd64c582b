//! The writer of WCNF: hard clauses with the top weight, and soft clauses with theirs.

ghost use Rattle.std.specs.Prelude.{◌≡◌, ◌++◌, ◌+◌, ◌*◌, ◌<◌, ◌≤◌, ◌-◌, ◌^◌, min, [], length, take, Ok, OnOk, OnErr};
ghost use Rattle.asp_scan.specs.Words.{line_of};
ghost use Rattle.clause_store.specs.Soft.{weights_of};
ghost use Rattle.dimacs_format.specs.Written.{weighted_words, wcnf_header_words, hard_lines, soft_lines, wcnf_text};
ghost use Rattle.dimacs_format.specs.Read.{formula_of};

use crate::append::{Format, append_text};
use crate::write::{digits, hard_bytes, push_clause};
use asp_base::{Lit, Memory};
use asp_scan::push_number;
use clause_store::{ClauseList, Formula, SoftClause};

/// At least the length of a header.
const HEADER_BYTES: usize = 61;

/// At least the length of a weight and the blank behind it.
const WEIGHT_BYTES: usize = 21;

/// Appends the WCNF text of a formula without edges. The top weight is above the weights of all soft clauses together,
/// and below 2^63. After `Memory` the text is as it was.
pub fn write_wcnf(formula: &Formula, out: &mut Vec<u8>) -> Result<(), Memory>
    requires edges { formula.now.edges ≡ [] }
    requires heavy { weights_of formula.now.soft < formula.now.top }
    requires top { formula.now.top ≤ 2 ^ 63 - 1 }
    ensures ok { OnOk result (out.new.items ≡ out.old.items ++ wcnf_text formula.now) }
    // What is appended is read as this formula.
    ensures read_back { OnOk result (formula_of (wcnf_text formula.now) ≡ Ok formula.now) }
    ensures err { OnErr result (out.new.items ≡ out.old.items) }
{
    formula.known();
    append_text(Format::Wcnf, formula, out)
}

/// After `Memory` more may stand behind the text that was there.
pub(crate) fn push_wcnf(formula: &Formula, out: &mut Vec<u8>) -> Result<(), Memory>
    ensures ok { OnOk result (out.new.items ≡ out.old.items ++ wcnf_text formula.now) }
    ensures err { OnErr result (take (length out.old.items) out.new.items ≡ out.old.items) }
{
    out.reserve_exact(most_bytes(formula))?;
    push_header(formula, out)?;
    push_hard(formula.top, &formula.hard, out)?;
    push_soft(formula.soft.as_slice(), out)
}

/// At least the length of the text, or the greatest number.
fn most_bytes(formula: &Formula) -> usize
    ensures { min (length (wcnf_text formula.now)) (2 ^ 64 - 1) ≤ result }
{
    formula.known();
    let _top = formula.top;
    let weights = formula.hard.len().saturating_mul(WEIGHT_BYTES);
    HEADER_BYTES
        .saturating_add(hard_bytes(formula))
        .saturating_add(weights)
        .saturating_add(soft_bytes(formula))
}

/// At least the length of the lines of the soft clauses, or the greatest number.
fn soft_bytes(formula: &Formula) -> usize
    ensures room { min (length (soft_lines formula.now.soft)) (2 ^ 64 - 1) ≤ result }
    ensures count { length formula.now.soft < 2 ^ 64 }
{
    let width = digits(formula.vars) + 2;
    let soft = formula.soft.as_slice();
    let mut most: usize = 0;
    for i in 0..soft.len() {
        most = most.saturating_add(bytes_of(&soft[i], width));
    }
    most
}

/// At least the length of a clause's line, where no literal has more than `width` bytes with the blank behind it.
fn bytes_of(clause: &SoftClause, width: usize) -> usize
    ensures is { result ≡ min (min (length clause.now.lits * width) (2 ^ 64 - 1) + 23) (2 ^ 64 - 1) }
    ensures weight { clause.now.weight < 2 ^ 64 }
{
    let _weight = clause.weight;
    let literals = clause.lits.as_slice().len().saturating_mul(width);
    literals.saturating_add(WEIGHT_BYTES + 2)
}

fn push_header(formula: &Formula, out: &mut Vec<u8>) -> Result<(), Memory>
    ensures ok { OnOk result (out.new.items ≡ out.old.items ++ line_of (wcnf_header_words formula.now)) }
    ensures err { OnErr result (take (length out.old.items) out.new.items ≡ out.old.items) }
{
    out.extend_from_slice(b"p wcnf ")?;
    push_number(out, formula.vars.into())?;
    out.push(b' ')?;
    push_number(
        out,
        formula.hard.len() as i128 + formula.soft.as_slice().len() as i128,
    )?;
    out.push(b' ')?;
    push_number(out, formula.top.into())?;
    out.push(b'\n')?;
    Ok(())
}

fn push_hard(top: u64, clauses: &ClauseList, out: &mut Vec<u8>) -> Result<(), Memory>
    ensures ok { OnOk result (out.new.items ≡ out.old.items ++ hard_lines top clauses.now) }
    ensures err { OnErr result (take (length out.old.items) out.new.items ≡ out.old.items) }
{
    for i in 0..clauses.len() {
        push_weighted(top, clauses.get(i), out)?;
    }
    Ok(())
}

fn push_soft(clauses: &[SoftClause], out: &mut Vec<u8>) -> Result<(), Memory>
    ensures ok { OnOk result (out.new.items ≡ out.old.items ++ soft_lines clauses.now) }
    ensures err { OnErr result (take (length out.old.items) out.new.items ≡ out.old.items) }
{
    for clause in clauses {
        push_weighted(clause.weight, clause.lits.as_slice(), out)?;
    }
    Ok(())
}

fn push_weighted(weight: u64, lits: &[Lit], out: &mut Vec<u8>) -> Result<(), Memory>
    ensures ok { OnOk result (out.new.items ≡ out.old.items ++ line_of (weighted_words weight lits.now)) }
    ensures err { OnErr result (take (length out.old.items) out.new.items ≡ out.old.items) }
{
    push_number(out, weight.into())?;
    out.push(b' ')?;
    push_clause(lits, out)
}
