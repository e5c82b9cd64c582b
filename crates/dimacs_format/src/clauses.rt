//! The clauses of a formula's text, number by number over the ends of lines.

ghost use Rattle.std.specs.Prelude.{◌≡◌, ◌≤◌, ◌<◌, ◌-◌, ◌^◌, ◌↔◌, ℕ, suc, pos, unsigned_abs, [], ◌∷◌, length, IsNone, IfSome, IfOk, OnOk, IfErr};
ghost use Rattle.std.specs.List.{AllByRecursion};
ghost use Rattle.asp_base.specs.Literal.{literal_of};
ghost use Rattle.clause_store.specs.Facts.{IsOver};
ghost use Rattle.dimacs_format.specs.Read.{clause, clauses, next_clause};
ghost use Rattle.asp_base.specs.Faults.{Refuses};
ghost use Rattle.dimacs_format.specs.private.Walks.{items_left, onto, clause_from};

use crate::kind::{FormulaKind, FormulaRefusal};
use crate::tokens::{fault_at, find_token};
use asp_base::Lit;
use asp_scan::Scan;
use clause_store::ClauseList;
use std::alloc::Global;

/// So many clauses over the variables 1 to `vars`.
pub(crate) fn clauses(
    alloc: Global,
    scan: &mut Scan<'_>,
    vars: u32,
    n: u64,
) -> Result<ClauseList, FormulaRefusal>
    requires { vars ≤ 2 ^ 31 - 1 }
    ensures ok { IfOk result (λ hard.
        clauses scan.old.last vars n (items_left scan.old) ≡ Ok (hard, items_left scan.new)) }
    ensures over { IfOk result (λ hard. AllByRecursion (AllByRecursion (IsOver vars)) hard) }
    ensures err { IfErr result (λ refusal. Refuses (clauses scan.old.last vars n (items_left scan.old)) refusal) }
    ensures last { scan.new.last ≡ scan.old.last }
{
    let mut hard = ClauseList::new(alloc);
    let mut lits = Vec::new(alloc);
    for _i in 0..n {
        next_clause(scan, vars, &mut lits)?;
        hard.push(lits.as_slice())?;
    }
    Ok(hard)
}

/// A further clause, in `lits`.
fn next_clause(scan: &mut Scan<'_>, vars: u32, lits: &mut Vec<Lit>) -> Result<(), FormulaRefusal>
    requires { vars ≤ 2 ^ 31 - 1 }
    ensures ok { OnOk result (
        next_clause scan.old.last vars (items_left scan.old) ≡ Ok (lits.new.items, items_left scan.new)) }
    ensures over { OnOk result (AllByRecursion (IsOver vars) lits.new.items) }
    ensures err { IfErr result (λ refusal. Refuses (next_clause scan.old.last vars (items_left scan.old)) refusal) }
    ensures last { scan.new.last ≡ scan.old.last }
{
    if find_token(scan) {
        literals(scan, vars, lits)
    } else {
        Err(fault_at(scan, FormulaKind::WrongCount))
    }
}

/// The literals up to the next 0, in `lits`.
pub(crate) fn literals(
    scan: &mut Scan<'_>,
    vars: u32,
    lits: &mut Vec<Lit>,
) -> Result<(), FormulaRefusal>
    requires { vars ≤ 2 ^ 31 - 1 }
    ensures ok { OnOk result (
        clause scan.old.last vars (items_left scan.old) ≡ Ok (lits.new.items, items_left scan.new)) }
    ensures over { OnOk result (AllByRecursion (IsOver vars) lits.new.items) }
    ensures err { IfErr result (λ refusal. Refuses (clause scan.old.last vars (items_left scan.old)) refusal) }
    ensures last { scan.new.last ≡ scan.old.last }
{
    lits.clear();
    'literals: while let Some(lit) = next_literal(scan, vars)? {
        lits.push(lit)?;
    }
    Ok(())
}

/// A further literal of a clause, or None at the 0 that ends it.
fn next_literal(scan: &mut Scan<'_>, vars: u32) -> Result<Option<Lit>, FormulaRefusal>
    requires { vars ≤ 2 ^ 31 - 1 }
    ensures ok { IfOk result (λ lit.
        clause scan.old.last vars (items_left scan.old)
        ≡ clause_from scan.old.last vars lit (items_left scan.new)) }
    ensures over { IfOk result (λ lit. IfSome lit (λ l. IsOver vars l)) }
    ensures shorter { OnOk result (length (items_left scan.new) < length (items_left scan.old)) }
    ensures err { IfErr result (λ refusal. Refuses (clause scan.old.last vars (items_left scan.old)) refusal) }
    ensures last { scan.new.last ≡ scan.old.last }
{
    if !find_token(scan) {
        return Err(fault_at(scan, FormulaKind::NoEnd));
    }
    match scan.next_number() {
        Ok(n) if n.unsigned_abs() <= vars as u64 => Ok(literal(n)),
        Ok(_) => Err(fault_at(scan, FormulaKind::LiteralOutOfRange)),
        Err(_) => Err(fault_at(scan, FormulaKind::BadNumber)),
    }
}

/// The literal of a number, or None at 0.
fn literal(n: i64) -> Option<Lit>
    requires { unsigned_abs n < 2 ^ 31 }
    ensures none { IsNone result ↔ (n ≡ pos 0) }
    ensures value { IfSome result (λ l. l ≡ literal_of n) }
{
    Lit::new(n as i32)
}
