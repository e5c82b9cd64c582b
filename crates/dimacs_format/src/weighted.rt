//! The clauses of a WCNF text: a weight stands before each, and parts the hard ones from the soft ones.

ghost use Rattle.std.specs.Prelude.{◌≡◌, ◌≤◌, ◌<◌, ◌-◌, ◌^◌, ℕ, suc, [], ◌∷◌, ◌++◌, Ok, IfOk, OnOk, IfErr};
ghost use Rattle.std.specs.List.{AllByRecursion};
ghost use Rattle.asp_base.specs.Faults.{Refuses};
ghost use Rattle.clause_store.specs.Facts.{IsOver};
ghost use Rattle.dimacs_format.specs.Read.{weight, weighted, hard_of, soft_of};
ghost use Rattle.dimacs_format.specs.private.Walks.{items_left, onto, parts_onto};

use crate::clauses::literals;
use crate::kind::{FormulaKind, FormulaRefusal};
use crate::tokens::{fault_at, find_token};
use asp_base::{Lit, Memory};
use asp_scan::Scan;
use clause_store::{Clause, ClauseList, SoftClause, SoftList};
use std::alloc::Global;

/// The clauses of a WCNF text.
#[derive(Drop)]
pub(crate) struct Parts {
    pub(crate) hard: ClauseList,
    pub(crate) soft: SoftList,
}

/// So many clauses over the variables 1 to `vars`: hard where the weight is `top` or more, and else soft.
pub(crate) fn weighted(
    alloc: Global,
    scan: &mut Scan<'_>,
    vars: u32,
    top: u64,
    n: u64,
) -> Result<Parts, FormulaRefusal>
    requires { vars ≤ 2 ^ 31 - 1 }
    ensures ok { IfOk result (λ parts.
        parts_onto top [] [] (weighted scan.old.last vars n (items_left scan.old))
        ≡ Ok (parts.hard, parts.soft, items_left scan.new)) }
    ensures hard { IfOk result (λ parts. AllByRecursion (AllByRecursion (IsOver vars)) parts.hard) }
    ensures soft { IfOk result (λ parts. AllByRecursion
        (λ clause. (0 < clause.weight) × AllByRecursion (IsOver vars) clause.lits) parts.soft) }
    ensures err { IfErr result (λ refusal. Refuses (weighted scan.old.last vars n (items_left scan.old)) refusal) }
    ensures last { scan.new.last ≡ scan.old.last }
{
    let mut parts = Parts {
        hard: ClauseList::new(alloc),
        soft: SoftList::new(alloc),
    };
    let mut lits = Vec::new(alloc);
    for _i in 0..n {
        let weight = next_weighted(scan, vars, &mut lits)?;
        put(alloc, &mut parts, top, weight, lits.as_slice())?;
    }
    Ok(parts)
}

/// Puts a clause behind the hard ones or behind the soft ones.
fn put(alloc: Global, parts: &mut Parts, top: u64, weight: u64, lits: &[Lit]) -> Result<(), Memory>
    ensures hard { OnOk result (parts.new.hard
        ≡ parts.old.hard ++ hard_of top (record { weight = weight; lits = lits.now } ∷ [])) }
    ensures soft { OnOk result (parts.new.soft
        ≡ parts.old.soft ++ soft_of top (record { weight = weight; lits = lits.now } ∷ [])) }
{
    if top <= weight {
        parts.hard.push(lits)
    } else {
        put_soft(alloc, &mut parts.soft, weight, lits)
    }
}

fn put_soft(alloc: Global, soft: &mut SoftList, weight: u64, lits: &[Lit]) -> Result<(), Memory>
    ensures { OnOk result (soft.new ≡ soft.old ++ record { weight = weight; lits = lits.now } ∷ []) }
{
    let mut clause = Clause::new(alloc);
    clause.append(lits)?;
    soft.push(SoftClause {
        weight,
        lits: clause,
    })
}

/// A further clause: its literals in `lits`, and its weight.
fn next_weighted(scan: &mut Scan<'_>, vars: u32, lits: &mut Vec<Lit>) -> Result<u64, FormulaRefusal>
    requires { vars ≤ 2 ^ 31 - 1 }
    ensures ok { IfOk result (λ w. (n : ℕ) → weighted scan.old.last vars (suc n) (items_left scan.old)
        ≡ onto (record { weight = w; lits = lits.new.items } ∷ [])
        (weighted scan.old.last vars n (items_left scan.new))) }
    ensures positive { IfOk result (λ w. 0 < w) }
    ensures over { OnOk result (AllByRecursion (IsOver vars) lits.new.items) }
    ensures err { IfErr result (λ refusal.
        (n : ℕ) → Refuses (weighted scan.old.last vars (suc n) (items_left scan.old)) refusal) }
    ensures last { scan.new.last ≡ scan.old.last }
{
    let weight = next_weight(scan)?;
    literals(scan, vars, lits)?;
    Ok(weight)
}

/// The weight of a further clause.
fn next_weight(scan: &mut Scan<'_>) -> Result<u64, FormulaRefusal>
    ensures ok { IfOk result (λ w. weight scan.old.last (items_left scan.old) ≡ Ok (w, items_left scan.new)) }
    ensures positive { IfOk result (λ w. 0 < w) }
    ensures err { IfErr result (λ refusal. Refuses (weight scan.old.last (items_left scan.old)) refusal) }
    ensures last { scan.new.last ≡ scan.old.last }
{
    if !find_token(scan) {
        return Err(fault_at(scan, FormulaKind::WrongCount));
    }
    match scan.next_number() {
        Ok(n) if n >= 1 => Ok(n as u64),
        Ok(_) => Err(fault_at(scan, FormulaKind::ZeroWeight)),
        Err(_) => Err(fault_at(scan, FormulaKind::BadNumber)),
    }
}
