//! The edges of an ECNF text, each a line behind the clauses.

ghost use Rattle.std.specs.Prelude.{◌≡◌, ◌≤◌, ◌-◌, ◌^◌, ℕ, suc, [], ◌∷◌, Ok, Err, IfOk, OnOk, IfErr};
ghost use Rattle.std.specs.List.{AllByRecursion};
ghost use Rattle.asp_base.specs.Faults.{Refuses};
ghost use Rattle.asp_scan.specs.Tokens.{tokens};
ghost use Rattle.clause_store.specs.Facts.{IsOver};
ghost use Rattle.dimacs_format.specs.Read.{content_of, node, edge_literal, edge, edges};
ghost use Rattle.dimacs_format.specs.private.Walks.{onto};

use crate::fields::{line_end, numeral, this_word};
use crate::kind::{FormulaKind, FormulaRefusal};
use crate::tokens::{fault_at, next_content};
use asp_base::Lit;
use asp_scan::Scan;
use clause_store::{LitEdge, LitEdgeList};
use std::alloc::Global;

/// So many edges, each in a line, under literals over the variables 1 to `vars`.
pub(crate) fn edges(
    alloc: Global,
    scan: &mut Scan<'_>,
    vars: u32,
    n: u64,
) -> Result<LitEdgeList, FormulaRefusal>
    requires { vars ≤ 2 ^ 31 - 1 }
    ensures ok { IfOk result (λ found.
        edges scan.old.last vars n (content_of scan.old.ahead) ≡ Ok (found, content_of scan.new.ahead)) }
    ensures over { IfOk result (λ found. AllByRecursion (λ e. IsOver vars e.lit) found) }
    ensures err { IfErr result (λ refusal.
        Refuses (edges scan.old.last vars n (content_of scan.old.ahead)) refusal) }
    ensures last { scan.new.last ≡ scan.old.last }
{
    let mut found = LitEdgeList::new(alloc);
    for _i in 0..n {
        found.push(next_edge(scan, vars)?)?;
    }
    Ok(found)
}

/// The edge of a further line.
fn next_edge(scan: &mut Scan<'_>, vars: u32) -> Result<LitEdge, FormulaRefusal>
    requires { vars ≤ 2 ^ 31 - 1 }
    ensures ok { IfOk result (λ e. (n : ℕ) → edges scan.old.last vars (suc n) (content_of scan.old.ahead)
        ≡ onto (e ∷ []) (edges scan.old.last vars n (content_of scan.new.ahead))) }
    ensures over { IfOk result (λ e. IsOver vars e.lit) }
    ensures err { IfErr result (λ refusal.
        (n : ℕ) → Refuses (edges scan.old.last vars (suc n) (content_of scan.old.ahead)) refusal) }
    ensures last { scan.new.last ≡ scan.old.last }
{
    if !next_content(scan) {
        return Err(fault_at(scan, FormulaKind::WrongCount));
    }
    match edge(scan, vars) {
        Ok(edge) => Ok(edge),
        Err(kind) => Err(fault_at(scan, kind)),
    }
}

/// The word `e`, both nodes, the literal, and no more.
fn edge(scan: &mut Scan<'_>, vars: u32) -> Result<LitEdge, FormulaKind>
    requires { vars ≤ 2 ^ 31 - 1 }
    ensures ok { IfOk result (λ e. edge vars (tokens scan.old.left) ≡ Ok e) }
    ensures over { IfOk result (λ e. IsOver vars e.lit) }
    ensures err { IfErr result (λ kind. edge vars (tokens scan.old.left) ≡ Err kind) }
    ensures rest { scan.new ≡ record scan.old { left = scan.new.left } }
{
    this_word(scan, b"e", FormulaKind::BadEdge)?;
    let from = node(scan)?;
    let to = node(scan)?;
    let lit = edge_literal(scan, vars)?;
    line_end(scan, FormulaKind::BadEdge)?;
    Ok(LitEdge { from, to, lit })
}

/// A number of 32 bits.
fn node(scan: &mut Scan<'_>) -> Result<i32, FormulaKind>
    ensures ok { IfOk result (λ n. node (tokens scan.old.left) ≡ Ok (n, tokens scan.new.left)) }
    ensures err { IfErr result (λ kind. node (tokens scan.old.left) ≡ Err kind) }
    ensures rest { scan.new ≡ record scan.old { left = scan.new.left } }
{
    let n = numeral(scan, FormulaKind::BadEdge)?;
    if n < i32::MIN as i64 || n > i32::MAX as i64 {
        return Err(FormulaKind::BadEdge);
    }
    Ok(n as i32)
}

/// A literal over the variables 1 to `vars`.
fn edge_literal(scan: &mut Scan<'_>, vars: u32) -> Result<Lit, FormulaKind>
    requires { vars ≤ 2 ^ 31 - 1 }
    ensures ok { IfOk result (λ l. edge_literal vars (tokens scan.old.left) ≡ Ok (l, tokens scan.new.left)) }
    ensures over { IfOk result (λ l. IsOver vars l) }
    ensures err { IfErr result (λ kind. edge_literal vars (tokens scan.old.left) ≡ Err kind) }
    ensures rest { scan.new ≡ record scan.old { left = scan.new.left } }
{
    let n = numeral(scan, FormulaKind::BadEdge)?;
    if n == 0 {
        return Err(FormulaKind::BadEdge);
    }
    if n.unsigned_abs() > vars as u64 {
        return Err(FormulaKind::LiteralOutOfRange);
    }
    match Lit::new(n as i32) {
        Some(lit) => Ok(lit),
        None => Err(FormulaKind::BadEdge),
    }
}
