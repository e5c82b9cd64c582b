//! The reader of formulas.

ghost use Rattle.std.specs.Prelude.{◌≡◌, ◌≤◌, ◌-◌, ◌^◌, Ok, IfOk, IfErr};
ghost use Rattle.dimacs_format.specs.Read.{behind_cnf, behind_ecnf, behind_wcnf, behind, formula_of};
ghost use Rattle.asp_base.specs.Faults.{Refuses};
ghost use Rattle.dimacs_format.specs.private.Walks.{items_left};

use crate::clauses::clauses;
use crate::edges::edges;
use crate::header::{Form, Header, first_line};
use crate::kind::FormulaRefusal;
use crate::tokens::{ended, whole_lines};
use crate::weighted::weighted;
use asp_scan::Scan;
use clause_store::{Formula, LitEdgeList, SoftList};
use std::alloc::Global;

/// The formula of a CNF, ECNF or WCNF text, or its first fault with its line.
///
/// Blank lines, and lines whose first byte is a `c`, say nothing. The first other line is the header `p cnf V C`,
/// `p ecnf V C E` or `p wcnf V C TOP`, refused with `BadHeader` where it is none of these; V is at most 2^31 - 1, and
/// C, E and TOP are at most 2^63 - 1, TOP at least 1. Then come C clauses, each of literals and a 0 that ends it, over
/// any lines. In WCNF a weight stands before each clause: a clause of weight TOP or more is hard, and one below is
/// soft. In ECNF E lines `e FROM TO LIT` follow, with nodes from -2^31 to 2^31 - 1 and a literal that is not 0. The top
/// weight of a formula that is read from CNF or ECNF is 1.
///
/// In clauses a token that is no number of 64 bits is refused with `BadNumber`, a literal whose variable is above V
/// with `LiteralOutOfRange`, and a weight below 1 with `ZeroWeight`. A line of edges is read from its first token to
/// its last, and refused with `LiteralOutOfRange` where its literal's variable is above V, and else with `BadEdge`
/// where it is no edge. A token behind the last clause in its line, and a token behind the last clause or edge, is
/// refused with `WrongCount`; and at the line of the end, fewer clauses than C or edges than E with `WrongCount`, and a
/// clause that has no end with `NoEnd`. `Memory` where memory runs out: as much is taken as clauses and edges are read,
/// and none for the numbers that the header gives.
pub fn read(alloc: Global, text: &[u8]) -> Result<Formula, FormulaRefusal>
    ensures formula { IfOk result (λ formula. formula_of text.now ≡ Ok formula) }
    ensures fault { IfErr result (λ refusal. Refuses (formula_of text.now) refusal) }
{
    let mut scan = Scan::new(text);
    let header = first_line(&mut scan)?;
    formula(alloc, &mut scan, header)
}

/// What stands behind a header, and no more.
fn formula(alloc: Global, scan: &mut Scan<'_>, header: Header) -> Result<Formula, FormulaRefusal>
    requires { header.vars ≤ 2 ^ 31 - 1 }
    ensures ok { IfOk result (λ formula. behind scan.old.last header (items_left scan.old) ≡ Ok formula) }
    ensures err { IfErr result (λ refusal. Refuses (behind scan.old.last header (items_left scan.old)) refusal) }
{
    match header.form {
        Form::Cnf => cnf(alloc, scan, header),
        Form::Ecnf(n) => ecnf(alloc, scan, header, n),
        Form::Wcnf(top) => wcnf(alloc, scan, header, top),
    }
}

/// Clauses.
fn cnf(alloc: Global, scan: &mut Scan<'_>, header: Header) -> Result<Formula, FormulaRefusal>
    requires { header.vars ≤ 2 ^ 31 - 1 }
    ensures ok { IfOk result (λ formula. behind_cnf scan.old.last header (items_left scan.old) ≡ Ok formula) }
    ensures err { IfErr result (λ refusal. Refuses (behind_cnf scan.old.last header (items_left scan.old)) refusal) }
{
    let hard = clauses(alloc, scan, header.vars, header.clauses)?;
    whole_lines(scan)?;
    ended(scan)?;
    Ok(Formula {
        vars: header.vars,
        hard,
        edges: LitEdgeList::new(alloc),
        soft: SoftList::new(alloc),
        top: 1,
    })
}

/// Clauses, and so many edges.
fn ecnf(
    alloc: Global,
    scan: &mut Scan<'_>,
    header: Header,
    n: u64,
) -> Result<Formula, FormulaRefusal>
    requires { header.vars ≤ 2 ^ 31 - 1 }
    ensures ok { IfOk result (λ formula. behind_ecnf scan.old.last header n (items_left scan.old) ≡ Ok formula) }
    ensures err { IfErr result (λ refusal. Refuses (behind_ecnf scan.old.last header n (items_left scan.old)) refusal) }
{
    let hard = clauses(alloc, scan, header.vars, header.clauses)?;
    whole_lines(scan)?;
    let edges = edges(alloc, scan, header.vars, n)?;
    ended(scan)?;
    Ok(Formula {
        vars: header.vars,
        hard,
        edges,
        soft: SoftList::new(alloc),
        top: 1,
    })
}

/// Clauses with weights, hard ones of this weight or more.
fn wcnf(
    alloc: Global,
    scan: &mut Scan<'_>,
    header: Header,
    top: u64,
) -> Result<Formula, FormulaRefusal>
    requires { header.vars ≤ 2 ^ 31 - 1 }
    ensures ok { IfOk result (λ formula. behind_wcnf scan.old.last header top (items_left scan.old) ≡ Ok formula) }
    ensures err { IfErr result (λ refusal.
        Refuses (behind_wcnf scan.old.last header top (items_left scan.old)) refusal) }
{
    let parts = weighted(alloc, scan, header.vars, top, header.clauses)?;
    whole_lines(scan)?;
    ended(scan)?;
    Ok(Formula {
        vars: header.vars,
        hard: parts.hard,
        edges: LitEdgeList::new(alloc),
        soft: parts.soft,
        top,
    })
}
