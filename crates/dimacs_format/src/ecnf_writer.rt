//! The writer of ECNF: clauses, and edges behind them.

ghost use Rattle.std.specs.Prelude.{◌≡◌, ◌++◌, ◌<◌, ◌≤◌, ◌-◌, ◌^◌, min, [], length, take, Ok, OnOk, OnErr};
ghost use Rattle.std.specs.List.{AllByRecursion};
ghost use Rattle.asp_scan.specs.Words.{line_of};
ghost use Rattle.dimacs_format.specs.Written.{edge_words, ecnf_header_words, edge_lines, ecnf_text};
ghost use Rattle.dimacs_format.specs.Read.{formula_of, HasNodes};
ghost use Rattle.dimacs_format.specs.private.EdgeText.{nodes_text};

use crate::append::{Format, append_text};
use crate::write::{digits, hard_bytes, push_clauses};
use asp_base::Memory;
use asp_scan::push_number;
use clause_store::{Formula, LitEdge};

/// At least the length of a header.
const HEADER_BYTES: usize = 61;

/// At least the length of an edge's line without its literal.
const EDGE_BYTES: usize = 28;

/// Appends the ECNF text of a formula without soft clauses. After `Memory` the text is as it was.
pub fn write_ecnf(formula: &Formula, out: &mut Vec<u8>) -> Result<(), Memory>
    requires soft { formula.now.soft ≡ [] }
    requires top { formula.now.top ≡ 1 }
    ensures ok { OnOk result (out.new.items ≡ out.old.items ++ ecnf_text formula.now) }
    // What is appended is read as this formula.
    ensures read_back { OnOk result (formula_of (ecnf_text formula.now) ≡ Ok formula.now) }
    ensures err { OnErr result (out.new.items ≡ out.old.items) }
{
    formula.known();
    append_text(Format::Ecnf, formula, out)
}

/// After `Memory` more may stand behind the text that was there.
pub(crate) fn push_ecnf(formula: &Formula, out: &mut Vec<u8>) -> Result<(), Memory>
    ensures ok { OnOk result (out.new.items ≡ out.old.items ++ ecnf_text formula.now) }
    ensures nodes { OnOk result (AllByRecursion HasNodes formula.now.edges) }
    ensures err { OnErr result (take (length out.old.items) out.new.items ≡ out.old.items) }
{
    out.reserve_exact(most_bytes(formula))?;
    push_header(formula, out)?;
    push_clauses(&formula.hard, out)?;
    push_edges(formula.edges.as_slice(), out)
}

/// At least the length of the text, or the greatest number.
fn most_bytes(formula: &Formula) -> usize
    ensures { min (length (ecnf_text formula.now)) (2 ^ 64 - 1) ≤ result }
{
    formula.known();
    HEADER_BYTES
        .saturating_add(hard_bytes(formula))
        .saturating_add(edge_bytes(formula))
}

/// At least the length of the lines of the edges, or the greatest number: no node is longer than a sign and ten digits.
fn edge_bytes(formula: &Formula) -> usize
    ensures room { min (length (edge_lines formula.now.edges)) (2 ^ 64 - 1) ≤ result }
    ensures count { length formula.now.edges < 2 ^ 64 }
{
    let width = EDGE_BYTES + digits(formula.vars);
    let mut most: usize = 0;
    let edges = formula.edges.as_slice();
    for i in 0..edges.len() {
        most = most.saturating_add(bytes_of(&edges[i], width));
    }
    most
}

/// So many bytes, which are enough for the line of an edge.
fn bytes_of(edge: &LitEdge, width: usize) -> usize
    ensures is { result ≡ width }
    ensures nodes { HasNodes edge.now }
{
    let _from = edge.from;
    let _to = edge.to;
    width
}

fn push_header(formula: &Formula, out: &mut Vec<u8>) -> Result<(), Memory>
    ensures ok { OnOk result (out.new.items ≡ out.old.items ++ line_of (ecnf_header_words formula.now)) }
    ensures err { OnErr result (take (length out.old.items) out.new.items ≡ out.old.items) }
{
    out.extend_from_slice(b"p ecnf ")?;
    push_number(out, formula.vars.into())?;
    out.push(b' ')?;
    push_number(out, formula.hard.len() as i128)?;
    out.push(b' ')?;
    push_number(out, formula.edges.as_slice().len() as i128)?;
    out.push(b'\n')?;
    Ok(())
}

fn push_edges(edges: &[LitEdge], out: &mut Vec<u8>) -> Result<(), Memory>
    ensures ok { OnOk result (out.new.items ≡ out.old.items ++ edge_lines edges.now) }
    ensures nodes { OnOk result (AllByRecursion HasNodes edges.now) }
    ensures err { OnErr result (take (length out.old.items) out.new.items ≡ out.old.items) }
{
    for edge in edges {
        push_edge(edge, out)?;
    }
    Ok(())
}

fn push_edge(edge: &LitEdge, out: &mut Vec<u8>) -> Result<(), Memory>
    ensures ok { OnOk result (out.new.items ≡ out.old.items ++ line_of (edge_words edge.now)) }
    ensures nodes { OnOk result (HasNodes edge.now) }
    ensures err { OnErr result (take (length out.old.items) out.new.items ≡ out.old.items) }
{
    push_nodes(edge, out)?;
    push_number(out, edge.lit.value().into())?;
    out.push(b'\n')?;
    Ok(())
}

/// The word `e` and both nodes, a blank behind each.
fn push_nodes(edge: &LitEdge, out: &mut Vec<u8>) -> Result<(), Memory>
    ensures ok { OnOk result (out.new.items ≡ out.old.items ++ nodes_text edge.now) }
    ensures nodes { OnOk result (HasNodes edge.now) }
    ensures err { OnErr result (take (length out.old.items) out.new.items ≡ out.old.items) }
{
    out.extend_from_slice(b"e ")?;
    push_number(out, edge.from.into())?;
    out.push(b' ')?;
    push_number(out, edge.to.into())?;
    out.push(b' ')?;
    Ok(())
}
