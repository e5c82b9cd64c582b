//! CNF, ECNF and WCNF texts: their first faults, and what is written of their formulas.

use super::tables::{expect_faults, expect_written};
use asp_base::Memory;
use clause_store::Formula;
use dimacs_format::{FormulaKind, FormulaRefusal, read, write_cnf, write_ecnf, write_wcnf};
use std::alloc::Global;
use std::test::Fail;

/// The first fault of a text.
fn fault_of(alloc: Global, text: &str) -> Option<FormulaRefusal> {
    read(alloc, text.as_bytes()).err()
}

#[test]
fn finds_faults(rt: HostRuntime) {
    let rows = [
        ("", 1, FormulaKind::BadHeader),
        ("c x\n\n", 2, FormulaKind::BadHeader),
        ("\nc\np sat 1\n", 3, FormulaKind::BadHeader),
        ("p wcnf 1 1 0\n", 1, FormulaKind::BadHeader),
        ("p ecnf 1 1\n", 1, FormulaKind::BadHeader),
        ("p cnf 1\n", 1, FormulaKind::BadHeader),
        ("p cnf 1 0 x\n", 1, FormulaKind::BadHeader),
        ("p cnf 2147483648 0\n", 1, FormulaKind::BadHeader),
        ("p cnf -1 0\n", 1, FormulaKind::BadHeader),
        ("p cnf 1 -1\n", 1, FormulaKind::BadHeader),
        ("p cnf 1 1\nx 0\n", 2, FormulaKind::BadNumber),
        (
            "p cnf 1 1\n9223372036854775808 0\n",
            2,
            FormulaKind::BadNumber,
        ),
        ("p cnf 1 1\n2 0\n", 2, FormulaKind::LiteralOutOfRange),
        ("p cnf 3 1\n1\n-4\n", 3, FormulaKind::LiteralOutOfRange),
        ("p cnf 1 1\n1 0\nx\n", 3, FormulaKind::WrongCount),
        ("p cnf 1 0\n0\n", 2, FormulaKind::WrongCount),
        ("p cnf 1 2\n1 0\n", 2, FormulaKind::WrongCount),
        ("p cnf 1 2\n1 0\n\nc end", 4, FormulaKind::WrongCount),
        ("p cnf 1 1\n1\n", 2, FormulaKind::NoEnd),
        ("p cnf 1 1\n\n1\nc\n", 4, FormulaKind::NoEnd),
        ("p wcnf 1 1 2\n\n0 1 0\n", 3, FormulaKind::ZeroWeight),
        ("p wcnf 1 1 2\n1\n", 2, FormulaKind::NoEnd),
        ("p ecnf 1 0 1\ne 1 2 0\n", 2, FormulaKind::BadEdge),
        (
            "p ecnf 1 0 1\ne 1 2 2 x\n",
            2,
            FormulaKind::LiteralOutOfRange,
        ),
        ("p ecnf 1 1 1\n1 0 e 1 2 1\n", 2, FormulaKind::WrongCount),
    ];
    expect_faults(&rt, rt.alloc(), fault_of, &rows);
}

/// Writes a formula in the simplest form that has all of it.
fn put(formula: &Formula, out: &mut Vec<u8>) -> Result<(), Memory> {
    match (
        formula.edges.as_slice(),
        formula.soft.as_slice(),
        formula.top,
    ) {
        ([], [], 1) => write_cnf(formula, out),
        (_, [], 1) => write_ecnf(formula, out),
        ([], [], 2..=9) => write_wcnf(formula, out),
        _ => Err(Memory),
    }
}

/// Writes the formula of the text.
fn rewrite(alloc: Global, text: &str, out: &mut Vec<u8>) -> Result<(), Fail> {
    let formula = read(alloc, text.as_bytes())?;
    put(&formula, out)?;
    Ok(())
}

#[test]
fn reads_and_writes_formulas(rt: HostRuntime) -> Result<(), Fail> {
    let rows = [
        ("p cnf 0 0", "p cnf 0 0\n"),
        (
            "c a\n\np  cnf 3 4\r\n1 -2\nc 9 0\n 0 -03 0\t0\n2 2 0\n\n",
            "p cnf 3 4\n1 -2 0\n-3 0\n0\n2 2 0\n",
        ),
        (
            "p ecnf 2 1 2\n1 2 0\n\ne 1 -2 1\nc\ne 02 1 -2\n",
            "p ecnf 2 1 2\n1 2 0\ne 1 -2 1\ne 2 1 -2\n",
        ),
        (
            "p wcnf 2 2 3\n3 1\n-2 0 4 0\n",
            "p wcnf 2 2 3\n3 1 -2 0\n3 0\n",
        ),
    ];
    expect_written(&rt, rt.alloc(), "x", rewrite, &rows)
}
