//! The first faults of aspif texts.

use super::tables::{expect_fault, expect_faults};
use aspif_format::read;
use ground_program::{ReadKind, ReadRefusal};
use std::alloc::Global;
use std::process::Abort;
use std::test::Fail;

/// The first fault of a text.
fn fault_of(alloc: Global, text: &str) -> Option<ReadRefusal> {
    read(alloc, text.as_bytes()).err()
}

#[test]
fn finds_bad_headers_and_ends(rt: HostRuntime) {
    let rows = [
        ("", 1, ReadKind::BadHeader),
        ("\n \t\n", 2, ReadKind::BadHeader),
        ("asp 1 0\n0\n", 1, ReadKind::BadHeader),
        ("asp 1 0 -1\n0\n", 1, ReadKind::BadHeader),
        ("asp 01 0 0\n0\n", 1, ReadKind::BadHeader),
        ("asp 1 0 0 x\n0\n", 1, ReadKind::BadHeader),
        ("\nasp 1 0 0 incremental\n0\n", 2, ReadKind::Incremental),
        ("\nasp 1 0 -00\r\n\n11\n", 4, ReadKind::UnknownStatement),
        ("asp 1 0 0\n", 1, ReadKind::NoEnd),
        ("asp 1 0 0\n1 0 1 1 0 0\n\n", 3, ReadKind::NoEnd),
        ("asp 1 0 0\n0\n0\n", 3, ReadKind::TrailingText),
        ("asp 1 0 0\n0\n\n x", 4, ReadKind::TrailingText),
        ("asp 1 0 0\n0 1\n", 2, ReadKind::TrailingText),
    ];
    expect_faults(&rt, rt.alloc(), fault_of, &rows);
}

/// The text whose second line is that of a row has the row's fault there.
fn expect_bad_lines(rt: &impl Abort, alloc: Global, rows: &[(&str, ReadKind)]) -> Result<(), Fail> {
    for (statement, kind) in rows {
        let text = format!(in alloc; "asp 1 0 0\n{statement}\n0\n")?;
        let text = text.as_str();
        expect_fault(rt, text, fault_of(alloc, text), 2, *kind);
    }
    Ok(())
}

#[test]
fn finds_bad_rules(rt: HostRuntime) -> Result<(), Fail> {
    let rows = [
        ("x", ReadKind::BadNumber),
        ("-1", ReadKind::UnknownStatement),
        ("11", ReadKind::UnknownStatement),
        ("1 2 1 1 0 0", ReadKind::BadNumber),
        ("1 0 -1", ReadKind::NegativeCount),
        ("1 0 2 1 2 0 0", ReadKind::Disjunction),
        ("1 0 1 0 0 0", ReadKind::ZeroAtom),
        ("1 0 1 -1 0 0", ReadKind::BadNumber),
        ("1 0 1 1073741825 0 0", ReadKind::AtomTooLarge),
        ("1 0 1 123456789012345678901234567890", ReadKind::TooWide),
        ("1 1 16777216 1", ReadKind::Missing),
        ("1 1 16777217 1", ReadKind::TooManyLiterals),
        ("1 0 1 1 2 0", ReadKind::BadNumber),
        ("1 0 1 1 0 1 0", ReadKind::ZeroAtom),
        ("1 0 1 1 0 1 -1073741825", ReadKind::AtomTooLarge),
        ("1 0 1 1 0 2 1", ReadKind::Missing),
        ("1 0 1 1 0 0 0", ReadKind::TrailingText),
        ("1 0 1 1 1 -2147483648 1 2 1", ReadKind::WeightTooLarge),
        ("1 0 1 1 1 1 1 2 -1", ReadKind::NegativeWeight),
        ("1 0 1 1 1 1 1 2 2147483648", ReadKind::WeightTooLarge),
    ];
    expect_bad_lines(&rt, rt.alloc(), &rows)
}

#[test]
fn finds_bad_statements(rt: HostRuntime) -> Result<(), Fail> {
    let rows = [
        ("2 2147483648 0", ReadKind::BadNumber),
        ("2 0 1 1 -2147483648", ReadKind::WeightTooLarge),
        ("3 1 0", ReadKind::ZeroAtom),
        ("4 -1 a 0", ReadKind::NegativeCount),
        ("4 1000000000 a 0", ReadKind::Missing),
        ("4 9 a b)c", ReadKind::Missing),
        ("4 9 a b)c 1 1", ReadKind::Missing),
        ("4 1 ab 0", ReadKind::BadName),
        ("4 0 0", ReadKind::BadName),
        ("5 1 4", ReadKind::BadNumber),
        ("6 1 1 x", ReadKind::TrailingText),
        ("7 6 1 1 1 0", ReadKind::BadNumber),
        ("7 0 1 1 -1 0", ReadKind::BadNumber),
        ("8 0 -2147483649 0", ReadKind::BadNumber),
        ("9 0 1 5", ReadKind::Theory),
    ];
    expect_bad_lines(&rt, rt.alloc(), &rows)
}
