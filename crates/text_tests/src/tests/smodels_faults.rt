//! The first faults of smodels texts.

use super::smodels_texts::program_of;
use super::tables::expect_faults;
use ground_program::{ReadKind, ReadRefusal};
use std::alloc::Global;

/// The first fault of a text.
fn fault_of(alloc: Global, text: &str) -> Option<ReadRefusal> {
    program_of(alloc, text).err()
}

#[test]
fn finds_bad_rules(rt: HostRuntime) {
    let rows = [
        ("", 1, ReadKind::NoEnd),
        ("1 1 0 0\n", 1, ReadKind::NoEnd),
        ("x\n", 1, ReadKind::BadNumber),
        ("3 16777216 1", 1, ReadKind::Missing),
        ("1 1 16777217 0", 1, ReadKind::TooManyLiterals),
        ("8 2 1 2 0 0", 1, ReadKind::Disjunction),
        ("4 1 0 0", 1, ReadKind::UnknownStatement),
        ("7 1 0 0", 1, ReadKind::UnknownStatement),
        ("1 0 0 0", 1, ReadKind::ZeroAtom),
        ("1 1 1 2 2 3", 1, ReadKind::BadNumber),
        ("1 1 1 1 -2", 1, ReadKind::BadNumber),
        ("\n5 1 4 1 0 2 -1", 2, ReadKind::NegativeWeight),
        ("5 1 2147483648 1 0 2 1", 1, ReadKind::WeightTooLarge),
        ("6 1 1 0 2 1", 1, ReadKind::BadNumber),
        ("1 1 0 0 0", 1, ReadKind::TrailingText),
    ];
    expect_faults(&rt, rt.alloc(), fault_of, &rows);
}

#[test]
fn finds_bad_parts(rt: HostRuntime) {
    let rows = [
        ("\n0\n7 \n", 3, ReadKind::BadName),
        ("0\n7\n", 2, ReadKind::Missing),
        ("0\n0\n", 2, ReadKind::NoEnd),
        ("0\n0\nB+ x\n", 3, ReadKind::BadHeader),
        ("0\n0\nB-\n", 3, ReadKind::BadHeader),
        ("0\n0\nB+\n1073741825\n", 4, ReadKind::AtomTooLarge),
        ("0\n0\nB+\n0\nB-\n5\n", 6, ReadKind::NoEnd),
        ("0\n0\nB+\n0\nB-\n0\n-1\n", 7, ReadKind::BadNumber),
        ("0\n0\nB+\n0\nB-\n0\n1 1\n", 7, ReadKind::TrailingText),
        ("0\n0\nB+\n0\nB-\n0\n1\n\n1\n", 9, ReadKind::TrailingText),
    ];
    expect_faults(&rt, rt.alloc(), fault_of, &rows);
}
