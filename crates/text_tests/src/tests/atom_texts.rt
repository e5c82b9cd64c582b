//! Texts of atoms: their sets, and their first faults.

use super::tables::{are_same, expect_faults};
use ground_program::{ReadKind, ReadRefusal};
use stable_check::read_atoms;
use std::alloc::Global;
use std::process::Abort;
use std::test::Fail;

/// The first fault of a text.
fn fault_of(alloc: Global, text: &str) -> Option<ReadRefusal> {
    read_atoms(alloc, text.as_bytes()).err()
}

#[test]
fn finds_faults(rt: HostRuntime) {
    let rows = [
        ("0", 1, ReadKind::ZeroAtom),
        ("1\nx", 2, ReadKind::BadNumber),
        ("-3", 1, ReadKind::BadNumber),
        ("7\n\n1 1073741825 0", 3, ReadKind::AtomTooLarge),
        ("9223372036854775808", 1, ReadKind::TooWide),
    ];
    expect_faults(&rt, rt.alloc(), fault_of, &rows);
}

/// The text names just these atoms.
fn expect_atoms(rt: &impl Abort, alloc: Global, text: &str, atoms: &[u32]) -> Result<(), Fail> {
    let set = read_atoms(alloc, text.as_bytes())?;
    assert!(rt; are_same(set.atoms(), atoms), "{text:?}");
    Ok(())
}

#[test]
fn reads_sets(rt: HostRuntime) -> Result<(), Fail> {
    let rows: [(&str, &[u32]); 4] = [
        ("", &[]),
        ("\n \t\n", &[]),
        ("1 2\n2 1", &[1, 2]),
        ("\n 9\r\n\t\n003 9 1073741824\n", &[3, 9, 1073741824]),
    ];
    let alloc = rt.alloc();
    for (text, atoms) in rows {
        expect_atoms(&rt, alloc, text, atoms)?;
    }
    Ok(())
}
