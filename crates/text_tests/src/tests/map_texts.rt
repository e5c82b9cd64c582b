//! Texts of maps: their first faults, and what is written of their maps.

use super::tables::{expect_fault, expect_faults, expect_written};
use std::alloc::Global;
use std::test::Fail;
use symbol_map::{MapKind, MapRefusal, read, write};

/// The first fault of a text.
fn fault_of(alloc: Global, text: &str) -> Option<MapRefusal> {
    read(alloc, text.as_bytes()).err()
}

#[test]
fn finds_bad_headers_and_orders(rt: HostRuntime) {
    let rows = [
        ("", 1, MapKind::BadHeader),
        ("\nmap 2 cnf 3\nend\n", 2, MapKind::BadHeader),
        ("map 01 cnf 3\nend\n", 1, MapKind::BadHeader),
        ("map 1 dnf 3\nend\n", 1, MapKind::BadHeader),
        ("map 1 cnf 3 4\nend\n", 1, MapKind::BadHeader),
        ("map 1 cnf 2147483648\nend\n", 1, MapKind::BadHeader),
        ("map 1 cnf 3\n", 1, MapKind::NoEnd),
        ("map 1 cnf 3\natom 1 1\n\n", 3, MapKind::NoEnd),
        (
            "map 1 cnf 3\natom 2 1\natom 1 2\nend\n",
            3,
            MapKind::WrongOrder,
        ),
        (
            "map 1 cnf 3\natom 1 1\natom 1 2\nend\n",
            3,
            MapKind::WrongOrder,
        ),
        (
            "map 1 cnf 3\nshow 1 a 0\natom 1 1\nend\n",
            3,
            MapKind::WrongOrder,
        ),
        (
            "map 1 cnf 3\nlevel 0 0\nshow 1 a 0\nend\n",
            3,
            MapKind::WrongOrder,
        ),
        (
            "map 1 cnf 3\nlevel 1 0\nlevel 1 0\nend\n",
            3,
            MapKind::WrongOrder,
        ),
    ];
    expect_faults(&rt, rt.alloc(), fault_of, &rows);
}

#[test]
fn finds_bad_lines(rt: HostRuntime) {
    let rows = [
        ("map 1 cnf 3\nword\nend\n", 2),
        ("map 1 cnf 3\natom\nend\n", 2),
        ("map 1 cnf 3\natom 0 1\nend\n", 2),
        ("map 1 cnf 3\natom 1 0\nend\n", 2),
        ("map 1 cnf 3\natom 1 4\nend\n", 2),
        ("map 1 cnf 3\natom 1 1 1\nend\n", 2),
        ("map 1 cnf 3\nshow 1 ab 0\nend\n", 2),
        ("map 1 cnf 3\nshow 1 a 1 -4\nend\n", 2),
        ("map 1 cnf 3\nshow 1 a 2 1\nend\n", 2),
        ("map 1 cnf 3\nlevel 0 1 1\nend\n", 2),
        ("map 1 cnf 3\nlevel 0 1 1 2147483648\nend\n", 2),
        ("map 1 cnf 3\nlevel -2147483649 0\nend\n", 2),
        ("map 1 cnf 3\nend 1\nend\n", 2),
        ("map 1 cnf 3\nmap 1 cnf 3\nend\n", 2),
        ("map 1 cnf 3\nend\nend\nend\n", 3),
    ];
    let alloc = rt.alloc();
    for (text, line) in rows {
        expect_fault(&rt, text, fault_of(alloc, text), line, MapKind::BadLine);
    }
}

/// Writes the map of the text.
fn rewrite(alloc: Global, text: &str, out: &mut Vec<u8>) -> Result<(), Fail> {
    let map = read(alloc, text.as_bytes())?;
    write(&map, out)?;
    Ok(())
}

#[test]
fn reads_and_writes_maps(rt: HostRuntime) -> Result<(), Fail> {
    let rows = [
        ("map 1 ecnf 0\nend", "map 1 ecnf 0\nend\n"),
        (
            "\nmap 1 wcnf 03\r\natom 1  1\n\natom 7 -2\nshow 4 a b) 1\t-2\nshow 0  0\n\
             level 2 2 1 3 3 -2\nlevel -1 0\nend\n \n",
            "map 1 wcnf 3\natom 1 1\natom 7 -2\nshow 4 a b) 1 -2\nshow 0  0\nlevel 2 2 1 3 3 -2\nlevel -1 0\nend\n",
        ),
    ];
    expect_written(&rt, rt.alloc(), "x", rewrite, &rows)
}
