//! The first fault of each text that a run reads: each kind, with its line, and what is complained.

use super::runs::{expect_end, refused};
use super::samples::{CHOICE, CLAUSES, NO_ATOMS};
use asp_base::Memory;
use std::alloc::Global;
use std::process::Abort;
use std::test::Fail;

/// The words of a run with the texts that it reads, and which of them is refused: its place, its name, its sort as it
/// is shown for debugging.
#[derive(Clone, Copy)]
struct Refusing<'t> {
    words: &'t [&'t str],
    texts: &'t [(&'t str, &'t [u8])],
    file: u32,
    name: &'t str,
    sort: &'t str,
}

/// The run is refused with this line and kind.
fn expect_refused(
    rt: &impl Abort,
    alloc: Global,
    refusing: &Refusing<'_>,
    line: u64,
    kind: &str,
) -> Result<(), Memory> {
    let file = refusing.file;
    let name = refusing.name;
    let sort = refusing.sort;
    let outcome = format!(in alloc;
        "Refused {{ file: {file}, line: {line}, kind: {sort}({kind}) }}"
    )?;
    let complaint = format!(in alloc; "asptools: {name}:{line}: {kind}\n")?;
    let end = refused(outcome.as_str(), complaint.as_str());
    expect_end(rt, alloc, refusing.words, refusing.texts, end)
}

/// The text of a program is refused.
fn expect_bad_program(
    rt: &impl Abort,
    alloc: Global,
    text: &str,
    line: u64,
    kind: &str,
) -> Result<(), Memory> {
    let refusing = Refusing {
        words: &["lp2sat", "in", "out", "map"],
        texts: &[("in", text.as_bytes())],
        file: 1,
        name: "in",
        sort: "Text",
    };
    expect_refused(rt, alloc, &refusing, line, kind)
}

#[test]
fn refuses_programs(rt: HostRuntime) -> Result<(), Fail> {
    let rows = [
        ("asp 2 0 0\n0\n", 1, "BadHeader"),
        ("asp 1 0 0 incremental\n0\n", 1, "Incremental"),
        ("asp 1 0 0\n4 9 a b)c\n0\n", 2, "Missing"),
        ("asp 1 0 0\n4 9 a b)c 1 1\n0\n", 2, "Missing"),
        ("asp 1 0 0\n1 0 1 x 0 0\n0\n", 2, "BadNumber"),
        (
            "asp 1 0 0\n1 0 1 9223372036854775808 0 0\n0\n",
            2,
            "TooWide",
        ),
        ("asp 1 0 0\n1 0 1 0 0 0\n0\n", 2, "ZeroAtom"),
        ("asp 1 0 0\n1 0 1 7 0 1 -1073741825\n0\n", 2, "AtomTooLarge"),
        (
            "asp 1 0 0\n1 0 1 1 1 2147483648 1 2 1\n0\n",
            2,
            "WeightTooLarge",
        ),
        ("asp 1 0 0\n1 0 1 1 1 1 1 2 -1\n0\n", 2, "NegativeWeight"),
        ("asp 1 0 0\n1 0 -1\n0\n", 2, "NegativeCount"),
        ("4 1 0 0\n", 1, "UnknownStatement"),
        ("asp 1 0 0\n1 0 2 1 2 0 0\n0\n", 2, "Disjunction"),
        ("8 2 1 2 0 0\n", 1, "Disjunction"),
        ("asp 1 0 0\n9 0 1 5\n0\n", 2, "Theory"),
        ("asp 1 0 0\n4 1 ab 0\n0\n", 2, "BadName"),
        ("asp 1 0 0\n1 0 1 1 0 0\n", 2, "NoEnd"),
        ("asp 1 0 0\n0\n0\n", 3, "TrailingText"),
        ("asp 1 0 0\n1 1 16777217 1\n0\n", 2, "TooManyLiterals"),
    ];
    let alloc = rt.alloc();
    for (text, line, kind) in rows {
        expect_bad_program(&rt, alloc, text, line, kind)?;
    }
    Ok(())
}

/// A text of a set, or of a program, is refused by `check`.
fn expect_bad_check(
    rt: &impl Abort,
    alloc: Global,
    row: (&str, &str, u32, u64, &str),
) -> Result<(), Memory> {
    let (text, atoms, file, line, kind) = row;
    let refusing = Refusing {
        words: &["check", "in", "atoms"],
        texts: &[("in", text.as_bytes()), ("atoms", atoms.as_bytes())],
        file,
        name: if file == 1 { "in" } else { "atoms" },
        sort: "Text",
    };
    expect_refused(rt, alloc, &refusing, line, kind)
}

#[test]
fn refuses_to_check(rt: HostRuntime) -> Result<(), Fail> {
    let rows = [
        (CHOICE, "0\n", 2, 1, "ZeroAtom"),
        (CHOICE, "1\n2 x\n", 2, 2, "BadNumber"),
        (CHOICE, "\n1 1073741825\n", 2, 2, "AtomTooLarge"),
        ("8 2 1 2 0 0\n", "0\n", 1, 1, "Disjunction"),
        ("4 1 0 0\n", "", 1, 1, "UnknownStatement"),
    ];
    let alloc = rt.alloc();
    for row in rows {
        expect_bad_check(&rt, alloc, row)?;
    }
    Ok(())
}

/// One of the texts that `back` reads is refused: a formula, a map, or else the answer.
fn expect_bad_back(
    rt: &impl Abort,
    alloc: Global,
    texts: [&str; 3],
    file: u32,
    line: u64,
    kind: &str,
) -> Result<(), Memory> {
    let [formula, map, answer] = texts;
    let (name, sort) = match file {
        1 => ("f", "Formula"),
        2 => ("m", "Map"),
        _ => ("a", "Answer"),
    };
    let refusing = Refusing {
        words: &["back", "f", "m", "a"],
        texts: &[
            ("f", formula.as_bytes()),
            ("m", map.as_bytes()),
            ("a", answer.as_bytes()),
        ],
        file,
        name,
        sort,
    };
    expect_refused(rt, alloc, &refusing, line, kind)
}

#[test]
fn refuses_formulas_and_maps(rt: HostRuntime) -> Result<(), Fail> {
    let formulas = [
        ("p dnf 1 1\n1 0\n", 1, "BadHeader"),
        ("p cnf 1 1\nx 0\n", 2, "BadNumber"),
        ("p cnf 1 1\n2 0\n", 2, "LiteralOutOfRange"),
        ("p cnf 1 2\n1 0\n", 2, "WrongCount"),
        ("p cnf 1 1\n1\n", 2, "NoEnd"),
    ];
    let alloc = rt.alloc();
    for (text, line, kind) in formulas {
        expect_bad_back(&rt, alloc, [text, "", ""], 1, line, kind)?;
    }
    let maps = [
        ("map 2 cnf 3\nend\n", 1, "BadHeader"),
        ("map 1 cnf 3\natom 1 4\nend\n", 2, "BadLine"),
        ("map 1 cnf 3\natom 2 1\natom 1 2\nend\n", 3, "WrongOrder"),
        ("map 1 cnf 3\n", 1, "NoEnd"),
    ];
    for (text, line, kind) in maps {
        expect_bad_back(&rt, alloc, [CLAUSES, text, ""], 2, line, kind)?;
    }
    Ok(())
}

#[test]
fn refuses_answers(rt: HostRuntime) -> Result<(), Fail> {
    let rows = [
        ("s SATISFIABLE\nv 1 x 0\n", 2, "BadLine"),
        ("SAT\n4 0\n", 2, "LiteralOutOfRange"),
        ("s SATISFIABLE\nv 1 -1 0\n", 2, "BothSigns"),
        ("v 1 0\n", 1, "NoStatus"),
    ];
    let alloc = rt.alloc();
    for (text, line, kind) in rows {
        expect_bad_back(&rt, alloc, [CLAUSES, NO_ATOMS, text], 3, line, kind)?;
    }
    Ok(())
}
