//! Runs of `lp2acyc`: what is written, byte for byte; answers to the clauses; and programs that are too large.

use super::large::ring_program;
use super::runs::{
    End, Run, done, expect_end, expect_judgement, expect_run, failed, made_of, rejected,
};
use super::samples::{ASPIF, CIRCLE, COLOURING, COUNTS, EDGES, REPEATED, WEIGHTS};
use asp_base::Memory;
use std::alloc::Global;
use std::process::Abort;
use std::test::Fail;

const UNIQUE: &[&str] = &["lp2acyc", "in", "out"];

const PLAIN: &[&str] = &["lp2acyc", "--plain", "in", "out"];

const UNIQUE_CLAUSES: &[&str] = &["lp2acyc", "--ecnf", "in", "out", "map"];

const PLAIN_CLAUSES: &[&str] = &["lp2acyc", "--ecnf", "--plain", "in", "out", "map"];

/// The words of a run, the text of a program, and what is written.
#[derive(Clone, Copy)]
struct Row {
    words: &'static [&'static str],
    text: &'static str,
    made: &'static [(&'static str, &'static [u8])],
}

fn expect_row(rt: &impl Abort, alloc: Global, row: Row) -> Result<(), Memory> {
    let run = Run {
        words: row.words,
        texts: &[("in", row.text.as_bytes())],
        end: done(""),
        made: row.made,
    };
    expect_run(rt, alloc, &run)
}

/// `{c}. a :- c. a :- b. b :- a. b :- c.` with names.
const LOOPS: &str =
    "asp 1 0 0\n1 1 1 3 0 0\n1 0 1 1 0 1 3\n1 0 1 1 0 1 2\n1 0 1 2 0 1 1\n1 0 1 2 0 1 3\n\
     4 1 a 1 1\n4 1 b 1 2\n4 1 c 1 3\n0\n";

#[test]
fn tells_recursion_by_edges(rt: HostRuntime) -> Result<(), Fail> {
    let rows = [
        // Given edges are numbered anew.
        Row {
            words: UNIQUE,
            text: EDGES,
            made: &[(
                "out",
                b"asp 1 0 0\n1 0 1 1 0 1 -3\n1 0 1 3 0 1 -1\n1 0 1 2 0 1 -4\n1 0 1 4 0 1 -2\n8 0 1 1 1\n8 1 0 1 2\n0\n",
            )],
        },
        Row {
            words: UNIQUE,
            text: CIRCLE,
            made: &[(
                "out",
                b"asp 1 0 0\n1 0 1 1 0 1 -2\n1 0 1 2 0 1 -1\n1 0 1 3 0 1 1\n1 0 0 0 2 3 -1\n\
                  1 0 1 4 0 1 5\n1 0 0 0 2 1 -4\n1 0 1 5 0 2 3 -4\n8 0 0 1 5\n0\n",
            )],
        },
        Row {
            words: PLAIN,
            text: CIRCLE,
            made: &[(
                "out",
                b"asp 1 0 0\n1 0 1 1 0 1 -2\n1 0 1 2 0 1 -1\n1 0 1 3 0 1 1\n1 0 0 0 2 3 -1\n\
                  1 0 1 4 0 3 1 1 -5\n1 0 1 5 0 1 -4\n1 0 1 6 0 2 3 4\n1 0 0 0 2 1 -6\n8 0 0 1 4\n\
                  0\n",
            )],
        },
        Row {
            words: UNIQUE_CLAUSES,
            text: CIRCLE,
            made: &[
                (
                    "out",
                    b"p ecnf 6 15 1\n-6 3 0\n-6 -4 0\n6 -3 4 0\n-1 -2 0\n1 2 0\n-2 -1 0\n2 1 0\n\
                      -3 1 0\n3 -1 0\n-4 5 0\n4 -5 0\n-5 6 0\n5 -6 0\n-3 1 0\n-1 4 0\ne 0 0 5\n",
                ),
                ("map", b"map 1 ecnf 6\natom 1 1\nend\n"),
            ],
        },
        Row {
            words: UNIQUE,
            text: LOOPS,
            made: &[(
                "out",
                b"asp 1 0 0\n1 0 1 3 0 1 -4\n1 0 1 4 0 1 -3\n1 0 1 1 0 1 -5\n1 0 1 5 0 1 -1\n\
                  1 0 1 6 0 1 3\n1 0 0 0 2 6 -1\n1 0 1 7 0 1 2\n1 0 0 0 2 7 -1\n1 0 1 2 0 1 -8\n\
                  1 0 1 8 0 1 -2\n1 0 1 9 0 1 1\n1 0 0 0 2 9 -2\n1 0 1 10 0 1 3\n1 0 0 0 2 10 -2\n\
                  1 0 1 11 0 1 15\n1 0 1 11 0 1 16\n1 0 0 0 2 1 -11\n1 0 1 12 0 1 6\n\
                  1 0 1 12 0 2 7 -14\n1 0 1 13 0 2 9 -11\n1 0 1 13 0 1 10\n1 0 1 14 0 1 17\n\
                  1 0 1 14 0 1 18\n1 0 0 0 2 2 -14\n1 0 1 15 0 1 6\n1 0 1 16 0 2 7 -12\n\
                  1 0 1 17 0 2 9 -13\n1 0 1 18 0 1 10\n4 1 a 1 1\n4 1 b 1 2\n4 1 c 1 3\n\
                  8 0 1 1 16\n8 1 0 1 17\n0\n",
            )],
        },
        Row {
            words: PLAIN,
            text: LOOPS,
            made: &[(
                "out",
                b"asp 1 0 0\n1 0 1 3 0 1 -4\n1 0 1 4 0 1 -3\n1 0 1 1 0 1 -5\n1 0 1 5 0 1 -1\n\
                  1 0 1 6 0 1 3\n1 0 0 0 2 6 -1\n1 0 1 7 0 1 2\n1 0 0 0 2 7 -1\n1 0 1 2 0 1 -8\n\
                  1 0 1 8 0 1 -2\n1 0 1 9 0 1 1\n1 0 0 0 2 9 -2\n1 0 1 10 0 1 3\n1 0 0 0 2 10 -2\n\
                  1 0 1 11 0 3 1 2 -12\n1 0 1 12 0 1 -11\n1 0 1 13 0 3 2 1 -14\n1 0 1 14 0 1 -13\n\
                  1 0 1 15 0 1 6\n1 0 1 15 0 2 7 11\n1 0 0 0 2 1 -15\n1 0 1 16 0 2 9 13\n\
                  1 0 1 16 0 1 10\n1 0 0 0 2 2 -16\n4 1 a 1 1\n4 1 b 1 2\n4 1 c 1 3\n8 0 1 1 11\n\
                  8 1 0 1 13\n0\n",
            )],
        },
    ];
    let alloc = rt.alloc();
    for row in rows {
        expect_row(&rt, alloc, row)?;
    }
    Ok(())
}

/// What `lp2acyc` writes of the normal program is what it writes of the program.
fn expect_same(rt: &impl Abort, alloc: Global, text: &str) -> Result<(), Memory> {
    let normal = made_of(rt, alloc, ASPIF, text.as_bytes(), "out")?;
    for words in [UNIQUE, PLAIN, UNIQUE_CLAUSES, PLAIN_CLAUSES] {
        let made = made_of(rt, alloc, words, text.as_bytes(), "out")?;
        assert!(rt; made_of(rt, alloc, words, normal.as_slice(), "out")? == made);
    }
    Ok(())
}

#[test]
fn normalizes_first(rt: HostRuntime) -> Result<(), Fail> {
    for text in [COUNTS, WEIGHTS, REPEATED, COLOURING] {
        expect_same(&rt, rt.alloc(), text)?;
    }
    Ok(())
}

/// Two edges under two variables of which one is true, and how answers to them end.
fn expect_answer(
    rt: &impl Abort,
    alloc: Global,
    answer: &'static str,
    end: End<'static>,
) -> Result<(), Memory> {
    expect_judgement(
        rt,
        alloc,
        b"p ecnf 2 1 2\n1 2 0\ne 1 2 1\ne 2 1 2\n",
        b"map 1 ecnf 2\nend\n",
        answer.as_bytes(),
        end,
    )
}

#[test]
fn judges_edges(rt: HostRuntime) -> Result<(), Fail> {
    let rows = [
        (
            "s SATISFIABLE\nv 1 2 0\n",
            rejected("Rejected(Cycle(", "rejected cycle 1 2 1\n"),
        ),
        ("s SATISFIABLE\nv 1 -2 0\n", done("accepted\n")),
        // A clause that is false comes before a cycle.
        (
            "s SATISFIABLE\nv -1 -2 0\n",
            rejected("Rejected(Clause(1))", "rejected clause 1\n"),
        ),
    ];
    let alloc = rt.alloc();
    for (answer, end) in rows {
        expect_answer(&rt, alloc, answer, end)?;
    }
    Ok(())
}

#[test]
fn refuses_a_large_ring(rt: HostRuntime) -> Result<(), Fail> {
    let alloc = rt.alloc();
    let program = ring_program(alloc)?;
    let text = program.as_str().as_bytes();
    let end = failed(
        "TooLarge { number: 48000000 }",
        5,
        "asptools: too large: 48000000\n",
    );
    expect_end(&rt, alloc, UNIQUE, &[("in", text)], end)?;
    let made = made_of(&rt, alloc, PLAIN, text, "out")?;
    assert!(rt;
        made.as_slice()
            .starts_with(b"asp 1 0 0\n1 0 1 1 0 1 -4001\n")
    );
    Ok(())
}
