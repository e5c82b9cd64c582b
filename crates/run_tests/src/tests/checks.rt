//! Runs of `check`: verdicts on sets of atoms, and what is said of them.

use super::runs::{End, done, expect_check, rejected};
use super::samples::{
    CHOICE, CIRCLE, COLOURING, COUNTED, COUNTS, EDGES, LOOPS, REPEATED, RING, SHOWN, WEIGHTS,
};
use std::alloc::Global;
use std::process::Abort;
use std::test::Fail;

/// The texts that `check` is given, and how it is to end.
#[derive(Clone, Copy)]
struct Row {
    text: &'static str,
    atoms: &'static str,
    end: End<'static>,
}

const fn stable(text: &'static str, atoms: &'static str, said: &'static str) -> Row {
    Row {
        text,
        atoms,
        end: done(said),
    }
}

/// Atoms are outside the least model.
const fn unfounded(text: &'static str, atoms: &'static str, said: &'static str) -> Row {
    Row {
        text,
        atoms,
        end: rejected("Rejected(Unfounded(", said),
    }
}

const fn broken(
    text: &'static str,
    atoms: &'static str,
    outcome: &'static str,
    said: &'static str,
) -> Row {
    Row {
        text,
        atoms,
        end: rejected(outcome, said),
    }
}

/// The run over the texts of each row ends as the row says.
fn expect_checks(rt: &impl Abort, alloc: Global, rows: &[Row]) -> Result<(), Fail> {
    for row in rows {
        expect_check(
            rt,
            alloc,
            row.text.as_bytes(),
            row.atoms.as_bytes(),
            row.end,
        )?;
    }
    Ok(())
}

/// The second of two alternatives is required.
const REQUIRED: &str = "asp 1 0 0\n1 0 1 1 0 1 -2\n1 0 1 2 0 1 -1\n6 1 2\n0\n";

#[test]
fn checks_sets(rt: HostRuntime) -> Result<(), Fail> {
    let rows = [
        unfounded(CHOICE, "1 2\n", "unfounded 1 2\n"),
        broken(CHOICE, "", "Rejected(Rule(1))", "broken rule 1\n"),
        stable(CHOICE, "1\n", "stable\n"),
        stable(SHOWN, "2\n", "stable\nshow b\n"),
        broken(
            REQUIRED,
            "1\n",
            "Rejected(Requirement(1))",
            "broken requirement 1\n",
        ),
        unfounded(LOOPS, "1 2\n", "unfounded 1 2\n"),
        stable(LOOPS, "3 1\n2 1\n", "stable\nshow a\nshow b\nshow c\n"),
        stable(CIRCLE, "", "stable\n"),
        unfounded(CIRCLE, "1\n", "unfounded 1\n"),
        stable(RING, "", "stable\n"),
        stable(RING, "1 2 3 4 5\n", "stable\n"),
    ];
    expect_checks(&rt, rt.alloc(), &rows)
}

#[test]
fn checks_sets_of_choices_and_weights(rt: HostRuntime) -> Result<(), Fail> {
    let rows = [
        stable(WEIGHTS, "1 2 4\n", "stable\n"),
        stable(WEIGHTS, "3\n", "stable\n"),
        broken(WEIGHTS, "1 2\n", "Rejected(Rule(2))", "broken rule 2\n"),
        stable(REPEATED, "1 4\n", "stable\n"),
        stable(REPEATED, "2 4\n", "stable\n"),
        stable(REPEATED, "3\n", "stable\n"),
        broken(REPEATED, "1\n", "Rejected(Rule(2))", "broken rule 2\n"),
        stable(COUNTS, "1 2 4\n", "stable\nshow a\nshow b\nshow d\n"),
        stable(
            COUNTED,
            "1 2 4 7 8 9 10 11\n",
            "stable\nshow a\nshow b\nshow d\n",
        ),
        stable(COUNTED, "1 6 7 8 9\n", "stable\nshow a\n"),
        broken(EDGES, "1 2\n", "Rejected(Cycle(", "cycle 5 6 5\n"),
        stable(EDGES, "1\n", "stable\n"),
        stable(
            COLOURING,
            "1 4 5 7 8 10 11\n",
            "stable\nshow node(1)\nshow col(1,r)\nshow col(2,g)\nshow col(3,r)\nshow link(1,2)\n\
             show link(2,3)\nshow reach(2)\nshow reach(3)\ncost 3\n",
        ),
        unfounded(COLOURING, "1 4 5 8 9 10 11\n", "unfounded 10 11\n"),
    ];
    expect_checks(&rt, rt.alloc(), &rows)
}
