//! Runs of `lp2sat --soft`: the weighted clauses, byte for byte; what answers to them cost; and sums that are too
//! large.

use super::runs::{
    End, done, expect_end, expect_judged, expect_judgement, expect_translations, refused, rejected,
};
use super::samples::{CHOICE, COLOURING, EDGES};
use std::test::Fail;

const SOFT: &[&str] = &["lp2sat", "--soft", "in", "out", "map"];

/// Three choices and two levels.
const LEVELS: &str = "asp 1 0 0\n1 1 3 1 2 3 0 0\n2 1 2 1 3 2 -2\n2 2 1 3 4\n0\n";

const LEVELS_FORMULA: &str =
    "p wcnf 6 15 30\n30 -1 -4 0\n30 1 4 0\n30 -2 -5 0\n30 2 5 0\n30 -3 -6 0\n30 3 6 0\n30 -4 -1 0\n\
     30 4 1 0\n30 -5 -2 0\n30 5 2 0\n30 -6 -3 0\n30 6 3 0\n3 -1 0\n2 2 0\n24 -3 0\n";

const LEVELS_MAP: &str =
    "map 1 wcnf 6\natom 1 1\natom 2 2\natom 3 3\nlevel 2 1 3 4\nlevel 1 2 1 3 2 -2\nend\n";

#[test]
fn weighs_levels(rt: HostRuntime) -> Result<(), Fail> {
    let rows = [
        (LEVELS, LEVELS_FORMULA, LEVELS_MAP),
        // Without levels all clauses are hard.
        (
            CHOICE,
            "p wcnf 2 4 1\n1 -1 -2 0\n1 1 2 0\n1 -2 -1 0\n1 2 1 0\n",
            "map 1 wcnf 2\natom 1 1\natom 2 2\nend\n",
        ),
        // The greatest scale of two levels, of which each has the greatest weight.
        (
            "asp 1 0 0\n1 1 1 1 0 0\n2 1 1 1 2147483647\n2 2 1 1 2147483647\n0\n",
            "p wcnf 2 6 4611686018427387904\n4611686018427387904 -1 -2 0\n\
                      4611686018427387904 1 2 0\n4611686018427387904 -2 -1 0\n\
                      4611686018427387904 2 1 0\n2147483647 -1 0\n4611686016279904256 -1 0\n",
            "map 1 wcnf 2\natom 1 1\nlevel 2 1 1 2147483647\nlevel 1 1 1 2147483647\nend\n",
        ),
    ];
    expect_translations(&rt, rt.alloc(), SOFT, &rows)
}

#[test]
fn says_costs_of_answers(rt: HostRuntime) -> Result<(), Fail> {
    let rows = [
        (
            "s OPTIMUM FOUND\nv 1 -2 3 -4 5 -6 0\n",
            done("accepted\ncost 4 3\n"),
        ),
        // The line `o` is not compared with anything.
        (
            "o 7\ns OPTIMUM FOUND\nv 1 2 3 -4 -5 -6 0\n",
            done("accepted\ncost 4 1\n"),
        ),
        (
            "s OPTIMUM FOUND\nv 1 2 3 4 0\n",
            rejected("Rejected(Clause(1))", "rejected clause 1\n"),
        ),
    ];
    let alloc = rt.alloc();
    for (answer, end) in rows {
        expect_judgement(
            &rt,
            alloc,
            LEVELS_FORMULA.as_bytes(),
            LEVELS_MAP.as_bytes(),
            answer.as_bytes(),
            end,
        )?;
    }
    expect_judged(
        &rt,
        alloc,
        SOFT,
        COLOURING,
        "s OPTIMUM FOUND\nv 1 4 5 8 9 10 11 0\n",
        rejected("Rejected(Clause(12))", "rejected clause 12\n"),
    )?;
    Ok(())
}

#[test]
fn refuses_large_sums(rt: HostRuntime) -> Result<(), Fail> {
    let alloc = rt.alloc();
    let sums: End<'static> = refused(
        "Refused { file: 1, line: 0, kind: SumTooLarge { priority: 3 } }",
        "asptools: in: SumTooLarge 3\n",
    );
    let rows = [
        (
            "asp 1 0 0\n1 1 1 1 0 0\n2 1 1 1 2147483647\n2 2 1 1 2147483647\n2 3 1 1 1\n0\n",
            sums,
        ),
        // Edges come before sums.
        (
            EDGES,
            refused(
                "Refused { file: 1, line: 0, kind: Edges }",
                "asptools: in: Edges\n",
            ),
        ),
    ];
    for (text, end) in rows {
        expect_end(&rt, alloc, SOFT, &[("in", text.as_bytes())], end)?;
    }
    Ok(())
}
