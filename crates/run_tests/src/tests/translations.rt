//! Runs of `lp2sat`: the formula and the map of a program, byte for byte; answers to formulas that were written; and
//! programs that are not translated.

use super::runs::{
    done, expect_end, expect_judged, expect_translations, made_of, refused, rejected,
};
use super::samples::{
    ASPIF, CHOICE, CHOICE_FORMULA, CHOICE_MAP, CIRCLE, COLOURING, COUNTS, EDGES, LOOPS, REPEATED,
    RING, SAT, SHOWN, SHOWN_MAP, WEIGHTS,
};
use asp_base::Memory;
use std::alloc::Global;
use std::process::Abort;
use std::test::Fail;

#[test]
fn translates_programs(rt: HostRuntime) -> Result<(), Fail> {
    let rows = [
        ("asp 1 0 0\n0\n", "p cnf 0 0\n", "map 1 cnf 0\nend\n"),
        (CHOICE, CHOICE_FORMULA, CHOICE_MAP),
        (SHOWN, CHOICE_FORMULA, SHOWN_MAP),
        // An atom that needs its own absence.
        (
            "asp 1 0 0\n1 0 1 1 0 1 -1\n0\n",
            "p cnf 1 2\n-1 -1 0\n1 1 0\n",
            "map 1 cnf 1\natom 1 1\nend\n",
        ),
        // A rule without head and body.
        (
            "asp 1 0 0\n1 0 0 0 0\n0\n",
            "p cnf 0 1\n0\n",
            "map 1 cnf 0\nend\n",
        ),
        (
            "asp 1 0 0\n1 0 1 7 0 1 -1073741824\n0\n",
            "p cnf 2 3\n-1 -2 0\n1 2 0\n-2 0\n",
            "map 1 cnf 2\natom 7 1\natom 1073741824 2\nend\n",
        ),
        // A name with a blank in it.
        (
            "asp 1 0 0\n4 5 a b)c 1 1\n0\n",
            "p cnf 1 1\n-1 0\n",
            "map 1 cnf 1\natom 1 1\nshow 5 a b)c 1 1\nend\n",
        ),
        (
            "asp 1 0 0\n1 0 1 1 0 2 -2 -3\n0\n",
            "p cnf 4 7\n-4 -2 0\n-4 -3 0\n4 2 3 0\n-1 4 0\n1 -4 0\n-2 0\n-3 0\n",
            "map 1 cnf 4\natom 1 1\natom 2 2\natom 3 3\nend\n",
        ),
        // Two rules with one body.
        (
            "asp 1 0 0\n1 0 1 1 0 2 -2 -3\n1 0 1 4 0 2 -2 -3\n0\n",
            "p cnf 5 9\n-5 -2 0\n-5 -3 0\n5 2 3 0\n-1 5 0\n1 -5 0\n-2 0\n-3 0\n-4 5 0\n4 -5 0\n",
            "map 1 cnf 5\natom 1 1\natom 2 2\natom 3 3\natom 4 4\nend\n",
        ),
        // A fact, and a rule without head.
        (
            "asp 1 0 0\n1 0 1 1 0 0\n1 0 0 0 2 -1 -2\n0\n",
            "p cnf 2 3\n1 0\n-2 0\n1 2 0\n",
            "map 1 cnf 2\natom 1 1\natom 2 2\nend\n",
        ),
        // External atoms: the last value counts.
        (
            "asp 1 0 0\n5 2 2\n5 2 1\n5 3 2\n0\n",
            "p cnf 2 2\n1 0\n-2 0\n",
            "map 1 cnf 2\natom 2 1\natom 3 2\nend\n",
        ),
        // The second one as smodels text.
        (
            "1 1 1 1 2\n1 2 1 1 1\n0\n0\nB+\n0\nB-\n0\n1\n",
            CHOICE_FORMULA,
            CHOICE_MAP,
        ),
    ];
    expect_translations(&rt, rt.alloc(), SAT, &rows)
}

#[test]
fn translates_normalized_programs(rt: HostRuntime) -> Result<(), Fail> {
    let rows = [
        // A positive literal.
        (
            "asp 1 0 0\n1 0 1 1 0 2 -2 3\n0\n",
            "p cnf 4 7\n-4 -2 0\n-4 3 0\n4 2 -3 0\n-1 4 0\n1 -4 0\n-2 0\n-3 0\n",
            "map 1 cnf 4\natom 1 1\natom 2 2\natom 3 3\nend\n",
        ),
        // A choice, whose complement is no atom of the map.
        (
            "asp 1 0 0\n1 1 1 1 0 0\n0\n",
            CHOICE_FORMULA,
            "map 1 cnf 2\natom 1 1\nend\n",
        ),
        // A free external atom.
        (
            "asp 1 0 0\n5 1 0\n0\n",
            CHOICE_FORMULA,
            "map 1 cnf 2\natom 1 1\nend\n",
        ),
        // A weight.
        (
            "asp 1 0 0\n1 0 1 1 1 1 1 -2 1\n0\n",
            "p cnf 2 3\n-1 -2 0\n1 2 0\n-2 0\n",
            "map 1 cnf 2\natom 1 1\natom 2 2\nend\n",
        ),
        // A required literal.
        (
            "asp 1 0 0\n6 1 -1\n0\n",
            "p cnf 1 2\n-1 0\n-1 0\n",
            "map 1 cnf 1\natom 1 1\nend\n",
        ),
        // Names and levels stand over the variables.
        (
            "asp 1 0 0\n1 1 1 7 0 0\n1 0 1 9 0 1 7\n4 1 x 2 9 -7\n2 1 1 7 3\n2 2 2 -9 4 9 -1\n0\n",
            "p cnf 3 6\n-1 -2 0\n1 2 0\n-2 -1 0\n2 1 0\n-3 2 0\n3 -2 0\n",
            "map 1 cnf 3\natom 7 2\natom 9 3\nshow 1 x 2 3 -2\nlevel 2 2 -3 4 3 -1\nlevel 1 1 2 3\nend\n",
        ),
        // An atom that is to be false, in smodels text.
        (
            "1 1 1 1 2\n0\n2 b\n0\nB+\n0\nB-\n1\n0\n1\n",
            "p cnf 2 4\n-1 -2 0\n1 2 0\n-2 0\n-1 0\n",
            "map 1 cnf 2\natom 1 1\natom 2 2\nshow 1 b 1 2\nend\n",
        ),
    ];
    expect_translations(&rt, rt.alloc(), SAT, &rows)
}

#[test]
fn ranks_components(rt: HostRuntime) -> Result<(), Fail> {
    let rows = [
        (
            CIRCLE,
            "p cnf 5 15\n-1 1 0\n1 -1 0\n1 -2 0\n-1 2 0\n2 -3 0\n2 -3 0\n-2 -2 3 0\n-4 1 0\n-4 -3 0\n\
             4 -1 3 0\n-1 4 0\n-2 -5 0\n-2 -5 0\n2 2 5 0\n-1 -5 0\n",
            "map 1 cnf 5\natom 1 1\nend\n",
        ),
        (
            LOOPS,
            "p cnf 20 70\n-1 3 2 0\n1 -3 0\n1 -2 0\n-2 1 0\n2 -1 0\n-3 -4 0\n3 4 0\n-4 -3 0\n4 3 0\n1 -5 0\n\
             1 -6 0\n-1 5 6 0\n2 -7 0\n2 -8 0\n-2 7 8 0\n-6 -5 9 0\n6 5 9 0\n6 -5 -9 0\n-6 5 -9 0\n5 -10 0\n\
             7 -10 0\n-5 -7 10 0\n9 -8 11 0\n9 -10 11 0\n-8 -10 11 0\n-9 8 -11 0\n-9 10 -11 0\n8 10 -11 0\n\
             -12 2 0\n-12 -11 0\n12 -2 11 0\n-1 3 12 0\n-3 -6 0\n-7 -13 0\n-5 -13 0\n7 5 13 0\n8 -9 14 0\n\
             8 -13 14 0\n-9 -13 14 0\n-8 9 -14 0\n-8 13 -14 0\n9 13 -14 0\n-2 -14 0\n-8 -7 15 0\n8 7 15 0\n\
             8 -7 -15 0\n-8 7 -15 0\n7 -16 0\n5 -16 0\n-7 -5 16 0\n15 -6 17 0\n15 -16 17 0\n-6 -16 17 0\n\
             -15 6 -17 0\n-15 16 -17 0\n6 16 -17 0\n-18 1 0\n-18 -17 0\n18 -1 17 0\n-2 18 0\n-5 -19 0\n\
             -7 -19 0\n5 7 19 0\n6 -15 20 0\n6 -19 20 0\n-15 -19 20 0\n-6 15 -20 0\n-6 19 -20 0\n\
             15 19 -20 0\n-1 -20 0\n",
            "map 1 cnf 20\natom 1 1\natom 2 2\natom 3 3\nshow 1 a 1 1\nshow 1 b 1 2\nshow 1 c 1 3\nend\n",
        ),
        // Three components, which are ranked in the order of a walk along the rules: 3, then 2, then 1.
        (
            "asp 1 0 0\n1 0 1 1 0 1 1\n1 0 1 1 0 1 3\n1 0 1 1 0 1 2\n1 0 1 2 0 1 2\n1 0 1 3 0 1 3\n0\n",
            "p cnf 15 47\n-1 1 3 2 0\n1 -1 0\n1 -3 0\n1 -2 0\n-2 2 0\n2 -2 0\n-3 3 0\n3 -3 0\n1 -4 0\n\
             -1 4 0\n2 -5 0\n-2 5 0\n3 -6 0\n-3 6 0\n6 -7 0\n6 -7 0\n-6 -6 7 0\n-8 3 0\n-8 -7 0\n8 -3 7 0\n\
             -3 8 0\n-6 -9 0\n-6 -9 0\n6 6 9 0\n-3 -9 0\n5 -10 0\n5 -10 0\n-5 -5 10 0\n-11 2 0\n-11 -10 0\n\
             11 -2 10 0\n-2 11 0\n-5 -12 0\n-5 -12 0\n5 5 12 0\n-2 -12 0\n4 -13 0\n4 -13 0\n-4 -4 13 0\n\
             -14 1 0\n-14 -13 0\n14 -1 13 0\n-1 14 3 2 0\n-4 -15 0\n-4 -15 0\n4 4 15 0\n-1 -15 0\n",
            "map 1 cnf 15\natom 1 1\natom 2 2\natom 3 3\nend\n",
        ),
        // A fact needs no support, and an atom that stands twice in a body is compared once.
        (
            "asp 1 0 0\n1 0 1 1 0 0\n1 0 1 1 0 2 2 2\n1 0 1 2 0 1 1\n0\n",
            "p cnf 16 54\n-3 2 0\n-3 2 0\n3 -2 -2 0\n1 0\n-2 1 0\n2 -1 0\n1 -4 0\n1 -5 0\n-1 4 5 0\n2 -6 0\n\
             2 -7 0\n-2 6 7 0\n-5 -4 8 0\n5 4 8 0\n5 -4 -8 0\n-5 4 -8 0\n-5 0\n-6 -9 0\n-4 -9 0\n6 4 9 0\n\
             7 -8 10 0\n7 -9 10 0\n-8 -9 10 0\n-7 8 -10 0\n-7 9 -10 0\n8 9 -10 0\n-3 -10 0\n-7 -6 11 0\n\
             7 6 11 0\n7 -6 -11 0\n-7 6 -11 0\n6 -12 0\n4 -12 0\n-6 -4 12 0\n11 -5 13 0\n11 -12 13 0\n\
             -5 -12 13 0\n-11 5 -13 0\n-11 12 -13 0\n5 12 -13 0\n-14 1 0\n-14 -13 0\n14 -1 13 0\n-2 14 0\n\
             -4 -15 0\n-6 -15 0\n4 6 15 0\n5 -11 16 0\n5 -15 16 0\n-11 -15 16 0\n-5 11 -16 0\n-5 15 -16 0\n\
             11 15 -16 0\n-1 -16 0\n",
            "map 1 cnf 16\natom 1 1\natom 2 2\nend\n",
        ),
    ];
    expect_translations(&rt, rt.alloc(), SAT, &rows)
}

#[test]
fn written_formulas_have_stable_models(rt: HostRuntime) -> Result<(), Fail> {
    let rows = [
        // Supported, and not stable.
        (
            LOOPS,
            "s SATISFIABLE\nv 1 2 -3 4 0\n",
            rejected("Rejected(Clause(12))", "rejected clause 12\n"),
        ),
        // The same with ranks: that of 1 has no support.
        (
            LOOPS,
            "s SATISFIABLE\nv 1 2 4 5 8 11 18 0\n",
            rejected("Rejected(Clause(32))", "rejected clause 32\n"),
        ),
        (
            LOOPS,
            "s SATISFIABLE\nv 1 2 3 5 8 11 18 0\n",
            done("accepted\nshow a\nshow b\nshow c\n"),
        ),
        (
            LOOPS,
            "s SATISFIABLE\nv 4 9 13 14 15 19 20 0\n",
            done("accepted\n"),
        ),
        (
            CIRCLE,
            "s SATISFIABLE\nv 1 2 0\n",
            rejected("Rejected(Clause(7))", "rejected clause 7\n"),
        ),
        (CIRCLE, "s SATISFIABLE\nv 5 0\n", done("accepted\n")),
        (
            RING,
            "s SATISFIABLE\nv 1 2 3 4 5 7 11 13 14 18 23 32 35 40 43 44 48 0\n",
            done("accepted\n"),
        ),
        (
            RING,
            "s SATISFIABLE\nv 6 19 20 21 25 26 27 28 29 33 34 35 36 37 41 42 43 44 45 49 50 0\n",
            done("accepted\n"),
        ),
        (
            COLOURING,
            "s SATISFIABLE\nv 1 4 5 8 9 10 11 0\n",
            rejected("Rejected(Clause(12))", "rejected clause 12\n"),
        ),
        (
            COLOURING,
            "s SATISFIABLE\nv 1 4 5 7 8 10 11 13 14 17 23 28 29 32 35 42 0\n",
            done(
                "accepted\nshow node(1)\nshow col(1,r)\nshow col(2,g)\nshow col(3,r)\nshow link(1,2)\n\
                 show link(2,3)\nshow reach(2)\nshow reach(3)\ncost 3\n",
            ),
        ),
    ];
    let alloc = rt.alloc();
    for (text, answer, end) in rows {
        expect_judged(&rt, alloc, SAT, text, answer, end)?;
    }
    Ok(())
}

/// The formula of a program is that of the normal program that is written for it, and begins so.
fn expect_one_formula(
    rt: &impl Abort,
    alloc: Global,
    text: &str,
    header: &str,
) -> Result<(), Memory> {
    let normal = made_of(rt, alloc, ASPIF, text.as_bytes(), "out")?;
    let formula = made_of(rt, alloc, SAT, text.as_bytes(), "out")?;
    let other = made_of(rt, alloc, SAT, normal.as_slice(), "out")?;
    assert!(rt; formula == other);
    assert!(rt; formula.as_slice().starts_with(header.as_bytes()));
    Ok(())
}

#[test]
fn normal_programs_have_the_same_formula(rt: HostRuntime) -> Result<(), Fail> {
    let rows = [
        (COUNTS, "p cnf 13 30\n"),
        (WEIGHTS, "p cnf 55 140\n"),
        (REPEATED, "p cnf 43 109\n"),
        (COLOURING, "p cnf 44 135\n"),
        (RING, "p cnf 50 231\n"),
    ];
    let alloc = rt.alloc();
    for (text, header) in rows {
        expect_one_formula(&rt, alloc, text, header)?;
    }
    Ok(())
}

#[test]
fn refuses_edges(rt: HostRuntime) -> Result<(), Fail> {
    let end = refused(
        "Refused { file: 1, line: 0, kind: Edges }",
        "asptools: in: Edges\n",
    );
    expect_end(&rt, rt.alloc(), SAT, &[("in", EDGES.as_bytes())], end)?;
    Ok(())
}
