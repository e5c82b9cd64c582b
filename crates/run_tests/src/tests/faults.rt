//! Runs over a desk of which a call fails: what stands afterwards, and what is complained.

use super::runs::{End, Run, expect_failing_run, failed};
use super::samples::{CHOICE, CHOICE_FORMULA, CHOICE_MAP, CLAUSES, NO_ATOMS};
use asp_base::Memory;
use std::alloc::Global;
use std::process::Abort;
use std::test::Fail;

/// A run of `lp2sat` over a desk that moves 16 bytes a call, and of which the call of this number fails: how it ends,
/// and what is made.
fn expect_failing<'t>(
    rt: &impl Abort,
    alloc: Global,
    failing: u64,
    end: End<'_>,
    made: &'t [(&'t str, &'t [u8])],
) -> Result<(), Memory> {
    let run = Run {
        words: &["lp2sat", "in", "out", "map"],
        texts: &[("in", CHOICE.as_bytes())],
        end,
        made,
    };
    expect_failing_run(rt, alloc, 16, &[failing], &run)
}

#[test]
fn reading_may_fail(rt: HostRuntime) -> Result<(), Fail> {
    let alloc = rt.alloc();
    let end = failed("ReadFault { file: 1 }", 6, "asptools: cannot read in\n");
    // The begin, and four reads, of which the last gives nothing.
    for failing in [1, 2, 3, 5] {
        expect_failing(&rt, alloc, failing, end, &[])?;
    }
    Ok(())
}

#[test]
fn writing_may_fail(rt: HostRuntime) -> Result<(), Fail> {
    let formula = CHOICE_FORMULA.as_bytes();
    let map = CHOICE_MAP.as_bytes();
    let begun = b"p cnf 2 4\n-1 -2 ".as_slice();
    let no_formula = failed("WriteFault { file: 2 }", 7, "asptools: cannot write out\n");
    let no_map = failed("WriteFault { file: 3 }", 7, "asptools: cannot write map\n");
    // A begin, three writes and an end for each text, behind five calls that read.
    let rows: [(u64, End<'_>, &[(&str, &[u8])]); 8] = [
        (6, no_formula, &[]),
        (7, no_formula, &[("out", b"")]),
        (8, no_formula, &[("out", begun)]),
        (10, no_formula, &[("out", formula)]),
        (11, no_map, &[("out", formula)]),
        (12, no_map, &[("out", formula), ("map", b"")]),
        (
            13,
            no_map,
            &[("out", formula), ("map", b"map 1 cnf 2\natom")],
        ),
        (15, no_map, &[("out", formula), ("map", map)]),
    ];
    let alloc = rt.alloc();
    for (failing, end, made) in rows {
        expect_failing(&rt, alloc, failing, end, made)?;
    }
    Ok(())
}

/// A run whose saying, the call of this number, fails.
fn expect_unsaid(
    rt: &impl Abort,
    alloc: Global,
    failing: u64,
    words: &[&str],
    texts: &[(&str, &[u8])],
) -> Result<(), Memory> {
    let run = Run {
        words,
        texts,
        end: failed(
            "WriteFault { file: 0 }",
            7,
            "asptools: cannot write standard output\n",
        ),
        made: &[],
    };
    expect_failing_run(rt, alloc, 1 << 16, &[failing], &run)
}

#[test]
fn saying_may_fail(rt: HostRuntime) -> Result<(), Fail> {
    let alloc = rt.alloc();
    // A begin and two reads for each file come before.
    for answer in [b"UNSAT\n".as_slice(), b"SAT\n1 2 3 0\n", b"SAT\n"] {
        let texts = [
            ("f", CLAUSES.as_bytes()),
            ("m", NO_ATOMS.as_bytes()),
            ("a", answer),
        ];
        expect_unsaid(&rt, alloc, 10, &["back", "f", "m", "a"], &texts)?;
    }
    for atoms in [b"1\n".as_slice(), b"1 2\n"] {
        let texts = [("in", CHOICE.as_bytes()), ("atoms", atoms)];
        expect_unsaid(&rt, alloc, 7, &["check", "in", "atoms"], &texts)?;
    }
    Ok(())
}
