//! Words that name no job, names of no file, strange names, and long names in complaints.

use super::runs::{Run, done, expect_bad_words, expect_end, expect_run, failed, refused};
use super::samples::{CHOICE, CHOICE_FORMULA, CHOICE_MAP};
use asp_base::Memory;
use std::alloc::{AllocError, Global};
use std::process::Abort;
use std::test::Fail;

#[test]
fn refuses_bad_words(rt: HostRuntime) -> Result<(), Fail> {
    let rows: [&[&str]; 14] = [
        &[],
        &[""],
        &["lp2sat"],
        &["lp2sat", "in", "out"],
        &["lp2sat", "in", "x", "x"],
        &["lp2sat", "in", "out", "map", "more"],
        &["lp2acyc", "--ecnf", "in", "out"],
        &["Check", "in", "atoms"],
        &["check", "x", "x"],
        &["check", "in", "--atoms"],
        &["check", "in"],
        &["back", "f", "m", "f"],
        &["back", "f", "m"],
        &["back", "f", "", "a"],
    ];
    let texts = [("in", CHOICE.as_bytes()), ("x", CHOICE.as_bytes())];
    expect_bad_words(&rt, rt.alloc(), &texts, &rows)
}

/// The run can't read the file of this place, and complains so.
fn expect_missing(
    rt: &impl Abort,
    alloc: Global,
    words: &[&str],
    outcome: &str,
    complaint: &str,
) -> Result<(), Memory> {
    let texts: [(&str, &[u8]); 3] = [
        ("in", b"no program\n"),
        ("f", b"no formula\n"),
        ("a", b"SAT\n"),
    ];
    expect_end(rt, alloc, words, &texts, failed(outcome, 6, complaint))
}

#[test]
fn reads_its_files_in_order(rt: HostRuntime) -> Result<(), Fail> {
    let rows: [(&[&str], &str, &str); 5] = [
        (
            &["lp2sat", "nothing", "out", "map"],
            "ReadFault { file: 1 }",
            "asptools: cannot read nothing\n",
        ),
        (
            &["check", "in", "atoms"],
            "ReadFault { file: 2 }",
            "asptools: cannot read atoms\n",
        ),
        (
            &["back", "f", "m", "a"],
            "ReadFault { file: 2 }",
            "asptools: cannot read m\n",
        ),
        (
            &["back", "f", "a", "s"],
            "ReadFault { file: 3 }",
            "asptools: cannot read s\n",
        ),
        // A name is said as it is.
        (
            &["check", "no\nprogram", "atoms"],
            "ReadFault { file: 1 }",
            "asptools: cannot read no\nprogram\n",
        ),
    ];
    let alloc = rt.alloc();
    for (words, outcome, complaint) in rows {
        expect_missing(&rt, alloc, words, outcome, complaint)?;
    }
    Ok(())
}

#[test]
fn takes_strange_names(rt: HostRuntime) -> Result<(), Fail> {
    let alloc = rt.alloc();
    let run = Run {
        words: &["lp2sat", "a\nb", "a-b ", "\u{e9}"],
        texts: &[("a\nb", CHOICE.as_bytes())],
        end: done(""),
        made: &[
            ("a-b ", CHOICE_FORMULA.as_bytes()),
            ("\u{e9}", CHOICE_MAP.as_bytes()),
        ],
    };
    expect_run(&rt, alloc, &run)?;
    // A name may be the word of a command.
    let texts: [(&str, &[u8]); 2] = [("a\nb", CHOICE.as_bytes()), ("lp2sat", b"x\n")];
    let end = refused(
        "Refused { file: 2, line: 1, kind: Text(BadNumber) }",
        "asptools: lp2sat:1: BadNumber\n",
    );
    expect_end(&rt, alloc, &["check", "a\nb", "lp2sat"], &texts, end)?;
    Ok(())
}

/// So many letters, and this behind them.
fn long_name(alloc: Global, letters: usize, tail: &str) -> Result<String, AllocError> {
    let mut name = String::new(alloc);
    for _ in 0..letters {
        name.push_str("a")?;
    }
    name.push_str(tail)?;
    Ok(name)
}

/// In a complaint of this name just the part of the tail is kept.
fn expect_cut(
    rt: &impl Abort,
    alloc: Global,
    letters: usize,
    tail: &str,
    kept: &str,
) -> Result<(), Memory> {
    let name = long_name(alloc, letters, tail)?;
    let front = long_name(alloc, letters, kept)?;
    let complaint = format!(in alloc; "asptools: cannot read {front}\n")?;
    expect_missing(
        rt,
        alloc,
        &["check", name.as_str(), "atoms"],
        "ReadFault { file: 1 }",
        complaint.as_str(),
    )
}

#[test]
fn cuts_long_names(rt: HostRuntime) -> Result<(), Fail> {
    // Letters, and characters of two, three and four bytes.
    let rows = [
        (200, "", ""),
        (200, "b", ""),
        (200, "\u{e9}", ""),
        (199, "bc", "b"),
        (199, "\u{e9}", ""),
        (198, "\u{e9}b", "\u{e9}"),
        (199, "\u{20ac}", ""),
        (198, "\u{20ac}", ""),
        (197, "\u{20ac}b", "\u{20ac}"),
        (197, "\u{1f600}", ""),
        (196, "\u{1f600}b", "\u{1f600}"),
    ];
    let alloc = rt.alloc();
    for (letters, tail, kept) in rows {
        expect_cut(&rt, alloc, letters, tail, kept)?;
    }
    Ok(())
}
