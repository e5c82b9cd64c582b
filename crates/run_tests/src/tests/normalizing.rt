//! Runs of `lp2normal`: what is written, byte for byte, and what `check` says of it.

use super::runs::{
    Run, done, expect_bad_words, expect_check, expect_end, expect_run, failed, made_of, refused,
};
use super::samples::{ASPIF, CHOICE, COLOURING, COUNTED, COUNTS, EDGES, REPEATED, SAT, WEIGHTS};
use asp_base::Memory;
use std::alloc::{AllocError, Global};
use std::process::Abort;
use std::test::Fail;

/// The words of a run, the text of a program, and what is written.
#[derive(Clone, Copy)]
struct Row {
    words: &'static [&'static str],
    text: &'static str,
    made: &'static str,
}

const SMODELS: &[&str] = &["lp2normal", "--smodels", "in", "out"];

const fn aspif(text: &'static str, made: &'static str) -> Row {
    Row {
        words: ASPIF,
        text,
        made,
    }
}

const fn smodels(text: &'static str, made: &'static str) -> Row {
    Row {
        words: SMODELS,
        text,
        made,
    }
}

/// A run makes this one text of that of a program.
fn expect_normal<'t>(
    rt: &impl Abort,
    alloc: Global,
    words: &'t [&'t str],
    text: &'t str,
    made: &'t str,
) -> Result<(), Memory> {
    let run = Run {
        words,
        texts: &[("in", text.as_bytes())],
        end: done(""),
        made: &[("out", made.as_bytes())],
    };
    expect_run(rt, alloc, &run)
}

#[test]
fn normalizes_programs(rt: HostRuntime) -> Result<(), Fail> {
    let rows = [
        aspif("asp 1 0 0\n0\n", "asp 1 0 0\n0\n"),
        // Normal rules are left as they are.
        aspif(CHOICE, CHOICE),
        aspif(COUNTS, COUNTED),
        // External atoms: the last value counts.
        aspif(
            "asp 1 0 0\n5 1 0\n5 2 2\n5 2 1\n5 3 2\n0\n",
            "asp 1 0 0\n1 0 1 1 0 1 -4\n1 0 1 4 0 1 -1\n1 0 1 2 0 0\n5 3 2\n0\n",
        ),
        // Two choices of one atom have one complement.
        aspif(
            "asp 1 0 0\n1 1 1 1 0 0\n1 1 1 1 0 1 -2\n0\n",
            "asp 1 0 0\n1 0 1 1 0 1 -3\n1 0 1 3 0 1 -1\n1 0 1 1 0 2 -2 -3\n0\n",
        ),
        // A new atom stands for the body of a choice of several atoms.
        aspif(
            "asp 1 0 0\n1 1 2 1 2 0 2 3 -4\n0\n",
            "asp 1 0 0\n1 0 1 5 0 2 3 -4\n1 0 1 1 0 2 5 -6\n1 0 1 6 0 1 -1\n1 0 1 2 0 2 5 -7\n1 0 1 7 0 1 -2\n0\n",
        ),
        // A choice without atoms is left out.
        aspif(
            "asp 1 0 0\n1 1 0 1 2 2 1 1 2 1\n0\n",
            "asp 1 0 0\n5 1 2\n5 2 2\n0\n",
        ),
        smodels(
            "asp 1 0 0\n1 0 1 1 0 1 -2\n1 0 1 2 0 1 -1\n4 1 a 1 1\n4 4 fact 0\n0\n",
            "1 1 1 1 2\n1 2 1 1 1\n1 3 0 0\n0\n1 a\n3 fact\n0\nB+\n0\nB-\n0\n1\n",
        ),
    ];
    let alloc = rt.alloc();
    for row in rows {
        expect_normal(&rt, alloc, row.words, row.text, row.made)?;
    }
    Ok(())
}

/// What is written for a program has this stable model, with these names.
fn expect_stable(
    rt: &impl Abort,
    alloc: Global,
    text: &str,
    atoms: &str,
    said: &str,
) -> Result<(), Memory> {
    let made = made_of(rt, alloc, ASPIF, text.as_bytes(), "out")?;
    expect_check(rt, alloc, made.as_slice(), atoms.as_bytes(), done(said))
}

/// A choice of 1, 2, 3, and 4 where at least so many of them are true, as smodels text.
fn counts(alloc: Global, bound: u32) -> Result<String, AllocError> {
    let mut text = String::new(alloc);
    write!(
        text,
        "3 3 1 2 3 0 0\n2 4 3 0 {bound} 1 2 3\n0\n1 a\n2 b\n3 c\n4 d\n0\nB+\n0\nB-\n0\n1\n"
    )?;
    Ok(text)
}

#[test]
fn written_programs_are_checked(rt: HostRuntime) -> Result<(), Fail> {
    let rows = [
        (2, "1 2 4 7 8 9 10 11", "stable\nshow a\nshow b\nshow d\n"),
        (2, "1 6 7 8 9", "stable\nshow a\n"),
        (0, "4 5 6 7", "stable\nshow d\n"),
        (4, "1 2 3", "stable\nshow a\nshow b\nshow c\n"),
        (3, "1 2 3 4 8", "stable\nshow a\nshow b\nshow c\nshow d\n"),
    ];
    let alloc = rt.alloc();
    for (bound, atoms, said) in rows {
        let text = counts(alloc, bound)?;
        expect_stable(&rt, alloc, text.as_str(), atoms, said)?;
    }
    Ok(())
}

#[test]
fn normalizes_sums_and_whole_programs(rt: HostRuntime) -> Result<(), Fail> {
    let rows: [(&[&str], &str); 4] = [
        (ASPIF, WEIGHTS),
        (ASPIF, REPEATED),
        (SMODELS, WEIGHTS),
        (SMODELS, COLOURING),
    ];
    let alloc = rt.alloc();
    for (words, text) in rows {
        made_of(&rt, alloc, words, text.as_bytes(), "out")?;
    }
    Ok(())
}

/// The last atom, which holds where half of so many others before it do, and so many facts among these.
fn counting(alloc: Global, count: u32, last: u32, facts: u32) -> Result<String, AllocError> {
    let mut text = String::from_str(alloc, "asp 1 0 0\n")?;
    for fact in 0..facts {
        let atom = fact + 1;
        write!(text, "1 0 1 {atom} 0 0\n")?;
    }
    let half = count / 2;
    write!(text, "1 0 1 {last} 1 {half} {count}")?;
    for atom in 1..last {
        write!(text, " {atom} 1")?;
    }
    text.push_str("\n0\n")?;
    Ok(text)
}

#[test]
fn counts_by_networks(rt: HostRuntime) -> Result<(), Fail> {
    let alloc = rt.alloc();
    let text = counting(alloc, 1000, 1001, 500)?;
    made_of(&rt, alloc, ASPIF, text.as_str().as_bytes(), "out")?;
    Ok(())
}

#[test]
fn rooms_have_a_limit(rt: HostRuntime) -> Result<(), Fail> {
    let alloc = rt.alloc();
    let text = counting(alloc, 10000, 10001, 0)?;
    let texts = [("in", text.as_str().as_bytes())];
    let end = failed(
        "TooLarge { number: 17650003 }",
        5,
        "asptools: too large: 17650003\n",
    );
    for words in [ASPIF, SAT] {
        expect_end(&rt, alloc, words, &texts, end)?;
    }
    Ok(())
}

#[test]
fn smodels_text_has_no_edges(rt: HostRuntime) -> Result<(), Fail> {
    let end = refused(
        "Refused { file: 1, line: 0, kind: NotSmodels }",
        "asptools: in: NotSmodels\n",
    );
    expect_end(&rt, rt.alloc(), SMODELS, &[("in", EDGES.as_bytes())], end)?;
    Ok(())
}

#[test]
fn flags_come_first_and_once(rt: HostRuntime) -> Result<(), Fail> {
    let rows: [&[&str]; 4] = [
        &["lp2normal", "--smodels", "--smodels", "in", "out"],
        &["lp2normal", "in", "out", "--smodels"],
        &["lp2normal", "--smodels", "in"],
        &["lp2sat", "--smodels", "in", "out", "map"],
    ];
    expect_bad_words(&rt, rt.alloc(), &[("in", CHOICE.as_bytes())], &rows)
}

/// Choices of 10^4 atoms.
fn many_choices(alloc: Global) -> Result<String, AllocError> {
    let mut text = String::from_str(alloc, "asp 1 0 0\n")?;
    for atom in 1..10001 {
        write!(text, "1 1 1 {atom} 0 0\n")?;
    }
    text.push_str("0\n")?;
    Ok(text)
}

/// The rules of their atoms and complements.
fn many_complements(alloc: Global) -> Result<String, AllocError> {
    let mut text = String::from_str(alloc, "asp 1 0 0\n")?;
    for atom in 1..10001 {
        let other = atom + 10000;
        write!(
            text,
            "1 0 1 {atom} 0 1 -{other}\n1 0 1 {other} 0 1 -{atom}\n"
        )?;
    }
    text.push_str("0\n")?;
    Ok(text)
}

#[test]
fn normalizes_many_rules(rt: HostRuntime) -> Result<(), Fail> {
    let alloc = rt.alloc();
    let text = many_choices(alloc)?;
    let made = many_complements(alloc)?;
    expect_normal(&rt, alloc, ASPIF, text.as_str(), made.as_str())?;
    Ok(())
}
