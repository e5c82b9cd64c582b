//! Runs over real files, with standard output and standard error as files too.

use super::large::{pairs_formula, pairs_map, pairs_program};
use super::outside::Outside;
use super::runs::words_of;
use super::samples::{CHOICE_FORMULA, SHOWN, SHOWN_MAP};
use asp_base::{HostDesk, Memory};
use asp_tools::run;
use std::alloc::Global;
use std::fs;
use std::rt::Files;
use std::test::Fail;

/// The exit status of a run over the files here, with these files for standard output and standard error.
fn status_of<R: Files>(
    files: &R,
    alloc: Global,
    output: &'static str,
    errors: &'static str,
    words: &[&str],
) -> Result<u8, Memory> {
    let words = words_of(alloc, words)?;
    let outside = Outside {
        files,
        output,
        errors,
    };
    let mut desk = HostDesk::new(outside);
    Ok(run(alloc, &words, &mut desk).status())
}

#[test]
fn goes_there_and_back(rt: HostRuntime) -> Result<(), Fail> {
    let alloc = rt.alloc();
    fs::write(&rt, "said", "")?;
    fs::write(&rt, "complained", "")?;
    fs::write(&rt, "in", SHOWN)?;
    fs::write(&rt, "answer", "s SATISFIABLE\nv 1 -2 0\n")?;
    fs::write(&rt, "atoms", "2\n")?;
    fs::write(&rt, "both", "1 2\n")?;
    let rows: [(&[&str], u8); 4] = [
        (&["lp2sat", "in", "out", "map"], 0),
        (&["back", "out", "map", "answer"], 0),
        (&["check", "in", "atoms"], 0),
        (&["check", "in", "both"], 3),
    ];
    for (words, status) in rows {
        assert_eq!(rt; status_of(&rt, alloc, "said", "complained", words)?, status);
    }
    let texts = [
        ("out", CHOICE_FORMULA),
        ("map", SHOWN_MAP),
        ("said", "accepted\nshow a\nstable\nshow b\nunfounded 1 2\n"),
        ("complained", ""),
    ];
    for (name, text) in texts {
        assert_eq!(rt; fs::read_to_string(&rt, name)?.as_str(), text);
    }
    Ok(())
}

#[test]
fn complains_of_real_files(rt: HostRuntime) -> Result<(), Fail> {
    let alloc = rt.alloc();
    fs::write(&rt, "unsaid", "")?;
    fs::write(&rt, "faults", "")?;
    fs::write(&rt, "sample.aspif", SHOWN)?;
    fs::write(&rt, "one", "1\n")?;
    let rows: [(&'static str, &[&str], u8); 6] = [
        ("unsaid", &["check"], 1),
        ("unsaid", &["check", "sample.aspif", "sample.aspif"], 1),
        ("unsaid", &["check", "one", "sample.aspif"], 2),
        ("unsaid", &["check", "sample.aspif", "nothing"], 6),
        (
            "unsaid",
            &["lp2sat", "sample.aspif", "nowhere/\u{e9}", "map"],
            7,
        ),
        ("nowhere/unsaid", &["check", "sample.aspif", "one"], 7),
    ];
    for (output, words, status) in rows {
        assert_eq!(rt; status_of(&rt, alloc, output, "faults", words)?, status);
    }
    let faults = "asptools: bad words\nasptools: bad words\nasptools: one:1: Missing\n\
         asptools: cannot read nothing\nasptools: cannot write nowhere/\u{e9}\n\
         asptools: cannot write standard output\n";
    assert_eq!(rt; fs::read_to_string(&rt, "faults")?.as_str(), faults);
    assert_eq!(rt; fs::read_to_string(&rt, "unsaid")?.as_str(), "");
    Ok(())
}

#[test]
fn translates_a_large_file(rt: HostRuntime) -> Result<(), Fail> {
    let alloc = rt.alloc();
    fs::write(&rt, "large", pairs_program(alloc)?.as_str())?;
    let words = ["lp2sat", "large", "formula", "table"];
    assert_eq!(rt; status_of(&rt, alloc, "said", "complained", &words)?, 0);
    assert_eq!(rt; fs::read_to_string(&rt, "formula")?, pairs_formula(alloc)?);
    assert_eq!(rt; fs::read_to_string(&rt, "table")?, pairs_map(alloc)?);
    Ok(())
}
