//! A run over a desk in memory, and all that it is to leave.

ghost use Rattle.std.specs.Prelude.{◌≡◌, ◌≤◌, None, IfOk};
ghost use Rattle.asp_base.specs.Mem.{mem_state};

use super::heard::HeardDesk;
use asp_base::{MemDesk, Memory, Words};
use asp_tools::{Outcome, run};
use std::alloc::Global;
use std::process::Abort;
use std::test::Fail;

/// How a run is to end.
#[derive(Clone, Copy)]
pub(crate) struct End<'t> {
    /// A front of the outcome, as it is shown for debugging.
    pub(crate) outcome: &'t str,
    /// The exit status.
    pub(crate) status: u8,
    /// What stands on standard output.
    pub(crate) said: &'t str,
    /// What stands on standard error.
    pub(crate) complaint: &'t str,
}

/// The job is done, and says this.
pub(crate) const fn done(said: &str) -> End<'_> {
    End {
        outcome: "Done",
        status: 0,
        said,
        complaint: "",
    }
}

/// The job is not done, and this is complained.
pub(crate) const fn failed<'t>(outcome: &'t str, status: u8, complaint: &'t str) -> End<'t> {
    End {
        outcome,
        status,
        said: "",
        complaint,
    }
}

/// A text is refused so.
pub(crate) const fn refused<'t>(outcome: &'t str, complaint: &'t str) -> End<'t> {
    failed(outcome, 2, complaint)
}

/// What was given is not accepted for this reason.
pub(crate) const fn rejected<'t>(outcome: &'t str, said: &'t str) -> End<'t> {
    End {
        outcome,
        status: 3,
        said,
        complaint: "",
    }
}

/// A run over a desk in memory: its words, the texts that are there by their names, how it is to end, and the texts
/// that it is to make. Each may lie in another place, so each has its own lifetime.
#[derive(Clone, Copy)]
pub(crate) struct Run<'w, 't, 'e, 'm> {
    pub(crate) words: &'w [&'w str],
    pub(crate) texts: &'t [(&'t str, &'t [u8])],
    pub(crate) end: End<'e>,
    pub(crate) made: &'m [(&'m str, &'m [u8])],
}

/// The run leaves just what it is to leave.
pub(crate) fn expect_run(
    rt: &impl Abort,
    alloc: Global,
    wanted: &Run<'_, '_, '_, '_>,
) -> Result<(), Memory> {
    expect_failing_run(rt, alloc, 1 << 16, &[], wanted)
}

/// The same, over a desk that moves at most so many bytes a call, and whose calls of these numbers fail.
pub(crate) fn expect_failing_run(
    rt: &impl Abort,
    alloc: Global,
    most: usize,
    failing: &[u64],
    wanted: &Run<'_, '_, '_, '_>,
) -> Result<(), Memory>
    requires { 1 ≤ most }
{
    let words = words_of(alloc, wanted.words)?;
    let desk = desk_with(alloc, most, wanted.texts)?;
    let mut desk = HeardDesk::new(alloc, desk, failing)?;
    let outcome = run(alloc, &words, &mut desk);
    expect_outcome(rt, alloc, &outcome, &wanted.end)?;
    expect_left(rt, desk, wanted);
    Ok(())
}

/// A run over these texts makes nothing and ends so.
pub(crate) fn expect_end(
    rt: &impl Abort,
    alloc: Global,
    words: &[&str],
    texts: &[(&str, &[u8])],
    end: End<'_>,
) -> Result<(), Memory> {
    let run = Run {
        words,
        texts,
        end,
        made: &[],
    };
    expect_run(rt, alloc, &run)
}

/// A run with the words of any row over these texts ends with bad words.
pub(crate) fn expect_bad_words(
    rt: &impl Abort,
    alloc: Global,
    texts: &[(&str, &[u8])],
    rows: &[&[&str]],
) -> Result<(), Fail> {
    let end = failed("BadWords", 1, "asptools: bad words\n");
    for words in rows {
        expect_end(rt, alloc, words, texts, end)?;
    }
    Ok(())
}

/// A run with these words makes a formula and a map of the text of a program.
pub(crate) fn expect_translation<'t>(
    rt: &impl Abort,
    alloc: Global,
    words: &'t [&'t str],
    text: &'t [u8],
    formula: &'t [u8],
    map: &'t [u8],
) -> Result<(), Memory> {
    let made = [("out", formula), ("map", map)];
    let run = Run {
        words,
        texts: &[("in", text)],
        end: done(""),
        made: &made,
    };
    expect_run(rt, alloc, &run)
}

/// A run with these words makes of the text of each row the row's formula and map.
pub(crate) fn expect_translations(
    rt: &impl Abort,
    alloc: Global,
    words: &[&str],
    rows: &[(&str, &str, &str)],
) -> Result<(), Fail> {
    for (text, formula, map) in rows {
        expect_translation(
            rt,
            alloc,
            &*words,
            text.as_bytes(),
            formula.as_bytes(),
            map.as_bytes(),
        )?;
    }
    Ok(())
}

/// A run of `check` over these texts ends so.
pub(crate) fn expect_check<'t>(
    rt: &impl Abort,
    alloc: Global,
    text: &'t [u8],
    atoms: &'t [u8],
    end: End<'_>,
) -> Result<(), Memory> {
    let texts = [("in", text), ("atoms", atoms)];
    expect_end(rt, alloc, &["check", "in", "atoms"], &texts, end)
}

/// A run of `back` over these texts ends so.
pub(crate) fn expect_judgement<'t>(
    rt: &impl Abort,
    alloc: Global,
    formula: &'t [u8],
    map: &'t [u8],
    answer: &'t [u8],
    end: End<'_>,
) -> Result<(), Memory> {
    let texts = [("f", formula), ("m", map), ("a", answer)];
    expect_end(rt, alloc, &["back", "f", "m", "a"], &texts, end)
}

/// An answer to the formula that a run with these words makes of a program, with its map, is judged so.
pub(crate) fn expect_judged(
    rt: &impl Abort,
    alloc: Global,
    words: &[&str],
    text: &str,
    answer: &str,
    end: End<'_>,
) -> Result<(), Memory> {
    let formula = made_of(rt, alloc, words, text.as_bytes(), "out")?;
    let map = made_of(rt, alloc, words, text.as_bytes(), "map")?;
    expect_judgement(
        rt,
        alloc,
        formula.as_slice(),
        map.as_slice(),
        answer.as_bytes(),
        end,
    )
}

/// What a run over one text makes under this name. The run is done.
pub(crate) fn made_of(
    rt: &impl Abort,
    alloc: Global,
    words: &[&str],
    text: &[u8],
    name: &str,
) -> Result<Vec<u8>, Memory> {
    let words = words_of(alloc, words)?;
    let mut desk = desk_with(alloc, 1 << 16, &[("in", text)])?;
    let outcome = run(alloc, &words, &mut desk);
    assert_eq!(rt; outcome.status(), 0);
    match desk.made_under(name) {
        Some(made) => Ok(Vec::from_slice(alloc, made)?),
        None => Ok(Vec::new(alloc)),
    }
}

/// These words.
pub(crate) fn words_of(alloc: Global, list: &[&str]) -> Result<Words, Memory> {
    let mut words = Words::new(alloc);
    for word in list {
        words.push(word)?;
    }
    Ok(words)
}

/// A desk that moves at most so many bytes a call and holds these texts.
pub(crate) fn desk_with<'a>(
    alloc: Global,
    most: usize,
    texts: &[(&str, &[u8])],
) -> Result<MemDesk<'a>, Memory>
    requires { 1 ≤ most }
    ensures { IfOk result (λ d. (mem_state d).writing ≡ None) }
{
    let mut desk = MemDesk::new(alloc, most);
    for (name, bytes) in texts {
        desk.hold(name, bytes)?;
    }
    Ok(desk)
}

/// The outcome is this one, with this status.
pub(crate) fn expect_outcome(
    rt: &impl Abort,
    alloc: Global,
    outcome: &Outcome,
    end: &End<'_>,
) -> Result<(), Memory> {
    let shown = format!(in alloc; "{outcome:?}")?;
    assert!(rt;
        shown.as_str().starts_with(end.outcome),
        "{shown} in place of {}",
        end.outcome
    );
    assert_eq!(rt; outcome.status(), end.status);
    Ok(())
}

/// The desk has heard and made just what it was to.
fn expect_left(rt: &impl Abort, desk: HeardDesk<'_>, wanted: &Run<'_, '_, '_, '_>) {
    let (desk, heard) = desk.into_parts();
    assert!(rt;
        are_same(desk.all_said(), wanted.end.said.as_bytes()),
        "said with {}",
        wanted.end.outcome
    );
    assert!(rt;
        are_same(heard.as_slice(), wanted.end.complaint.as_bytes()),
        "for {}",
        wanted.end.complaint
    );
    for word in wanted.words {
        assert!(rt;
            is_made(&desk, word, text_under(wanted.made, word)),
            "under {word}"
        );
    }
}

/// Whether this text, or for none nothing, was made under the name.
fn is_made(desk: &MemDesk<'_>, name: &str, wanted: Option<&[u8]>) -> bool {
    match (desk.made_under(name), wanted) {
        (Some(made), Some(text)) => are_same(made, text),
        (None, None) => true,
        _ => false,
    }
}

/// The text of this name.
fn text_under<'t>(texts: &'t [(&'t str, &'t [u8])], name: &str) -> Option<&'t [u8]> {
    for (other, text) in texts {
        if *other == name {
            return Some(text);
        }
    }
    None
}

/// Whether these are the same bytes.
pub(crate) fn are_same(one: &[u8], other: &[u8]) -> bool {
    one == other
}
