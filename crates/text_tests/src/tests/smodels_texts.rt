//! What is read of smodels texts, as the aspif text that is written of it, and the smodels texts of aspif ones.

ghost use Rattle.std.specs.Prelude.{IsTrue};
ghost use Rattle.std.specs.List.{AllByRecursion};
ghost use Rattle.ground_program.specs.Facts.{IsShort};

use super::tables::{are_same, expect_written};
use ground_program::{Level, Program, ReadRefusal, size};
use smodels_format::{WriteRefusal, read, write};
use std::alloc::Global;
use std::test::Fail;

/// The program of a short text.
pub(crate) fn program_of(alloc: Global, text: &str) -> Result<Program, ReadRefusal> {
    if text.len() > 4096 {
        return Err(ReadRefusal::Memory);
    }
    read(alloc, text.as_bytes())
}

/// Writes the program of the smodels text as aspif.
fn write_aspif(alloc: Global, text: &str, out: &mut Vec<u8>) -> Result<(), Fail> {
    let program = program_of(alloc, text)?;
    aspif_format::write(alloc, &program, out)?;
    Ok(())
}

#[test]
fn reads_smodels(rt: HostRuntime) -> Result<(), Fail> {
    let rows = [
        ("0\n0\nB+\n0\nB-\n0\n", "asp 1 0 0\n0\n"),
        (
            "3 3 1 2 3 0 0\n2 4 3 0 2 1 2 3\n0\n1 a\n2 b\n3 c\n4 d\n0\nB+\n0\nB-\n0\n1\n",
            "asp 1 0 0\n1 1 3 1 2 3 0 0\n1 0 1 4 1 2 3 1 1 2 1 3 1\n4 1 a 1 1\n4 1 b 1 2\n4 1 c 1 3\n4 1 d 1 4\n0\n",
        ),
        // Every kind of line, with blanks.
        (
            "\n 1 1 2 1 2 3\r\n5 1 4 2 1 3 2 1 5\n6 0 2 1 7 8 3 5\n6 0 1 0 7 1\n8 0 1 0 5\n\
             8 1 6 0 0\n0\n7  a b)\tc  \n0\nB+\n3\n0\nB-\n5\n0\n \n",
            "asp 1 0 0\n1 0 1 1 0 2 -2 3\n1 0 1 1 1 4 2 -3 1 2 5\n1 0 0 0 1 5\n1 0 1 6 0 0\n\
             2 1 1 7 1\n2 0 2 -7 3 8 5\n4 8 a b)\tc   1 7\n6 2 3 -5\n0\n",
        ),
    ];
    expect_written(&rt, rt.alloc(), "", write_aspif, &rows)
}

fn are_short(levels: &[Level]) -> bool
    ensures { IsTrue result → AllByRecursion (λ level. IsShort level.items) levels.now }
{
    for level in levels {
        if level.items.as_slice().len() > 1 << 24 {
            return false;
        }
    }
    true
}

/// Writes a program that is small enough, behind what is there.
fn put(alloc: Global, program: &Program, out: &mut Vec<u8>) -> Result<(), WriteRefusal> {
    if size(program) > 1000 || !are_short(program.levels.as_slice()) {
        return Err(WriteRefusal::Memory);
    }
    write(alloc, program, out)
}

/// Writes the program of the aspif text as smodels.
fn write_smodels(alloc: Global, text: &str, out: &mut Vec<u8>) -> Result<(), Fail> {
    let program = aspif_format::read(alloc, text.as_bytes())?;
    put(alloc, &program, out)?;
    Ok(())
}

#[test]
fn writes_smodels(rt: HostRuntime) -> Result<(), Fail> {
    let rows = [
        // A name whose condition is empty.
        (
            "asp 1 0 0\n1 0 1 1 0 1 -2\n1 0 1 2 0 1 -1\n4 1 a 1 1\n4 4 fact 0\n0\n",
            "1 1 1 1 2\n1 2 1 1 1\n1 3 0 0\n0\n1 a\n3 fact\n0\nB+\n0\nB-\n0\n1\n",
        ),
        // A choice over weights with a bound below 0, a rule without head, two levels, literals of both signs that are
        // required.
        (
            "asp 1 0 0\n1 1 1 3 1 -2 2 1 3 -2 5\n1 0 0 0 1 1\n2 5 1 -2 7\n2 -1 1 1 8\n6 2 -2 1\n0\n",
            "5 5 0 2 1 2 1 5 3\n3 1 3 1 0 5\n1 4 1 0 1\n6 0 1 0 1 8\n6 0 1 1 2 7\n0\n0\nB+\n1\n0\nB-\n2\n4\n0\n1\n",
        ),
    ];
    expect_written(&rt, rt.alloc(), "x", write_smodels, &rows)
}

/// Whether the text's program is refused, and what was there is as it was.
fn is_refused(alloc: Global, text: &str) -> Result<bool, Fail> {
    let program = aspif_format::read(alloc, text.as_bytes())?;
    let mut out = Vec::from_slice(alloc, b"text")?;
    let refused = put(alloc, &program, &mut out) == Err(WriteRefusal::NotSmodels);
    Ok(refused && are_same(out.as_slice(), b"text"))
}

#[test]
fn refuses_what_it_cannot_say(rt: HostRuntime) -> Result<(), Fail> {
    // An edge, a weight of a level below 0, names that are empty, begin with a blank or end with a carriage return.
    let texts = [
        "asp 1 0 0\n8 1 2 1 1\n0\n",
        "asp 1 0 0\n2 0 1 1 -1\n0\n",
        "asp 1 0 0\n4 0  1 1\n0\n",
        "asp 1 0 0\n4 2  a 1 1\n0\n",
        "asp 1 0 0\n4 2 a\r 1 1\n0\n",
    ];
    let alloc = rt.alloc();
    for text in texts {
        assert!(rt; is_refused(alloc, text)?, "{text:?}");
    }
    Ok(())
}
