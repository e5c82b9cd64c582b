//! What is read of aspif texts, as the aspif text that is written of it.

use super::tables::expect_written;
use aspif_format::{read, write};
use std::alloc::Global;
use std::test::Fail;

/// Writes the program of the text.
fn rewrite(alloc: Global, text: &str, out: &mut Vec<u8>) -> Result<(), Fail> {
    let program = read(alloc, text.as_bytes())?;
    write(alloc, &program, out)?;
    Ok(())
}

/// A text with every part, as it is written.
const WHOLE: &str =
    "asp 1 0 0\n1 0 1 1 0 1 -2\n1 1 2 1 2 0 0\n1 0 0 1 -3 2 1 4 -2 5\n2 2 2 1 4 -2 -5\n2 1 1 1 3\n\
     2 -7 0\n4 5 a b)c 1 1\n4 1 d 0\n4 0  0\n8 5 -6 1 1\n6 2 -2 3\n5 7 2\n0\n";

#[test]
fn reads_and_writes_aspif(rt: HostRuntime) -> Result<(), Fail> {
    let rows = [
        (WHOLE, WHOLE),
        ("asp 1 0 0\n0", "asp 1 0 0\n0\n"),
        // Each statement, with blanks; levels, externals and what is dropped.
        (
            "asp 1 0 -00\r\n\n1 1 2 1 2 0 0\n2 1 1 1 3\n2 2 2\t1 4 -2 -5\n4 5 a b)c 1 1\n4 1 d 0\n\
             5 3 1\n5 4 0\n6 1 -2\n8  5 6 1 1\n3 1 9\n7 0 9 1 1 0\n10 x\n 0 \n\n",
            "asp 1 0 0\n1 1 2 1 2 0 0\n1 0 1 3 0 0\n1 1 1 4 0 0\n2 2 2 1 4 -2 -5\n2 1 1 1 3\n\
             4 5 a b)c 1 1\n4 1 d 0\n8 5 6 1 1\n6 1 -2\n0\n",
        ),
        // The last value of an external atom counts, and none where it heads a rule.
        (
            "asp 1 0 0\n5 9 1\n5 5 1\n5 8 0\n5 3 2\n5 4 3\n5 9 0\n5 8 1\n1 0 1 5 0 1 7\n0\n",
            "asp 1 0 0\n1 0 1 5 0 1 7\n1 0 1 8 0 0\n1 1 1 9 0 0\n5 3 2\n5 4 2\n0\n",
        ),
        // Levels of one priority are joined, and so are required literals.
        (
            "asp 1 0 0\n6 1 -2\n2 1 1 1 3\n2 3 1 -2 4\n6 2 1 3\n2 1 1 2 5\n0\n",
            "asp 1 0 0\n2 3 1 -2 4\n2 1 2 1 3 2 5\n6 3 -2 1 3\n0\n",
        ),
    ];
    expect_written(&rt, rt.alloc(), "x", rewrite, &rows)
}
