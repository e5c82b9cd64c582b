//! Writes the texts that a command makes.

ghost use Rattle.std.specs.Prelude.{◌≡◌, ◌+◌, ◌≤◌, ◌^◌, None, OnOk, OnErr, IfErr, length, take};
ghost use Rattle.job_shell.specs.Reads.{AllDiffer, AtPlace, names_of};
ghost use Rattle.job_shell.specs.private.Written.{Wrote, FailsToWriteText, WroteEach, FailsToWriteAt};

use crate::output::Output;
use asp_base::{Desk, Failed};

/// Writes each text under its name, in their order. It answers the place of the name at which the writing failed; the
/// first of the names has this one.
pub(crate) fn write_texts<'a, D: Desk<'a>>(
    desk: &mut D,
    names: &[&'a str],
    texts: &[Output],
    first: u32,
) -> Result<(), u32>
    requires idle { (D.state desk.old).writing ≡ None }
    requires few { first + length names.now ≤ 2 ^ 32 }
    requires enough { length texts.now ≤ length names.now }
    requires differ { AllDiffer (names_of names.now) }
    ensures ok { OnOk result (WroteEach (D.state desk.old) (D.state desk.new)
        (take (length texts.now) (names_of names.now)) texts.now) }
    ensures err { IfErr result (λ file. AtPlace first (names_of names.now) file
        (FailsToWriteAt (D.state desk.old) (D.state desk.new) texts.now)) }
{
    for place in 0..texts.len() {
        match write_text(desk, names[place], texts[place].text()) {
            Ok(()) => (),
            Err(Failed) => return Err(first + place as u32),
        }
    }
    Ok(())
}

/// Writes the whole text under the name.
fn write_text<'a, D: Desk<'a>>(desk: &mut D, name: &'a str, text: &[u8]) -> Result<(), Failed>
    requires { (D.state desk.old).writing ≡ None }
    ensures ok { OnOk result (Wrote (D.state desk.old) (D.state desk.new) name.now text.now) }
    ensures err { OnErr result (FailsToWriteText (D.state desk.old) (D.state desk.new) name.now text.now) }
{
    desk.begin_write(name)?;
    let mut rest = text;
    while !rest.is_empty() {
        let count = desk.write(rest)?;
        rest = &rest[count..];
    }
    desk.end_write()
}
