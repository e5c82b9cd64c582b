//! Reads a whole text: the header, and then one statement a line, which is added to the program as it comes. Each line
//! is walked once, and nothing of the text is kept but names.

ghost use Rattle.std.specs.Prelude.{◌≡◌, Ok, OnOk, IfOk, IfErr};
ghost use Rattle.asp_base.specs.Faults.{Refuses};
ghost use Rattle.asp_scan.specs.Feeds.{HaveNoFeed};
ghost use Rattle.aspif_format.specs.Read.{statements, aspif_of};

use crate::header::header_line;
use crate::statement::{Step, statement};
use asp_scan::Scan;
use ground_program::{Program, ProgramBuilder, ReadKind, ReadRefusal};
use statement_fields::ended_text;
use std::alloc::Global;

/// The program of an aspif text. Refused with the first fault and its line, where the tokens are checked from left to
/// right; a text without header or without end is refused with `BadHeader` or `NoEnd` at its last line, and want of
/// memory is `Memory`.
pub fn read(alloc: Global, text: &[u8]) -> Result<Program, ReadRefusal>
    ensures program { IfOk result (λ program. aspif_of text.now ≡ Ok program) }
    ensures fault { IfErr result (λ refusal. Refuses (aspif_of text.now) refusal) }
{
    let mut scan = Scan::new(text);
    let mut builder = ProgramBuilder::new(alloc);
    header_line(&mut scan)?;
    statements(alloc, &mut scan, &mut builder)?;
    Ok(builder.finish()?)
}

/// The statements of the lines, up to the end of the text.
fn statements(
    alloc: Global,
    scan: &mut Scan<'_>,
    builder: &mut ProgramBuilder,
) -> Result<(), ReadRefusal>
    requires { HaveNoFeed scan.old.ahead }
    ensures ok { OnOk result (statements scan.old.last builder.old scan.old.ahead ≡ Ok builder.new) }
    ensures err { IfErr result (λ refusal. Refuses (statements scan.old.last builder.old scan.old.ahead) refusal) }
{
    'lines: while scan.next_line() {
        match statement(alloc, scan, builder) {
            Ok(Step::On) => {}
            Ok(Step::End) => return ended_text(scan),
            Err(fault) => return Err(fault.at(scan.line())),
        }
    }
    Err(ReadRefusal::At {
        line: scan.line(),
        kind: ReadKind::NoEnd,
    })
}
