//! The text of an answer, line by line, in one walk: time is linear in the text, and memory in the number of variables.

ghost use Rattle.std.specs.Prelude.{◌≡◌, ◌<◌, ◌^◌, Ok, IfOk, IfErr, OnOk};
ghost use Rattle.asp_base.specs.Faults.{Refuses};
ghost use Rattle.back_map.specs.Read.{Answered, Answers, heard_from, answer_of};
ghost use Rattle.back_map.specs.private.Reading.{Follows, Faults};

use crate::answer::{Answer, AnswerKind, AnswerRefusal};
use crate::answer_line::line;
use crate::hearing::Hearing;
use asp_scan::Scan;
use std::alloc::Global;

/// The answer of a solver to a formula over the variables 1 to `vars`, or the text's first fault with its line.
///
/// Blank lines say nothing, nor do lines whose first byte is a `c` or whose first word is `o`. One line is the status:
/// `s SATISFIABLE`, `s OPTIMUM FOUND`, `s UNSATISFIABLE`, `s UNKNOWN`, or `SAT`, `UNSAT`, `INDET`. Lines `v ..` have
/// literals, and so have, behind `SAT`, lines of numbers alone; a 0 ends them. Refused with `BadLine` at another line,
/// a second status, a literal that is no number of 64 bits or one behind the 0; with `LiteralOutOfRange` where a
/// literal's variable is above `vars`, with `BothSigns` where a literal's negation was named before, and with
/// `NoStatus` at the line of the end where there is no status. `Memory` where memory runs out.
pub fn read_answer(alloc: Global, text: &[u8], vars: u32) -> Result<Answer, AnswerRefusal>
    requires { vars < 2 ^ 31 }
    ensures answer { IfOk result (λ a. (x : Answered) × ((answer_of text.now vars ≡ Ok x) × Answers x vars a)) }
    ensures fault { IfErr result (λ refusal. Refuses (answer_of text.now vars) refusal) }
{
    let mut scan = Scan::new(text);
    let mut hearing = Hearing::new(alloc, vars)?;
    if let Err(kind) = hear(&mut scan, &mut hearing) {
        return Err(AnswerRefusal::At {
            line: scan.line(),
            kind,
        });
    }
    hearing.answer(alloc, scan.line())
}

/// The lines that are still to come. At a fault the walk stands at its line, and else at the line of the end.
fn hear(scan: &mut Scan<'_>, hearing: &mut Hearing) -> Result<(), AnswerKind>
    ensures ok { OnOk result (Follows (λ n. heard_from n scan.old.ahead) hearing.old hearing.new) }
    ensures err { IfErr result (λ kind. Faults (λ n. heard_from n scan.old.ahead) hearing.old
        (record { line = scan.new.line.number; kind = kind })) }
    ensures end { OnOk result (scan.new.line.number ≡ scan.old.last) }
{
    'lines: while scan.next_line() {
        line(scan, hearing)?;
    }
    Ok(())
}
