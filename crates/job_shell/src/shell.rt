//! The shell of all jobs.

ghost use Rattle.std.specs.Prelude.{◌≡◌, ◌+◌, ◌<◌, ◌≤◌, ◌^◌, None, length};
ghost use Rattle.job_shell.specs.Ran.{Promise, Ran, Completes, TooLongExactly};
ghost use Rattle.job_shell.specs.Reads.{AllDiffer, names_of};
ghost use Rattle.job_shell.specs.private.Delivers.{Delivers};

use crate::command::{Command, Reply};
use crate::ended::Ended;
use crate::reading::read_texts;
use crate::writing::write_texts;
use asp_base::{Desk, Failed, Memory};
use std::alloc::Global;

/// Reads the texts of a job, asks the command for its reply, writes what is made and says what is said.
///
/// The texts are read in the order of their names, up to the first that is too long or can't be read. Nothing is
/// written or said before the reply is known, and nothing is said before all that is made is written.
pub fn run_job<'a, C: Command, D: Desk<'a>>(
    alloc: Global,
    command: &C,
    desk: &mut D,
    reads: &[&'a str],
    writes: &[&'a str],
) -> Ended<C::Answer>
    requires idle { (D.state desk.old).writing ≡ None }
    requires inputs { length reads.now ≡ C.inputs command.now }
    requires outputs { length writes.now ≡ C.outputs command.now }
    requires few { length reads.now + length writes.now < 2 ^ 16 }
    requires reads_differ { AllDiffer (names_of reads.now) }
    requires writes_differ { AllDiffer (names_of writes.now) }
    ensures ran { Ran
        (record { answers = C.answers command.now; makes = C.makes command.now; says = C.says command.now })
        (names_of reads.now) (names_of writes.now) (D.state desk.old) (D.state desk.new) result }
    ensures completes { Completes
        (record { answers = C.answers command.now; makes = C.makes command.now; says = C.says command.now })
        (names_of reads.now) (D.state desk.old) (D.state desk.new) result }
    ensures too_long { TooLongExactly 1 (names_of reads.now) (D.state desk.new) result }
{
    match read_texts(alloc, desk, reads) {
        Ok(texts) => match command.reply(alloc, texts) {
            Ok(reply) => deliver(desk, writes, reads.len() as u32 + 1, reply),
            Err(Memory) => Ended::Memory,
        },
        Err(ended) => ended,
    }
}

/// Writes what is made and says what is said with an answer. The first of the names has this place.
fn deliver<'a, A: Drop, D: Desk<'a>>(
    desk: &mut D,
    writes: &[&'a str],
    first: u32,
    reply: Reply<A>,
) -> Ended<A>
    requires idle { (D.state desk.old).writing ≡ None }
    requires few { first + length writes.now ≤ 2 ^ 32 }
    requires enough { length reply.made ≤ length writes.now }
    requires differ { AllDiffer (names_of writes.now) }
    ensures { Delivers (names_of writes.now) first reply.answer reply.made reply.said
        (D.state desk.old) (D.state desk.new) result }
{
    match write_texts(desk, writes, reply.made.as_slice(), first) {
        Ok(()) => (),
        Err(file) => return Ended::WriteFault { file },
    }
    match desk.say(reply.said.as_slice()) {
        Ok(()) => Ended::Answered(reply.answer),
        Err(Failed) => Ended::WriteFault { file: 0 },
    }
}
