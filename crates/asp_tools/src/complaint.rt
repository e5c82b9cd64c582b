//! What a run says on standard error.

ghost use Rattle.std.specs.Prelude.{◌≡◌, ◌+◌, ◌≤◌, length};
ghost use Rattle.arrayvec.specs.ArrayVec.{array_vec_len};

use crate::job::Job;
use crate::outcome::{Kind, Outcome};
use arrayvec::ArrayVec;
use itoa::Buffer;

/// A name is cut at so many bytes.
const NAME_LIMIT: usize = 200;

/// The line that a run says on standard error, at most 360 bytes. It lies in place and takes no memory.
#[derive(Drop)]
pub(crate) struct Complaint {
    line: ArrayVec<u8, 360>,
}

/// The line of an outcome, None where the outcome is said on standard output or the job was done. A file goes by its
/// name in the job, cut at 200 bytes or before the character that would pass them.
pub(crate) fn complaint_of(outcome: &Outcome, job: Option<&Job<'_>>) -> Option<Complaint> {
    if let Outcome::Done | Outcome::Rejected(_) | Outcome::NoModelGiven = outcome {
        return None;
    }
    let mut complaint = Complaint {
        line: ArrayVec::new(),
    };
    complaint.put(b"asptools: ");
    complaint.put_outcome(outcome, job);
    complaint.put(b"\n");
    Some(complaint)
}

impl Complaint {
    /// The bytes of the line, with its line end.
    pub(crate) fn as_bytes(&self) -> &[u8]
        ensures { length result.now ≤ 360 }
    {
        self.line.as_slice()
    }

    /// Puts what the outcome says, without the program's name and the line end.
    fn put_outcome(&mut self, outcome: &Outcome, job: Option<&Job<'_>>)
        requires { array_vec_len self.old.line ≤ 10 }
        ensures { array_vec_len self.new.line ≤ 359 }
    {
        match outcome {
            Outcome::Done | Outcome::Rejected(_) | Outcome::NoModelGiven => {}
            Outcome::BadWords => self.put(b"bad words"),
            Outcome::Refused { file, line, kind } => {
                self.put_refusal(name_of(*file, job), *line, *kind);
            }
            Outcome::TooLarge { number } => {
                self.put(b"too large: ");
                self.put_number(*number);
            }
            Outcome::ReadFault { file } => {
                self.put(b"cannot read ");
                self.put_name(name_of(*file, job));
            }
            Outcome::WriteFault { file } => {
                self.put(b"cannot write ");
                self.put_name(name_of(*file, job));
            }
            Outcome::Memory => self.put(b"out of memory"),
        }
    }

    /// Puts a file's name, the line where it is not 0, and what is wrong there.
    fn put_refusal(&mut self, name: &str, line: u64, kind: Kind)
        requires { array_vec_len self.old.line ≤ 10 }
        ensures { array_vec_len self.new.line ≤ 359 }
    {
        self.put_name(name);
        self.put_line_number(line);
        self.put(b": ");
        self.put(kind.name().as_bytes());
        self.put_numbers(kind);
    }

    /// Puts the numbers of a kind that has some, a space before each.
    fn put_numbers(&mut self, kind: Kind)
        requires { array_vec_len self.old.line ≤ 270 }
        ensures { array_vec_len self.new.line ≤ 359 }
    {
        match kind {
            Kind::Mismatch {
                formula_vars,
                map_vars,
            } => {
                self.put(b" ");
                self.put_number(formula_vars.into());
                self.put(b" ");
                self.put_number(map_vars.into());
            }
            Kind::SumTooLarge { priority } => {
                self.put(b" ");
                self.put_priority(priority);
            }
            _ => {}
        }
    }

    /// Puts a colon and the number of a line. Line 0 is the whole file, and puts nothing.
    fn put_line_number(&mut self, line: u64)
        requires { array_vec_len self.old.line ≤ 210 }
        ensures { array_vec_len self.new.line ≤ array_vec_len self.old.line + 41 }
    {
        if line != 0 {
            self.put(b":");
            self.put_number(line);
        }
    }

    fn put_name(&mut self, name: &str)
        requires { array_vec_len self.old.line ≤ 100 }
        ensures { array_vec_len self.new.line ≤ array_vec_len self.old.line + 200 }
    {
        self.put(cut(name.as_bytes()));
    }

    fn put_priority(&mut self, priority: i32)
        requires { array_vec_len self.old.line ≤ 319 }
        ensures { array_vec_len self.new.line ≤ array_vec_len self.old.line + 40 }
    {
        let mut buffer = Buffer::new();
        self.put(buffer.format(priority).as_bytes());
    }

    fn put_number(&mut self, number: u64)
        requires { array_vec_len self.old.line ≤ 319 }
        ensures { array_vec_len self.new.line ≤ array_vec_len self.old.line + 40 }
    {
        let mut buffer = Buffer::new();
        self.put(buffer.format(number).as_bytes());
    }

    /// Puts all of the piece: there must be room for it.
    fn put(&mut self, piece: &[u8])
        requires { array_vec_len self.old.line + length piece.now ≤ 360 }
        ensures { array_vec_len self.new.line ≡ array_vec_len self.old.line + length piece.now }
    {
        // It is Ok, since there is room.
        let _ = self.line.try_extend_from_slice(piece);
    }
}

/// The bytes of a name, or as many as fit the limit up to the end of a character.
fn cut(name: &[u8]) -> &[u8]
    ensures { length result.now ≤ 200 }
{
    if name.len() <= NAME_LIMIT {
        return name;
    }
    let mut end = NAME_LIMIT;
    while end > 0 && is_continuation(name[end]) {
        end -= 1;
    }
    &name[..end]
}

/// Whether the byte goes on with a character.
fn is_continuation(byte: u8) -> bool {
    byte & 0b1100_0000 == 0b1000_0000
}

/// The name of a file by its place among the job's names, from 1; 0 is standard output.
fn name_of<'a>(file: u32, job: Option<&Job<'a>>) -> &'a str {
    match (file, job) {
        (0, _) => "standard output",
        (_, Some(job)) => job.name_of(file),
        _ => "",
    }
}
