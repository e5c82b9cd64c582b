//! The trait of all that a program reads and writes.

ghost use Rattle.std.specs.Prelude.{◌≡◌, None, OnOk, OnErr, IfOk};
ghost use Rattle.asp_base.specs.Desk.{DeskState, BeginsReading, FailsToBeginReading, Reads, FailsToRead, BeginsWriting, FailsToBeginWriting, Writes, FailsToWrite, EndsWriting, FailsToEndWriting, Says, FailsToSay};

use crate::faults::Failed;

/// The outside of a program: names that are read, names that are written, standard output and
/// standard error.
///
/// A call that fails raises a count of faults, of the reading calls or of the writing ones, and
/// notes the place: the name, standard output, or nowhere. Where a count stands at the last `u64`
/// it stays. A call that answers `Ok` leaves counts and places. No call changes more of what the
/// desk tells than its own lines say.
pub trait Desk<'a> {
    /// All that the desk tells of itself.
    ghost state: { Self → DeskState };

    /// Begins to read the name from its start, and ends an earlier reading, also where it fails.
    ///
    /// `Failed` where the name can't be read; no reading is then begun.
    fn begin_read(&mut self, name: &'a str) -> Result<(), Failed>
        ensures ok { OnOk result (BeginsReading (state self.old) (state self.new) name.now) }
        ensures err { OnErr result (FailsToBeginReading (state self.old) (state self.new) name.now) };

    /// Gives the next bytes of the begun reading, in the front of the slice, and answers how many:
    /// 0 exactly at the end, or on an empty slice.
    ///
    /// `Failed` where no reading is begun or no byte can be read; on an empty slice only the former.
    fn read(&mut self, into: &mut [u8]) -> Result<usize, Failed>
        ensures ok { IfOk result (λ n. Reads (state self.old) (state self.new) into.new n) }
        ensures err { OnErr result (FailsToRead (state self.old) (state self.new) into.new) };

    /// Begins to write under the name, from nothing. No writing may be begun.
    ///
    /// `Failed` where the name can't be written; it then has what it had, or nothing.
    fn begin_write(&mut self, name: &'a str) -> Result<(), Failed>
        requires { (state self.old).writing ≡ None }
        ensures ok { OnOk result (BeginsWriting (state self.old) (state self.new) name.now) }
        ensures err { OnErr result (FailsToBeginWriting (state self.old) (state self.new) name.now) };

    /// Appends the first of the bytes to the begun writing, and answers how many: at least one, or 0
    /// on an empty slice.
    ///
    /// `Failed` where no writing is begun or no byte is taken; nothing is then appended. On an empty
    /// slice only the former.
    fn write(&mut self, bytes: &[u8]) -> Result<usize, Failed>
        ensures ok { IfOk result (λ n. Writes (state self.old) (state self.new) bytes.now n) }
        ensures err { OnErr result (FailsToWrite (state self.old) (state self.new) bytes.now) };

    /// Ends the begun writing, also where it fails.
    ///
    /// `Failed` where no writing is begun, or what was written can't be handed on.
    fn end_write(&mut self) -> Result<(), Failed>
        ensures ok { OnOk result (EndsWriting (state self.old) (state self.new)) }
        ensures err { OnErr result (FailsToEndWriting (state self.old) (state self.new)) };

    /// Says the bytes on standard output. No writing may be begun.
    ///
    /// `Failed` where not all of them can be said; the first of them may then be said. Never on an
    /// empty slice.
    fn say(&mut self, bytes: &[u8]) -> Result<(), Failed>
        requires { (state self.old).writing ≡ None }
        ensures ok { OnOk result (Says (state self.old) (state self.new) bytes.now) }
        ensures err { OnErr result (FailsToSay (state self.old) (state self.new) bytes.now) };

    /// Complains on standard error. Nothing is told of it.
    fn complain(&mut self, bytes: &[u8])
        ensures { state self.new ≡ state self.old };
}
