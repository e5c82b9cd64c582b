//! A desk in memory whose calls fail where a test wants it.

ghost use Rattle.std.specs.Prelude.{◌≡◌, ◌⊎◌, ◌↔◌, None, OnOk, OnErr, IfOk, IsTrue, IsErr, Contains};
ghost use Rattle.asp_base.specs.Desk.{BeginsReading, FailsToBeginReading, Reads, FailsToRead, BeginsWriting, FailsToBeginWriting, Writes, FailsToWrite, EndsWriting, FailsToEndWriting, Says, FailsToSay};

use super::{MemDesk, Reading};
use crate::desk::Desk;
use crate::faults::{Failed, Memory};
use crate::place::Place;

/// A desk in memory whose calls of some numbers fail.
///
/// The calls of all methods are counted together, from 1; `complain` is not counted, nor is a call
/// on an empty slice. At the last `u64` the number stays. A call whose number is in the list
/// answers `Failed`, and any other call answers as the desk in memory does.
#[derive(Drop)]
pub struct FailDesk<'a> {
    desk: MemDesk<'a>,
    failing: Vec<u64>,
    calls: u64,
}

impl<'a> FailDesk<'a> {
    ghost use Rattle.asp_base.specs.Mem.{mem_state};
    ghost use Rattle.asp_base.specs.Fail.{failing_calls, counted_calls, HasToFail, HasToFailOn, CountsCall, CountsCallOn};

    /// The desk, from now on with failing calls: those whose numbers are in the list, in any order.
    /// No call is counted yet.
    ///
    /// `Memory` where the list finds no memory; the desk that was handed in is then given up.
    pub fn new(desk: MemDesk<'a>, failing: &[u64]) -> Result<FailDesk<'a>, Memory>
        ensures state { IfOk result (λ d. ⟦<FailDesk<'a> as Desk<'a>>⟧.state d ≡ mem_state desk.entry) }
        ensures failing { IfOk result (λ d. failing_calls d ≡ failing.now) }
        ensures calls { IfOk result (λ d. counted_calls d ≡ 0) }
    {
        let failing = failing.to_vec(desk.alloc)?;
        Ok(FailDesk {
            desk,
            failing,
            calls: 0,
        })
    }

    /// The desk in memory, as it stands; its calls fail no more by their numbers.
    pub fn into_desk(self) -> MemDesk<'a>
        ensures { mem_state result ≡ ⟦<FailDesk<'a> as Desk<'a>>⟧.state self.entry }
    {
        self.desk
    }

    /// Counts a call, and answers whether it has to fail.
    fn fails(&mut self) -> bool
        ensures state { mem_state self.new.desk ≡ mem_state self.old.desk }
        ensures counts { CountsCall self.old self.new }
        ensures fails { IsTrue result ↔ HasToFail self.old }
    {
        self.calls = self.calls.saturating_add(1);
        is_among(&self.failing, self.calls)
    }

    /// The same for a call on these bytes: on none it is not counted, and need not fail.
    fn fails_on(&mut self, bytes: &[u8]) -> bool
        ensures state { mem_state self.new.desk ≡ mem_state self.old.desk }
        ensures counts { CountsCallOn self.old self.new bytes.now }
        ensures fails { IsTrue result ↔ HasToFailOn self.old bytes.now }
    {
        !bytes.is_empty() && self.fails()
    }
}

/// Whether the number is in the list.
fn is_among(numbers: &[u64], number: u64) -> bool
    ensures { IsTrue result ↔ Contains numbers.now number }
{
    numbers.contains(&number)
}

impl<'a> Desk<'a> for FailDesk<'a> {
    ghost use Rattle.asp_base.specs.Mem.{mem_state};
    ghost use Rattle.asp_base.specs.Fail.{fail_state, HasToFail, HasToFailOn, CountsCall, CountsCallOn};

    ghost state = { fail_state };

    /// As the desk in memory does. `Failed` exactly where the call's number is in the list, or the
    /// name is not held.
    fn begin_read(&mut self, name: &'a str) -> Result<(), Failed>
        ensures ok { OnOk result (BeginsReading (fail_state self.old) (fail_state self.new) name.now) }
        ensures err { OnErr result (FailsToBeginReading (fail_state self.old) (fail_state self.new) name.now) }
        ensures counts { CountsCall self.old self.new }
        ensures fails { IsErr result ↔ (HasToFail self.old ⊎ ((fail_state self.old).held name.now ≡ None)) }
    {
        if self.fails() {
            self.desk.stop_reading();
            return Err(self.desk.fail_reading(Place::Name(name)));
        }
        self.desk.begin_read(name)
    }

    /// As the desk in memory does. `Failed` exactly where the call's number is in the list, or no
    /// reading is begun. A call on an empty slice has no number.
    fn read(&mut self, into: &mut [u8]) -> Result<usize, Failed>
        ensures ok { IfOk result (λ n. Reads (fail_state self.old) (fail_state self.new) into.new n) }
        ensures err { OnErr result (FailsToRead (fail_state self.old) (fail_state self.new) into.new) }
        ensures counts { CountsCallOn self.old self.new into.old }
        ensures fails { IsErr result ↔ (HasToFailOn self.old into.old ⊎ ((fail_state self.old).reading ≡ None)) }
    {
        if self.fails_on(into) {
            let place = self.desk.reading_place();
            return Err(self.desk.fail_reading(place));
        }
        self.desk.read(into)
    }

    /// As the desk in memory does. `Failed` where the call's number is in the list, and else only
    /// for want of memory.
    fn begin_write(&mut self, name: &'a str) -> Result<(), Failed>
        requires { (fail_state self.old).writing ≡ None }
        ensures ok { OnOk result (BeginsWriting (fail_state self.old) (fail_state self.new) name.now) }
        ensures err { OnErr result (FailsToBeginWriting (fail_state self.old) (fail_state self.new) name.now) }
        ensures counts { CountsCall self.old self.new }
        ensures fails { HasToFail self.old → IsErr result }
        ensures kept { OnErr result ((fail_state self.new).made ≡ (fail_state self.old).made) }
    {
        if self.fails() {
            return Err(self.desk.fail_writing(Place::Name(name)));
        }
        self.desk.begin_write(name)
    }

    /// As the desk in memory does. `Failed` where the call's number is in the list or no writing is
    /// begun, and else only for want of memory. A call on an empty slice has no number.
    fn write(&mut self, bytes: &[u8]) -> Result<usize, Failed>
        ensures ok { IfOk result (λ n. Writes (fail_state self.old) (fail_state self.new) bytes.now n) }
        ensures err { OnErr result (FailsToWrite (fail_state self.old) (fail_state self.new) bytes.now) }
        ensures counts { CountsCallOn self.old self.new bytes.now }
        ensures fails { HasToFailOn self.old bytes.now → IsErr result }
    {
        if self.fails_on(bytes) {
            let place = self.desk.writing_place();
            return Err(self.desk.fail_writing(place));
        }
        self.desk.write(bytes)
    }

    /// As the desk in memory does. `Failed` exactly where the call's number is in the list, or no
    /// writing is begun.
    fn end_write(&mut self) -> Result<(), Failed>
        ensures ok { OnOk result (EndsWriting (fail_state self.old) (fail_state self.new)) }
        ensures err { OnErr result (FailsToEndWriting (fail_state self.old) (fail_state self.new)) }
        ensures counts { CountsCall self.old self.new }
        ensures fails { IsErr result ↔ (HasToFail self.old ⊎ ((fail_state self.old).writing ≡ None)) }
    {
        if self.fails() {
            let place = self.desk.writing_place();
            self.desk.writes = false;
            return Err(self.desk.fail_writing(place));
        }
        self.desk.end_write()
    }

    /// As the desk in memory does. `Failed` where the call's number is in the list, and else only
    /// for want of memory. A call on an empty slice has no number.
    fn say(&mut self, bytes: &[u8]) -> Result<(), Failed>
        requires { (fail_state self.old).writing ≡ None }
        ensures ok { OnOk result (Says (fail_state self.old) (fail_state self.new) bytes.now) }
        ensures err { OnErr result (FailsToSay (fail_state self.old) (fail_state self.new) bytes.now) }
        ensures counts { CountsCallOn self.old self.new bytes.now }
        ensures fails { HasToFailOn self.old bytes.now → IsErr result }
        ensures kept { OnErr result ((fail_state self.new).said ≡ (fail_state self.old).said) }
    {
        if self.fails_on(bytes) {
            return Err(self.desk.fail_writing(Place::Output));
        }
        self.desk.say(bytes)
    }

    /// Complains nowhere. The call is not counted.
    fn complain(&mut self, _bytes: &[u8])
        ensures { self.new ≡ self.old }
    {}
}
