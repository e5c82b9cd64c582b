//! A desk in memory, with calls that fail, which keeps what is complained too.

ghost use Rattle.std.specs.Prelude.{◌≡◌, None, IfOk};
ghost use Rattle.asp_base.specs.Mem.{mem_state};

use asp_base::{Desk, FailDesk, Failed, MemDesk, Memory};
use std::alloc::Global;

/// A desk in memory that keeps what is complained.
#[derive(Drop)]
pub(crate) struct HeardDesk<'a> {
    desk: FailDesk<'a>,
    heard: Vec<u8>,
}

impl<'a> HeardDesk<'a> {
    ghost use Rattle.asp_base.specs.Fail.{fail_state};

    /// The desk, with failing calls of these numbers. Nothing is complained yet.
    pub(crate) fn new(
        alloc: Global,
        desk: MemDesk<'a>,
        failing: &[u64],
    ) -> Result<HeardDesk<'a>, Memory>
        ensures { IfOk result (λ d. fail_state d.desk ≡ mem_state desk.entry) }
    {
        Ok(HeardDesk {
            desk: FailDesk::new(desk, failing)?,
            heard: Vec::new(alloc),
        })
    }

    /// The desk in memory, and what was complained.
    pub(crate) fn into_parts(self) -> (MemDesk<'a>, Vec<u8>) {
        (self.desk.into_desk(), self.heard)
    }
}

impl<'a> Desk<'a> for HeardDesk<'a> {
    ghost use Rattle.asp_base.specs.Fail.{fail_state};

    ghost state = { λ d. fail_state d.desk };

    fn begin_read(&mut self, name: &'a str) -> Result<(), Failed> {
        self.desk.begin_read(name)
    }

    fn read(&mut self, into: &mut [u8]) -> Result<usize, Failed> {
        self.desk.read(into)
    }

    fn begin_write(&mut self, name: &'a str) -> Result<(), Failed> {
        self.desk.begin_write(name)
    }

    fn write(&mut self, bytes: &[u8]) -> Result<usize, Failed> {
        self.desk.write(bytes)
    }

    fn end_write(&mut self) -> Result<(), Failed> {
        self.desk.end_write()
    }

    fn say(&mut self, bytes: &[u8]) -> Result<(), Failed> {
        self.desk.say(bytes)
    }

    fn complain(&mut self, bytes: &[u8]) {
        // Where there is no memory for it, the complaint is seen to lack.
        let _ = self.heard.extend_from_slice(bytes);
    }
}
