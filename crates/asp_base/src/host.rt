//! The desk of real files and of the program's own standard output and standard error.

ghost use Rattle.std.specs.Prelude.{◌≡◌, ◌<◌, ◌≤◌, ◌^◌, None, IfOk, length};

use crate::desk::Desk;
use crate::faults::Failed;
use crate::place::Place;
use std::fs;
use std::io::{Read, Write};
use std::rt::Files;

/// The number of given bytes stands still here.
const GIVEN_END: u64 = 1 << 63;

/// A desk over real files, standard output and standard error. It tells its counts, its places and
/// its begun names, and no content.
#[derive(Drop)]
pub struct HostDesk<'a, R: Files + Print + Eprint + Drop> {
    rt: R,
    reading: Option<&'a str>,
    source: Option<R::File>,
    given: u64,
    writing: Option<&'a str>,
    sink: Option<R::File>,
    read_faults: u64,
    read_failed: Place<'a>,
    write_faults: u64,
    write_failed: Place<'a>,
    ghost counted: { given ≤ 2 ^ 63 },
}

impl<'a, R: Files + Print + Eprint + Drop> HostDesk<'a, R> {
    ghost use Rattle.asp_base.specs.Desk.{DeskState, Nowhere, FailsReading, FailsWriting};
    ghost use Rattle.asp_base.specs.Place.{spot};
    ghost use Rattle.asp_base.specs.Host.{host_state};

    /// The desk of this runtime, with nothing begun and both counts of faults 0. It takes no memory.
    pub fn new(rt: R) -> HostDesk<'a, R>
        ensures { ⟦<HostDesk<'a, R> as Desk<'a>>⟧.state result ≡ host_state 0 None None 0 Nowhere 0 Nowhere }
    {
        HostDesk {
            rt,
            reading: None,
            source: None,
            given: 0,
            writing: None,
            sink: None,
            read_faults: 0,
            read_failed: Place::Nowhere,
            write_faults: 0,
            write_failed: Place::Nowhere,
        }
    }

    /// A call that reads fails at this place.
    fn fail_reading(&mut self, place: Place<'a>) -> Failed
        ensures { FailsReading (⟦<HostDesk<'a, R> as Desk<'a>>⟧.state self.old)
            (⟦<HostDesk<'a, R> as Desk<'a>>⟧.state self.new) (spot place.entry) }
    {
        self.read_faults = self.read_faults.saturating_add(1);
        self.read_failed = place;
        Failed
    }

    /// A call that writes fails at this place.
    fn fail_writing(&mut self, place: Place<'a>) -> Failed
        ensures { FailsWriting (⟦<HostDesk<'a, R> as Desk<'a>>⟧.state self.old)
            (⟦<HostDesk<'a, R> as Desk<'a>>⟧.state self.new) (spot place.entry) }
    {
        self.write_faults = self.write_faults.saturating_add(1);
        self.write_failed = place;
        Failed
    }
}

impl<'a, R: Files + Print + Eprint + Drop> Desk<'a> for HostDesk<'a, R> {
    ghost use Rattle.std.specs.Option.{option_map};
    ghost use Rattle.asp_base.specs.Desk.{DeskState};
    ghost use Rattle.asp_base.specs.Host.{host_state};
    ghost use Rattle.asp_base.specs.Place.{spot};

    ghost state = { λ d. host_state d.given (option_map (λ name. name.now) d.reading)
        (option_map (λ name. name.now) d.writing)
        d.read_faults (spot d.read_failed) d.write_faults (spot d.write_failed) };

    fn begin_read(&mut self, name: &'a str) -> Result<(), Failed> {
        self.given = 0;
        match fs::open(&self.rt, name) {
            Ok(file) => {
                self.reading = Some(name);
                self.source = Some(file);
                Ok(())
            }
            Err(_) => {
                self.reading = None;
                self.source = None;
                Err(self.fail_reading(Place::Name(name)))
            }
        }
    }

    fn read(&mut self, into: &mut [u8]) -> Result<usize, Failed> {
        let Some(name) = self.reading else {
            return Err(self.fail_reading(Place::Nowhere));
        };
        if into.is_empty() {
            return Ok(0);
        }
        match read_some(&mut self.source, into) {
            Ok(count) => {
                self.given = self.given.saturating_add(count as u64).min(GIVEN_END);
                Ok(count)
            }
            Err(Failed) => Err(self.fail_reading(Place::Name(name))),
        }
    }

    fn begin_write(&mut self, name: &'a str) -> Result<(), Failed> {
        match fs::create(&self.rt, name) {
            Ok(file) => {
                self.writing = Some(name);
                self.sink = Some(file);
                Ok(())
            }
            Err(_) => Err(self.fail_writing(Place::Name(name))),
        }
    }

    fn write(&mut self, bytes: &[u8]) -> Result<usize, Failed> {
        let Some(name) = self.writing else {
            return Err(self.fail_writing(Place::Nowhere));
        };
        if bytes.is_empty() {
            return Ok(0);
        }
        match write_some(&mut self.sink, bytes) {
            Ok(count) => Ok(count),
            Err(Failed) => Err(self.fail_writing(Place::Name(name))),
        }
    }

    fn end_write(&mut self) -> Result<(), Failed> {
        let Some(name) = self.writing else {
            return Err(self.fail_writing(Place::Nowhere));
        };
        self.writing = None;
        match close(&mut self.sink) {
            Ok(()) => Ok(()),
            Err(Failed) => Err(self.fail_writing(Place::Name(name))),
        }
    }

    fn say(&mut self, bytes: &[u8]) -> Result<(), Failed> {
        if bytes.is_empty() {
            return Ok(());
        }
        match self.rt.write_all(bytes) {
            Ok(()) => Ok(()),
            Err(_) => Err(self.fail_writing(Place::Output)),
        }
    }

    fn complain(&mut self, bytes: &[u8]) {
        for chunk in bytes.utf8_chunks() {
            let _ = self.rt.eprint(chunk.valid());
            if !chunk.invalid().is_empty() {
                let _ = self.rt.eprint('\u{fffd}');
            }
        }
    }
}

/// One read of the file.
fn read_some<F: Read>(source: &mut Option<F>, into: &mut [u8]) -> Result<usize, Failed>
    ensures { IfOk result (λ count. count ≤ length into.new) }
{
    match source {
        Some(file) => match file.read(into) {
            Ok(count) => Ok(count),
            Err(_) => Err(Failed),
        },
        None => Err(Failed),
    }
}

/// One write to the file, which has to take a byte.
fn write_some<F: Write>(sink: &mut Option<F>, bytes: &[u8]) -> Result<usize, Failed>
    ensures { IfOk result (λ count. (0 < count) × (count ≤ length bytes.now)) }
{
    match sink {
        Some(file) => match file.write(bytes) {
            Ok(0) | Err(_) => Err(Failed),
            Ok(count) => Ok(count),
        },
        None => Err(Failed),
    }
}

/// Hands on what is still to be written, and closes the file.
fn close<F: Write + Drop>(sink: &mut Option<F>) -> Result<(), Failed> {
    match sink.take() {
        Some(mut file) => match file.flush() {
            Ok(()) => Ok(()),
            Err(_) => Err(Failed),
        },
        None => Err(Failed),
    }
}
