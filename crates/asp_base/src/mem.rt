//! A desk in memory.

ghost use Rattle.asp_base.specs.Entries.{latest, bytes_at, newest_name, grown};
ghost use Rattle.std.specs.Option.{option_map};
ghost use Rattle.std.specs.Prelude.{◌≡◌, ◌≢◌, ◌≤◌, ◌<◌, ◌+◌, ◌++◌, [], ◌∷◌, List, ℕ, None, Some, OnOk, OnErr, IsErr, ◌↔◌, IfOk, IfSome, MatchOption, drop, take, length, min, ◌^◌};

mod fail;

use crate::desk::Desk;
use crate::faults::{Failed, Memory};
use crate::place::Place;
pub use fail::FailDesk;
use std::alloc::Global;
use std::marker::Model;

/// The number of given bytes stands still here.
const GIVEN_END: u64 = 1 << 63;

/// A name that can be read, with its bytes.
#[derive(Drop)]
struct Held {
    name: String,
    bytes: Vec<u8>,
}

impl Model for Held {
    ghost use Rattle.std.specs.Prelude.{List, ℕ};
    ghost use Rattle.std.specs.String.{string_bytes};

    ghost Value = { List ℕ × List ℕ };

    ghost view = { λ h. (string_bytes h.name, h.bytes.items) };
}

/// What was written under a name.
#[derive(Drop)]
struct Made<'a> {
    name: &'a str,
    bytes: Vec<u8>,
}

impl<'a> Model for Made<'a> {
    ghost use Rattle.std.specs.Prelude.{List, ℕ};

    ghost Value = { List ℕ × List ℕ };

    ghost view = { λ m. (m.name.now, m.bytes.items) };
}

/// A begun reading: the entry that is read, and how far.
#[derive(Clone, Copy)]
struct Reading<'a> {
    name: &'a str,
    entry: usize,
    at: usize,
}

impl<'a> Reading<'a> {
    fn moved(self, count: usize) -> Reading<'a>
        requires { self.at + count < 2 ^ 64 }
        ensures name { result.name.now ≡ self.entry.name.now }
        ensures entry { result.entry ≡ self.entry.entry }
        ensures at { result.at ≡ self.entry.at + count }
    {
        Reading {
            at: self.at + count,
            ..self
        }
    }
}

/// A desk in memory: names with their bytes, and what was made and said. It tells everything.
///
/// It has three faults and no other: a name that it does not hold, a growth of what it keeps that
/// finds no memory (of a failed `write` or `say` it then keeps nothing), and a call with nothing
/// begun.
#[derive(Drop)]
pub struct MemDesk<'a> {
    alloc: Global,
    most: usize,
    held: Vec<Held>,
    reading: Option<Reading<'a>>,
    given: u64,
    made: Vec<Made<'a>>,
    writes: bool,
    said: Vec<u8>,
    read_faults: u64,
    write_faults: u64,
    read_failed: Place<'a>,
    write_failed: Place<'a>,
    ghost moves: { 1 ≤ most },
    ghost counted: { given ≤ 2 ^ 63 },
}

#[tactic(auto, using(crate::proofs::NewestFirst::newest))]
impl<'a> MemDesk<'a> {
    ghost use Rattle.asp_base.specs.Mem.{mem_state, move_limit};
    ghost use Rattle.asp_base.specs.Desk.{DeskState, Nowhere, spot_of, Holds, FailsReading, FailsWriting};
    ghost use Rattle.asp_base.specs.Place.{spot};

    /// A desk that holds no name, of which one `read` or `write` moves at most `most` bytes, 1 or
    /// more. Nothing is made, said or begun, and both counts of faults are 0. It takes no memory yet.
    pub fn new(alloc: Global, most: usize) -> MemDesk<'a>
        requires { 1 ≤ most }
        ensures state { mem_state result ≡ record {
          held = λ _. None;
          left = None;
          given = 0;
          reading = None;
          read_faults = 0;
          read_failed = Nowhere;
          made = λ _. Some None;
          writing = None;
          said = Some [];
          write_faults = 0;
          write_failed = Nowhere;
        } }
        ensures most { move_limit result ≡ most }
    {
        MemDesk {
            alloc,
            most,
            held: Vec::new(alloc),
            reading: None,
            given: 0,
            made: Vec::new(alloc),
            writes: false,
            said: Vec::new(alloc),
            read_faults: 0,
            write_faults: 0,
            read_failed: Place::Nowhere,
            write_failed: Place::Nowhere,
        }
    }

    /// A call that reads fails at this place.
    fn fail_reading(&mut self, place: Place<'a>) -> Failed
        ensures state { FailsReading (mem_state self.old) (mem_state self.new) (spot place.entry) }
        ensures most { move_limit self.new ≡ move_limit self.old }
    {
        self.read_faults = self.read_faults.saturating_add(1);
        self.read_failed = place;
        Failed
    }

    /// A call that writes fails at this place.
    fn fail_writing(&mut self, place: Place<'a>) -> Failed
        ensures state { FailsWriting (mem_state self.old) (mem_state self.new) (spot place.entry) }
        ensures most { move_limit self.new ≡ move_limit self.old }
    {
        self.write_faults = self.write_faults.saturating_add(1);
        self.write_failed = place;
        Failed
    }

    /// Ends a reading.
    fn stop_reading(&mut self)
        ensures state { mem_state self.new ≡ record (mem_state self.old) { left = None; reading = None; given = 0 } }
        ensures most { move_limit self.new ≡ move_limit self.old }
    {
        self.given = 0;
        self.reading = None;
    }

    /// The name that is being written.
    fn open_name(&self) -> Option<&'a str>
        ensures { option_map (λ name. name.now) result ≡ (mem_state self.now).writing }
    {
        if self.writes {
            self.made.first().map(|newest| newest.name)
        } else {
            None
        }
    }

    /// The name that is being read, as a place.
    fn reading_place(&self) -> Place<'a>
        ensures { spot result ≡ spot_of (mem_state self.now).reading }
    {
        match self.reading {
            Some(reading) => Place::Name(reading.name),
            None => Place::Nowhere,
        }
    }

    /// The name that is being written, as a place.
    fn writing_place(&self) -> Place<'a>
        ensures { spot result ≡ spot_of (mem_state self.now).writing }
    {
        match self.open_name() {
            Some(name) => Place::Name(name),
            None => Place::Nowhere,
        }
    }

    /// Lets the name be read as these bytes, in place of those that it was held with. A reading
    /// that is begun goes on in the earlier ones.
    ///
    /// `Memory` where the copy finds no memory; the desk is then unchanged.
    pub fn hold(&mut self, name: &str, bytes: &[u8]) -> Result<(), Memory>
        ensures ok { OnOk result (Holds (mem_state self.old) (mem_state self.new) name.now bytes.now) }
        ensures err { OnErr result (mem_state self.new ≡ mem_state self.old) }
        ensures most { move_limit self.new ≡ move_limit self.old }
    {
        let held = new_held(self.alloc, name, bytes)?;
        self.held.insert(0, held)?;
        if let Some(Reading { name, entry, at }) = self.reading {
            self.reading = Some(Reading {
                name,
                entry: entry.saturating_add(1),
                at,
            });
        }
        Ok(())
    }

    /// What was written under the name since its writing was last begun. None where it never was.
    pub fn made_under(&self, name: &str) -> Option<&[u8]>
        ensures { (mem_state self.now).made name.now ≡ Some (option_map (λ bytes. bytes.now) result) }
    {
        bytes_of(&self.made, name)
    }

    /// All bytes that were said, in their order.
    pub fn all_said(&self) -> &[u8]
        ensures { (mem_state self.now).said ≡ Some result.now }
    {
        &self.said
    }
}

/// A copy of the name and of the bytes.
fn new_held(alloc: Global, name: &str, bytes: &[u8]) -> Result<Held, Memory>
    ensures { IfOk result (λ held. held ≡ (name.now, bytes.now)) }
{
    let name = String::from_str(alloc, name)?;
    let bytes = bytes.to_vec(alloc)?;
    Ok(Held { name, bytes })
}

/// The index of the newest entry of the name.
fn place_of(entries: &[Held], name: &str) -> Option<usize>
    ensures { MatchOption result (latest entries.now name.now ≡ None)
        (λ i. (i < length entries.now) × (latest entries.now name.now ≡ Some (bytes_at entries.now i))) }
{
    for (i, entry) in entries.iter().enumerate() {
        if entry.name.as_str() == name {
            return Some(i);
        }
    }
    None
}

/// The bytes of the newest entry of the name.
fn bytes_of<'b>(entries: &'b [Made<'_>], name: &str) -> Option<&'b [u8]>
    ensures { MatchOption result (latest entries.now name.now ≡ None)
        (λ bytes. latest entries.now name.now ≡ Some bytes.now) }
{
    for entry in entries {
        if entry.name == name {
            return Some(entry.bytes.as_slice());
        }
    }
    None
}

/// Copies the front of the bytes, at most so many, and answers how many.
fn copy_front(bytes: &[u8], into: &mut [u8], most: usize) -> usize
    ensures count { result ≡ min most (min (length bytes.now) (length into.old)) }
    ensures copied { take result into.new ≡ take result bytes.now }
{
    let count = most.min(bytes.len()).min(into.len());
    into[..count].copy_from_slice(&bytes[..count]);
    count
}

/// The bytes of the entry from this place on.
fn rest_of(entries: &[Held], entry: usize, at: usize) -> &[u8]
    ensures bytes { result.now ≡ drop at (bytes_at entries.now entry) }
    ensures fits { at + length result.now < 2 ^ 64 }
{
    match entries.get(entry) {
        Some(held) => {
            if at < held.bytes.len() {
                &held.bytes[at..]
            } else {
                &[]
            }
        }
        None => &[],
    }
}

/// Appends bytes to the newest entry.
fn extend_newest(entries: &mut [Made<'_>], bytes: &[u8]) -> Result<(), Memory>
    requires { 0 < length entries.old }
    ensures ok { OnOk result (entries.new ≡ grown entries.old bytes.now) }
    ensures err { OnErr result (entries.new ≡ entries.old) }
{
    let newest = &mut entries[0];
    newest.bytes.extend_from_slice(bytes)?;
    Ok(())
}

#[tactic(auto, using(crate::proofs::NewestFirst::newest))]
impl<'a> Desk<'a> for MemDesk<'a> {
    ghost use Rattle.asp_base.specs.Mem.{mem_state, move_limit};
    ghost use Rattle.asp_base.specs.Desk.{BeginsReading, FailsToBeginReading, Reads, FailsToRead, BeginsWriting, FailsToBeginWriting, Writes, FailsToWrite, EndsWriting, FailsToEndWriting, Says, FailsToSay};

    ghost state = { mem_state };

    /// Begins to read the name from its start. `Failed` exactly where the name is not held.
    fn begin_read(&mut self, name: &'a str) -> Result<(), Failed>
        ensures ok { OnOk result (BeginsReading (mem_state self.old) (mem_state self.new) name.now) }
        ensures err { OnErr result (FailsToBeginReading (mem_state self.old) (mem_state self.new) name.now) }
        ensures only { IsErr result ↔ ((mem_state self.old).held name.now ≡ None) }
        ensures most { move_limit self.new ≡ move_limit self.old }
    {
        self.given = 0;
        match place_of(&self.held, name) {
            Some(entry) => {
                self.reading = Some(Reading { name, entry, at: 0 });
                Ok(())
            }
            None => {
                self.reading = None;
                Err(self.fail_reading(Place::Name(name)))
            }
        }
    }

    /// Gives the next bytes, at most `most` of them. `Failed` exactly where no reading is begun.
    fn read(&mut self, into: &mut [u8]) -> Result<usize, Failed>
        ensures ok { IfOk result (λ n. Reads (mem_state self.old) (mem_state self.new) into.new n) }
        ensures err { OnErr result (FailsToRead (mem_state self.old) (mem_state self.new) into.new) }
        ensures moved { IfOk result (λ n. IfSome (mem_state self.old).left (λ left.
            n ≡ min (move_limit self.old) (min (length left) (length into.new)))) }
        ensures only { IsErr result ↔ ((mem_state self.old).reading ≡ None) }
        ensures most { move_limit self.new ≡ move_limit self.old }
    {
        let Some(reading) = self.reading else {
            return Err(self.fail_reading(Place::Nowhere));
        };
        if into.is_empty() {
            return Ok(0);
        }
        let rest = rest_of(&self.held, reading.entry, reading.at);
        let count = copy_front(rest, into, self.most);
        self.reading = Some(reading.moved(count));
        self.given = self.given.saturating_add(count as u64).min(GIVEN_END);
        Ok(count)
    }

    /// Begins to write under the name, from nothing. `Failed` only for want of memory; the name then
    /// has what it had.
    fn begin_write(&mut self, name: &'a str) -> Result<(), Failed>
        requires { (mem_state self.old).writing ≡ None }
        ensures ok { OnOk result (BeginsWriting (mem_state self.old) (mem_state self.new) name.now) }
        ensures err { OnErr result (FailsToBeginWriting (mem_state self.old) (mem_state self.new) name.now) }
        ensures kept { OnErr result ((mem_state self.new).made ≡ (mem_state self.old).made) }
        ensures most { move_limit self.new ≡ move_limit self.old }
    {
        let fresh = Made {
            name,
            bytes: Vec::new(self.alloc),
        };
        if self.made.insert(0, fresh).is_err() {
            return Err(self.fail_writing(Place::Name(name)));
        }
        self.writes = true;
        Ok(())
    }

    /// Writes the first of the bytes, at most `most` of them. `Failed` where no writing is begun,
    /// and else only for want of memory.
    fn write(&mut self, bytes: &[u8]) -> Result<usize, Failed>
        ensures ok { IfOk result (λ n. Writes (mem_state self.old) (mem_state self.new) bytes.now n) }
        ensures err { OnErr result (FailsToWrite (mem_state self.old) (mem_state self.new) bytes.now) }
        ensures moved { IfOk result (λ n. n ≡ min (move_limit self.old) (length bytes.now)) }
        ensures most { move_limit self.new ≡ move_limit self.old }
    {
        let Some(name) = self.open_name() else {
            return Err(self.fail_writing(Place::Nowhere));
        };
        if bytes.is_empty() {
            return Ok(0);
        }
        let count = bytes.len().min(self.most);
        if extend_newest(&mut self.made, &bytes[..count]).is_err() {
            return Err(self.fail_writing(Place::Name(name)));
        }
        Ok(count)
    }

    /// Ends the begun writing. `Failed` exactly where no writing is begun.
    fn end_write(&mut self) -> Result<(), Failed>
        ensures ok { OnOk result (EndsWriting (mem_state self.old) (mem_state self.new)) }
        ensures err { OnErr result (FailsToEndWriting (mem_state self.old) (mem_state self.new)) }
        ensures only { IsErr result ↔ ((mem_state self.old).writing ≡ None) }
        ensures most { move_limit self.new ≡ move_limit self.old }
    {
        if self.open_name().is_none() {
            return Err(self.fail_writing(Place::Nowhere));
        }
        self.writes = false;
        Ok(())
    }

    /// Keeps the bytes as said. `Failed` only for want of memory; nothing of them is then said.
    fn say(&mut self, bytes: &[u8]) -> Result<(), Failed>
        requires { (mem_state self.old).writing ≡ None }
        ensures ok { OnOk result (Says (mem_state self.old) (mem_state self.new) bytes.now) }
        ensures err { OnErr result (FailsToSay (mem_state self.old) (mem_state self.new) bytes.now) }
        ensures kept { OnErr result ((mem_state self.new).said ≡ (mem_state self.old).said) }
        ensures most { move_limit self.new ≡ move_limit self.old }
    {
        if self.said.extend_from_slice(bytes).is_err() {
            return Err(self.fail_writing(Place::Output));
        }
        Ok(())
    }

    /// Complains nowhere.
    fn complain(&mut self, _bytes: &[u8]) {}
}
