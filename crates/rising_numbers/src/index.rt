//! An index to the places of rising numbers. The numbers from 1 to n need none. Where numbers have gaps and still lie
//! close together, it keeps for each block of 32 numbers how many of the given ones are below it, and for each number
//! how many of its block are, as a rank index of a bit vector does (Jacobson, Space-efficient static trees and graphs,
//! 1989), but with a byte for each number in place of a bit, so that a place is a sum of two and nothing is searched.
//! These are 36 bytes for 32 numbers up to the greatest. Numbers that lie far apart are searched as a whole.

ghost use Rattle.std.specs.Prelude.{◌≡◌, ℕ, ◌/◌, ◌<◌, ◌≤◌, ◌^◌, length, None, IsTrue, IfOk};
ghost use Rattle.std.specs.List.Sorted.{IsStrictlyIncreasing};
ghost use Rattle.rising_numbers.specs.private.Index.{AreOffsets, IsBehind, stands_by, StandsAt, CountsFromOne, AreStarts, Indexes};

use asp_base::Memory;
use std::alloc::Global;

/// The offset of a number that is not given.
const NO_OFFSET: u8 = 255;

/// How the place of a number is found.
#[derive(Debug, Drop)]
pub(crate) enum PlaceIndex {
    /// The numbers are those from 1 on.
    Counted,
    /// Where each block of 32 numbers begins among the given ones, and for each number how far behind that it stands.
    Blocks { starts: Vec<u32>, offsets: Vec<u8> },
    /// By a search among all.
    Absent,
}

impl PlaceIndex {
    /// The index to these numbers.
    pub(crate) fn of(alloc: Global, numbers: &[u32]) -> Result<PlaceIndex, Memory>
        requires { IsStrictlyIncreasing numbers.now }
        ensures { IfOk result (λ index. Indexes numbers.now index) }
    {
        if counts_from_one(numbers) {
            return Ok(PlaceIndex::Counted);
        }
        if lie_close(numbers) {
            let starts = block_starts(alloc, numbers)?;
            let offsets = offsets_of(alloc, numbers, starts.as_slice())?;
            return Ok(PlaceIndex::Blocks { starts, offsets });
        }
        Ok(PlaceIndex::Absent)
    }

    /// Where the number stands, from 0.
    pub(crate) fn find(&self, numbers: &[u32], number: u32) -> Option<usize>
        requires rise { IsStrictlyIncreasing numbers.now }
        requires index { Indexes numbers.now self.now }
        ensures { StandsAt numbers.now number result }
    {
        match self {
            PlaceIndex::Counted => find_by_count(numbers, number),
            PlaceIndex::Blocks { starts, offsets } => {
                find_by_offset(starts.as_slice(), offsets.as_slice(), number)
            }
            PlaceIndex::Absent => search(numbers, number),
        }
    }
}

/// Whether the numbers are those from 1 on.
fn counts_from_one(numbers: &[u32]) -> bool
    requires { IsStrictlyIncreasing numbers.now }
    ensures { IsTrue result → CountsFromOne numbers.now }
{
    let count = numbers.len();
    count == 0 || numbers[0] == 1 && numbers[count - 1] as usize == count
}

/// Whether an index pays: a search among all would take more steps, and there are at most 16 times as many numbers
/// up to the greatest as there are given ones.
fn lie_close(numbers: &[u32]) -> bool
    ensures { IsTrue result → length numbers.now < 2 ^ 32 }
{
    let count = numbers.len();
    32 < count && count <= u32::MAX as usize && numbers[count - 1] as usize / 16 <= count
}

/// Where each block of 32 numbers begins among rising numbers.
fn block_starts(alloc: Global, numbers: &[u32]) -> Result<Vec<u32>, Memory>
    requires rise { IsStrictlyIncreasing numbers.now }
    requires fits { length numbers.now < 2 ^ 32 }
    ensures { IfOk result (λ starts. AreStarts numbers.now starts.items) }
{
    let mut starts = Vec::with_capacity(alloc, count_of_starts(numbers))?;
    for index in 0..numbers.len() {
        let blocks = numbers[index] as usize / 32 + 1;
        if starts.len() < blocks {
            starts.resize(blocks, index as u32)?;
        }
    }
    starts.push(numbers.len() as u32)?;
    Ok(starts)
}

/// How many starts there are: one for each block up to that of the last number, and one behind them.
fn count_of_starts(numbers: &[u32]) -> usize {
    match numbers.last() {
        Some(last) => *last as usize / 32 + 2,
        None => 1,
    }
}

/// Where a number stands among those from 1 on.
fn find_by_count(numbers: &[u32], number: u32) -> Option<usize>
    requires { CountsFromOne numbers.now }
    ensures { StandsAt numbers.now number result }
{
    let place = number as usize;
    if 0 < place && place <= numbers.len() {
        Some(place - 1)
    } else {
        None
    }
}

/// How far behind the start of its block each number up to the greatest stands.
fn offsets_of(alloc: Global, numbers: &[u32], starts: &[u32]) -> Result<Vec<u8>, Memory>
    requires rise { IsStrictlyIncreasing numbers.now }
    requires starts { AreStarts numbers.now starts.now }
    ensures { IfOk result (λ offsets. AreOffsets numbers.now starts.now offsets.items) }
{
    let mut offsets = vec![in alloc; NO_OFFSET; behind_last(numbers)]?;
    for index in 0..numbers.len() {
        let number = numbers[index] as usize;
        offsets[number] = (index - starts[number / 32] as usize) as u8;
    }
    Ok(offsets)
}

/// One more than the greatest of rising numbers; 0 where there is none.
fn behind_last(numbers: &[u32]) -> usize
    requires { IsStrictlyIncreasing numbers.now }
    ensures { IsBehind numbers.now result }
{
    match numbers.last() {
        Some(last) => *last as usize + 1,
        None => 0,
    }
}

/// Where a number stands by the start of its block and its offset there.
fn find_by_offset(starts: &[u32], offsets: &[u8], number: u32) -> Option<usize>
    requires { (n : ℕ) → n < length offsets.now → n / 32 < length starts.now }
    ensures past { length offsets.now ≤ number → result ≡ None }
    ensures there { number < length offsets.now → result ≡ stands_by starts.now offsets.now number }
{
    let at = number as usize;
    if offsets.len() <= at {
        return None;
    }
    let offset = offsets[at];
    if offset == NO_OFFSET {
        return None;
    }
    Some(starts[at / 32] as usize + offset as usize)
}

/// Where a number stands among rising numbers, by halves.
fn search(numbers: &[u32], number: u32) -> Option<usize>
    requires { IsStrictlyIncreasing numbers.now }
    ensures { StandsAt numbers.now number result }
{
    match numbers.binary_search(&number) {
        Ok(index) => Some(index),
        Err(_) => None,
    }
}
