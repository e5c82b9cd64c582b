//! Clauses, and lists of them.

ghost use Rattle.std.specs.Prelude.{◌≡◌, ◌<◌, ◌≤◌, ◌+◌, ℕ, List, [], ◌∷◌, ◌++◌, length, take, drop, slice_get, slice_range, slice_index_or, Some, OnOk, OnErr};
ghost use Rattle.clause_store.specs.private.Cut.{start_at, AreEnds};

use asp_base::{Lit, Memory, VecList};
use std::alloc::Global;
use std::marker::Model;

/// So many literals the clauses of a list have at most, so that an end takes four bytes.
const MOST_LITERALS: usize = 0xffff_ffff;

/// Literals, one of which is to be true.
pub type Clause = VecList<Lit>;

/// Clauses. Their literals stand behind one another in one list, since a formula may have millions of short clauses.
#[derive(Drop)]
pub struct ClauseList {
    lits: Vec<Lit>,
    ends: Vec<u32>,
}

impl Model for ClauseList {
    ghost use Rattle.std.specs.Prelude.{List, length};
    ghost use Rattle.asp_base.specs.Literal.{Literal};
    ghost use Rattle.clause_store.specs.private.Cut.{cut_from, AreEnds};

    ghost Value = { List (List Literal) };

    ghost view = { λ l. cut_from 0 l.ends.items l.lits.items };

    ghost invariant = { λ l. AreEnds 0 l.ends.items (length l.lits.items) };
}

/// Where the part at an index begins.
fn start_of(ends: &[u32], i: usize) -> usize
    requires { i ≤ length ends.now }
    ensures { result ≡ start_at 0 ends.now i }
{
    if i == 0 { 0 } else { ends[i - 1] as usize }
}

/// The part at an index.
fn part<'a>(lits: &'a [Lit], ends: &[u32], i: usize) -> &'a [Lit]
    requires index { i < length ends.now }
    requires cut { AreEnds 0 ends.now (length lits.now) }
    ensures { result.now ≡ slice_range lits.now (start_at 0 ends.now i) (slice_index_or ends.now i 0) }
{
    let start = start_of(ends, i);
    let end = ends[i] as usize;
    prove!(start <= end);
    prove!(end <= lits.len());
    &lits[start..end]
}

impl ClauseList {
    pub fn new(alloc: Global) -> ClauseList
        ensures { result ≡ [] }
    {
        ClauseList {
            lits: Vec::new(alloc),
            ends: Vec::new(alloc),
        }
    }

    /// Adds a clause behind the others. After `Memory` the list is unchanged; so it is where all clauses together would
    /// have 2^32 literals or more.
    pub fn push(&mut self, lits: &[Lit]) -> Result<(), Memory>
        ensures ok { OnOk result (self.new ≡ self.old ++ lits.now ∷ []) }
        ensures err { OnErr result (self.new ≡ self.old) }
    {
        let end = self.lits.len() + lits.len();
        if end > MOST_LITERALS {
            return Err(Memory);
        }
        self.ends.reserve(1)?;
        self.lits.extend_from_slice(lits)?;
        self.ends.push_reserved(end as u32);
        Ok(())
    }

    /// Keeps the first n clauses.
    pub fn truncate(&mut self, n: usize)
        ensures { self.new ≡ take n self.old }
    {
        if n < self.ends.len() {
            self.lits.truncate(start_of(self.ends.as_slice(), n));
            self.ends.truncate(n);
        }
    }

    /// Answers what came of a pushing behind the first n clauses, and keeps these alone where it failed.
    pub(crate) fn roll_back(&mut self, n: usize, pushed: Result<(), Memory>) -> Result<(), Memory>
        ensures same { result ≡ pushed }
        ensures ok { OnOk result (self.new ≡ self.old) }
        ensures err { OnErr result (self.new ≡ take n self.old) }
    {
        if pushed.is_err() {
            self.truncate(n);
        }
        pushed
    }

    /// The allocator that the list takes its memory from.
    pub fn allocator(&self) -> Global {
        *self.lits.allocator()
    }

    /// The number of clauses.
    pub fn len(&self) -> usize
        ensures { result ≡ length self.now }
    {
        self.ends.len()
    }

    /// The clause at an index, from 0.
    pub fn get(&self, i: usize) -> &[Lit]
        requires { i < length self.now }
        ensures clause { slice_get self.now i ≡ Some result.now }
        // The clauses from this one on begin with it.
        ensures rest { drop i self.now ≡ result.now ∷ drop (i + 1) self.now }
    {
        part(self.lits.as_slice(), self.ends.as_slice(), i)
    }
}
