//! The components of a program, as a type, and the measures of the cyclic ones, from sums that are kept of each.

ghost use Rattle.std.specs.Prelude.{ℕ, ◌*◌, ◌≡◌, ◌↔◌, ◌+◌, ◌-◌, ◌<◌, ◌≤◌, ◌^◌, false, min, length, slice_index, slice_range, IsNone, IfSome};
ghost use Rattle.std.specs.List.{range_with_len, sum_by};
ghost use Rattle.asp_base.specs.Sets.{members};
ghost use Rattle.graph_parts.specs.Divided.{is_cyclic_at};
ghost use Rattle.ground_program.specs.Tangle.{pairs, tangle};
ghost use Rattle.components.specs.Components.{number_of};
ghost use Rattle.components.specs.Divided.{cyclic_parts, members_of};
ghost use Rattle.components.specs.Parts.{ArePartsOf};
ghost use Rattle.components.specs.private.Measured.{pairs_kept, tangle_kept};

use crate::adding::{Sums, joined, scaled};
use graph_parts::{Groups, Parts as GraphParts};
use ground_program::{Atoms, Program};
use std::marker::Model;

/// The atoms of each component.
#[derive(Drop)]
pub(crate) enum Members {
    /// The components are numbered as the atoms are, and each is one atom.
    Each,
    /// The atoms are put together by the numbers of their components.
    Grouped(Groups),
}

/// The components of a program. Their numbers run from 1 to the count, and a component depends on lower ones and itself
/// alone. Contracts see the program's atoms, the number of each one's component, the count, which components are
/// cyclic, and what is added up for each.
#[derive(Drop)]
pub struct Parts {
    atoms: Atoms,
    parts: GraphParts,
    members: Members,
    sums: Sums,
}

impl Model for Parts {
    ghost use Rattle.components.specs.Divided.{Divided};
    ghost use Rattle.components.specs.private.Inside.{divided_of, KeepsDivided};

    ghost Value = { Divided };

    ghost view = { divided_of };

    ghost invariant = { KeepsDivided };
}

impl Parts {
    ghost use Rattle.components.specs.private.Kept.{IsDivided, divided};

    /// Components of these atoms, put together by their numbers.
    pub(crate) fn new(atoms: Atoms, parts: GraphParts, members: Members, sums: Sums) -> Parts
        requires { IsDivided atoms parts members sums.weights.items sums.terms.items sums.odd.items }
        ensures { result ≡ divided atoms parts sums.weights.items sums.terms.items sums.odd.items }
    {
        Parts {
            atoms,
            parts,
            members,
            sums,
        }
    }

    /// How many components there are.
    pub fn count(&self) -> u64
        ensures { result ≡ self.now.count }
    {
        self.parts.count() as u64
    }

    /// The number of an atom's component; None exactly where it is no atom of the program.
    pub fn of(&self, atom: u32) -> Option<u64>
        ensures none { IsNone result ↔ (members self.now.atoms atom ≡ false) }
        ensures number { IfSome result (λ i. i ≡ number_of self.now.atoms self.now.numbers atom) }
    {
        match self.atoms.place(atom) {
            None => None,
            Some(place) => Some(self.parts.number(place - 1) as u64),
        }
    }

    /// The atoms of a component, ascending.
    pub fn members(&self, i: u64) -> &[u32]
        requires { i ≤ self.now.count }
        ensures { result.now ≡ members_of i self.now.atoms self.now.numbers }
    {
        match &self.members {
            Members::Each => only(self.atoms.as_slice(), i as usize),
            Members::Grouped(groups) => under(groups, i as usize),
        }
    }

    /// Whether a component is cyclic: one of its atoms, and so each, depends on itself by way of others or at once.
    pub fn is_cyclic(&self, i: u64) -> bool
        requires { i ≤ self.now.count }
        ensures { result ≡ is_cyclic_at self.now.cyclic i }
    {
        let count = self.parts.count();
        prove!(i <= count as u64);
        self.parts.is_cyclic(i as u32)
    }

    /// What a component adds to `pairs`.
    fn pairs_in(&self, i: u64) -> u64
        requires some { 1 ≤ i }
        requires most { i ≤ self.now.count }
        ensures { result ≡ min (pairs_kept self.now i) (2 ^ 63) }
    {
        if !self.is_cyclic(i) {
            return 0;
        }
        let atoms = self.members(i).len() as u64;
        scaled(atoms, joined(atoms, self.sums.weights[i as usize]))
    }

    /// What all components add to `pairs`.
    fn pairs_in_all(&self) -> u64
        ensures { result ≡ min (sum_by (pairs_kept self.now) (range_with_len 1 self.now.count)) (2 ^ 63) }
    {
        let mut total = 0;
        for k in 0..self.count() {
            total = joined(total, self.pairs_in(k + 1));
        }
        total
    }

    /// What a component adds to `tangle`.
    fn tangle_in(&self, i: u64) -> u64
        requires some { 1 ≤ i }
        requires most { i ≤ self.now.count }
        ensures { result ≡ min (tangle_kept self.now i) (2 ^ 63) }
    {
        if !self.is_cyclic(i) {
            return 0;
        }
        if self.sums.odd[i as usize] == 0 {
            return self.pairs_in(i);
        }
        let atoms = self.members(i).len() as u64;
        squared(joined(atoms, self.sums.terms[i as usize]))
    }

    /// What all components add to `tangle`.
    fn tangle_in_all(&self) -> u64
        ensures { result ≡ min (sum_by (tangle_kept self.now) (range_with_len 1 self.now.count)) (2 ^ 63) }
    {
        let mut total = 0;
        for k in 0..self.count() {
            total = joined(total, self.tangle_in(k + 1));
        }
        total
    }
}

/// The atom at a number, from 1.
fn only(atoms: &[u32], number: usize) -> &[u32]
    requires { number ≤ length atoms.now }
    ensures { result.now ≡ slice_range atoms.now (number - 1) number }
{
    &atoms[number.saturating_sub(1)..number]
}

/// What stands under a key.
fn under(groups: &Groups, key: usize) -> &[u32]
    requires key { key + 1 < length groups.now.starts }
    requires order { slice_index groups.now.starts key ≤ slice_index groups.now.starts (key + 1) }
    requires end { slice_index groups.now.starts (key + 1) ≤ length groups.now.values }
    ensures { result.now ≡ slice_range groups.now.values (slice_index groups.now.starts key)
        (slice_index groups.now.starts (key + 1)) }
{
    let starts = groups.starts.as_slice();
    &groups.values.as_slice()[starts[key] as usize..starts[key + 1] as usize]
}

fn squared(number: u64) -> u64
    ensures { (x : ℕ) → number ≡ min x (2 ^ 63) → result ≡ min (x * x) (2 ^ 63) }
{
    scaled(number, number)
}

/// The sum over the cyclic components of a program, each of `n` atoms, of `n * (n + r + o)` for the `r` rules with a
/// head in it and the `o` positive literals of theirs over it. Saturates at 2^63. The parts are this program's.
pub fn pairs(program: &Program, parts: &Parts) -> u64
    requires { ArePartsOf program.now parts.now }
    ensures { result ≡ min (pairs program.now.rules (cyclic_parts parts.now)) (2 ^ 63) }
{
    parts.pairs_in_all()
}

/// The sum over the cyclic components of a program: where each rule with a head in it has one head and asks all of its
/// literals, what it adds to `pairs`; elsewhere the square of its atoms and the terms of these rules, taken together.
/// Saturates at 2^63. The parts are this program's.
pub fn tangle(program: &Program, parts: &Parts) -> u64
    requires { ArePartsOf program.now parts.now }
    ensures { result ≡ min (tangle program.now.rules (cyclic_parts parts.now)) (2 ^ 63) }
{
    parts.tangle_in_all()
}
