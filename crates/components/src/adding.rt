//! Sums over the rules with a head in each component, by one pass over the links, without a sort and without scratch
//! counts: each component knows by a stamp the rule that entered it last. A link from a head sets the stamp, and adds
//! the rule's cost where the stamp was another's; a link to a positive atom adds where the stamp is the rule's. Linear
//! in the links, and nothing is looked up.

ghost use Rattle.std.specs.Prelude.{◌≡◌, ℕ, ◌+◌, ◌*◌, ◌<◌, ◌≤◌, ◌^◌, ◌==◌, cond, min, [], length, slice_index, IfOk, EachIndex};
ghost use Rattle.graph_parts.specs.Groups.{pair_at};
ghost use Rattle.components.specs.private.Adding.{enter, meet, run};
ghost use Rattle.components.specs.private.Links.{LinkFits};

use asp_base::Memory;
use std::alloc::Global;

/// What is added up for each component; component 0 is none. Nothing is there where none is cyclic.
#[derive(Drop)]
pub(crate) struct Sums {
    pub(crate) weights: Vec<u64>,
    pub(crate) terms: Vec<u64>,
    pub(crate) odd: Vec<u64>,
}

impl Sums {
    /// Nothing.
    pub(crate) fn none(alloc: Global) -> Sums
        ensures weights { result.weights.items ≡ [] }
        ensures terms { result.terms.items ≡ [] }
        ensures odd { result.odd.items ≡ [] }
    {
        Sums {
            weights: Vec::new(alloc),
            terms: Vec::new(alloc),
            odd: Vec::new(alloc),
        }
    }
}

/// Where sums saturate.
const LIMIT: u64 = 1 << 63;

/// The sum, saturating at 2^63.
pub(crate) fn joined(left: u64, right: u64) -> u64
    ensures { result ≡ min (left + right) (2 ^ 63) }
{
    left.saturating_add(right).min(LIMIT)
}

/// The product, saturating at 2^63.
pub(crate) fn scaled(left: u64, right: u64) -> u64
    ensures { result ≡ min (left * right) (2 ^ 63) }
{
    left.saturating_mul(right).min(LIMIT)
}

/// For each number the costs of the rules with a head that has it, and so much for each positive literal of theirs over
/// an atom that has it too. Each rule's links stand together, those from its heads first. Saturates at 2^63.
pub(crate) fn added(
    alloc: Global,
    edges: &[(u32, u32)],
    numbers: &[u32],
    count: u32,
    costs: &[u64],
    each: u64,
) -> Result<Vec<u64>, Memory>
    requires links { (j : ℕ) → j < length edges.now
        → LinkFits (length numbers.now) (length costs.now) (pair_at edges.now j) }
    requires few { length numbers.now + length costs.now < 2 ^ 32 }
    requires most { EachIndex numbers.now (λ u. slice_index numbers.now u ≤ count) }
    ensures sized { IfOk result (λ sums. length sums.items ≡ count + 1) }
    ensures sums { IfOk result (λ sums. (i : ℕ) → i ≤ count → slice_index sums.items i
        ≡ (run (length numbers.now) each i numbers.now costs.now edges.now (0, 0)).1) }
{
    let first = numbers.len() as u32;
    let mut last = vec![in alloc; 0u32; count as usize + 1]?;
    let mut sums = vec![in alloc; 0u64; count as usize + 1]?;
    for edge in edges {
        let from = edge.0;
        let to = edge.1;
        if from < first {
            enter(
                &mut last,
                &mut sums,
                numbers[from as usize] as usize,
                to + 1,
                costs[(to - first) as usize],
            );
        } else {
            meet(
                &last,
                &mut sums,
                numbers[to as usize] as usize,
                from + 1,
                each,
            );
        }
    }
    Ok(sums)
}

/// Adds a cost unless the number was entered with this stamp.
fn enter(last: &mut Vec<u32>, sums: &mut Vec<u64>, number: usize, stamp: u32, cost: u64)
    requires last { number < length last.old.items }
    requires sums { number < length sums.old.items }
    ensures last_sized { length last.new.items ≡ length last.old.items }
    ensures sums_sized { length sums.new.items ≡ length sums.old.items }
    ensures entered { (i : ℕ) → (slice_index last.new.items i, slice_index sums.new.items i)
        ≡ cond (number == i) (enter stamp cost (slice_index last.old.items i, slice_index sums.old.items i))
        (slice_index last.old.items i, slice_index sums.old.items i) }
{
    if last[number] != stamp {
        last[number] = stamp;
        sums[number] = joined(sums[number], cost);
    }
}

/// Adds so much if the number was entered with this stamp.
fn meet(last: &Vec<u32>, sums: &mut Vec<u64>, number: usize, stamp: u32, each: u64)
    requires last { number < length last.now.items }
    requires sums { number < length sums.old.items }
    ensures sized { length sums.new.items ≡ length sums.old.items }
    ensures met { (i : ℕ) → (slice_index last.now.items i, slice_index sums.new.items i)
        ≡ cond (number == i) (meet stamp each (slice_index last.now.items i, slice_index sums.old.items i))
        (slice_index last.now.items i, slice_index sums.old.items i) }
{
    if last[number] == stamp {
        sums[number] = joined(sums[number], each);
    }
}
