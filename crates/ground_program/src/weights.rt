//! Sums of weights in mixed radix: the radix of each level. A weight at a level is what it is after it was cut to the
//! bound of the sum and divided by the radices below, so that no list is made: each question is one pass over the items
//! as they stand.

ghost use Rattle.std.specs.Prelude.{◌≡◌, ◌≤◌, ◌<◌, ◌<ℤ◌, ◌+◌, ◌*◌, ◌/◌, ◌^◌, pos, min, length};
ghost use Rattle.ground_program.specs.Radix.{number_of, at_level, has_great, rest_sum, better, best_radix, tare_of, radix};

use asp_base::Lit;

/// What stands below a level: the bound to which weights are cut, and the product of the radices.
#[derive(Clone, Copy)]
pub(crate) struct Below {
    pub(crate) bound: u64,
    pub(crate) base: u64,
}

/// A radix, and what the weights leave over with it.
#[derive(Clone, Copy)]
struct Rest {
    radix: u64,
    sum: u64,
}

/// The number, and 0 for one that is negative.
pub(crate) fn number_of(weight: i64) -> u64
    ensures is { result ≡ number_of weight }
    ensures small { result < 2 ^ 63 }
{
    if weight <= 0 { 0 } else { weight as u64 }
}

/// What a weight is at a level.
fn weight_at(weight: i64, below: Below) -> u64
    requires { 0 < below.base }
    ensures { result ≡ min (number_of weight) below.bound / below.base }
{
    number_of(weight).min(below.bound) / below.base
}

/// Whether a weight is at least 8 at a level.
pub(crate) fn has_great(items: &[(Lit, i64)], below: Below) -> bool
    requires { 0 < below.base }
    ensures { result ≡ has_great (at_level below.bound below.base items.now) }
{
    for item in items {
        if weight_at(item.1, below) >= 8 {
            return true;
        }
    }
    false
}

/// What the weights leave over together at a level.
pub(crate) fn rest_sum(items: &[(Lit, i64)], below: Below, radix: u64) -> u64
    requires base { 0 < below.base }
    requires low { 0 < radix }
    requires high { radix ≤ 8 }
    ensures is { result ≡ rest_sum radix (at_level below.bound below.base items.now) }
    ensures most { result ≤ 8 * length items.now }
{
    let mut sum = 0;
    for item in items {
        sum += weight_at(item.1, below) % radix;
    }
    sum
}

/// The better of two radices at a level.
fn better(items: &[(Lit, i64)], below: Below, best: Rest, radix: u64) -> Rest
    requires base { 0 < below.base }
    requires sum { best.sum ≡ rest_sum best.radix (at_level below.bound below.base items.now) }
    requires low { 0 < radix }
    requires high { radix ≤ 8 }
    ensures radix { result.radix ≡ better (at_level below.bound below.base items.now) best.radix radix }
    ensures sum { result.sum ≡ rest_sum result.radix (at_level below.bound below.base items.now) }
{
    let sum = rest_sum(items, below, radix);
    if sum <= best.sum {
        Rest { radix, sum }
    } else {
        best
    }
}

/// The radix from 2 to 8 with which the weights of a level leave least over, on a tie the largest.
#[tactic(auto, using(crate::proofs::RadixLaws::best_radix_low, crate::proofs::RadixLaws::best_radix_high))]
pub(crate) fn best_radix(items: &[(Lit, i64)], below: Below) -> u64
    requires { 0 < below.base }
    ensures is { result ≡ best_radix (at_level below.bound below.base items.now) }
    ensures low { 2 ≤ result }
    ensures high { result ≤ 8 }
{
    let mut best = Rest {
        radix: 2,
        sum: rest_sum(items, below, 2),
    };
    for step in 0..6 {
        best = better(items, below, best, step + 3);
    }
    best.radix
}

/// The least number that makes a radix divide the bound.
pub(crate) fn tare(bound: u64, radix: u64) -> u64
    requires { 0 < radix }
    ensures { result ≡ tare_of bound radix }
{
    (radix - bound % radix) % radix
}

/// The next radix of a sum of weights, above radices whose product is `base`: the number from 2 to 8 with which the
/// weights, cut to the bound and divided by the base, leave least over together, on a tie the largest. None exactly
/// where none of them is 8 or more. It looks at each weight seven times.
pub fn radix(items: &[(Lit, i64)], bound: i64, base: i64) -> Option<i64>
    requires { pos 0 <ℤ base }
    ensures { result ≡ radix items.now bound base }
{
    let below = Below {
        bound: number_of(bound),
        base: number_of(base),
    };
    if !has_great(items, below) {
        return None;
    }
    Some(best_radix(items, below) as i64)
}
