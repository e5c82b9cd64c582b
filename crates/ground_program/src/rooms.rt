//! The room of a program: how large a program of normal rules may be that stands for it. Each number is counted over
//! the rules as they stand, in one pass a level, and nothing is built.

ghost use Rattle.std.specs.Prelude.{◌≡◌, ◌==◌, ◌≤◌, ◌<◌, ◌+◌, ◌*◌, ◌^◌, ℕ, ⊤, true, leb, min, length};
ghost use Rattle.std.specs.List.{AllByRecursion, list_all, sum_by};
ghost use Rattle.ground_program.specs.Digits.{digits};
ghost use Rattle.ground_program.specs.Facts.{BodyFits, FitsWeight, IsShort};
ghost use Rattle.ground_program.specs.Radix.{at_level, cut_weights, total};
ghost use Rattle.ground_program.specs.Room.{network_measure, equal_measure, first_weight, levels_measure, items_measure, sum_measure, head_term, body_part, term, room};
ghost use Rattle.ground_program.specs.private.Levels.{AllBelow};

use crate::measure::{edges_size, joined, levels_size, shows_size};
use crate::program::{Body, Head, Program, Rule};
use crate::weights::{Below, best_radix, has_great, number_of, rest_sum, tare};
use asp_base::Lit;

/// The number of binary digits; 0 has none.
pub fn digits(n: u64) -> u64
    ensures is { result ≡ digits n }
    ensures most { result ≤ n }
{
    if n == 0 {
        return 0;
    }
    digits(n / 2) + 1
}

/// How large a network that orders so many literals may be.
fn network_measure(n: u64) -> u64
    requires { n ≤ 2 ^ 29 }
    ensures is { result ≡ network_measure n }
    ensures small { result ≤ 2 ^ 63 }
{
    let d = digits(n);
    9 * (n * (d * d))
}

/// How large a grid or a network for at least k of n literals may be, whichever is less.
fn equal_measure(k: u64, n: u64) -> u64
    requires most { k ≤ n }
    requires short { n ≤ 2 ^ 24 }
    ensures { result ≡ min (equal_measure k n) (2 ^ 63) }
{
    (6 * (k * (n - k + 1))).min(network_measure(n))
}

/// How much the lists of this level and those above may take.
fn levels_measure(items: &[(Lit, i64)], below: Below, bound: u64, carries: u64) -> u64
    requires base { 0 < below.base }
    requires cap { below.bound < 2 ^ 63 }
    requires short { length items.now ≤ 2 ^ 24 }
    requires bound { bound ≤ 2 ^ 63 }
    requires carries { carries < 2 ^ 28 }
    ensures { (levels : ℕ) → AllBelow (8 * 2 ^ levels) (at_level below.bound below.base items.now)
        → result ≡ min (levels_measure levels bound (at_level below.bound below.base items.now) carries) (2 ^ 63) }
{
    if !has_great(items, below) {
        return network_measure(rest_sum(items, below, 8) + carries);
    }
    let radix = best_radix(items, below);
    let tare = tare(bound, radix);
    let n = rest_sum(items, below, radix) + carries;
    let next = Below {
        bound: below.bound,
        base: below.base * radix,
    };
    let above = levels_measure(items, next, (bound + tare) / radix, (n + tare) / radix);
    joined(network_measure(n), above)
}

/// The first cut weight that is not 0, and 1 where there is none.
fn first_weight(items: &[(Lit, i64)], bound: u64) -> u64
    ensures { result ≡ first_weight (cut_weights bound items.now) }
{
    for item in items {
        let weight = number_of(item.1);
        if weight != 0 {
            return weight.min(bound);
        }
    }
    1
}

/// Whether each cut weight that is not 0 is this one.
fn are_equal(items: &[(Lit, i64)], bound: u64, weight: u64) -> bool
    ensures { result ≡ list_all (λ item. item.1 == weight) (cut_weights bound items.now) }
{
    for item in items {
        let own = number_of(item.1);
        if own != 0 && own.min(bound) != weight {
            return false;
        }
    }
    true
}

/// How many weights are not 0.
fn number_of_weights(items: &[(Lit, i64)], bound: u64) -> u64
    ensures is { result ≡ length (cut_weights bound items.now) }
    ensures most { result ≤ length items.now }
{
    let mut number = 0;
    for item in items {
        if number_of(item.1) != 0 {
            number += 1;
        }
    }
    number
}

/// Whether all cut weights together reach the bound.
fn total_reaches(items: &[(Lit, i64)], bound: u64) -> bool
    requires positive { 0 < bound }
    requires small { bound < 2 ^ 63 }
    ensures { result ≡ leb bound (total (cut_weights bound items.now)) }
{
    let mut total = 0;
    for item in items {
        total += number_of(item.1).min(bound);
        if total >= bound {
            return true;
        }
    }
    false
}

/// How much the cut weights of a sum may take that reach the bound together.
fn items_measure(items: &[(Lit, i64)], bound: u64) -> u64
    requires positive { 0 < bound }
    requires small { bound < 2 ^ 63 }
    requires short { length items.now ≤ 2 ^ 24 }
    requires reached { leb bound (total (cut_weights bound items.now)) ≡ true }
    ensures { result ≡ min (items_measure bound (cut_weights bound items.now)) (2 ^ 63) }
{
    let weight = first_weight(items, bound);
    if are_equal(items, bound, weight) {
        return equal_measure(
            (bound + weight - 1) / weight,
            number_of_weights(items, bound),
        );
    }
    levels_measure(items, Below { bound, base: 1 }, bound, 0)
}

/// How much a sum that is to reach a bound may take. Saturates at 2^63.
fn sum_measure(items: &[(Lit, i64)], bound: i64) -> u64
    requires { length items.now ≤ 2 ^ 24 }
    ensures { result ≡ min (sum_measure bound items.now) (2 ^ 63) }
{
    let k = number_of(bound);
    if k == 0 {
        return 0;
    }
    if !total_reaches(items, k) {
        return 0;
    }
    items_measure(items, k)
}

fn body_part(body: &Body) -> u64
    requires { BodyFits (λ a. ⊤) body.now }
    ensures { result ≡ min (body_part body.now) (2 ^ 63) }
{
    match body {
        Body::All(lits) => joined(0, lits.as_slice().len() as u64),
        Body::Sum { bound, items } => joined(1, sum_measure(items.as_slice(), *bound)),
    }
}

fn head_term(head: &Head, part: u64) -> u64
    ensures { result ≡ min (head_term head.now part) (2 ^ 63) }
{
    match head {
        Head::Choice(atoms) => {
            let heads = (atoms.as_slice().len() as u64).saturating_mul(6);
            joined(joined(part, 2), heads)
        }
        _ => joined(part, 1),
    }
}

/// A rule's part of the room of its program: how large the normal rules that stand for it, with their new atoms, may
/// be. Saturates at 2^63. The rule's body is one that a program may have.
pub fn term(rule: &Rule) -> u64
    requires { BodyFits (λ a. ⊤) rule.now.body }
    ensures { result ≡ min (term rule.now) (2 ^ 63) }
{
    head_term(&rule.head, body_part(&rule.body))
}

fn rules_room(rules: &[Rule]) -> u64
    requires { AllByRecursion (λ rule. BodyFits (λ a. ⊤) rule.body) rules.now }
    ensures { result ≡ min (sum_by term rules.now) (2 ^ 63) }
{
    let mut total = 0;
    for rule in rules {
        total = joined(total, term(rule));
    }
    total
}

/// How large a program of normal rules may be that stands for this one: the size of the program, where each rule counts
/// as its `term`. Saturates at 2^63.
pub fn room(program: &Program) -> u64
    ensures { result ≡ min (room program.now) (2 ^ 63) }
{
    program.known();
    let atoms = program.atoms.as_slice().len() as u64;
    let required = program.required.as_slice().len() as u64;
    let mut total = joined(atoms, rules_room(program.rules.as_slice()));
    total = joined(total, required);
    total = joined(total, edges_size(program.edges.as_slice()));
    total = joined(total, levels_size(program.levels.as_slice()));
    joined(total, shows_size(program.shows.as_slice()))
}
