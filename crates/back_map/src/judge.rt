//! What an assignment of a formula's variables shows of a program through a map, where it is a model of the formula.

ghost use Rattle.std.specs.Prelude.{◌≡◌, length, IfOk, IfErr};
ghost use Rattle.clause_store.specs.Assigned.{true_in};
ghost use Rattle.back_map.specs.Judging.{JudgedAs, RefusedAs};

use asp_base::{Memory, Walk};
use clause_store::{Assignment, Formula};
use evaluation::{Seen, evaluate};
use std::alloc::Global;
use symbol_map::SymbolMap;

/// The judgement of an assignment.
#[derive(Debug, Drop)]
pub enum Judged {
    /// It is a model of the formula; what it shows and costs.
    Accepted(Seen),
    /// The place, from 1, of the first clause without a true literal.
    FalseClause(u64),
    /// No clause is false, and the edges whose literal is true have this cycle.
    Cycle(Walk),
}

/// Why there is no judgement.
#[derive(Clone, Copy, Debug, PartialEq, Eq)]
pub enum BackRefusal {
    /// The map has another number of variables than the formula.
    Mismatch { formula_vars: u32, map_vars: u32 },
    /// Want of memory.
    Memory,
}

impl From<Memory> for BackRefusal {
    ghost use Rattle.std.specs.Prelude.{◌≡◌};
    ghost use Rattle.back_map.specs.declared.judge.BackRefusal.TheVariants as refusals;

    ghost from_gives = { λ _ e. e ≡ refusals.Memory };

    fn from(_: Memory) -> BackRefusal {
        BackRefusal::Memory
    }
}

/// Judges an assignment of a formula's variables: the place of the first clause that it makes false, or, where there is
/// none, a cycle of the edges that it puts there, or, where there is none either, what it shows of the program through
/// the map.
///
/// `Mismatch` if the map is not one of as many variables.
pub fn back(
    alloc: Global,
    formula: &Formula,
    map: &SymbolMap,
    values: &Assignment,
) -> Result<Judged, BackRefusal>
    requires vars { length values.now ≡ formula.now.vars }
    ensures judged { IfOk result (λ j. (map.now.vars ≡ formula.now.vars)
        × JudgedAs formula.now map.now (true_in values.now) j) }
    ensures refused { IfErr result (λ r. RefusedAs formula.now map.now r) }
{
    if formula.vars != map.vars {
        return Err(BackRefusal::Mismatch {
            formula_vars: formula.vars,
            map_vars: map.vars,
        });
    }
    if let Some(place) = formula.first_false(values) {
        return Ok(Judged::FalseClause(place));
    }
    if let Some(walk) = formula.cycle(alloc, values)? {
        return Ok(Judged::Cycle(walk));
    }
    let seen = evaluate(alloc, values, map.shows.as_slice(), map.levels.as_slice())?;
    Ok(Judged::Accepted(seen))
}
