//! Levels by falling priority.

ghost use Rattle.std.specs.Prelude.{◌≡◌, pos, ◌≤ℤ◌, ◌<ℤ◌, ◌^◌, [], ◌++◌, IfOk, OnOk};
ghost use Rattle.std.specs.List.{AllByRecursion};
ghost use Rattle.std.specs.List.Sorted.{IsPermutation, IsSortedByKey, IsStableByKey};
ghost use Rattle.std.specs.Ordering.{int_cmp};
ghost use Rattle.ground_program.specs.Draft.{into_levels, levels_onto};
ghost use Rattle.ground_program.specs.Facts.{FallsFrom};
ghost use Rattle.ground_program.specs.private.Falling.{NoneRises, lowest};

use crate::program::Level;
use asp_base::Memory;
use std::alloc::Global;

/// One level for each priority, by falling priority; its items are those of the levels of that priority,
/// in their order.
pub(crate) fn merge_levels(alloc: Global, mut levels: Vec<Level>) -> Result<Vec<Level>, Memory>
    requires { AllByRecursion (λ level. level.priority <ℤ pos (2 ^ 31)) levels.items }
    ensures { IfOk result (λ merged. merged.items ≡ levels_onto [] levels.items) }
{
    sort_levels(&mut levels)?;
    merge_neighbours(alloc, levels)
}

/// By falling priority; the levels of one priority keep their order.
fn sort_levels(levels: &mut Vec<Level>) -> Result<(), Memory>
    ensures permutation { IsPermutation levels.old.items levels.new.items }
    ensures sorted { OnOk result (IsSortedByKey (λ level. level.priority) (λ p q. int_cmp q p) levels.new.items) }
    ensures stable { IsStableByKey (λ level. level.priority) (λ p q. int_cmp q p) levels.old.items levels.new.items }
{
    Ok(levels.sort_by(|left, right| right.priority.cmp(&left.priority))?)
}

/// Joins neighbours of one priority.
fn merge_neighbours(alloc: Global, sorted: Vec<Level>) -> Result<Vec<Level>, Memory>
    requires { NoneRises (pos (2 ^ 31)) sorted.items }
    ensures { IfOk result (λ merged. merged.items ≡ levels_onto [] sorted.items) }
{
    let mut merged = Vec::new(alloc);
    for level in sorted {
        add_behind(&mut merged, level)?;
    }
    Ok(merged)
}

/// Joins a level to the last one, if they have one priority, or puts it behind that.
fn add_behind(levels: &mut Vec<Level>, level: Level) -> Result<(), Memory>
    requires falls { FallsFrom (pos (2 ^ 31)) levels.old.items }
    requires below { level.priority ≤ℤ lowest (pos (2 ^ 31)) levels.old.items }
    ensures { OnOk result (levels.new.items ≡ into_levels level levels.old.items) }
{
    let count = levels.len();
    if count > 0 && levels[count - 1].priority == level.priority {
        return extend_level(&mut levels[count - 1], level);
    }
    Ok(levels.push(level)?)
}

fn extend_level(level: &mut Level, more: Level) -> Result<(), Memory>
    ensures { OnOk result (level.new ≡ record {
      priority = level.old.priority;
      items = level.old.items ++ more.items;
    }) }
{
    level.items.append(more.items.as_slice())
}
