//! The scale of levels: the factor of each, from the lowest priority on, and where it passes 63 bits.

ghost use Rattle.std.specs.Prelude.{◌≡◌, ◌<◌, ◌+◌, ◌*◌, ◌^◌, SomeIff, length, IfOk};
ghost use Rattle.symbol_map.specs.Scale.{total};
ghost use Rattle.soft_costs.specs.private.Scaling.{ScalingGives};
ghost use Rattle.soft_costs.specs.declared.scale.ScaleRefusal.TheVariants as refusals;

use asp_base::{Lit, Memory};
use ground_program::{CostList, Level};
use std::alloc::Global;

/// How levels join in one sum: the factor of each level and the least that it may cost, both by falling priority, and
/// the scale after all levels, which is above the weights of all soft clauses together.
#[derive(Debug, Drop)]
pub struct Scale {
    pub factors: CostList,
    pub offsets: CostList,
    pub top: u64,
}

/// Why levels have no soft clauses.
#[derive(Clone, Copy, Debug, PartialEq, Eq)]
pub enum ScaleRefusal {
    /// The scale passes 2^63 - 1 at the level of this priority.
    SumTooLarge { priority: i32 },
    /// Want of memory.
    Memory,
}

impl From<Memory> for ScaleRefusal {
    ghost use Rattle.std.specs.Prelude.{◌≡◌};
    ghost use Rattle.soft_costs.specs.declared.scale.ScaleRefusal.TheVariants as refusals;

    ghost from_gives = { λ _ e. e ≡ refusals.Memory };

    fn from(_: Memory) -> ScaleRefusal {
        ScaleRefusal::Memory
    }
}

/// The factors of levels, by falling priority, and the scale after all of them.
#[derive(Drop)]
pub(crate) struct Scaled {
    pub(crate) factors: Vec<u64>,
    pub(crate) top: u64,
}

/// The sum of the magnitudes of the weights, where it has 64 bits.
fn magnitudes(items: &[(Lit, i64)]) -> Option<u64>
    ensures { SomeIff result (total items.now < 2 ^ 64) (total items.now) }
{
    let mut sum: u64 = 0;
    for item in items {
        sum = sum.checked_add(item.1.unsigned_abs())?;
    }
    Some(sum)
}

/// The scale after one more level, where it has 63 bits.
fn raised(scale: u64, items: &[(Lit, i64)]) -> Option<u64>
    requires { 0 < scale }
    ensures { SomeIff result (scale * (total items.now + 1) < 2 ^ 63) (scale * (total items.now + 1)) }
{
    let steps = magnitudes(items)?.checked_add(1)?;
    let raised = scale.checked_mul(steps)?;
    if raised < 1 << 63 { Some(raised) } else { None }
}

fn too_large(level: &Level) -> ScaleRefusal
    ensures { result ≡ refusals.SumTooLarge level.now.priority }
{
    ScaleRefusal::SumTooLarge {
        priority: level.priority,
    }
}

fn zeros(alloc: Global, n: usize) -> Result<Vec<u64>, Memory>
    ensures { IfOk result (λ v. length v.items ≡ n) }
{
    Ok(vec![in alloc; 0; n]?)
}

/// The factors of levels, from the lowest priority on.
pub(crate) fn factors(alloc: Global, levels: &[Level]) -> Result<Scaled, ScaleRefusal>
    ensures { ScalingGives levels.now result }
{
    let mut factors = zeros(alloc, levels.len())?;
    let mut top = 1;
    for i in (0..levels.len()).rev() {
        match raised(top, levels[i].items.as_slice()) {
            Some(next) => {
                factors[i] = top;
                top = next;
            }
            None => return Err(too_large(&levels[i])),
        }
    }
    Ok(Scaled { factors, top })
}
