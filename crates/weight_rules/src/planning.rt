//! The plan of a sum in mixed radix: level by level the radix with which the weights leave least over, and the tare
//! that makes it divide the bound, until no weight is 8 or more. What is left over is what has to be ordered, so the
//! lists of the levels are short. A weight is at most half of what it was one level below, so there are fewer levels
//! than a weight has binary digits. Each level looks at each weight seven times.
//!   N. Eén, N. Sörensson. Translating pseudo-Boolean constraints into SAT. JSAT 2, 2006.
//!   J. Bomanson, M. Gebser, T. Janhunen. Improving the normalization of weight rules in answer set programs.
//!     JELIA 2014.

ghost use Rattle.std.specs.Prelude.{◌≡◌, ◌<◌, ◌<ℤ◌, pos, IfOk};
ghost use Rattle.ground_program.specs.Radix.{number_of, tare_of};
ghost use Rattle.weight_rules.specs.Plan.{Follows};

use asp_base::{Lit, Memory, VecList};
use ground_program::radix;
use std::alloc::Global;

/// Radices or tares.
pub type NumberList = VecList<i64>;

/// The levels of a sum in mixed radix: the radix and the tare of each, from the lowest on, and the bound of the top
/// level.
#[derive(Drop)]
pub struct RadixPlan {
    pub radices: NumberList,
    pub tares: NumberList,
    pub top: i64,
}

/// The least number that makes the radix divide the bound.
fn tare_of(bound: u64, radix: u64) -> u64
    requires { 0 < radix }
    ensures { result ≡ tare_of bound radix }
{
    (radix - bound % radix) % radix
}

/// The levels of a sum of these weights that is to reach a bound of at least 1, also where all weights are equal or do
/// not reach it together. A weight above the bound counts as the bound, and one that is not positive counts as 0.
pub fn plan(alloc: Global, items: &[(Lit, i64)], bound: i64) -> Result<RadixPlan, Memory>
    requires { pos 0 <ℤ bound }
    ensures { let k = number_of bound in
        IfOk result (λ plan. Follows items.now k plan.radices plan.tares 1 k plan.top) }
{
    let mut radices = NumberList::new(alloc);
    let mut tares = NumberList::new(alloc);
    let mut base: u64 = 1;
    let mut top = bound as u64;
    'levels: while let Some(next) = radix(items, bound, base as i64) {
        let radix = next as u64;
        let tare = tare_of(top, radix);
        radices.push(next)?;
        tares.push(tare as i64)?;
        top = (top + tare) / radix;
        base *= radix;
    }
    Ok(RadixPlan {
        radices,
        tares,
        top: top as i64,
    })
}
