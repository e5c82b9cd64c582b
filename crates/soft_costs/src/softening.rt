//! Adds the levels of a program to a store as soft clauses. Each level counts more than all those below it together, as
//! in J. Marques-Silva, J. Argelich, A. Graça, I. Lynce, Boolean lexicographic optimization: algorithms & applications,
//! Annals of Mathematics and Artificial Intelligence 62, 2011. An item of positive weight is a unit clause of the
//! negated literal, and one of negative weight is a unit clause of the literal, and lowers the least that its level may
//! cost. Each item is looked at twice.

ghost use Rattle.std.specs.Prelude.{◌≡◌, ◌<◌, ◌*◌, ◌^◌, pos, nat_abs, int_lt, cond, IfOk, OnOk, OnErr};
ghost use Rattle.std.specs.List.{AllByRecursion};
ghost use Rattle.asp_base.specs.Literal.{negation};
ghost use Rattle.clause_store.specs.Facts.{IsOver};
ghost use Rattle.clause_store.specs.Soft.{with_soft};
ghost use Rattle.symbol_map.specs.Scale.{scale_of, total};
ghost use Rattle.soft_costs.specs.Outcome.{AddsSoft, AreOver, IsScale, Softened};
ghost use Rattle.soft_costs.specs.private.Scaling.{AreFactors};
ghost use Rattle.soft_costs.specs.Softening.{factors_of, soft_of, soft_of_item, soft_of_items};

use crate::least_costs::{as_costs, least_costs};
use crate::scale::{Scale, ScaleRefusal, Scaled, factors};
use asp_base::{Lit, Memory};
use clause_store::Store;
use ground_program::Level;
use std::alloc::Global;

/// Adds soft clauses to the store so that minimizing what they cost minimizes the levels in turn, from the highest
/// priority on. Levels stand by falling priority.
///
/// The scale starts at 1, and is multiplied at each level, from the lowest priority on, by the sum of the magnitudes of
/// its weights plus 1. Where it passes 2^63 - 1 the priority of that level is answered, and the store is unchanged.
/// After `Memory` the store may hold some of the soft clauses.
pub fn soften(alloc: Global, levels: &[Level], store: &mut Store) -> Result<Scale, ScaleRefusal>
    requires { AreOver store.old.vars levels.now }
    ensures { Softened levels.now store.old store.new result }
{
    match factors(alloc, levels) {
        Ok(scaled) => match add(alloc, levels, &scaled, store) {
            Ok(scale) => Ok(scale),
            Err(Memory) => Err(ScaleRefusal::Memory),
        },
        Err(refusal) => Err(refusal),
    }
}

/// Adds the soft clauses of levels whose factors are known.
fn add(alloc: Global, levels: &[Level], scaled: &Scaled, store: &mut Store) -> Result<Scale, Memory>
    requires scaled { AreFactors levels.now scaled.now }
    requires over { AreOver store.old.vars levels.now }
    ensures scale { IfOk result (λ scale. IsScale levels.now scale) }
    ensures soft { OnOk result (store.new ≡ with_soft (soft_of levels.now) store.old) }
    ensures err { OnErr result (AddsSoft store.old store.new) }
{
    push_levels(store, scaled.factors.as_slice(), levels)?;
    Ok(Scale {
        factors: as_costs(alloc, scaled.factors.as_slice())?,
        offsets: least_costs(alloc, levels)?,
        top: scaled.top,
    })
}

/// Adds the soft clauses of each level, by rising priority.
fn push_levels(store: &mut Store, factors: &[u64], levels: &[Level]) -> Result<(), Memory>
    requires factors { factors.now ≡ factors_of levels.now }
    requires below { scale_of levels.now < 2 ^ 63 }
    requires over { AreOver store.old.vars levels.now }
    ensures ok { OnOk result (store.new ≡ with_soft (soft_of levels.now) store.old) }
    ensures err { OnErr result (AddsSoft store.old store.new) }
{
    for i in (0..levels.len()).rev() {
        push_items(store, factors[i], levels[i].items.as_slice())?;
    }
    Ok(())
}

/// Adds the soft clauses of a level's items.
fn push_items(store: &mut Store, factor: u64, items: &[(Lit, i64)]) -> Result<(), Memory>
    requires above { 0 < factor }
    requires below { factor * total items.now < 2 ^ 63 }
    requires over { AllByRecursion (λ item. IsOver store.old.vars item.0) items.now }
    ensures ok { OnOk result (store.new ≡ with_soft (soft_of_items factor items.now) store.old) }
    ensures err { OnErr result (AddsSoft store.old store.new) }
{
    for item in items {
        push_item(store, factor, item)?;
    }
    Ok(())
}

/// Adds the soft clause of an item whose weight is not 0.
fn push_item(store: &mut Store, factor: u64, item: &(Lit, i64)) -> Result<(), Memory>
    requires above { 0 < factor }
    requires below { factor * nat_abs item.now.1 < 2 ^ 63 }
    requires over { IsOver store.old.vars item.now.0 }
    ensures ok { OnOk result (store.new ≡ with_soft (soft_of_item factor item.now.0 item.now.1) store.old) }
    ensures err { OnErr result (store.new ≡ store.old) }
{
    if item.1 == 0 {
        return Ok(());
    }
    store.soft(factor * item.1.unsigned_abs(), &[least_literal(item)])
}

/// The literal that is true where the item costs the least that it may cost.
fn least_literal(item: &(Lit, i64)) -> Lit
    ensures { result ≡ cond (int_lt (pos 0) item.now.1) (negation item.now.0) item.now.0 }
{
    if item.1 > 0 { item.0.negate() } else { item.0 }
}
