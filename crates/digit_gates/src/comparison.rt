//! Which of two numbers in binary digits is below the other: from the least digits upward, two digits of each in one
//! gate. So a comparison has one variable for two digits, and 14 clauses in place of 12 with two variables.

ghost use Rattle.std.specs.Prelude.{◌≡◌, ◌+◌, ◌<◌, ◌^◌, length, [], ◌∷◌, IfOk, OnOk, OnErr};
ghost use Rattle.std.specs.List.{AllByRecursion};
ghost use Rattle.clause_store.specs.Extension.{Extends};
ghost use Rattle.gate_tables.specs.Tables.{lt_pair_rows};
ghost use Rattle.clause_store.specs.Facts.{IsOver};
ghost use Rattle.clause_store.specs.Gates.{after_gate};
ghost use Rattle.digit_gates.specs.DigitGates.{output, after_less, less_output, less_vars, IsLess};

use asp_base::{Lit, Memory};
use clause_store::Store;
use gate_tables::{lt_first, lt_pair, lt_step};
use ground_program::LitList;

/// Whether the number with the digits `x1`, `x0` is below that of `y1`, `y0`, or where they are equal, `below` holds.
fn less_pair(
    store: &mut Store,
    x1: Lit,
    x0: Lit,
    y1: Lit,
    y0: Lit,
    below: Lit,
) -> Result<Lit, Memory>
    requires over { AllByRecursion (IsOver store.old.vars) (x1 ∷ x0 ∷ y1 ∷ y0 ∷ below ∷ []) }
    requires room { store.old.vars + 1 < 2 ^ 31 }
    ensures literal { IfOk result (λ l. l ≡ output store.old) }
    ensures store { OnOk result (store.new ≡ after_gate lt_pair_rows (x1 ∷ x0 ∷ y1 ∷ y0 ∷ below ∷ []) store.old) }
    ensures err { OnErr result (store.new ≡ store.old) }
{
    store.gate(&lt_pair(), [x1, x0, y1, y0, below])
}

/// A literal that is true just where the number of `x` is below that of `y`. After `Memory` the store may hold some of
/// the gates.
pub fn less(store: &mut Store, x: &LitList, y: &LitList) -> Result<Lit, Memory>
    requires some { 0 < length x.now }
    requires same { length x.now ≡ length y.now }
    requires over_x { AllByRecursion (IsOver store.old.vars) x.now }
    requires over_y { AllByRecursion (IsOver store.old.vars) y.now }
    requires room { store.old.vars + less_vars (length x.now) < 2 ^ 31 }
    ensures literal { IfOk result (λ l. l ≡ less_output x.now y.now store.old) }
    ensures store { OnOk result (store.new ≡ after_less x.now y.now store.old) }
    ensures is { IfOk result (λ l. IsLess x.now y.now l store.old store.new) }
    ensures err { OnErr result (Extends store.old store.new) }
{
    store.known();
    let xs = x.as_slice();
    let ys = y.as_slice();
    let mut below = store.gate(&lt_first(), [xs[0], ys[0]])?;
    let mut i = 1;
    while i + 1 < xs.len() {
        below = less_pair(store, xs[i + 1], xs[i], ys[i + 1], ys[i], below)?;
        i += 2;
    }
    if i < xs.len() {
        below = store.gate(&lt_step(), [xs[i], ys[i], below])?;
    }
    Ok(below)
}
