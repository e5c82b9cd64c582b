//! New digits, whose number nothing says yet.

ghost use Rattle.std.specs.Prelude.{◌≡◌, ◌+◌, ◌<◌, ◌^◌, ℕ, ◌≤◌, IfOk, OnOk, OnErr};
ghost use Rattle.digit_gates.specs.DigitGates.{with_variables, variables_from, AreNewDigits};

use asp_base::Memory;
use clause_store::Store;
use ground_program::LitList;

/// `w` new variables without clauses, as the digits of any number below 2^w, least digit first. After `Memory` the
/// store may hold some of them.
pub fn digits(store: &mut Store, w: u32) -> Result<LitList, Memory>
    requires { store.old.vars + w < 2 ^ 31 }
    ensures digits { IfOk result (λ x. x ≡ variables_from w store.old.vars) }
    ensures is { IfOk result (λ x. AreNewDigits w x store.old store.new) }
    ensures store { OnOk result (store.new ≡ with_variables w store.old) }
    ensures err { OnErr result ((k : ℕ) × (k ≤ w) × (store.new ≡ with_variables k store.old)) }
{
    let mut made = LitList::new(store.allocator());
    for _ in 0..w {
        made.push(store.fresh()?)?;
    }
    Ok(made)
}
