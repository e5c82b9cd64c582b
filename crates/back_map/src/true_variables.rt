//! The assignment that a table of named literals stands for.

ghost use Rattle.std.specs.Prelude.{◌≡◌, ◌+◌, ◌<◌, ◌≤◌, ◌^◌, ℕ, None, get_or, length, IfOk};
ghost use Rattle.std.specs.List.{AllByRecursion};
ghost use Rattle.asp_base.specs.Literal.{Pos};
ghost use Rattle.asp_base.specs.Sets.{members};
ghost use Rattle.clause_store.specs.Assigned.{true_in};
ghost use Rattle.back_map.specs.private.Reading.{agrees};

use asp_base::Memory;
use clause_store::Assignment;
use std::alloc::Global;

/// The variables that were named as true have the value true, and others false.
pub(crate) fn assignment(
    alloc: Global,
    vars: u32,
    values: &[Option<bool>],
) -> Result<Assignment, Memory>
    requires vars { vars < 2 ^ 31 }
    requires len { length values.now ≡ vars + 1 }
    requires zero { get_or values.now 0 None ≡ None }
    ensures len { IfOk result (λ a. length a ≡ vars) }
    ensures is { IfOk result (λ a. (v : ℕ) → true_in a v ≡ agrees (Pos v) (get_or values.now v None)) }
{
    let variables = named_true(alloc, vars, values)?;
    Assignment::of(alloc, vars, variables.as_slice())
}

/// The variables that were named as true, rising.
fn named_true(alloc: Global, vars: u32, values: &[Option<bool>]) -> Result<Vec<u32>, Memory>
    requires vars { vars < 2 ^ 31 }
    requires len { length values.now ≡ vars + 1 }
    requires zero { get_or values.now 0 None ≡ None }
    ensures over { IfOk result (λ xs. AllByRecursion (λ v. (0 < v) × (v ≤ vars)) xs.items) }
    ensures is { IfOk result (λ xs. (v : ℕ) → members xs.items v ≡ agrees (Pos v) (get_or values.now v None)) }
{
    let mut variables = Vec::new(alloc);
    for v in 1..vars + 1 {
        if is_true(values[v as usize]) {
            variables.push(v)?;
        }
    }
    Ok(variables)
}

/// Whether a variable with this entry was named as true.
fn is_true(entry: Option<bool>) -> bool
    ensures { (v : ℕ) → result ≡ agrees (Pos v) entry }
{
    match entry {
        Some(value) => value,
        None => false,
    }
}
