//! The digits of the atoms of cyclic components: so many for each atom as its component's number of atoms has, with
//! clauses that they are all 0 just where the atom is false.

ghost use Rattle.std.specs.Prelude.{◌≡◌, ◌+◌, ◌*◌, ◌<◌, ◌≤◌, ◌^◌, [], true, false, cond, length, MatchOption, IfOk, OnOk};
ghost use Rattle.std.specs.List.{AllByRecursion, filter};
ghost use Rattle.asp_base.specs.Sets.{members};
ghost use Rattle.rising_numbers.specs.Rising.{place};
ghost use Rattle.clause_store.specs.Facts.{IsOver};
ghost use Rattle.level_ranking.specs.Encoding.{digit_clauses, after_atom_digits, after_digits};
ghost use Rattle.clause_store.specs.Stored.{with_clauses};
ghost use Rattle.digit_gates.specs.DigitGates.{variables_from};
ghost use Rattle.components.specs.Divided.{part_of};
ghost use Rattle.level_ranking.specs.private.Sources.{is_ranked, width_among, AreNumbered, digit_table};

use asp_base::{Lit, Memory};
use clause_store::Store;
use components::Parts;
use digit_gates::digits;
use ground_program::{LitList, digits as binary_digits};
use std::alloc::Global;

/// The number of an atom's component, where it is cyclic.
pub(crate) fn cyclic_part(parts: &Parts, atom: u32) -> Option<u64>
    requires numbered { AreNumbered parts.now }
    requires among { members parts.now.atoms atom ≡ true }
    ensures { MatchOption result (is_ranked parts.now atom ≡ false)
        (λ part. (part ≡ part_of parts.now atom) × (is_ranked parts.now atom ≡ true)) }
{
    let Some(part) = parts.of(atom) else {
        unreachable!()
    };
    if parts.is_cyclic(part) {
        Some(part)
    } else {
        None
    }
}

/// Adds the clauses that the digits of an atom that is false are 0, and that those of one that is true are not.
fn add_digit_clauses(store: &mut Store, var: u32, number: &LitList) -> Result<(), Memory>
    requires variable { 0 < var }
    requires within { var ≤ store.old.vars }
    requires over { AllByRecursion (IsOver store.old.vars) number.now }
    ensures { OnOk result (store.new ≡ with_clauses (digit_clauses var number.now) store.old) }
{
    store.known();
    let atom = Lit::positive(var);
    let mut some = LitList::new(store.allocator());
    some.push(atom.negate())?;
    let lits = number.as_slice();
    for lit in lits {
        store.clause(&[atom, lit.negate()])?;
        some.push(*lit)?;
    }
    store.clause(some.as_slice())?;
    Ok(())
}

/// The digits of an atom with this variable, with their clauses; none where its component is not cyclic.
fn add_number(store: &mut Store, parts: &Parts, atom: u32, var: u32) -> Result<LitList, Memory>
    requires numbered { AreNumbered parts.now }
    requires among { members parts.now.atoms atom ≡ true }
    requires variable { 0 < var }
    requires within { var ≤ store.old.vars }
    requires room { store.old.vars
        + cond (is_ranked parts.now atom) (width_among parts.now parts.now.atoms atom) 0 < 2 ^ 31 }
    ensures digits { IfOk result (λ x. x ≡ cond (is_ranked parts.now atom)
        (variables_from (width_among parts.now parts.now.atoms atom) store.old.vars) []) }
    ensures store { OnOk result (store.new ≡ cond (is_ranked parts.now atom)
        (after_atom_digits var (width_among parts.now parts.now.atoms atom) store.old) store.old) }
{
    let Some(part) = cyclic_part(parts, atom) else {
        return Ok(LitList::new(store.allocator()));
    };
    let width = binary_digits(parts.members(part).len() as u64) as u32;
    let number = digits(store, width)?;
    add_digit_clauses(store, var, &number)?;
    Ok(number)
}

/// The digits of each atom, with their clauses; none for an atom of no cyclic component.
pub(crate) fn numbers(
    alloc: Global,
    atoms: &[u32],
    parts: &Parts,
    store: &mut Store,
) -> Result<Vec<LitList>, Memory>
    requires numbered { AreNumbered parts.now }
    requires same { parts.now.atoms ≡ atoms.now }
    requires within { length atoms.now ≤ store.old.vars }
    requires room { let d = parts.now in (after_digits (place atoms.now) (width_among d atoms.now)
        (filter (is_ranked d) atoms.now) store.old).vars < 2 ^ 31 }
    ensures store { OnOk result (let d = parts.now in store.new ≡ after_digits (place atoms.now)
        (width_among d atoms.now) (filter (is_ranked d) atoms.now) store.old) }
    ensures table { IfOk result (λ table. let d = parts.now in
        table.items ≡ digit_table (is_ranked d) (width_among d atoms.now) atoms.now store.old.vars) }
{
    let mut table = Vec::new(alloc);
    for (i, atom) in atoms.iter().enumerate() {
        let number = add_number(store, parts, *atom, i as u32 + 1)?;
        table.push(number)?;
    }
    Ok(table)
}
