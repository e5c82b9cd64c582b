//! Bodies of new rules: that a rule fires with its edges chosen, and that it fires while an atom comes later than each
//! of its atoms.

ghost use Rattle.std.specs.Prelude.{◌≡◌, ◌∷◌, map, IfOk};
ghost use Rattle.asp_base.specs.Literal.{Pos, Neg};
ghost use Rattle.acyc_edges.specs.declared.name.Name.TheVariants.{Fires, Chosen, NoLater};
ghost use Rattle.acyc_edges.specs.private.Numbers.{number_of};

use crate::name::Name;
use crate::numbers::Numbers;
use asp_base::{Lit, Memory};
use ground_program::LitList;
use std::alloc::Global;

/// That the rule fires with the edges from its head to these atoms chosen.
pub(crate) fn chosen_body(
    alloc: Global,
    numbers: &Numbers,
    rule: u32,
    head: u32,
    inner: &[u32],
) -> Result<LitList, Memory>
    ensures { IfOk result (λ lits. lits ≡ Pos (number_of numbers.now (Fires rule))
        ∷ map (λ b. Pos (number_of numbers.now (Chosen head b))) inner.now) }
{
    let mut lits = LitList::new(alloc);
    lits.push(Lit::positive(numbers.of(Name::Fires(rule))))?;
    for atom in inner {
        lits.push(Lit::positive(numbers.of(Name::Chosen(head, *atom))))?;
    }
    Ok(lits)
}

/// That the rule fires, and the atom comes later than each of these.
pub(crate) fn later_body(
    alloc: Global,
    numbers: &Numbers,
    rule: u32,
    atom: u32,
    inner: &[u32],
) -> Result<LitList, Memory>
    ensures { IfOk result (λ lits. lits ≡ Pos (number_of numbers.now (Fires rule))
        ∷ map (λ b. Neg (number_of numbers.now (NoLater atom b))) inner.now) }
{
    let mut lits = LitList::new(alloc);
    lits.push(Lit::positive(numbers.of(Name::Fires(rule))))?;
    for other in inner {
        lits.push(Lit::positive(numbers.of(Name::NoLater(atom, *other))).negate())?;
    }
    Ok(lits)
}
