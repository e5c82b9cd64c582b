//! Fields of several entries: a count, and so many of one kind. Memory is taken as the entries come, never by the count
//! that the text claims.

ghost use Rattle.std.specs.Prelude.{◌≡◌, ◌≤◌, ◌^◌, ◌∷◌, ◌++◌, length, Ok, Err, IfOk, IfErr};
ghost use Rattle.std.specs.List.{AllByRecursion};
ghost use Rattle.asp_base.specs.Literal.{atom_of};
ghost use Rattle.ground_program.specs.Facts.{IsAtom, IsShort, LiteralsFit, ConditionFits, FitsWeight, FitsBodyWeight};
ghost use Rattle.statement_fields.specs.Fields.{atom, literal, weight, body_weight, many, counted, item, Faults};
ghost use Rattle.statement_fields.specs.private.Weights.{weight_field, WeightFits, ItemFits};

use crate::fault::FieldFault;
use crate::single::{atom, body_weight, count, literal, weight};
use asp_base::Lit;
use asp_scan::Scan;
use ground_program::{AtomList, ItemList, LitList, ReadKind};
use std::alloc::Global;

/// Which weights items have.
#[derive(Clone, Copy)]
pub(crate) enum Weights {
    OfBody,
    OfLevel,
}

/// A count, and so many literals. Refused with the faults of `count` and `literal`, or want of memory.
pub fn literals(alloc: Global, scan: &mut Scan<'_>) -> Result<LitList, FieldFault>
    ensures ok { IfOk result (λ lits. counted literal scan.old.left ≡ Ok (lits, scan.new.left)) }
    ensures err { IfErr result (λ fault. Faults (counted literal scan.old.left) fault) }
    ensures fits { IfOk result (λ lits. ConditionFits IsAtom lits) }
    ensures rest { scan.new ≡ record scan.old { left = scan.new.left } }
{
    let n = count(scan)?;
    many_literals(alloc, scan, n)
}

fn many_literals(alloc: Global, scan: &mut Scan<'_>, n: u32) -> Result<LitList, FieldFault>
    ensures ok { IfOk result (λ lits. many literal n scan.old.left ≡ Ok (lits, scan.new.left)) }
    ensures err { IfErr result (λ fault. Faults (many literal n scan.old.left) fault) }
    ensures size { IfOk result (λ lits. length lits ≡ n) }
    ensures fits { IfOk result (λ lits. LiteralsFit IsAtom lits) }
    ensures rest { scan.new ≡ record scan.old { left = scan.new.left } }
{
    let mut lits = LitList::new(alloc);
    for _i in 0..n {
        lits.push(literal(scan)?)?;
    }
    Ok(lits)
}

/// A count, and so many atoms. Refused with the faults of `count` and `atom`, or want of memory.
pub fn atoms(alloc: Global, scan: &mut Scan<'_>) -> Result<AtomList, FieldFault>
    ensures ok { IfOk result (λ atoms. counted atom scan.old.left ≡ Ok (atoms, scan.new.left)) }
    ensures err { IfErr result (λ fault. Faults (counted atom scan.old.left) fault) }
    ensures fits { IfOk result (λ atoms. IsShort atoms × AllByRecursion IsAtom atoms) }
    ensures rest { scan.new ≡ record scan.old { left = scan.new.left } }
{
    let n = count(scan)?;
    many_atoms(alloc, scan, n)
}

/// So many atoms. Refused with the faults of `atom`, or want of memory.
pub fn many_atoms(alloc: Global, scan: &mut Scan<'_>, n: u32) -> Result<AtomList, FieldFault>
    ensures ok { IfOk result (λ atoms. many atom n scan.old.left ≡ Ok (atoms, scan.new.left)) }
    ensures err { IfErr result (λ fault. Faults (many atom n scan.old.left) fault) }
    ensures size { IfOk result (λ atoms. length atoms ≡ n) }
    ensures fits { IfOk result (λ atoms. AllByRecursion IsAtom atoms) }
    ensures rest { scan.new ≡ record scan.old { left = scan.new.left } }
{
    let mut atoms = AtomList::new(alloc);
    for _i in 0..n {
        atoms.push(atom(scan)?)?;
    }
    Ok(atoms)
}

/// A count, and so many literals with weights of a body. Refused with the faults of `count`, `literal` and
/// `body_weight`, or want of memory.
pub fn body_items(alloc: Global, scan: &mut Scan<'_>) -> Result<ItemList, FieldFault>
    ensures ok { IfOk result (λ items. counted (item body_weight) scan.old.left ≡ Ok (items, scan.new.left)) }
    ensures err { IfErr result (λ fault. Faults (counted (item body_weight) scan.old.left) fault) }
    ensures fits { IfOk result (λ items. IsShort items
        × AllByRecursion (λ item. IsAtom (atom_of item.0) × FitsBodyWeight item.1) items) }
    ensures rest { scan.new ≡ record scan.old { left = scan.new.left } }
{
    let n = count(scan)?;
    many_items(alloc, scan, Weights::OfBody, n)
}

/// A count, and so many literals with weights of a level. Refused with the faults of `count`, `literal` and `weight`,
/// or want of memory.
pub fn level_items(alloc: Global, scan: &mut Scan<'_>) -> Result<ItemList, FieldFault>
    ensures ok { IfOk result (λ items. counted (item weight) scan.old.left ≡ Ok (items, scan.new.left)) }
    ensures err { IfErr result (λ fault. Faults (counted (item weight) scan.old.left) fault) }
    ensures fits { IfOk result (λ items. IsShort items
        × AllByRecursion (λ item. IsAtom (atom_of item.0) × FitsWeight item.1) items) }
    ensures rest { scan.new ≡ record scan.old { left = scan.new.left } }
{
    let n = count(scan)?;
    many_items(alloc, scan, Weights::OfLevel, n)
}

fn many_items(
    alloc: Global,
    scan: &mut Scan<'_>,
    weights: Weights,
    n: u32,
) -> Result<ItemList, FieldFault>
    ensures ok { IfOk result
        (λ items. many (item (weight_field weights)) n scan.old.left ≡ Ok (items, scan.new.left)) }
    ensures err { IfErr result (λ fault. Faults (many (item (weight_field weights)) n scan.old.left) fault) }
    ensures size { IfOk result (λ items. length items ≡ n) }
    ensures fits { IfOk result (λ items. AllByRecursion (ItemFits weights) items) }
    ensures rest { scan.new ≡ record scan.old { left = scan.new.left } }
{
    let mut items = ItemList::new(alloc);
    for _i in 0..n {
        items.push(item(scan, weights)?)?;
    }
    Ok(items)
}

fn item(scan: &mut Scan<'_>, weights: Weights) -> Result<(Lit, i64), ReadKind>
    ensures ok { IfOk result (λ one. item (weight_field weights) scan.old.left ≡ Ok (one, scan.new.left)) }
    ensures err { IfErr result (λ kind. item (weight_field weights) scan.old.left ≡ Err kind) }
    ensures fits { IfOk result (λ one. ItemFits weights one) }
    ensures rest { scan.new ≡ record scan.old { left = scan.new.left } }
{
    let lit = literal(scan)?;
    Ok((lit, weight_of(scan, weights)?))
}

fn weight_of(scan: &mut Scan<'_>, weights: Weights) -> Result<i64, ReadKind>
    ensures ok { IfOk result (λ n. weight_field weights scan.old.left ≡ Ok (n, scan.new.left)) }
    ensures err { IfErr result (λ kind. weight_field weights scan.old.left ≡ Err kind) }
    ensures fits { IfOk result (λ n. WeightFits weights n) }
    ensures rest { scan.new ≡ record scan.old { left = scan.new.left } }
{
    match weights {
        Weights::OfBody => body_weight(scan),
        Weights::OfLevel => weight(scan),
    }
}
