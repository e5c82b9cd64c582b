//! Literals over the variables of a map, alone, with weights, and counted. Memory is taken as the entries come.

ghost use Rattle.std.specs.Prelude.{◌≡◌, ◌<◌, ◌≤◌, ◌^◌, length, Ok, Err, IfOk, IfErr};
ghost use Rattle.std.specs.List.{AllByRecursion};
ghost use Rattle.asp_base.specs.Literal.{atom_of};
ghost use Rattle.ground_program.specs.Facts.{IsShort, LiteralsFit, ConditionFits, FitsWeight};
ghost use Rattle.statement_fields.specs.Fields.{many, counted, Faults};
ghost use Rattle.symbol_map.specs.IsMap.{IsVariable};
ghost use Rattle.symbol_map.specs.Read.{over, item_over};

use asp_base::Lit;
use asp_scan::Scan;
use ground_program::{ItemList, LitList, ReadKind};
use statement_fields::{FieldFault, count, number, weight};
use std::alloc::Global;

/// A literal over the variables 1 to `vars`.
pub(crate) fn literal(scan: &mut Scan<'_>, vars: u32) -> Result<Lit, ReadKind>
    requires { vars < 2 ^ 31 }
    ensures ok { IfOk result (λ lit. over vars scan.old.left ≡ Ok (lit, scan.new.left)) }
    ensures err { IfErr result (λ kind. over vars scan.old.left ≡ Err kind) }
    ensures fits { IfOk result (λ lit. IsVariable vars (atom_of lit)) }
    ensures rest { scan.new ≡ record scan.old { left = scan.new.left } }
{
    let n = number(scan)?;
    if n == 0 || n.unsigned_abs() > vars as u64 {
        return Err(ReadKind::AtomTooLarge);
    }
    match Lit::new(n as i32) {
        Some(lit) => Ok(lit),
        None => Err(ReadKind::AtomTooLarge),
    }
}

/// A literal over the variables 1 to `vars`, and its weight.
fn item(scan: &mut Scan<'_>, vars: u32) -> Result<(Lit, i64), ReadKind>
    requires { vars < 2 ^ 31 }
    ensures ok { IfOk result (λ item. item_over vars scan.old.left ≡ Ok (item, scan.new.left)) }
    ensures err { IfErr result (λ kind. item_over vars scan.old.left ≡ Err kind) }
    ensures fits { IfOk result (λ item. IsVariable vars (atom_of item.0) × FitsWeight item.1) }
    ensures rest { scan.new ≡ record scan.old { left = scan.new.left } }
{
    let lit = literal(scan, vars)?;
    Ok((lit, weight(scan)?))
}

/// A count, and so many literals.
pub(crate) fn literals(alloc: Global, scan: &mut Scan<'_>, vars: u32) -> Result<LitList, FieldFault>
    requires { vars < 2 ^ 31 }
    ensures ok { IfOk result (λ lits. counted (over vars) scan.old.left ≡ Ok (lits, scan.new.left)) }
    ensures err { IfErr result (λ fault. Faults (counted (over vars) scan.old.left) fault) }
    ensures fits { IfOk result (λ lits. ConditionFits (IsVariable vars) lits) }
    ensures rest { scan.new ≡ record scan.old { left = scan.new.left } }
{
    let n = count(scan)?;
    many_literals(alloc, scan, vars, n)
}

fn many_literals(
    alloc: Global,
    scan: &mut Scan<'_>,
    vars: u32,
    n: u32,
) -> Result<LitList, FieldFault>
    requires { vars < 2 ^ 31 }
    ensures ok { IfOk result (λ lits. many (over vars) n scan.old.left ≡ Ok (lits, scan.new.left)) }
    ensures err { IfErr result (λ fault. Faults (many (over vars) n scan.old.left) fault) }
    ensures size { IfOk result (λ lits. length lits ≡ n) }
    ensures fits { IfOk result (λ lits. LiteralsFit (IsVariable vars) lits) }
    ensures rest { scan.new ≡ record scan.old { left = scan.new.left } }
{
    let mut lits = LitList::new(alloc);
    for _i in 0..n {
        lits.push(literal(scan, vars)?)?;
    }
    Ok(lits)
}

/// A count, and so many literals with their weights.
pub(crate) fn items(alloc: Global, scan: &mut Scan<'_>, vars: u32) -> Result<ItemList, FieldFault>
    requires { vars < 2 ^ 31 }
    ensures ok { IfOk result (λ items. counted (item_over vars) scan.old.left ≡ Ok (items, scan.new.left)) }
    ensures err { IfErr result (λ fault. Faults (counted (item_over vars) scan.old.left) fault) }
    ensures fits { IfOk result (λ items. IsShort items × AllByRecursion
        (λ item. IsVariable vars (atom_of item.0) × FitsWeight item.1) items) }
    ensures rest { scan.new ≡ record scan.old { left = scan.new.left } }
{
    let n = count(scan)?;
    many_items(alloc, scan, vars, n)
}

fn many_items(alloc: Global, scan: &mut Scan<'_>, vars: u32, n: u32) -> Result<ItemList, FieldFault>
    requires { vars < 2 ^ 31 }
    ensures ok { IfOk result (λ items. many (item_over vars) n scan.old.left ≡ Ok (items, scan.new.left)) }
    ensures err { IfErr result (λ fault. Faults (many (item_over vars) n scan.old.left) fault) }
    ensures size { IfOk result (λ items. length items ≡ n) }
    ensures fits { IfOk result (λ items. AllByRecursion
        (λ item. IsVariable vars (atom_of item.0) × FitsWeight item.1) items) }
    ensures rest { scan.new ≡ record scan.old { left = scan.new.left } }
{
    let mut items = ItemList::new(alloc);
    for _i in 0..n {
        items.push(item(scan, vars)?)?;
    }
    Ok(items)
}
