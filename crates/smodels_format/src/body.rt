//! Bodies and items as they are read: how many literals there are and how many of them are negative, the atoms of the
//! negative ones and then those of the others, and where they are weighed, their weights behind them all.

ghost use Rattle.std.specs.Prelude.{◌≡◌, ◌≤◌, ◌+◌, ◌^◌, pos, map, length, Ok, Err, IfOk, OnOk, IfErr};
ghost use Rattle.std.specs.List.{AllByRecursion};
ghost use Rattle.asp_base.specs.Literal.{atom_of};
ghost use Rattle.ground_program.specs.Facts.{IsAtom, IsShort, LiteralsFit, BodyFits, FitsBodyWeight};
ghost use Rattle.statement_fields.specs.Fields.{many, Faults};
ghost use Rattle.smodels_format.specs.Read.{counts, literals, plain_body, count_body, items, weight_body};
ghost use Rattle.statement_fields.specs.private.Onto.{onto};
ghost use Rattle.smodels_format.specs.private.Steps.{signed_atom, weights_of};

use crate::sign::Sign;
use asp_base::{Lit, Memory};
use asp_scan::Scan;
use ground_program::{Body, ItemList, LitList, ReadKind};
use statement_fields::{FieldFault, atom, body_weight, count, weight};
use std::alloc::Global;

/// How many literals of a body are negative, and how many positive: the negative ones stand first.
#[derive(Clone, Copy)]
struct Lengths {
    negative: u32,
    positive: u32,
}

/// How many literals there are, and how many of them are negative. Refused with `BadNumber` where these are more.
fn counts(scan: &mut Scan<'_>) -> Result<Lengths, ReadKind>
    ensures ok { IfOk result (λ n. counts scan.old.left ≡ Ok ((n.negative, n.positive), scan.new.left)) }
    ensures err { IfErr result (λ kind. counts scan.old.left ≡ Err kind) }
    ensures short { IfOk result (λ n. n.negative + n.positive ≤ 2 ^ 24) }
    ensures rest { scan.new ≡ record scan.old { left = scan.new.left } }
{
    let lits = count(scan)?;
    let negative = count(scan)?;
    if lits < negative {
        return Err(ReadKind::BadNumber);
    }
    Ok(Lengths {
        negative,
        positive: lits - negative,
    })
}

/// Memory is taken as the literals come, never by the counts that the text claims.
fn literals(alloc: Global, scan: &mut Scan<'_>, n: Lengths) -> Result<LitList, FieldFault>
    ensures ok { IfOk result (λ lits. literals (n.negative, n.positive) scan.old.left ≡ Ok (lits, scan.new.left)) }
    ensures err { IfErr result (λ fault. Faults (literals (n.negative, n.positive) scan.old.left) fault) }
    ensures size { IfOk result (λ lits. length lits ≡ n.negative + n.positive) }
    ensures fits { IfOk result (λ lits. LiteralsFit IsAtom lits) }
    ensures rest { scan.new ≡ record scan.old { left = scan.new.left } }
{
    let mut lits = LitList::new(alloc);
    push_literals(scan, &mut lits, Sign::Negative, n.negative)?;
    push_literals(scan, &mut lits, Sign::Positive, n.positive)?;
    Ok(lits)
}

/// Puts the literals of so many atoms behind others.
fn push_literals(
    scan: &mut Scan<'_>,
    lits: &mut LitList,
    sign: Sign,
    n: u32,
) -> Result<(), FieldFault>
    requires { LiteralsFit IsAtom lits.old }
    ensures ok { OnOk result (onto lits.old (many (signed_atom sign) n scan.old.left) ≡ Ok (lits.new, scan.new.left)) }
    ensures err { IfErr result (λ fault. Faults (many (signed_atom sign) n scan.old.left) fault) }
    ensures size { OnOk result (length lits.new ≡ length lits.old + n) }
    ensures fits { OnOk result (LiteralsFit IsAtom lits.new) }
    ensures rest { scan.new ≡ record scan.old { left = scan.new.left } }
{
    for _i in 0..n {
        lits.push(signed_atom(scan, sign)?)?;
    }
    Ok(())
}

fn signed_atom(scan: &mut Scan<'_>, sign: Sign) -> Result<Lit, ReadKind>
    ensures ok { IfOk result (λ lit. signed_atom sign scan.old.left ≡ Ok (lit, scan.new.left)) }
    ensures err { IfErr result (λ kind. signed_atom sign scan.old.left ≡ Err kind) }
    ensures fits { IfOk result (λ lit. IsAtom (atom_of lit)) }
    ensures rest { scan.new ≡ record scan.old { left = scan.new.left } }
{
    Ok(sign.of(atom(scan)?))
}

/// All of the literals.
pub(crate) fn plain_body(alloc: Global, scan: &mut Scan<'_>) -> Result<Body, FieldFault>
    ensures ok { IfOk result (λ body. plain_body scan.old.left ≡ Ok (body, scan.new.left)) }
    ensures err { IfErr result (λ fault. Faults (plain_body scan.old.left) fault) }
    ensures fits { IfOk result (λ body. BodyFits IsAtom body) }
    ensures rest { scan.new ≡ record scan.old { left = scan.new.left } }
{
    let n = counts(scan)?;
    let lits = literals(alloc, scan, n)?;
    Ok(Body::All(lits))
}

/// At least so many of the literals.
pub(crate) fn count_body(alloc: Global, scan: &mut Scan<'_>) -> Result<Body, FieldFault>
    ensures ok { IfOk result (λ body. count_body scan.old.left ≡ Ok (body, scan.new.left)) }
    ensures err { IfErr result (λ fault. Faults (count_body scan.old.left) fault) }
    ensures fits { IfOk result (λ body. BodyFits IsAtom body) }
    ensures rest { scan.new ≡ record scan.old { left = scan.new.left } }
{
    let lengths = counts(scan)?;
    let bound = weight(scan)?;
    let lits = literals(alloc, scan, lengths)?;
    let items = counting_items(alloc, lits.as_slice())?;
    Ok(Body::Sum { bound, items })
}

/// The literals, each with weight 1.
fn counting_items(alloc: Global, lits: &[Lit]) -> Result<ItemList, Memory>
    ensures { IfOk result (λ items. items ≡ map (λ l. (l, pos 1)) lits.now) }
{
    let mut items = Vec::new(alloc);
    for lit in lits {
        items.push((*lit, 1))?;
    }
    Ok(ItemList::from_vec(items))
}

/// The literals, and then their weights.
pub(crate) fn items(alloc: Global, scan: &mut Scan<'_>) -> Result<ItemList, FieldFault>
    ensures ok { IfOk result (λ found. items scan.old.left ≡ Ok (found, scan.new.left)) }
    ensures err { IfErr result (λ fault. Faults (items scan.old.left) fault) }
    ensures fits { IfOk result (λ items. IsShort items
        × AllByRecursion (λ item. IsAtom (atom_of item.0) × FitsBodyWeight item.1) items) }
    ensures rest { scan.new ≡ record scan.old { left = scan.new.left } }
{
    let n = counts(scan)?;
    let lits = literals(alloc, scan, n)?;
    weighted(alloc, scan, lits.as_slice())
}

/// The literals, each with a weight that is read.
fn weighted(alloc: Global, scan: &mut Scan<'_>, lits: &[Lit]) -> Result<ItemList, FieldFault>
    requires { LiteralsFit IsAtom lits.now }
    ensures ok { IfOk result (λ items. weights_of lits.now scan.old.left ≡ Ok (items, scan.new.left)) }
    ensures err { IfErr result (λ fault. Faults (weights_of lits.now scan.old.left) fault) }
    ensures size { IfOk result (λ items. length items ≡ length lits.now) }
    ensures fits { IfOk result
        (λ items. AllByRecursion (λ item. IsAtom (atom_of item.0) × FitsBodyWeight item.1) items) }
    ensures rest { scan.new ≡ record scan.old { left = scan.new.left } }
{
    let mut items = Vec::new(alloc);
    for lit in lits {
        items.push((*lit, body_weight(scan)?))?;
    }
    Ok(ItemList::from_vec(items))
}

/// A bound, the literals, and then their weights.
pub(crate) fn weight_body(alloc: Global, scan: &mut Scan<'_>) -> Result<Body, FieldFault>
    ensures ok { IfOk result (λ body. weight_body scan.old.left ≡ Ok (body, scan.new.left)) }
    ensures err { IfErr result (λ fault. Faults (weight_body scan.old.left) fault) }
    ensures fits { IfOk result (λ body. BodyFits IsAtom body) }
    ensures rest { scan.new ≡ record scan.old { left = scan.new.left } }
{
    Ok(Body::Sum {
        bound: weight(scan)?,
        items: items(alloc, scan)?,
    })
}
