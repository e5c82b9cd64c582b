//! Heads and bodies of rules, each of a kind that a number before it tells.

ghost use Rattle.std.specs.Prelude.{◌≡◌, ◌≤◌, ◌^◌, Ok, Err, IfOk, IfErr};
ghost use Rattle.ground_program.specs.Facts.{IsAtom, HeadFits, BodyFits};
ghost use Rattle.statement_fields.specs.Fields.{Faults};
ghost use Rattle.aspif_format.specs.Read.{head, head_of_kind, body, body_of_kind};

use asp_scan::Scan;
use ground_program::{Body, Head};
use statement_fields::{
    FieldFault, body_items, choice, count, literals, many_atoms, plain_head, weight,
};
use std::alloc::Global;

/// The head of a rule: a plain one or a choice, and its atoms.
pub(crate) fn head(alloc: Global, scan: &mut Scan<'_>) -> Result<Head, FieldFault>
    ensures ok { IfOk result (λ h. head scan.old.left ≡ Ok (h, scan.new.left)) }
    ensures err { IfErr result (λ fault. Faults (head scan.old.left) fault) }
    ensures fits { IfOk result (λ h. HeadFits IsAtom h) }
    ensures rest { scan.new ≡ record scan.old { left = scan.new.left } }
{
    let kind = choice(scan, 1)?;
    let n = count(scan)?;
    head_of_kind(alloc, scan, kind, n)
}

fn head_of_kind(alloc: Global, scan: &mut Scan<'_>, kind: u32, n: u32) -> Result<Head, FieldFault>
    requires kind { kind ≤ 1 }
    requires short { n ≤ 2 ^ 24 }
    ensures ok { IfOk result (λ h. head_of_kind kind n scan.old.left ≡ Ok (h, scan.new.left)) }
    ensures err { IfErr result (λ fault. Faults (head_of_kind kind n scan.old.left) fault) }
    ensures fits { IfOk result (λ h. HeadFits IsAtom h) }
    ensures rest { scan.new ≡ record scan.old { left = scan.new.left } }
{
    match kind {
        0 => Ok(plain_head(scan, n)?),
        _ => Ok(Head::Choice(many_atoms(alloc, scan, n)?)),
    }
}

/// The body of a rule: literals, or a bound and literals with weights.
pub(crate) fn body(alloc: Global, scan: &mut Scan<'_>) -> Result<Body, FieldFault>
    ensures ok { IfOk result (λ b. body scan.old.left ≡ Ok (b, scan.new.left)) }
    ensures err { IfErr result (λ fault. Faults (body scan.old.left) fault) }
    ensures fits { IfOk result (λ b. BodyFits IsAtom b) }
    ensures rest { scan.new ≡ record scan.old { left = scan.new.left } }
{
    let kind = choice(scan, 1)?;
    body_of_kind(alloc, scan, kind)
}

fn body_of_kind(alloc: Global, scan: &mut Scan<'_>, kind: u32) -> Result<Body, FieldFault>
    ensures ok { IfOk result (λ b. body_of_kind kind scan.old.left ≡ Ok (b, scan.new.left)) }
    ensures err { IfErr result (λ fault. Faults (body_of_kind kind scan.old.left) fault) }
    ensures fits { IfOk result (λ b. BodyFits IsAtom b) }
    ensures rest { scan.new ≡ record scan.old { left = scan.new.left } }
{
    match kind {
        0 => Ok(Body::All(literals(alloc, scan)?)),
        _ => {
            let bound = weight(scan)?;
            let items = body_items(alloc, scan)?;
            Ok(Body::Sum { bound, items })
        }
    }
}
