//! What the readers of texts have alike beyond fields: heads of at most one atom, and the end of a text.

ghost use Rattle.std.specs.Prelude.{◌≡◌, Ok, Err, OnOk, IfOk, IfErr};
ghost use Rattle.asp_base.specs.Faults.{Refuses};
ghost use Rattle.ground_program.specs.Draft.{Draft};
ghost use Rattle.ground_program.specs.Facts.{IsAtom, HeadFits};
ghost use Rattle.statement_fields.specs.Parts.{plain_head, ended_text};

use crate::single::atom;
use asp_scan::Scan;
use ground_program::{Head, ReadKind, ReadRefusal};

/// The head of a rule that has so many atoms, none or one. Refused with the faults of `atom`, and `Disjunction` at two
/// and more.
pub fn plain_head(scan: &mut Scan<'_>, n: u32) -> Result<Head, ReadKind>
    ensures ok { IfOk result (λ h. plain_head n scan.old.left ≡ Ok (h, scan.new.left)) }
    ensures err { IfErr result (λ kind. plain_head n scan.old.left ≡ Err kind) }
    ensures fits { IfOk result (λ h. HeadFits IsAtom h) }
    ensures rest { scan.new ≡ record scan.old { left = scan.new.left } }
{
    match n {
        0 => Ok(Head::Nothing),
        1 => Ok(Head::One(atom(scan)?)),
        _ => Err(ReadKind::Disjunction),
    }
}

/// The end of a text: behind the present line there are blank lines only. Refused with `TrailingText` at the next one
/// that is not.
pub fn ended_text(scan: &mut Scan<'_>) -> Result<(), ReadRefusal>
    ensures ok { OnOk result ((draft : Draft) → ended_text draft scan.old.ahead ≡ Ok draft) }
    ensures err { IfErr result (λ refusal. (draft : Draft) → Refuses (ended_text draft scan.old.ahead) refusal) }
{
    if scan.next_line() {
        return Err(ReadRefusal::At {
            line: scan.line(),
            kind: ReadKind::TrailingText,
        });
    }
    Ok(())
}
