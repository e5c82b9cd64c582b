//! Names. A name may have blanks, so its length stands before it; memory is taken for bytes that are there, never by
//! the length that the text claims.

ghost use Rattle.std.specs.Prelude.{◌≡◌, true, false, drop, Ok, Err, OnOk, IfOk, IfErr};
ghost use Rattle.asp_scan.specs.Feeds.{HasNoFeed};
ghost use Rattle.asp_scan.specs.Words.{ends_token};
ghost use Rattle.statement_fields.specs.Fields.{name, past_blank, Faults};

use crate::fault::FieldFault;
use crate::single::name_length;
use asp_base::ByteList;
use asp_scan::Scan;
use ground_program::ReadKind;
use std::alloc::Global;

/// A name: its length, one blank, and so many bytes; then a blank, which is taken too, or the end of the line. Refused
/// with the faults of its length, `Missing` where the line has fewer bytes, and `BadName` where another byte follows.
#[tactic(auto, using(asp_scan::proofs::NoFeed::no_feeds))]
pub fn name(alloc: Global, scan: &mut Scan<'_>) -> Result<ByteList, FieldFault>
    ensures ok { IfOk result (λ text. past_blank (name scan.old.left) ≡ Ok (text, scan.new.left)) }
    ensures err { IfErr result (λ fault. Faults (name scan.old.left) fault) }
    ensures rest { scan.new ≡ record scan.old { left = scan.new.left } }
    // A name of a line has no line feed, as the line has none.
    ensures no_feed { HasNoFeed scan.old.left → IfOk result (λ text. HasNoFeed text) }
{
    let n = name_length(scan)?;
    let Some(bytes) = scan.next_bytes(n) else {
        return Err(FieldFault::Kind(ReadKind::Missing));
    };
    end_of_name(scan)?;
    let mut text = ByteList::new(alloc);
    text.append(bytes)?;
    Ok(text)
}

/// Takes the blank that ends a name.
#[tactic(auto, using(asp_scan::proofs::NameEnds::name_ends))]
fn end_of_name(scan: &mut Scan<'_>) -> Result<(), ReadKind>
    ensures ok { OnOk result ((ends_token scan.old.left ≡ true) × (scan.new.left ≡ drop 1 scan.old.left)) }
    ensures err { IfErr result (λ kind. (kind ≡ ReadKind.BadName) × (ends_token scan.old.left ≡ false)) }
    ensures rest { scan.new ≡ record scan.old { left = scan.new.left } }
{
    if scan.next_bytes(0).is_some() || scan.end_of_line() {
        Ok(())
    } else {
        Err(ReadKind::BadName)
    }
}
