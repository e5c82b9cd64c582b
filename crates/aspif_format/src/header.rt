//! The header of a text: the words `asp 1 0` and a revision, which is a numeral of at least 0, of any length.

ghost use Rattle.std.specs.Prelude.{◌≡◌, ◌∷◌, [], Ok, Err, IfOk, OnOk, IfErr};
ghost use Rattle.ground_program.specs.Draft.{empty_draft};
ghost use Rattle.asp_base.specs.Faults.{Refuses};
ghost use Rattle.asp_scan.specs.Scanning.{next};
ghost use Rattle.aspif_format.specs.Read.{header, revision, tag, is_natural, statements, from_lines};
ghost use Rattle.aspif_format.specs.private.Digits.{are_digits_to};

use asp_scan::Scan;
use ground_program::{ReadKind, ReadRefusal};
use statement_fields::word;

/// The header of the text, in the first line that is not blank.
pub(crate) fn header_line(scan: &mut Scan<'_>) -> Result<(), ReadRefusal>
    ensures ok { OnOk result
        (from_lines scan.old.last scan.old.ahead ≡ statements scan.old.last empty_draft scan.new.ahead) }
    ensures err { IfErr result (λ refusal. Refuses (from_lines scan.old.last scan.old.ahead) refusal) }
    ensures last { scan.new.last ≡ scan.old.last }
    ensures ahead { (next scan.old).ahead ≡ scan.new.ahead }
{
    let kind = if scan.next_line() {
        match header(scan) {
            Ok(()) => return Ok(()),
            Err(kind) => kind,
        }
    } else {
        ReadKind::BadHeader
    };
    Err(ReadRefusal::At {
        line: scan.line(),
        kind,
    })
}

/// The words `asp`, `1` and `0`, and the revision.
fn header(scan: &mut Scan<'_>) -> Result<(), ReadKind>
    ensures ok { OnOk result (header scan.old.left ≡ Ok empty_draft) }
    ensures err { IfErr result (λ kind. header scan.old.left ≡ Err kind) }
    ensures rest { scan.new ≡ record scan.old { left = scan.new.left } }
{
    word(scan, b"asp")?;
    word(scan, b"1")?;
    word(scan, b"0")?;
    revision(scan)
}

/// A numeral of at least 0.
fn revision(scan: &mut Scan<'_>) -> Result<(), ReadKind>
    ensures ok { OnOk result (revision scan.old.left ≡ Ok empty_draft) }
    ensures err { IfErr result (λ kind. revision scan.old.left ≡ Err kind) }
    ensures rest { scan.new ≡ record scan.old { left = scan.new.left } }
{
    match scan.next_word() {
        Some(token) if is_natural(token) => tag(scan),
        _ => Err(ReadKind::BadHeader),
    }
}

/// Nothing, or the word of incremental programs, which are not read.
fn tag(scan: &mut Scan<'_>) -> Result<(), ReadKind>
    ensures ok { OnOk result (tag scan.old.left ≡ Ok empty_draft) }
    ensures err { IfErr result (λ kind. tag scan.old.left ≡ Err kind) }
    ensures rest { scan.new ≡ record scan.old { left = scan.new.left } }
{
    match scan.next_word() {
        None => Ok(()),
        Some(token) if token == b"incremental".as_slice() => Err(ReadKind::Incremental),
        Some(_) => Err(ReadKind::BadHeader),
    }
}

/// Whether a token is a numeral of at least 0, of any length. Behind a minus that is a row of zeros.
#[tactic(auto, using(crate::proofs::Naturals::naturals))]
fn is_natural(token: &[u8]) -> bool
    ensures { result ≡ is_natural token.now }
{
    match token {
        [b'-', digits @ ..] => are_digits_to(b'0', digits),
        digits => are_digits_to(b'9', digits),
    }
}

/// Whether there are bytes, and each is a digit from 0 to this one.
fn are_digits_to(last: u8, bytes: &[u8]) -> bool
    ensures { result ≡ are_digits_to last bytes.now }
{
    for byte in bytes {
        if *byte < b'0' || *byte > last {
            return false;
        }
    }
    !bytes.is_empty()
}
