//! The first line of a map.

ghost use Rattle.std.specs.Prelude.{◌≡◌, ◌<◌, ◌^◌, Ok, Err, IfOk, IfErr};
ghost use Rattle.symbol_map.specs.Read.{header, form, variables};

use crate::map::Form;
use asp_scan::Scan;
use ground_program::ReadKind;
use statement_fields::{ended, number, word};

/// `map 1`, a form and a number of variables.
pub(crate) fn header(scan: &mut Scan<'_>) -> Result<(Form, u32), ReadKind>
    ensures ok { IfOk result (λ h. header scan.old.left ≡ Ok h) }
    ensures err { IfErr result (λ kind. header scan.old.left ≡ Err kind) }
    ensures vars { IfOk result (λ h. h.1 < 2 ^ 31) }
    ensures rest { scan.new ≡ record scan.old { left = scan.new.left } }
{
    word(scan, b"map")?;
    word(scan, b"1")?;
    let form = form(scan)?;
    let vars = variables(scan)?;
    ended(scan)?;
    Ok((form, vars))
}

/// A form.
fn form(scan: &mut Scan<'_>) -> Result<Form, ReadKind>
    ensures ok { IfOk result (λ f. form scan.old.left ≡ Ok (f, scan.new.left)) }
    ensures err { IfErr result (λ kind. form scan.old.left ≡ Err kind) }
    ensures rest { scan.new ≡ record scan.old { left = scan.new.left } }
{
    let Some(text) = scan.next_word() else {
        return Err(ReadKind::BadHeader);
    };
    if text == b"cnf".as_slice() {
        Ok(Form::Cnf)
    } else if text == b"ecnf".as_slice() {
        Ok(Form::Ecnf)
    } else if text == b"wcnf".as_slice() {
        Ok(Form::Wcnf)
    } else {
        Err(ReadKind::BadHeader)
    }
}

/// A number of variables, from 0 to 2^31 - 1.
fn variables(scan: &mut Scan<'_>) -> Result<u32, ReadKind>
    ensures ok { IfOk result (λ n. variables scan.old.left ≡ Ok (n, scan.new.left)) }
    ensures err { IfErr result (λ kind. variables scan.old.left ≡ Err kind) }
    ensures most { IfOk result (λ n. n < 2 ^ 31) }
    ensures rest { scan.new ≡ record scan.old { left = scan.new.left } }
{
    let n = number(scan)?;
    if n < 0 || n > i32::MAX as i64 {
        return Err(ReadKind::BadHeader);
    }
    Ok(n as u32)
}
