//! Numerals at the front of a text: an optional minus and digits, of any length, with a value in i64.
ghost use Rattle.std.specs.Prelude.{◌≡◌, pos, neg_ℤ, cond, IfOk, IfErr, MatchOption};
ghost use Rattle.asp_scan.specs.private.CutAtMost.{cut_at_most};
ghost use Rattle.asp_scan.specs.Tokens.{token_front, after_token, is_digit, digits_onto, natural_of, integer_of, fits_i64, checked, with_rest};

use crate::bytes::is_blank;
use crate::scan::ScanFault;

fn is_digit(byte: u8) -> bool
    ensures { result ≡ is_digit byte }
{
    b'0' <= byte && byte <= b'9'
}

/// The number of the digits up to the first blank, or the greatest u64 where it is larger, and the text from there.
/// None where another byte stands among the digits.
fn digits(text: &[u8]) -> Option<(u64, &[u8])>
    ensures { let read = cut_at_most (digits_onto 0 (token_front text.now)) (after_token text.now) in
        MatchOption result (read ≡ None) (λ parts. read ≡ Some (parts.0, parts.1.now)) }
{
    let mut value: u64 = 0;
    for (i, byte) in text.iter().enumerate() {
        if is_digit(*byte) {
            value = value
                .saturating_mul(10)
                .saturating_add(u64::from(*byte - b'0'));
        } else if is_blank(*byte) {
            return Some((value, &text[i..]));
        } else {
            return None;
        }
    }
    Some((value, &[]))
}

/// As `digits`, but None where there is no digit.
fn natural(text: &[u8]) -> Option<(u64, &[u8])>
    ensures { let read = cut_at_most (natural_of (token_front text.now)) (after_token text.now) in
        MatchOption result (read ≡ None) (λ parts. read ≡ Some (parts.0, parts.1.now)) }
{
    match text {
        [byte, ..] if is_digit(*byte) => digits(text),
        _ => None,
    }
}

/// The number of this sign and magnitude. None where it is outside i64.
fn signed(negative: bool, magnitude: u64) -> Option<i64>
    ensures { let n = cond negative (neg_ℤ (pos magnitude)) (pos magnitude) in
        result ≡ cond (fits_i64 n) (Some n) None }
{
    if negative {
        0i64.checked_sub_unsigned(magnitude)
    } else {
        0i64.checked_add_unsigned(magnitude)
    }
}

/// The numeral up to the first blank, and the text from there. `BadNumber` where the bytes are no numeral, `TooWide`
/// where its value is outside i64.
pub(crate) fn integer(text: &[u8]) -> Result<(i64, &[u8]), ScanFault>
    ensures ok { let read = with_rest (checked (integer_of (token_front text.now))) (after_token text.now) in
        IfOk result (λ parts. read ≡ Ok (parts.0, parts.1.now)) }
    ensures err { let read = with_rest (checked (integer_of (token_front text.now))) (after_token text.now) in
        IfErr result (λ fault. read ≡ Err fault) }
{
    let (negative, unsigned) = match text {
        [b'-', unsigned @ ..] => (true, unsigned),
        _ => (false, text),
    };
    let Some((magnitude, rest)) = natural(unsigned) else {
        return Err(ScanFault::BadNumber);
    };
    match signed(negative, magnitude) {
        Some(value) => Ok((value, rest)),
        None => Err(ScanFault::TooWide),
    }
}
