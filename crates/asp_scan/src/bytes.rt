//! Lines, blanks and tokens at the front of a text.
ghost use Rattle.std.specs.Prelude.{◌≡◌, ◌<◌, [], ◌∷◌, length, IsNone, IfSome};
ghost use Rattle.asp_scan.specs.Lines.{is_blank, pieces_of, without_return};
ghost use Rattle.asp_scan.specs.Tokens.{skip_blanks, token_front, after_token};

use memchr::memchr;

/// Whether a byte stands between tokens: a space or a tab.
pub(crate) fn is_blank(byte: u8) -> bool
    ensures { result ≡ is_blank byte }
{
    byte == b' ' || byte == b'\t'
}

/// The first line of a text without its end, and the text behind that end.
pub(crate) fn split_line(text: &[u8]) -> Option<(&[u8], &[u8])>
    ensures none { IsNone result → text.now ≡ [] }
    ensures line { IfSome result (λ parts. pieces_of text.now ≡ parts.0.now ∷ pieces_of parts.1.now) }
    ensures shorter { IfSome result (λ parts. length parts.1.now < length text.now) }
{
    if text.is_empty() {
        return None;
    }
    match memchr(b'\n', text) {
        Some(end) => Some((&text[..end], &text[end + 1..])),
        None => Some((text, &[])),
    }
}

/// A line without one carriage return at its end.
pub(crate) fn without_return(line: &[u8]) -> &[u8]
    ensures { result.now ≡ without_return line.now }
{
    let [front @ .., last] = line else {
        return line;
    };
    if *last == b'\r' { front } else { line }
}

/// The text behind the blanks at its front.
pub(crate) fn skip_blanks(text: &[u8]) -> &[u8]
    ensures { result.now ≡ skip_blanks text.now }
{
    for (i, byte) in text.iter().enumerate() {
        if !is_blank(*byte) {
            return &text[i..];
        }
    }
    &[]
}

/// The bytes up to the first blank, and the text from there.
pub(crate) fn split_token(text: &[u8]) -> (&[u8], &[u8])
    ensures token { result.0.now ≡ token_front text.now }
    ensures rest { result.1.now ≡ after_token text.now }
{
    for (i, byte) in text.iter().enumerate() {
        if is_blank(*byte) {
            return text.split_at(i);
        }
    }
    (text, &[])
}
