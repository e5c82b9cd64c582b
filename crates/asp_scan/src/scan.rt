//! A walk over a borrowed text, line by line and token by token. Each line is cut where `memchr` finds its end, so a
//! walk is linear in the text, and it takes no memory.

ghost use Rattle.std.specs.Prelude.{◌≡◌, ◌<◌, ◌^◌, [], ◌∷◌, length, IsNone, IsSome, IfOk, IfErr, IfSome, OnOk, OnErr, OnSome};
ghost use Rattle.std.specs.Bool.{OnTrue, OnFalse, MatchBool};
ghost use Rattle.asp_scan.specs.Scanning.{start, next};
ghost use Rattle.asp_scan.specs.Tokens.{skip_blanks, number_at, token_at, bytes_from, begins_with};

use crate::bytes::{is_blank, skip_blanks, split_line, split_token, without_return};
use crate::numeral::integer;
use std::marker::Model;

/// Why no number was read.
#[derive(Clone, Copy, Debug, PartialEq, Eq)]
pub enum ScanFault {
    /// The line has no further token.
    Missing,
    /// The token is no numeral.
    BadNumber,
    /// The numeral's value is outside i64.
    TooWide,
}

/// A walk over a borrowed text, line by line and token by token. It lends slices of the text and takes no memory.
///
/// A line ends with the byte 10, and one byte 13 before it is no part of the line; a last piece without that end is a
/// line where it has a byte. Lines are numbered from 1, and lines of spaces and tabs alone are skipped. A token is a
/// longest run of bytes of a line that are neither space nor tab.
#[derive(Debug, Drop)]
pub struct Scan<'a> {
    line: &'a [u8],
    left: &'a [u8],
    rest: &'a [u8],
    number: u64,
}

impl<'a> Model for Scan<'a> {
    ghost use Rattle.std.specs.Prelude.{suc, ◌+◌, ◌<◌, ◌^◌, max, length};
    ghost use Rattle.asp_scan.specs.Lines.{pieces_of, numbered};
    ghost use Rattle.asp_scan.specs.Scanning.{Scanning};

    ghost Value = { Scanning };

    ghost view = { λ s. record {
      line = record { number = s.number; bytes = s.line.now };
      left = s.left.now;
      ahead = numbered (suc s.number) (pieces_of s.rest.now);
      last = max 1 (s.number + length (pieces_of s.rest.now));
    } };

    // Each line that is still to come has a byte at least, so its number fits.
    ghost invariant = { λ s. s.number + length s.rest.now < 2 ^ 63 };
}

impl<'a> Scan<'a> {
    /// A walk that stands before the first line: its line is 0, and has no bytes.
    pub fn new(text: &'a [u8]) -> Scan<'a>
        ensures { result ≡ start text.now }
    {
        Scan {
            line: &[],
            left: &[],
            rest: text,
            number: 0,
        }
    }

    /// Goes to the next line that is not blank. False exactly where there is none: the walk then stands at the line of
    /// the end, which is the number of lines of the text and at least 1, and has no bytes.
    pub fn next_line(&mut self) -> bool
        ensures next { self.new ≡ next self.old }
        ensures more { OnTrue result
            ((self.old.ahead ≡ self.new.line ∷ self.new.ahead) × (self.new.left ≡ self.new.line.bytes)) }
        ensures none { OnFalse result (self.old.ahead ≡ []) }
        ensures short { length self.new.left < 2 ^ 63 }
    {
        while let Some((piece, rest)) = split_line(self.rest) {
            self.rest = rest;
            self.number += 1;
            let line = without_return(piece);
            if !skip_blanks(line).is_empty() {
                self.line = line;
                self.left = line;
                return true;
            }
        }
        self.line = &[];
        self.left = &[];
        self.number = self.number.max(1);
        false
    }

    /// The number of the present line, from 1; 0 before the first, and the line of the end behind the last.
    pub fn line(&self) -> u64
        ensures line { result ≡ self.now.line.number }
        ensures fits { result < 2 ^ 63 }
    {
        self.number
    }

    /// The number that the next token is. Refused with `Missing` exactly where the line has no further token,
    /// `BadNumber` where the token is no numeral, that is an optional minus and one or more digits, and `TooWide` where
    /// its value is outside i64. After a refusal the walk stands where it stood.
    pub fn next_number(&mut self) -> Result<i64, ScanFault>
        ensures ok { IfOk result (λ n. number_at self.old.left ≡ Ok (n, self.new.left)) }
        ensures err { IfErr result (λ fault. number_at self.old.left ≡ Err fault) }
        ensures stays { OnErr result (self.new ≡ self.old) }
        ensures rest { self.new ≡ record self.old { left = self.new.left } }
        ensures shorter { OnOk result (length self.new.left < length self.old.left) }
    {
        let token = skip_blanks(self.left);
        if token.is_empty() {
            return Err(ScanFault::Missing);
        }
        let (value, left) = integer(token)?;
        self.left = left;
        Ok(value)
    }

    /// The next token. None exactly where the line has no further one.
    pub fn next_word(&mut self) -> Option<&'a [u8]>
        ensures word { IfSome result (λ word. token_at self.old.left ≡ Some (word.now, self.new.left)) }
        ensures none { IsNone result → (token_at self.old.left ≡ None) × (self.new ≡ self.old) }
        ensures rest { self.new ≡ record self.old { left = self.new.left } }
        ensures shorter { OnSome result (length self.new.left < length self.old.left) }
    {
        let token = skip_blanks(self.left);
        if token.is_empty() {
            return None;
        }
        let (word, left) = split_token(token);
        self.left = left;
        Some(word)
    }

    /// The n bytes behind the one space or tab that stands next. None exactly where the line has no such blank, or
    /// fewer than n bytes behind it; the walk then stands where it stood.
    pub fn next_bytes(&mut self, n: u64) -> Option<&'a [u8]>
        ensures bytes { IfSome result (λ bytes. bytes_from n self.old.left ≡ Some (bytes.now, self.new.left)) }
        ensures none { IsNone result → (bytes_from n self.old.left ≡ None) × (self.new ≡ self.old) }
        ensures rest { self.new ≡ record self.old { left = self.new.left } }
        ensures shorter { OnSome result (length self.new.left < length self.old.left) }
    {
        match self.left {
            [blank, bytes @ ..] if is_blank(*blank) && n <= bytes.len() as u64 => {
                let (name, left) = bytes.split_at(n as usize);
                self.left = left;
                Some(name)
            }
            _ => None,
        }
    }

    /// What is left of the line behind the spaces and tabs that stand next; the walk then stands at the line's end.
    pub fn rest(&mut self) -> &'a [u8]
        ensures bytes { result.now ≡ skip_blanks self.old.left }
        ensures rest { self.new ≡ record self.old { left = [] } }
    {
        let rest = skip_blanks(self.left);
        self.left = &[];
        rest
    }

    /// Whether the line has no further token.
    pub fn end_of_line(&self) -> bool
        ensures { MatchBool result (token_at self.now.left ≡ None) (IsSome (token_at self.now.left)) }
    {
        skip_blanks(self.left).is_empty()
    }

    /// Whether the first byte of the present line is this one, wherever the walk stands in the line.
    pub fn begins_with(&self, byte: u8) -> bool
        ensures { result ≡ begins_with byte self.now.line.bytes }
    {
        match self.line {
            [first, ..] => *first == byte,
            [] => false,
        }
    }
}
