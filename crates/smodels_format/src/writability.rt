//! The test for programs that smodels text can say.

ghost use Rattle.std.specs.Prelude.{◌≡◌, pos, int_le};
ghost use Rattle.std.specs.List.{list_all};
ghost use Rattle.asp_scan.specs.Lines.{is_blank};
ghost use Rattle.asp_scan.specs.Words.{ends_with_return};
ghost use Rattle.smodels_format.specs.Writable.{begins_word, is_writable_name, is_writable};

use asp_base::Lit;
use ground_program::{Level, Program, Show};

/// Whether the program can be written as smodels text.
pub fn writable(program: &Program) -> bool
    ensures { result ≡ is_writable program.now }
{
    program.edges.as_slice().is_empty()
        && levels_fit(program.levels.as_slice())
        && names_fit(program.shows.as_slice())
}

/// Whether no weight of a level is below 0.
fn levels_fit(levels: &[Level]) -> bool
    ensures { result ≡ list_all (λ level. list_all (λ item. int_le (pos 0) item.1) level.items) levels.now }
{
    for level in levels {
        if !weights_fit(level.items.as_slice()) {
            return false;
        }
    }
    true
}

fn weights_fit(items: &[(Lit, i64)]) -> bool
    ensures { result ≡ list_all (λ item. int_le (pos 0) item.1) items.now }
{
    for item in items {
        if item.1 < 0 {
            return false;
        }
    }
    true
}

fn names_fit(shows: &[Show]) -> bool
    ensures { result ≡ list_all (λ show. is_writable_name show.name) shows.now }
{
    for show in shows {
        if !name_fits(show.name.as_slice()) {
            return false;
        }
    }
    true
}

/// Whether the name does not begin with a blank and may stand at the end of a line.
fn name_fits(name: &[u8]) -> bool
    ensures { result ≡ is_writable_name name.now }
{
    begins_word(name) && !ends_with_return(name)
}

fn begins_word(name: &[u8]) -> bool
    ensures { result ≡ begins_word name.now }
{
    match name.first() {
        None => false,
        Some(byte) => *byte != b' ' && *byte != b'\t',
    }
}

fn ends_with_return(name: &[u8]) -> bool
    ensures { result ≡ ends_with_return name.now }
{
    match name.last() {
        None => false,
        Some(byte) => *byte == b'\r',
    }
}
