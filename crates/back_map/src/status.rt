//! The status that a line says, by its words.

ghost use Rattle.std.specs.Prelude.{◌≡◌, [], ◌∷◌};
ghost use Rattle.asp_scan.specs.Tokens.{tokens};
ghost use Rattle.back_map.specs.Read.{status_of};

use crate::answer::Status;
use asp_scan::Scan;

/// An optimum is a model.
const OPTIMUM: Status = Status::Satisfied;

/// The status of a line with this first word, and whether it is one without `s`, whose literals follow on a line of
/// their own.
pub(crate) fn line_status(scan: &mut Scan<'_>, first: &[u8]) -> Option<(Status, bool)>
    ensures status { result ≡ status_of (first.now ∷ tokens scan.old.left) }
    ensures rest { scan.new ≡ record scan.old { left = scan.new.left } }
{
    let Some(second) = scan.next_word() else {
        return of_one(first);
    };
    let Some(third) = scan.next_word() else {
        return of_two(first, second);
    };
    if scan.end_of_line() {
        of_three(first, second, third)
    } else {
        None
    }
}

fn of_one(word: &[u8]) -> Option<(Status, bool)>
    ensures { result ≡ status_of (word.now ∷ []) }
{
    if word == b"SAT".as_slice() {
        Some((Status::Satisfied, true))
    } else if word == b"UNSAT".as_slice() {
        Some((Status::Unsatisfiable, false))
    } else if word == b"INDET".as_slice() {
        Some((Status::Unknown, false))
    } else {
        None
    }
}

fn of_two(first: &[u8], second: &[u8]) -> Option<(Status, bool)>
    ensures { result ≡ status_of (first.now ∷ second.now ∷ []) }
{
    if first != b"s".as_slice() {
        None
    } else if second == b"SATISFIABLE".as_slice() {
        Some((Status::Satisfied, false))
    } else if second == b"UNSATISFIABLE".as_slice() {
        Some((Status::Unsatisfiable, false))
    } else if second == b"UNKNOWN".as_slice() {
        Some((Status::Unknown, false))
    } else {
        None
    }
}

fn of_three(first: &[u8], second: &[u8], third: &[u8]) -> Option<(Status, bool)>
    ensures { result ≡ status_of (first.now ∷ second.now ∷ third.now ∷ []) }
{
    if first == b"s".as_slice() && second == b"OPTIMUM".as_slice() && third == b"FOUND".as_slice() {
        Some((OPTIMUM, false))
    } else {
        None
    }
}
