//! What a command answers to its texts.

ghost use Rattle.std.specs.Prelude.{◌≡◌, false};
ghost use Rattle.asp_tools.specs.Outcome.{refused_as};
ghost use Rattle.asp_tools.specs.private.Long.{is_long_kind};
ghost use Rattle.asp_tools.specs.private.TooLong.{is_long};

use crate::outcome::{Kind, Outcome, Why};
use std::marker::Model;

/// What a command answers.
#[derive(Debug, Drop)]
pub enum Answer {
    /// The job was done.
    Done,
    /// A text was refused.
    Refused(Refused),
    /// What was given is not accepted.
    Rejected(Why),
    /// The solver's answer has no values: there is no model, or none is known.
    NoModelGiven,
    /// The program's room, or for unique edges its tangle, is this number, above 2^24.
    TooLarge { number: u64 },
}

/// A file, by its place among the job's names from 1, that is refused for its line, from 1, or as a whole, line 0. It
/// is not refused for its length: a text that is too long is given to no command.
#[derive(Debug, Drop)]
pub struct Refused {
    file: u32,
    line: u64,
    kind: Kind,
}

impl Model for Refused {
    ghost use Rattle.std.specs.Prelude.{◌≡◌, false};
    ghost use Rattle.asp_tools.specs.SeenRefused.{SeenRefused};
    ghost use Rattle.asp_tools.specs.private.Long.{is_long_kind};

    ghost Value = { SeenRefused };

    ghost view = { λ r. record { file = r.file; line = r.line; kind = r.kind } };

    ghost invariant = { λ r. is_long_kind r.kind ≡ false };
}

impl Refused {
    /// The file of this place is refused for this line.
    pub(crate) fn new(file: u32, line: u64, kind: Kind) -> Refused
        requires { is_long_kind kind ≡ false }
        ensures { result ≡ record { file = file; line = line; kind = kind } }
    {
        Refused { file, line, kind }
    }

    /// The outcome of a run that is refused so.
    pub(crate) fn outcome(&self) -> Outcome
        ensures is { result ≡ refused_as self.now }
        ensures short { is_long result ≡ false }
    {
        Outcome::Refused {
            file: self.file,
            line: self.line,
            kind: self.kind,
        }
    }
}
