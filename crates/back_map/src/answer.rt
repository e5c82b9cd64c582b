//! What a solver answers of a formula, and what may be wrong with the text of it.

ghost use Rattle.std.specs.Prelude.{◌≤◌, length};

use asp_base::Refusal;
use clause_store::Assignment;

/// What an answer says of the formula.
#[derive(Clone, Copy, Debug, PartialEq, Eq)]
pub enum Status {
    /// It has a model, and the answer gives its values.
    Satisfied,
    Unsatisfiable,
    Unknown,
}

/// What a solver answered of a formula.
#[derive(Drop)]
pub enum Answer {
    /// The values of the formula's variables. Variables that the answer did not name are false.
    Values(Assignment),
    NoModel,
    Unknown,
}

/// What is wrong with an answer's text.
#[derive(Clone, Copy, Debug, PartialEq, Eq)]
pub enum AnswerKind {
    /// A line that an answer does not have, or a token that is no literal of 64 bits.
    BadLine,
    /// A literal's variable is above the number of variables.
    LiteralOutOfRange,
    /// A literal's negation was named before.
    BothSigns,
    /// The text has no status line.
    NoStatus,
}

impl AnswerKind {
    /// The name of the fault, at most 17 bytes.
    pub fn name(self) -> &'static str
        ensures { length result.now ≤ 17 }
    {
        match self {
            AnswerKind::BadLine => "BadLine",
            AnswerKind::LiteralOutOfRange => "LiteralOutOfRange",
            AnswerKind::BothSigns => "BothSigns",
            AnswerKind::NoStatus => "NoStatus",
        }
    }
}

/// Why an answer's text was not read: its first fault with the number of its line, from 1, or want of memory.
pub type AnswerRefusal = Refusal<AnswerKind>;
