//! What is wrong with a formula's text.

ghost use Rattle.std.specs.Prelude.{◌≤◌, length};

use asp_base::Refusal;

/// What is wrong with a formula's text.
#[derive(Clone, Copy, Debug, PartialEq, Eq)]
pub enum FormulaKind {
    /// The first line that counts is no header.
    BadHeader,
    /// A token is no number of 64 bits.
    BadNumber,
    /// A literal's variable is above the number of variables.
    LiteralOutOfRange,
    /// The weight of a clause is below 1.
    ZeroWeight,
    /// A line behind the clauses is no edge.
    BadEdge,
    /// There are more or fewer clauses or edges than the header says.
    WrongCount,
    /// The text ends within a clause.
    NoEnd,
}

impl FormulaKind {
    /// The name of the fault, at most 17 bytes.
    pub fn name(self) -> &'static str
        ensures { length result.now ≤ 17 }
    {
        match self {
            FormulaKind::BadHeader => "BadHeader",
            FormulaKind::BadNumber => "BadNumber",
            FormulaKind::LiteralOutOfRange => "LiteralOutOfRange",
            FormulaKind::ZeroWeight => "ZeroWeight",
            FormulaKind::BadEdge => "BadEdge",
            FormulaKind::WrongCount => "WrongCount",
            FormulaKind::NoEnd => "NoEnd",
        }
    }
}

/// The first fault of a formula's text with the number of its line, from 1, or want of memory.
pub type FormulaRefusal = Refusal<FormulaKind>;
