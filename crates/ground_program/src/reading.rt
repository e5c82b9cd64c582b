//! What is wrong with a program's text.

ghost use Rattle.std.specs.Prelude.{◌≤◌, length};

use asp_base::{LineFault, Refusal};

/// What is wrong with a program's text.
#[derive(Clone, Copy, Debug, PartialEq, Eq)]
pub enum ReadKind {
    BadHeader,
    Incremental,
    Missing,
    BadNumber,
    TooWide,
    ZeroAtom,
    AtomTooLarge,
    WeightTooLarge,
    NegativeWeight,
    NegativeCount,
    UnknownStatement,
    Disjunction,
    Theory,
    BadName,
    NoEnd,
    TrailingText,
    TooManyLiterals,
}

impl ReadKind {
    /// The name of the fault, at most 16 bytes.
    pub fn name(self) -> &'static str
        ensures { length result.now ≤ 16 }
    {
        match self {
            ReadKind::BadHeader => "BadHeader",
            ReadKind::Incremental => "Incremental",
            ReadKind::Missing => "Missing",
            ReadKind::BadNumber => "BadNumber",
            ReadKind::TooWide => "TooWide",
            ReadKind::ZeroAtom => "ZeroAtom",
            ReadKind::AtomTooLarge => "AtomTooLarge",
            ReadKind::WeightTooLarge => "WeightTooLarge",
            ReadKind::NegativeWeight => "NegativeWeight",
            ReadKind::NegativeCount => "NegativeCount",
            ReadKind::UnknownStatement => "UnknownStatement",
            ReadKind::Disjunction => "Disjunction",
            ReadKind::Theory => "Theory",
            ReadKind::BadName => "BadName",
            ReadKind::NoEnd => "NoEnd",
            ReadKind::TrailingText => "TrailingText",
            ReadKind::TooManyLiterals => "TooManyLiterals",
        }
    }
}

/// The first fault of a program's text with the number of its line, from 1, or want of memory.
pub type ReadRefusal = Refusal<ReadKind>;

impl From<ReadKind> for LineFault<ReadKind> {
    ghost use Rattle.std.specs.Prelude.{◌≡◌};
    ghost use Rattle.asp_base.specs.declared.faults.LineFault.TheVariants as faults;

    ghost from_gives = { λ kind e. e ≡ faults.Kind kind };

    fn from(kind: ReadKind) -> LineFault<ReadKind> {
        LineFault::Kind(kind)
    }
}
