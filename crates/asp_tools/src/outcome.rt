//! How a run ends.

ghost use Rattle.std.specs.Prelude.{◌≡◌, ◌≤◌, false, length};
ghost use Rattle.asp_tools.specs.Outcome.{status_of, outcome_of, of_answer};
ghost use Rattle.asp_tools.specs.private.TooLong.{is_long, is_too_long};

use crate::answer::Answer;
use asp_base::Walk;
use back_map::AnswerKind;
use dimacs_format::FormulaKind;
use ground_program::{AtomSet, ReadKind};
use job_shell::Ended;
use symbol_map::MapKind;

/// What is wrong with an input.
#[derive(Clone, Copy, Debug, PartialEq, Eq)]
pub enum Kind {
    /// The text has more than 2^30 bytes. Line 0.
    TextTooLong,
    /// The first fault of a program's text.
    Text(ReadKind),
    /// The first fault of a formula's text.
    Formula(FormulaKind),
    /// The first fault of a map's text.
    Map(MapKind),
    /// The first fault of an answer's text.
    Answer(AnswerKind),
    /// The map has another number of variables than the formula. Line 0.
    Mismatch { formula_vars: u32, map_vars: u32 },
    /// The program has edges, which `lp2sat` does not translate. Line 0.
    Edges,
    /// The scale of the soft clauses first passes 2^63 - 1 at this priority. Line 0.
    SumTooLarge { priority: i32 },
    /// The program has a part that smodels text does not have: an edge, a weight of a level below 0, or a name that is
    /// empty, begins with a space or tab, or ends with a carriage return. Line 0.
    NotSmodels,
}

impl Kind {
    /// The name of the kind, at most 17 bytes.
    pub fn name(self) -> &'static str
        ensures { length result.now ≤ 17 }
    {
        match self {
            Kind::TextTooLong => "TextTooLong",
            Kind::Text(kind) => kind.name(),
            Kind::Formula(kind) => kind.name(),
            Kind::Map(kind) => kind.name(),
            Kind::Answer(kind) => kind.name(),
            Kind::Mismatch { .. } => "Mismatch",
            Kind::Edges => "Edges",
            Kind::SumTooLarge { .. } => "SumTooLarge",
            Kind::NotSmodels => "NotSmodels",
        }
    }
}

/// Why what was given is not accepted.
#[derive(Debug, Drop)]
pub enum Why {
    /// The place, from 1, of the first clause of the formula without a true literal.
    Clause(u64),
    /// The place, from 1, of the first rule of the program whose body holds and whose head does not.
    Rule(u64),
    /// The place, from 1, of the first required literal that does not hold.
    Requirement(u64),
    /// The atoms of the set outside the least model of the reduct.
    Unfounded(AtomSet),
    /// A closed walk of edges whose conditions hold.
    Cycle(Walk),
}

/// How a run ended.
#[derive(Debug, Drop)]
pub enum Outcome {
    /// The job was done.
    Done,
    /// The words name no job.
    BadWords,
    /// A file, by its place among the run's names from 1, was refused for its line, from 1, or as a whole, line 0.
    Refused { file: u32, line: u64, kind: Kind },
    /// What was given is not accepted.
    Rejected(Why),
    /// The solver's answer has no values: there is no model, or none is known.
    NoModelGiven,
    /// The program's room, or for unique edges its tangle, is this number, above 2^24.
    TooLarge { number: u64 },
    /// The file could not be read.
    ReadFault { file: u32 },
    /// The file could not be written; 0 is standard output.
    WriteFault { file: u32 },
    /// Want of memory.
    Memory,
}

impl Outcome {
    /// The exit status.
    pub fn status(&self) -> u8
        ensures { result ≡ status_of self.now }
    {
        match self {
            Outcome::Done => 0,
            Outcome::BadWords => 1,
            Outcome::Refused { .. } => 2,
            Outcome::Rejected(_) => 3,
            Outcome::NoModelGiven => 4,
            Outcome::TooLarge { .. } => 5,
            Outcome::ReadFault { .. } => 6,
            Outcome::WriteFault { .. } => 7,
            Outcome::Memory => 8,
        }
    }
}

/// The outcome of a job that ended so.
pub(crate) fn outcome_of(ended: Ended<Answer>) -> Outcome
    ensures is { result ≡ outcome_of ended }
    ensures short { is_too_long ended ≡ is_long result }
{
    match ended {
        Ended::Answered(answer) => of_answer(answer),
        Ended::TooLong { file } => Outcome::Refused {
            file,
            line: 0,
            kind: Kind::TextTooLong,
        },
        Ended::ReadFault { file } => Outcome::ReadFault { file },
        Ended::WriteFault { file } => Outcome::WriteFault { file },
        Ended::Memory => Outcome::Memory,
    }
}

/// The outcome of a job with this answer.
fn of_answer(answer: Answer) -> Outcome
    ensures is { result ≡ of_answer answer }
    ensures short { is_long result ≡ false }
{
    match answer {
        Answer::Done => Outcome::Done,
        Answer::Refused(refused) => refused.outcome(),
        Answer::Rejected(why) => Outcome::Rejected(why),
        Answer::NoModelGiven => Outcome::NoModelGiven,
        Answer::TooLarge { number } => Outcome::TooLarge { number },
    }
}
