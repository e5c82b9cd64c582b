//! The commands: each by its word, with the number of texts that it reads and writes, and its reply to texts.

ghost use Rattle.std.specs.Prelude.{◌≡◌, ◌≤◌, ◌^◌, ℕ, Bool, false, List, [], length, IfOk, if◌then◌else◌};
ghost use Rattle.std.specs.List.{AllByRecursion};
ghost use Rattle.asp_tools.specs.Calls.{command_of, with_flag, as_plain, as_ecnf, reads_of, writes_of, makes, says};
ghost use Rattle.asp_tools.specs.CallsInOrder.{calls_in_order};

use crate::answer::Answer;
use crate::{back, checking, lp2acyc, lp2normal, lp2sat};
use acyc_translation::Encoding;
use asp_base::{ByteList, Memory, VecList};
use job_shell::Reply;
use std::alloc::Global;

/// The formats in which a program is written.
#[derive(Clone, Copy, Debug, PartialEq, Eq)]
pub enum TextFormat {
    /// aspif 1.0.
    Aspif,
    /// smodels text.
    Smodels,
}

/// The formats in which a formula is written.
#[derive(Clone, Copy, Debug, PartialEq, Eq)]
pub enum FormulaFormat {
    /// Clauses: DIMACS CNF.
    Cnf,
    /// Clauses with weights for what is minimized: WCNF.
    Wcnf,
}

/// The formats in which a program without positive recursion is written.
#[derive(Clone, Copy, Debug, PartialEq, Eq)]
pub enum AcycFormat {
    /// As a program, aspif 1.0.
    Aspif,
    /// As clauses and edges, ECNF, with a map.
    Ecnf,
}

/// What the tools do.
#[derive(Clone, Copy, Debug, PartialEq, Eq)]
pub enum Command {
    /// `lp2normal [--smodels] IN OUT`: a program of normal rules that stands for the program of IN.
    Lp2normal(TextFormat),
    /// `lp2acyc [--plain] [--ecnf] IN OUT [MAP]`: a program of normal rules and edges, without positive recursion, that
    /// stands for the program of IN, or its clauses and edges with their map.
    Lp2acyc(Encoding, AcycFormat),
    /// `lp2sat [--soft] IN OUT MAP`: the formula and the map of the program of IN.
    Lp2sat(FormulaFormat),
    /// `back FORMULA MAP ANSWER`: what a solver's answer to the formula says of the program.
    Back,
    /// `check IN ATOMS`: whether the set of the atoms is a stable model of the program of IN.
    Check,
}

impl Command {
    /// The command of this word.
    pub fn of_word(word: &str) -> Option<Command>
        ensures { result ≡ command_of word.now }
    {
        match word {
            "lp2normal" => Some(Command::Lp2normal(TextFormat::Aspif)),
            "lp2acyc" => Some(Command::Lp2acyc(Encoding::Unique, AcycFormat::Aspif)),
            "lp2sat" => Some(Command::Lp2sat(FormulaFormat::Cnf)),
            "back" => Some(Command::Back),
            "check" => Some(Command::Check),
            _ => None,
        }
    }

    /// The command with this flag, which it takes once; None where it takes no such flag.
    pub fn with_flag(self, word: &str) -> Option<Command>
        ensures { result ≡ with_flag self word.now }
    {
        match self {
            Command::Lp2normal(TextFormat::Aspif) => match word {
                "--smodels" => Some(Command::Lp2normal(TextFormat::Smodels)),
                _ => None,
            },
            Command::Lp2acyc(encoding, format) => match word {
                "--plain" => as_plain(encoding, format),
                "--ecnf" => as_ecnf(encoding, format),
                _ => None,
            },
            Command::Lp2sat(FormulaFormat::Cnf) => match word {
                "--soft" => Some(Command::Lp2sat(FormulaFormat::Wcnf)),
                _ => None,
            },
            _ => None,
        }
    }

    /// The number of texts that are read.
    pub fn reads(self) -> usize
        ensures { result ≡ reads_of self }
    {
        match self {
            Command::Lp2normal(_) | Command::Lp2acyc(_, _) | Command::Lp2sat(_) => 1,
            Command::Back => 3,
            Command::Check => 2,
        }
    }

    /// The number of texts that are written.
    pub fn writes(self) -> usize
        ensures { result ≡ writes_of self }
    {
        match self {
            Command::Lp2normal(_) | Command::Lp2acyc(_, AcycFormat::Aspif) => 1,
            Command::Lp2acyc(_, AcycFormat::Ecnf) | Command::Lp2sat(_) => 2,
            Command::Back | Command::Check => 0,
        }
    }
}

/// `lp2acyc` with plain edges, which it is told once.
fn as_plain(encoding: Encoding, format: AcycFormat) -> Option<Command>
    ensures { result ≡ as_plain encoding format }
{
    match encoding {
        Encoding::Unique => Some(Command::Lp2acyc(Encoding::Plain, format)),
        Encoding::Plain => None,
    }
}

/// `lp2acyc` with clauses, which it is told once.
fn as_ecnf(encoding: Encoding, format: AcycFormat) -> Option<Command>
    ensures { result ≡ as_ecnf encoding format }
{
    match format {
        AcycFormat::Aspif => Some(Command::Lp2acyc(encoding, AcycFormat::Ecnf)),
        AcycFormat::Ecnf => None,
    }
}

impl job_shell::Command for Command {
    type Answer = Answer;

    ghost answers = { calls_in_order };

    ghost makes = { makes };

    ghost says = { says };

    ghost inputs = { reads_of };

    ghost outputs = { writes_of };

    fn reply(&self, alloc: Global, texts: VecList<ByteList>) -> Result<Reply<Answer>, Memory>
        requires count { length texts ≡ reads_of self.now }
        requires within { AllByRecursion (λ text. length text ≤ 2 ^ 30) texts }
        ensures answers { IfOk result (λ r. calls_in_order self.now texts r.answer r.made r.said) }
        ensures made { IfOk result (λ r. length r.made
            ≡ (if makes self.now r.answer then writes_of self.now else 0)) }
        ensures said { IfOk result (λ r. says self.now r.answer ≡ false → r.said ≡ []) }
    {
        match self {
            Command::Lp2normal(format) => lp2normal::reply(alloc, *format, texts),
            Command::Lp2acyc(encoding, format) => lp2acyc::reply(alloc, *encoding, *format, texts),
            Command::Lp2sat(format) => lp2sat::reply(alloc, *format, texts),
            Command::Back => back::reply(alloc, texts),
            Command::Check => checking::reply(alloc, texts),
        }
    }
}
