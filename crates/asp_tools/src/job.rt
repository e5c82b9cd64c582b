//! The job that words name: a command with the names of its files.

ghost use Rattle.std.specs.Prelude.{◌≡◌, ◌+◌, ◌≤◌, true, MatchOption, drop, length, not};
ghost use Rattle.std.specs.List.{list_all};
ghost use Rattle.std.specs.Str.{bytes_eq};
ghost use Rattle.job_shell.specs.Reads.{AllDiffer, names_of};
ghost use Rattle.asp_tools.specs.Calls.{reads_of, writes_of};
ghost use Rattle.asp_tools.specs.Job.{is_name, all_differ, are_names, job, job_behind, job_with};

use crate::command::Command;
use arrayvec::ArrayVec;
use asp_base::Words;
use std::marker::Model;

/// A job has at most so many names.
const NAMES: usize = 3;

/// A command with as many names as it reads and writes, which all differ. Contracts see the names by their bytes.
#[derive(Drop)]
pub struct Job<'a> {
    command: Command,
    names: ArrayVec<&'a str, NAMES>,
}

impl<'a> Model for Job<'a> {
    ghost use Rattle.std.specs.Prelude.{take, drop};
    ghost use Rattle.job_shell.specs.Reads.{names_of};
    ghost use Rattle.asp_tools.specs.Calls.{reads_of};
    ghost use Rattle.asp_tools.specs.Job.{SeenJob};
    ghost use Rattle.asp_tools.specs.private.Names.{AreJobNames};

    ghost Value = { SeenJob };

    ghost view = { λ j. record {
      command = j.command;
      reads = take (reads_of j.command) (names_of j.names.items);
      writes = drop (reads_of j.command) (names_of j.names.items);
    } };

    ghost invariant = { λ j. AreJobNames j.command (names_of j.names.items) };
}

impl<'a> Job<'a> {
    /// The command.
    pub fn command(&self) -> Command
        ensures { result ≡ self.now.command }
    {
        self.command
    }

    /// The names that are read.
    pub fn reads(&self) -> &[&'a str]
        ensures names { names_of result.now ≡ self.now.reads }
        ensures count { length result.now ≡ reads_of self.now.command }
        ensures differ { AllDiffer (names_of result.now) }
    {
        &self.names.as_slice()[..self.command.reads()]
    }

    /// The names that are written.
    pub fn writes(&self) -> &[&'a str]
        ensures names { names_of result.now ≡ self.now.writes }
        ensures count { length result.now ≡ writes_of self.now.command }
        ensures differ { AllDiffer (names_of result.now) }
    {
        &self.names.as_slice()[self.command.reads()..]
    }

    /// The name of a file by its place among the job's names, from 1. A place that the job does not have has an empty
    /// name.
    pub fn name_of(&self, file: u32) -> &'a str {
        match (file as usize).checked_sub(1) {
            Some(index) if index < self.names.len() => self.names.as_slice()[index],
            _ => "",
        }
    }
}

/// The job that the words name: the word of a command, flags of it, each once, and names. A name is not empty, does not
/// begin with `-`, and differs from the others.
pub fn job_of<'a>(words: &'a Words) -> Option<Job<'a>>
    ensures { result ≡ job words.now }
{
    let command = Command::of_word(words.word(1)?)?;
    job_behind(command, words, 1)
}

/// The job of a command with the flags and the names behind so many words.
fn job_behind<'a>(command: Command, words: &'a Words, read: u64) -> Option<Job<'a>>
    requires { read ≤ length words.now }
    ensures { result ≡ job_behind command (drop read words.now) }
{
    if read == words.count() {
        return job_with(command, words, read);
    }
    let word = words.word(read + 1)?;
    match command.with_flag(word) {
        Some(flagged) => job_behind(flagged, words, read + 1),
        None => job_with(command, words, read),
    }
}

/// The job of a command with the names behind so many words.
#[tactic(auto, using(crate::proofs::NameLaws::length_behind))]
fn job_with<'a>(command: Command, words: &'a Words, read: u64) -> Option<Job<'a>>
    requires { read ≤ length words.now }
    ensures { result ≡ job_with command (drop read words.now) }
{
    if words.count() - read != (command.reads() + command.writes()) as u64 {
        return None;
    }
    let names = names_behind(words, read)?;
    if are_names(names.as_slice()) {
        Some(Job { command, names })
    } else {
        None
    }
}

/// The words behind so many.
fn names_behind<'a>(words: &'a Words, read: u64) -> Option<ArrayVec<&'a str, NAMES>>
    requires some { read ≤ length words.now }
    requires few { length words.now ≤ read + 3 }
    ensures { MatchOption result ⊥ (λ names. names_of names.items ≡ drop read words.now) }
{
    let mut names = ArrayVec::new();
    for place in read..words.count() {
        names.push(words.word(place + 1)?);
    }
    Some(names)
}

/// Whether these are names, each another.
fn are_names(names: &[&str]) -> bool
    ensures names { result ≡ are_names (names_of names.now) }
    ensures others { result ≡ true → AllDiffer (names_of names.now) }
{
    all_names(names) && all_differ(names)
}

/// Whether each of these is a name.
fn all_names(names: &[&str]) -> bool
    ensures { result ≡ list_all (λ name. is_name name.now) names.now }
{
    for name in names {
        if !is_a_name(name) {
            return false;
        }
    }
    true
}

/// Whether each of these differs from those behind it.
fn all_differ(names: &[&str]) -> bool
    ensures { result ≡ all_differ (names_of names.now) }
{
    for place in 0..names.len() {
        if !differs(names[place], &names[place + 1..]) {
            return false;
        }
    }
    true
}

/// Whether the name differs from each of these.
fn differs(name: &str, others: &[&str]) -> bool
    ensures { result ≡ list_all (λ other. not (bytes_eq name.now other.now)) others.now }
{
    for other in others {
        if name == *other {
            return false;
        }
    }
    true
}

/// Whether this is a name.
fn is_a_name(name: &str) -> bool
    ensures { result ≡ is_name name.now }
{
    match name.as_bytes() {
        [] => false,
        [first, ..] => *first != b'-',
    }
}
