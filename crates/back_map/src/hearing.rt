//! What was read of an answer so far: a table with an entry for each variable, so that each literal is looked up in
//! constant time.

ghost use Rattle.std.specs.Prelude.{◌≡◌, ◌≢◌, ◌<◌, ◌^◌, pos, ℕ, IfOk, IfErr, OnOk, Some};
ghost use Rattle.asp_base.specs.Faults.{Refuses};
ghost use Rattle.back_map.specs.Read.{Heard, silence, with_literal, with_number, with_status, with_end};
ghost use Rattle.back_map.specs.private.Reading.{Hears, Follows, Faults, AnswersOk, other};

use crate::answer::{Answer, AnswerKind, AnswerRefusal, Status};
use crate::true_variables::assignment;
use asp_base::Memory;
use std::alloc::Global;
use std::marker::Model;

/// What was read of an answer so far.
#[derive(Drop)]
pub(crate) struct Hearing {
    vars: u32,
    status: Option<Status>,
    /// The status was the line `SAT`, whose literals have a line of their own.
    bare: bool,
    /// Of each variable, from 0, whether it was named, and as true or false.
    values: Vec<Option<bool>>,
    /// A 0 ended the literals.
    ended: bool,
}

impl Model for Hearing {
    ghost use Rattle.back_map.specs.private.InsideHearing.{kept_of};
    ghost use Rattle.back_map.specs.private.Kept.{Kept, IsKept};

    ghost Value = { Kept };

    ghost view = { kept_of };

    ghost invariant = { λ h. IsKept (kept_of h) };
}

impl Hearing {
    /// Before the first line of an answer over the variables 1 to `vars`.
    pub(crate) fn new(alloc: Global, vars: u32) -> Result<Hearing, Memory>
        requires { vars < 2 ^ 31 }
        ensures { IfOk result (λ h. Hears vars silence h) }
    {
        Ok(Hearing {
            vars,
            status: None,
            bare: false,
            values: vec![in alloc; None; vars as usize + 1]?,
            ended: false,
        })
    }

    /// Whether the status was the line `SAT`.
    pub(crate) fn is_bare(&self) -> bool
        ensures { result ≡ self.now.bare }
    {
        self.bare
    }

    /// A status, and whether it is one without `s`.
    pub(crate) fn hear_status(&mut self, found: (Status, bool)) -> Result<(), AnswerKind>
        ensures ok { OnOk result (Follows (λ n. with_status found) self.old self.new) }
        ensures err { IfErr result (λ kind. Faults (λ n. with_status found) self.old kind) }
    {
        if self.status.is_some() {
            return Err(AnswerKind::BadLine);
        }
        self.status = Some(found.0);
        self.bare = found.1;
        Ok(())
    }

    /// A number among the literals.
    pub(crate) fn hear_number(&mut self, number: i64) -> Result<(), AnswerKind>
        ensures ok { OnOk result (Follows (λ n. with_number n (Some number)) self.old self.new) }
        ensures err { IfErr result (λ kind. Faults (λ n. with_number n (Some number)) self.old kind) }
    {
        if self.ended {
            return Err(AnswerKind::BadLine);
        }
        if number == 0 {
            self.ended = true;
            return Ok(());
        }
        self.hear_literal(number)
    }

    /// The literal of a number that is not 0 is named.
    fn hear_literal(&mut self, number: i64) -> Result<(), AnswerKind>
        requires { number ≢ pos 0 }
        ensures ok { OnOk result (Follows (λ n. with_literal n number) self.old self.new) }
        ensures err { IfErr result (λ kind. Faults (λ n. with_literal n number) self.old kind) }
    {
        let variable = number.unsigned_abs();
        if variable > u64::from(self.vars) {
            return Err(AnswerKind::LiteralOutOfRange);
        }
        let positive = number > 0;
        if is_other(self.values[variable as usize], positive) {
            return Err(AnswerKind::BothSigns);
        }
        self.values[variable as usize] = Some(positive);
        Ok(())
    }

    /// The answer at the end of the text, which is this line.
    pub(crate) fn answer(&self, alloc: Global, last: u64) -> Result<Answer, AnswerRefusal>
        ensures ok { IfOk result (λ a. (n : ℕ) (heard : Heard) → Hears n heard self.now
            → AnswersOk (with_end last heard) n a) }
        ensures err { IfErr result (λ refusal. (n : ℕ) (heard : Heard) → Hears n heard self.now
            → Refuses (with_end last heard) refusal) }
    {
        match self.status {
            None => Err(AnswerRefusal::At {
                line: last,
                kind: AnswerKind::NoStatus,
            }),
            Some(Status::Satisfied) => Ok(Answer::Values(assignment(
                alloc,
                self.vars,
                self.values.as_slice(),
            )?)),
            Some(Status::Unsatisfiable) => Ok(Answer::NoModel),
            Some(Status::Unknown) => Ok(Answer::Unknown),
        }
    }
}

/// Whether this is the other value.
fn is_other(entry: Option<bool>, value: bool) -> bool
    ensures { result ≡ other entry value }
{
    match entry {
        Some(named) => named != value,
        None => false,
    }
}
