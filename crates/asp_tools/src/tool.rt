//! The top call: does the job that words name, and complains where it fails.

ghost use Rattle.std.specs.Prelude.{◌≡◌, ◌≢◌, ◌↔◌, None, IsNone, IfSome};
ghost use Rattle.asp_tools.specs.Job.{job};
ghost use Rattle.asp_tools.specs.Ran.{Ran, InOrder, Completes, TooLongExactly};

use crate::complaint::complaint_of;
use crate::job::{Job, job_of};
use crate::outcome::{Outcome, outcome_of};
use asp_base::{Desk, Words};
use job_shell::run_job;
use std::alloc::Global;

/// Does the job that the words name, over a desk that writes nothing yet, and complains of an outcome that is not
/// `Done`.
///
/// The answers come in this order: `BadWords`; `ReadFault`, or `Refused` with `TextTooLong`, at the first of the files,
/// which are read in their order; the first fault of a text, in the order of the files, a `Mismatch` of formula and map
/// before the fault of an answer; `NoModelGiven`; `NotSmodels` or `Edges`; `TooLarge`; `Rejected`; `WriteFault`, which
/// takes the place of an outcome that could not be said. `Memory` may come at any step before the first output is begun
/// or something is said.
pub fn run<'a, D: Desk<'a>>(alloc: Global, words: &'a Words, desk: &mut D) -> Outcome
    requires { (D.state desk.old).writing ≡ None }
    // Exactly where the words name no job.
    ensures bad_words { (result ≡ Outcome.BadWords) ↔ IsNone (job words.now) }
    ensures unchanged { result ≡ Outcome.BadWords → D.state desk.new ≡ D.state desk.old }
    // Each answer has its cause, and leaves the desk so; what is written translates what was read.
    ensures ran { IfSome (job words.now) (λ j. Ran j (D.state desk.old) (D.state desk.new) result) }
    // The formulas of normal programs are completions, with the rankings behind them.
    ensures in_order { IfSome (job words.now) (λ j. InOrder j (D.state desk.old) (D.state desk.new) result) }
    // Without a fault of the desk the outcome is the one that the texts call for, or memory ran out.
    ensures completes { IfSome (job words.now) (λ j. Completes j (D.state desk.old) (D.state desk.new) result) }
    // A file is too long exactly where its reading gave more than 2^30 bytes.
    ensures too_long { IfSome (job words.now) (λ j. TooLongExactly 1 j.reads (D.state desk.new) result) }
{
    let job = job_of(words);
    let outcome = do_if_any(alloc, &job, desk);
    complain(desk, &outcome, job.as_ref());
    outcome
}

/// Does the job, if there is one.
fn do_if_any<'a, D: Desk<'a>>(alloc: Global, job: &Option<Job<'a>>, desk: &mut D) -> Outcome
    requires { (D.state desk.old).writing ≡ None }
    ensures bad_words { (result ≡ Outcome.BadWords) ↔ IsNone job.now }
    ensures unchanged { result ≡ Outcome.BadWords → D.state desk.new ≡ D.state desk.old }
    ensures ran { IfSome job.now (λ j. Ran j (D.state desk.old) (D.state desk.new) result) }
    ensures in_order { IfSome job.now (λ j. InOrder j (D.state desk.old) (D.state desk.new) result) }
    ensures completes { IfSome job.now (λ j. Completes j (D.state desk.old) (D.state desk.new) result) }
    ensures too_long { IfSome job.now (λ j. TooLongExactly 1 j.reads (D.state desk.new) result) }
{
    match job {
        Some(job) => do_job(alloc, job, desk),
        None => Outcome::BadWords,
    }
}

/// Does the job.
fn do_job<'a, D: Desk<'a>>(alloc: Global, job: &Job<'a>, desk: &mut D) -> Outcome
    requires { (D.state desk.old).writing ≡ None }
    ensures named { result ≢ Outcome.BadWords }
    ensures ran { Ran job.now (D.state desk.old) (D.state desk.new) result }
    ensures in_order { InOrder job.now (D.state desk.old) (D.state desk.new) result }
    ensures completes { Completes job.now (D.state desk.old) (D.state desk.new) result }
    ensures too_long { TooLongExactly 1 job.now.reads (D.state desk.new) result }
{
    let command = job.command();
    let ended = run_job(alloc, &command, desk, job.reads(), job.writes());
    outcome_of(ended)
}

/// Says on standard error what is to be said of the outcome.
fn complain<'a, D: Desk<'a>>(desk: &mut D, outcome: &Outcome, job: Option<&Job<'a>>)
    ensures { D.state desk.new ≡ D.state desk.old }
{
    if let Some(complaint) = complaint_of(outcome, job) {
        desk.complain(complaint.as_bytes());
    }
}
