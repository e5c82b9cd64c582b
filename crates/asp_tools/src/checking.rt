//! `check`: whether the atoms of a text are a stable model of the program of another, and if not, why.

ghost use Rattle.std.specs.Prelude.{◌≡◌, ◌≤◌, ◌^◌, false, [], length, Ok, IfOk, IfErr};
ghost use Rattle.std.specs.List.{AllByRecursion};
ghost use Rattle.asp_base.specs.Faults.{Refuses};
ghost use Rattle.stable_check.specs.AtomsText.{atoms_of};
ghost use Rattle.asp_tools.specs.Calls.{says_of};
ghost use Rattle.asp_tools.specs.CheckAnswers.{CheckAnswers, OfProgram, OfAtoms, Checks};
ghost use Rattle.asp_tools.specs.ProgramText.{program_of_text};
ghost use Rattle.asp_tools.specs.private.Replying.{Replying};

use crate::answer::Answer;
use crate::outcome::{Kind, Why};
use crate::program_text::program_in;
use crate::replies::{refused, saying};
use crate::sayings::{
    broken_requirement_text, broken_rule_text, cycle_text, stable_text, unfounded_text,
};
use asp_base::{ByteList, Memory, VecList};
use ground_program::{AtomSet, Program, ReadRefusal};
use job_shell::Reply;
use stable_check::{Verdict, check as verdict_on, cost_and_names, read_atoms};
use std::alloc::Global;

/// The reply to the texts of a program and of a set of atoms.
pub(crate) fn reply(alloc: Global, texts: VecList<ByteList>) -> Result<Reply<Answer>, Memory>
    requires count { length texts ≡ 2 }
    requires within { AllByRecursion (λ text. length text ≤ 2 ^ 30) texts }
    ensures answers { IfOk result (λ r. CheckAnswers texts r.answer r.made r.said) }
    ensures made { IfOk result (λ r. r.made ≡ []) }
    ensures said { IfOk result (λ r. says_of r.answer ≡ false → r.said ≡ []) }
{
    let mut texts = texts.into_vec();
    match (texts.pop(), texts.pop()) {
        (Some(atoms), Some(program)) => reply_to(alloc, program, atoms),
        // There are two.
        _ => Err(Memory),
    }
}

/// The reply to both texts.
fn reply_to(alloc: Global, program: ByteList, atoms: ByteList) -> Result<Reply<Answer>, Memory>
    requires { length program ≤ 2 ^ 30 }
    ensures { IfOk result (λ r. Replying (OfProgram (program_of_text program) atoms)
        r.answer r.made r.said) }
{
    match program_in(alloc, program) {
        Ok(program) => reply_on(alloc, &program, atoms),
        Err(ReadRefusal::At { line, kind }) => Ok(refused(alloc, 1, line, Kind::Text(kind))),
        Err(ReadRefusal::Memory) => Err(Memory),
    }
}

/// The reply to the atoms of a text.
fn reply_on(alloc: Global, program: &Program, atoms: ByteList) -> Result<Reply<Answer>, Memory>
    ensures { IfOk result (λ r. Replying (OfAtoms program.now (atoms_of atoms))
        r.answer r.made r.said) }
{
    match atoms_in(alloc, atoms) {
        Ok(set) => judgement(alloc, program, &set),
        Err(ReadRefusal::At { line, kind }) => Ok(refused(alloc, 2, line, Kind::Text(kind))),
        Err(ReadRefusal::Memory) => Err(Memory),
    }
}

/// The set of the atoms of a text, which is let go.
fn atoms_in(alloc: Global, text: ByteList) -> Result<AtomSet, ReadRefusal>
    ensures set { IfOk result (λ set. atoms_of text ≡ Ok set) }
    ensures fault { IfErr result (λ refusal. Refuses (atoms_of text) refusal) }
{
    read_atoms(alloc, text.as_slice())
}

/// The verdict on the set, with its text.
fn judgement(alloc: Global, program: &Program, set: &AtomSet) -> Result<Reply<Answer>, Memory>
    ensures { IfOk result (λ r. Replying (Checks program.now set.now) r.answer r.made r.said) }
{
    let (answer, said) = match verdict_on(alloc, program, set)? {
        Verdict::Stable => (
            Answer::Done,
            stable_text(alloc, &cost_and_names(alloc, program, set)?)?,
        ),
        Verdict::BrokenRule(place) => (
            Answer::Rejected(Why::Rule(place)),
            broken_rule_text(alloc, place)?,
        ),
        Verdict::BrokenRequirement(place) => (
            Answer::Rejected(Why::Requirement(place)),
            broken_requirement_text(alloc, place)?,
        ),
        Verdict::Unfounded(atoms) => {
            let said = unfounded_text(alloc, &atoms)?;
            (Answer::Rejected(Why::Unfounded(atoms)), said)
        }
        Verdict::Cycle(walk) => {
            let said = cycle_text(alloc, &walk)?;
            (Answer::Rejected(Why::Cycle(walk)), said)
        }
    };
    Ok(saying(alloc, answer, said))
}
