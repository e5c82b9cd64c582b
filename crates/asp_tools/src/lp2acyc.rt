//! `lp2acyc`: from the text of a program to the text of one in which positive recursion is told by edges, or to the
//! texts of its clauses with edges and of its map.
//!
//! A text is let go once its program is read, the program once it is encoded, and the formula once it is written.

ghost use Rattle.std.specs.Prelude.{◌≡◌, ◌≤◌, ◌^◌, [], length, IfOk, OnOk, Ok, if◌then◌else◌};
ghost use Rattle.std.specs.List.{AllByRecursion};
ghost use Rattle.aspif_format.specs.Read.{aspif_of};
ghost use Rattle.asp_tools.specs.AcycInOrder.{AcycInOrder};
ghost use Rattle.asp_tools.specs.Calls.{makes, writes_of};
ghost use Rattle.asp_tools.specs.ProgramText.{program_of_text};
ghost use Rattle.asp_tools.specs.private.Acyclic.{AcycReply, AcycGroundReply, IsProgramText};

use crate::answer::Answer;
use crate::command::{AcycFormat, Command};
use crate::formula_texts::texts_of;
use crate::outcome::Kind;
use crate::program_text::{only_text, program_in};
use crate::replies::{making_text, refused, too_large};
use acyc_translation::{AcycRefusal, Encoding, encode, translate};
use asp_base::{ByteList, Memory, VecList};
use ground_program::{Program, ReadRefusal};
use job_shell::Reply;
use std::alloc::Global;

/// The reply to the text of a program, with its positive recursion encoded so and written in this format.
pub(crate) fn reply(
    alloc: Global,
    encoding: Encoding,
    format: AcycFormat,
    texts: VecList<ByteList>,
) -> Result<Reply<Answer>, Memory>
    requires count { length texts ≡ 1 }
    requires within { AllByRecursion (λ text. length text ≤ 2 ^ 30) texts }
    ensures answers { IfOk result (λ r. AcycInOrder encoding format texts r.answer r.made r.said) }
    ensures made { IfOk result (λ r. let command = Command.Lp2acyc encoding format in
        length r.made ≡ (if makes command r.answer then writes_of command else 0)) }
    ensures said { IfOk result (λ r. r.said ≡ []) }
{
    reply_to(alloc, encoding, format, only_text(texts)?)
}

/// The reply to the text.
fn reply_to(
    alloc: Global,
    encoding: Encoding,
    format: AcycFormat,
    text: ByteList,
) -> Result<Reply<Answer>, Memory>
    requires { length text ≤ 2 ^ 30 }
    ensures { IfOk result (λ r. AcycReply encoding format (program_of_text text) r.answer r.made r.said) }
{
    match program_in(alloc, text) {
        Ok(program) => reply_on(alloc, encoding, format, program),
        Err(ReadRefusal::At { line, kind }) => Ok(refused(alloc, 1, line, Kind::Text(kind))),
        Err(ReadRefusal::Memory) => Err(Memory),
    }
}

/// The reply to a program.
fn reply_on(
    alloc: Global,
    encoding: Encoding,
    format: AcycFormat,
    program: Program,
) -> Result<Reply<Answer>, Memory>
    ensures { IfOk result (λ r. AcycGroundReply encoding format program r.answer r.made r.said) }
{
    match format {
        AcycFormat::Aspif => reply_as_program(alloc, encoding, program),
        AcycFormat::Ecnf => reply_in_clauses(alloc, encoding, program),
    }
}

/// The reply to a program with one.
fn reply_as_program(
    alloc: Global,
    encoding: Encoding,
    program: Program,
) -> Result<Reply<Answer>, Memory>
    ensures { IfOk result (λ r. AcycGroundReply encoding AcycFormat.Aspif program r.answer r.made r.said) }
{
    match encode(alloc, encoding, &program) {
        Ok(made) => {
            drop(program);
            program_text(alloc, made)
        }
        Err(AcycRefusal::TooLarge { number }) => Ok(too_large(alloc, number)),
        Err(AcycRefusal::Memory) => Err(Memory),
    }
}

/// The reply to a program with clauses and edges.
fn reply_in_clauses(
    alloc: Global,
    encoding: Encoding,
    program: Program,
) -> Result<Reply<Answer>, Memory>
    ensures { IfOk result (λ r. AcycGroundReply encoding AcycFormat.Ecnf program r.answer r.made r.said) }
{
    match translate(alloc, encoding, program) {
        Ok(translation) => texts_of(alloc, translation),
        Err(AcycRefusal::TooLarge { number }) => Ok(too_large(alloc, number)),
        Err(AcycRefusal::Memory) => Err(Memory),
    }
}

/// The text of a program.
fn program_text(alloc: Global, program: Program) -> Result<Reply<Answer>, Memory>
    ensures answer { IfOk result (λ r. r.answer ≡ Answer.Done) }
    ensures text { IfOk result (λ r. IsProgramText program r.made) }
    ensures said { IfOk result (λ r. r.said ≡ []) }
{
    let mut target = Vec::new(alloc);
    push_program(alloc, &program, &mut target)?;
    drop(program);
    making_text(alloc, target)
}

/// Appends the text of a program to nothing.
fn push_program(alloc: Global, program: &Program, target: &mut Vec<u8>) -> Result<(), Memory>
    requires { target.old.items ≡ [] }
    ensures { OnOk result (aspif_of target.new.items ≡ Ok program.now) }
{
    aspif_format::write(alloc, program, target)
}
