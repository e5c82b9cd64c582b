//! `lp2normal`: from the text of a program to the text of a program of normal rules that stands for it.
//!
//! A text is let go once its program is read, and the program once it is normalized.

ghost use Rattle.std.specs.Prelude.{◌≡◌, ◌≤◌, ◌^◌, true, false, [], length, OnOk, IfOk, if◌then◌else◌};
ghost use Rattle.std.specs.List.{AllByRecursion};
ghost use Rattle.ground_program.specs.Size.{size};
ghost use Rattle.asp_tools.specs.Calls.{makes};
ghost use Rattle.asp_tools.specs.NormalAnswers.{NormalAnswers, is_writable_as};
ghost use Rattle.asp_tools.specs.ProgramText.{program_of_text};
ghost use Rattle.asp_tools.specs.private.Normalizing.{NormalReply, NormalGroundReply, IsTextOf, AreTextOf};

use crate::answer::Answer;
use crate::command::{Command, TextFormat};
use crate::outcome::Kind;
use crate::program_text::{only_text, program_in};
use crate::replies::{making_text, refused, too_large};
use asp_base::{ByteList, Memory, VecList};
use ground_program::{Program, ReadRefusal};
use job_shell::Reply;
use normalize::{NormalRefusal, normal};
use std::alloc::Global;

/// The reply to the text of a program, with the program in this format.
pub(crate) fn reply(
    alloc: Global,
    format: TextFormat,
    texts: VecList<ByteList>,
) -> Result<Reply<Answer>, Memory>
    requires count { length texts ≡ 1 }
    requires within { AllByRecursion (λ text. length text ≤ 2 ^ 30) texts }
    ensures answers { IfOk result (λ r. NormalAnswers format texts r.answer r.made r.said) }
    ensures made { IfOk result (λ r. length r.made
        ≡ (if makes (Command.Lp2normal format) r.answer then 1 else 0)) }
    ensures said { IfOk result (λ r. r.said ≡ []) }
{
    reply_to(alloc, format, only_text(texts)?)
}

/// The reply to the text.
fn reply_to(alloc: Global, format: TextFormat, text: ByteList) -> Result<Reply<Answer>, Memory>
    requires { length text ≤ 2 ^ 30 }
    ensures { IfOk result (λ r. NormalReply format (program_of_text text) r.answer r.made r.said) }
{
    match program_in(alloc, text) {
        Ok(program) => reply_on(alloc, format, program),
        Err(ReadRefusal::At { line, kind }) => Ok(refused(alloc, 1, line, Kind::Text(kind))),
        Err(ReadRefusal::Memory) => Err(Memory),
    }
}

/// The reply to a program.
#[tactic(auto, using(crate::proofs::NormalLaws::writable_same))]
fn reply_on(alloc: Global, format: TextFormat, program: Program) -> Result<Reply<Answer>, Memory>
    ensures { IfOk result (λ r. NormalGroundReply format program r.answer r.made r.said) }
{
    if !is_writable_as(format, &program) {
        return Ok(refused(alloc, 1, 0, Kind::NotSmodels));
    }
    match normal(alloc, &program) {
        Ok(made) => {
            drop(program);
            text_of(alloc, format, made)
        }
        Err(NormalRefusal::TooLarge { room }) => Ok(too_large(alloc, room)),
        Err(NormalRefusal::Memory) => Err(Memory),
    }
}

/// Whether a program can be written in this format.
fn is_writable_as(format: TextFormat, program: &Program) -> bool
    ensures { result ≡ is_writable_as format program.now }
{
    match format {
        TextFormat::Aspif => true,
        TextFormat::Smodels => smodels_format::writable(program),
    }
}

/// The text of a program in this format.
fn text_of(alloc: Global, format: TextFormat, program: Program) -> Result<Reply<Answer>, Memory>
    requires writable { is_writable_as format program ≡ true }
    requires small { size program ≤ 2 ^ 24 }
    ensures answer { IfOk result (λ r. r.answer ≡ Answer.Done) }
    ensures text { IfOk result (λ r. AreTextOf format program r.made) }
    ensures said { IfOk result (λ r. r.said ≡ []) }
{
    let mut target = Vec::new(alloc);
    push_program(alloc, format, &program, &mut target)?;
    drop(program);
    making_text(alloc, target)
}

/// Appends the text of a program in this format to nothing.
#[tactic(auto, using(crate::proofs::NormalLaws::levels_short))]
fn push_program(
    alloc: Global,
    format: TextFormat,
    program: &Program,
    target: &mut Vec<u8>,
) -> Result<(), Memory>
    requires writable { is_writable_as format program.now ≡ true }
    requires small { size program.now ≤ 2 ^ 24 }
    requires empty { target.old.items ≡ [] }
    ensures { OnOk result (IsTextOf format program.now target.new.items) }
{
    match format {
        TextFormat::Aspif => aspif_format::write(alloc, program, target),
        TextFormat::Smodels => match smodels_format::write(alloc, program, target) {
            Ok(()) => Ok(()),
            // It can be written.
            Err(_) => Err(Memory),
        },
    }
}
