//! `lp2sat`: from the text of a program to the texts of its formula and of its map.
//!
//! A text is let go once its program is read, the program once it is translated, and the formula once it is written.

ghost use Rattle.std.specs.Prelude.{◌≡◌, ◌≤◌, ◌^◌, [], length, IfOk, if◌then◌else◌};
ghost use Rattle.std.specs.List.{AllByRecursion};
ghost use Rattle.asp_tools.specs.Calls.{makes};
ghost use Rattle.asp_tools.specs.ProgramText.{program_of_text};
ghost use Rattle.asp_tools.specs.SatInOrder.{SatInOrder};
ghost use Rattle.asp_tools.specs.private.Replying.{SatReply, GroundReply};

use crate::answer::Answer;
use crate::command::{Command, FormulaFormat};
use crate::formula_texts::texts_of;
use crate::outcome::Kind;
use crate::program_text::{only_text, program_in};
use crate::replies::{refused, too_large};
use asp_base::{ByteList, Memory, VecList};
use ground_program::{Program, ReadRefusal};
use job_shell::Reply;
use sat_translation::{SoftRefusal, TranslateRefusal, translate, translate_soft};
use std::alloc::Global;

/// The reply to the text of a program, with its formula in this format.
pub(crate) fn reply(
    alloc: Global,
    format: FormulaFormat,
    texts: VecList<ByteList>,
) -> Result<Reply<Answer>, Memory>
    requires count { length texts ≡ 1 }
    requires within { AllByRecursion (λ text. length text ≤ 2 ^ 30) texts }
    ensures answers { IfOk result (λ r. SatInOrder format texts r.answer r.made r.said) }
    ensures made { IfOk result (λ r. length r.made ≡ (if makes (Command.Lp2sat format) r.answer then 2 else 0)) }
    ensures said { IfOk result (λ r. r.said ≡ []) }
{
    reply_to(alloc, format, only_text(texts)?)
}

/// The reply to the text.
fn reply_to(alloc: Global, format: FormulaFormat, text: ByteList) -> Result<Reply<Answer>, Memory>
    requires { length text ≤ 2 ^ 30 }
    ensures { IfOk result (λ r. SatReply format (program_of_text text) r.answer r.made r.said) }
{
    match program_in(alloc, text) {
        Ok(program) => match format {
            FormulaFormat::Cnf => reply_in_clauses(alloc, program),
            FormulaFormat::Wcnf => reply_in_soft_clauses(alloc, program),
        },
        Err(ReadRefusal::At { line, kind }) => Ok(refused(alloc, 1, line, Kind::Text(kind))),
        Err(ReadRefusal::Memory) => Err(Memory),
    }
}

/// The reply to a program with a CNF.
fn reply_in_clauses(alloc: Global, program: Program) -> Result<Reply<Answer>, Memory>
    ensures { IfOk result (λ r. GroundReply FormulaFormat.Cnf program r.answer r.made r.said) }
{
    match translate(alloc, program) {
        Ok(translation) => texts_of(alloc, translation),
        Err(TranslateRefusal::Edges) => Ok(refused(alloc, 1, 0, Kind::Edges)),
        Err(TranslateRefusal::TooLarge { number }) => Ok(too_large(alloc, number)),
        Err(TranslateRefusal::Memory) => Err(Memory),
    }
}

/// The reply to a program with a WCNF.
fn reply_in_soft_clauses(alloc: Global, program: Program) -> Result<Reply<Answer>, Memory>
    ensures { IfOk result (λ r. GroundReply FormulaFormat.Wcnf program r.answer r.made r.said) }
{
    match translate_soft(alloc, program) {
        Ok(translation) => texts_of(alloc, translation),
        Err(SoftRefusal::Edges) => Ok(refused(alloc, 1, 0, Kind::Edges)),
        Err(SoftRefusal::TooLarge { number }) => Ok(too_large(alloc, number)),
        Err(SoftRefusal::SumTooLarge { priority }) => {
            Ok(refused(alloc, 1, 0, Kind::SumTooLarge { priority }))
        }
        Err(SoftRefusal::Memory) => Err(Memory),
    }
}
