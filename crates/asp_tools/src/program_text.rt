//! The text of a command that reads one, and the program of a text of either format.

ghost use Rattle.std.specs.Prelude.{◌≡◌, ◌≤◌, ◌^◌, ◌∷◌, [], length, Ok, IfOk, IfErr};
ghost use Rattle.asp_base.specs.Faults.{Refuses};
ghost use Rattle.asp_tools.specs.ProgramText.{begins_aspif, program_of_text};

use asp_base::{ByteList, Memory, VecList};
use ground_program::{Program, ReadRefusal};
use std::alloc::Global;

/// The only text of a command.
pub(crate) fn only_text(texts: VecList<ByteList>) -> Result<ByteList, Memory>
    requires { length texts ≡ 1 }
    ensures { IfOk result (λ text. texts ≡ text ∷ []) }
{
    let mut texts = texts.into_vec();
    match texts.pop() {
        Some(text) => Ok(text),
        // There is a text.
        None => Err(Memory),
    }
}

/// The program of a text: aspif where it begins with `asp `, else smodels. The text is let go.
pub(crate) fn program_in(alloc: Global, text: ByteList) -> Result<Program, ReadRefusal>
    requires { length text ≤ 2 ^ 30 }
    ensures program { IfOk result (λ program. program_of_text text ≡ Ok program) }
    ensures fault { IfErr result (λ refusal. Refuses (program_of_text text) refusal) }
{
    read_program(alloc, text.as_slice())
}

/// The program of the bytes of a text.
fn read_program(alloc: Global, text: &[u8]) -> Result<Program, ReadRefusal>
    requires { length text.now ≤ 2 ^ 30 }
    ensures program { IfOk result (λ program. program_of_text text.now ≡ Ok program) }
    ensures fault { IfErr result (λ refusal. Refuses (program_of_text text.now) refusal) }
{
    if text.starts_with(b"asp ") {
        aspif_format::read(alloc, text)
    } else {
        smodels_format::read(alloc, text)
    }
}
