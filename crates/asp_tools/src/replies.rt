//! Replies: with texts that are made, or with none.

ghost use Rattle.std.specs.Prelude.{◌≡◌, ◌∷◌, [], false, IfOk};
ghost use Rattle.asp_tools.specs.private.Long.{is_long_kind};

use crate::answer::{Answer, Refused};
use crate::outcome::Kind;
use asp_base::{Memory, VecList};
use job_shell::{Output, Reply};
use std::alloc::Global;

/// An answer, and what is said with it.
pub(crate) fn saying(alloc: Global, answer: Answer, said: Vec<u8>) -> Reply<Answer>
    ensures answer { result.answer ≡ answer }
    ensures made { result.made ≡ [] }
    ensures said { result.said ≡ said.items }
{
    Reply {
        answer,
        made: VecList::new(alloc),
        said: VecList::from_vec(said),
    }
}

/// The job is done with these texts, and nothing is said.
pub(crate) fn making(alloc: Global, made: VecList<Output>) -> Reply<Answer>
    ensures answer { result.answer ≡ Answer.Done }
    ensures made { result.made ≡ made }
    ensures said { result.said ≡ [] }
{
    Reply {
        answer: Answer::Done,
        made,
        said: VecList::new(alloc),
    }
}

/// The job is done with this text, and nothing is said.
pub(crate) fn making_text(alloc: Global, text: Vec<u8>) -> Result<Reply<Answer>, Memory>
    ensures answer { IfOk result (λ r. r.answer ≡ Answer.Done) }
    ensures made { IfOk result (λ r. r.made ≡ text.items ∷ []) }
    ensures said { IfOk result (λ r. r.said ≡ []) }
{
    let mut made = VecList::new(alloc);
    made.push(Output::from_text(text))?;
    Ok(making(alloc, made))
}

/// A measure of the program is this number, which is above its limit.
pub(crate) fn too_large(alloc: Global, number: u64) -> Reply<Answer>
    ensures answer { result.answer ≡ Answer.TooLarge number }
    ensures made { result.made ≡ [] }
    ensures said { result.said ≡ [] }
{
    saying(alloc, Answer::TooLarge { number }, Vec::new(alloc))
}

/// The file of this place is refused for this line.
pub(crate) fn refused(alloc: Global, file: u32, line: u64, kind: Kind) -> Reply<Answer>
    requires { is_long_kind kind ≡ false }
    ensures answer { result.answer ≡ Answer.Refused (record { file = file; line = line; kind = kind }) }
    ensures made { result.made ≡ [] }
    ensures said { result.said ≡ [] }
{
    let refused = Refused::new(file, line, kind);
    saying(alloc, Answer::Refused(refused), Vec::new(alloc))
}
