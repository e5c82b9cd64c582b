//! Reads the texts of a job.

ghost use Rattle.std.specs.Prelude.{◌≡◌, ◌<◌, ◌^◌, ◌↔◌, Some, length, IfOk, IfErr};
ghost use Rattle.job_shell.specs.Ran.{Stopped, TooLongExactly};
ghost use Rattle.job_shell.specs.Reads.{text_limit, AllDiffer, IsTooLong, names_of};
ghost use Rattle.job_shell.specs.private.ReadTexts.{HasReadOne, NotRead, HasRead};

use crate::ended::Ended;
use asp_base::{ByteList, Desk, Memory, TakeFault, VecList, read_all};
use std::alloc::Global;

/// A text has at most so many bytes.
const TEXT_LIMIT: u64 = 1 << 30;

/// The texts of these names, in their order.
pub(crate) fn read_texts<'a, A: Drop, D: Desk<'a>>(
    alloc: Global,
    desk: &mut D,
    names: &[&'a str],
) -> Result<VecList<ByteList>, Ended<A>>
    requires few { length names.now < 2 ^ 32 }
    requires differ { AllDiffer (names_of names.now) }
    ensures ok { IfOk result (λ texts. HasRead (names_of names.now)
        (D.state desk.old) (D.state desk.new) texts) }
    ensures err { IfErr result (λ ended. Stopped (names_of names.now)
        (D.state desk.old) (D.state desk.new) ended) }
    ensures too_long { IfErr result (λ ended. TooLongExactly 1 (names_of names.now)
        (D.state desk.new) ended) }
{
    let mut texts = VecList::new(alloc);
    let mut file = 0;
    for name in names {
        file += 1;
        let text = match read_text(alloc, desk, name, file) {
            Ok(text) => text,
            Err(ended) => return Err(ended),
        };
        match texts.push(text) {
            Ok(()) => (),
            Err(Memory) => return Err(Ended::Memory),
        }
    }
    Ok(texts)
}

/// The text of the name, which is the job's file of this place.
fn read_text<'a, A: Drop, D: Desk<'a>>(
    alloc: Global,
    desk: &mut D,
    name: &'a str,
    file: u32,
) -> Result<ByteList, Ended<A>>
    ensures ok { IfOk result (λ text. HasReadOne (D.state desk.old) (D.state desk.new) name.now text) }
    ensures err { IfErr result (λ ended. NotRead file (D.state desk.old) (D.state desk.new) name.now ended) }
    ensures given { text_limit < (D.state desk.new).given → (D.state desk.new).reading ≡ Some name.now }
    ensures too_long { IfErr result (λ ended. IsTooLong (D.state desk.new) name.now ↔ (ended ≡ Ended.TooLong file)) }
{
    match read_all(alloc, desk, name, TEXT_LIMIT) {
        Ok(text) => Ok(text),
        Err(TakeFault::ReadFault) => Err(Ended::ReadFault { file }),
        Err(TakeFault::TextTooLong) => Err(Ended::TooLong { file }),
        Err(TakeFault::Memory) => Err(Ended::Memory),
    }
}
