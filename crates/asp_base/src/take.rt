//! Takes the whole content of a name.

ghost use Rattle.std.specs.Prelude.{◌≡◌, ◌≤◌, ◌<◌, ◌^◌, ◌↔◌, ◌⊎◌, [], None, Some, IfOk, OnOk, OnErr, IfSome, IsErrOf, length};
ghost use Rattle.asp_base.specs.Desk.{DeskState, Rose, Name};
ghost use Rattle.asp_base.specs.Take.{TakeKeeps, TookAll};
ghost use Rattle.asp_base.specs.declared.take.TakeFault.TheVariants as faults;

use crate::desk::Desk;
use crate::faults::{Failed, Memory};
use crate::lists::ByteList;
use std::alloc::{AllocError, Global};

/// The bytes that one read asks for.
const PIECE: usize = 1 << 16;

/// Why a text was not taken.
#[derive(Clone, Copy, Debug, PartialEq, Eq)]
pub enum TakeFault {
    /// A call that reads failed.
    ReadFault,
    /// The text has more bytes than the limit.
    TextTooLong,
    /// The text, or the buffer of a read, found no memory.
    Memory,
}

impl From<Failed> for TakeFault {
    ghost from_gives = { λ _ e. e ≡ faults.ReadFault };

    fn from(_: Failed) -> TakeFault {
        TakeFault::ReadFault
    }
}

impl From<Memory> for TakeFault {
    ghost from_gives = { λ _ e. e ≡ faults.Memory };

    fn from(_: Memory) -> TakeFault {
        TakeFault::Memory
    }
}

impl From<AllocError> for TakeFault {
    ghost from_gives = { λ _ e. e ≡ faults.Memory };

    fn from(_: AllocError) -> TakeFault {
        TakeFault::Memory
    }
}

/// Reads the whole content of a name, which may have up to `limit` bytes.
///
/// `ReadFault` only where a call that reads failed at this name. `TextTooLong` exactly where the
/// reading gave more than `limit` bytes before a fault. `Memory` where the text or the buffer of
/// 64 KiB finds no memory. Whatever the answer, nothing is changed of what is held, and nothing of
/// the side that writes.
pub fn read_all<'a, D: Desk<'a>>(
    alloc: Global,
    desk: &mut D,
    name: &'a str,
    limit: u64,
) -> Result<ByteList, TakeFault>
    requires { limit < 2 ^ 32 }
    ensures ok { IfOk result (λ text. TookAll (D.state desk.old) (D.state desk.new) name.now limit text) }
    ensures read_fault { IsErrOf result TakeFault.ReadFault →
        Rose (D.state desk.old).read_faults (D.state desk.new).read_faults ×
        ((D.state desk.new).read_failed ≡ Name name.now) }
    ensures no_fault { IsErrOf result TakeFault.ReadFault ⊎
        ((D.state desk.new).read_faults ≡ (D.state desk.old).read_faults) }
    ensures too_long { IsErrOf result TakeFault.TextTooLong →
        (limit < (D.state desk.new).given) × ((D.state desk.new).reading ≡ Some name.now) }
    ensures text_too_long { IsErrOf result TakeFault.TextTooLong →
        IfSome ((D.state desk.old).held name.now) (λ content. limit < length content) }
    ensures only_too_long { limit < (D.state desk.new).given → IsErrOf result TakeFault.TextTooLong }
    ensures keeps { TakeKeeps (D.state desk.old) (D.state desk.new) }
{
    desk.begin_read(name)?;
    let mut text = Vec::new(alloc);
    let mut piece = new_piece(alloc)?;
    // Every turn takes a byte at least.
    for _ in 0..limit + 1 {
        let count = desk.read(&mut piece)?;
        if count == 0 {
            return Ok(ByteList::from_vec(text));
        }
        if text.len() as u64 + count as u64 > limit {
            return Err(TakeFault::TextTooLong);
        }
        text.extend_from_slice(&piece[..count])?;
    }
    Err(TakeFault::TextTooLong)
}

/// The buffer of a read.
fn new_piece(alloc: Global) -> Result<Vec<u8>, Memory>
    ensures { IfOk result (λ piece. length piece.items ≡ 2 ^ 16) }
{
    let mut piece = Vec::new(alloc);
    piece.resize(PIECE, 0)?;
    Ok(piece)
}
