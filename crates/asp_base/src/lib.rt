//! Literals, words, byte lists, desks, and the reading of a whole content.
#![tactic(auto)]

mod desk;
mod faults;
mod host;
mod interpretation;
mod lists;
mod lit;
mod mem;
mod place;
mod take;
mod words;

pub use desk::Desk;
pub use faults::{Failed, LineFault, Memory, Refusal};
pub use host::HostDesk;
pub use interpretation::Interpretation;
pub use lists::{ByteList, VecList, Walk};
pub use lit::Lit;
pub use mem::{FailDesk, MemDesk};
pub use take::{TakeFault, read_all};
pub use words::Words;

#[cfg(test)]
mod tests {
    use super::*;
    use std::test::Fail;

    #[test]
    fn takes_a_text_in_pieces(rt: HostRuntime) -> Result<(), Fail> {
        let alloc = rt.alloc();
        let mut desk = MemDesk::new(alloc, 2);
        desk.hold("a", b"hello")?;
        for (limit, want) in [(5, true), (4, false)] {
            match read_all(alloc, &mut desk, "a", limit) {
                Ok(text) => {
                    assert!(rt; want);
                    assert_eq!(rt; text.as_slice(), b"hello".as_slice());
                }
                Err(fault) => {
                    assert!(rt; !want);
                    assert_eq!(rt; fault, TakeFault::TextTooLong);
                }
            }
        }
        Ok(())
    }

    #[test]
    fn gives_no_number_to_a_call_on_an_empty_slice(rt: HostRuntime) -> Result<(), Fail> {
        let mut desk = FailDesk::new(MemDesk::new(rt.alloc(), 2), &[4, 2])?;
        desk.say(b"a")?;
        desk.say(b"")?;
        assert_eq!(rt; desk.say(b"b"), Err(Failed));
        assert_eq!(rt; desk.begin_read("c"), Err(Failed));
        assert_eq!(rt; desk.begin_write("d"), Err(Failed));
        desk.say(b"e")?;
        assert_eq!(rt; desk.into_desk().all_said(), b"ae".as_slice());
        Ok(())
    }
}
