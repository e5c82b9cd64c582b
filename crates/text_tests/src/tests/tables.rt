//! Tables of texts: of each row, the first fault of its text, or what is written of what is read of it.

use asp_base::Refusal;
use std::alloc::Global;
use std::fmt::Debug;
use std::process::Abort;
use std::test::Fail;

/// Whether these are the same items.
pub(crate) fn are_same<T: PartialEq>(one: &[T], other: &[T]) -> bool {
    one == other
}

/// What was found in the text is a fault of this kind, at this line.
pub(crate) fn expect_fault<Kind: Copy + Debug + PartialEq>(
    rt: &impl Abort,
    text: &str,
    found: Option<Refusal<Kind>>,
    line: u64,
    kind: Kind,
) {
    match found {
        None => assert!(rt; false, "{text:?} is read"),
        Some(refusal) => assert_eq!(rt; refusal, Refusal::At { line, kind }, "{text:?}"),
    }
}

/// The text of each row has a fault of the row's kind at the row's line.
pub(crate) fn expect_faults<Kind: Copy + Debug + PartialEq, F>(
    rt: &impl Abort,
    alloc: Global,
    fault_of: F,
    rows: &[(&str, u64, Kind)],
)
where
    F: Fn(Global, &str) -> Option<Refusal<Kind>>,
    requires { F.IsAlwaysCallable fault_of }
{
    for (text, line, kind) in rows {
        expect_fault(rt, text, fault_of(alloc, text), *line, *kind);
    }
}

/// Of the text of each row just what stands beside it is written, behind this front.
pub(crate) fn expect_written<F: Fn(Global, &str, &mut Vec<u8>) -> Result<(), Fail>>(
    rt: &impl Abort,
    alloc: Global,
    front: &str,
    rewrite: F,
    rows: &[(&str, &str)],
) -> Result<(), Fail>
    requires { F.IsAlwaysCallable rewrite }
{
    for (text, written) in rows {
        let mut out = Vec::from_slice(alloc, front.as_bytes())?;
        rewrite(alloc, text, &mut out)?;
        let wanted = format!(in alloc; "{front}{written}")?;
        assert!(rt;
            are_same(out.as_slice(), wanted.as_str().as_bytes()),
            "{text:?}"
        );
    }
    Ok(())
}
