//! Cycles of small graphs.

use graph_cycles::find_cycle;
use std::alloc::Global;
use std::process::Abort;
use std::test::Fail;

fn expect_cycle(
    rt: &impl Abort,
    alloc: Global,
    edges: &[(i32, i32)],
    want: &[i32],
) -> Result<(), Fail> {
    match find_cycle(alloc, edges)? {
        None => assert!(rt; want.is_empty()),
        Some(walk) => assert_eq!(rt; walk.as_slice(), want),
    }
    Ok(())
}

#[test]
fn finds_cycles(rt: HostRuntime) -> Result<(), Fail> {
    let alloc = rt.alloc();
    let table: [(&[(i32, i32)], &[i32]); 8] = [
        (&[], &[]),
        (&[(3, 3)], &[3, 3]),
        (&[(5, 6), (6, 5)], &[5, 6, 5]),
        (&[(3, 1), (1, 2), (2, 3)], &[1, 2, 3, 1]),
        (&[(9, 1), (2, 1), (1, 2)], &[1, 2, 1]),
        (&[(-1, -2), (-2, -1)], &[-2, -1, -2]),
        (&[(1, 2), (1, 3), (2, 4), (3, 4)], &[]),
        (&[(7, 8), (1, 9), (8, 9), (9, 8)], &[8, 9, 8]),
    ];
    for (edges, want) in table {
        expect_cycle(&rt, alloc, edges, want)?;
    }
    Ok(())
}
