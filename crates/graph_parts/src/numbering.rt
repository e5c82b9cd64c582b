//! Numbers for the parts of a whole graph: a search from each node in turn.

ghost use Rattle.std.specs.Prelude.{◌≡◌, ◌+◌, ◌<◌, ◌≤◌, ◌^◌, length, IfOk};
ghost use Rattle.graph_parts.specs.Graph.{IsGraph, leads};
ghost use Rattle.graph_parts.specs.Parts.{AreParts};

use crate::search::Search;
use asp_base::Memory;
use std::alloc::Global;

/// The number of each node's part, and how many parts there are.
#[derive(Drop)]
pub(crate) struct Numbers {
    pub(crate) numbers: Vec<u32>,
    pub(crate) count: u32,
}

/// Numbers the parts of a graph, from 1 on; a step never leads to a higher number.
pub(crate) fn number_parts(
    alloc: Global,
    starts: &[u32],
    targets: &[u32],
) -> Result<Numbers, Memory>
    requires graph { IsGraph starts.now targets.now }
    requires few { length starts.now ≤ 2 ^ 32 }
    ensures sized { IfOk result (λ parts. length parts.numbers.items + 1 ≡ length starts.now) }
    ensures parts { IfOk result (λ parts. AreParts (leads starts.now targets.now) parts.numbers.items parts.count) }
{
    let mut search = Search::new(alloc, starts)?;
    for node in 0..starts.len() - 1 {
        search.explore(starts, targets, node as u32)?;
    }
    Ok(Numbers {
        numbers: search.numbers,
        count: search.count,
    })
}
