//! The cycle of a graph that is told: sorted edges, a search, and the cycle turned to its least node.

ghost use Rattle.std.specs.Prelude.{◌≡◌, None, IsNone, IfSome, IfOk};
ghost use Rattle.asp_base.specs.Walks.{Acyclic};
ghost use Rattle.graph_cycles.specs.Cycle.{leads, IsCycle};

use crate::arcs::sorted;
use crate::descent::search;
use crate::turn::turned;
use asp_base::{Memory, Walk};
use std::alloc::Global;

/// A cycle of the graph with these edges, each from a node to a node; None exactly where there is none. Its nodes
/// differ but for the ends, and it starts at its least node. Which cycle is given among several is left open.
pub fn find_cycle(alloc: Global, edges: &[(i32, i32)]) -> Result<Option<Walk>, Memory>
    ensures none { IfOk result (λ found. IsNone found → Acyclic (leads edges.now)) }
    ensures cycle { IfOk result (λ found. IfSome found (λ walk. IsCycle (leads edges.now) walk)) }
{
    let arcs = sorted(alloc, edges)?;
    match search(alloc, arcs.as_slice())? {
        None => Ok(None),
        Some(nodes) => Ok(Some(Walk::from_vec(turned(nodes)?))),
    }
}
