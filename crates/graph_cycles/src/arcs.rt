//! Edges sorted by their first nodes, so that the edges from a node stand together and are found by halving. A node is
//! known by the place where its edges begin, and so needs no table of nodes, however large their numbers are.

ghost use Rattle.std.specs.Prelude.{◌≡◌, ℕ, ℤ, IsNone, IfSome, IfOk};
ghost use Rattle.graph_cycles.specs.private.Arcs.{Ascends, Starts};
ghost use Rattle.graph_cycles.specs.Cycle.{leads};

use asp_base::Memory;
use std::alloc::Global;

/// The edges, sorted by their first nodes.
pub(crate) fn sorted(alloc: Global, edges: &[(i32, i32)]) -> Result<Vec<(i32, i32)>, Memory>
    ensures ascends { IfOk result (λ arcs. Ascends arcs.items) }
    ensures same { IfOk result (λ arcs. (from to : ℤ) → leads arcs.items from to ≡ leads edges.now from to) }
{
    let mut arcs = edges.to_vec(alloc)?;
    arcs.sort_unstable();
    Ok(arcs)
}

/// Where the edges from a node begin; None where it has none.
pub(crate) fn start_of(arcs: &[(i32, i32)], node: i32) -> Option<usize>
    requires { Ascends arcs.now }
    ensures none { IsNone result → (start : ℕ) → Starts arcs.now node start → ⊥ }
    ensures start { IfSome result (λ start. Starts arcs.now node start) }
{
    let start = arcs.partition_point(|arc| arc.0 < node);
    if start < arcs.len() && arcs[start].0 == node {
        Some(start)
    } else {
        None
    }
}
