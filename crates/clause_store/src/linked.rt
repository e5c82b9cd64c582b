//! The edges that an assignment puts there, and a cycle of them.

ghost use Rattle.std.specs.Prelude.{◌≡◌, ◌≤◌, length, IfOk, IsNone, IfSome};
ghost use Rattle.std.specs.List.{AllByRecursion};
ghost use Rattle.asp_base.specs.Literal.{atom_of};
ghost use Rattle.asp_base.specs.Walks.{Acyclic};
ghost use Rattle.graph_cycles.specs.Cycle.{IsCycle};
ghost use Rattle.clause_store.specs.Assigned.{true_in};
ghost use Rattle.clause_store.specs.Models.{linked};
ghost use Rattle.clause_store.specs.private.Linking.{ends_of};

use crate::assignment::Assignment;
use crate::formula::LitEdge;
use asp_base::{Memory, Walk};
use graph_cycles::find_cycle;
use std::alloc::Global;

/// The ends of the edges whose literal is true.
fn linked_ends(
    alloc: Global,
    edges: &[LitEdge],
    values: &Assignment,
) -> Result<Vec<(i32, i32)>, Memory>
    requires { AllByRecursion (λ edge. atom_of edge.lit ≤ length values.now) edges.now }
    ensures { IfOk result (λ list. list.items ≡ ends_of edges.now (true_in values.now)) }
{
    let mut list = Vec::new(alloc);
    for edge in edges {
        if values.holds(edge.lit) {
            list.push((edge.from, edge.to))?;
        }
    }
    Ok(list)
}

/// A cycle of the edges whose literal is true.
pub(crate) fn linked_cycle(
    alloc: Global,
    edges: &[LitEdge],
    values: &Assignment,
) -> Result<Option<Walk>, Memory>
    requires { AllByRecursion (λ edge. atom_of edge.lit ≤ length values.now) edges.now }
    ensures none { IfOk result (λ found. IsNone found → Acyclic (linked edges.now (true_in values.now))) }
    ensures cycle { IfOk result (λ found. IfSome found (λ walk. IsCycle (linked edges.now (true_in values.now)) walk)) }
{
    let list = linked_ends(alloc, edges, values)?;
    find_cycle(alloc, list.as_slice())
}
