//! A graph is divided into its parts: the numbers of the parts by one walk, and then each step once more: a part is
//! cyclic where a step of one of its nodes stays in it.

ghost use Rattle.std.specs.Prelude.{◌≡◌, ◌+◌, ◌<◌, ◌≤◌, ◌^◌, ◌==◌, length, slice_index, IfOk, EachIndex};
ghost use Rattle.std.specs.List.{list_any};
ghost use Rattle.graph_parts.specs.Divided.{AreCycles};
ghost use Rattle.graph_parts.specs.Graph.{AreEdges, IsGraph, has_edge, leads};
ghost use Rattle.graph_parts.specs.Parts.{AreParts};
ghost use Rattle.graph_parts.specs.private.Marks.{AreMarked};

use crate::groups::grouped;
use crate::numbering::number_parts;
use crate::parts::Parts;
use asp_base::Memory;
use std::alloc::Global;

/// Divides a graph into its parts: the targets of all steps stand in one list, those of a node from its start on, up to
/// the start of the next node. A step never leads to a higher number. In time linear in nodes and steps. `Memory` where
/// there is none left.
pub fn divide(alloc: Global, starts: &[u32], targets: &[u32]) -> Result<Parts, Memory>
    requires graph { IsGraph starts.now targets.now }
    requires few { length starts.now ≤ 2 ^ 32 }
    ensures sized { IfOk result (λ parts. length parts.numbers + 1 ≡ length starts.now) }
    ensures parts { IfOk result (λ parts. AreParts (leads starts.now targets.now) parts.numbers parts.count) }
    ensures cycles { IfOk result (λ parts. AreCycles (leads starts.now targets.now) parts.numbers parts.cyclic) }
{
    let found = number_parts(alloc, starts, targets)?;
    let cyclic = cyclic_parts(
        alloc,
        starts,
        targets,
        found.numbers.as_slice(),
        found.count,
    )?;
    Ok(Parts::new(found.numbers, found.count, cyclic))
}

/// Divides the graph with these edges into its parts. A step never leads to a higher number. In time linear in nodes
/// and edges. `Memory` where there is none left.
pub fn parts_of(alloc: Global, nodes: u32, edges: &[(u32, u32)]) -> Result<Parts, Memory>
    requires edges { AreEdges nodes edges.now }
    requires few { length edges.now < 2 ^ 32 }
    ensures sized { IfOk result (λ parts. length parts.numbers ≡ nodes) }
    ensures parts { IfOk result (λ parts. AreParts (has_edge edges.now) parts.numbers parts.count) }
    ensures cycles { IfOk result (λ parts. AreCycles (has_edge edges.now) parts.numbers parts.cyclic) }
{
    let groups = grouped(alloc, edges, nodes as usize)?;
    divide(alloc, groups.starts.as_slice(), groups.values.as_slice())
}

/// Which numbers have a step from one of their nodes to one of their nodes.
fn cyclic_parts(
    alloc: Global,
    starts: &[u32],
    targets: &[u32],
    numbers: &[u32],
    count: u32,
) -> Result<Vec<bool>, Memory>
    requires graph { IsGraph starts.now targets.now }
    requires sized { length numbers.now + 1 ≡ length starts.now }
    requires most { EachIndex numbers.now (λ u. slice_index numbers.now u ≤ count) }
    ensures sized { IfOk result (λ cyclic. length cyclic.items ≡ count + 1) }
    ensures marked { IfOk result (λ cyclic.
        AreMarked starts.now targets.now numbers.now (length numbers.now) cyclic.items) }
{
    let mut cyclic = vec![in alloc; false; count as usize + 1]?;
    for (node, number) in numbers.iter().enumerate() {
        let targets = &targets[starts[node] as usize..starts[node + 1] as usize];
        if leads_to(targets, numbers, *number) {
            cyclic[*number as usize] = true;
        }
    }
    Ok(cyclic)
}

/// Whether one of these nodes has the number.
fn leads_to(nodes: &[u32], numbers: &[u32], number: u32) -> bool
    requires { EachIndex nodes.now (λ j. slice_index nodes.now j < length numbers.now) }
    ensures { result ≡ list_any (λ v. slice_index numbers.now v == number) nodes.now }
{
    for node in nodes {
        if numbers[*node as usize] == number {
            return true;
        }
    }
    false
}
