//! The parts of a graph among its first nodes alone, numbered anew without gaps: a number's rank is how many of the
//! numbers up to it are used, a sum over marks. So nodes that only stand between others are hidden.

ghost use Rattle.std.specs.Prelude.{◌≡◌, ◌+◌, ◌<◌, ◌≤◌, ◌^◌, length, map, slice_index, IfOk, EachIndex};
ghost use Rattle.graph_parts.specs.Divided.{AreCycles};
ghost use Rattle.graph_parts.specs.Graph.{AreEdges, has_edge};
ghost use Rattle.graph_parts.specs.Parts.{ArePartsAmong};
ghost use Rattle.graph_parts.specs.private.Ranks.{AreMoved, AreRanks, AreUsed, SameBySame};

use crate::dividing::parts_of;
use crate::groups::added_up;
use crate::numbering::Numbers;
use crate::parts::Parts;
use asp_base::Memory;
use std::alloc::Global;

/// Divides the first nodes of the graph with these edges into its parts; they may reach each other by way of the other
/// nodes. What a node reaches never has a higher number. In time linear in nodes and edges. `Memory` where there is
/// none left.
pub fn parts_among(
    alloc: Global,
    nodes: u32,
    among: u32,
    edges: &[(u32, u32)],
) -> Result<Parts, Memory>
    requires edges { AreEdges nodes edges.now }
    requires few { length edges.now < 2 ^ 32 }
    requires among { among ≤ nodes }
    ensures sized { IfOk result (λ parts. length parts.numbers ≡ among) }
    ensures parts { IfOk result (λ parts. ArePartsAmong (has_edge edges.now) parts.numbers parts.count) }
    ensures cycles { IfOk result (λ parts. AreCycles (has_edge edges.now) parts.numbers parts.cyclic) }
{
    let all = parts_of(alloc, nodes, edges)?;
    let numbers = &all.numbers()[..among as usize];
    let ranks = ranks(alloc, numbers, all.count())?;
    let cyclic = moved(alloc, &all, numbers, ranks.numbers.as_slice(), ranks.count)?;
    Ok(Parts::new(ranks.numbers, ranks.count, cyclic))
}

/// Numbers that say which of these are the same and which are higher, from 1 on without gaps.
fn ranks(alloc: Global, numbers: &[u32], count: u32) -> Result<Numbers, Memory>
    requires { EachIndex numbers.now (λ u. (1 ≤ slice_index numbers.now u) × (slice_index numbers.now u ≤ count)) }
    ensures { IfOk result (λ ranks. AreRanks numbers.now ranks.numbers.items ranks.count) }
{
    let ranks = added_up(used_numbers(alloc, numbers, count)?);
    let ranked = ranked(alloc, numbers, ranks.as_slice())?;
    Ok(Numbers {
        numbers: ranked,
        count: ranks[count as usize],
    })
}

/// A one at each of these numbers.
fn used_numbers(alloc: Global, numbers: &[u32], count: u32) -> Result<Vec<u32>, Memory>
    requires { EachIndex numbers.now (λ u. slice_index numbers.now u ≤ count) }
    ensures sized { IfOk result (λ used. length used.items ≡ count + 1) }
    ensures used { IfOk result (λ used. AreUsed numbers.now used.items) }
{
    let mut used = vec![in alloc; 0u32; count as usize + 1]?;
    for number in numbers {
        used[*number as usize] = 1;
    }
    Ok(used)
}

/// The rank of each number.
fn ranked(alloc: Global, numbers: &[u32], ranks: &[u32]) -> Result<Vec<u32>, Memory>
    requires { EachIndex numbers.now (λ u. slice_index numbers.now u < length ranks.now) }
    ensures { IfOk result (λ ranked. ranked.items ≡ map (λ i. slice_index ranks.now i) numbers.now) }
{
    let mut ranked = Vec::new(alloc);
    for number in numbers {
        ranked.push(ranks[*number as usize])?;
    }
    Ok(ranked)
}

/// The marks of the numbers at their ranks.
fn moved(
    alloc: Global,
    all: &Parts,
    numbers: &[u32],
    ranked: &[u32],
    count: u32,
) -> Result<Vec<bool>, Memory>
    requires most { EachIndex numbers.now (λ u. slice_index numbers.now u ≤ all.now.count) }
    requires ranked { length ranked.now ≡ length numbers.now }
    requires count { EachIndex ranked.now (λ u. slice_index ranked.now u ≤ count) }
    requires same { SameBySame numbers.now ranked.now }
    ensures sized { IfOk result (λ cyclic. length cyclic.items ≡ count + 1) }
    ensures moved { IfOk result (λ cyclic.
        AreMoved numbers.now ranked.now all.now.cyclic (length numbers.now) cyclic.items) }
{
    let mut cyclic = vec![in alloc; false; count as usize + 1]?;
    for (node, number) in numbers.iter().enumerate() {
        cyclic[ranked[node] as usize] = all.is_cyclic(*number);
    }
    Ok(cyclic)
}
