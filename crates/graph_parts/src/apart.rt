//! The parts of a graph without edges: each node is a part of its own, and so no walk is made.

ghost use Rattle.std.specs.Prelude.{◌≡◌, ◌-◌, ◌<◌, ◌^◌, [], length, IfOk};
ghost use Rattle.graph_parts.specs.Divided.{AreCycles};
ghost use Rattle.graph_parts.specs.Graph.{has_edge};
ghost use Rattle.graph_parts.specs.Parts.{ArePartsAmong};

use crate::parts::Parts;
use asp_base::Memory;
use std::alloc::Global;

/// The parts of so many nodes without edges. `Memory` where there is none left.
pub fn parts_apart(alloc: Global, nodes: u32) -> Result<Parts, Memory>
    requires { nodes < 2 ^ 32 - 1 }
    ensures sized { IfOk result (λ parts. length parts.numbers ≡ nodes) }
    ensures parts { IfOk result (λ parts. ArePartsAmong (has_edge []) parts.numbers parts.count) }
    ensures cycles { IfOk result (λ parts. AreCycles (has_edge []) parts.numbers parts.cyclic) }
{
    let mut numbers = Vec::with_capacity(alloc, nodes as usize)?;
    for node in 0..nodes {
        numbers.push(node + 1)?;
    }
    let cyclic = vec![in alloc; false; nodes as usize + 1]?;
    Ok(Parts::new(numbers, nodes, cyclic))
}
