//! A cycle is told from its least node on, so that it does not hang on where the search met it.

ghost use Rattle.std.specs.Prelude.{◌≡◌, ℕ, ◌<◌, ℤ, ◌≤ℤ◌, Bool, length, IfOk};
ghost use Rattle.std.specs.List.{slice_index_or};
ghost use Rattle.graph_cycles.specs.Cycle.{IsCycle};
ghost use Rattle.graph_cycles.specs.private.Loop.{IsLoop};

use asp_base::Memory;

/// The closed walk along these nodes, from a least one on.
pub(crate) fn turned(mut nodes: Vec<i32>) -> Result<Vec<i32>, Memory>
    requires { 0 < length nodes.items }
    ensures { IfOk result (λ walk. (step : ℤ → ℤ → Bool) → IsLoop step nodes.items → IsCycle step walk.items) }
{
    let least = least_place(nodes.as_slice());
    let start = nodes[least];
    nodes.rotate_left(least);
    nodes.push(start)?;
    Ok(nodes)
}

/// The place of a least node.
fn least_place(nodes: &[i32]) -> usize
    requires { 0 < length nodes.now }
    ensures within { result < length nodes.now }
    ensures least { (k : ℕ) (d : ℤ) → k < length nodes.now
        → slice_index_or nodes.now result d ≤ℤ slice_index_or nodes.now k d }
{
    let mut least = 0;
    for (k, node) in nodes.iter().enumerate() {
        if *node < nodes[least] {
            least = k;
        }
    }
    least
}
