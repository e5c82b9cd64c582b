//! The parts of a graph, as a type: the number of each node's part, and which parts are cyclic.

ghost use Rattle.std.specs.Prelude.{◌≡◌, ◌+◌, ◌<◌, ◌≤◌, length, slice_index};
ghost use Rattle.graph_parts.specs.Divided.{is_cyclic_at};

use std::marker::Model;

/// The strongly connected components of a graph, the parts for short. Their numbers run from 1 to the count. Contracts
/// see the numbers of the nodes' parts, the count, and the marks of the cyclic parts.
#[derive(Drop)]
pub struct Parts {
    numbers: Vec<u32>,
    count: u32,
    cyclic: Vec<bool>,
}

impl Model for Parts {
    ghost use Rattle.graph_parts.specs.Divided.{Divided};
    ghost use Rattle.graph_parts.specs.private.Inside.{divided_of, HasMarks};

    ghost Value = { Divided };

    ghost view = { divided_of };

    ghost invariant = { HasMarks };
}

impl Parts {
    /// Parts with these numbers and marks.
    pub(crate) fn new(numbers: Vec<u32>, count: u32, cyclic: Vec<bool>) -> Parts
        requires { length cyclic.items ≡ count + 1 }
        ensures { result ≡ record { numbers = numbers.items; count = count; cyclic = cyclic.items } }
    {
        Parts {
            numbers,
            count,
            cyclic,
        }
    }

    /// How many nodes there are.
    pub fn nodes(&self) -> usize
        ensures { result ≡ length self.now.numbers }
    {
        self.numbers.len()
    }

    /// The numbers of the nodes' parts.
    pub fn numbers(&self) -> &[u32]
        ensures { result.now ≡ self.now.numbers }
    {
        self.numbers.as_slice()
    }

    /// How many parts there are.
    pub fn count(&self) -> u32
        ensures { result ≡ self.now.count }
    {
        self.count
    }

    /// The number of a node's part.
    pub fn number(&self, node: u32) -> u32
        requires { node < length self.now.numbers }
        ensures { result ≡ slice_index self.now.numbers node }
    {
        self.numbers[node as usize]
    }

    /// Whether the part with a number is cyclic.
    pub fn is_cyclic(&self, number: u32) -> bool
        requires { number ≤ self.now.count }
        ensures { result ≡ is_cyclic_at self.now.cyclic number }
    {
        self.cyclic[number as usize]
    }
}
