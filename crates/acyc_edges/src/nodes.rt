//! Nodes of edges: those of the program are numbered by their order, and the atoms of cyclic components come behind.

ghost use Rattle.std.specs.Prelude.{◌≡◌, pos, ◌==◌, ◌<◌, ◌≤◌, ◌^◌, length, map, IfOk};
ghost use Rattle.std.specs.List.{filter};
ghost use Rattle.components.specs.Divided.{cyclic_numbers, part_of};
ghost use Rattle.components.specs.Parts.{ArePartsOf};
ghost use Rattle.ground_program.specs.Size.{size};
ghost use Rattle.acyc_edges.specs.Encoding.{is_cyclic, nodes_of};
ghost use Rattle.acyc_edges.specs.Names.{index_by};
ghost use Rattle.acyc_edges.specs.private.Nodes.{AreNodes, ends_of_edges, node_at};

use crate::kept::is_cyclic;
use asp_base::Memory;
use components::Parts;
use ground_program::{Edge, Program};
use rising_numbers::RisingNumbers;
use std::alloc::Global;

/// The nodes of a program's edges, each 2^31 higher, and its atoms in cyclic components.
#[derive(Drop)]
pub(crate) struct Nodes {
    pub(crate) given: RisingNumbers,
    pub(crate) cyclic: RisingNumbers,
}

/// A node as a number that is not negative: 2^31 higher.
pub(crate) fn raised(node: i32) -> u32
    ensures { node_at result ≡ node }
{
    (node as i64 + (1 << 31)) as u32
}

/// The nodes of the program's edges, in ascending order.
fn given_nodes(alloc: Global, program: &Program) -> Result<RisingNumbers, Memory>
    ensures { IfOk result (λ given. map node_at given ≡ nodes_of program.now.edges) }
{
    let ends = ends_of_edges(alloc, program.edges.as_slice())?;
    let given = RisingNumbers::of_vec(alloc, ends)?;
    Ok(given)
}

/// Both ends of each edge.
fn ends_of_edges(alloc: Global, edges: &[Edge]) -> Result<Vec<u32>, Memory>
    ensures { IfOk result (λ ends. map node_at ends.items ≡ ends_of_edges edges.now) }
{
    let mut ends = Vec::new(alloc);
    for edge in edges {
        ends.push(raised(edge.from))?;
        ends.push(raised(edge.to))?;
    }
    Ok(ends)
}

/// The atoms of cyclic components, rising.
fn cyclic_list(alloc: Global, program: &Program, parts: &Parts) -> Result<Vec<u32>, Memory>
    requires { ArePartsOf program.now parts.now }
    ensures { IfOk result (λ list. list.items
        ≡ filter (is_cyclic program.now (part_of parts.now) (cyclic_numbers parts.now)) program.now.atoms) }
{
    let mut list = Vec::new(alloc);
    for atom in program.atoms.as_slice() {
        if is_cyclic(program, parts, *atom) {
            list.push(*atom)?;
        }
    }
    Ok(list)
}

fn cyclic_atoms(alloc: Global, program: &Program, parts: &Parts) -> Result<RisingNumbers, Memory>
    requires { ArePartsOf program.now parts.now }
    ensures { IfOk result (λ list. list
        ≡ filter (is_cyclic program.now (part_of parts.now) (cyclic_numbers parts.now)) program.now.atoms) }
{
    program.known();
    let list = cyclic_list(alloc, program, parts)?;
    let cyclic = RisingNumbers::of_vec(alloc, list)?;
    Ok(cyclic)
}

/// The nodes of a program that is made of this one.
pub(crate) fn nodes_for(alloc: Global, program: &Program, parts: &Parts) -> Result<Nodes, Memory>
    requires parts { ArePartsOf program.now parts.now }
    requires small { size program.now ≤ 2 ^ 24 }
    ensures { IfOk result (λ nodes. AreNodes program.now (part_of parts.now) (cyclic_numbers parts.now) nodes) }
{
    program.known();
    let given = given_nodes(alloc, program)?;
    let cyclic = cyclic_atoms(alloc, program, parts)?;
    Ok(Nodes { given, cyclic })
}

/// The index of a number; the count of all where it is not among them.
pub(crate) fn index_of(numbers: &RisingNumbers, number: u32) -> usize
    ensures is { result ≡ index_by ◌==◌ numbers.now number }
    ensures most { result ≤ length numbers.now }
{
    match numbers.place(number) {
        Some(place) => place - 1,
        None => numbers.len(),
    }
}

pub(crate) fn signed(node: usize) -> i32
    requires { node < 2 ^ 31 }
    ensures { result ≡ pos node }
{
    node as i32
}
