//! The edges of an encoding: those of the program with new numbers of their nodes, and those of each name.

ghost use Rattle.std.specs.Prelude.{◌≡◌, ◌++◌, IfOk, OnOk};
ghost use Rattle.std.specs.List.{flat_map, AllByRecursion};
ghost use Rattle.components.specs.Divided.{cyclic_numbers, part_of};
ghost use Rattle.acyc_edges.specs.declared.name.Name.TheVariants.{Chosen, Backs};
ghost use Rattle.acyc_edges.specs.Encoding.{kept_edges, node_of};
ghost use Rattle.acyc_edges.specs.private.Setting.{edges_by};
ghost use Rattle.acyc_edges.specs.private.Tables.{HasHead, NameFits};

use crate::name::Name;
use crate::setting::Setting;
use crate::writer::Writer;
use asp_base::{Lit, Memory};
use ground_program::{Edge, EdgeList, LitList};
use std::alloc::Global;

/// An edge of the program, between the new numbers of its nodes.
fn new_edge(alloc: Global, setting: &Setting<'_>, edge: &Edge) -> Result<Edge, Memory>
    ensures from { IfOk result (λ new. new.from
        ≡ node_of setting.now.program (part_of setting.now.parts) (cyclic_numbers setting.now.parts) edge.now.from) }
    ensures to { IfOk result (λ new. new.to
        ≡ node_of setting.now.program (part_of setting.now.parts) (cyclic_numbers setting.now.parts) edge.now.to) }
    ensures condition { IfOk result (λ new. new.condition ≡ edge.now.condition) }
{
    let condition = LitList::from_slice(alloc, edge.condition.as_slice())?;
    Ok(Edge {
        from: setting.node_of(edge.from),
        to: setting.node_of(edge.to),
        condition,
    })
}

/// The program's edges, between the new numbers of their nodes.
pub(crate) fn kept_edges(alloc: Global, setting: &Setting<'_>) -> Result<EdgeList, Memory>
    ensures { IfOk result (λ edges. edges
        ≡ kept_edges setting.now.program (part_of setting.now.parts) (cyclic_numbers setting.now.parts)) }
{
    let program = setting.program();
    let mut edges = EdgeList::new(alloc);
    for edge in program.edges.as_slice() {
        edges.push(new_edge(alloc, setting, edge)?)?;
    }
    Ok(edges)
}

/// The edge between two atoms, where it is chosen.
fn push_chosen(edges: &mut EdgeList, writer: &Writer<'_>, from: u32, to: u32) -> Result<(), Memory>
    ensures { OnOk result (edges.new ≡ edges.old
        ++ edges_by writer.now.setting.now writer.now.numbers.now (Chosen from to)) }
{
    let chosen = writer.numbers.of(Name::Chosen(from, to));
    edges.push(Edge {
        from: writer.setting.node_of_atom(from),
        to: writer.setting.node_of_atom(to),
        condition: LitList::from_slice(writer.alloc, &[Lit::positive(chosen)])?,
    })
}

/// The edges from the head of a rule to the atoms of its body in the component, where it backs its head.
fn push_backs(edges: &mut EdgeList, writer: &Writer<'_>, index: u32) -> Result<(), Memory>
    requires { HasHead writer.now.setting.now.program (part_of writer.now.setting.now.parts) index }
    ensures { OnOk result (edges.new ≡ edges.old
        ++ edges_by writer.now.setting.now writer.now.numbers.now (Backs index)) }
{
    let backs = writer.numbers.of(Name::Backs(index));
    let head = writer.setting.head_of(index);
    for to in writer.setting.inner_of(index) {
        edges.push(Edge {
            from: writer.setting.node_of_atom(head),
            to: writer.setting.node_of_atom(*to),
            condition: LitList::from_slice(writer.alloc, &[Lit::positive(backs)])?,
        })?;
    }
    Ok(())
}

/// Puts the edges of a name behind the others.
fn push_edges(edges: &mut EdgeList, writer: &Writer<'_>, name: Name) -> Result<(), Memory>
    requires { NameFits writer.now.setting.now.program (part_of writer.now.setting.now.parts) name }
    ensures { OnOk result (edges.new ≡ edges.old ++ edges_by writer.now.setting.now writer.now.numbers.now name) }
{
    match name {
        Name::Chosen(from, to) => push_chosen(edges, writer, from, to),
        Name::Backs(index) => push_backs(edges, writer, index),
        _ => Ok(()),
    }
}

/// The edges of all of these names.
pub(crate) fn push_all_edges(
    edges: &mut EdgeList,
    writer: &Writer<'_>,
    names: &[Name],
) -> Result<(), Memory>
    requires { AllByRecursion
        (NameFits writer.now.setting.now.program (part_of writer.now.setting.now.parts)) names.now }
    ensures { OnOk result (edges.new ≡ edges.old
        ++ flat_map (edges_by writer.now.setting.now writer.now.numbers.now) names.now) }
{
    for name in names {
        push_edges(edges, writer, *name)?;
    }
    Ok(())
}
