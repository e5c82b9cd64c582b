//! The links of a program: a graph with a node for each atom and one for each rule, which stands between the rule's
//! heads and the positive atoms of its body. Edges from each head to each positive atom would be as many as the product
//! of both; these are no more than the program's entries. The links of a rule stand together, those from heads first.

ghost use Rattle.std.specs.Prelude.{◌≡◌, ◌+◌, ◌-◌, ◌<◌, ◌≤◌, ◌^◌, ◌++◌, false, [], length, IfOk, OnOk};
ghost use Rattle.std.specs.List.{AllByRecursion};
ghost use Rattle.asp_base.specs.Literal.{atom_of};
ghost use Rattle.ground_program.specs.Dependencies.{positives_of_body, positives_of_items, positives_of_literals, with_positive};
ghost use Rattle.ground_program.specs.Facts.{Among, BodyFits, FitsBodyWeight, HeadFits, LiteralsFit, RuleFits};
ghost use Rattle.ground_program.specs.Occurrences.{atoms_of_head};
ghost use Rattle.components.specs.Components.{node_of};
ghost use Rattle.components.specs.private.Links.{edges_from, edges_into, links_of_rules};

use asp_base::{Lit, Memory};
use ground_program::{Atoms, Body, Head, Rule};
use std::alloc::Global;

/// The node of an atom: its place among the atoms, from 0.
pub fn node_of(atoms: &Atoms, atom: u32) -> u32
    requires { Among atoms.now atom }
    ensures is { result ≡ node_of atoms.now atom }
    ensures within { result < length atoms.now }
{
    let Some(place) = atoms.place(atom) else {
        unreachable!()
    };
    place - 1
}

/// The edges for these rules, whose first has this node.
pub(crate) fn links_of(
    alloc: Global,
    atoms: &Atoms,
    first: u32,
    rules: &[Rule],
) -> Result<Vec<(u32, u32)>, Memory>
    requires fit { AllByRecursion (RuleFits (Among atoms.now)) rules.now }
    requires few { first + length rules.now < 2 ^ 32 }
    ensures { IfOk result (λ edges. edges.items ≡ links_of_rules atoms.now first rules.now) }
{
    let mut edges = Vec::new(alloc);
    let mut node = first;
    for rule in rules {
        push_heads(&mut edges, atoms, node, &rule.head)?;
        push_body(&mut edges, atoms, node, &rule.body)?;
        node += 1;
    }
    Ok(edges)
}

/// Whether one of the bodies has a positive literal.
pub(crate) fn has_positive(rules: &[Rule]) -> bool
    ensures { result ≡ false → AllByRecursion (λ rule. positives_of_body rule.body ≡ []) rules.now }
{
    for rule in rules {
        if is_positive(&rule.body) {
            return true;
        }
    }
    false
}

fn is_positive(body: &Body) -> bool
    ensures { result ≡ false → positives_of_body body.now ≡ [] }
{
    match body {
        Body::All(lits) => is_any_positive(lits.as_slice()),
        Body::Sum { items, .. } => is_any_item_positive(items.as_slice()),
    }
}

fn is_any_positive(lits: &[Lit]) -> bool
    ensures { result ≡ false → positives_of_literals lits.now ≡ [] }
{
    for literal in lits {
        if literal.is_positive() {
            return true;
        }
    }
    false
}

fn is_any_item_positive(items: &[(Lit, i64)]) -> bool
    ensures { result ≡ false → positives_of_items items.now ≡ [] }
{
    for item in items {
        if item.0.is_positive() {
            return true;
        }
    }
    false
}

fn push_heads(
    out: &mut Vec<(u32, u32)>,
    atoms: &Atoms,
    node: u32,
    head: &Head,
) -> Result<(), Memory>
    requires { HeadFits (Among atoms.now) head.now }
    ensures { OnOk result (out.new.items ≡ out.old.items ++ edges_into atoms.now node (atoms_of_head head.now)) }
{
    match head {
        Head::Nothing => Ok(()),
        Head::One(atom) => Ok(out.push((node_of(atoms, *atom), node))?),
        Head::Choice(list) => push_atoms(out, atoms, node, list.as_slice()),
    }
}

fn push_atoms(
    out: &mut Vec<(u32, u32)>,
    atoms: &Atoms,
    node: u32,
    heads: &[u32],
) -> Result<(), Memory>
    requires { AllByRecursion (Among atoms.now) heads.now }
    ensures { OnOk result (out.new.items ≡ out.old.items ++ edges_into atoms.now node heads.now) }
{
    for atom in heads {
        out.push((node_of(atoms, *atom), node))?;
    }
    Ok(())
}

fn push_body(out: &mut Vec<(u32, u32)>, atoms: &Atoms, node: u32, body: &Body) -> Result<(), Memory>
    requires { BodyFits (Among atoms.now) body.now }
    ensures { OnOk result
        (out.new.items ≡ out.old.items ++ edges_from atoms.now node (positives_of_body body.now)) }
{
    match body {
        Body::All(lits) => push_literals(out, atoms, node, lits.as_slice()),
        Body::Sum { items, .. } => push_items(out, atoms, node, items.as_slice()),
    }
}

fn push_literal(out: &mut Vec<(u32, u32)>, atoms: &Atoms, node: u32, lit: Lit) -> Result<(), Memory>
    requires { Among atoms.now (atom_of lit) }
    ensures { OnOk result (out.new.items ≡ out.old.items ++ edges_from atoms.now node (with_positive lit [])) }
{
    if lit.is_positive() {
        out.push((node, node_of(atoms, lit.var())))?;
    }
    Ok(())
}

fn push_literals(
    out: &mut Vec<(u32, u32)>,
    atoms: &Atoms,
    node: u32,
    lits: &[Lit],
) -> Result<(), Memory>
    requires { LiteralsFit (Among atoms.now) lits.now }
    ensures { OnOk result
        (out.new.items ≡ out.old.items ++ edges_from atoms.now node (positives_of_literals lits.now)) }
{
    for lit in lits {
        push_literal(out, atoms, node, *lit)?;
    }
    Ok(())
}

fn push_items(
    out: &mut Vec<(u32, u32)>,
    atoms: &Atoms,
    node: u32,
    items: &[(Lit, i64)],
) -> Result<(), Memory>
    requires { AllByRecursion (λ item. Among atoms.now (atom_of item.0) × FitsBodyWeight item.1) items.now }
    ensures { OnOk result
        (out.new.items ≡ out.old.items ++ edges_from atoms.now node (positives_of_items items.now)) }
{
    for item in items {
        push_literal(out, atoms, node, item.0)?;
    }
    Ok(())
}
