//! What a run says on standard output.

ghost use Rattle.std.specs.Prelude.{◌≡◌, ◌++◌, ◌∷◌, [], ℕ, List, map, IfOk, OnOk};
ghost use Rattle.std.specs.List.{flat_map};
ghost use Rattle.std.specs.Fmt.{decimal, signed_decimal};
ghost use Rattle.asp_tools.specs.Sayings.{show_line, cost_lines, seen_lines, accepted_text, stable_text, rejected_clause_text, rejected_cycle_text, no_model_text, broken_rule_text, broken_requirement_text, unfounded_text, cycle_text};

use asp_base::{ByteList, Memory, Walk};
use asp_scan::push_number;
use evaluation::Seen;
use ground_program::AtomSet;
use statement_fields::push_field;
use std::alloc::Global;

/// `accepted`, the names that are shown and the costs.
pub(crate) fn accepted_text(alloc: Global, seen: &Seen) -> Result<Vec<u8>, Memory>
    ensures { IfOk result (λ text. text.items ≡ accepted_text seen.now.names seen.now.costs) }
{
    let mut text = Vec::from_slice(alloc, b"accepted\n")?;
    push_seen(seen, &mut text)?;
    Ok(text)
}

/// `stable`, the names that are shown and the costs.
pub(crate) fn stable_text(alloc: Global, seen: &Seen) -> Result<Vec<u8>, Memory>
    ensures { IfOk result (λ text. text.items ≡ stable_text seen.now.names seen.now.costs) }
{
    let mut text = Vec::from_slice(alloc, b"stable\n")?;
    push_seen(seen, &mut text)?;
    Ok(text)
}

/// The place of a clause that is false.
pub(crate) fn rejected_clause_text(alloc: Global, place: u64) -> Result<Vec<u8>, Memory>
    ensures { IfOk result (λ text. text.items ≡ rejected_clause_text place) }
{
    let mut text = Vec::from_slice(alloc, b"rejected clause ")?;
    push_number(&mut text, place.into())?;
    text.push(b'\n')?;
    Ok(text)
}

/// The nodes of a cycle of the formula's edges.
pub(crate) fn rejected_cycle_text(alloc: Global, walk: &Walk) -> Result<Vec<u8>, Memory>
    ensures { IfOk result (λ text. text.items ≡ rejected_cycle_text walk.now) }
{
    let mut text = Vec::from_slice(alloc, b"rejected cycle")?;
    push_nodes(walk.as_slice(), &mut text)?;
    text.push(b'\n')?;
    Ok(text)
}

/// The place of a rule that is broken.
pub(crate) fn broken_rule_text(alloc: Global, place: u64) -> Result<Vec<u8>, Memory>
    ensures { IfOk result (λ text. text.items ≡ broken_rule_text place) }
{
    let mut text = Vec::from_slice(alloc, b"broken rule ")?;
    push_number(&mut text, place.into())?;
    text.push(b'\n')?;
    Ok(text)
}

/// The place of a required literal that does not hold.
pub(crate) fn broken_requirement_text(alloc: Global, place: u64) -> Result<Vec<u8>, Memory>
    ensures { IfOk result (λ text. text.items ≡ broken_requirement_text place) }
{
    let mut text = Vec::from_slice(alloc, b"broken requirement ")?;
    push_number(&mut text, place.into())?;
    text.push(b'\n')?;
    Ok(text)
}

/// The atoms that are unfounded.
pub(crate) fn unfounded_text(alloc: Global, atoms: &AtomSet) -> Result<Vec<u8>, Memory>
    ensures { IfOk result (λ text. text.items ≡ unfounded_text atoms.now) }
{
    let mut text = Vec::from_slice(alloc, b"unfounded")?;
    push_each_atom(atoms.atoms(), &mut text)?;
    text.push(b'\n')?;
    Ok(text)
}

/// The nodes of a cycle.
pub(crate) fn cycle_text(alloc: Global, walk: &Walk) -> Result<Vec<u8>, Memory>
    ensures { IfOk result (λ text. text.items ≡ cycle_text walk.now) }
{
    let mut text = Vec::from_slice(alloc, b"cycle")?;
    push_nodes(walk.as_slice(), &mut text)?;
    text.push(b'\n')?;
    Ok(text)
}

/// That the answer has no values.
pub(crate) fn no_model_text(alloc: Global) -> Result<Vec<u8>, Memory>
    ensures { IfOk result (λ text. text.items ≡ no_model_text) }
{
    Ok(Vec::from_slice(alloc, b"no model given\n")?)
}

/// Appends a line for each name, and one for the costs where there is a level.
fn push_seen(seen: &Seen, out: &mut Vec<u8>) -> Result<(), Memory>
    ensures { OnOk result (out.new.items ≡ out.old.items ++ seen_lines seen.now.names seen.now.costs) }
{
    push_names(seen.names.as_slice(), out)?;
    push_costs(seen.costs.as_slice(), out)
}

fn push_names(names: &[ByteList], out: &mut Vec<u8>) -> Result<(), Memory>
    ensures { OnOk result (out.new.items ≡ out.old.items ++ flat_map show_line names.now) }
{
    for name in names {
        push_name(name, out)?;
    }
    Ok(())
}

fn push_name(name: &ByteList, out: &mut Vec<u8>) -> Result<(), Memory>
    ensures { OnOk result (out.new.items ≡ out.old.items ++ show_line name.now) }
{
    out.extend_from_slice(b"show ")?;
    out.extend_from_slice(name.as_slice())?;
    out.push(b'\n')?;
    Ok(())
}

fn push_costs(costs: &[i128], out: &mut Vec<u8>) -> Result<(), Memory>
    ensures { OnOk result (out.new.items ≡ out.old.items ++ cost_lines costs.now) }
{
    if costs.is_empty() {
        return Ok(());
    }
    out.extend_from_slice(b"cost")?;
    push_numbers(costs, out)?;
    out.push(b'\n')?;
    Ok(())
}

/// Appends atoms, a blank before each.
fn push_each_atom(atoms: &[u32], out: &mut Vec<u8>) -> Result<(), Memory>
    ensures { OnOk result (out.new.items ≡ out.old.items ++ flat_map (λ a. 32 ∷ decimal a) atoms.now) }
{
    for atom in atoms {
        push_field(out, (*atom).into())?;
    }
    Ok(())
}

/// Appends nodes, a blank before each.
fn push_nodes(nodes: &[i32], out: &mut Vec<u8>) -> Result<(), Memory>
    ensures { OnOk result (out.new.items ≡ out.old.items ++ flat_map (λ n. 32 ∷ signed_decimal n) nodes.now) }
{
    for node in nodes {
        push_field(out, (*node).into())?;
    }
    Ok(())
}

/// Appends numbers, a blank before each.
fn push_numbers(numbers: &[i128], out: &mut Vec<u8>) -> Result<(), Memory>
    ensures { OnOk result (out.new.items ≡ out.old.items ++ flat_map (λ n. 32 ∷ signed_decimal n) numbers.now) }
{
    for number in numbers {
        push_field(out, *number)?;
    }
    Ok(())
}
