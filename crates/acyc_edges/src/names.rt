//! The list of the names of an encoding, component by component, in time linear in its length and in the program.

ghost use Rattle.std.specs.Prelude.{◌≡◌, [], ◌∷◌, ◌++◌, map, IfOk, OnOk};
ghost use Rattle.std.specs.List.{flat_map, AllByRecursion};
ghost use Rattle.ground_program.specs.Facts.{Among};
ghost use Rattle.acyc_edges.specs.Encoding.{both_names, edge_names, rules_of};
ghost use Rattle.acyc_edges.specs.declared.name.Name.TheVariants.{Fires, Chosen, Left, Backed, NoLater, Backs};
ghost use Rattle.acyc_edges.specs.private.Kinds.{all_names, names_over};
ghost use Rattle.components.specs.Divided.{part_of};

use crate::kind::Kind;
use crate::name::Name;
use crate::setting::Setting;
use asp_base::Memory;
use std::alloc::Global;

/// That these rules fire.
fn push_fires(names: &mut Vec<Name>, indices: &[u32]) -> Result<(), Memory>
    ensures { OnOk result (names.new.items ≡ names.old.items ++ map Fires indices.now) }
{
    for index in indices {
        names.push(Name::Fires(*index))?;
    }
    Ok(())
}

/// An atom, its complement, and that its rules fire.
fn push_both(names: &mut Vec<Name>, setting: &Setting<'_>, atom: u32) -> Result<(), Memory>
    requires { Among setting.now.program.atoms atom }
    ensures { OnOk result (names.new.items ≡ names.old.items
        ++ both_names setting.now.program (part_of setting.now.parts) [] atom) }
{
    names.push(Name::Atom(atom))?;
    names.push(Name::Complement(atom))?;
    push_fires(names, setting.rules_of(atom))
}

/// The same of these atoms.
fn push_all_both(names: &mut Vec<Name>, setting: &Setting<'_>, atoms: &[u32]) -> Result<(), Memory>
    requires { AllByRecursion (Among setting.now.program.atoms) atoms.now }
    ensures { OnOk result (names.new.items ≡ names.old.items
        ++ flat_map (both_names setting.now.program (part_of setting.now.parts) []) atoms.now) }
{
    for atom in atoms {
        push_both(names, setting, *atom)?;
    }
    Ok(())
}

/// That the edges from an atom to these are chosen, or not.
fn push_chosen(names: &mut Vec<Name>, atom: u32, ends: &[u32]) -> Result<(), Memory>
    ensures { OnOk result (names.new.items ≡ names.old.items
        ++ flat_map (λ b. Chosen atom b ∷ Left atom b ∷ []) ends.now) }
{
    for end in ends {
        names.push(Name::Chosen(atom, *end))?;
        names.push(Name::Left(atom, *end))?;
    }
    Ok(())
}

/// The edges from an atom.
fn push_edges(
    alloc: Global,
    names: &mut Vec<Name>,
    setting: &Setting<'_>,
    atom: u32,
) -> Result<(), Memory>
    requires { Among setting.now.program.atoms atom }
    ensures { OnOk result (names.new.items ≡ names.old.items
        ++ edge_names setting.now.program (part_of setting.now.parts) [] atom) }
{
    let ends = setting.ends_of(alloc, atom)?;
    push_chosen(names, atom, ends.as_slice())
}

/// The edges from these atoms.
fn push_all_edges(
    alloc: Global,
    names: &mut Vec<Name>,
    setting: &Setting<'_>,
    atoms: &[u32],
) -> Result<(), Memory>
    requires { AllByRecursion (Among setting.now.program.atoms) atoms.now }
    ensures { OnOk result (names.new.items ≡ names.old.items
        ++ flat_map (edge_names setting.now.program (part_of setting.now.parts) []) atoms.now) }
{
    for atom in atoms {
        push_edges(alloc, names, setting, *atom)?;
    }
    Ok(())
}

/// That these atoms are backed.
fn push_backed(names: &mut Vec<Name>, atoms: &[u32]) -> Result<(), Memory>
    ensures { OnOk result (names.new.items ≡ names.old.items ++ map Backed atoms.now) }
{
    for atom in atoms {
        names.push(Name::Backed(*atom))?;
    }
    Ok(())
}

/// That an atom comes no later than each of these.
fn push_pairs(names: &mut Vec<Name>, atom: u32, others: &[u32]) -> Result<(), Memory>
    ensures { OnOk result (names.new.items ≡ names.old.items ++ map (NoLater atom) others.now) }
{
    for other in others {
        names.push(Name::NoLater(atom, *other))?;
    }
    Ok(())
}

/// That each of these atoms comes no later than each of the others.
fn push_all_pairs(names: &mut Vec<Name>, atoms: &[u32], others: &[u32]) -> Result<(), Memory>
    ensures { OnOk result
        (names.new.items ≡ names.old.items ++ flat_map (λ a. map (NoLater a) others.now) atoms.now) }
{
    for atom in atoms {
        push_pairs(names, *atom, others)?;
    }
    Ok(())
}

/// That these rules back their head.
fn push_backs(names: &mut Vec<Name>, indices: &[u32]) -> Result<(), Memory>
    ensures { OnOk result (names.new.items ≡ names.old.items ++ map Backs indices.now) }
{
    for index in indices {
        names.push(Name::Backs(*index))?;
    }
    Ok(())
}

/// That the rules of these atoms back them.
fn push_all_backs(names: &mut Vec<Name>, setting: &Setting<'_>, atoms: &[u32]) -> Result<(), Memory>
    requires { AllByRecursion (Among setting.now.program.atoms) atoms.now }
    ensures { OnOk result (names.new.items ≡ names.old.items
        ++ flat_map (λ a. map Backs (rules_of setting.now.program (part_of setting.now.parts) [] a)) atoms.now) }
{
    for atom in atoms {
        push_backs(names, setting.rules_of(*atom))?;
    }
    Ok(())
}

/// The names of a component, by the encoding.
fn push_part(
    alloc: Global,
    names: &mut Vec<Name>,
    setting: &Setting<'_>,
    kind: Kind,
    atoms: &[u32],
) -> Result<(), Memory>
    requires { AllByRecursion (Among setting.now.program.atoms) atoms.now }
    ensures { OnOk result (names.new.items ≡ names.old.items ++ names_over kind setting.now atoms.now) }
{
    push_all_both(names, setting, atoms)?;
    match kind {
        Kind::Plain => {
            push_all_edges(alloc, names, setting, atoms)?;
            push_backed(names, atoms)
        }
        Kind::Unique => {
            push_all_pairs(names, atoms, atoms)?;
            push_all_backs(names, setting, atoms)
        }
    }
}

/// The names of an encoding.
pub(crate) fn names_of(
    alloc: Global,
    setting: &Setting<'_>,
    kind: Kind,
) -> Result<Vec<Name>, Memory>
    ensures { IfOk result (λ names. names.items ≡ all_names kind setting.now) }
{
    setting.known();
    let parts = setting.parts();
    let mut names = Vec::new(alloc);
    for number in 0..parts.count() {
        if parts.is_cyclic(number + 1) {
            push_part(alloc, &mut names, setting, kind, parts.members(number + 1))?;
        }
    }
    Ok(names)
}
