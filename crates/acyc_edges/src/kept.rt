//! What stays of a program: the rules without head and those with a head in no cyclic component, and its atoms, beside
//! those of new names.

ghost use Rattle.std.specs.Prelude.{◌≡◌, ◌++◌, [], ◌∷◌, true, false, not, map, IfOk, OnOk};
ghost use Rattle.std.specs.List.{filter, AllByRecursion};
ghost use Rattle.asp_base.specs.Sets.{members};
ghost use Rattle.components.specs.Parts.{ArePartsOf};
ghost use Rattle.ground_program.specs.Facts.{Among, HeadFits, IsAtom};
ghost use Rattle.rising_numbers.specs.Rising.{rising};
ghost use Rattle.acyc_edges.specs.Encoding.{has_head_in, is_cyclic, kept_rules};
ghost use Rattle.acyc_edges.specs.Names.{is_new};
ghost use Rattle.ground_program.specs.Normal.{AreNormal, IsNormalBody, IsNormalHead};
ghost use Rattle.acyc_edges.specs.private.Numbers.{number_of};
ghost use Rattle.components.specs.Divided.{cyclic_numbers, part_of};

use crate::name::Name;
use crate::numbers::Numbers;
use asp_base::Memory;
use components::Parts;
use ground_program::{Atoms, Body, Head, LitList, Program, Rule, RuleList};
use std::alloc::Global;

/// Whether an atom is in a cyclic component.
pub(crate) fn is_cyclic(program: &Program, parts: &Parts, atom: u32) -> bool
    requires parts { ArePartsOf program.now parts.now }
    requires among { members program.now.atoms atom ≡ true }
    ensures { result ≡ is_cyclic program.now (part_of parts.now) (cyclic_numbers parts.now) atom }
{
    match parts.of(atom) {
        Some(number) => parts.is_cyclic(number),
        None => unreachable!(),
    }
}

/// Whether a head is in a cyclic component.
fn is_cyclic_head(program: &Program, parts: &Parts, head: &Head) -> bool
    requires parts { ArePartsOf program.now parts.now }
    requires fits { HeadFits (Among program.now.atoms) head.now }
    ensures { result ≡ has_head_in (is_cyclic program.now (part_of parts.now) (cyclic_numbers parts.now)) head.now }
{
    match head {
        Head::One(atom) => is_cyclic(program, parts, *atom),
        _ => false,
    }
}

fn copied_head(head: &Head) -> Head
    requires { IsNormalHead head.now }
    ensures { result ≡ head.now }
{
    match head {
        Head::Nothing => Head::Nothing,
        Head::One(atom) => Head::One(*atom),
        Head::Choice(_) => unreachable!(),
    }
}

fn copied_body(alloc: Global, body: &Body) -> Result<Body, Memory>
    requires { IsNormalBody body.now }
    ensures { IfOk result (λ copy. copy ≡ body.now) }
{
    match body {
        Body::All(lits) => Ok(Body::All(LitList::from_slice(alloc, lits.as_slice())?)),
        Body::Sum { .. } => unreachable!(),
    }
}

/// Puts a copy of a rule behind the others, unless its head is in a cyclic component.
fn push_kept(
    alloc: Global,
    rules: &mut RuleList,
    program: &Program,
    parts: &Parts,
    rule: &Rule,
) -> Result<(), Memory>
    requires parts { ArePartsOf program.now parts.now }
    requires fits { HeadFits (Among program.now.atoms) rule.now.head }
    requires head { IsNormalHead rule.now.head }
    requires body { IsNormalBody rule.now.body }
    ensures { OnOk result (rules.new ≡ rules.old
        ++ filter (λ r. not (has_head_in (is_cyclic program.now (part_of parts.now) (cyclic_numbers parts.now))
        r.head)) (rule.now ∷ [])) }
{
    if !is_cyclic_head(program, parts, &rule.head) {
        let body = copied_body(alloc, &rule.body)?;
        rules.push(Rule {
            head: copied_head(&rule.head),
            body,
        })?;
    }
    Ok(())
}

/// The rules without head and those with a head in no cyclic component.
pub(crate) fn kept(alloc: Global, program: &Program, parts: &Parts) -> Result<RuleList, Memory>
    requires parts { ArePartsOf program.now parts.now }
    requires normal { AreNormal program.now.rules }
    ensures { IfOk result (λ rules. rules ≡ kept_rules program.now (part_of parts.now) (cyclic_numbers parts.now)) }
{
    program.known();
    let mut rules = RuleList::from_vec(Vec::new(alloc));
    for rule in program.rules.as_slice() {
        push_kept(alloc, &mut rules, program, parts, rule)?;
    }
    Ok(rules)
}

/// The program's atoms and those of new names, rising.
pub(crate) fn all_atoms(
    alloc: Global,
    program: &Program,
    numbers: &Numbers,
    names: &[Name],
) -> Result<Atoms, Memory>
    ensures { IfOk result (λ list. list ≡ rising (program.now.atoms
        ++ map (number_of numbers.now) (filter is_new names.now))) }
{
    program.known();
    let mut atoms = program.atoms.as_slice().to_vec(alloc)?;
    for name in names {
        push_new(&mut atoms, numbers, *name)?;
    }
    Atoms::of_vec(alloc, atoms)
}

fn push_new(atoms: &mut Vec<u32>, numbers: &Numbers, name: Name) -> Result<(), Memory>
    requires { AllByRecursion IsAtom atoms.old.items }
    ensures fit { OnOk result (AllByRecursion IsAtom atoms.new.items) }
    ensures is { OnOk result (atoms.new.items ≡ atoms.old.items
        ++ map (number_of numbers.now) (filter is_new (name ∷ []))) }
{
    if name.is_new() {
        atoms.push(numbers.of(name))?;
    }
    Ok(())
}
