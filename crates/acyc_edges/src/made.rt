//! The program that an encoding makes, by the list of its names.

ghost use Rattle.std.specs.Prelude.{◌≡◌, ◌+◌, ◌<◌, ◌≤◌, ◌^◌, length, IfOk};
ghost use Rattle.std.specs.List.{filter};
ghost use Rattle.components.specs.Parts.{ArePartsOf};
ghost use Rattle.ground_program.specs.Normal.{AreNormal};
ghost use Rattle.ground_program.specs.Size.{size};
ghost use Rattle.acyc_edges.specs.Names.{is_new};
ghost use Rattle.acyc_edges.specs.private.Kinds.{FewPairs, encoding};
ghost use Rattle.acyc_edges.specs.private.Numbers.{IsOnce, numbered};
ghost use Rattle.acyc_edges.specs.private.Setting.{AreNamesOf, made_by};

use crate::edges::{kept_edges, push_all_edges};
use crate::kept::{all_atoms, kept};
use crate::kind::Kind;
use crate::name::Name;
use crate::named::push_all_named;
use crate::names::names_of;
use crate::numbers::number;
use crate::setting::Setting;
use crate::writer::Writer;
use asp_base::Memory;
use components::Parts;
use ground_program::{Atoms, EdgeList, LitList, Program, RuleList, copied_levels, copied_shows};
use std::alloc::Global;

/// The rules that stay, and those of the names.
fn rules_of_all(writer: &Writer<'_>, names: &[Name]) -> Result<RuleList, Memory>
    requires names { AreNamesOf writer.now.setting.now names.now }
    requires numbers { writer.now.numbers.now ≡ numbered writer.now.setting.now.program.atoms names.now }
    ensures { IfOk result (λ rules. rules ≡ (made_by writer.now.setting.now names.now).rules) }
{
    let setting = writer.setting;
    setting.known();
    let mut rules = kept(writer.alloc, setting.program(), setting.parts())?;
    push_all_named(&mut rules, writer, names)?;
    Ok(rules)
}

/// The edges of the program and those of the names.
fn edges_of_all(writer: &Writer<'_>, names: &[Name]) -> Result<EdgeList, Memory>
    requires names { AreNamesOf writer.now.setting.now names.now }
    requires numbers { writer.now.numbers.now ≡ numbered writer.now.setting.now.program.atoms names.now }
    ensures { IfOk result (λ edges. edges ≡ (made_by writer.now.setting.now names.now).edges) }
{
    writer.setting.known();
    let mut edges = kept_edges(writer.alloc, writer.setting)?;
    push_all_edges(&mut edges, writer, names)?;
    Ok(edges)
}

/// The atoms of the program and those of new names.
fn atoms_of_all(writer: &Writer<'_>, names: &[Name]) -> Result<Atoms, Memory>
    requires { writer.now.numbers.now ≡ numbered writer.now.setting.now.program.atoms names.now }
    ensures { IfOk result (λ atoms. atoms ≡ (made_by writer.now.setting.now names.now).atoms) }
{
    let program = writer.setting.program();
    let atoms = all_atoms(writer.alloc, program, writer.numbers, names)?;
    Ok(atoms)
}

/// These parts with the program's required literals, levels and shows.
fn put_together(
    alloc: Global,
    setting: &Setting<'_>,
    names: &[Name],
    atoms: Atoms,
    rules: RuleList,
    edges: EdgeList,
) -> Result<Program, Memory>
    requires names { AreNamesOf setting.now names.now }
    requires room { length setting.now.program.atoms + length (filter is_new names.now) < 2 ^ 30 }
    requires atoms { atoms ≡ (made_by setting.now names.now).atoms }
    requires rules { rules ≡ (made_by setting.now names.now).rules }
    requires edges { edges ≡ (made_by setting.now names.now).edges }
    ensures { IfOk result (λ q. q ≡ made_by setting.now names.now) }
{
    setting.known();
    let program = setting.program();
    let required = LitList::from_slice(alloc, program.required.as_slice())?;
    let levels = copied_levels(alloc, program.levels.as_slice())?;
    let shows = copied_shows(alloc, program.shows.as_slice())?;
    Ok(Program {
        atoms,
        rules,
        required,
        edges,
        levels,
        shows,
    })
}

/// The program that these names make. No name stands twice.
pub(crate) fn made(alloc: Global, setting: &Setting<'_>, names: &[Name]) -> Result<Program, Memory>
    requires names { AreNamesOf setting.now names.now }
    requires once { IsOnce names.now }
    requires room { length setting.now.program.atoms + length (filter is_new names.now) < 2 ^ 30 }
    ensures { IfOk result (λ q. q ≡ made_by setting.now names.now) }
{
    let numbers = number(alloc, setting.program(), names)?;
    let writer = Writer {
        alloc,
        setting: &*setting,
        numbers: &numbers,
    };
    let rules = rules_of_all(&writer, names)?;
    let edges = edges_of_all(&writer, names)?;
    let atoms = atoms_of_all(&writer, names)?;
    let made = put_together(alloc, setting, names, atoms, rules, edges)?;
    Ok(made)
}

/// The program that an encoding makes of a normal program and its components, in time linear in the program and in
/// what is made, but for the search of places.
pub(crate) fn encoded(
    alloc: Global,
    program: &Program,
    parts: &Parts,
    kind: Kind,
) -> Result<Program, Memory>
    requires normal { AreNormal program.now.rules }
    requires parts { ArePartsOf program.now parts.now }
    requires small { size program.now ≤ 2 ^ 24 }
    requires few { FewPairs kind program.now parts.now }
    ensures { IfOk result (λ made. made ≡ encoding kind program.now parts.now) }
{
    program.known();
    let setting = Setting::new(alloc, program, parts)?;
    let names = names_of(alloc, &setting, kind)?;
    let made = made(alloc, &setting, names.as_slice())?;
    Ok(made)
}
