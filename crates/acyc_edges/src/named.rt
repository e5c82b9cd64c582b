//! The rules of a name.

ghost use Rattle.std.specs.Prelude.{◌≡◌, ◌≢◌, ◌<◌, ◌^◌, [], ◌∷◌, ◌++◌, map, OnOk};
ghost use Rattle.std.specs.List.{flat_map, AllByRecursion};
ghost use Rattle.asp_base.specs.Literal.{Pos, Neg};
ghost use Rattle.ground_program.specs.declared.program.Head.TheVariants.{Nothing};
ghost use Rattle.ground_program.specs.declared.program.Body.TheVariants.{All};
ghost use Rattle.acyc_edges.specs.declared.name.Name.TheVariants.{Fires, Backed, NoLater, Backs};
ghost use Rattle.acyc_edges.specs.Encoding.{inner_at, rules_of};
ghost use Rattle.acyc_edges.specs.private.Numbers.{number_of};
ghost use Rattle.acyc_edges.specs.private.Setting.{rules_by};
ghost use Rattle.acyc_edges.specs.private.Tables.{HasHead, IsOne, NameFits};
ghost use Rattle.acyc_edges.specs.private.Written.{backing_rule, self_rule};
ghost use Rattle.components.specs.Divided.{part_of};

use crate::bodies::{chosen_body, later_body};
use crate::name::Name;
use crate::rules::{push_limit, push_rule};
use crate::writer::Writer;
use asp_base::{Lit, Memory};
use ground_program::{Body, Head, Rule, RuleList, literals};

/// A rule fires where its body holds, and its head must hold then.
fn push_fires(rules: &mut RuleList, writer: &Writer<'_>, index: u32) -> Result<(), Memory>
    requires { HasHead writer.now.setting.now.program (part_of writer.now.setting.now.parts) index }
    ensures { OnOk result (rules.new ≡ rules.old
        ++ rules_by writer.now.setting.now writer.now.numbers.now (Fires index)) }
{
    let fires = writer.numbers.of(Name::Fires(index));
    let rule = writer.setting.rule_of(index);
    push_rule(writer.alloc, rules, Head::One(fires), literals(&rule.body))?;
    push_limit(writer.alloc, rules, fires, writer.setting.head_of(index))?;
    Ok(())
}

/// An atom is backed by each of its rules that fires with its edges chosen.
fn push_backing(rules: &mut RuleList, writer: &Writer<'_>, atom: u32) -> Result<(), Memory>
    requires { IsOne writer.now.setting.now.program atom }
    ensures { OnOk result (let P = writer.now.setting.now.program in let part = part_of writer.now.setting.now.parts in
        rules.new ≡ rules.old
        ++ map (backing_rule writer.now.numbers.now (inner_at P part []) atom) (rules_of P part [] atom)) }
{
    let backed = writer.numbers.of(Name::Backed(atom));
    for index in writer.setting.rules_of(atom) {
        let inner = writer.setting.inner_of(*index);
        let body = chosen_body(writer.alloc, writer.numbers, *index, atom, inner)?;
        rules.push(Rule {
            head: Head::One(backed),
            body: Body::All(body),
        })?;
    }
    Ok(())
}

/// An atom is backed by each of its rules that fires with all of its edges chosen, and where it holds, it must be.
fn push_backed(rules: &mut RuleList, writer: &Writer<'_>, atom: u32) -> Result<(), Memory>
    requires { IsOne writer.now.setting.now.program atom }
    ensures { OnOk result (rules.new ≡ rules.old
        ++ rules_by writer.now.setting.now writer.now.numbers.now (Backed atom)) }
{
    push_backing(rules, writer, atom)?;
    push_limit(
        writer.alloc,
        rules,
        atom,
        writer.numbers.of(Name::Backed(atom)),
    )?;
    Ok(())
}

/// An atom comes no later than itself by each of its rules that backs it.
fn push_self(rules: &mut RuleList, writer: &Writer<'_>, atom: u32) -> Result<(), Memory>
    requires { IsOne writer.now.setting.now.program atom }
    ensures { OnOk result (rules.new ≡ rules.old ++ map (self_rule writer.now.numbers.now atom)
        (rules_of writer.now.setting.now.program (part_of writer.now.setting.now.parts) [] atom)) }
{
    let earlier = writer.numbers.of(Name::NoLater(atom, atom));
    for index in writer.setting.rules_of(atom) {
        push_rule(
            writer.alloc,
            rules,
            Head::One(earlier),
            &[Lit::positive(writer.numbers.of(Name::Backs(*index)))],
        )?;
    }
    Ok(())
}

/// Where an atom holds, it must come no later than itself.
fn push_held(rules: &mut RuleList, writer: &Writer<'_>, atom: u32) -> Result<(), Memory>
    requires { (0 < atom) × (atom < 2 ^ 31) }
    ensures { OnOk result (rules.new ≡ rules.old ++ (record {
      head = Nothing;
      body = All (Pos atom ∷ Neg (number_of writer.now.numbers.now (NoLater atom atom)) ∷ []);
    } ∷ [])) }
{
    push_limit(
        writer.alloc,
        rules,
        atom,
        writer.numbers.of(Name::NoLater(atom, atom)),
    )
}

/// An atom comes no later than itself by each of its rules that backs it, and where it holds, it must.
fn push_same(rules: &mut RuleList, writer: &Writer<'_>, atom: u32) -> Result<(), Memory>
    requires { IsOne writer.now.setting.now.program atom }
    ensures { OnOk result (rules.new ≡ rules.old
        ++ rules_by writer.now.setting.now writer.now.numbers.now (NoLater atom atom)) }
{
    push_self(rules, writer, atom)?;
    push_held(rules, writer, atom)?;
    Ok(())
}

/// An atom comes no later than another by each of its rules that fires with all of its atoms before the other.
fn push_other(
    rules: &mut RuleList,
    writer: &Writer<'_>,
    atom: u32,
    other: u32,
) -> Result<(), Memory>
    requires one { IsOne writer.now.setting.now.program atom }
    requires differ { atom ≢ other }
    ensures { OnOk result (rules.new ≡ rules.old
        ++ rules_by writer.now.setting.now writer.now.numbers.now (NoLater atom other)) }
{
    let earlier = writer.numbers.of(Name::NoLater(atom, other));
    for index in writer.setting.rules_of(atom) {
        let inner = writer.setting.inner_of(*index);
        let body = later_body(writer.alloc, writer.numbers, *index, other, inner)?;
        rules.push(Rule {
            head: Head::One(earlier),
            body: Body::All(body),
        })?;
    }
    Ok(())
}

/// A rule backs its head where it fires and its head comes later than each of its atoms.
fn push_backs(rules: &mut RuleList, writer: &Writer<'_>, index: u32) -> Result<(), Memory>
    requires { HasHead writer.now.setting.now.program (part_of writer.now.setting.now.parts) index }
    ensures { OnOk result (rules.new ≡ rules.old
        ++ rules_by writer.now.setting.now writer.now.numbers.now (Backs index)) }
{
    let head = writer.setting.head_of(index);
    let inner = writer.setting.inner_of(index);
    let body = later_body(writer.alloc, writer.numbers, index, head, inner)?;
    rules.push(Rule {
        head: Head::One(writer.numbers.of(Name::Backs(index))),
        body: Body::All(body),
    })?;
    Ok(())
}

/// Puts the rules of a name behind the others.
fn push_named(rules: &mut RuleList, writer: &Writer<'_>, name: Name) -> Result<(), Memory>
    requires { NameFits writer.now.setting.now.program (part_of writer.now.setting.now.parts) name }
    ensures { OnOk result (rules.new ≡ rules.old ++ rules_by writer.now.setting.now writer.now.numbers.now name) }
{
    let alloc = writer.alloc;
    let numbers = writer.numbers;
    match name {
        Name::Atom(atom) => push_rule(
            alloc,
            rules,
            Head::One(atom),
            &[Lit::positive(numbers.of(Name::Complement(atom))).negate()],
        ),
        Name::Complement(atom) => push_rule(
            alloc,
            rules,
            Head::One(numbers.of(Name::Complement(atom))),
            &[Lit::positive(atom).negate()],
        ),
        Name::Fires(index) => push_fires(rules, writer, index),
        Name::Chosen(from, to) => push_rule(
            alloc,
            rules,
            Head::One(numbers.of(Name::Chosen(from, to))),
            &[
                Lit::positive(from),
                Lit::positive(to),
                Lit::positive(numbers.of(Name::Left(from, to))).negate(),
            ],
        ),
        Name::Left(from, to) => push_rule(
            alloc,
            rules,
            Head::One(numbers.of(Name::Left(from, to))),
            &[Lit::positive(numbers.of(Name::Chosen(from, to))).negate()],
        ),
        Name::Backed(atom) => push_backed(rules, writer, atom),
        Name::NoLater(atom, other) => push_no_later(rules, writer, atom, other),
        Name::Backs(index) => push_backs(rules, writer, index),
    }
}

fn push_no_later(
    rules: &mut RuleList,
    writer: &Writer<'_>,
    atom: u32,
    other: u32,
) -> Result<(), Memory>
    requires { IsOne writer.now.setting.now.program atom }
    ensures { OnOk result (rules.new ≡ rules.old
        ++ rules_by writer.now.setting.now writer.now.numbers.now (NoLater atom other)) }
{
    if atom == other {
        push_same(rules, writer, atom)
    } else {
        push_other(rules, writer, atom, other)
    }
}

/// The rules of all of these names.
pub(crate) fn push_all_named(
    rules: &mut RuleList,
    writer: &Writer<'_>,
    names: &[Name],
) -> Result<(), Memory>
    requires { AllByRecursion
        (NameFits writer.now.setting.now.program (part_of writer.now.setting.now.parts)) names.now }
    ensures { OnOk result (rules.new ≡ rules.old
        ++ flat_map (rules_by writer.now.setting.now writer.now.numbers.now) names.now) }
{
    for name in names {
        push_named(rules, writer, *name)?;
    }
    Ok(())
}
