//! Rules as they are written, each in its line. After `Memory` more may stand behind the text that was there; this
//! holds of each function here.

ghost use Rattle.std.specs.Prelude.{◌≡◌, ℕ, ◌+◌, ◌≤◌, ◌<◌, ◌^◌, [], ◌∷◌, ◌++◌, length, take, cond, codes, OnOk, OnErr};
ghost use Rattle.std.specs.List.{flat_map};
ghost use Rattle.std.specs.Fmt.{decimal, signed_decimal};
ghost use Rattle.asp_scan.specs.Words.{line_of};
ghost use Rattle.statement_fields.specs.FieldWords.{atom_words};
ghost use Rattle.ground_program.specs.Fresh.{new_atom};
ghost use Rattle.ground_program.specs.declared.program.Head.TheVariants.{One};
ghost use Rattle.smodels_format.specs.Lowering.{negatives_first, items_negatives_first, at_least_zero, body_in_order, body_draws, rule_draws, after_rules, choice_lowered, rule_lowered, rules_lowered};
ghost use Rattle.smodels_format.specs.Written.{body_words, item_words, rule_words, rule_line};

use crate::new_atoms::NewAtoms;
use crate::push_bodies::{push_atom_field, push_items, push_literals};
use asp_base::{Lit, Memory};
use ground_program::{Body, Head, Rule};
use statement_fields::{push_atoms, push_field};

/// Appends the lines of the rules. Rules without head get the refuted atom as theirs, and choices over weights a new
/// atom each.
pub(crate) fn push_rules(
    out: &mut Vec<u8>,
    atoms: &mut NewAtoms,
    refuted: u32,
    rules: &[Rule],
) -> Result<(), Memory>
    requires { length atoms.old.atoms + atoms.old.drawn + length rules.now ≤ 2 ^ 30 }
    ensures ok { OnOk result (out.new.items ≡ out.old.items
        ++ flat_map rule_line (rules_lowered (new_atom atoms.old.atoms) refuted atoms.old.drawn rules.now)) }
    ensures drawn { OnOk result (atoms.new ≡ record atoms.old { drawn = after_rules atoms.old.drawn rules.now }) }
    ensures err { OnErr result (take (length out.old.items) out.new.items ≡ out.old.items) }
{
    for rule in rules {
        push_rule(out, atoms, refuted, rule)?;
    }
    Ok(())
}

fn push_rule(
    out: &mut Vec<u8>,
    atoms: &mut NewAtoms,
    refuted: u32,
    rule: &Rule,
) -> Result<(), Memory>
    requires { length atoms.old.atoms + atoms.old.drawn < 2 ^ 30 }
    ensures ok { OnOk result (out.new.items ≡ out.old.items
        ++ flat_map rule_line
        (rule_lowered (new_atom atoms.old.atoms) refuted atoms.old.drawn rule.now.head rule.now.body)) }
    ensures drawn { OnOk result
        (atoms.new ≡ record atoms.old { drawn = atoms.old.drawn + rule_draws rule.now.head rule.now.body }) }
    ensures err { OnErr result (take (length out.old.items) out.new.items ≡ out.old.items) }
{
    match &rule.head {
        Head::Nothing => push_headed(out, refuted, &rule.body),
        Head::One(atom) => push_headed(out, *atom, &rule.body),
        Head::Choice(heads) => push_choice_rule(out, atoms, heads.as_slice(), &rule.body),
    }
}

/// Appends a rule with one atom as its head.
fn push_headed(out: &mut Vec<u8>, atom: u32, body: &Body) -> Result<(), Memory>
    ensures ok { OnOk result (out.new.items ≡ out.old.items
        ++ line_of (rule_words (One atom) (body_in_order body.now))) }
    ensures err { OnErr result (take (length out.old.items) out.new.items ≡ out.old.items) }
{
    match body {
        Body::All(lits) => push_basic(out, atom, lits.as_slice()),
        Body::Sum { bound, items } => push_weight_rule(out, atom, *bound, items.as_slice()),
    }
}

/// Appends a choice; over weights, the rule of a new atom and the choice over this atom.
fn push_choice_rule(
    out: &mut Vec<u8>,
    atoms: &mut NewAtoms,
    heads: &[u32],
    body: &Body,
) -> Result<(), Memory>
    requires { length atoms.old.atoms + atoms.old.drawn < 2 ^ 30 }
    ensures ok { OnOk result (out.new.items ≡ out.old.items
        ++ flat_map rule_line (choice_lowered (new_atom atoms.old.atoms) 0 atoms.old.drawn heads.now body.now)) }
    ensures drawn { OnOk result (atoms.new ≡ record atoms.old { drawn = atoms.old.drawn + body_draws body.now }) }
    ensures err { OnErr result (take (length out.old.items) out.new.items ≡ out.old.items) }
{
    match body {
        Body::All(lits) => push_choice(out, heads, lits.as_slice()),
        Body::Sum { bound, items } => {
            let atom = atoms.draw();
            push_weight_rule(out, atom, *bound, items.as_slice())?;
            push_choice(out, heads, &[Lit::positive(atom)])
        }
    }
}

/// Appends a rule with one atom as its head, over literals.
pub(crate) fn push_basic(out: &mut Vec<u8>, atom: u32, lits: &[Lit]) -> Result<(), Memory>
    ensures ok { OnOk result (out.new.items ≡ out.old.items
        ++ line_of (codes "1" ∷ decimal atom ∷ body_words (negatives_first lits.now))) }
    ensures err { OnErr result (take (length out.old.items) out.new.items ≡ out.old.items) }
{
    out.push(b'1')?;
    push_atom_field(out, atom)?;
    push_literals(out, lits)?;
    out.push(b'\n')?;
    Ok(())
}

/// Appends a rule with one atom as its head, over weights. A bound below 0 is written as 0.
fn push_weight_rule(
    out: &mut Vec<u8>,
    atom: u32,
    bound: i64,
    items: &[(Lit, i64)],
) -> Result<(), Memory>
    ensures ok { OnOk result (out.new.items ≡ out.old.items
        ++ line_of (codes "5" ∷ decimal atom ∷ signed_decimal (at_least_zero bound)
        ∷ item_words (items_negatives_first items.now))) }
    ensures err { OnErr result (take (length out.old.items) out.new.items ≡ out.old.items) }
{
    out.push(b'5')?;
    push_atom_field(out, atom)?;
    push_bound(out, bound)?;
    push_items(out, items)?;
    out.push(b'\n')?;
    Ok(())
}

/// Appends a bound, or 0 where it is below 0.
fn push_bound(out: &mut Vec<u8>, bound: i64) -> Result<(), Memory>
    ensures ok { OnOk result (out.new.items ≡ out.old.items ++ (32 ∷ signed_decimal (at_least_zero bound))) }
    ensures err { OnErr result (take (length out.old.items) out.new.items ≡ out.old.items) }
{
    if bound < 0 {
        return push_field(out, 0);
    }
    push_field(out, bound.into())
}

/// Appends a choice over literals.
fn push_choice(out: &mut Vec<u8>, heads: &[u32], lits: &[Lit]) -> Result<(), Memory>
    ensures ok { OnOk result (out.new.items ≡ out.old.items
        ++ line_of (codes "3" ∷ (atom_words heads.now ++ body_words (negatives_first lits.now)))) }
    ensures err { OnErr result (take (length out.old.items) out.new.items ≡ out.old.items) }
{
    out.push(b'3')?;
    push_atoms(out, heads)?;
    push_literals(out, lits)?;
    out.push(b'\n')?;
    Ok(())
}
