//! Writes the aspif text of a program, a statement a line. A list that is longer than one statement may be is written
//! in parts, which are read as one list. An atom that occurs in no part is named as external and false: it is then read
//! as an atom of the program, and gets no rule.

ghost use Rattle.std.specs.Prelude.{◌≡◌, [], ◌∷◌, ◌++◌, not, length, take, Ok, OnOk, OnErr};
ghost use Rattle.std.specs.List.{flat_map, filter};
ghost use Rattle.std.specs.Fmt.{decimal, signed_decimal};
ghost use Rattle.asp_base.specs.Sets.{members};
ghost use Rattle.statement_fields.specs.FieldWords.{spaced_before};
ghost use Rattle.aspif_format.specs.Read.{aspif_of};
ghost use Rattle.aspif_format.specs.private.PartsText.{last_parts_text, parts_text};
ghost use Rattle.aspif_format.specs.Written.{head_words, body_words, rule_line, level_line, level_lines, show_line, edge_line, required_line, required_lines, external_line, aspif_text, parts};

use asp_base::{Lit, Memory};
use ground_program::{AtomSet, Body, Edge, Head, Level, Program, Rule, Show, occurring_atoms};
use statement_fields::{push_atoms, push_count, push_field, push_items, push_literals};
use std::alloc::Global;

/// The most entries of one statement.
const MOST_ENTRIES: usize = 1 << 24;

/// Appends the aspif text of a program. After `Memory` the text is as it was.
pub fn write(alloc: Global, program: &Program, out: &mut Vec<u8>) -> Result<(), Memory>
    ensures ok { OnOk result (out.new.items ≡ out.old.items ++ aspif_text program.now) }
    // What is appended is read as this program.
    ensures read_back { OnOk result (aspif_of (aspif_text program.now) ≡ Ok program.now) }
    ensures err { OnErr result (out.new.items ≡ out.old.items) }
{
    program.known();
    let before = out.len();
    let written = push_text(alloc, program, out);
    if written.is_err() {
        out.truncate(before);
    }
    written
}

// After `Memory` more may stand behind the text that was there; this holds of each function below.
fn push_text(alloc: Global, program: &Program, out: &mut Vec<u8>) -> Result<(), Memory>
    ensures ok { OnOk result (out.new.items ≡ out.old.items ++ aspif_text program.now) }
    ensures err { OnErr result (take (length out.old.items) out.new.items ≡ out.old.items) }
{
    let occurring = occurring_atoms(alloc, program)?;
    push_parts(out, program)?;
    push_idle(out, program.atoms.as_slice(), &occurring)?;
    out.extend_from_slice(b"0\n")?;
    Ok(())
}

/// The header, and a statement for each part of the program.
fn push_parts(out: &mut Vec<u8>, program: &Program) -> Result<(), Memory>
    ensures ok { OnOk result (out.new.items ≡ out.old.items ++ parts_text program.now) }
    ensures err { OnErr result (take (length out.old.items) out.new.items ≡ out.old.items) }
{
    out.extend_from_slice(b"asp 1 0 0\n")?;
    push_rules(out, program.rules.as_slice())?;
    push_levels(out, program.levels.as_slice())?;
    push_last_parts(out, program)
}

fn push_last_parts(out: &mut Vec<u8>, program: &Program) -> Result<(), Memory>
    ensures ok { OnOk result (out.new.items ≡ out.old.items ++ last_parts_text program.now) }
    ensures err { OnErr result (take (length out.old.items) out.new.items ≡ out.old.items) }
{
    push_shows(out, program.shows.as_slice())?;
    push_edges(out, program.edges.as_slice())?;
    push_required(out, program.required.as_slice())
}

#[tactic(auto, using(asp_scan::proofs::Appends::front_kept))]
fn push_rules(out: &mut Vec<u8>, rules: &[Rule]) -> Result<(), Memory>
    ensures ok { OnOk result (out.new.items ≡ out.old.items ++ flat_map rule_line rules.now) }
    ensures err { OnErr result (take (length out.old.items) out.new.items ≡ out.old.items) }
{
    for rule in rules {
        push_rule(out, rule)?;
    }
    Ok(())
}

fn push_rule(out: &mut Vec<u8>, rule: &Rule) -> Result<(), Memory>
    ensures ok { OnOk result (out.new.items ≡ out.old.items ++ rule_line rule.now) }
    ensures err { OnErr result (take (length out.old.items) out.new.items ≡ out.old.items) }
{
    out.push(b'1')?;
    push_head(out, &rule.head)?;
    push_body(out, &rule.body)?;
    out.push(b'\n')?;
    Ok(())
}

fn push_head(out: &mut Vec<u8>, head: &Head) -> Result<(), Memory>
    ensures ok { OnOk result (out.new.items ≡ out.old.items ++ spaced_before (head_words head.now)) }
    ensures err { OnErr result (take (length out.old.items) out.new.items ≡ out.old.items) }
{
    match head {
        Head::Nothing => {
            out.extend_from_slice(b" 0 0")?;
            Ok(())
        }
        Head::One(atom) => {
            out.extend_from_slice(b" 0 1")?;
            push_field(out, (*atom).into())
        }
        Head::Choice(atoms) => {
            out.extend_from_slice(b" 1")?;
            push_atoms(out, atoms.as_slice())
        }
    }
}

fn push_body(out: &mut Vec<u8>, body: &Body) -> Result<(), Memory>
    ensures ok { OnOk result (out.new.items ≡ out.old.items ++ spaced_before (body_words body.now)) }
    ensures err { OnErr result (take (length out.old.items) out.new.items ≡ out.old.items) }
{
    match body {
        Body::All(lits) => {
            out.extend_from_slice(b" 0")?;
            push_literals(out, lits.as_slice())
        }
        Body::Sum { bound, items } => {
            out.extend_from_slice(b" 1")?;
            push_field(out, (*bound).into())?;
            push_items(out, items.as_slice())
        }
    }
}

#[tactic(auto, using(asp_scan::proofs::Appends::front_kept))]
fn push_levels(out: &mut Vec<u8>, levels: &[Level]) -> Result<(), Memory>
    ensures ok { OnOk result (out.new.items ≡ out.old.items ++ flat_map level_lines levels.now) }
    ensures err { OnErr result (take (length out.old.items) out.new.items ≡ out.old.items) }
{
    for level in levels {
        push_level(out, level)?;
    }
    Ok(())
}

/// A statement for each part that one statement can hold.
fn push_level(out: &mut Vec<u8>, level: &Level) -> Result<(), Memory>
    ensures ok { OnOk result (out.new.items ≡ out.old.items ++ level_lines level.now) }
    ensures err { OnErr result (take (length out.old.items) out.new.items ≡ out.old.items) }
{
    let mut rest = level.items.as_slice();
    while rest.len() > MOST_ENTRIES {
        let (part, behind) = rest.split_at(MOST_ENTRIES);
        push_level_part(out, level, part)?;
        rest = behind;
    }
    push_level_part(out, level, rest)
}

/// A statement of the level's priority with these items.
fn push_level_part(out: &mut Vec<u8>, level: &Level, items: &[(Lit, i64)]) -> Result<(), Memory>
    ensures ok { OnOk result (out.new.items ≡ out.old.items ++ level_line level.now.priority items.now) }
    ensures err { OnErr result (take (length out.old.items) out.new.items ≡ out.old.items) }
{
    out.push(b'2')?;
    push_field(out, level.priority.into())?;
    push_items(out, items)?;
    out.push(b'\n')?;
    Ok(())
}

#[tactic(auto, using(asp_scan::proofs::Appends::front_kept))]
fn push_shows(out: &mut Vec<u8>, shows: &[Show]) -> Result<(), Memory>
    ensures ok { OnOk result (out.new.items ≡ out.old.items ++ flat_map show_line shows.now) }
    ensures err { OnErr result (take (length out.old.items) out.new.items ≡ out.old.items) }
{
    for show in shows {
        push_show(out, show)?;
    }
    Ok(())
}

fn push_show(out: &mut Vec<u8>, show: &Show) -> Result<(), Memory>
    ensures ok { OnOk result (out.new.items ≡ out.old.items ++ show_line show.now) }
    ensures err { OnErr result (take (length out.old.items) out.new.items ≡ out.old.items) }
{
    out.push(b'4')?;
    push_name(out, show.name.as_slice())?;
    push_literals(out, show.condition.as_slice())?;
    out.push(b'\n')?;
    Ok(())
}

/// The name may have blanks, so its length comes first.
fn push_name(out: &mut Vec<u8>, name: &[u8]) -> Result<(), Memory>
    ensures ok { OnOk result (out.new.items
        ≡ out.old.items ++ spaced_before (decimal (length name.now) ∷ name.now ∷ [])) }
    ensures err { OnErr result (take (length out.old.items) out.new.items ≡ out.old.items) }
{
    push_count(out, name.len())?;
    out.push(b' ')?;
    out.extend_from_slice(name)?;
    Ok(())
}

#[tactic(auto, using(asp_scan::proofs::Appends::front_kept))]
fn push_edges(out: &mut Vec<u8>, edges: &[Edge]) -> Result<(), Memory>
    ensures ok { OnOk result (out.new.items ≡ out.old.items ++ flat_map edge_line edges.now) }
    ensures err { OnErr result (take (length out.old.items) out.new.items ≡ out.old.items) }
{
    for edge in edges {
        push_edge(out, edge)?;
    }
    Ok(())
}

fn push_edge(out: &mut Vec<u8>, edge: &Edge) -> Result<(), Memory>
    ensures ok { OnOk result (out.new.items ≡ out.old.items ++ edge_line edge.now) }
    ensures err { OnErr result (take (length out.old.items) out.new.items ≡ out.old.items) }
{
    out.push(b'8')?;
    push_nodes(out, edge)?;
    push_literals(out, edge.condition.as_slice())?;
    out.push(b'\n')?;
    Ok(())
}

fn push_nodes(out: &mut Vec<u8>, edge: &Edge) -> Result<(), Memory>
    ensures ok { OnOk result (out.new.items
        ≡ out.old.items ++ spaced_before (signed_decimal edge.now.from ∷ signed_decimal edge.now.to ∷ [])) }
    ensures err { OnErr result (take (length out.old.items) out.new.items ≡ out.old.items) }
{
    push_field(out, edge.from.into())?;
    push_field(out, edge.to.into())
}

/// A statement for each part that one statement can hold, and none where nothing is required.
fn push_required(out: &mut Vec<u8>, lits: &[Lit]) -> Result<(), Memory>
    ensures ok { OnOk result (out.new.items ≡ out.old.items ++ required_lines lits.now) }
    ensures err { OnErr result (take (length out.old.items) out.new.items ≡ out.old.items) }
{
    if lits.is_empty() {
        return Ok(());
    }
    push_required_parts(out, lits)
}

fn push_required_parts(out: &mut Vec<u8>, lits: &[Lit]) -> Result<(), Memory>
    ensures ok { OnOk result (out.new.items ≡ out.old.items ++ flat_map required_line (parts lits.now)) }
    ensures err { OnErr result (take (length out.old.items) out.new.items ≡ out.old.items) }
{
    let mut rest = lits;
    while rest.len() > MOST_ENTRIES {
        let (part, behind) = rest.split_at(MOST_ENTRIES);
        push_required_part(out, part)?;
        rest = behind;
    }
    push_required_part(out, rest)
}

fn push_required_part(out: &mut Vec<u8>, lits: &[Lit]) -> Result<(), Memory>
    ensures ok { OnOk result (out.new.items ≡ out.old.items ++ required_line lits.now) }
    ensures err { OnErr result (take (length out.old.items) out.new.items ≡ out.old.items) }
{
    out.push(b'6')?;
    push_literals(out, lits)?;
    out.push(b'\n')?;
    Ok(())
}

/// An atom that occurs in no part is named as an external one that is false.
#[tactic(auto, using(asp_scan::proofs::Appends::front_kept))]
fn push_idle(out: &mut Vec<u8>, atoms: &[u32], occurring: &AtomSet) -> Result<(), Memory>
    ensures ok { OnOk result (out.new.items ≡ out.old.items
        ++ flat_map external_line (filter (λ a. not (members occurring.now a)) atoms.now)) }
    ensures err { OnErr result (take (length out.old.items) out.new.items ≡ out.old.items) }
{
    for atom in atoms {
        if !occurring.contains(*atom) {
            push_external(out, *atom)?;
        }
    }
    Ok(())
}

fn push_external(out: &mut Vec<u8>, atom: u32) -> Result<(), Memory>
    ensures ok { OnOk result (out.new.items ≡ out.old.items ++ external_line atom) }
    ensures err { OnErr result (take (length out.old.items) out.new.items ≡ out.old.items) }
{
    out.push(b'5')?;
    push_field(out, atom.into())?;
    out.extend_from_slice(b" 2\n")?;
    Ok(())
}
