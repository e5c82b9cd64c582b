//! Shows, levels and required literals as they are written. After `Memory` more may stand behind the text that was
//! there; this holds of each function here.

ghost use Rattle.std.specs.Prelude.{◌≡◌, ℕ, ◌+◌, ◌≤◌, ◌<◌, ◌^◌, [], ◌∷◌, ◌++◌, map, reverse, length, take, cond, true, false, OnOk, OnErr, IfOk, MatchOption};
ghost use Rattle.std.specs.List.{flat_map};
ghost use Rattle.std.specs.Fmt.{decimal};
ghost use Rattle.asp_base.specs.Literal.{atom_of};
ghost use Rattle.ground_program.specs.Fresh.{new_atom};
ghost use Rattle.smodels_format.specs.Lowering.{items_negatives_first, is_single, single_atom};
ghost use Rattle.smodels_format.specs.Written.{rule_line, sum_line, symbol_line, atom_line};
ghost use Rattle.smodels_format.specs.private.Writing.{has_sign, symbol_atoms, after_shows, with_names, condition_rule, condition_rules, required_line};

use crate::new_atoms::NewAtoms;
use crate::push_bodies::{has_sign, push_items};
use crate::push_rules::push_basic;
use crate::sign::Sign;
use asp_base::{Lit, Memory};
use asp_scan::push_number;
use ground_program::{Level, Show};
use std::alloc::Global;

/// The atoms that stand for the conditions of the shows, one for each: of a condition that is one positive literal its
/// atom, and of any other a new one.
pub(crate) fn symbol_atoms(
    alloc: Global,
    atoms: &mut NewAtoms,
    shows: &[Show],
) -> Result<Vec<u32>, Memory>
    requires { length atoms.old.atoms + atoms.old.drawn + length shows.now ≤ 2 ^ 30 }
    ensures { IfOk result
        (λ symbols. symbols.items ≡ symbol_atoms (new_atom atoms.old.atoms) atoms.old.drawn shows.now) }
{
    let mut symbols = Vec::new(alloc);
    for show in shows {
        symbols.push(symbol_atom(atoms, show))?;
    }
    Ok(symbols)
}

fn symbol_atom(atoms: &mut NewAtoms, show: &Show) -> u32
    requires { length atoms.old.atoms + atoms.old.drawn < 2 ^ 30 }
    ensures atom { result ≡ cond (is_single show.now.condition) (single_atom show.now.condition)
        (new_atom atoms.old.atoms atoms.old.drawn) }
    ensures drawn { atoms.new ≡ record atoms.old { drawn = after_shows atoms.old.drawn (show.now ∷ []) } }
{
    match single(show.condition.as_slice()) {
        Some(atom) => atom,
        None => atoms.draw(),
    }
}

/// The atom of a condition that is one positive literal.
fn single(lits: &[Lit]) -> Option<u32>
    ensures { MatchOption result (is_single lits.now ≡ false)
        (λ atom. (is_single lits.now ≡ true) × (single_atom lits.now ≡ atom)) }
{
    match lits {
        [lit] if lit.is_positive() => Some(lit.var()),
        _ => None,
    }
}

/// Appends the rules of the new atoms that stand for conditions.
pub(crate) fn push_condition_rules(
    out: &mut Vec<u8>,
    symbols: &[u32],
    shows: &[Show],
) -> Result<(), Memory>
    requires { length symbols.now ≡ length shows.now }
    ensures ok { OnOk result (out.new.items ≡ out.old.items
        ++ flat_map rule_line (condition_rules symbols.now shows.now)) }
    ensures err { OnErr result (take (length out.old.items) out.new.items ≡ out.old.items) }
{
    for (i, show) in shows.iter().enumerate() {
        push_condition_rule(out, symbols[i], show)?;
    }
    Ok(())
}

fn push_condition_rule(out: &mut Vec<u8>, symbol: u32, show: &Show) -> Result<(), Memory>
    ensures ok { OnOk result (out.new.items ≡ out.old.items ++ flat_map rule_line (condition_rule symbol show.now)) }
    ensures err { OnErr result (take (length out.old.items) out.new.items ≡ out.old.items) }
{
    let condition = show.condition.as_slice();
    if single(condition).is_some() {
        return Ok(());
    }
    push_basic(out, symbol, condition)
}

/// Appends the symbol table: each atom with the name of its show.
pub(crate) fn push_symbols(out: &mut Vec<u8>, symbols: &[u32], shows: &[Show]) -> Result<(), Memory>
    requires { length symbols.now ≡ length shows.now }
    ensures ok { OnOk result (out.new.items ≡ out.old.items
        ++ flat_map symbol_line (with_names symbols.now shows.now)) }
    ensures err { OnErr result (take (length out.old.items) out.new.items ≡ out.old.items) }
{
    for (i, show) in shows.iter().enumerate() {
        push_symbol(out, symbols[i], show.name.as_slice())?;
    }
    Ok(())
}

fn push_symbol(out: &mut Vec<u8>, symbol: u32, name: &[u8]) -> Result<(), Memory>
    ensures ok { OnOk result (out.new.items ≡ out.old.items ++ symbol_line (symbol, name.now)) }
    ensures err { OnErr result (take (length out.old.items) out.new.items ≡ out.old.items) }
{
    push_number(out, symbol.into())?;
    out.push(b' ')?;
    out.extend_from_slice(name)?;
    out.push(b'\n')?;
    Ok(())
}

/// Appends the minimize statements of the levels, by rising priority: the levels of a program fall.
pub(crate) fn push_levels(out: &mut Vec<u8>, levels: &[Level]) -> Result<(), Memory>
    ensures ok { OnOk result (out.new.items ≡ out.old.items
        ++ flat_map sum_line (map (λ level. items_negatives_first level.items) (reverse levels.now))) }
    ensures err { OnErr result (take (length out.old.items) out.new.items ≡ out.old.items) }
{
    for i in (0..levels.len()).rev() {
        push_sum(out, levels[i].items.as_slice())?;
    }
    Ok(())
}

fn push_sum(out: &mut Vec<u8>, items: &[(Lit, i64)]) -> Result<(), Memory>
    ensures ok { OnOk result (out.new.items ≡ out.old.items ++ sum_line (items_negatives_first items.now)) }
    ensures err { OnErr result (take (length out.old.items) out.new.items ≡ out.old.items) }
{
    out.extend_from_slice(b"6 0")?;
    push_items(out, items)?;
    out.push(b'\n')?;
    Ok(())
}

/// Appends the atoms of the required literals of a sign, each in its line.
pub(crate) fn push_required(out: &mut Vec<u8>, lits: &[Lit], sign: Sign) -> Result<(), Memory>
    ensures ok { OnOk result (out.new.items ≡ out.old.items ++ flat_map (λ lit. required_line sign lit) lits.now) }
    ensures err { OnErr result (take (length out.old.items) out.new.items ≡ out.old.items) }
{
    for lit in lits {
        push_required_one(out, *lit, sign)?;
    }
    Ok(())
}

/// Appends the line of the literal's atom where the literal has the sign.
fn push_required_one(out: &mut Vec<u8>, lit: Lit, sign: Sign) -> Result<(), Memory>
    ensures ok { OnOk result (out.new.items ≡ out.old.items ++ required_line sign lit) }
    ensures err { OnErr result (take (length out.old.items) out.new.items ≡ out.old.items) }
{
    if !has_sign(lit, sign) {
        return Ok(());
    }
    push_atom(out, lit.var())
}

/// Appends an atom in a line of its own.
pub(crate) fn push_atom(out: &mut Vec<u8>, atom: u32) -> Result<(), Memory>
    ensures ok { OnOk result (out.new.items ≡ out.old.items ++ atom_line atom) }
    ensures err { OnErr result (take (length out.old.items) out.new.items ≡ out.old.items) }
{
    push_number(out, atom.into())?;
    out.push(b'\n')?;
    Ok(())
}
