//! The writer. Smodels text has no rule without head, no choice over weights and no name of more than one positive
//! literal, so the program is lowered: a new atom that is required to be false heads the rules without head, and a new
//! atom stands for each such body and condition. This is done as the text is written, and the lowered program is never
//! made in memory; a new atom is drawn in constant time, so that the cost is that of the text.

ghost use Rattle.std.specs.Prelude.{◌≡◌, ℕ, ◌+◌, ◌≤◌, ◌<◌, ◌^◌, ◌++◌, true, false, length, take, unwrap_or, Ok, OnOk, OnErr, IfOk, IfErr};
ghost use Rattle.std.specs.List.{AllByRecursion, list_any};
ghost use Rattle.ground_program.specs.Facts.{IsShort};
ghost use Rattle.ground_program.specs.Faithful.{Faithful};
ghost use Rattle.ground_program.specs.Fresh.{new_atom};
ghost use Rattle.ground_program.specs.Size.{size};
ghost use Rattle.ground_program.specs.Stable.{is_headless};
ghost use Rattle.smodels_format.specs.Lowering.{after_rules, lowered};
ghost use Rattle.smodels_format.specs.Read.{smodels_of};
ghost use Rattle.smodels_format.specs.Written.{smodels_text};
ghost use Rattle.smodels_format.specs.Writable.{is_writable};
ghost use Rattle.smodels_format.specs.private.Writing.{after_refuted, refuted_atom, refuted_line, required_part, rule_part, symbol_atoms, symbol_part, with_names};

use crate::new_atoms::NewAtoms;
use crate::push_rules::push_rules;
use crate::push_shows::{
    push_atom, push_condition_rules, push_levels, push_required, push_symbols, symbol_atoms,
};
use crate::sign::Sign;
use crate::writability::writable;
use asp_base::{Lit, Memory};
use ground_program::{Head, Program, Rule, Show};
use std::alloc::Global;

/// Why a program was not written.
#[derive(Clone, Copy, Debug, PartialEq, Eq)]
pub enum WriteRefusal {
    /// It has an edge, a weight of a level below 0, or a name that is empty, begins with a space or tab, or ends with a
    /// carriage return.
    NotSmodels,
    /// Want of memory.
    Memory,
}

/// Appends the smodels text of a program. The text is one of a program that stands for the given one: cut to the given
/// atoms, its stable models are one to one the given ones, with the same names and costs.
///
/// The size of the program must be at most 2^28, and each level must have at most 2^24 items. Refused with `NotSmodels`
/// exactly where `writable` is false, and with `Memory`; the text is then as it was.
pub fn write(alloc: Global, program: &Program, out: &mut Vec<u8>) -> Result<(), WriteRefusal>
    requires size { size program.now ≤ 2 ^ 28 }
    requires levels { AllByRecursion (λ level. IsShort level.items) program.now.levels }
    ensures ok { OnOk result ((is_writable program.now ≡ true)
        × (out.new.items ≡ out.old.items ++ smodels_text program.now)) }
    ensures read_back { OnOk result (smodels_of (smodels_text program.now) ≡ Ok (lowered program.now)) }
    ensures faithful { OnOk result (Faithful program.now (lowered program.now)) }
    ensures not_smodels { IfErr result (λ refusal. refusal ≡ WriteRefusal.NotSmodels
        → is_writable program.now ≡ false) }
    ensures err { IfErr result (λ refusal. out.new.items ≡ out.old.items) }
{
    program.known();
    if !writable(program) {
        return Err(WriteRefusal::NotSmodels);
    }
    let before = out.len();
    match push_program(alloc, program, out) {
        Ok(()) => Ok(()),
        Err(Memory) => {
            out.truncate(before);
            Err(WriteRefusal::Memory)
        }
    }
}

/// Appends the text of a program. After `Memory` more may stand behind the text that was there; this holds of each
/// function below.
fn push_program(alloc: Global, program: &Program, out: &mut Vec<u8>) -> Result<(), Memory>
    requires { size program.now ≤ 2 ^ 28 }
    ensures ok { OnOk result (out.new.items ≡ out.old.items ++ smodels_text program.now) }
    ensures err { OnErr result (take (length out.old.items) out.new.items ≡ out.old.items) }
{
    let mut atoms = NewAtoms::new(alloc, program)?;
    let refuted = refuted_atom(&mut atoms, program.rules.as_slice());
    let symbols = push_rule_part(alloc, program, &mut atoms, refuted, out)?;
    push_levels(out, program.levels.as_slice())?;
    push_symbol_part(out, symbols.as_slice(), program.shows.as_slice())?;
    push_required_part(out, program.required.as_slice(), refuted)?;
    out.extend_from_slice(b"1\n")?;
    Ok(())
}

/// The new atom that is the head of the rules without head, where there is one.
fn refuted_atom(atoms: &mut NewAtoms, rules: &[Rule]) -> Option<u32>
    requires { length atoms.old.atoms + atoms.old.drawn < 2 ^ 30 }
    ensures atom { result ≡ refuted_atom (new_atom atoms.old.atoms) atoms.old.drawn rules.now }
    ensures drawn { atoms.new ≡ record atoms.old { drawn = after_refuted atoms.old.drawn rules.now } }
{
    if !any_headless(rules) {
        return None;
    }
    Some(atoms.draw())
}

fn any_headless(rules: &[Rule]) -> bool
    ensures { result ≡ list_any (λ rule. is_headless rule.head) rules.now }
{
    for rule in rules {
        if matches!(rule.head, Head::Nothing) {
            return true;
        }
    }
    false
}

/// Appends the rules, and then those of the new atoms that stand for conditions of shows. Gives the atoms of the
/// symbol table.
fn push_rule_part(
    alloc: Global,
    program: &Program,
    atoms: &mut NewAtoms,
    refuted: Option<u32>,
    out: &mut Vec<u8>,
) -> Result<Vec<u32>, Memory>
    requires { length atoms.old.atoms + atoms.old.drawn + length program.now.rules + length program.now.shows ≤ 2 ^ 30 }
    ensures symbols { IfOk result (λ symbols. symbols.items
        ≡ symbol_atoms (new_atom atoms.old.atoms) (after_rules atoms.old.drawn program.now.rules) program.now.shows) }
    ensures ok { OnOk result (out.new.items ≡ out.old.items
        ++ rule_part (new_atom atoms.old.atoms) (unwrap_or refuted 0) atoms.old.drawn program.now) }
    ensures err { OnErr result (take (length out.old.items) out.new.items ≡ out.old.items) }
{
    // Where every rule has a head, none gets this one.
    let refuted = refuted.unwrap_or(0);
    let shows = program.shows.as_slice();
    push_rules(out, atoms, refuted, program.rules.as_slice())?;
    let symbols = symbol_atoms(alloc, atoms, shows)?;
    push_condition_rules(out, symbols.as_slice(), shows)?;
    Ok(symbols)
}

/// Appends the symbol table between the ends of the rules and of its own.
fn push_symbol_part(out: &mut Vec<u8>, symbols: &[u32], shows: &[Show]) -> Result<(), Memory>
    requires { length symbols.now ≡ length shows.now }
    ensures ok { OnOk result (out.new.items ≡ out.old.items ++ symbol_part (with_names symbols.now shows.now)) }
    ensures err { OnErr result (take (length out.old.items) out.new.items ≡ out.old.items) }
{
    out.extend_from_slice(b"0\n")?;
    push_symbols(out, symbols, shows)?;
    out.extend_from_slice(b"0\n")?;
    Ok(())
}

/// Appends the atoms that are required to be true, and those that are required to be false, the refuted one last.
fn push_required_part(out: &mut Vec<u8>, lits: &[Lit], refuted: Option<u32>) -> Result<(), Memory>
    ensures ok { OnOk result (out.new.items ≡ out.old.items ++ required_part lits.now refuted) }
    ensures err { OnErr result (take (length out.old.items) out.new.items ≡ out.old.items) }
{
    out.extend_from_slice(b"B+\n")?;
    push_required(out, lits, Sign::Positive)?;
    out.extend_from_slice(b"0\nB-\n")?;
    push_required(out, lits, Sign::Negative)?;
    push_refuted(out, refuted)?;
    out.extend_from_slice(b"0\n")?;
    Ok(())
}

fn push_refuted(out: &mut Vec<u8>, refuted: Option<u32>) -> Result<(), Memory>
    ensures ok { OnOk result (out.new.items ≡ out.old.items ++ refuted_line refuted) }
    ensures err { OnErr result (take (length out.old.items) out.new.items ≡ out.old.items) }
{
    match refuted {
        None => Ok(()),
        Some(atom) => push_atom(out, atom),
    }
}
