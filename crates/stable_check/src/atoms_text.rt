//! Reads texts of atoms.

ghost use Rattle.std.specs.Prelude.{◌≡◌, ◌++◌, ◌∷◌, [], Ok, IfOk, IfErr, OnOk};
ghost use Rattle.asp_scan.specs.Tokens.{tokens};
ghost use Rattle.asp_base.specs.Faults.{Refuses, at_line};
ghost use Rattle.stable_check.specs.AtomsText.{atoms_of, atoms_of_tokens};
ghost use Rattle.stable_check.specs.private.Gathering.{onto};

use asp_base::Memory;
use asp_scan::Scan;
use ground_program::{AtomSet, ReadRefusal};
use statement_fields::atom;
use std::alloc::Global;

/// The set of the atoms that a text names: numbers from 1 to 2^30 over any number of lines, which may repeat. Refused
/// with the first fault and its line, or want of memory.
pub fn read_atoms(alloc: Global, text: &[u8]) -> Result<AtomSet, ReadRefusal>
    ensures set { IfOk result (λ set. atoms_of text.now ≡ Ok set) }
    ensures fault { IfErr result (λ refusal. Refuses (atoms_of text.now) refusal) }
{
    let mut scan = Scan::new(text);
    let mut atoms = Vec::new(alloc);
    'lines: while scan.next_line() {
        push_line(&mut scan, &mut atoms)?;
    }
    Ok(AtomSet::of_vec(alloc, atoms)?)
}

/// Puts the atoms that are left of the present line behind the others.
fn push_line(scan: &mut Scan<'_>, atoms: &mut Vec<u32>) -> Result<(), ReadRefusal>
    ensures ok { OnOk result (onto atoms.old.items (atoms_of_tokens (tokens scan.old.left)) ≡ Ok atoms.new.items) }
    ensures err { IfErr result (λ refusal. Refuses (at_line scan.old.line.number
        (atoms_of_tokens (tokens scan.old.left))) refusal) }
    ensures rest { scan.new ≡ record scan.old { left = scan.new.left } }
{
    'atoms: while !scan.end_of_line() {
        match atom(scan) {
            Ok(a) => push_atom(atoms, a)?,
            Err(kind) => {
                return Err(ReadRefusal::At {
                    line: scan.line(),
                    kind,
                });
            }
        }
    }
    Ok(())
}

/// Puts an atom behind the others.
fn push_atom(atoms: &mut Vec<u32>, atom: u32) -> Result<(), Memory>
    ensures { OnOk result (atoms.new.items ≡ atoms.old.items ++ (atom ∷ [])) }
{
    atoms.push(atom)?;
    Ok(())
}
