//! The atoms that occur in the parts of a program.

ghost use Rattle.std.specs.Prelude.{◌≡◌, IfOk};
ghost use Rattle.ground_program.specs.Occurrences.{atoms_of_parts};
ghost use Rattle.rising_numbers.specs.Rising.{rising};

use crate::atom_set::AtomSet;
use crate::gather::{push_edges, push_levels, push_literals, push_rules, push_shows};
use crate::program::Program;
use asp_base::Memory;
use std::alloc::Global;

/// The set of the atoms that occur in a rule, a required literal, an edge, a level or a show of a program.
pub fn occurring_atoms(alloc: Global, program: &Program) -> Result<AtomSet, Memory>
    ensures { IfOk result (λ set. set ≡ rising (atoms_of_parts program.now)) }
{
    AtomSet::of_vec(alloc, occurrences(alloc, program)?)
}

/// The atoms in any order, with repeats.
fn occurrences(alloc: Global, program: &Program) -> Result<Vec<u32>, Memory>
    ensures { IfOk result (λ atoms. atoms.items ≡ atoms_of_parts program.now) }
{
    let mut atoms = Vec::new(alloc);
    push_rules(&mut atoms, program.rules.as_slice())?;
    push_literals(&mut atoms, program.required.as_slice())?;
    push_edges(&mut atoms, program.edges.as_slice())?;
    push_levels(&mut atoms, program.levels.as_slice())?;
    push_shows(&mut atoms, program.shows.as_slice())?;
    Ok(atoms)
}
