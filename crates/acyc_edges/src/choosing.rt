//! The encoding with chosen edges: from each atom of a cyclic component an edge may be chosen, or not, to each atom
//! there that it depends on by one of its rules, and each atom that holds needs a rule all of whose edges are chosen.
//! (M. Gebser, T. Janhunen, J. Rintanen. Answer set programming as SAT modulo acyclicity. ECAI 2014.) Each step goes
//! over the program or over what is made, and looks up atoms, so the time is linear in both where the numbers of the
//! atoms lie close together.

ghost use Rattle.std.specs.Prelude.{◌≡◌, ◌*◌, ◌≤◌, ◌^◌, IfOk};
ghost use Rattle.asp_base.specs.Sets.{members, Within};
ghost use Rattle.asp_base.specs.Walks.{Acyclic};
ghost use Rattle.components.specs.Divided.{cyclic_numbers, part_of};
ghost use Rattle.components.specs.Parts.{ArePartsOf};
ghost use Rattle.ground_program.specs.Dependencies.{depends};
ghost use Rattle.ground_program.specs.Faithful.{Covers};
ghost use Rattle.ground_program.specs.Normal.{AreNormal};
ghost use Rattle.ground_program.specs.Size.{size};
ghost use Rattle.acyc_edges.specs.Encoding.{plain};
ghost use Rattle.acyc_edges.specs.Staying.{StayFirst};

use crate::kind::Kind;
use crate::made::encoded;
use asp_base::Memory;
use components::Parts;
use ground_program::Program;
use std::alloc::Global;

/// Replaces the positive recursion of a normal program by edges that are chosen freely. Cut to the atoms of the given
/// program, the stable models of the made one are those of the given one, with their names and costs; several may have
/// one cut. No atom of the made program depends positively on itself by its rules, so its stable models are the
/// supported ones whose edges have no cycle.
///
/// The parts are the program's components, and its size is at most 2^24. The made program has at most twelve times the
/// size. Rules without head and those with a head in no cyclic component stay, in their order and before the others;
/// required literals, levels and shows stay.
pub fn plain(alloc: Global, program: &Program, parts: &Parts) -> Result<Program, Memory>
    requires normal { AreNormal program.now.rules }
    requires parts { ArePartsOf program.now parts.now }
    requires small { size program.now ≤ 2 ^ 24 }
    ensures encoding { IfOk result (λ made. made ≡ plain program.now (part_of parts.now) (cyclic_numbers parts.now)) }
    ensures covers { IfOk result (λ made. Covers program.now made) }
    ensures acyclic { IfOk result (λ made. Acyclic (depends made.rules)) }
    ensures normal { IfOk result (λ made. AreNormal made.rules) }
    ensures atoms { IfOk result (λ made. Within (members program.now.atoms) (members made.atoms)) }
    ensures first { IfOk result (λ made. StayFirst program.now (part_of parts.now) (cyclic_numbers parts.now) made) }
    ensures required { IfOk result (λ made. made.required ≡ program.now.required) }
    ensures levels { IfOk result (λ made. made.levels ≡ program.now.levels) }
    ensures shows { IfOk result (λ made. made.shows ≡ program.now.shows) }
    ensures size { IfOk result (λ made. size made ≤ 12 * size program.now) }
{
    program.known();
    let made = encoded(alloc, program, parts, Kind::Plain)?;
    Ok(made)
}
