//! The encoding that compares stages: an edge leads from the head of a rule whose body holds to the atoms of the body
//! in its component where all of them are derived at an earlier stage than the head, and each atom that holds needs
//! such a rule. Which atoms are derived no later than which is told by new atoms, one for each pair in a component, so
//! that there is one choice of edges alone. (M. Gebser, T. Janhunen, J. Rintanen. Answer set programming as SAT modulo
//! acyclicity. ECAI 2014.) The time is linear in what is made, where the numbers of the atoms lie close together.

ghost use Rattle.std.specs.Prelude.{◌≡◌, ◌+◌, ◌*◌, ◌≤◌, ◌^◌, IfOk, IfErr};
ghost use Rattle.asp_base.specs.Sets.{members, Within};
ghost use Rattle.asp_base.specs.Walks.{Acyclic};
ghost use Rattle.components.specs.Divided.{cyclic_numbers, cyclic_parts, part_of};
ghost use Rattle.components.specs.Parts.{ArePartsOf};
ghost use Rattle.ground_program.specs.Dependencies.{depends};
ghost use Rattle.ground_program.specs.Faithful.{Faithful};
ghost use Rattle.ground_program.specs.Normal.{AreNormal};
ghost use Rattle.ground_program.specs.Size.{size};
ghost use Rattle.ground_program.specs.Tangle.{pairs};
ghost use Rattle.acyc_edges.specs.Encoding.{unique};
ghost use Rattle.acyc_edges.specs.Refused.{UniqueRefused};
ghost use Rattle.acyc_edges.specs.Staying.{StayFirst};

use crate::kind::Kind;
use crate::made::encoded;
use crate::refusal::UniqueRefusal;
use components::{Parts, pairs};
use ground_program::Program;
use std::alloc::Global;

/// Of more pairs no program is made.
const MOST_PAIRS: u64 = 1 << 24;

/// Replaces the positive recursion of a normal program by edges that follow from its stages. Cut to the atoms of the
/// given program, the stable models of the made one are one to one those of the given one, with their names and costs.
/// No atom of the made program depends positively on itself by its rules, so its stable models are the supported ones
/// whose edges have no cycle.
///
/// The parts are the program's components, and its size is at most 2^24. The made program has at most eight times the
/// size and the pairs of the cyclic components, taken together. Rules without head and those with a head in no cyclic
/// component stay, in their order and before the others; required literals, levels and shows stay.
///
/// `TooManyPairs` exactly where there are more than 2^24 pairs.
pub fn unique(alloc: Global, program: &Program, parts: &Parts) -> Result<Program, UniqueRefusal>
    requires normal { AreNormal program.now.rules }
    requires parts { ArePartsOf program.now parts.now }
    requires small { size program.now ≤ 2 ^ 24 }
    ensures encoding { IfOk result (λ made. made
        ≡ unique program.now (part_of parts.now) (cyclic_numbers parts.now)) }
    ensures faithful { IfOk result (λ made. Faithful program.now made) }
    ensures acyclic { IfOk result (λ made. Acyclic (depends made.rules)) }
    ensures normal { IfOk result (λ made. AreNormal made.rules) }
    ensures atoms { IfOk result (λ made. Within (members program.now.atoms) (members made.atoms)) }
    ensures first { IfOk result (λ made. StayFirst program.now (part_of parts.now) (cyclic_numbers parts.now) made) }
    ensures required { IfOk result (λ made. made.required ≡ program.now.required) }
    ensures levels { IfOk result (λ made. made.levels ≡ program.now.levels) }
    ensures shows { IfOk result (λ made. made.shows ≡ program.now.shows) }
    ensures size { IfOk result (λ made. size made
        ≤ 8 * (pairs program.now.rules (cyclic_parts parts.now) + size program.now)) }
    ensures few { IfOk result (λ made. pairs program.now.rules (cyclic_parts parts.now) ≤ 2 ^ 24) }
    ensures refused { IfErr result (λ r. UniqueRefused (pairs program.now.rules (cyclic_parts parts.now)) r) }
{
    program.known();
    let count = pairs(program, parts);
    if count > MOST_PAIRS {
        return Err(UniqueRefusal::TooManyPairs { pairs: count });
    }
    let made = encoded(alloc, program, parts, Kind::Unique)?;
    Ok(made)
}
