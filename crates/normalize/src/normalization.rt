//! From a program to one of normal rules that stands for it. It goes rule by rule, in the order of the rules, and looks
//! at each once.

ghost use Rattle.std.specs.Prelude.{◌≡◌, ◌≤◌, ◌^◌, ℕ, List, IfOk, IfErr};
ghost use Rattle.std.specs.List.{AllByRecursion};
ghost use Rattle.asp_base.specs.Sets.{members, Within};
ghost use Rattle.ground_program.specs.Facts.{Among};
ghost use Rattle.ground_program.specs.Faithful.{Faithful};
ghost use Rattle.ground_program.specs.Normal.{AreNormal};
ghost use Rattle.ground_program.specs.Room.{room};
ghost use Rattle.ground_program.specs.Size.{size};
ghost use Rattle.ground_program.specs.Tangle.{AreCyclicComponents, pairs, tangle};
ghost use Rattle.normalize.specs.Kept.{SameRest, RefusedAs, room_limit, with_facts};
ghost use Rattle.normalize.specs.private.Standing.{StandsFor};

use crate::work::turned;
use asp_base::Memory;
use ground_program::{Program, room};
use std::alloc::Global;

/// A program for which normal rules are made has at most this room.
pub(crate) const ROOM_LIMIT: u64 = 1 << 24;

/// Why no normal rules are made.
#[derive(Clone, Copy, Debug, PartialEq, Eq)]
pub enum NormalRefusal {
    /// The program's room is this number, above 2^24.
    TooLarge { room: u64 },
    /// Want of memory.
    Memory,
}

impl From<Memory> for NormalRefusal {
    ghost use Rattle.std.specs.Prelude.{◌≡◌};
    ghost use Rattle.normalize.specs.declared.normalization.NormalRefusal.TheVariants as refusals;

    ghost from_gives = { λ _ e. e ≡ refusals.Memory };

    fn from(_: Memory) -> NormalRefusal {
        NormalRefusal::Memory
    }
}

/// A program of normal rules that is faithful to the given one, and stays so where the same facts are added to both.
/// A normal program stays as it is. No atom is lost, and what is no rule stays; the size is at most the room of the
/// given program, and the pairs of its positive recursion are at most the tangle.
///
/// `TooLarge` exactly where the room is above 2^24.
pub fn normal(alloc: Global, program: &Program) -> Result<Program, NormalRefusal>
    ensures normal { IfOk result (λ made. AreNormal made.rules) }
    ensures faithful { IfOk result (λ made. Faithful program.now made) }
    ensures facts { IfOk result (λ made. (facts : List ℕ) → AllByRecursion (Among program.now.atoms) facts
        → Faithful (with_facts facts program.now) (with_facts facts made)) }
    ensures atoms { IfOk result (λ made. Within (members program.now.atoms) (members made.atoms)) }
    ensures rest { IfOk result (SameRest program.now) }
    ensures size { IfOk result (λ made. size made ≤ room program.now) }
    ensures same { IfOk result (λ made. AreNormal program.now.rules → made ≡ program.now) }
    ensures tangle { IfOk result (λ made. (own parts : List (List ℕ)) → AreCyclicComponents made.rules own
        → AreCyclicComponents program.now.rules parts → pairs made.rules own ≤ tangle program.now.rules parts) }
    ensures built { IfOk result (λ _. room program.now ≤ room_limit) }
    ensures too_large { IfErr result (λ refusal. RefusedAs program.now refusal) }
{
    let room = room(program);
    if room > ROOM_LIMIT {
        return Err(NormalRefusal::TooLarge { room });
    }
    Ok(normal_within_room(alloc, program)?)
}

/// The same where the room suffices.
fn normal_within_room(alloc: Global, program: &Program) -> Result<Program, Memory>
    requires { room program.now ≤ 2 ^ 24 }
    ensures { IfOk result (StandsFor program.now) }
{
    let work = turned(alloc, program)?;
    work.finish(program)
}
