//! What a set shows of a program, and what it costs.

ghost use Rattle.std.specs.Prelude.{◌≡◌, IfOk};
ghost use Rattle.asp_base.specs.Sets.{members};
ghost use Rattle.ground_program.specs.Stable.{visible, cost};

use asp_base::Memory;
use evaluation::{Seen, evaluate};
use ground_program::{AtomSet, Program};
use std::alloc::Global;

/// The names that a set shows, each once, in the order in which they first stand, and the cost of each level, by
/// falling priority.
pub fn cost_and_names(alloc: Global, program: &Program, set: &AtomSet) -> Result<Seen, Memory>
    ensures names { IfOk result (λ seen. seen.names ≡ visible program.now (members set.now)) }
    ensures costs { IfOk result (λ seen. seen.costs ≡ cost program.now (members set.now)) }
{
    program.known();
    evaluate(
        alloc,
        set,
        program.shows.as_slice(),
        program.levels.as_slice(),
    )
}
