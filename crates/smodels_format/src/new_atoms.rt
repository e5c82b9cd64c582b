//! The atoms that the lowered program has and the program does not, one after another.

ghost use Rattle.std.specs.Prelude.{◌≡◌, suc, ◌+◌, ◌<◌, ◌≤◌, ◌^◌, length, IfOk};
ghost use Rattle.ground_program.specs.Fresh.{new_atom};

use asp_base::Memory;
use ground_program::{FreshAtoms, Program};
use std::alloc::Global;
use std::marker::Model;

/// Draws new atoms, one after another. Contracts see the atoms of the program, and how many were drawn.
#[derive(Drop)]
pub(crate) struct NewAtoms {
    fresh: FreshAtoms,
}

impl Model for NewAtoms {
    ghost use Rattle.std.specs.Prelude.{◌≡◌, length};
    ghost use Rattle.ground_program.specs.Fresh.{given_by};
    ghost use Rattle.smodels_format.specs.private.Writing.{Drawing};

    ghost Value = { Drawing };

    ghost view = { λ n. record { atoms = n.fresh.atoms; drawn = length n.fresh.given } };

    ghost invariant = { λ n. n.fresh.given ≡ given_by (length n.fresh.given) n.fresh.atoms };
}

impl NewAtoms {
    /// None is drawn yet.
    pub(crate) fn new(alloc: Global, program: &Program) -> Result<NewAtoms, Memory>
        ensures { IfOk result (λ atoms. atoms ≡ record { atoms = program.now.atoms; drawn = 0 }) }
    {
        let fresh = FreshAtoms::new(alloc, program)?;
        Ok(NewAtoms { fresh })
    }

    /// The next new atom. The program's atoms and those that were drawn must together be fewer than 2^30.
    pub(crate) fn draw(&mut self) -> u32
        requires { length self.old.atoms + self.old.drawn < 2 ^ 30 }
        ensures atom { result ≡ new_atom self.old.atoms self.old.drawn }
        ensures positive { 0 < result }
        ensures most { result ≤ 2 ^ 30 }
        ensures drawn { self.new ≡ record self.old { drawn = suc self.old.drawn } }
    {
        self.fresh.next()
    }
}
