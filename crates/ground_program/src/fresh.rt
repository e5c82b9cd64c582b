//! New atoms. The gaps between a program's atoms are kept as a list, in order, with the position of the
//! next number, so that each call takes constant time and the list takes 8 bytes for each gap.

ghost use Rattle.std.specs.Prelude.{◌≡◌, ◌≤◌, ◌<◌, ◌+◌, ◌^◌, [], ◌∷◌, ◌++◌, length, IfOk};
ghost use Rattle.std.specs.List.{AllByRecursion};
ghost use Rattle.rising_numbers.specs.Rising.{RisesFrom};
ghost use Rattle.ground_program.specs.Fresh.{IsLeastFree, taken, least_free};
ghost use Rattle.ground_program.specs.private.Gaps.{AreGaps, gaps_of, inside_below};

use crate::program::Program;
use asp_base::Memory;
use std::alloc::Global;
use std::marker::Model;

/// The numbers from the first on that are below the second.
#[derive(Clone, Copy)]
struct Gap {
    from: u32,
    to: u32,
}

/// A number, and the index of the gap in which it lies.
#[derive(Clone, Copy)]
struct Position {
    gap: usize,
    number: u32,
}

/// Gives numbers for new atoms, in constant time each: the least positive number that is no atom of a program and was
/// not given before. It keeps the gaps between the program's atoms.
#[derive(Drop)]
pub struct FreshAtoms {
    gaps: Vec<Gap>,
    at: Position,
}

impl Model for FreshAtoms {
    ghost use Rattle.ground_program.specs.Fresh.{Supply};
    ghost use Rattle.ground_program.specs.private.Gaps.{AreGaps};
    ghost use Rattle.ground_program.specs.private.InsideFresh.{supply_of};

    ghost Value = { Supply };

    ghost view = { supply_of };

    ghost invariant = { λ f. AreGaps f.gaps.items f.at };
}

impl FreshAtoms {
    /// None is given yet.
    pub fn new(alloc: Global, program: &Program) -> Result<FreshAtoms, Memory>
        ensures { IfOk result (λ fresh. fresh ≡ record { atoms = program.now.atoms; given = [] }) }
    {
        let gaps = gaps_between(alloc, program.atoms.as_slice())?;
        let number = gaps[0].from;
        Ok(FreshAtoms {
            gaps,
            at: Position { gap: 0, number },
        })
    }

    /// The least positive number that is no atom of the program and was not given before. The program's atoms and the
    /// numbers that were given must together be fewer than 2^30.
    pub fn next(&mut self) -> u32
        requires { length self.old.atoms + length self.old.given < 2 ^ 30 }
        ensures least { IsLeastFree (taken self.old) result }
        ensures number { result ≡ least_free (taken self.old) }
        ensures most { result ≤ 2 ^ 30 }
        ensures given { self.new ≡ record self.old { given = self.old.given ++ (result ∷ []) } }
    {
        let number = self.at.number;
        self.at = following(self.gaps.as_slice(), self.at);
        number
    }
}

/// The gaps between rising atoms, from 1 on; the last one has no end that is ever reached.
fn gaps_between(alloc: Global, atoms: &[u32]) -> Result<Vec<Gap>, Memory>
    requires rise { RisesFrom 0 atoms.now }
    requires fit { AllByRecursion (λ a. a ≤ 2 ^ 30) atoms.now }
    ensures { IfOk result (λ gaps. gaps.items ≡ gaps_of 1 atoms.now) }
{
    let mut gaps = Vec::new(alloc);
    let mut low = 1;
    for atom in atoms {
        if low < *atom {
            gaps.push(Gap {
                from: low,
                to: *atom,
            })?;
        }
        low = *atom + 1;
    }
    gaps.push(Gap {
        from: low,
        to: u32::MAX,
    })?;
    Ok(gaps)
}

/// The position of the next number that lies in a gap.
fn following(gaps: &[Gap], at: Position) -> Position
    requires gaps { AreGaps gaps.now at }
    requires small { at.number ≤ 2 ^ 30 }
    ensures gaps { AreGaps gaps.now result }
    ensures below { inside_below result.number gaps.now ≡ inside_below at.number gaps.now ++ (at.number ∷ []) }
{
    let number = at.number + 1;
    if number < gaps[at.gap].to {
        return Position {
            gap: at.gap,
            number,
        };
    }
    let gap = at.gap + 1;
    Position {
        gap,
        number: gaps[gap].from,
    }
}
