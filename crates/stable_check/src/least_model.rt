//! The least model of a reduct by counters and a work list, as unit propagation in Horn clauses (W. F. Dowling and
//! J. H. Gallier, Linear-time algorithms for testing the satisfiability of propositional Horn formulae, 1984), here
//! with choice and weight rules. Each positive occurrence is looked at once, so it is linear in the program; by rounds
//! over all rules it would be quadratic. It takes 12 bytes for each positive occurrence and some 10 for each atom and
//! rule.

ghost use Rattle.std.specs.Prelude.{◌≡◌, ◌<◌, ◌^◌, Bool, map, length, IfOk};
ghost use Rattle.std.specs.List.{AllByRecursion};
ghost use Rattle.asp_base.specs.Sets.{Set, none};
ghost use Rattle.ground_program.specs.Facts.{Among, RuleFits};
ghost use Rattle.ground_program.specs.Stable.{least, grown};
ghost use Rattle.stable_check.specs.private.Lack.{flag};

use crate::counters::Counters;
use crate::growth::Growth;
use crate::lacks::{lacks, zeros};
use crate::table::occurrences;
use asp_base::Memory;
use ground_program::{Atoms, Program, Rule};
use std::alloc::Global;

/// The number of rules at most, since they are numbered by 32 bits.
const MOST_RULES: usize = 0xFFFF_FFFF;

/// The least model of the reduct of the rules by a set, both by their flags.
fn grown(alloc: Global, atoms: &Atoms, rules: &[Rule], set: &[bool]) -> Result<Vec<bool>, Memory>
    requires same { length set.now ≡ length atoms.now }
    requires few { length rules.now < 2 ^ 32 }
    requires fit { AllByRecursion (RuleFits (Among atoms.now)) rules.now }
    ensures { IfOk result (λ model. model.items ≡ map (grown rules.now (flag atoms.now set.now) none) atoms.now) }
{
    let table = occurrences(alloc, atoms, rules)?;
    let lacking = lacks(alloc, atoms, set, rules)?;
    let ready = zeros(alloc, lacking.as_slice())?;
    let derived = Vec::from_elem(alloc, false, atoms.as_slice().len())?;
    let mut growth = Growth::new(derived, Counters::new(lacking, ready));
    growth.run(atoms, set, rules, &table)?;
    Ok(growth.into_derived())
}

/// The least model of the reduct by a set. The set is given by a flag for each atom of the program, in their order, and
/// so is the model. Linear in the program but for the search for places: a counter for each rule says what its body
/// still lacks, and a stack has the rules that lack nothing and have yet to derive their heads. `Memory` too beyond
/// 2^32 - 1 rules or positive occurrences. A set with too few or too many flags is none, and its answer is empty.
pub(crate) fn least_model(
    alloc: Global,
    program: &Program,
    set: &[bool],
) -> Result<Vec<bool>, Memory>
    ensures { IfOk result (λ model. (M : Set) → set.now ≡ map M program.now.atoms → model.items
        ≡ map (least program.now M) program.now.atoms) }
{
    program.known();
    let atoms = &program.atoms;
    let rules = program.rules.as_slice();
    if set.len() != atoms.len() {
        return Ok(Vec::new(alloc));
    }
    if rules.len() > MOST_RULES {
        return Err(Memory);
    }
    grown(alloc, atoms, rules, set)
}
