//! Normalizing a program that is given away: one of normal rules is answered itself, so that a large program is not
//! copied.

ghost use Rattle.std.specs.Prelude.{◌≡◌, ◌≤◌, true, IfOk, IfErr};
ghost use Rattle.std.specs.List.{AllByRecursion};
ghost use Rattle.asp_base.specs.Sets.{members, Within};
ghost use Rattle.ground_program.specs.Faithful.{Faithful};
ghost use Rattle.ground_program.specs.Normal.{AreNormal, IsNormalBody, IsNormalHead};
ghost use Rattle.ground_program.specs.Room.{room};
ghost use Rattle.ground_program.specs.Size.{size};
ghost use Rattle.normalize.specs.Kept.{RefusedAs, SameRest, room_limit};

use crate::normalization::{NormalRefusal, ROOM_LIMIT, normal};
use asp_base::Memory;
use ground_program::{Atoms, Body, Head, Program, Rule, room};
use std::alloc::Global;

/// A program of normal rules that stands for a given one, and the atoms of that.
#[derive(Drop)]
pub struct Normalized {
    pub program: Program,
    pub given: Atoms,
}

/// As `normal`, for a program that is given away; what is no longer needed of it is let go.
///
/// `TooLarge` exactly where the room is above 2^24.
pub fn into_normal(alloc: Global, program: Program) -> Result<Normalized, NormalRefusal>
    ensures normal { IfOk result (λ n. AreNormal n.program.rules) }
    ensures faithful { IfOk result (λ n. Faithful program n.program) }
    ensures given { IfOk result (λ n. n.given ≡ program.atoms) }
    ensures atoms { IfOk result (λ n. Within (members program.atoms) (members n.program.atoms)) }
    ensures rest { IfOk result (λ n. SameRest program n.program) }
    ensures size { IfOk result (λ n. size n.program ≤ room program) }
    ensures same { IfOk result (λ n. AreNormal program.rules → n.program ≡ program) }
    ensures built { IfOk result (λ _. room program ≤ room_limit) }
    ensures too_large { IfErr result (λ refusal. RefusedAs program refusal) }
{
    if are_normal(program.rules.as_slice()) {
        return unchanged(alloc, program);
    }
    let made = normal(alloc, &program)?;
    let Program { atoms, .. } = program;
    Ok(Normalized {
        program: made,
        given: atoms,
    })
}

/// The program itself, whose rules are normal.
fn unchanged(alloc: Global, program: Program) -> Result<Normalized, NormalRefusal>
    requires { AreNormal program.rules }
    ensures same { IfOk result (λ n. n.program ≡ program) }
    ensures given { IfOk result (λ n. n.given ≡ program.atoms) }
    ensures faithful { IfOk result (λ n. Faithful program n.program) }
    ensures size { IfOk result (λ n. size n.program ≤ room program) }
    ensures built { IfOk result (λ _. room program ≤ room_limit) }
    ensures too_large { IfErr result (λ refusal. RefusedAs program refusal) }
{
    program.known();
    let room = room(&program);
    if room > ROOM_LIMIT {
        return Err(NormalRefusal::TooLarge { room });
    }
    let given = atoms_of(alloc, &program)?;
    Ok(Normalized { program, given })
}

/// A copy of the program's atoms.
fn atoms_of(alloc: Global, program: &Program) -> Result<Atoms, Memory>
    ensures { IfOk result (λ atoms. atoms ≡ program.now.atoms) }
{
    program.known();
    Atoms::of_vec(alloc, program.atoms.as_slice().to_vec(alloc)?)
}

/// Whether all rules are normal.
fn are_normal(rules: &[Rule]) -> bool
    ensures { result ≡ true → AreNormal rules.now }
{
    for rule in rules {
        if !is_normal(rule) {
            return false;
        }
    }
    true
}

fn is_normal(rule: &Rule) -> bool
    ensures { result ≡ true → IsNormalHead rule.now.head × IsNormalBody rule.now.body }
{
    match (&rule.head, &rule.body) {
        (Head::Nothing, Body::All(_)) => true,
        (Head::One(_), Body::All(_)) => true,
        _ => false,
    }
}
