//! From a program to one of normal rules and edges without positive recursion: it is normalized, and the recursion of
//! its cyclic components is told by edges (`acyc_edges`). Each step is linear in what it makes.

ghost use Rattle.std.specs.Prelude.{◌≡◌, ◌≤◌, ◌*◌, ◌+◌, ◌^◌, ℕ, List, min, IfOk, IfErr};
ghost use Rattle.ground_program.specs.Normal.{AreNormal};
ghost use Rattle.ground_program.specs.Room.{room};
ghost use Rattle.ground_program.specs.Size.{size};
ghost use Rattle.ground_program.specs.Tangle.{AreCyclicComponents, pairs, tangle};
ghost use Rattle.acyc_translation.specs.Encoded.{IsAcyclic, IsEncoded, IsAccepted, RefusedAs, IsBound, IsTangle};
ghost use Rattle.acyc_translation.specs.declared.encoding.Encoding.TheVariants as encodings;
ghost use Rattle.acyc_translation.specs.private.Made.{MadeOf, IsLight};

use crate::encoding::{AcycRefusal, Encoding};
use acyc_edges::{UniqueRefusal, plain, unique};
use asp_base::Memory;
use components::{components, tangle};
use ground_program::Program;
use normalize::{NormalRefusal, normal};
use std::alloc::Global;

/// A program with a greater tangle is not encoded by comparing stages.
const TANGLE_LIMIT: u64 = 1 << 24;

/// A program of normal rules and edges, in which no atom depends on itself, that stands for the given one: with `Plain`
/// each stable model is reached, maybe several times, and with `Unique` once.
///
/// `TooLarge` exactly where the room is above 2^24, or else, with `Unique`, the tangle.
pub fn encode(alloc: Global, encoding: Encoding, program: &Program) -> Result<Program, AcycRefusal>
    ensures acyclic { IfOk result (λ made. IsAcyclic encoding program.now made) }
    ensures encoded { IfOk result (λ made. AreNormal program.now.rules → IsEncoded encoding program.now made) }
    ensures levels { IfOk result (λ made. made.levels ≡ program.now.levels) }
    ensures light { IfOk result (λ made. IsLight made) }
    ensures small { IfOk result (λ made. size made ≤ 2 ^ 28) }
    ensures accepted { IfOk result (λ _. IsAccepted encoding program.now) }
    ensures refused { IfErr result (λ refusal. RefusedAs encoding program.now refusal) }
{
    match normal(alloc, program) {
        Ok(made) => encode_normal(alloc, encoding, program, &made),
        Err(NormalRefusal::TooLarge { room }) => Err(AcycRefusal::TooLarge { number: room }),
        Err(NormalRefusal::Memory) => Err(AcycRefusal::Memory),
    }
}

/// The same of the program's normal rules.
fn encode_normal(
    alloc: Global,
    encoding: Encoding,
    program: &Program,
    made: &Program,
) -> Result<Program, AcycRefusal>
    requires normal { AreNormal made.now.rules }
    requires size { size made.now ≤ room program.now }
    requires room { room program.now ≤ 2 ^ 24 }
    requires tangle { (own parts : List (List ℕ)) → AreCyclicComponents made.now.rules own
        → AreCyclicComponents program.now.rules parts → pairs made.now.rules own ≤ tangle program.now.rules parts }
    ensures made { IfOk result (λ q. (most : ℕ) × IsBound encoding program.now most
        × MadeOf encoding made.now q most) }
    ensures refused { IfErr result (λ refusal. RefusedAs encoding program.now refusal) }
{
    match encoding {
        Encoding::Plain => Ok(choose(alloc, made)?),
        Encoding::Unique => compare(alloc, program, made),
    }
}

/// The encoding by edges that are chosen.
fn choose(alloc: Global, program: &Program) -> Result<Program, Memory>
    requires normal { AreNormal program.now.rules }
    requires small { size program.now ≤ 2 ^ 24 }
    ensures { IfOk result (λ made. MadeOf encodings.Plain program.now made (12 * size program.now)) }
{
    let parts = components(alloc, program)?;
    plain(alloc, program, &parts)
}

/// The encoding of a program's normal rules by comparing stages, where the program's tangle is within the limit.
fn compare(alloc: Global, program: &Program, made: &Program) -> Result<Program, AcycRefusal>
    requires normal { AreNormal made.now.rules }
    requires size { size made.now ≤ room program.now }
    requires room { room program.now ≤ 2 ^ 24 }
    requires tangle { (own parts : List (List ℕ)) → AreCyclicComponents made.now.rules own
        → AreCyclicComponents program.now.rules parts → pairs made.now.rules own ≤ tangle program.now.rules parts }
    ensures made { IfOk result (λ q. (most : ℕ) × IsBound encodings.Unique program.now most
        × MadeOf encodings.Unique made.now q most) }
    ensures refused { IfErr result (λ refusal. RefusedAs encodings.Unique program.now refusal) }
{
    let tangle = tangle_of(alloc, program)?;
    if tangle > TANGLE_LIMIT {
        return Err(AcycRefusal::TooLarge { number: tangle });
    }
    match compare_stages(alloc, made) {
        Ok(made) => Ok(made),
        // It is want of memory, since there are no more pairs than the tangle.
        Err(_) => Err(AcycRefusal::Memory),
    }
}

/// The tangle of a program, up to 2^63.
fn tangle_of(alloc: Global, program: &Program) -> Result<u64, Memory>
    ensures { IfOk result (λ number. (n : ℕ) × IsTangle program.now n × (number ≡ min n (2 ^ 63))) }
{
    let parts = components(alloc, program)?;
    Ok(tangle(program, &parts))
}

/// The encoding by comparing stages.
fn compare_stages(alloc: Global, program: &Program) -> Result<Program, UniqueRefusal>
    requires normal { AreNormal program.now.rules }
    requires small { size program.now ≤ 2 ^ 24 }
    ensures { IfOk result (λ made. (own : List (List ℕ)) × AreCyclicComponents program.now.rules own
        × MadeOf encodings.Unique program.now made (8 * (pairs program.now.rules own + size program.now))) }
{
    let parts = components(alloc, program)?;
    unique(alloc, program, &parts)
}
