//! Runs over large texts, which are made by a loop.

use super::runs::{done, expect_check, expect_judgement, expect_translation, made_of};
use super::samples::SAT;
use asp_base::Memory;
use std::alloc::{AllocError, Global};
use std::process::Abort;
use std::test::Fail;

/// The number of pairs of atoms, each of which holds where the other does not.
const PAIRS: u32 = 5000;

/// The program of the pairs.
pub(crate) fn pairs_program(alloc: Global) -> Result<String, AllocError> {
    let mut text = String::from_str(alloc, "asp 1 0 0\n")?;
    for pair in 0..PAIRS {
        let a = 2 * pair + 1;
        let b = 2 * pair + 2;
        write!(text, "1 0 1 {a} 0 1 -{b}\n1 0 1 {b} 0 1 -{a}\n")?;
    }
    text.push_str("0\n")?;
    Ok(text)
}

/// The formula of the pairs.
pub(crate) fn pairs_formula(alloc: Global) -> Result<String, AllocError> {
    let mut text = String::new(alloc);
    let vars = 2 * PAIRS;
    let clauses = 4 * PAIRS;
    write!(text, "p cnf {vars} {clauses}\n")?;
    for pair in 0..PAIRS {
        let a = 2 * pair + 1;
        let b = 2 * pair + 2;
        write!(text, "-{a} -{b} 0\n{a} {b} 0\n-{b} -{a} 0\n{b} {a} 0\n")?;
    }
    Ok(text)
}

/// The map of the pairs.
pub(crate) fn pairs_map(alloc: Global) -> Result<String, AllocError> {
    let mut text = String::new(alloc);
    let vars = 2 * PAIRS;
    write!(text, "map 1 cnf {vars}\n")?;
    for atom in 1..2 * PAIRS + 1 {
        write!(text, "atom {atom} {atom}\n")?;
    }
    text.push_str("end\n")?;
    Ok(text)
}

/// An answer with the first of each pair.
fn pairs_answer(alloc: Global) -> Result<String, AllocError> {
    let mut text = String::from_str(alloc, "s SATISFIABLE\nv")?;
    for pair in 0..PAIRS {
        let a = 2 * pair + 1;
        let b = 2 * pair + 2;
        write!(text, " {a} -{b}")?;
    }
    text.push_str(" 0\n")?;
    Ok(text)
}

fn translate_pairs(rt: &impl Abort, alloc: Global) -> Result<(), Memory> {
    let program = pairs_program(alloc)?;
    let formula = pairs_formula(alloc)?;
    let map = pairs_map(alloc)?;
    expect_translation(
        rt,
        alloc,
        SAT,
        program.as_str().as_bytes(),
        formula.as_str().as_bytes(),
        map.as_str().as_bytes(),
    )
}

#[test]
fn translates_many_rules(rt: HostRuntime) -> Result<(), Fail> {
    translate_pairs(&rt, rt.alloc())?;
    Ok(())
}

fn judge_pairs(rt: &impl Abort, alloc: Global) -> Result<(), Memory> {
    let formula = pairs_formula(alloc)?;
    let map = pairs_map(alloc)?;
    let answer = pairs_answer(alloc)?;
    expect_judgement(
        rt,
        alloc,
        formula.as_str().as_bytes(),
        map.as_str().as_bytes(),
        answer.as_str().as_bytes(),
        done("accepted\n"),
    )
}

#[test]
fn judges_many_clauses(rt: HostRuntime) -> Result<(), Fail> {
    judge_pairs(&rt, rt.alloc())?;
    Ok(())
}

/// The last atom of a chain.
const CHAIN: u32 = 10000;

/// The atom 1 by this rule, and each atom up to the last one from the one before it.
fn steps_program(alloc: Global, first: &str, last: u32) -> Result<String, AllocError> {
    let mut text = String::from_str(alloc, "asp 1 0 0\n")?;
    text.push_str(first)?;
    for atom in 1..last {
        let next = atom + 1;
        write!(text, "1 0 1 {next} 0 1 {atom}\n")?;
    }
    text.push_str("0\n")?;
    Ok(text)
}

/// Facts below the end, and an atom that holds where at least 500 of the atoms up to 1000 do.
fn counting_program(alloc: Global, end: u32) -> Result<String, AllocError> {
    let mut text = String::from_str(alloc, "asp 1 0 0\n")?;
    for atom in 1..end {
        write!(text, "1 0 1 {atom} 0 0\n")?;
    }
    text.push_str("1 0 1 1001 1 500 1000")?;
    for atom in 1..1001u32 {
        write!(text, " {atom} 1")?;
    }
    text.push_str("\n0\n")?;
    Ok(text)
}

/// These, and the atoms below the end.
fn atoms_text(alloc: Global, more: &str, end: u32) -> Result<String, AllocError> {
    let mut text = String::from_str(alloc, more)?;
    for atom in 1..end {
        write!(text, " {atom}")?;
    }
    Ok(text)
}

fn expect_stable(rt: &impl Abort, alloc: Global, program: &str, atoms: &str) -> Result<(), Memory> {
    expect_check(
        rt,
        alloc,
        program.as_bytes(),
        atoms.as_bytes(),
        done("stable\n"),
    )
}

#[test]
fn checks_many_rules(rt: HostRuntime) -> Result<(), Fail> {
    let alloc = rt.alloc();
    let program = steps_program(alloc, "1 0 1 1 0 0\n", CHAIN)?;
    let atoms = atoms_text(alloc, "", CHAIN + 1)?;
    expect_stable(&rt, alloc, program.as_str(), atoms.as_str())?;
    Ok(())
}

#[test]
fn counts_many_atoms(rt: HostRuntime) -> Result<(), Fail> {
    let alloc = rt.alloc();
    for (end, more) in [(501, "1001"), (500, "")] {
        let program = counting_program(alloc, end)?;
        let atoms = atoms_text(alloc, more, end)?;
        expect_stable(&rt, alloc, program.as_str(), atoms.as_str())?;
    }
    Ok(())
}

/// The number of atoms of a ring.
const RING: u32 = 4000;

/// Each atom of the ring holds where the one before it does.
pub(crate) fn ring_program(alloc: Global) -> Result<String, AllocError> {
    let first = format!(in alloc; "1 0 1 1 0 1 {RING}\n")?;
    steps_program(alloc, first.as_str(), RING)
}

#[test]
fn ranks_a_large_ring(rt: HostRuntime) -> Result<(), Fail> {
    let alloc = rt.alloc();
    let program = ring_program(alloc)?;
    let formula = made_of(&rt, alloc, SAT, program.as_str().as_bytes(), "out")?;
    assert!(rt; formula.as_slice().starts_with(b"p cnf 196000 1008000\n"));
    Ok(())
}
