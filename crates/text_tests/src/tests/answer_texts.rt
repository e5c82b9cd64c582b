//! Solvers' answers to a formula of three variables: their first faults, and what they say.

use super::tables::expect_faults;
use asp_base::Lit;
use back_map::{Answer, AnswerKind, AnswerRefusal, read_answer};
use clause_store::Assignment;
use std::alloc::Global;
use std::test::Fail;

/// What an answer says of three variables.
fn read(alloc: Global, text: &str) -> Result<Answer, AnswerRefusal> {
    read_answer(alloc, text.as_bytes(), 3)
}

/// The first fault of a text.
fn fault_of(alloc: Global, text: &str) -> Option<AnswerRefusal> {
    read(alloc, text).err()
}

#[test]
fn finds_faults(rt: HostRuntime) {
    let rows = [
        ("", 1, AnswerKind::NoStatus),
        ("v 1 0\n", 1, AnswerKind::NoStatus),
        ("c SAT\no 3\n\n", 3, AnswerKind::NoStatus),
        ("satisfiable\n", 1, AnswerKind::BadLine),
        ("s\n", 1, AnswerKind::BadLine),
        ("s SAT\n", 1, AnswerKind::BadLine),
        ("SAT 1\n", 1, AnswerKind::BadLine),
        ("SAT\n\nUNSAT\n", 3, AnswerKind::BadLine),
        ("1 2 0\nSAT\n", 1, AnswerKind::BadLine),
        ("s SATISFIABLE\n1 0\n", 2, AnswerKind::BadLine),
        ("s SATISFIABLE\nv 1 x 0\n", 2, AnswerKind::BadLine),
        ("SAT\n1 0 2\n", 2, AnswerKind::BadLine),
        ("s SATISFIABLE\nv 1 0\nv 2\n", 3, AnswerKind::BadLine),
        ("v 9223372036854775808\n", 1, AnswerKind::BadLine),
        ("SAT\n4 0\n", 2, AnswerKind::LiteralOutOfRange),
        ("s UNSATISFIABLE\nv -4\n", 2, AnswerKind::LiteralOutOfRange),
        ("v 1\nv 2 -1\nSAT\n", 2, AnswerKind::BothSigns),
        ("SAT\n-3 2 3\n", 2, AnswerKind::BothSigns),
    ];
    expect_faults(&rt, rt.alloc(), fault_of, &rows);
}

/// Which of the three variables are true.
fn values_of(values: &Assignment) -> [bool; 3] {
    [is_true(values, 1), is_true(values, 2), is_true(values, 3)]
}

fn is_true(values: &Assignment, var: u32) -> bool {
    0 < var && var <= 3 && var <= values.vars() && values.holds(Lit::positive(var))
}

/// The values of the variables that an answer gives.
fn answered(alloc: Global, text: &str) -> Result<Option<[bool; 3]>, AnswerRefusal> {
    match read(alloc, text)? {
        Answer::Values(values) => Ok(Some(values_of(&values))),
        Answer::NoModel | Answer::Unknown => Ok(None),
    }
}

#[test]
fn reads_values(rt: HostRuntime) -> Result<(), Fail> {
    let rows = [
        ("s SATISFIABLE\n", [false, false, false]),
        ("c solved\ns SATISFIABLE\nv 2 -1 0\n", [false, true, false]),
        ("v 3\n o 7\ns OPTIMUM FOUND\nv 1 1\n", [true, false, true]),
        ("SAT\n1 -2\n3 0\n", [true, false, true]),
        ("SAT\nv 2\n", [false, true, false]),
    ];
    let alloc = rt.alloc();
    for (text, values) in rows {
        assert_eq!(rt; answered(alloc, text)?, Some(values), "{text:?}");
    }
    Ok(())
}

/// Whether the answer says that there is no model; None where it gives values.
fn denies(alloc: Global, text: &str) -> Result<Option<bool>, AnswerRefusal> {
    match read(alloc, text)? {
        Answer::Values(_) => Ok(None),
        Answer::NoModel => Ok(Some(true)),
        Answer::Unknown => Ok(Some(false)),
    }
}

#[test]
fn reads_answers_without_values(rt: HostRuntime) -> Result<(), Fail> {
    let rows = [
        ("UNSAT\n", true),
        ("s UNSATISFIABLE\n", true),
        ("s UNSATISFIABLE\nv 1\n", true),
        ("INDET\n", false),
        ("c\ns UNKNOWN", false),
    ];
    let alloc = rt.alloc();
    for (text, no_model) in rows {
        assert_eq!(rt; denies(alloc, text)?, Some(no_model), "{text:?}");
    }
    Ok(())
}
