//! Runs of `back`: answers that are accepted or not, and what is said of them.

use super::runs::{End, done, expect_judgement, refused, rejected};
use super::samples::{CLAUSES, NO_ATOMS};
use std::test::Fail;

/// The texts that `back` is given, and how it is to end.
#[derive(Clone, Copy)]
struct Row {
    formula: &'static str,
    map: &'static str,
    answer: &'static str,
    end: End<'static>,
}

/// An answer to the clauses, over a map without atoms.
const fn answered(answer: &'static str, end: End<'static>) -> Row {
    Row {
        formula: CLAUSES,
        map: NO_ATOMS,
        answer,
        end,
    }
}

/// The answer has no values.
const fn no_model(answer: &'static str) -> Row {
    answered(
        answer,
        End {
            outcome: "NoModelGiven",
            status: 4,
            said: "no model given\n",
            complaint: "",
        },
    )
}

#[test]
fn judges_answers(rt: HostRuntime) -> Result<(), Fail> {
    let rows = [
        // The variable 2 is not named, so it is false; the last clause is false too.
        answered(
            "s SATISFIABLE\nv 1 3 0\n",
            rejected("Rejected(Clause(3))", "rejected clause 3\n"),
        ),
        answered("SAT\n1 2 3 0\n", done("accepted\n")),
        // The line `o` is not compared with anything, and the 0 may be left out.
        answered("o 7\ns OPTIMUM FOUND\nv 1 2 3\n", done("accepted\n")),
        answered(
            "c solved\ns SATISFIABLE\nv 3\nv 2 -1 0\n",
            done("accepted\n"),
        ),
        no_model("UNSAT\n"),
        no_model("INDET\n"),
        no_model("s UNSATISFIABLE\n"),
        no_model("s UNKNOWN\n"),
        Row {
            formula: CLAUSES,
            map: "map 1 cnf 4\nend\n",
            answer: "nothing of an answer\n",
            end: refused(
                "Refused { file: 2, line: 0, kind: Mismatch { formula_vars: 3, map_vars: 4 } }",
                "asptools: m: Mismatch 3 4\n",
            ),
        },
        // A name is said once, and costs stand by falling priority.
        Row {
            formula: "p cnf 2 1\n1 2 0\n",
            map: "map 1 cnf 2\natom 1 1\nshow 3 a b 1 1\nshow 1 c 1 -1\nshow 3 a b 1 2\n\
                level 2 2 1 3 2 -5\nlevel -1 1 -1 1\nend\n",
            answer: "s SATISFIABLE\nv 1 2 0\n",
            end: done("accepted\nshow a b\ncost -2 0\n"),
        },
        Row {
            formula: "p cnf 0 1\n0\n",
            map: "map 1 cnf 0\nend\n",
            answer: "SAT\n",
            end: rejected("Rejected(Clause(1))", "rejected clause 1\n"),
        },
    ];
    let alloc = rt.alloc();
    for row in rows {
        expect_judgement(
            &rt,
            alloc,
            row.formula.as_bytes(),
            row.map.as_bytes(),
            row.answer.as_bytes(),
            row.end,
        )?;
    }
    Ok(())
}
