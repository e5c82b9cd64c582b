//! The texts of a formula and of its map, each let go once it is written.

ghost use Rattle.std.specs.Prelude.{◌≡◌, [], Ok, IfOk, OnOk};
ghost use Rattle.dimacs_format.specs.Read.{formula_of};
ghost use Rattle.asp_tools.specs.private.Replying.{AreTextsOf, HasFormOf};

use crate::answer::Answer;
use crate::replies::making;
use asp_base::{Memory, VecList};
use clause_store::Formula;
use dimacs_format::{write_cnf, write_ecnf, write_wcnf};
use job_shell::{Output, Reply};
use sat_translation::Translation;
use std::alloc::Global;
use symbol_map::Form;

/// The reply with the texts of a formula, in the form that its map tells, and of the map.
pub(crate) fn texts_of(alloc: Global, translation: Translation) -> Result<Reply<Answer>, Memory>
    requires { HasFormOf translation.map.form translation.formula }
    ensures answer { IfOk result (λ r. r.answer ≡ Answer.Done) }
    ensures texts { IfOk result (λ r. AreTextsOf translation.formula translation.map r.made) }
    ensures said { IfOk result (λ r. r.said ≡ []) }
{
    let Translation { formula, map } = translation;
    let mut target = Vec::new(alloc);
    push_formula(map.form, &formula, &mut target)?;
    drop(formula);
    let mut table = Vec::new(alloc);
    symbol_map::write(&map, &mut table)?;
    drop(map);
    let mut made = VecList::new(alloc);
    made.push(Output::from_text(target))?;
    made.push(Output::from_text(table))?;
    Ok(making(alloc, made))
}

/// Appends the text of a formula in this form to nothing.
fn push_formula(form: Form, formula: &Formula, target: &mut Vec<u8>) -> Result<(), Memory>
    requires form { HasFormOf form formula.now }
    requires empty { target.old.items ≡ [] }
    ensures { OnOk result (formula_of target.new.items ≡ Ok formula.now) }
{
    match form {
        Form::Cnf => write_cnf(formula, target),
        Form::Ecnf => write_ecnf(formula, target),
        Form::Wcnf => write_wcnf(formula, target),
    }
}
