//! `back`: whether a solver's answer is a model of the formula, and what it shows of the program through the map.

ghost use Rattle.std.specs.Prelude.{◌≡◌, ◌<◌, ◌^◌, false, [], length, Ok, IfOk, IfErr};
ghost use Rattle.asp_base.specs.Faults.{Refuses};
ghost use Rattle.clause_store.specs.Assigned.{true_in};
ghost use Rattle.dimacs_format.specs.Read.{formula_of};
ghost use Rattle.symbol_map.specs.Read.{map_of};
ghost use Rattle.back_map.specs.Read.{Answered, Answers, answer_of};
ghost use Rattle.asp_tools.specs.BackAnswers.{BackAnswers, OfFormula, OfMap, OfAnswer};
ghost use Rattle.asp_tools.specs.Calls.{says_of};
ghost use Rattle.asp_tools.specs.Sayings.{no_model_text};
ghost use Rattle.asp_tools.specs.private.OnValues.{OnValues};
ghost use Rattle.asp_tools.specs.private.Replying.{Replying};

use crate::answer::Answer;
use crate::outcome::{Kind, Why};
use crate::replies::{refused, saying};
use crate::sayings::{accepted_text, no_model_text, rejected_clause_text, rejected_cycle_text};
use asp_base::{ByteList, Memory, VecList};
use back_map::{AnswerRefusal, Judged, back as judge, read_answer};
use clause_store::{Assignment, Formula};
use dimacs_format::FormulaRefusal;
use job_shell::Reply;
use std::alloc::Global;
use symbol_map::{MapRefusal, SymbolMap};

/// The reply to the texts of a formula, a map and an answer.
pub(crate) fn reply(alloc: Global, texts: VecList<ByteList>) -> Result<Reply<Answer>, Memory>
    requires count { length texts ≡ 3 }
    ensures answers { IfOk result (λ r. BackAnswers texts r.answer r.made r.said) }
    ensures made { IfOk result (λ r. r.made ≡ []) }
    ensures said { IfOk result (λ r. says_of r.answer ≡ false → r.said ≡ []) }
{
    let mut texts = texts.into_vec();
    match (texts.pop(), texts.pop(), texts.pop()) {
        (Some(answer), Some(map), Some(formula)) => reply_to(alloc, formula, map, answer),
        // There are three.
        _ => Err(Memory),
    }
}

/// The reply to the three texts.
fn reply_to(
    alloc: Global,
    formula: ByteList,
    map: ByteList,
    answer: ByteList,
) -> Result<Reply<Answer>, Memory>
    ensures { IfOk result (λ r. Replying (OfFormula (formula_of formula) map answer)
        r.answer r.made r.said) }
{
    match formula_in(alloc, formula) {
        Ok(formula) => reply_through(alloc, &formula, map, answer),
        Err(FormulaRefusal::At { line, kind }) => Ok(refused(alloc, 1, line, Kind::Formula(kind))),
        Err(FormulaRefusal::Memory) => Err(Memory),
    }
}

/// The formula of a text, which is let go.
fn formula_in(alloc: Global, text: ByteList) -> Result<Formula, FormulaRefusal>
    ensures formula { IfOk result (λ formula. formula_of text ≡ Ok formula) }
    ensures few { IfOk result (λ formula. formula.vars < 2 ^ 31) }
    ensures fault { IfErr result (λ refusal. Refuses (formula_of text) refusal) }
{
    dimacs_format::read(alloc, text.as_slice())
}

/// The reply to an answer to the formula, through the map of a text.
fn reply_through(
    alloc: Global,
    formula: &Formula,
    map: ByteList,
    answer: ByteList,
) -> Result<Reply<Answer>, Memory>
    requires few { formula.now.vars < 2 ^ 31 }
    ensures { IfOk result (λ r. Replying (OfMap formula.now (map_of map) answer)
        r.answer r.made r.said) }
{
    let map = match map_in(alloc, map) {
        Ok(map) => map,
        Err(MapRefusal::At { line, kind }) => {
            return Ok(refused(alloc, 2, line, Kind::Map(kind)));
        }
        Err(MapRefusal::Memory) => return Err(Memory),
    };
    if formula.vars != map.vars {
        let kind = Kind::Mismatch {
            formula_vars: formula.vars,
            map_vars: map.vars,
        };
        return Ok(refused(alloc, 2, 0, kind));
    }
    reply_over(alloc, formula, &map, answer)
}

/// The map of a text, which is let go.
fn map_in(alloc: Global, text: ByteList) -> Result<SymbolMap, MapRefusal>
    ensures map { IfOk result (λ m. map_of text ≡ Ok m) }
    ensures fault { IfErr result (λ refusal. Refuses (map_of text) refusal) }
{
    symbol_map::read(alloc, text.as_slice())
}

/// The reply to an answer to the formula, through a map of as many variables.
fn reply_over(
    alloc: Global,
    formula: &Formula,
    map: &SymbolMap,
    answer: ByteList,
) -> Result<Reply<Answer>, Memory>
    requires few { formula.now.vars < 2 ^ 31 }
    requires same { formula.now.vars ≡ map.now.vars }
    ensures { IfOk result (λ r. Replying (OfAnswer formula.now map.now (answer_of answer formula.now.vars))
        r.answer r.made r.said) }
{
    match answer_in(alloc, answer, formula.vars) {
        Ok(back_map::Answer::Values(values)) => judgement(alloc, formula, map, &values),
        Ok(back_map::Answer::NoModel | back_map::Answer::Unknown) => no_model(alloc),
        Err(AnswerRefusal::At { line, kind }) => Ok(refused(alloc, 3, line, Kind::Answer(kind))),
        Err(AnswerRefusal::Memory) => Err(Memory),
    }
}

/// The answer of a text to a formula of so many variables. The text is let go.
fn answer_in(alloc: Global, text: ByteList, vars: u32) -> Result<back_map::Answer, AnswerRefusal>
    requires { vars < 2 ^ 31 }
    ensures answer { IfOk result (λ a. (x : Answered) × ((answer_of text vars ≡ Ok x) × Answers x vars a)) }
    ensures fault { IfErr result (λ refusal. Refuses (answer_of text vars) refusal) }
{
    read_answer(alloc, text.as_slice(), vars)
}

/// The reply to values for the variables of the formula, which the map has too.
fn judgement(
    alloc: Global,
    formula: &Formula,
    map: &SymbolMap,
    values: &Assignment,
) -> Result<Reply<Answer>, Memory>
    requires vars { length values.now ≡ formula.now.vars }
    ensures { IfOk result (λ r. Replying (OnValues formula.now map.now (true_in values.now))
        r.answer r.made r.said) }
{
    match judge(alloc, formula, map, values) {
        Ok(Judged::Accepted(seen)) => {
            Ok(saying(alloc, Answer::Done, accepted_text(alloc, &seen)?))
        }
        Ok(Judged::FalseClause(place)) => Ok(saying(
            alloc,
            Answer::Rejected(Why::Clause(place)),
            rejected_clause_text(alloc, place)?,
        )),
        Ok(Judged::Cycle(walk)) => {
            let said = rejected_cycle_text(alloc, &walk)?;
            Ok(saying(alloc, Answer::Rejected(Why::Cycle(walk)), said))
        }
        // It is want of memory, since the numbers of variables are the same.
        Err(_) => Err(Memory),
    }
}

/// The reply to an answer without values.
fn no_model(alloc: Global) -> Result<Reply<Answer>, Memory>
    ensures answer { IfOk result (λ r. r.answer ≡ Answer.NoModelGiven) }
    ensures made { IfOk result (λ r. r.made ≡ []) }
    ensures said { IfOk result (λ r. r.said ≡ no_model_text) }
{
    Ok(saying(alloc, Answer::NoModelGiven, no_model_text(alloc)?))
}
