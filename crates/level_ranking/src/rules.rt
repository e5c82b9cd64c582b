//! The clauses of an atom's rank, rule by rule: one of its rules supports it, with atoms of its component of smaller
//! rank, and no rule would do with a smaller rank. The atom's rank less 1 is made once, as each comparison is with it.

ghost use Rattle.std.specs.Prelude.{◌≡◌, ◌+◌, ◌*◌, ◌<◌, ◌≤◌, ◌-◌, ◌^◌, ◌++◌, ◌∷◌, [], map, drop, length, IfOk, OnOk};
ghost use Rattle.asp_base.specs.Literal.{negation};
ghost use Rattle.level_ranking.specs.Encoding.{body_list, negated_body, after_compared, support_inputs, support, after_support, supports_in, after_supports, after_supported, after_near, after_nears, after_atom};
ghost use Rattle.clause_store.specs.Stored.{with_clauses};
ghost use Rattle.std.specs.List.{AllByRecursion, list_any};
ghost use Rattle.clause_store.specs.Facts.{IsOver};
ghost use Rattle.digit_gates.specs.DigitGates.{less_vars};
ghost use Rattle.level_ranking.specs.private.Counts.{support_vars, near_vars, atom_vars};
ghost use Rattle.completion.specs.Completion.{is_empty};
ghost use Rattle.level_ranking.specs.private.Pairs.{paired, digits_in, CanSupport, CanRank};
ghost use Rattle.level_ranking.specs.declared.comparisons.First.TheVariants.{Own};

use crate::comparisons::{First, push_not_below};
use asp_base::{Lit, Memory};
use clause_store::Store;
use digit_gates::predecessor;
use ground_program::LitList;
use std::alloc::Global;
use std::marker::Model;

/// A rule of an atom: the literal of its body, none where it is empty, and the places of the body's positive atoms in
/// the component, each once.
#[derive(Drop)]
pub(crate) struct RankedRule {
    pub(crate) body: Option<Lit>,
    pub(crate) inside: Vec<usize>,
}

impl Model for RankedRule {
    ghost use Rattle.level_ranking.specs.Encoding.{Row};

    ghost Value = { Row };

    ghost view = { λ r. record { body = r.body; inside = r.inside.items } };
}

/// Puts the literals of a rule's support into the buffer: its body's, and one for each of its atoms inside, which says
/// that the atom's number is at most `lower`.
fn put_support(
    store: &mut Store,
    lower: &LitList,
    digits: &[LitList],
    rule: &RankedRule,
    inputs: &mut Vec<Lit>,
) -> Result<(), Memory>
    requires can { CanSupport store.old.vars lower.now digits.now rule.now }
    requires room { store.old.vars + less_vars (length lower.now) * length rule.now.inside < 2 ^ 31 }
    ensures inputs { OnOk result
        (inputs.new.items ≡ support_inputs lower.now (digits_in digits.now) rule.now store.old) }
    ensures store { OnOk result
        (store.new ≡ after_compared (paired Own lower.now digits.now rule.now.inside) store.old) }
{
    inputs.clear();
    if let Some(body) = rule.body {
        inputs.push(body)?;
    }
    let places = rule.inside.as_slice();
    push_not_below(store, First::Own, lower, digits, places, inputs)
}

/// The literal of a rule's support.
fn support(
    store: &mut Store,
    lower: &LitList,
    digits: &[LitList],
    rule: &RankedRule,
    inputs: &mut Vec<Lit>,
) -> Result<Lit, Memory>
    requires can { CanSupport store.old.vars lower.now digits.now rule.now }
    requires room { store.old.vars + less_vars (length lower.now) * length rule.now.inside + 1 < 2 ^ 31 }
    ensures literal { IfOk result (λ l. l ≡ support lower.now (digits_in digits.now) rule.now store.old) }
    ensures store { OnOk result (store.new ≡ after_support lower.now (digits_in digits.now) rule.now store.old) }
    ensures over { IfOk result (λ l. IsOver store.new.vars l) }
    ensures from { OnOk result (store.old.vars ≤ store.new.vars) }
    ensures few { OnOk result
        (store.new.vars ≤ store.old.vars + less_vars (length lower.now) * length rule.now.inside + 1) }
{
    store.known();
    put_support(store, lower, digits, rule, inputs)?;
    store.known();
    let literal = store.all_of(inputs.as_slice())?;
    Ok(literal)
}

/// The literals of the supports of an atom's rules, in order.
fn push_supports(
    store: &mut Store,
    lower: &LitList,
    digits: &[LitList],
    rules: &[RankedRule],
    inputs: &mut Vec<Lit>,
    supports: &mut Vec<Lit>,
) -> Result<(), Memory>
    requires can { AllByRecursion (CanSupport store.old.vars lower.now digits.now) rules.now }
    requires room { store.old.vars + support_vars (length lower.now) rules.now < 2 ^ 31 }
    requires supports { AllByRecursion (IsOver store.old.vars) supports.old.items }
    ensures over { OnOk result (AllByRecursion (IsOver store.new.vars) supports.new.items) }
    ensures from { OnOk result (store.old.vars ≤ store.new.vars) }
    ensures few { OnOk result (store.new.vars ≤ store.old.vars + support_vars (length lower.now) rules.now) }
    ensures literals { OnOk result (supports.new.items
        ≡ supports.old.items ++ supports_in lower.now (digits_in digits.now) rules.now store.old) }
    ensures store { OnOk result (store.new ≡ after_supports lower.now (digits_in digits.now) rules.now store.old) }
{
    for rule in rules {
        let literal = support(store, lower, digits, rule, inputs)?;
        supports.push(literal)?;
    }
    Ok(())
}

/// Whether one of the rules has an empty body.
fn has_empty_body(rules: &[RankedRule]) -> bool
    ensures { result ≡ list_any (λ row. is_empty row.body) rules.now }
{
    for rule in rules {
        if rule.body.is_none() {
            return true;
        }
    }
    false
}

/// The clause that a true atom has a support, where none of its rules has an empty body.
fn add_supported(
    alloc: Global,
    store: &mut Store,
    var: u32,
    lower: &LitList,
    digits: &[LitList],
    rules: &[RankedRule],
) -> Result<(), Memory>
    requires variable { 0 < var }
    requires within { var ≤ store.old.vars }
    requires can { AllByRecursion (CanSupport store.old.vars lower.now digits.now) rules.now }
    requires room { store.old.vars + support_vars (length lower.now) rules.now < 2 ^ 31 }
    ensures store { OnOk result (store.new ≡ after_supported var lower.now (digits_in digits.now) rules.now store.old) }
    ensures from { OnOk result (store.old.vars ≤ store.new.vars) }
    ensures few { OnOk result (store.new.vars ≤ store.old.vars + support_vars (length lower.now) rules.now) }
{
    if has_empty_body(rules) {
        return Ok(());
    }
    let mut inputs = Vec::new(alloc);
    let mut clause = Vec::new(alloc);
    clause.push(Lit::positive(var).negate())?;
    push_supports(store, lower, digits, rules, &mut inputs, &mut clause)?;
    store.clause(clause.as_slice())?;
    Ok(())
}

/// Puts the negation of a body's literal into the buffer.
fn put_negated(clause: &mut Vec<Lit>, rule: &RankedRule) -> Result<(), Memory>
    ensures { OnOk result (clause.new.items ≡ negated_body rule.now.body) }
{
    clause.clear();
    if let Some(body) = rule.body {
        clause.push(body.negate())?;
    }
    Ok(())
}

/// The clauses that the digits of an atom from the second on are 0 where the body holds.
fn add_zeros(
    store: &mut Store,
    own: &LitList,
    rule: &RankedRule,
    clause: &mut Vec<Lit>,
) -> Result<(), Memory>
    requires own { AllByRecursion (IsOver store.old.vars) own.now }
    requires body { AllByRecursion (IsOver store.old.vars) (body_list rule.now.body) }
    ensures { OnOk result (store.new ≡ with_clauses
        (map (λ l. negated_body rule.now.body ++ (negation l ∷ [])) (drop 1 own.now)) store.old) }
{
    let lits = own.as_slice();
    for i in 1..lits.len() {
        let lit = lits[i];
        put_negated(clause, rule)?;
        clause.push(lit.negate())?;
        store.clause(clause.as_slice())?;
    }
    Ok(())
}

/// The clauses that no smaller number would do for the rule: where its body holds, the number of one of its atoms
/// inside is not below `lower`.
fn add_near(
    store: &mut Store,
    own: &LitList,
    lower: &LitList,
    digits: &[LitList],
    rule: &RankedRule,
    clause: &mut Vec<Lit>,
) -> Result<(), Memory>
    requires own { AllByRecursion (IsOver store.old.vars) own.now }
    requires can { CanSupport store.old.vars lower.now digits.now rule.now }
    requires room { store.old.vars + less_vars (length lower.now) * length rule.now.inside < 2 ^ 31 }
    ensures store { OnOk result (store.new
        ≡ after_near own.now lower.now (digits_in digits.now) rule.now.body rule.now.inside store.old) }
    ensures from { OnOk result (store.old.vars ≤ store.new.vars) }
    ensures few { OnOk result
        (store.new.vars ≤ store.old.vars + less_vars (length lower.now) * length rule.now.inside) }
{
    store.known();
    if rule.inside.is_empty() {
        add_zeros(store, own, rule, clause)?;
        return Ok(());
    }
    put_negated(clause, rule)?;
    let places = rule.inside.as_slice();
    push_not_below(store, First::Other, lower, digits, places, clause)?;
    store.clause(clause.as_slice())?;
    Ok(())
}

/// The same for all rules of an atom, in order.
fn add_nears(
    alloc: Global,
    store: &mut Store,
    own: &LitList,
    lower: &LitList,
    digits: &[LitList],
    rules: &[RankedRule],
) -> Result<(), Memory>
    requires own { AllByRecursion (IsOver store.old.vars) own.now }
    requires can { AllByRecursion (CanSupport store.old.vars lower.now digits.now) rules.now }
    requires room { store.old.vars + near_vars (length lower.now) rules.now < 2 ^ 31 }
    ensures store { OnOk result (store.new ≡ after_nears own.now lower.now (digits_in digits.now) rules.now store.old) }
    ensures from { OnOk result (store.old.vars ≤ store.new.vars) }
    ensures few { OnOk result (store.new.vars ≤ store.old.vars + near_vars (length lower.now) rules.now) }
{
    let mut clause = Vec::new(alloc);
    for rule in rules {
        add_near(store, own, lower, digits, rule, &mut clause)?;
    }
    Ok(())
}

/// The clauses of the rank of an atom: its variable, its digits, those of the atoms of its component, and its rules,
/// whose atoms inside are places of these.
pub(crate) fn add_atom(
    alloc: Global,
    store: &mut Store,
    var: u32,
    own: &LitList,
    digits: &[LitList],
    rules: &[RankedRule],
) -> Result<(), Memory>
    requires variable { 0 < var }
    requires within { var ≤ store.old.vars }
    requires some { 0 < length own.now }
    requires own { AllByRecursion (IsOver store.old.vars) own.now }
    requires can { AllByRecursion (CanRank store.old.vars (length own.now) digits.now) rules.now }
    requires room { store.old.vars + atom_vars (length own.now) rules.now < 2 ^ 31 }
    ensures store { OnOk result (store.new ≡ after_atom var own.now (digits_in digits.now) rules.now store.old) }
    ensures from { OnOk result (store.old.vars ≤ store.new.vars) }
    ensures few { OnOk result (store.new.vars ≤ store.old.vars + atom_vars (length own.now) rules.now) }
{
    let lower = predecessor(store, own)?;
    add_supported(alloc, store, var, &lower, digits, rules)?;
    add_nears(alloc, store, own, &lower, digits, rules)?;
    Ok(())
}
