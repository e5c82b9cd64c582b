//! The number that is one less, in binary digits: digit by digit from the least one, with a borrow that goes on from
//! digits that are 0 (T. Janhunen and I. Niemelä, Compact translations of non-disjunctive answer set programs to
//! propositional clauses, 2011). A digit costs two gates, the least one none, and the greatest one only the first.

ghost use Rattle.std.specs.Prelude.{◌≡◌, ◌+◌, ◌*◌, ◌<◌, ◌^◌, length, [], ◌∷◌, IfOk, OnOk, OnErr};
ghost use Rattle.std.specs.List.{AllByRecursion};
ghost use Rattle.asp_base.specs.Literal.{negation};
ghost use Rattle.gate_tables.specs.Tables.{and2_rows};
ghost use Rattle.clause_store.specs.Extension.{Extends};
ghost use Rattle.clause_store.specs.Facts.{IsOver};
ghost use Rattle.clause_store.specs.Gates.{after_gate};
ghost use Rattle.digit_gates.specs.DigitGates.{output, after_digit, after_predecessor, predecessor_digits, IsPredecessor};

use asp_base::{Lit, Memory};
use clause_store::Store;
use gate_tables::{and2, xor2};
use ground_program::LitList;

/// The digit where `digit` and `borrow` differ.
fn digit_less(store: &mut Store, digit: Lit, borrow: Lit) -> Result<Lit, Memory>
    requires digit { IsOver store.old.vars digit }
    requires borrow { IsOver store.old.vars borrow }
    requires room { store.old.vars + 1 < 2 ^ 31 }
    ensures digit { IfOk result (λ p. p ≡ output store.old) }
    ensures store { OnOk result (store.new ≡ after_digit borrow digit [] store.old) }
    ensures err { OnErr result (store.new ≡ store.old) }
{
    store.gate(&xor2(), [digit, borrow])
}

/// The borrow that goes on from a digit.
fn borrow_on(store: &mut Store, digit: Lit, borrow: Lit) -> Result<Lit, Memory>
    requires digit { IsOver store.old.vars digit }
    requires borrow { IsOver store.old.vars borrow }
    requires room { store.old.vars + 1 < 2 ^ 31 }
    ensures borrow { IfOk result (λ c. c ≡ output store.old) }
    ensures store { OnOk result (store.new ≡ after_gate and2_rows (borrow ∷ negation digit ∷ []) store.old) }
    ensures err { OnErr result (store.new ≡ store.old) }
{
    store.gate(&and2(), [borrow, digit.negate()])
}

/// Digits whose number is that of `x` less 1, modulo 2^w for w digits, least digit first. After `Memory` the store may
/// hold some of the gates.
pub fn predecessor(store: &mut Store, x: &LitList) -> Result<LitList, Memory>
    requires some { 0 < length x.now }
    requires over { AllByRecursion (IsOver store.old.vars) x.now }
    requires room { store.old.vars + 2 * length x.now < 2 ^ 31 }
    ensures digits { IfOk result (λ p. p ≡ predecessor_digits x.now store.old) }
    ensures store { OnOk result (store.new ≡ after_predecessor x.now store.old) }
    ensures is { IfOk result (λ p. IsPredecessor x.now p store.old store.new) }
    ensures err { OnErr result (Extends store.old store.new) }
{
    store.known();
    let digits = x.as_slice();
    let mut borrow = digits[0].negate();
    let mut made = LitList::new(store.allocator());
    made.push(borrow)?;
    for i in 1..digits.len() {
        let digit = digits[i];
        made.push(digit_less(store, digit, borrow)?)?;
        if i + 1 < digits.len() {
            borrow = borrow_on(store, digit, borrow)?;
        }
    }
    Ok(made)
}
