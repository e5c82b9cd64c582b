//! Counters of what the rules lack, and the stack of the rules that lack nothing.

ghost use Rattle.std.specs.Prelude.{◌≡◌, ◌<◌, [], ◌∷◌, ◌++◌, length, OnOk, IsNone, IfSome};
ghost use Rattle.stable_check.specs.private.Growth.{comes_to_zero, take_off};

use asp_base::Memory;
use std::marker::Model;

/// What each rule lacks, and the rules that lack nothing and wait to derive their heads.
#[derive(Drop)]
pub(crate) struct Counters {
    lacks: Vec<u32>,
    ready: Vec<u32>,
}

impl Model for Counters {
    ghost use Rattle.stable_check.specs.private.Growth.{Counts};

    ghost Value = { Counts };

    ghost view = { λ c. record { lacks = c.lacks.items; ready = c.ready.items } };
}

/// Whether it was more than nothing, and is nothing now.
fn comes_to_zero(before: u32, after: u32) -> bool
    ensures { result ≡ comes_to_zero before after }
{
    before > 0 && after == 0
}

impl Counters {
    pub(crate) fn new(lacks: Vec<u32>, ready: Vec<u32>) -> Counters
        ensures { result ≡ record { lacks = lacks.items; ready = ready.items } }
    {
        Counters { lacks, ready }
    }

    /// Takes off a weight from what a rule lacks.
    pub(crate) fn take_off(&mut self, rule: u32, weight: u32) -> Result<(), Memory>
        requires { rule < length self.old.lacks }
        ensures { OnOk result (self.new ≡ take_off (rule, weight) self.old) }
    {
        let before = self.lacks[rule as usize];
        let after = before.saturating_sub(weight);
        self.lacks[rule as usize] = after;
        if comes_to_zero(before, after) {
            self.ready.push(rule)?;
        }
        Ok(())
    }

    /// Takes a rule from those that are ready.
    pub(crate) fn next_ready(&mut self) -> Option<u32>
        ensures none { IsNone result → (self.old.ready ≡ []) × (self.new ≡ self.old) }
        ensures some { IfSome result (λ rule. (self.old.ready ≡ self.new.ready ++ (rule ∷ []))
            × (self.new.lacks ≡ self.old.lacks)) }
    {
        self.ready.pop()
    }
}
