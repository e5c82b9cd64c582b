//! What a job does with its texts.

ghost use Rattle.std.specs.Prelude.{◌≡◌, ◌≤◌, ◌^◌, ℕ, Bool, false, List, [], length, IfOk, if◌then◌else◌};
ghost use Rattle.std.specs.List.{AllByRecursion};

use crate::output::Output;
use asp_base::{ByteList, Memory, VecList};
use std::alloc::Global;

/// What a command replies to its texts.
#[derive(Debug, Drop)]
pub struct Reply<A> {
    pub answer: A,
    /// The texts that are made, in the order of the names that are written.
    pub made: VecList<Output>,
    /// The text that is said.
    pub said: ByteList,
}

/// A function of some texts, each of at most 2^30 bytes.
pub trait Command {
    type Answer: Drop;

    /// The command's theorem: which answer the texts call for, which texts are made with it, in their order, and what
    /// is said.
    ghost answers: { Self → List (List ℕ) → Self.Answer → List (List ℕ) → List ℕ → Type 0 };

    /// Whether texts are made with an answer.
    ghost makes: { Self → Self.Answer → Bool };

    /// Whether something is said with an answer.
    ghost says: { Self → Self.Answer → Bool };

    /// The number of texts that are read.
    ghost inputs: { Self → ℕ };

    /// The number of texts that are made with an answer with which texts are made.
    ghost outputs: { Self → ℕ };

    /// The reply to the texts.
    fn reply(&self, alloc: Global, texts: VecList<ByteList>) -> Result<Reply<Self::Answer>, Memory>
        requires count { length texts ≡ inputs self.now }
        requires within { AllByRecursion (λ text. length text ≤ 2 ^ 30) texts }
        ensures answers { IfOk result (λ r. answers self.now texts r.answer r.made r.said) }
        ensures made { IfOk result (λ r. length r.made ≡ (if makes self.now r.answer then outputs self.now else 0)) }
        ensures said { IfOk result (λ r. says self.now r.answer ≡ false → r.said ≡ []) };
}
