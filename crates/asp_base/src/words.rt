//! The words of a command line.

ghost use Rattle.std.specs.Prelude.{◌≡◌, ℕ, ◌+◌, ◌-◌, ◌<◌, ◌≤◌, ◌⊎◌, ◌↔◌, List, [], ◌∷◌, ◌++◌, length, drop, slice_get, OnOk, OnErr, IsNone, IfSome, Some};

use crate::faults::Memory;
use std::alloc::Global;
use std::marker::Model;

/// The words of a command line, in their order. Contracts see it as the list of their bytes.
#[derive(Drop)]
pub struct Words {
    alloc: Global,
    words: Vec<String>,
}

impl Model for Words {
    ghost use Rattle.std.specs.Prelude.{List, ℕ, map};
    ghost use Rattle.std.specs.String.{string_bytes};

    ghost Value = { List (List ℕ) };

    ghost view = { λ w. map string_bytes w.words.items };
}

impl Words {
    /// No words. Their memory will come from `alloc`.
    pub fn new(alloc: Global) -> Words
        ensures { result ≡ [] }
    {
        Words {
            alloc,
            words: Vec::new(alloc),
        }
    }

    /// Appends a copy of the word. `Memory` where it finds no memory; the list is then unchanged.
    pub fn push(&mut self, word: &str) -> Result<(), Memory>
        ensures ok { OnOk result (self.new ≡ self.old ++ word.now ∷ []) }
        ensures err { OnErr result (self.new ≡ self.old) }
    {
        let copy = String::from_str(self.alloc, word)?;
        self.words.push(copy)?;
        Ok(())
    }

    /// The number of words.
    pub fn count(&self) -> u64
        ensures { result ≡ length self.now }
    {
        self.words.len() as u64
    }

    /// The i-th word, counted from 1. None exactly where `i` is 0 or above the number of words.
    pub fn word(&self, i: u64) -> Option<&str>
        ensures none { IsNone result ↔ ((i ≡ 0) ⊎ (length self.now < i)) }
        ensures word { IfSome result (λ word. slice_get self.now (i - 1) ≡ Some word.now) }
        // The words from this one on begin with it.
        ensures rest { IfSome result (λ word. drop (i - 1) self.now ≡ word.now ∷ drop i self.now) }
    {
        if i == 0 || i > self.words.len() as u64 {
            return None;
        }
        Some(self.words[i as usize - 1].as_str())
    }
}
