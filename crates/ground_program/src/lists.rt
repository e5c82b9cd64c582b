//! Lists of literals, atoms, items and costs.

ghost use Rattle.std.specs.Prelude.{◌≡◌, ◌↔◌, [], ◌∷◌, ◌++◌, length, IsTrue, IfOk, OnOk, OnErr};

use asp_base::{Lit, Memory, VecList};
use smallvec::SmallVec;
use std::alloc::Global;
use std::marker::Model;

/// Literals. Up to four of them lie in place.
#[derive(Drop)]
pub struct LitList {
    items: SmallVec<Lit, 4>,
}

impl Model for LitList {
    ghost use Rattle.std.specs.Prelude.{List};
    ghost use Rattle.asp_base.specs.Literal.{Literal};

    ghost Value = { List Literal };

    ghost view = { λ l. l.items.items };
}

impl LitList {
    /// No literals.
    pub fn new(alloc: Global) -> LitList
        ensures { result ≡ [] }
    {
        LitList {
            items: SmallVec::new(alloc),
        }
    }

    /// The given literals.
    pub fn from_slice(alloc: Global, lits: &[Lit]) -> Result<LitList, Memory>
        ensures { IfOk result (λ list. list ≡ lits.now) }
    {
        Ok(LitList {
            items: SmallVec::from_slice(alloc, lits)?,
        })
    }

    /// Puts a literal behind the others. After `Memory` the list is unchanged.
    pub fn push(&mut self, lit: Lit) -> Result<(), Memory>
        ensures ok { OnOk result (self.new ≡ self.old ++ (lit ∷ [])) }
        ensures err { OnErr result (self.new ≡ self.old) }
    {
        match self.items.push(lit) {
            Ok(()) => Ok(()),
            Err(_) => Err(Memory),
        }
    }

    pub fn len(&self) -> usize
        ensures { result ≡ length self.now }
    {
        self.items.len()
    }

    pub fn is_empty(&self) -> bool
        ensures { IsTrue result ↔ (self.now ≡ []) }
    {
        self.items.is_empty()
    }

    pub fn as_slice(&self) -> &[Lit]
        ensures { result.now ≡ self.now }
    {
        self.items.as_slice()
    }
}

/// Atoms.
pub type AtomList = VecList<u32>;

/// Literals with weights.
pub type ItemList = VecList<(Lit, i64)>;

/// Costs.
pub type CostList = VecList<i128>;
