//! A vector that contracts see as the list of its items.

ghost use Rattle.std.specs.Prelude.{◌≡◌, ◌↔◌, List, [], ◌∷◌, ◌++◌, length, IsTrue, OnOk, OnErr};

use crate::faults::Memory;
use std::alloc::Global;
use std::marker::Model;

/// A vector. Contracts see it as the list of its items.
#[derive(Debug, Drop)]
pub struct VecList<T> {
    items: Vec<T>,
}

impl<T> Model for VecList<T> {
    ghost use Rattle.std.specs.Prelude.{List};

    ghost Value = { List T };

    ghost view = { λ l. l.items.items };
}

impl<T> VecList<T> {
    /// No items.
    pub fn new(alloc: Global) -> VecList<T>
        ensures { result ≡ [] }
    {
        VecList {
            items: Vec::new(alloc),
        }
    }

    /// The list of these items, which keeps their memory.
    pub fn from_vec(items: Vec<T>) -> VecList<T>
        ensures { result ≡ items.items }
    {
        VecList { items }
    }

    /// The items as a vector, not copied.
    pub fn into_vec(self) -> Vec<T>
        ensures { result.items ≡ self }
    {
        self.items
    }

    /// The items, lent.
    pub fn as_slice(&self) -> &[T]
        ensures { result.now ≡ self.now }
    {
        self.items.as_slice()
    }
}

impl<T: Drop> VecList<T> {
    /// Puts an item behind the others. After `Memory` the list is unchanged.
    pub fn push(&mut self, item: T) -> Result<(), Memory>
        ensures ok { OnOk result (self.new ≡ self.old ++ item ∷ []) }
        ensures err { OnErr result (self.new ≡ self.old) }
    {
        match self.items.push(item) {
            Ok(()) => Ok(()),
            Err(_) => Err(Memory),
        }
    }
}

impl<T: Copy> VecList<T> {
    /// Puts copies of further items behind these. After `Memory` the list is unchanged.
    pub fn append(&mut self, items: &[T]) -> Result<(), Memory>
        ensures ok { OnOk result (self.new ≡ self.old ++ items.now) }
        ensures err { OnErr result (self.new ≡ self.old) }
    {
        match self.items.extend_from_slice(items) {
            Ok(()) => Ok(()),
            Err(_) => Err(Memory),
        }
    }
}

/// A list of bytes.
pub type ByteList = VecList<u8>;

/// A walk in a graph: the nodes in their order.
pub type Walk = VecList<i32>;
