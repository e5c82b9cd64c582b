//! Names, each once, in the order in which they first came.

ghost use Rattle.std.specs.Prelude.{◌≡◌, [], map, IfOk, OnOk};
ghost use Rattle.evaluation.specs.private.Names.{put_name};

use crate::seen::NameList;
use asp_base::{ByteList, Memory};
use indexmap::IndexSet;
use std::alloc::Global;
use std::marker::Model;

/// Lent names, each once, in the order in which they first came. Contracts see them as a list of byte lists.
#[derive(Drop)]
pub(crate) struct NameSet<'a> {
    names: IndexSet<&'a [u8]>,
}

impl<'a> Model for NameSet<'a> {
    ghost use Rattle.std.specs.Prelude.{List, ℕ, map};

    ghost Value = { List (List ℕ) };

    ghost view = { λ s. map (λ name. name.now) s.names.keys };
}

impl<'a> NameSet<'a> {
    /// No names.
    pub(crate) fn new(alloc: Global) -> NameSet<'a>
        ensures { result ≡ [] }
    {
        NameSet {
            names: IndexSet::new(alloc),
        }
    }

    /// Puts a name behind the others, unless it is among them.
    pub(crate) fn insert(&mut self, name: &'a [u8]) -> Result<(), Memory>
        ensures { OnOk result (self.new ≡ put_name self.old name.now) }
    {
        self.names.insert(name)?;
        Ok(())
    }

    /// The names, copied.
    pub(crate) fn copies(&self, alloc: Global) -> Result<NameList, Memory>
        ensures { IfOk result (λ list. list ≡ self.now) }
    {
        copies(alloc, self.names.as_slice())
    }
}

/// Names of their own.
fn copies(alloc: Global, names: &[&[u8]]) -> Result<NameList, Memory>
    ensures { IfOk result (λ list. list ≡ map (λ name. name.now) names.now) }
{
    let mut list = Vec::new(alloc);
    for name in names {
        list.push(ByteList::from_vec(Vec::from_slice(alloc, *name)?))?;
    }
    Ok(NameList::from_vec(list))
}
