//! A map that grows entry by entry. What is true of every map need not be known before the last one.

ghost use Rattle.std.specs.Prelude.{◌≡◌, OnOk};
ghost use Rattle.symbol_map.specs.private.EntryFacts.{put};
ghost use Rattle.symbol_map.specs.IsMap.{IsMap};
ghost use Rattle.symbol_map.specs.Read.{empty_map};

use crate::entry::Entry;
use crate::map::{Form, PlaceList, SymbolMap};
use asp_base::Memory;
use ground_program::{LevelList, ShowList};
use std::alloc::Global;
use std::marker::Model;

/// What the lines of a map have given so far.
#[derive(Drop)]
pub(crate) struct Draft {
    form: Form,
    vars: u32,
    atoms: PlaceList,
    shows: ShowList,
    levels: LevelList,
}

impl Model for Draft {
    ghost use Rattle.symbol_map.specs.Symbols.{Symbols};
    ghost use Rattle.symbol_map.specs.private.InsideDraft.{drafted};

    ghost Value = { Symbols };

    ghost view = { drafted };
}

impl Draft {
    /// A map of this header and no line.
    pub(crate) fn new(alloc: Global, form: Form, vars: u32) -> Draft
        ensures { result ≡ empty_map form vars }
    {
        Draft {
            form,
            vars,
            atoms: PlaceList::new(alloc),
            shows: ShowList::new(alloc),
            levels: LevelList::new(alloc),
        }
    }

    /// Puts an entry behind the others.
    pub(crate) fn push(&mut self, entry: Entry) -> Result<(), Memory>
        ensures { OnOk result (self.new ≡ put entry self.old) }
    {
        match entry {
            Entry::Atom(place) => self.atoms.push(place),
            Entry::Shown(show) => self.shows.push(show),
            Entry::Leveled(level) => self.levels.push(level),
        }
    }

    /// The map.
    pub(crate) fn into_map(self) -> SymbolMap
        requires { IsMap self }
        ensures { result ≡ self }
    {
        SymbolMap {
            form: self.form,
            vars: self.vars,
            atoms: self.atoms,
            shows: self.shows,
            levels: self.levels,
        }
    }
}
