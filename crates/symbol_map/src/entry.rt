//! The lines of a map behind its header, and the order in which they stand.

ghost use Rattle.std.specs.Prelude.{◌≡◌};
ghost use Rattle.symbol_map.specs.Read.{is_next, stage_of};

use crate::map::Place;
use ground_program::{Level, Show};

/// A line of a map behind its header.
#[derive(Drop)]
pub(crate) enum Entry {
    Atom(Place),
    Shown(Show),
    Leveled(Level),
}

/// How far the lines have come: the last atom, or shows, or the last priority.
#[derive(Clone, Copy)]
pub(crate) enum Stage {
    Atoms(u32),
    Shows,
    Levels(i32),
}

impl Stage {
    /// The stage that an entry brings.
    pub(crate) fn of(entry: &Entry) -> Stage
        ensures { result ≡ stage_of entry.now }
    {
        match entry {
            Entry::Atom(place) => Stage::Atoms(place.atom),
            Entry::Shown(_) => Stage::Shows,
            Entry::Leveled(level) => Stage::Levels(level.priority),
        }
    }

    /// Whether the entry may follow: atoms rise, then come shows, then levels whose priorities fall.
    pub(crate) fn admits(self, entry: &Entry) -> bool
        ensures { result ≡ is_next self entry.now }
    {
        match entry {
            Entry::Atom(place) => match self {
                Stage::Atoms(last) => last < place.atom,
                Stage::Shows => false,
                Stage::Levels(_) => false,
            },
            Entry::Shown(_) => match self {
                Stage::Levels(_) => false,
                _ => true,
            },
            Entry::Leveled(level) => match self {
                Stage::Levels(last) => level.priority < last,
                _ => true,
            },
        }
    }
}
