//! Maps: which literals of a formula stand for the atoms of a program, and its shows and levels over the formula's
//! variables.

use asp_base::{Lit, VecList};
use ground_program::{LevelList, ShowList};
use std::marker::Model;

/// The form of a formula's text.
#[derive(Clone, Copy, Debug, PartialEq, Eq)]
pub enum Form {
    Cnf,
    Ecnf,
    Wcnf,
}

/// An atom with the literal that is true where it is.
#[derive(Clone, Copy, Debug)]
pub struct Place {
    pub atom: u32,
    pub lit: Lit,
}

/// Places.
pub type PlaceList = VecList<Place>;

/// What the variables of a formula mean for a program: the literals of its shows and levels are the formula's.
/// Each literal's variable is from 1 to `vars`, at most 2^31 - 1; atoms rise; priorities have 32 bits and fall; each
/// condition and level has at most 2^24 entries; no name has a line feed.
#[derive(Drop)]
pub struct SymbolMap {
    pub form: Form,
    pub vars: u32,
    pub atoms: PlaceList,
    pub shows: ShowList,
    pub levels: LevelList,
}

impl Model for SymbolMap {
    ghost use Rattle.symbol_map.specs.Symbols.{Symbols};
    ghost use Rattle.symbol_map.specs.private.Inside.{symbols_of};
    ghost use Rattle.symbol_map.specs.IsMap.{IsMap};

    ghost Value = { Symbols };

    ghost view = { symbols_of };

    ghost invariant = { λ m. IsMap (symbols_of m) };
}
