//! Ground logic programs without disjunction: types, a builder, sets of atoms.
#![tactic(auto)]

mod atom_set;
mod atoms;
mod builder;
mod copies;
mod externals;
mod fresh;
mod gather;
pub mod laws;
mod levels;
mod lists;
mod measure;
mod occurring;
mod program;
mod reading;
mod rooms;
mod weights;

pub use atom_set::AtomSet;
pub use atoms::{Atoms, variable};
pub use builder::{External, ProgramBuilder};
pub use copies::{copied_edges, copied_levels, copied_shows};
pub use fresh::FreshAtoms;
pub use gather::push_rules;
pub use lists::{AtomList, CostList, ItemList, LitList};
pub use measure::size;
pub use occurring::occurring_atoms;
pub use program::{
    Body, Edge, EdgeList, Head, Level, LevelList, Program, Rule, RuleList, Show, ShowList, literals,
};
pub use reading::{ReadKind, ReadRefusal};
pub use rooms::{digits, room, term};
pub use weights::radix;
