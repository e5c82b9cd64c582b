//! Maps from the variables of a formula to the atoms of a program: their text, what an assignment says through them,
//! and what it means that a formula with its map stands for a program.
#![tactic(auto)]

mod draft;
mod entry;
mod fields;
mod header;
mod kind;
mod laws;
mod line;
mod map;
mod reading;
mod text;
mod values;

pub use kind::{MapKind, MapRefusal};
pub use laws::{
    cut_map_has_places_of_its_atoms, faithful_maps_compose, joined_costs_are_of_weights_alone,
    maps_are_read_back, soft_clauses_keep_formula_faithful,
};
pub use map::{Form, Place, PlaceList, SymbolMap};
pub use reading::read;
pub use text::write;
