//! The translation of programs to formulas: from a program to its formula and its map.
#![tactic(auto)]

pub mod laws;
mod mapping;
mod softened;
mod translation;

pub use mapping::{in_form, input_map, literals_over};
pub use softened::{SoftRefusal, translate_soft};
pub use translation::{TranslateRefusal, Translation, translate};
