//! Texts of each form, with their faults and what is written of them, over tables that are gone through alike.

mod answer_texts;
mod aspif_faults;
mod aspif_texts;
mod atom_texts;
mod formula_texts;
mod map_texts;
mod smodels_faults;
mod smodels_texts;
mod tables;
