//! The fields of statements: counts, atoms, literals, weights, priorities, names. Each is read from what is left of the
//! present line of a scan, and fully checked before the next one; each is written behind a blank.
#![tactic(auto)]

mod fault;
mod lists;
mod names;
mod parts;
mod push;
mod single;

pub use fault::FieldFault;
pub use lists::{atoms, body_items, level_items, literals, many_atoms};
pub use names::name;
pub use parts::{ended_text, plain_head};
pub use push::{push_atoms, push_count, push_field, push_items, push_literals};
pub use single::{
    atom, atom_from, body_weight, choice, count, ended, literal, name_length, not_negative, number,
    small, weight, word,
};
