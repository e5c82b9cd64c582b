//! Lines, tokens and numerals of a borrowed text, and decimal texts.
#![tactic(auto)]

mod bytes;
mod laws;
mod numeral;
mod push;
mod scan;

pub use laws::{
    lines_are_read_back, names_are_read_back, numbers_are_read_back, words_are_read_back,
};
pub use push::push_number;
pub use scan::{Scan, ScanFault};
