//! What rules and edges of names are written with.

use crate::numbers::Numbers;
use crate::setting::Setting;
use std::alloc::Global;

/// A program with its components, and the atoms of new names.
#[derive(Drop)]
pub(crate) struct Writer<'a> {
    pub(crate) alloc: Global,
    pub(crate) setting: &'a Setting<'a>,
    pub(crate) numbers: &'a Numbers,
}
