//! Normal rules for choice rules and weight rules.
#![tactic(auto)]

mod complements;
mod given;
mod normalization;
mod work;

pub use given::{Normalized, into_normal};
pub use normalization::{NormalRefusal, normal};
