//! The levels of a program as soft clauses of one formula: the scale by which they join in one sum, the clauses, and
//! what they cost.
#![tactic(auto)]

mod laws;
mod least_costs;
mod scale;
mod softening;

pub use laws::{
    scale_is_of_weights_alone, scale_passes_where_it_first_has_more_bits,
    soft_clauses_cost_what_levels_cost,
};
pub use scale::{Scale, ScaleRefusal};
pub use softening::soften;
