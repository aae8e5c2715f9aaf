//! Finer grids (common denominators of a region's ends): what is said of a rectangle stays as it is where the grid's
//! number and all ends are multiplied by the same number.
#![tactic(auto)]

mod finer;
mod laws;

pub use finer::finer_region;
pub use laws::{
    admitted_rows_stay, certificates_stay, halves_stay, refined_bases_are_certified,
    regions_are_finer, vectors_stay, weights_are_homogeneous,
};
