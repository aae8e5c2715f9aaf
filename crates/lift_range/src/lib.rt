//! Ranges of precisions (of fixed-point numbers): what certificates at one precision say of those at others.
#![tactic(auto)]

mod laws;

pub use laws::{certificates_double, precisions_agree, vectors_double};
