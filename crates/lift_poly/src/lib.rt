//! Polynomials that are affine in each parameter (multilinear): what they are and weigh, their arithmetic, the integers
//! as an ordered ring.
#![tactic(auto)]

mod error;
mod laws;
mod multi_affine;
mod terms;

pub use error::PolyError;
pub use laws::{coefficients_determine, coefficients_follow, weights_follow};
pub use multi_affine::MultiAffine;
