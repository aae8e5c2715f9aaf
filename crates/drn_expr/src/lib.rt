//! Values (expressions over the parameters): what they mean, and their expansion into a polynomial over one
//! denominator.
#![tactic(auto)]

mod error;
mod laws;
mod parse;
mod rat_poly;
mod value;

pub use error::ExprError;
pub use laws::readings_follow;
pub use rat_poly::RatPoly;
pub use value::read_value;
