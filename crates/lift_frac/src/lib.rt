//! Fractions of whole numbers, and the literals that write them.
#![tactic(auto)]

mod divisor;
mod error;
mod frac;
mod laws;
mod literal;
mod parts;
mod written;

pub use divisor::{gcd, lcm};
pub use error::FracError;
pub use frac::Frac;
pub use laws::{divisors_and_multiples, fractions_follow, literals_follow};
pub use literal::{literal_len, number_below, read_literal};
pub use written::{cut_at, read_ratio};
