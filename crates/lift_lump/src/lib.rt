//! Lumping of chains (bisimulation minimization): states of equal behaviour are taken together, and the quotient stands
//! for the chain.
#![tactic(auto)]

mod arrows;
mod chain;
mod coarsest;
mod compared;
mod error;
mod gather;
mod laws;
mod lists;
mod marks;
mod numbered;
mod partition;
mod small;
mod split;
mod sums;
mod texts;
mod touch;

pub use arrows::Arrow;
pub use chain::{Lumped, lump};
pub use error::LumpError;
pub use laws::{coarsest_is_one, quotients_are_cases, quotients_are_models, quotients_hold};
pub use touch::Touched;
