//! Collapsed models (qualitative precomputation, Prob0 and Prob1, and the quotient by what surely leads there): what is
//! found on fewer states, and read at the places of all.
#![tactic(auto)]

mod build;
mod collapse;
mod collapsed;
mod holds;
mod lanes;
mod laws;
mod search;
mod sought;

pub use collapse::Collapse;
pub use laws::collapses_spread;
pub use sought::Sought;
