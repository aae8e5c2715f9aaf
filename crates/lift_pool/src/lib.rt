//! Lanes of words in one block of memory (an arena), for code that must not run out of memory half way.
#![tactic(auto)]

mod laws;
mod pool;

pub use laws::{lanes_have_shapes, lanes_stand_alone};
pub use pool::Pool;
