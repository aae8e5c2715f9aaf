//! Guesses of what the states of a component are worth, in floats (for optimistic value iteration: by state
//! elimination, or by sweeps of value iteration). Nothing is proved of a guess but that its numbers are in range and
//! that it changes no other state's.
#![tactic(auto)]

mod eliminate;
mod floats;
mod guess;
mod krylov;
mod notes;
mod part;
mod policy;
mod reward;
mod rule;
mod sparse;
mod step;
mod sweep;
mod visited;

pub use guess::{Method, Rounding, guess_part, note_roundings};
pub use notes::{Note, lessen_share, make_shares_whole};
pub use reward::Rewards;
pub use rule::{Ends, Extreme, Rule};
pub use visited::{Among, HELD_STATES, most_visited, worth_by};
