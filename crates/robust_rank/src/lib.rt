//! Ranks by stages (a ranking function, by backward reachability, with a memoryless strategy that lowers it at every
//! corner), and the rate of choices (the least probability with which it does).
#![tactic(auto)]

mod in_order;
mod laws;
mod marks;
mod ranking;
mod rates;
mod rows;

pub use laws::ranks_go_by_stages;
pub use ranking::attract;
pub use rates::rate;
