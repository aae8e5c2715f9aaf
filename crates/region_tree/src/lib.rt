//! The tree of a region (region refinement by parameter lifting, a branch and bound): which rectangles are decided and
//! which are halved, and the room for a walk over it.
#![tactic(auto)]

mod aim;
mod at_most;
mod base;
mod decided;
mod decision;
mod finder;
mod known;
mod laws;
mod pools;
mod precisions;
mod recent;
mod refining;
mod room;
mod search;
mod showing;
mod side;
mod sought;
mod tree;
mod verdict;
mod visitor;
mod walking;

pub use base::{Base, Copier, Given};
pub use decision::decide;
pub use finder::Finder;
pub use laws::{
    calm_walks_show_all, certificates_are_one, certificates_exist, lanes_keep_their_shape,
    meeting_rectangles_share, right_trees_are_one, right_trees_exist, right_trees_tile,
};
pub use lift_walk::rectangles_at_depths;
pub use pools::Pools;
pub use refining::refine;
pub use room::{Lanes, Room};
pub use search::Search;
pub use side::{Found, Side};
pub use sought::Sought;
pub use tree::{Branch, Tree, build};
pub use verdict::Verdict;
pub use visitor::{Seen, Visitor};
pub use walking::walk;
