//! How rectangles are halved on the way down a tree over the root of a case (region refinement): the sides of each on
//! the way, in a pool of lanes that was made before; and the walk (depth first, in preorder) over that tree, whoever
//! guides it.
#![tactic(auto)]

mod given;
mod guide;
mod laws;
mod sides;
mod step;
mod walking;

pub use given::Given;
pub use guide::Guide;
pub use laws::{rectangles_at_depths, sides_go_down, split_axes_are_one};
pub use sides::{axis_of, sides_of_case, take_half, write_root};
pub use walking::Walker;
