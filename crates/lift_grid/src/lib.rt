//! Regions of parameter values (hyper-rectangles): rectangles over a grid, their corners (vertices), how one is halved
//! (region refinement), and the text that names one.
#![tactic(auto)]

mod clause;
mod corner;
mod error;
mod halving;
mod interval;
mod intervals;
mod laws;
mod lists;
mod rect;
mod region;
mod text;

pub use corner::corner_side;
pub use error::RegionError;
pub use halving::{narrow, split_axis};
pub use laws::{
    denominators_divide, halves_stay_on_grid, members_are_below, numbers_are_exact,
    regions_are_on_grid, rows_are_rectangles, trees_tile,
};
pub use lists::{Marks, Values};
pub use rect::{Grid, Rect};
pub use region::read_region;
