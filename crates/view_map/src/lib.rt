//! What a sound report says of its region, as a list of leaves (the parts of a region that hold, fail or are unknown);
//! the slice of the region that is looked at; and the shares of its volume.
#![tactic(auto)]

mod choice;
mod map;
mod part;
mod reading;
mod slice;
mod text_lines;

pub use choice::slice_of;
pub use map::ReportMap;
pub use part::{LeafKind, Part, span_at};
pub use reading::read_map;
pub use slice::{Cut, Slice};
