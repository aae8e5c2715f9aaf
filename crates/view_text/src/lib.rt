//! The picture of a slice of a sound report's region, as SVG. The writers take no memory.
#![tactic(auto)]

mod axes;
mod axis;
mod decimal;
mod field;
mod fraction;
mod layer;
mod legend;
mod picture;
mod share;
mod style;
mod summary;
mod ticks;
mod title;

pub use picture::Picture;
pub use summary::SummaryText;
