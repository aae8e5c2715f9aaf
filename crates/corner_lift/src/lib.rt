//! What rows weigh at the corners of a rectangle (parameter lifting, row by row: a corner is a vertex of the region),
//! and the certificates that rest on it (inductive bounds: pre- and post-fixed points of the Bellman operator).
#![tactic(auto)]

mod case;
mod corner_table;
mod ends;
mod laws;
mod lifted;
mod paired;
mod pairs;
mod precision;
mod quotient;
mod rate;
mod row;
mod table;
mod weighted;
mod within;

pub use case::Case;
pub use corner_table::{AtCorner, CornerTable, Others, Weighed};
pub use laws::{
    corners_bound_weights, halves_are_inside, live_parameters_have_spans,
    lower_precisions_are_cases, rows_at_corners, rows_inside,
};
pub use lifted::Lifted;
pub use paired::{LaneSum, PairTable};
pub use precision::one_at;
pub use quotient::{
    quotient_of, reaches, rounded_down, rounded_up, rounded_up_from, short_rounded_up, times,
};
pub use rate::is_enough;
pub use row::{raw_weight, row_max, row_min, row_value, weight_into, whole};
pub use table::{
    fill, has_short_sums, table_into, table_max, table_min, table_others, table_value, table_whole,
};
pub use within::least_into;
