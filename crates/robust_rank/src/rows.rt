use corner_lift::{Case, PairTable};
use lift_model::Links;

/// The rows of a case, with their weights at the corners of a rectangle.
#[derive(Drop)]
pub(crate) struct Rows<'a> {
    pub(crate) case: &'a Case<'a>,
    pub(crate) links: &'a Links,
    pub(crate) weights: &'a PairTable<'a>,
}

/// The choices of a case, of which some are allowed: by these the states are ranked.
#[derive(Drop)]
pub(crate) struct Choices<'r, 'a> {
    pub(crate) rows: Rows<'r>,
    /// A number for each row, in reading order, which is 0 where the row isn't allowed.
    pub(crate) allowed: &'a [u32],
}
