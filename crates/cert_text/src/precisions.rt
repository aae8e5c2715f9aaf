// The precisions of a report.

/// The precisions of a report: the greatest one, and the least one where the report tells it, which is
/// in the second version. In the first version the greatest one is the only one.
#[derive(Clone, Copy)]
pub(crate) struct Precisions {
    pub from: Option<u32>,
    pub w: u32,
}
