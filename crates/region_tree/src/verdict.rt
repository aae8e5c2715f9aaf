/// What is decided of a rectangle, for a bound and a range of precisions. A precision decides where there is a
/// certificate of either kind.
#[derive(Clone, Copy, Debug, PartialEq, Eq)]
pub enum Verdict {
    /// At `u`, the least precision that decides, an accepting certificate exists.
    Accept { u: u32 },
    /// At `u`, the least precision that decides, no accepting certificate exists, and a rejecting one does; its
    /// rate follows from `e` and `k`.
    Reject { u: u32, e: u32, k: u32 },
    /// No precision of the range decides.
    Unknown,
}
