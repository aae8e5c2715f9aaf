ghost use Rattle.std.specs.Prelude.{◌≤◌};
ghost use Rattle.corner_lift.specs.Case.{most_precision};

use lower_cert::Rate;

/// From which side a certificate bounds what is reached in a rectangle that it decides.
#[derive(Clone, Copy)]
pub enum Side {
    /// From above.
    Above,
    /// From below, with the rate of its choices and the greatest rank.
    Below(Rate),
}

/// How a rectangle is decided for a range of precisions.
#[derive(Clone, Copy)]
pub struct Found {
    /// The least precision of the range that decides it.
    pub u: u32,
    /// From which side a certificate does, at that precision.
    pub side: Side,
    ghost small: { u ≤ most_precision },
}
