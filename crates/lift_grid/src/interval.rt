// Intervals of a parameter.
ghost use Rattle.std.specs.Prelude.{◌*ℤ◌, ◌<ℤ◌};

use lift_frac::Frac;

/// A parameter, by its place among the declared ones, and the two ends of its interval.
#[derive(Clone, Copy)]
pub(crate) struct Interval {
    pub parameter: u32,
    pub low: Frac,
    pub high: Frac,
    pub ghost rising: { (low.num *ℤ high.den) <ℤ (high.num *ℤ low.den) },
}
