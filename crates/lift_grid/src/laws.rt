//! Laws of grids, of regions and of halves, for who reasons about them. The functions do nothing.

ghost use Rattle.lift_grid.specs.Laws.{
  DenominatorsDivide,
  EndsStandInRow,
  HalvesHaveOneLess,
  HalvesKeepCount,
  HalvesTile,
  MembersAreBelow,
  MidpointsAreExact,
  NamedRegionsAreOnGrid,
  NumbersAreExact,
  SidesOfSpans,
  SpansAreHalvable,
  SpansOfSides,
  TreesTile,
};

use lift_frac::{divisors_and_multiples, fractions_follow};

/// A fraction's number over a grid is worth the fraction, where its denominator divides `d`.
pub fn numbers_are_exact()
    ensures { NumbersAreExact }
{}

/// The common denominator of intervals is a multiple of the denominator of each end.
pub fn denominators_divide()
    ensures { DenominatorsDivide }
{
    divisors_and_multiples();
}

/// A text that names a region names one on its grid.
pub fn regions_are_on_grid()
    ensures { NamedRegionsAreOnGrid }
{
    divisors_and_multiples();
    fractions_follow();
}

/// The parameters of a set have indices below the set's size in bits.
pub fn members_are_below()
    ensures { MembersAreBelow }
{}

/// A rectangle is the same by its spans as by its ends in a row, and where each end stands.
pub fn rows_are_rectangles()
    ensures spans { SpansOfSides }
    ensures sides { SidesOfSpans }
    ensures ends { EndsStandInRow }
{}

/// Where a halving is left, each span can be halved, its midpoint is exact, and both halves are
/// rectangles of as many spans with one halving less.
pub fn halves_stay_on_grid()
    ensures halvable { SpansAreHalvable }
    ensures midpoint { MidpointsAreExact }
    ensures halves { HalvesHaveOneLess }
    ensures count { HalvesKeepCount }
{}

/// The two halves of a rectangle tile it, and so do the leaves of a tree of halves.
pub fn trees_tile()
    ensures halves { HalvesTile }
    ensures leaves { TreesTile }
{}
