//! Laws of rows at corners and inside, for who reasons about them. The functions do nothing.

ghost use Rattle.corner_lift.specs.Laws.{
  CornersBoundWeights,
  WeightsAreNotNegative,
  WeightsSumToWhole,
  CornersChooseEnds,
  BitsAreParameters,
  ParametersAreTheRoots,
  NumbersAreInRange,
  SumsAreInRange,
  SumsRise,
  SumsAreAtMost,
  SumsAreAtLeast,
  WeightsInside,
  SumsAreTotals,
  MeansAtMostInside,
  MeansAtLeastInside,
  RootIsInside,
  HalvesAreInside,
  LiveHasSpan,
  LowerPrecisionIsCase,
};
ghost use Rattle.corner_lift.specs.Premises.{Premises};

use lift_grid::{halves_stay_on_grid, members_are_below};
use lift_model::weighted_sums_follow;
use lift_poly::weights_follow;

/// Weights at corners: the corner bound for a single entry; that no weight of a case is negative at a
/// corner of a rectangle inside the root, and that there a row's weights sum to the whole; and which
/// end a corner chooses for a parameter.
pub fn corners_bound_weights()
    ensures bound { CornersBoundWeights }
    ensures least { WeightsAreNotNegative }
    ensures sum { WeightsSumToWhole }
    ensures ends { CornersChooseEnds }
{
    weights_follow();
    weighted_sums_follow();
}

/// Rows at corners: how many parameters a row has, in the root and in a rectangle inside it; in which
/// range a vector's numbers and sums lie; that a greater vector has no lesser sum; and that a sum is at most, or at
/// least, what it is where all targets have the same number, if none has one above, or below, it.
pub fn rows_at_corners()
    ensures bits { BitsAreParameters }
    ensures parameters { ParametersAreTheRoots }
    ensures numbers { NumbersAreInRange }
    ensures range { SumsAreInRange }
    ensures rise { SumsRise }
    ensures most { SumsAreAtMost }
    ensures least { SumsAreAtLeast }
{
    weights_follow();
    weighted_sums_follow();
}

/// Rows at the valuations inside a rectangle inside the root: no weight is negative, they sum to the
/// total, and a mean stays within what it keeps to at each corner. The root lies inside itself.
pub fn rows_inside()
    ensures weights { WeightsInside }
    ensures sums { SumsAreTotals }
    ensures most { MeansAtMostInside }
    ensures least { MeansAtLeastInside }
    ensures root { RootIsInside }
{
    weights_follow();
    weighted_sums_follow();
}

/// Where a halving is left, both halves of a rectangle inside the root lie inside it.
pub fn halves_are_inside()
    ensures { HalvesAreInside }
{
    halves_stay_on_grid();
}

/// A live parameter has a span in each rectangle inside the root.
pub fn live_parameters_have_spans()
    ensures { LiveHasSpan }
{
    members_are_below();
}

/// A case at a lower precision, from 1 on, is a case.
pub fn lower_precisions_are_cases()
    ensures { LowerPrecisionIsCase }
{}

/// Holds the laws of the crates below that rows at corners rest on. It does nothing.
pub(crate) fn premises()
    ensures { Premises }
{
    weights_follow();
    weighted_sums_follow();
}
