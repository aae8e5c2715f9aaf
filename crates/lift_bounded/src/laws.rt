ghost use Rattle.lift_bounded.specs.Laws.{
  AcceptingBoundsWithin,
  BoundedTreesAreOne,
  BoundedTreesExist,
  GreatestLowersAreOne,
  GreatestLowersExist,
  GreatestLowersRefute,
  GreatestStepsAreGreatest,
  LeastStepsAreLeast,
  LeastUppersAreOne,
  LeastUppersExist,
  LeastUppersRefute,
  RejectingReachesWithin,
};

use corner_lift::{live_parameters_have_spans, rows_at_corners, rows_inside};
use lift_model::{tosses_are_bounded, weighted_sums_follow};
use lift_walk::{rectangles_at_depths, split_axes_are_one};

/// Holds the laws of certificates by steps, for who reasons about them: what an accepting one says of every
/// scheduler and a rejecting one of those that make its choices, at every valuation inside its rectangle. It
/// does nothing.
pub fn certificates_by_steps_decide()
    ensures accepting { AcceptingBoundsWithin }
    ensures rejecting { RejectingReachesWithin }
{
    tosses_are_bounded();
    weighted_sums_follow();
    rows_at_corners();
    rows_inside();
}

/// Holds the laws of how certificates by steps are made, for who reasons about them. It does nothing.
pub fn steps_make_certificates()
    ensures least { LeastStepsAreLeast }
    ensures greatest { GreatestStepsAreGreatest }
    ensures none_accept { LeastUppersRefute }
    ensures none_reject { GreatestLowersRefute }
{
    rows_at_corners();
}

/// A rectangle inside the root has a list of least upper vectors for each number of steps, and one of greatest lower
/// ones with their choices. It does nothing.
pub fn certificates_by_steps_exist()
    ensures least { LeastUppersExist }
    ensures greatest { GreatestLowersExist }
{
    rows_at_corners();
}

/// A rectangle has at most one list of least upper vectors for a number of steps, and at most one of greatest lower
/// ones with their choices. It does nothing.
pub fn certificates_by_steps_are_one()
    ensures least { LeastUppersAreOne }
    ensures greatest { GreatestLowersAreOne }
{}

/// A case has at most one right tree for a bound and a number of steps. It does nothing.
pub fn bounded_trees_are_one()
    ensures { BoundedTreesAreOne }
{
    certificates_by_steps_are_one();
    split_axes_are_one();
}

/// A case has a right tree for each bound and each number of steps. So it has exactly one. It does nothing.
pub fn bounded_trees_exist()
    ensures { BoundedTreesExist }
{
    steps_make_certificates();
    certificates_by_steps_exist();
    rectangles_at_depths();
    live_parameters_have_spans();
}
