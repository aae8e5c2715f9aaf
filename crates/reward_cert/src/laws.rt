ghost use Rattle.reward_cert.specs.Laws.{CollectedUpperAllsMeet, CollectedUpperOnesMeet};
ghost use Rattle.reward_cert.specs.Laws.{ReachingLowerAllsJoin, ReachingLowerOnesJoin};
ghost use Rattle.reward_cert.specs.Laws.{SumIsExact, CostOfStatesIsExpected};
ghost use Rattle.reward_cert.specs.Laws.{ReachingLowerAllBounds, ReachingLowerOneBounds};
ghost use Rattle.reward_cert.specs.Laws.{CollectedUpperAllBounds, CollectedUpperOneBounds};
ghost use Rattle.reward_cert.specs.Laws.{CollectedLowerAllBounds, CollectedLowerOneBounds};
ghost use Rattle.reward_cert.specs.Laws.{ReachingUpperAllReaches, ReachingUpperOneReaches};
ghost use Rattle.reward_cert.specs.Laws.{CollectedLowerOneIsBelowUpperAll, CollectedLowerAllIsBelowUpperOne};
ghost use Rattle.reward_cert.specs.Laws.{ReachingLowerOneIsBelowUpperAll, ReachingLowerAllIsBelowUpperOne};

use corner_lift::{corners_bound_weights, rows_at_corners, rows_inside};
use lift_frac::divisors_and_multiples;
use lift_model::weighted_sums_follow;

/// Holds the laws of costs by choice, for who reasons about them: the cost of a state and that of an action add up,
/// and where each choice of a state costs the same, the expected cost is that of its visits. It does nothing.
pub fn costs_of_choices()
    ensures sum { SumIsExact }
    ensures states { CostOfStatesIsExpected }
{
    divisors_and_multiples();
}

/// Holds what certificates from below say of the cost to reach the goal, for who reasons about them: the one for all
/// of every scheduler, also of one that tosses, and the one for one of those that follow its picks. It does nothing.
pub fn reaching_lower_bounds()
    ensures all { ReachingLowerAllBounds }
    ensures one { ReachingLowerOneBounds }
{
    divisors_and_multiples();
    rows_at_corners();
    rows_inside();
}

/// Holds what certificates from above say of what is collected, for who reasons about them: the one for all of every
/// scheduler, also of one that tosses, and the one for one of those that follow its picks. It does nothing.
pub fn collected_upper_bounds()
    ensures all { CollectedUpperAllBounds }
    ensures one { CollectedUpperOneBounds }
{
    divisors_and_multiples();
    rows_inside();
}

/// Holds that the goal is reached in the end where certificates from above of the cost to reach it have numbers, for
/// who reasons about them: by every scheduler, also by one that tosses, and by those that follow the picks. What is
/// paid is what the certificates of what is collected say, as each of these has one. It does nothing.
pub fn reaching_upper_bounds()
    ensures all { ReachingUpperAllReaches }
    ensures one { ReachingUpperOneReaches }
{
    weighted_sums_follow();
    rows_inside();
}

/// Holds what certificates from below say of what is collected, for who reasons about them: the one for all of every
/// scheduler, also of one that tosses, and the one for one of those that follow its picks. It does nothing.
pub fn collected_lower_bounds()
    ensures all { CollectedLowerAllBounds }
    ensures one { CollectedLowerOneBounds }
{
    divisors_and_multiples();
    weighted_sums_follow();
    rows_at_corners();
    rows_inside();
}

/// Holds that no certificate from below is above one from above, for who reasons about verdicts: of two rectangles
/// that share a valuation, in each reading, the one over one choice and the other over every choice. It does nothing.
pub fn lower_is_below_upper()
    ensures collected_one { CollectedLowerOneIsBelowUpperAll }
    ensures collected_all { CollectedLowerAllIsBelowUpperOne }
    ensures reaching_one { ReachingLowerOneIsBelowUpperAll }
    ensures reaching_all { ReachingLowerAllIsBelowUpperOne }
{
    divisors_and_multiples();
    weighted_sums_follow();
    rows_at_corners();
    rows_inside();
}

/// Holds the law by which there are greatest certificates from below of the cost to reach the goal: of two there is
/// one at or above both. It does nothing.
pub fn reaching_lowers_join()
    ensures all { ReachingLowerAllsJoin }
    ensures one { ReachingLowerOnesJoin }
{
    rows_at_corners();
}

/// Holds the law by which there are least certificates from above of what is collected: of two there is one at or
/// below both. It does nothing.
pub fn collected_uppers_meet()
    ensures all { CollectedUpperAllsMeet }
    ensures one { CollectedUpperOnesMeet }
{
    corners_bound_weights();
    rows_at_corners();
}
