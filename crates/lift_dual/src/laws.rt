ghost use Rattle.lift_dual.specs.Laws.{SupportedPlansReach, LowerAllReaches, UpperOneBounds};
ghost use Rattle.lift_dual.specs.Laws.{LowerAllIsBelowUpperOne, LowerAllsJoin, UpperOnesMeet};
ghost use Rattle.lift_dual.specs.Laws.{UntilIsReachedByAll, UntilIsBoundedForOne};
ghost use Rattle.lift_dual.specs.Laws.{UntilIsBoundedForAll, UntilIsReachedByOne};
ghost use Rattle.lift_dual.specs.Laws.{SidesAreApart, EachHasASide};
ghost use Rattle.lift_dual.specs.Avoiding.{StagesAreLeast, RestIsAvoiding, RestIsGreatest};
ghost use Rattle.lift_dual.specs.AnyRanksOfAll.{RanksOfAllFit, NoneOfAllWithAnyRanks};
ghost use Rattle.lift_dual.specs.StagesOfAll.{StartOfAll, NextOfAll, EndOfAll};
ghost use Rattle.lift_dual.specs.Bounds.{BoundsAreAvoiding, LeastBoundIsAvoiding};
ghost use Rattle.lift_dual.specs.Bounds.{UpperOneIsBound, BoundIsSatisfied, LeastBoundIsUpperOne};
ghost use Rattle.lift_dual.specs.Chains.{LeastWithinIsForOne, GreatestAboveIsForAll, NoneAboveIsForAll};

use corner_lift::{corners_bound_weights, rows_at_corners, rows_inside};
use lift_cert::{certificates_decide, rejecting_certificates_reach};
use lift_model::{tosses_are_bounded, weighted_sums_follow};
use property_text::until_is_reach;
use robust_rank::ranks_go_by_stages;

/// Holds the law of what every plan reaches at least, also one that tosses, for who reasons about
/// schedulers. It does nothing.
pub fn plans_are_supported()
    ensures { SupportedPlansReach }
{
    tosses_are_bounded();
    weighted_sums_follow();
}

/// Holds what certificates over every choice, and over one, say of schedulers, for who reasons about
/// them: the one from below of every scheduler, also of one that tosses, and the one from above of each
/// that makes its choices; and that none of the former is above one of the latter. It does nothing.
pub fn all_and_one()
    ensures all { LowerAllReaches }
    ensures one { UpperOneBounds }
    ensures below { LowerAllIsBelowUpperOne }
{
    weighted_sums_follow();
    rows_at_corners();
    rows_inside();
    plans_are_supported();
}

/// Holds the laws by which there is a greatest certificate of the one kind and a least one of the other.
/// It does nothing.
pub fn certificates_join()
    ensures join { LowerAllsJoin }
    ensures meet { UpperOnesMeet }
{
    rows_at_corners();
}

/// Holds the laws by which the greatest lower vector for every scheduler is found: by ranks of stages,
/// which depend on no vector, and by the least upper vector of what comes to the states without rank. It
/// does nothing.
pub fn rest_is_greatest()
    ensures stages { StagesAreLeast }
    ensures avoiding { RestIsAvoiding }
    ensures rest { RestIsGreatest }
{
    rows_at_corners();
    corners_bound_weights();
}

/// Holds that a lower vector for every scheduler with any ranks and any k also has ranks of at most the number of
/// states, for who reasons about open rectangles: where none with bounded ranks is above a limit, none at all is. It
/// does nothing.
pub fn ranks_of_all_fit()
    ensures fit { RanksOfAllFit }
    ensures none { NoneOfAllWithAnyRanks }
{}

/// Ranking over every choice, stage by stage: where the stages begin and end, and what the next one has
/// to find. It does nothing.
pub fn stages_of_all()
    ensures start { StartOfAll }
    ensures next { NextOfAll }
    ensures end { EndOfAll }
{
    ranks_go_by_stages();
}

/// Holds what certificates of the model after the cut say of until in the model read. It does nothing.
pub fn until_is_bounded()
    ensures lower_all { UntilIsReachedByAll }
    ensures upper_one { UntilIsBoundedForOne }
    ensures upper_all { UntilIsBoundedForAll }
    ensures lower_one { UntilIsReachedByOne }
{
    all_and_one();
    until_is_reach();
    certificates_decide();
    rejecting_certificates_reach();
    rows_at_corners();
}

/// Holds the laws of the sides of a bound, for who reasons about verdicts: each number is on one side,
/// and what is on the lower one is below what is on the upper one. It does nothing.
pub fn sides_are_apart()
    ensures apart { SidesAreApart }
    ensures each { EachHasASide }
{}

/// Holds the rules by which the least vectors of both kinds are least bounds: of avoiding vectors, and of
/// upper vectors for one scheduler. It does nothing.
pub fn bounds_are_vectors()
    ensures avoiding { BoundsAreAvoiding }
    ensures least_avoiding { LeastBoundIsAvoiding }
    ensures one { UpperOneIsBound }
    ensures satisfied { BoundIsSatisfied }
    ensures least_one { LeastBoundIsUpperOne }
{
    rows_at_corners();
}

/// Holds that a chain has one scheduler, for who looks for its certificates: those for the one that reaches the most
/// are those for the one that reaches the least. It does nothing.
pub fn chains_have_one_scheduler()
    ensures least { LeastWithinIsForOne }
    ensures greatest { GreatestAboveIsForAll }
    ensures none { NoneAboveIsForAll }
{
    rows_at_corners();
}
