ghost use Rattle.lift_model.specs.Pick.{FitsPick, PicksFit, PicksReach};
ghost use Rattle.lift_model.specs.Twin.{FairPlansReachOneHalf};
ghost use Rattle.lift_model.specs.Laws.{WeightedSumsAreNotNegative, WeightedSumsRise};
ghost use Rattle.lift_model.specs.Timed.{SameChoicesAreMemoryless};
ghost use Rattle.lift_model.specs.Tossing.{TossesAreBounded};

/// Holds the laws of schedulers that don't toss, for who reasons about them: the plans over 1 are
/// those that pick a choice for each history, and such a plan reaches what its choices reach. It does
/// nothing.
pub fn plans_over_one_choice()
    ensures fits { PicksFit }
    ensures picks { FitsPick }
    ensures reach { PicksReach }
{}

/// Holds the laws of weighted sums where no weight is below 0, for who reasons about them: they rise with
/// the numbers, and stay from 0 on. It does nothing.
pub fn weighted_sums_follow()
    ensures least { WeightedSumsAreNotNegative }
    ensures rise { WeightedSumsRise }
{}

/// Holds what tossing adds, on a coin with two choices of which one goes to the goal with p and the other
/// with 1 - p: the plan that tosses fairly between them reaches it with one half, whatever p is. It does
/// nothing.
pub fn fair_plans_reach_one_half()
    ensures { FairPlansReachOneHalf }
{}

/// Holds the law of one step of a plan, for who reasons about schedulers that toss: what bounds the steps that
/// follow bounds the step. It does nothing.
pub fn tosses_are_bounded()
    ensures { TossesAreBounded }
{}

/// Holds what schedulers reach that make the same choices whatever the number of steps left: what memoryless
/// ones do. It does nothing.
pub fn same_choices_are_memoryless()
    ensures { SameChoicesAreMemoryless }
{}
