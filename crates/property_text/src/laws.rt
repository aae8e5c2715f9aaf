ghost use Rattle.property_text.specs.Laws.{UntilIsReach, MemorylessUntilIsReach};
ghost use Rattle.property_text.specs.Laws.{MemorylessIsAPlan, MemorylessReachesAsAPlan, ModelsHaveStates};
ghost use Rattle.property_text.specs.Laws.{CutKeepsChoices, CutOfNoneIsSame, ReachIsUntil, FormulaIsOne};

/// Holds the laws of until, for who reasons about them: each plan's until is what some plan that fits
/// reaches in the model after the cut, a memoryless scheduler's is what it reaches there itself, the cut
/// keeps the number of a state's choices, and where every state is safe until is reach and the cut changes
/// nothing. It does nothing.
pub fn until_is_reach()
    ensures plans { UntilIsReach }
    ensures memoryless { MemorylessUntilIsReach }
    ensures choices { CutKeepsChoices }
    ensures safe { ReachIsUntil }
    ensures same { CutOfNoneIsSame }
{}

/// Holds that a memoryless scheduler is a plan, for who reasons about schedulers: where it names a choice for each
/// state that is safe and no goal state, a plan over 1 makes these choices at every step, and its until is that of
/// the scheduler; where all states are safe, so is what it reaches. It does nothing.
pub fn memoryless_is_a_plan()
    ensures until { MemorylessIsAPlan }
    ensures reach { MemorylessReachesAsAPlan }
    ensures models { ModelsHaveStates }
{}

/// Holds the law of the grammar, for who reasons about formulas: a text writes one at most. It does nothing.
pub fn formulas_are_one()
    ensures { FormulaIsOne }
{}
