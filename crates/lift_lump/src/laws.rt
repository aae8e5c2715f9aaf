//! Laws of lumping, for who reasons about it. The functions do nothing.

ghost use Rattle.lift_lump.specs.Laws.{CasesHaveFewTerms, CasesHaveGoalEntries, ChainsHaveAPlan, ChainsHaveOnePlan, CoarsestIsOne};
ghost use Rattle.lift_lump.specs.Laws.{EntriesTellSums, QuotientsHold, StartsAbove};
ghost use Rattle.lift_lump.specs.Laws.{NumberedSplitsKeep, QuotientsAreCases, QuotientsAreModels, SplitsKeep, StepsKeep};

use corner_lift::{rows_at_corners, rows_inside};
use lift_poly::{coefficients_determine, weights_follow};

/// By a right partition a state of the chain and its block of the quotient reach the same; every plan of a chain
/// reaches what its only scheduler reaches, and there is one.
pub fn quotients_hold()
    ensures same { QuotientsHold }
    ensures plans { ChainsHaveOnePlan }
    ensures some { ChainsHaveAPlan }
{
    weights_follow();
}

/// A split by a set of states that no block cuts keeps every right partition a refinement, the coarsest right
/// partition is one, and a quotient's entries tell the sums into each block.
pub fn coarsest_is_one()
    ensures start { StartsAbove }
    ensures keep { SplitsKeep }
    ensures numbered { NumberedSplitsKeep }
    ensures steps { StepsKeep }
    ensures one { CoarsestIsOne }
    ensures reported { EntriesTellSums }
{
    coefficients_determine();
    weights_follow();
}

/// By a right partition the quotient of a chain is a model, unless a coefficient of it is too large.
pub fn quotients_are_models()
    ensures { QuotientsAreModels }
{
    coefficients_determine();
}

/// By a right partition the quotient of a case is a case, over the same root and grid and at the same precision,
/// unless a coefficient of it is too large. In a case each goal state has an entry, and entries have few terms.
pub fn quotients_are_cases()
    ensures cases { QuotientsAreCases }
    ensures goals { CasesHaveGoalEntries }
    ensures terms { CasesHaveFewTerms }
{
    coefficients_determine();
    weights_follow();
    rows_at_corners();
    rows_inside();
}
