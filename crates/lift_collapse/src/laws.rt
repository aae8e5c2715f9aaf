//! Laws of collapsed models, for who reasons about them. The function does nothing.

ghost use Rattle.lift_collapse.specs.Laws.{CollapsedIsCase, UpperSpreads, LowerSpreads, HighSpreads, NoneSpreads};

use corner_lift::rows_at_corners;

/// What is found on a collapsed model, and what it says of the whole one: its case is one, least upper vectors
/// are the same at the places, and greatest lower vectors, and others at or above each lower vector, lie at or above
/// each lower vector of the whole one.
pub fn collapses_spread()
    ensures case { CollapsedIsCase }
    ensures upper { UpperSpreads }
    ensures lower { LowerSpreads }
    ensures high { HighSpreads }
    ensures none { NoneSpreads }
{
    rows_at_corners();
}
