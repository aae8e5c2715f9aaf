//! Laws of ranking stage by stage, for who reasons about it. The function does nothing.

ghost use Rattle.robust_rank.specs.Attracting.{StartIsStaged, NextIsStaged, EmptyStageEnds, StagesOfTest, FrontierLeads, GapLeads};

use corner_lift::rows_at_corners;

/// Ranking stage by stage: where the stages begin and end, what the next one has to find, and that it
/// need only look at what leads into the last one.
pub fn ranks_go_by_stages()
    ensures start { StartIsStaged }
    ensures next { NextIsStaged }
    ensures end { EmptyStageEnds }
    ensures test { StagesOfTest }
    ensures frontier { FrontierLeads }
    ensures gap { GapLeads }
{
    rows_at_corners();
}
