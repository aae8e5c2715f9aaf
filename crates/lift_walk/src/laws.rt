//! Laws of the way down a tree, for who reasons about it. The functions do nothing.

ghost use Rattle.lift_walk.specs.Laws.{
  HalvesAreDeeper,
  RootHasAllEnds,
  RootIsAtDepth,
  SidesBeginAtRoot,
  SidesGoDown,
  SplitAxesAreOne,
};

use corner_lift::{halves_are_inside, live_parameters_have_spans, rows_inside};
use lift_grid::{halves_stay_on_grid, rows_are_rectangles};
use lift_pool::lanes_stand_alone;

/// The root stands at depth 0, and the halves of a rectangle one deeper than it.
pub fn rectangles_at_depths()
    ensures root { RootIsAtDepth }
    ensures halves { HalvesAreDeeper }
{
    rows_inside();
    halves_are_inside();
    halves_stay_on_grid();
    live_parameters_have_spans();
}

/// A pool that is made for the sides of a case begins at the root, and goes down to both halves of a rectangle
/// and back while a halving is left.
pub fn sides_go_down()
    ensures ends { RootHasAllEnds }
    ensures root { SidesBeginAtRoot }
    ensures down { SidesGoDown }
{
    rectangles_at_depths();
    halves_stay_on_grid();
    live_parameters_have_spans();
    rows_are_rectangles();
    lanes_stand_alone::<i64>();
}

/// The split rule chooses at most one axis.
pub fn split_axes_are_one()
    ensures { SplitAxesAreOne }
{}
