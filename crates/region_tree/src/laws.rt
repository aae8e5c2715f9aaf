//! Laws of right trees, for who reasons about them. The functions do nothing.

ghost use Rattle.region_tree.specs.Laws.{
  CalmWalksShowAll,
  ForgettingKeepsShape,
  GreatestLowersAreOne,
  GreatestLowersExist,
  LanesAreKept,
  LeastUppersAreOne,
  LeastUppersExist,
  MeetingRectanglesShare,
  RightTreesAreOne,
  RightTreesExist,
  RightTreesTile,
  ShapesChain,
  ShapesStay,
  SplitAxesAreOne,
  SplitAxesExist,
};

use crate::visitor::Visitor;
use corner_lift::{live_parameters_have_spans, lower_precisions_are_cases, rows_at_corners};
use lift_grid::trees_tile;
use lift_walk::{rectangles_at_depths, split_axes_are_one};
use lower_cert::{ranks_fit, vectors_are_lowered};
use robust_rank::ranks_go_by_stages;

/// What a decided leaf holds and where a rectangle is halved is one: a rectangle has at most one least
/// upper vector, at most one greatest lower vector with its ranks, choices, e and k, and at most one axis
/// of the split rule.
pub fn certificates_are_one()
    ensures least { LeastUppersAreOne }
    ensures greatest { GreatestLowersAreOne }
    ensures axis { SplitAxesAreOne }
{
    split_axes_are_one();
    rows_at_corners();
}

/// What a decided leaf holds, and where a rectangle is halved, is always there: a rectangle inside the root
/// has a least upper vector and a greatest lower one, with its ranks, choices, e and k, and while a halving
/// is left the split rule chooses an axis.
pub fn certificates_exist()
    ensures least { LeastUppersExist }
    ensures greatest { GreatestLowersExist }
    ensures axis { SplitAxesExist }
{
    rows_at_corners();
    ranks_go_by_stages();
    vectors_are_lowered();
    live_parameters_have_spans();
}

/// A case has at most one right tree for a bound and a range of precisions.
pub fn right_trees_are_one()
    ensures { RightTreesAreOne }
{
    lower_precisions_are_cases();
    certificates_are_one();
    rectangles_at_depths();
}

/// A case has a right tree for each bound and each range of precisions. So it has exactly one.
pub fn right_trees_exist()
    ensures { RightTreesExist }
{
    lower_precisions_are_cases();
    certificates_exist();
    rectangles_at_depths();
    ranks_fit();
}

/// The leaves of a right tree tile the root.
pub fn right_trees_tile()
    ensures { RightTreesTile }
{
    rectangles_at_depths();
    live_parameters_have_spans();
    trees_tile();
}

/// Two rectangles that meet share a valuation.
pub fn meeting_rectangles_share()
    ensures { MeetingRectanglesShare }
{}

/// Lanes that keep their shape are lanes of the same model.
pub fn lanes_keep_their_shape()
    ensures stays { ShapesStay }
    ensures chain { ShapesChain }
    ensures forgetting { ForgettingKeepsShape }
    ensures lanes { LanesAreKept }
{}

/// A walk over a visitor that counts no fault offers the nodes of the right tree, which `build` gives,
/// whole and in preorder.
pub fn calm_walks_show_all<V: Visitor>()
    ensures { CalmWalksShowAll V.taken V.faults }
{}
