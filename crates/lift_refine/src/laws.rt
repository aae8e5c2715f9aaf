//! Laws of refining, for who reasons about it. The functions do nothing.

ghost use Rattle.lift_refine.specs.Laws.{
  AcceptedStays,
  BasesWithRightTreesAreCertified,
  CertifiedTreesAreBases,
  FirstStays,
  NoneRejectsStays,
  OpenAtStays,
  OpenStays,
  RefinedRightTrees,
  RefinedTreesAreRight,
  RejectedStays,
  RightTreesAreCertified,
  RightTreesStay,
  UnboundedLowersStay,
};

use corner_lift::live_parameters_have_spans;
use lift_finer::{
    certificates_stay, halves_stay, refined_bases_are_certified, vectors_stay,
    weights_are_homogeneous,
};
use lift_grid::halves_stay_on_grid;
use lift_walk::rectangles_at_depths;

/// A finer grid leaves a rectangle open, accepted or rejected as it is, and by the same certificate.
pub fn rectangles_stay()
    ensures lowers { UnboundedLowersStay }
    ensures none { NoneRejectsStays }
    ensures open_at { OpenAtStays }
    ensures is_open { OpenStays }
    ensures first { FirstStays }
    ensures accepted { AcceptedStays }
    ensures rejected { RejectedStays }
{
    weights_are_homogeneous();
    vectors_stay();
    certificates_stay();
}

/// A finer grid leaves the right tree over a rectangle as it is, while as many halvings are left.
pub fn right_trees_stay()
    ensures { RightTreesStay }
{
    rectangles_stay();
    halves_stay();
    halves_stay_on_grid();
    live_parameters_have_spans();
    rectangles_at_depths();
}

/// Where a right tree has right trees of a case that may be halved more often in the place of its unknown
/// leaves, it is the right tree of that case.
pub fn refined_trees_are_right()
    ensures over_rectangle { RefinedTreesAreRight }
    ensures over_root { RefinedRightTrees }
{
    rectangles_stay();
    halves_stay();
    halves_stay_on_grid();
    live_parameters_have_spans();
    rectangles_at_depths();
}

/// A certified tree, right or not, is a base in a case that may be halved more often; and a base with right
/// trees in the place of its unknown leaves is certified.
pub fn bases_are_gone_on_from()
    ensures bases { CertifiedTreesAreBases }
    ensures right { RightTreesAreCertified }
    ensures refined { BasesWithRightTreesAreCertified }
{
    certificates_stay();
    halves_stay();
    halves_stay_on_grid();
    live_parameters_have_spans();
    rectangles_at_depths();
    refined_bases_are_certified();
}
