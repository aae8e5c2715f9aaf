ghost use Rattle.property_tree.specs.Laws.{LeavesAreOne, PropertyTreesAreOne, RangeLeavesAreOne, RangeTreesAreOne};

use corner_lift::lower_precisions_are_cases;
use lift_cert::certificates_are_of_one_kind;
use lift_dual::{all_and_one, rest_is_greatest, sides_are_apart};
use lift_walk::{rectangles_at_depths, split_axes_are_one};
use region_tree::certificates_are_one;

/// A rectangle is decided by at most one leaf. It does nothing.
pub fn leaves_are_one()
    ensures { LeavesAreOne }
{
    certificates_are_one();
    certificates_are_of_one_kind();
    all_and_one();
    rest_is_greatest();
    sides_are_apart();
}

/// A case has at most one right tree for a comparison and a bound. It does nothing.
pub fn property_trees_are_one()
    ensures { PropertyTreesAreOne }
{
    leaves_are_one();
    rectangles_at_depths();
    split_axes_are_one();
}

/// A rectangle is decided by at most one leaf for a range of precisions. It does nothing.
pub fn range_leaves_are_one()
    ensures { RangeLeavesAreOne }
{
    leaves_are_one();
    lower_precisions_are_cases();
}

/// A case has at most one right tree for a comparison, a bound and a range of precisions. It does nothing.
pub fn range_trees_are_one()
    ensures { RangeTreesAreOne }
{
    range_leaves_are_one();
    rectangles_at_depths();
    split_axes_are_one();
}
