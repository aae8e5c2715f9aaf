//! Laws of pools, for who reasons about them. The functions do nothing.

ghost use Rattle.lift_pool.specs.Laws.{
  LanesHaveLengths,
  OneLaneIsAll,
  SameShapesHaveLengths,
  TakesCanBeUndone,
  WritesKeepShape,
  WritesOneLane,
};

/// Writing through a lent lane, which keeps its length, changes that lane alone; and giving back the
/// lane that was taken last leaves the pool as it was.
pub fn lanes_stand_alone<T: Copy>()
    ensures writes { WritesOneLane T }
    ensures undone { TakesCanBeUndone T }
{}

/// What the shape of a pool says of its lanes, and that writing keeps it.
pub fn lanes_have_shapes<T: Copy>()
    ensures lengths { LanesHaveLengths T }
    ensures same { SameShapesHaveLengths T }
    ensures writes { WritesKeepShape T }
    ensures one { OneLaneIsAll T }
{}
