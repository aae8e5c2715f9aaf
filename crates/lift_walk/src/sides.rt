//! A pool with a lane for the sides of each rectangle on the way down a tree.

ghost use Rattle.std.specs.Prelude.{◌≡◌, ◌<◌, [], ◌∷◌, IfOk};
ghost use Rattle.lift_pool.specs.Shapes.{HasLane, IsSameShape};
ghost use Rattle.lift_grid.specs.Rectangle.{sides_of, spans_of};
ghost use Rattle.lift_grid.specs.Splitting.{IsSplitAxis};
ghost use Rattle.lift_model.specs.Model.{live};
ghost use Rattle.corner_lift.specs.Case.{IsCase, AreSidesInside, greatest_depth};
ghost use Rattle.lift_walk.specs.Sides.{
  CanTakeHalf,
  IsMadeForSides,
  end_count,
  sides_at_root,
  sides_with_half,
};

use corner_lift::{Case, live_parameters_have_spans};
use lift_grid::{narrow, split_axis};
use lift_pool::{Pool, lanes_have_shapes, lanes_stand_alone};
use std::alloc::{AllocError, Global};

/// Writes the root's sides over the one lane of sides.
pub fn write_root(case: &Case, sides: &mut Pool<i64>)
    requires { HasLane sides.old (end_count case.now) }
    ensures root { sides.new ≡ sides_at_root case.now sides.old }
    ensures shape { IsSameShape sides.old sides.new }
{
    lanes_have_shapes::<i64>();
    sides.write(0, case.root().sides());
}

/// A pool with a lane for the root, which holds the root's sides, and room for one at each depth below it. The one
/// error is that memory runs out.
pub fn sides_of_case(alloc: Global, case: &Case) -> Result<Pool<i64>, AllocError>
    ensures made { IfOk result (IsMadeForSides case.now) }
    ensures root { IfOk result (λ p. p.lanes ≡ sides_of case.now.root ∷ []) }
{
    let depths = case.greatest_depth() as usize;
    let len = case.root().sides().len();
    let mut pool = Pool::make(alloc, (depths + 1) * len, depths + 1)?;
    pool.take(len, 0);
    write_root(case, &mut pool);
    Ok(pool)
}

/// Takes a lane with a half of the rectangle in the last one.
pub fn take_half(sides: &mut Pool<i64>, axis: u32, lower: bool)
    requires { CanTakeHalf axis sides.old }
    ensures { sides.new ≡ sides_with_half lower axis sides.old }
{
    lanes_stand_alone::<i64>();
    let last = sides.lanes();
    sides.take_copy();
    narrow(sides.lane_mut(last), axis, lower);
}

/// The axis on which a rectangle inside the root is halved, where any is.
pub fn axis_of(case: &Case, sides: &[i64]) -> u32
    requires case { IsCase case.now }
    requires sides { AreSidesInside case.now.root sides.now }
    requires halved { 0 < greatest_depth case.now }
    ensures { IsSplitAxis (live case.now.model) (spans_of sides.now) result }
{
    live_parameters_have_spans();
    match split_axis(sides, case.model().live()) {
        Some(axis) => axis,
        None => unreachable!(),
    }
}
