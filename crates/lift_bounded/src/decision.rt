//! The decision of a rectangle.

ghost use Rattle.std.specs.Prelude.{◌≡◌, length, IsFalse, IsTrue};
ghost use Rattle.lift_pool.specs.Shapes.{IsSameShape};
ghost use Rattle.lift_grid.specs.Rectangle.{Spans, spans_of};
ghost use Rattle.lift_model.specs.Links.{AreLinks};
ghost use Rattle.corner_lift.specs.Case.{AreSidesInside, number};
ghost use Rattle.corner_lift.specs.Lifted.{IsLiftedTo};
ghost use Rattle.lift_cert.specs.Certificate.{IsBeyond, IsWithin};
ghost use Rattle.lift_bounded.specs.Decided.{IsDecidedWithin};
ghost use Rattle.lift_bounded.specs.Lanes.{HasChoices, HasVectors};
ghost use Rattle.lift_bounded.specs.Rooms.{HasStepLanes, KeepsShape};

use crate::decider::StepDecider;
use crate::laws::steps_make_certificates;
use crate::room::StepLanes;
use crate::vectors::{greatest_lowers, least_uppers};
use corner_lift::{Case, Lifted, fill};
use lift_cert::Bound;
use lift_pool::{Pool, lanes_have_shapes};

/// How a rectangle is decided.
#[derive(Clone, Copy)]
pub(crate) enum Verdict {
    Accept,
    Reject,
}

/// Whether the initial state's number is within the bound.
fn is_within(case: &Case, bound: Bound, lane: &[i64]) -> bool
    requires { length lane.now ≡ length case.now.model.states }
    ensures within { IsTrue result → IsWithin bound case.now.w (number lane.now case.now.model.init) }
    ensures beyond { IsFalse result → IsBeyond bound case.now.w (number lane.now case.now.model.init) }
{
    bound.admits(lane[case.model().init() as usize], case.w())
}

/// Decides a rectangle for h steps, in the lanes of a room.
fn decide_in(
    rows: &Lifted,
    bound: Bound,
    h: u32,
    numbers: &mut Pool<i64>,
    picks: &mut Pool<u32>,
    work: &mut [i64],
    marks: &mut [u32],
) -> Option<Verdict>
    ghost spans: { Spans }
    requires lifted { IsLiftedTo rows.now spans }
    requires numbers { HasVectors rows.now.case h numbers.old.lanes }
    requires picks { HasChoices rows.now.case h picks.old.lanes }
    requires work { length work.old ≡ length rows.now.case.model.states }
    requires marks { length marks.old ≡ length rows.now.case.model.states }
    ensures numbers { IsSameShape numbers.old numbers.new }
    ensures picks { IsSameShape picks.old picks.new }
    ensures decided { IsDecidedWithin rows.now.case spans bound h numbers.new.lanes picks.new.lanes result }
{
    steps_make_certificates();
    lanes_have_shapes::<i64>();
    least_uppers(rows, h, numbers, work);
    if is_within(rows.case(), bound, numbers.lane(h as usize)) {
        return Some(Verdict::Accept);
    }
    greatest_lowers(rows, h, numbers, picks, work, marks);
    if is_within(rows.case(), bound, numbers.lane(h as usize)) {
        return None;
    }
    Some(Verdict::Reject)
}

/// Decides the rectangle that has these sides. Accept leaves the least upper vectors in the lanes, Reject the greatest
/// lower ones and their choices; None comes exactly where there is no certificate of either kind. Takes no memory.
pub(crate) fn decide_over(
    decider: &StepDecider,
    lanes: &mut StepLanes,
    sides: &[i64],
) -> Option<Verdict>
    ghost spans: { Spans }
    requires spans { spans_of sides.now ≡ spans }
    requires links { AreLinks decider.now.case.now.model decider.now.links.now }
    requires lanes { HasStepLanes decider.now.case.now.model decider.now.links.now decider.now.steps lanes.old }
    requires sides { AreSidesInside decider.now.case.now.root sides.now }
    ensures decided { IsDecidedWithin decider.now.case.now spans decider.now.bound
        decider.now.steps lanes.new.numbers.lanes lanes.new.picks.lanes result }
    ensures shape { KeepsShape lanes.old lanes.new }
{
    lanes_have_shapes::<i64>();
    lanes_have_shapes::<u32>();
    fill(decider.case, decider.links, sides, &mut lanes.weights);
    let rows = Lifted::new(decider.case, decider.links, &lanes.weights);
    decide_in(
        &rows,
        decider.bound,
        decider.steps,
        &mut lanes.numbers,
        &mut lanes.picks,
        &mut lanes.work,
        &mut lanes.marks,
    )
}
