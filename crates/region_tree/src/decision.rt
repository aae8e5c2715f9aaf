// What decides a rectangle.
ghost use Rattle.std.specs.Prelude.{◌≡◌, IfSome};
ghost use Rattle.lift_grid.specs.Rectangle.{spans_of};
ghost use Rattle.lift_model.specs.Links.{AreLinks};
ghost use Rattle.corner_lift.specs.Case.{AreSidesInside};
ghost use Rattle.corner_lift.specs.Table.{IsTable};
ghost use Rattle.lift_range.specs.Range.{Between};
ghost use Rattle.lift_collapse.specs.Collapse.{IsCollapse};
ghost use Rattle.lift_collapse.specs.Filled.{IsFilled};
ghost use Rattle.region_tree.specs.Decided.{CanDecide, IsDecided, lane, verdict_of};
ghost use Rattle.region_tree.specs.Rooms.{HasLane, IsSameShape, KeepsShape, collapse_of, last_sides};

use crate::decided::Outlook;
use crate::room::Room;
use crate::search::Search;
use crate::side::{Found, Side};
use crate::verdict::Verdict;
use corner_lift::{Case, fill, lower_precisions_are_cases};
use lift_cert::{Bound, certificates_are_of_one_kind};
use lift_collapse::Collapse;
use lift_model::Links;
use lift_pool::{Pool, lanes_stand_alone};
use lower_cert::{Rate, ranks_fit};

/// Makes the table of a rectangle in the pool's one lane. Takes no memory.
pub(crate) fn make_table(case: &Case, links: &Links, sides: &[i64], weights: &mut Pool<i128>)
    requires links { AreLinks case.now.model links.now }
    requires sides { AreSidesInside case.now.root sides.now }
    requires weights { HasLane weights.old links.now.weights }
    ensures shape { IsSameShape weights.old weights.new }
    ensures table { IsTable case.now links.now (spans_of sides.now) (lane weights.new) }
{
    lanes_stand_alone::<i128>();
    fill(case, links, sides, weights.lane_mut(0));
}

/// Makes the table of a rectangle in the collapsed model, where there is one. Takes no memory.
pub(crate) fn fill_collapse(case: &Case, sides: &[i64], collapse: &mut Option<Collapse>)
    requires collapse { IfSome (collapse_of collapse.old) (IsCollapse case.now.model) }
    requires sides { AreSidesInside case.now.root sides.now }
    ensures collapse { collapse_of collapse.new ≡ collapse_of collapse.old }
    ensures filled { IfSome collapse.new (IsFilled case.now (spans_of sides.now)) }
{
    if let Some(collapse) = collapse {
        collapse.fill(case, sides);
    }
}

/// What was found, as a verdict.
fn verdict_of(found: Option<Found>) -> Verdict
    ensures { result ≡ verdict_of found }
{
    match found {
        Some(
            Found {
                u,
                side: Side::Above,
            },
        ) => Verdict::Accept { u },
        Some(
            Found {
                u,
                side: Side::Below(Rate { e, k }),
            },
        ) => Verdict::Reject { u, e, k },
        None => Verdict::Unknown,
    }
}

/// Decides the rectangle that the room's last lane of sides holds, for the precisions from `from` to the case's. The
/// room was made for the case, and further lanes of sides may have been taken since.
///
/// The room's weights are then the table of that rectangle. With `Accept` its values are the least upper
/// vector at the verdict's precision, and with `Reject` its values, choices and ranks are those of the greatest lower
/// vector there. Takes no memory. Walks decide by more than the room: no program calls this.
pub fn decide(case: &Case, links: &Links, bound: Bound, from: u32, room: &mut Room) -> Verdict
    requires can { CanDecide case.now links.now room.old }
    requires from { Between 1 case.now.w from }
    ensures sides { room.new.sides ≡ room.old.sides }
    ensures shape { KeepsShape room.old.lanes room.new.lanes }
    ensures table { IsTable case.now links.now (spans_of (last_sides room.old)) (lane room.new.lanes.weights) }
    ensures decided { IsDecided case.now from (spans_of (last_sides room.old)) bound room.new result }
{
    certificates_are_of_one_kind();
    lower_precisions_are_cases();
    ranks_fit();
    let _ = case.w();
    let search = Search {
        case: &*case,
        links: &*links,
        sought: bound,
        from,
    };
    let last = room.sides.lanes() - 1;
    let sides = room.sides.lane(last);
    verdict_of(search.decide_by(&mut room.lanes, sides, Outlook::OPEN))
}
