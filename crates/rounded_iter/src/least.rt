ghost use Rattle.std.specs.Prelude.{◌≡◌, ◌*◌, ◌^◌, pos, length};
ghost use Rattle.lift_grid.specs.Rectangle.{Spans};
ghost use Rattle.lift_model.specs.Links.{AreLinks};
ghost use Rattle.corner_lift.specs.Certificate.{IsLeastUpper};
ghost use Rattle.corner_lift.specs.Table.{IsTable};
ghost use Rattle.rounded_iter.specs.Rising.{IsLeastBoundWithin};
ghost use Rattle.rounded_iter.specs.Value.{IsLeastValue};
ghost use Rattle.rounded_iter.specs.Watching.{CanIterate, CanContinue, IsLeastWithin};

use crate::table::Table;
use corner_lift::{Case, Lifted, corners_bound_weights, one_at, rows_at_corners};
use float_guess::{Ends, Extreme, Rule};
use lift_model::Links;

/// Leaves in `lane` the least bound by a rule of the case on the rectangle that its rows are lifted to: of the vectors
/// of numbers from 0 to 2 to the `w` that have the given number where one is given, and elsewhere at least the weighted
/// mean at the corner that counts of the choice that counts, with the reward, if there are rewards and the number is below
/// 2 to the `w`, the one that is least at each state. Stops where the initial state's number passes the limit. True:
/// `lane` is that bound, and its number there is within the limit. False: in each bound it is above. What `lane` and
/// `work` hold at entry is free. Takes no memory.
pub fn least_bound(
    rows: &Lifted,
    rule: Rule,
    limit: i64,
    lane: &mut [i64],
    work: &mut [u32],
) -> bool
    ghost spans: { Spans }
    requires { CanIterate rows.now.case rows.now.links spans rows.now.weights lane.old work.old }
    ensures { IsLeastBoundWithin rule.entry rows.now.case spans limit lane.new result }
{
    rows_at_corners();
    corners_bound_weights();
    let table = Table {
        rows: &*rows,
        rule,
        top: one_at(rows.w()),
        limit,
    };
    table.start(lane);
    table.find(lane, work)
}

/// As `least_bound`, but takes what `lane` holds for a guess: a vector a unit below it is raised, and only where each
/// number rises does it tell anything.
pub fn least_bound_by_guess(
    rows: &Lifted,
    rule: Rule,
    limit: i64,
    lane: &mut [i64],
    work: &mut [u32],
) -> bool
    ghost spans: { Spans }
    requires { CanIterate rows.now.case rows.now.links spans rows.now.weights lane.old work.old }
    ensures { IsLeastBoundWithin rule.entry rows.now.case spans limit lane.new result }
{
    rows_at_corners();
    corners_bound_weights();
    let table = Table {
        rows: &*rows,
        rule,
        top: one_at(rows.w()),
        limit,
    };
    table.find_by_guess(lane, work)
}

/// Leaves in `lane` the least upper vector of the case on the rectangle whose table `weights` is: of the
/// vectors of numbers from 0 to 2 to the `w` that have 2 to the `w` on goal states, and elsewhere at
/// least the weighted mean of each choice at each corner of its row, the one that is least at each
/// state. What `lane` and `work` hold at entry is free. Takes no memory.
pub fn least_upper(case: &Case, links: &Links, weights: &[i128], lane: &mut [i64], work: &mut [u32])
    ghost spans: { Spans }
    requires { CanIterate case.now links.now spans weights.now lane.old work.old }
    ensures { IsLeastUpper case.now spans lane.new }
{
    rows_at_corners();
    corners_bound_weights();
    let rows = Lifted::new(&*case, &*links, &*weights);
    let rule = Rule {
        choice: Extreme::Greatest,
        corner: Extreme::Greatest,
        ends: Ends::Goals,
    };
    least_bound(&rows, rule, one_at(case.w()), lane, work);
}

/// Leaves in `lane` the least value vector of the case on the rectangle whose table `weights` is: of the
/// vectors of numbers from 0 to 2 to the `w` that have 2 to the `w` on goal states, and elsewhere at
/// least the least weighted mean over the corners of each choice's row, the one that is least at each
/// state. What `lane` and `work` hold at entry is free. Takes no memory.
pub fn least_value(case: &Case, links: &Links, weights: &[i128], lane: &mut [i64], work: &mut [u32])
    ghost spans: { Spans }
    requires { CanIterate case.now links.now spans weights.now lane.old work.old }
    ensures { IsLeastValue case.now spans lane.new }
{
    rows_at_corners();
    corners_bound_weights();
    let rows = Lifted::new(&*case, &*links, &*weights);
    let rule = Rule {
        choice: Extreme::Greatest,
        corner: Extreme::Least,
        ends: Ends::Goals,
    };
    least_bound(&rows, rule, one_at(case.w()), lane, work);
}

/// As `least_upper`, but stops where the initial state's number passes the limit. True: `lane` is the least
/// upper vector, and its number there is within the limit. False: in each upper vector it is above.
pub fn least_upper_within(
    case: &Case,
    links: &Links,
    weights: &[i128],
    limit: i64,
    lane: &mut [i64],
    work: &mut [u32],
) -> bool
    ghost spans: { Spans }
    requires { CanIterate case.now links.now spans weights.now lane.old work.old }
    ensures { IsLeastWithin case.now spans limit lane.new result }
{
    rows_at_corners();
    corners_bound_weights();
    let _ = case.w();
    let rows = Lifted::new(&*case, &*links, &*weights);
    let rule = Rule {
        choice: Extreme::Greatest,
        corner: Extreme::Greatest,
        ends: Ends::Goals,
    };
    least_bound(&rows, rule, limit, lane, work)
}

/// As `least_upper`, but starts from the vector in `lane`, of numbers from 0 to 2 to the `w`, which lies at
/// or below each upper vector. What it has on goal states is of no account.
pub fn least_upper_from(
    case: &Case,
    links: &Links,
    weights: &[i128],
    lane: &mut [i64],
    work: &mut [u32],
)
    ghost spans: { Spans }
    requires { CanContinue case.now links.now spans weights.now lane.old work.old }
    ensures { IsLeastUpper case.now spans lane.new }
{
    rows_at_corners();
    corners_bound_weights();
    let top = one_at(case.w());
    let rows = Lifted::new(&*case, &*links, &*weights);
    let table = Table {
        rows: &rows,
        rule: Rule {
            choice: Extreme::Greatest,
            corner: Extreme::Greatest,
            ends: Ends::Goals,
        },
        top,
        limit: top,
    };
    table.set_goals(lane);
    table.find(lane, work);
}
