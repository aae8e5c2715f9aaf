//! The least upper vector for one scheduler, with the lowest choices that meet it.

ghost use Rattle.std.specs.Prelude.{◌≡◌, ◌<◌, ◌↔◌, ◌≤ℤ◌, false, ℕ, length, IsTrue};
ghost use Rattle.lift_grid.specs.Rectangle.{Spans};
ghost use Rattle.lift_model.specs.Model.{is_goal};
ghost use Rattle.lift_model.specs.Links.{HasChoice};
ghost use Rattle.corner_lift.specs.Certificate.{AreNumbers};
ghost use Rattle.corner_lift.specs.Lifted.{IsLiftedTo};
ghost use Rattle.rounded_iter.specs.Watching.{CanIterate};
ghost use Rattle.lift_dual.specs.Choosing.{IsSatisfied, HasSatisfied, IsLowestSatisfied, IsLowestChoice, AreLowestChoices};
ghost use Rattle.lift_dual.specs.Choosing.{IsLeastUpperOne, IsLeastUpperOneWithin};

use crate::laws::bounds_are_vectors;
use corner_lift::{Case, Lifted, one_at, rows_at_corners};
use float_guess::{Ends, Extreme, Rule};
use lift_model::Links;
use rounded_iter::least_bound_by_guess;

/// In place of a chosen row where a state has none.
const NONE: u32 = u32::MAX;

/// Whether the state's choice meets its number.
#[inline(always)]
fn is_satisfied(rows: &Lifted, lane: &[i64], s: u32, a: u32) -> bool
    ghost spans: { Spans }
    requires lifted { IsLiftedTo rows.now spans }
    requires numbers { AreNumbers rows.now.case lane.now }
    requires row { HasChoice rows.now.case.model s a }
    ensures { IsTrue result ↔ IsSatisfied rows.now.case spans lane.now s a }
{
    rows_at_corners();
    let _ = rows.w();
    rows.table().is_capped(s, a, lane, lane[s as usize])
}

/// The lowest choice of a state that meets its number, where one does. The last choice isn't looked at: where
/// no other does, it does.
fn lowest_satisfied(rows: &Lifted, lane: &[i64], s: u32) -> u32
    ghost spans: { Spans }
    requires lifted { IsLiftedTo rows.now spans }
    requires numbers { AreNumbers rows.now.case lane.now }
    requires state { s < length rows.now.case.model.states }
    requires some { HasSatisfied rows.now.case spans lane.now s }
    ensures { IsLowestSatisfied rows.now.case spans lane.now s result }
{
    let last = rows.choice_count(s) - 1;
    for choice in 0..last {
        if is_satisfied(rows, lane, s, choice) {
            return choice;
        }
    }
    last
}

/// The chosen row of a state: none where it is a goal state.
fn lowest_choice(rows: &Lifted, lane: &[i64], s: u32) -> u32
    ghost spans: { Spans }
    requires lifted { IsLiftedTo rows.now spans }
    requires numbers { AreNumbers rows.now.case lane.now }
    requires state { s < length rows.now.case.model.states }
    requires some { is_goal rows.now.case.model s ≡ false → HasSatisfied rows.now.case spans lane.now s }
    ensures { IsLowestChoice rows.now.case spans lane.now s result }
{
    if rows.model().is_goal(s) {
        return NONE;
    }
    lowest_satisfied(rows, lane, s)
}

/// Writes the choices of all states.
fn choose_all(rows: &Lifted, lane: &[i64], picks: &mut [u32])
    ghost spans: { Spans }
    requires lifted { IsLiftedTo rows.now spans }
    requires numbers { AreNumbers rows.now.case lane.now }
    requires size { length picks.old ≡ length rows.now.case.model.states }
    requires some { (s : ℕ) → s < length rows.now.case.model.states → is_goal rows.now.case.model s ≡ false
        → HasSatisfied rows.now.case spans lane.now s }
    ensures { AreLowestChoices rows.now.case spans lane.now picks.new }
{
    for s in 0..rows.model().states() {
        picks[s as usize] = lowest_choice(rows, lane, s);
    }
}

/// Leaves in `lane` the least upper vector for one scheduler of the case on the rectangle that its rows are
/// lifted to, and in `picks`, for each state that is no goal state, the lowest choice that meets it. Stops where
/// the initial state's number passes the limit. True: these are left, and that number is within the limit.
/// False: in each upper vector for one scheduler it is above, and what `lane` and `picks` hold is free. What
/// `lane`, `picks` and `work` hold at entry is free; `lane` is taken for a guess of that vector. Takes no memory.
pub fn least_one_within(
    rows: &Lifted,
    limit: i64,
    lane: &mut [i64],
    picks: &mut [u32],
    work: &mut [u32],
) -> bool
    ghost spans: { Spans }
    requires can { CanIterate rows.now.case rows.now.links spans rows.now.weights lane.old work.old }
    requires size { length picks.old ≡ length rows.now.case.model.states }
    ensures { IsLeastUpperOneWithin rows.now.case spans limit lane.new picks.new result }
{
    bounds_are_vectors();
    let _ = rows.w();
    let rule = Rule {
        choice: Extreme::Least,
        corner: Extreme::Greatest,
        ends: Ends::Goals,
    };
    if !least_bound_by_guess(rows, rule, limit, lane, work) {
        return false;
    }
    choose_all(rows, lane, picks);
    true
}

/// Leaves in `lane` the least upper vector for one scheduler of the case on the rectangle whose table `weights`
/// is: of the vectors of numbers from 0 to 2 to the `w` that have 2 to the `w` on goal states, and elsewhere at
/// least the weighted mean of some choice at each corner of its row, the one that is least at each state. Leaves
/// in `picks`, for each state that is no goal state, the lowest such choice, and `u32::MAX` for goal states. What
/// `lane`, `picks` and `work` hold at entry is free. Takes no memory.
pub fn least_one(
    case: &Case,
    links: &Links,
    weights: &[i128],
    lane: &mut [i64],
    picks: &mut [u32],
    work: &mut [u32],
)
    ghost spans: { Spans }
    requires can { CanIterate case.now links.now spans weights.now lane.old work.old }
    requires size { length picks.old ≡ length case.now.model.states }
    ensures { IsLeastUpperOne case.now spans lane.new picks.new }
{
    bounds_are_vectors();
    let top = one_at(case.w());
    let rows = Lifted::new(&*case, &*links, &*weights);
    least_one_within(&rows, top, lane, picks, work);
}
