//! The vectors of all numbers of steps, one after the other. Where a vector is the one before, all later ones are too,
//! and no row is looked at any more.

ghost use Rattle.std.specs.Prelude.{◌≡◌, length, IsFalse};
ghost use Rattle.lift_pool.specs.Shapes.{IsSameShape};
ghost use Rattle.lift_grid.specs.Rectangle.{Spans};
ghost use Rattle.corner_lift.specs.Lifted.{IsLiftedTo};
ghost use Rattle.lift_bounded.specs.Lanes.{HasChoices, HasVectors};
ghost use Rattle.lift_bounded.specs.Steps.{AreGreatestLowers, AreLeastUppers, IsGreatestStep, IsLeastStep, IsStart};
ghost use Rattle.lift_bounded.specs.Stepping.{CanStep, StepsRise};

use crate::laws::steps_make_certificates;
use crate::steps::{step_down, step_up};
use corner_lift::{Case, Lifted, one_at, rows_at_corners};
use lift_pool::{Pool, lanes_have_shapes};

/// Writes the vector of no step: `2 ^ w` on goal states and 0 elsewhere.
fn write_start(case: &Case, lane: &mut [i64])
    requires { length lane.old ≡ length case.now.model.states }
    ensures { IsStart case.now lane.new }
{
    let top = one_at(case.w());
    for s in 0..case.model().states() {
        lane[s as usize] = if case.model().is_goal(s) { top } else { 0 };
    }
}

/// Leaves in `work` the least upper vector of one step more than `old`, and tells whether it is another one. Where
/// the steps before brought no other vector, that is what `work` holds.
fn next_up(rows: &Lifted, old: &[i64], work: &mut [i64], rising: bool) -> bool
    ghost spans: { Spans }
    requires can { CanStep rows.now spans old.now }
    requires rises { StepsRise rows.now.case spans old.now }
    requires size { length work.old ≡ length rows.now.case.model.states }
    requires still { IsFalse rising → (old.now ≡ work.old) × IsLeastStep rows.now.case spans old.now work.old }
    ensures step { IsLeastStep rows.now.case spans old.now work.new }
    ensures same { IsFalse result → old.now ≡ work.new }
{
    if rising {
        step_up(rows, old, work)
    } else {
        false
    }
}

/// The same of the greatest lower vector and its choices.
fn next_down(rows: &Lifted, old: &[i64], work: &mut [i64], marks: &mut [u32], rising: bool) -> bool
    ghost spans: { Spans }
    requires can { CanStep rows.now spans old.now }
    requires size { length work.old ≡ length rows.now.case.model.states }
    requires marks { length marks.old ≡ length rows.now.case.model.states }
    requires still { IsFalse rising → (old.now ≡ work.old) × IsGreatestStep rows.now.case spans old.now work.old marks.old }
    ensures step { IsGreatestStep rows.now.case spans old.now work.new marks.new }
    ensures same { IsFalse result → old.now ≡ work.new }
{
    if rising {
        step_down(rows, old, work, marks)
    } else {
        false
    }
}

/// Leaves in the lanes the least upper vectors of 0 to h steps. `work` has a place for each state.
pub(crate) fn least_uppers(rows: &Lifted, h: u32, numbers: &mut Pool<i64>, work: &mut [i64])
    ghost spans: { Spans }
    requires lifted { IsLiftedTo rows.now spans }
    requires numbers { HasVectors rows.now.case h numbers.old.lanes }
    requires work { length work.old ≡ length rows.now.case.model.states }
    ensures least { AreLeastUppers rows.now.case spans h numbers.new.lanes }
    ensures shape { IsSameShape numbers.old numbers.new }
{
    steps_make_certificates();
    rows_at_corners();
    lanes_have_shapes::<i64>();
    let _ = rows.w();
    write_start(rows.case(), work);
    numbers.write(0, work);
    let mut rising = true;
    for n in 0..h {
        rising = next_up(rows, numbers.lane(n as usize), work, rising);
        numbers.write(n as usize + 1, work);
    }
}

/// Leaves in the lanes the greatest lower vectors of 0 to h steps, and their choices. `work` and `marks` have a
/// place for each state.
pub(crate) fn greatest_lowers(
    rows: &Lifted,
    h: u32,
    numbers: &mut Pool<i64>,
    picks: &mut Pool<u32>,
    work: &mut [i64],
    marks: &mut [u32],
)
    ghost spans: { Spans }
    requires lifted { IsLiftedTo rows.now spans }
    requires numbers { HasVectors rows.now.case h numbers.old.lanes }
    requires picks { HasChoices rows.now.case h picks.old.lanes }
    requires work { length work.old ≡ length rows.now.case.model.states }
    requires marks { length marks.old ≡ length rows.now.case.model.states }
    ensures lowers { AreGreatestLowers rows.now.case spans h (record { numbers = numbers.new.lanes; picks = picks.new.lanes }) }
    ensures numbers { IsSameShape numbers.old numbers.new }
    ensures picks { IsSameShape picks.old picks.new }
{
    steps_make_certificates();
    lanes_have_shapes::<i64>();
    lanes_have_shapes::<u32>();
    let _ = rows.w();
    write_start(rows.case(), work);
    numbers.write(0, work);
    let mut rising = true;
    for n in 0..h {
        rising = next_down(rows, numbers.lane(n as usize), work, marks, rising);
        numbers.write(n as usize + 1, work);
        picks.write(n as usize, marks);
    }
}
