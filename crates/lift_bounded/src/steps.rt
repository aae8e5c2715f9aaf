//! Vectors of one step more: the least upper one, and the greatest lower one with its choices. Each row is looked at
//! once.

ghost use Rattle.std.specs.Prelude.{◌≡◌, ◌^◌, ◌<◌, ◌≤ℤ◌, pos, length, IfSome, IsFalse};
ghost use Rattle.lift_grid.specs.Rectangle.{Spans};
ghost use Rattle.lift_model.specs.Model.{choices};
ghost use Rattle.lift_model.specs.Links.{HasChoice};
ghost use Rattle.lift_bounded.specs.Steps.{IsGreatestStep, IsLeastStep};
ghost use Rattle.lift_bounded.specs.Stepping.{
  CanStep,
  IsBetter,
  IsGreatestFor,
  IsLeastFor,
  IsLowerAt,
  IsMostHeld,
  IsRaised,
  IsUpperAt,
  StepsRise,
};

use corner_lift::{Lifted, Weighed, rounded_down, rounded_up_from, rows_at_corners};

/// In place of a chosen row where a state has none.
const UNMARKED: u32 = u32::MAX;

/// A number that a choice holds, and the choice.
#[derive(Clone, Copy)]
pub(crate) struct Chosen {
    pub number: i64,
    pub pick: u32,
}

/// The least number from this one on that covers a choice, if its row has two entries and is quickly looked up.
#[inline(always)]
fn raised_by_pair(rows: &Lifted, old: &[i64], s: u32, a: u32, number: i64) -> Option<i64>
    ghost spans: { Spans }
    requires can { CanStep rows.now spans old.now }
    requires row { HasChoice rows.now.case.model s a }
    requires range { (pos 0 ≤ℤ number) × (number ≤ℤ pos (2 ^ rows.now.case.w)) }
    ensures { IfSome result (IsRaised rows.now.case spans old.now s a number) }
{
    rows_at_corners();
    let _ = rows.w();
    let row = rows.greatest(s, a, old)?;
    row.rounded_up_from(number)
}

/// The same of any row.
#[inline(never)]
fn raised_by_row(rows: &Lifted, old: &[i64], s: u32, a: u32, number: i64) -> i64
    ghost spans: { Spans }
    requires can { CanStep rows.now spans old.now }
    requires row { HasChoice rows.now.case.model s a }
    requires range { (pos 0 ≤ℤ number) × (number ≤ℤ pos (2 ^ rows.now.case.w)) }
    ensures { IsRaised rows.now.case spans old.now s a number result }
{
    rows_at_corners();
    let _ = rows.w();
    let Weighed { sum, whole } = rows.table_greatest(s, a, old);
    rounded_up_from(number, sum, whole)
}

/// The least number from this one on that covers a choice.
#[inline(always)]
fn raised(rows: &Lifted, old: &[i64], s: u32, a: u32, number: i64) -> i64
    ghost spans: { Spans }
    requires can { CanStep rows.now spans old.now }
    requires row { HasChoice rows.now.case.model s a }
    requires range { (pos 0 ≤ℤ number) × (number ≤ℤ pos (2 ^ rows.now.case.w)) }
    ensures { IsRaised rows.now.case spans old.now s a number result }
{
    match raised_by_pair(rows, old, s, a, number) {
        Some(least) => least,
        None => raised_by_row(rows, old, s, a, number),
    }
}

/// The greatest number that a choice holds, if its row has two entries and is quickly looked up.
#[inline(always)]
fn held_by_pair(rows: &Lifted, old: &[i64], s: u32, a: u32) -> Option<i64>
    ghost spans: { Spans }
    requires can { CanStep rows.now spans old.now }
    requires row { HasChoice rows.now.case.model s a }
    ensures { IfSome result (IsMostHeld rows.now.case spans old.now s a) }
{
    rows_at_corners();
    let _ = rows.w();
    let row = rows.least(s, a, old)?;
    row.quotient_down()
}

/// The same of any row.
#[inline(never)]
fn held_by_row(rows: &Lifted, old: &[i64], s: u32, a: u32) -> i64
    ghost spans: { Spans }
    requires can { CanStep rows.now spans old.now }
    requires row { HasChoice rows.now.case.model s a }
    ensures { IsMostHeld rows.now.case spans old.now s a result }
{
    rows_at_corners();
    let _ = rows.w();
    let Weighed { sum, whole } = rows.table_least(s, a, old);
    rounded_down(sum, whole)
}

/// The greatest number that a choice holds.
#[inline(always)]
fn held(rows: &Lifted, old: &[i64], s: u32, a: u32) -> i64
    ghost spans: { Spans }
    requires can { CanStep rows.now spans old.now }
    requires row { HasChoice rows.now.case.model s a }
    ensures { IsMostHeld rows.now.case spans old.now s a result }
{
    match held_by_pair(rows, old, s, a) {
        Some(most) => most,
        None => held_by_row(rows, old, s, a),
    }
}

/// The least number from the state's own on that covers all choices of a state.
fn covering(rows: &Lifted, old: &[i64], s: u32) -> i64
    ghost spans: { Spans }
    requires can { CanStep rows.now spans old.now }
    requires state { s < length rows.now.case.model.states }
    ensures { IsLeastFor rows.now.case spans old.now s (length (choices rows.now.case.model s)) result }
{
    let _ = rows.w();
    let mut number = old[s as usize];
    for a in 0..rows.choice_count(s) {
        number = raised(rows, old, s, a, number);
    }
    number
}

/// The better one of a chosen row and a further choice.
fn better(chosen: Chosen, number: i64, pick: u32) -> Chosen
    ensures { IsBetter chosen number pick result }
{
    if chosen.number < number {
        Chosen { number, pick }
    } else {
        chosen
    }
}

/// The greatest number that a choice of a state holds, and the lowest choice that does.
fn best(rows: &Lifted, old: &[i64], s: u32) -> Chosen
    ghost spans: { Spans }
    requires can { CanStep rows.now spans old.now }
    requires state { s < length rows.now.case.model.states }
    ensures { IsGreatestFor rows.now.case spans old.now s (length (choices rows.now.case.model s)) result }
{
    let _ = rows.w();
    let number = held(rows, old, s, 0);
    let mut chosen = Chosen { number, pick: 0 };
    for a in 1..rows.choice_count(s) {
        let other = held(rows, old, s, a);
        chosen = better(chosen, other, a);
    }
    chosen
}

/// The number of a state in the least upper vector of one step more.
fn upper_at(rows: &Lifted, old: &[i64], s: u32) -> i64
    ghost spans: { Spans }
    requires can { CanStep rows.now spans old.now }
    requires state { s < length rows.now.case.model.states }
    ensures { IsUpperAt rows.now.case spans old.now s result }
{
    if rows.model().is_goal(s) {
        rows.top()
    } else {
        covering(rows, old, s)
    }
}

/// The number of a state and its chosen row in the greatest lower vector of one step more.
fn lower_at(rows: &Lifted, old: &[i64], s: u32) -> Chosen
    ghost spans: { Spans }
    requires can { CanStep rows.now spans old.now }
    requires state { s < length rows.now.case.model.states }
    ensures { IsLowerAt rows.now.case spans old.now s result.number result.pick }
{
    if rows.model().is_goal(s) {
        Chosen {
            number: rows.top(),
            pick: UNMARKED,
        }
    } else {
        best(rows, old, s)
    }
}

/// Whether there was a change before, or the numbers differ.
#[inline(always)]
fn is_changed(before: bool, old: i64, new: i64) -> bool
    ensures before { IsFalse result → IsFalse before }
    ensures same { IsFalse result → old ≡ new }
{
    before || old != new
}

/// Leaves in `new` the least upper vector of one step more than `old`, and tells whether it is another one. No upper
/// vector of one step more lies below `old` at a state.
pub(crate) fn step_up(rows: &Lifted, old: &[i64], new: &mut [i64]) -> bool
    ghost spans: { Spans }
    requires can { CanStep rows.now spans old.now }
    requires rises { StepsRise rows.now.case spans old.now }
    requires size { length new.old ≡ length rows.now.case.model.states }
    ensures step { IsLeastStep rows.now.case spans old.now new.new }
    ensures same { IsFalse result → old.now ≡ new.new }
{
    rows_at_corners();
    let _ = rows.w();
    let mut changed = false;
    for s in 0..rows.model().states() {
        let number = upper_at(rows, old, s);
        new[s as usize] = number;
        changed = is_changed(changed, old[s as usize], number);
    }
    changed
}

/// Leaves in `new` and `picks` the greatest lower vector of one step more than `old`, with its choices, and tells
/// whether it is another vector.
pub(crate) fn step_down(rows: &Lifted, old: &[i64], new: &mut [i64], picks: &mut [u32]) -> bool
    ghost spans: { Spans }
    requires can { CanStep rows.now spans old.now }
    requires size { length new.old ≡ length rows.now.case.model.states }
    requires picks { length picks.old ≡ length rows.now.case.model.states }
    ensures step { IsGreatestStep rows.now.case spans old.now new.new picks.new }
    ensures same { IsFalse result → old.now ≡ new.new }
{
    rows_at_corners();
    let _ = rows.w();
    let mut changed = false;
    for s in 0..rows.model().states() {
        let Chosen { number, pick } = lower_at(rows, old, s);
        new[s as usize] = number;
        picks[s as usize] = pick;
        changed = is_changed(changed, old[s as usize], number);
    }
    changed
}
