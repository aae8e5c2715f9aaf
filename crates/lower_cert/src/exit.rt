//! Lowering a set of states that have the same number to the greatest number at which a choice holds it.

ghost use Rattle.std.specs.Prelude.{◌≡◌, ◌^◌, ◌<◌, ◌≤◌, ◌⊎◌, ◌≤ℤ◌, pos, length, true, false, ℕ};
ghost use Rattle.lift_grid.specs.Rectangle.{Spans};
ghost use Rattle.lift_model.specs.Model.{is_goal, choices};
ghost use Rattle.lift_model.specs.Links.{HasChoice};
ghost use Rattle.corner_lift.specs.Case.{number, corner_count};
ghost use Rattle.corner_lift.specs.Lifted.{IsLiftedTo};
ghost use Rattle.corner_lift.specs.Certificate.{mark, unmarked};
ghost use Rattle.lower_cert.specs.Capping.{marked};
ghost use Rattle.lower_cert.specs.Lowering.{IsHigh, IsLowered, from_top};
ghost use Rattle.lower_cert.specs.Exits.{AreLevel, CanExit, ExitsAtMost, ChoicesExitAtMost, StatesExitAtMost, AreLoweredTo};

use crate::laws::{premises, vectors_are_lowered};
use crate::lower::{NONE, rank_of};
use crate::sweep::{exit, greater, lesser};
use corner_lift::{Lifted, rows_at_corners};

/// 0 for a state without rank that has the number, and 1 for any other.
fn level_mark(number: i64, rank: u32, level: i64) -> u32
    ensures { result < 1 → (unmarked ≤ rank) × (number ≡ level) }
{
    if rank == NONE && number == level {
        0
    } else {
        1
    }
}

/// Marks the states without rank that have the number by 0, and the others by 1.
fn mark_level(lane: &[i64], ranks: &[u32], marks: &mut [u32], level: i64)
    requires { (length marks.old ≡ length lane.now) × (length ranks.now ≡ length lane.now) }
    ensures { AreLevel marks.new lane.now ranks.now level }
{
    for s in 0..lane.len() {
        marks[s] = level_mark(lane[s], rank_of(ranks, s), level);
    }
}

/// How high a choice of a marked state holds the marked states at a corner.
fn exit_at_corner(
    rows: &Lifted,
    lane: &[i64],
    marks: &[u32],
    level: i64,
    s: u32,
    a: u32,
    corner: u32,
) -> i64
    ghost spans: { Spans }
    requires can { CanExit rows.now spans lane.now marks.now level }
    requires row { HasChoice rows.now.case.model s a }
    requires corner { corner < corner_count rows.now.case s a }
    ensures least { pos 0 ≤ℤ result }
    ensures most { ExitsAtMost rows.now.case spans lane.now marks.now level s a result }
{
    premises();
    let _ = rows.w();
    let whole = rows.table_whole(s, a);
    let into = rows.table_into(s, a, corner, marks, 1);
    let sum = rows.table_value(s, a, corner, lane);
    exit(level, sum, into, whole)
}

/// How high a choice of a marked state holds the marked states: the least of its corners.
fn exit_of_choice(rows: &Lifted, lane: &[i64], marks: &[u32], level: i64, s: u32, a: u32) -> i64
    ghost spans: { Spans }
    requires can { CanExit rows.now spans lane.now marks.now level }
    requires row { HasChoice rows.now.case.model s a }
    ensures least { pos 0 ≤ℤ result }
    ensures most { ExitsAtMost rows.now.case spans lane.now marks.now level s a result }
{
    rows_at_corners();
    let _ = rows.w();
    let corners = rows.corners(s, a);
    let mut least = exit_at_corner(rows, lane, marks, level, s, a, 0);
    for corner in 1..corners {
        let other = exit_at_corner(rows, lane, marks, level, s, a, corner);
        least = lesser(least, other);
    }
    least
}

/// How high the choices of a marked state hold the marked states: the greatest of them.
fn exit_of_choices(rows: &Lifted, lane: &[i64], marks: &[u32], level: i64, s: u32) -> i64
    ghost spans: { Spans }
    requires can { CanExit rows.now spans lane.now marks.now level }
    requires state { s < length rows.now.case.model.states }
    ensures { ChoicesExitAtMost rows.now.case spans lane.now marks.now level s (length (choices rows.now.case.model s)) result }
{
    premises();
    let _ = rows.w();
    let mut most = 0;
    for a in 0..rows.choice_count(s) {
        let other = exit_of_choice(rows, lane, marks, level, s, a);
        most = greater(most, other);
    }
    most
}

/// How high a state holds the marked states, if it is one of them, and 0 if not.
fn exit_of_state(rows: &Lifted, lane: &[i64], marks: &[u32], level: i64, s: u32) -> i64
    ghost spans: { Spans }
    requires can { CanExit rows.now spans lane.now marks.now level }
    requires state { s < length rows.now.case.model.states }
    ensures least { pos 0 ≤ℤ result }
    ensures each { marked marks.now s ≡ true
        → ChoicesExitAtMost rows.now.case spans lane.now marks.now level s (length (choices rows.now.case.model s)) result }
{
    if rank_of(marks, s as usize) > 0 {
        return 0;
    }
    exit_of_choices(rows, lane, marks, level, s)
}

/// The best exit of the marked states: the greatest number at which a choice of theirs holds them.
fn best_exit(rows: &Lifted, lane: &[i64], marks: &[u32], level: i64) -> i64
    ghost spans: { Spans }
    requires { CanExit rows.now spans lane.now marks.now level }
    ensures { StatesExitAtMost rows.now.case spans lane.now marks.now level (length rows.now.case.model.states) result }
{
    premises();
    let _ = rows.w();
    let mut most = 0;
    for s in 0..rows.model().states() {
        let other = exit_of_state(rows, lane, marks, level, s);
        most = greater(most, other);
    }
    most
}

/// The number of a state, or the other number if it is marked.
fn lowered_to(number: i64, mark: u32, exit: i64) -> i64
    ensures { (result ≡ number) ⊎ ((mark < 1) × (result ≡ exit)) }
{
    if mark < 1 { exit } else { number }
}

/// Writes the number for the marked states.
fn write_exit(lane: &mut [i64], marks: &[u32], exit: i64)
    requires { length marks.now ≡ length lane.old }
    ensures { AreLoweredTo lane.old lane.new marks.now exit }
{
    for s in 0..lane.len() {
        lane[s] = lowered_to(lane[s], rank_of(marks, s), exit);
    }
}

/// Lowers the states without rank that have this number to their best exit. Uses `marks`.
pub(crate) fn lower_to_exit(
    rows: &Lifted,
    lane: &mut [i64],
    ranks: &[u32],
    marks: &mut [u32],
    level: i64,
)
    ghost spans: { Spans }
    requires table { IsLiftedTo rows.now spans }
    requires high { IsHigh rows.now.case spans lane.old }
    requires sizes { (length marks.old ≡ length rows.now.case.model.states) × (length ranks.now ≡ length rows.now.case.model.states) }
    requires goal { (s : ℕ) → unmarked ≤ mark ranks.now s → is_goal rows.now.case.model s ≡ false }
    requires level { (pos 0 ≤ℤ level) × (level ≤ℤ pos (2 ^ rows.now.case.w)) }
    ensures { IsLowered rows.now.case (from_top rows.now.case spans) lane.old lane.new false }
{
    vectors_are_lowered();
    rows_at_corners();
    let _ = rows.w();
    mark_level(lane, ranks, marks, level);
    let exit = best_exit(rows, lane, marks, level);
    if level <= exit {
        return;
    }
    write_exit(lane, marks, exit);
}
