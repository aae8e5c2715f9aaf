//! Steps that lower a vector, and keep it at or above every lower vector.

ghost use Rattle.std.specs.Prelude.{IfSome, ℕ, ◌≡◌, ◌*◌, ◌+◌, ◌<◌, ◌≤◌, ◌≤ℤ◌, ◌<ℤ◌, ◌*ℤ◌, ◌↔◌, pos, length, unsigned_abs, IsTrue, nat_lt, true, ◌-ℤ◌, ◌⊎◌};
ghost use Rattle.lift_grid.specs.Rectangle.{Spans};
ghost use Rattle.lift_model.specs.Model.{choices, row_count};
ghost use Rattle.lift_model.specs.Links.{HasChoice};
ghost use Rattle.lift_model.specs.OnlyRow.{IsPairRow};
ghost use Rattle.corner_lift.specs.Case.{IsInside, corner_count, engine_limit, number, row_value, row_whole};
ghost use Rattle.corner_lift.specs.Lifted.{IsLiftedTo};
ghost use Rattle.corner_lift.specs.Certificate.{AreNumbers, mark, unmarked};
ghost use Rattle.corner_lift.specs.Stages.{IsAllowed};
ghost use Rattle.lower_cert.specs.Lowering.{HasPlaces, IsHigh, IsRanked, AreFlaggedBefore, IsStuckLevel, IsLoweredAt, total};

use crate::laws::{premises, vectors_are_lowered};
use corner_lift::{LaneSum, Lifted, rows_at_corners};
use lift_model::{OnlyRow, PairRow};
use robust_rank::{attract, ranks_go_by_stages};

/// In place of a rank or of a chosen row where a state has none.
pub(crate) const NONE: u32 = u32::MAX;

/// Writes 1 for each state.
pub(crate) fn start(rows: &Lifted, lane: &mut [i64])
    ghost spans: { Spans }
    requires { length lane.old ≡ length rows.now.case.model.states }
    ensures { IsHigh rows.now.case spans lane.new }
{
    rows_at_corners();
    let top = rows.top();
    let _ = rows.w();
    for s in 0..lane.len() {
        lane[s] = top;
    }
}

/// A number times a weight.
#[inline(always)]
pub(crate) fn times(number: i64, weight: i128) -> i128
    requires room { unsigned_abs number * unsigned_abs weight < engine_limit }
    ensures { result ≡ number *ℤ weight }
{
    i128::from(number) * weight
}

/// Whether the one is at most the other.
#[inline(always)]
pub(crate) fn is_at_most(a: i128, b: i128) -> bool
    ensures { IsTrue result ↔ a ≤ℤ b }
{
    a <= b
}

/// Whether a row's sum is at least a number times its whole, if 64 bits hold that.
#[inline(always)]
fn reaches(row: LaneSum, number: i64) -> Option<bool>
    ensures { IfSome result (λ yes. IsTrue yes ↔ (number *ℤ row.whole) ≤ℤ row.sum) }
{
    let least = number.checked_mul(row.whole)?;
    Some(least <= row.sum)
}

/// Whether the state's choice, a row of two entries that is quickly looked up, holds the number at each corner.
#[inline(always)]
fn holds(rows: &Lifted, lane: &[i64], s: u32, a: u32, number: i64) -> Option<bool>
    ghost spans: { Spans }
    requires table { IsLiftedTo rows.now spans }
    requires numbers { AreNumbers rows.now.case lane.now }
    requires row { HasChoice rows.now.case.model s a }
    ensures { IfSome result (λ yes. IsTrue yes ↔ ((c : ℕ) → c < corner_count rows.now.case s a
        → (number *ℤ row_whole rows.now.case s a) ≤ℤ row_value rows.now.case spans s a lane.now c)) }
{
    let row = rows.least(s, a, lane)?;
    let yes = reaches(row, number)?;
    Some(yes)
}

/// The same of the only row of a state, which has two entries.
#[inline(always)]
fn pair_holds(rows: &Lifted, lane: &[i64], s: u32, row: PairRow, number: i64) -> Option<bool>
    ghost spans: { Spans }
    requires table { IsLiftedTo rows.now spans }
    requires numbers { AreNumbers rows.now.case lane.now }
    requires state { s < length rows.now.case.model.states }
    requires row { IsPairRow rows.now.case.model rows.now.links s row }
    ensures { IfSome result (λ yes. IsTrue yes ↔ ((c : ℕ) → c < corner_count rows.now.case s 0
        → (number *ℤ row_whole rows.now.case s 0) ≤ℤ row_value rows.now.case spans s 0 lane.now c)) }
{
    let row = rows.least_of(s, row, lane)?;
    let yes = reaches(row, number)?;
    Some(yes)
}

/// Whether the state's choice holds its number at each corner.
#[inline(always)]
fn is_allowed(rows: &Lifted, lane: &[i64], s: u32, a: u32) -> bool
    ghost spans: { Spans }
    requires table { IsLiftedTo rows.now spans }
    requires numbers { AreNumbers rows.now.case lane.now }
    requires row { HasChoice rows.now.case.model s a }
    ensures { IsTrue result ↔ IsAllowed rows.now.case spans (number lane.now) s a }
{
    premises();
    let _ = rows.w();
    let number = lane[s as usize];
    if number <= 0 {
        return true;
    }
    match holds(rows, lane, s, a, number) {
        Some(yes) => yes,
        None => rows.is_held(s, a, lane, number),
    }
}

/// 1 for what is so, and 0 for what isn't.
#[inline(always)]
fn flag(is: bool) -> u32
    ensures yes { IsTrue is → nat_lt 0 result ≡ true }
    ensures no { nat_lt 0 result ≡ true → IsTrue is }
{
    u32::from(is)
}

/// Whether the only row of a state holds the state's number at each corner, if that is quickly told.
#[inline(always)]
fn only_holds(rows: &Lifted, lane: &[i64], s: u32) -> Option<bool>
    ghost spans: { Spans }
    requires table { IsLiftedTo rows.now spans }
    requires numbers { AreNumbers rows.now.case lane.now }
    requires state { s < length rows.now.case.model.states }
    ensures only { IfSome result (λ yes. length (choices rows.now.case.model s) ≡ 1) }
    ensures allowed { IfSome result (λ yes. IsTrue yes ↔ IsAllowed rows.now.case spans (number lane.now) s 0) }
{
    premises();
    let _ = rows.w();
    let number = lane[s as usize];
    match rows.only_row(s) {
        OnlyRow::Single(target) => Some(number <= lane[target as usize]),
        OnlyRow::Pair(row) => {
            let yes = pair_holds(rows, lane, s, row, number)?;
            Some(yes)
        }
        OnlyRow::Other => None,
    }
}

/// Tells for each row of a state whether its choice is allowed.
#[inline(never)]
fn allow_choices(rows: &Lifted, lane: &[i64], s: u32, allowed: &mut [u32])
    ghost spans: { Spans }
    requires table { IsLiftedTo rows.now spans }
    requires numbers { AreNumbers rows.now.case lane.now }
    requires state { s < length rows.now.case.model.states }
    requires places { length allowed.old ≡ row_count rows.now.case.model }
    requires flagged { AreFlaggedBefore rows.now.case spans lane.now allowed.old s 0 }
    ensures flagged { AreFlaggedBefore rows.now.case spans lane.now allowed.new (s + 1) 0 }
{
    for a in 0..rows.choice_count(s) {
        let row = rows.row_place(s, a);
        allowed[row] = flag(is_allowed(rows, lane, s, a));
    }
}

/// The same, by a short path where the state has one row that is quickly looked up.
#[inline(always)]
fn allow_state(rows: &Lifted, lane: &[i64], s: u32, allowed: &mut [u32])
    ghost spans: { Spans }
    requires table { IsLiftedTo rows.now spans }
    requires numbers { AreNumbers rows.now.case lane.now }
    requires state { s < length rows.now.case.model.states }
    requires places { length allowed.old ≡ row_count rows.now.case.model }
    requires flagged { AreFlaggedBefore rows.now.case spans lane.now allowed.old s 0 }
    ensures flagged { AreFlaggedBefore rows.now.case spans lane.now allowed.new (s + 1) 0 }
{
    if let Some(yes) = only_holds(rows, lane, s) {
        allowed[rows.row_place(s, 0)] = flag(yes);
        return;
    }
    allow_choices(rows, lane, s, allowed);
}

/// Tells for each row whether its choice is allowed.
#[inline(never)]
fn allow(rows: &Lifted, lane: &[i64], allowed: &mut [u32])
    ghost spans: { Spans }
    requires table { IsLiftedTo rows.now spans }
    requires numbers { AreNumbers rows.now.case lane.now }
    requires places { length allowed.old ≡ row_count rows.now.case.model }
    ensures flagged { AreFlaggedBefore rows.now.case spans lane.now allowed.new (length rows.now.case.model.states) 0 }
{
    for s in 0..rows.model().states() {
        allow_state(rows, lane, s, allowed);
    }
}

/// Ranks the states by the stages of the allowed choices.
pub(crate) fn rank_states(
    rows: &Lifted,
    lane: &[i64],
    allowed: &mut [u32],
    ranks: &mut [u32],
    picks: &mut [u32],
)
    ghost spans: { Spans }
    requires table { IsLiftedTo rows.now spans }
    requires numbers { AreNumbers rows.now.case lane.now }
    requires places { HasPlaces rows.now.case allowed.old ranks.old picks.old }
    ensures { IsRanked rows.now.case spans lane.now picks.new ranks.new }
{
    ranks_go_by_stages();
    let _ = rows.w();
    allow(rows, lane, allowed);
    attract(
        rows.case(),
        rows.links(),
        rows.weights(),
        allowed,
        ranks,
        picks,
    );
}

/// The greatest number of a state without rank.
#[inline(never)]
pub(crate) fn stuck_level(lane: &[i64], ranks: &[u32]) -> i64
    requires { length ranks.now ≡ length lane.now }
    ensures { IsStuckLevel lane.now ranks.now (length lane.now) result }
{
    let mut level = 0;
    for s in 0..lane.len() {
        if ranks[s] == NONE && lane[s] > level {
            level = lane[s];
        }
    }
    level
}

/// The rank of a state.
pub(crate) fn rank_of(ranks: &[u32], s: usize) -> u32
    requires { s < length ranks.now }
    ensures { result ≡ mark ranks.now s }
{
    ranks[s]
}

/// The number of a state, less 1 if it has no rank and its number is the level.
fn lowered(number: i64, rank: u32, level: i64) -> i64
    requires { pos 0 <ℤ level }
    ensures { ((unmarked ≤ rank) × (number ≡ level) × (result ≡ level -ℤ pos 1))
        ⊎ ((result ≡ number) × (unmarked ≤ rank → number ≡ level → ⊥)) }
{
    if rank == NONE && number == level {
        level - 1
    } else {
        number
    }
}

/// Takes 1 from the states without rank that have this number.
fn lower_stuck(lane: &mut [i64], ranks: &[u32], level: i64)
    requires sizes { length ranks.now ≡ length lane.old }
    requires positive { pos 0 <ℤ level }
    ensures { IsLoweredAt lane.old lane.new ranks.now level (length lane.old) }
{
    for s in 0..lane.len() {
        lane[s] = lowered(lane[s], rank_of(ranks, s), level);
    }
}

/// Lowers a vector where its stages give no rank, if the greatest number there is above 0.
pub(crate) fn lower_level(rows: &Lifted, lane: &mut [i64], ranks: &[u32], picks: &[u32], level: i64)
    ghost spans: { Spans }
    requires inside { IsInside rows.now.case.root spans }
    requires high { IsHigh rows.now.case spans lane.old }
    requires ranked { IsRanked rows.now.case spans lane.old picks.now ranks.now }
    requires level { IsStuckLevel lane.old ranks.now (length lane.old) level }
    requires positive { pos 0 <ℤ level }
    ensures high { IsHigh rows.now.case spans lane.new }
    ensures lower { total lane.new < total lane.old }
{
    vectors_are_lowered();
    rows_at_corners();
    let _ = rows.w();
    lower_stuck(lane, ranks, level);
}
