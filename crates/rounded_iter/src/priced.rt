//! The least priced vector: the least bound with rewards, where each number that was cut off is truly paid for.

ghost use Rattle.std.specs.Prelude.{◌≡◌, false, ◌<◌, ◌≤ℤ◌, ◌<ℤ◌, ◌-ℤ◌, pos, List, ℤ, IsTrue, IsFalse, IfSome, IfNone, length};
ghost use Rattle.lift_grid.specs.Rectangle.{Spans};
ghost use Rattle.lift_model.specs.Links.{HasChoice};
ghost use Rattle.lift_model.specs.Model.{is_goal};
ghost use Rattle.corner_lift.specs.Case.{number};
ghost use Rattle.corner_lift.specs.Certificate.{AreNumbers};
ghost use Rattle.corner_lift.specs.Lifted.{IsLiftedTo};
ghost use Rattle.rounded_iter.specs.Priced.{IsPriced, IsLeastPriced, IsPaidFor, IsBeyond, IsPaid, IsUnpaid, IsCutOff, ArePaid, SomeUnpaid, price};
ghost use Rattle.rounded_iter.specs.Watching.{CanIterate};

use crate::least::least_bound;
use corner_lift::{Lifted, Weighed, corners_bound_weights, one_at, rows_at_corners, times};
use float_guess::{Ends, Extreme, Rewards, Rule};
use lift_model::OnlyRow;

/// What is left of a number without a reward, or none if the reward is more.
fn left_of(top: i64, reward: u128) -> Option<i64>
    requires { pos 0 ≤ℤ top }
    ensures left { IfSome result (λ left. (left ≡ top -ℤ pos reward) × (pos 0 ≤ℤ left)) }
    ensures none { IfNone result (top <ℤ pos reward) }
{
    if reward > top as u128 {
        return None;
    }
    Some(top - reward as i64)
}

/// Whether 2 to the `w` pays for a choice, whatever the reward.
fn pays_choice(rows: &Lifted, rewards: &Rewards, lane: &[i64], s: u32, a: u32) -> bool
    ghost spans: { Spans }
    requires lifted { IsLiftedTo rows.now spans }
    requires row { HasChoice rows.now.case.model s a }
    requires numbers { AreNumbers rows.now.case lane.now }
    ensures paid { IsTrue result → IsPaidFor rows.now.case spans (price rows.now.case.w rewards.now) lane.now s a }
    ensures beyond { IsFalse result → IsBeyond rows.now.case spans (price rows.now.case.w rewards.now) lane.now s a }
{
    rows_at_corners();
    corners_bound_weights();
    let w = rows.w();
    let Some(left) = left_of(one_at(w), rewards.of(w, s)) else {
        return false;
    };
    let Weighed { sum, whole } = rows.table_greatest(s, a, lane);
    sum <= times(left, whole)
}

/// The same for each choice of a state.
fn pays(rows: &Lifted, rewards: &Rewards, lane: &[i64], s: u32) -> bool
    ghost spans: { Spans }
    requires lifted { IsLiftedTo rows.now spans }
    requires state { s < length rows.now.case.model.states }
    requires numbers { AreNumbers rows.now.case lane.now }
    ensures paid { IsTrue result → IsPaid rows.now.case spans (price rows.now.case.w rewards.now) lane.now s }
    ensures unpaid { IsFalse result → IsUnpaid rows.now.case spans (price rows.now.case.w rewards.now) lane.now s }
{
    for a in 0..rows.choice_count(s) {
        if !pays_choice(rows, rewards, lane, s, a) {
            return false;
        }
    }
    true
}

/// The same, or the state's number isn't cut off.
fn pays_cut_off(rows: &Lifted, rewards: &Rewards, lane: &[i64], s: u32) -> bool
    ghost spans: { Spans }
    requires lifted { IsLiftedTo rows.now spans }
    requires state { s < length rows.now.case.model.states }
    requires numbers { AreNumbers rows.now.case lane.now }
    ensures paid { IsTrue result → IsCutOff rows.now.case lane.now s
        → IsPaid rows.now.case spans (price rows.now.case.w rewards.now) lane.now s }
    ensures cut { IsFalse result → IsCutOff rows.now.case lane.now s }
    ensures unpaid { IsFalse result → IsUnpaid rows.now.case spans (price rows.now.case.w rewards.now) lane.now s }
{
    if rows.model().is_goal(s) {
        return true;
    }
    if lane[s as usize] != one_at(rows.w()) {
        return true;
    }
    pays(rows, rewards, lane, s)
}

/// The same for each state.
fn pays_all(rows: &Lifted, rewards: &Rewards, lane: &[i64]) -> bool
    ghost spans: { Spans }
    requires lifted { IsLiftedTo rows.now spans }
    requires numbers { AreNumbers rows.now.case lane.now }
    ensures paid { IsTrue result → ArePaid rows.now.case spans (price rows.now.case.w rewards.now) lane.now
        (length rows.now.case.model.states) }
    ensures unpaid { IsFalse result → SomeUnpaid rows.now.case spans (price rows.now.case.w rewards.now) lane.now }
{
    for s in 0..rows.model().states() {
        if !pays_cut_off(rows, rewards, lane, s) {
            return false;
        }
    }
    true
}

/// Whether a choice leads back to its state alone, and a visit of that costs something: then what it costs has no end.
fn is_endless(rows: &Lifted, rewards: &Rewards, s: u32, a: u32) -> bool
    ghost spans: { Spans }
    requires lifted { IsLiftedTo rows.now spans }
    requires row { HasChoice rows.now.case.model s a }
    requires open { is_goal rows.now.case.model s ≡ false }
    ensures { IsTrue result → (z : List ℤ) → IsPriced rows.now.case spans (price rows.now.case.w rewards.now) z → ⊥ }
{
    rows_at_corners();
    corners_bound_weights();
    let Some(target) = rows.only_target(s, a) else {
        return false;
    };
    if target != s {
        return false;
    }
    let reward = rewards.of(rows.w(), s);
    0 < reward
}

/// Whether a state has one row, which leads to other states: then none is so.
#[inline(always)]
fn leads_on(rows: &Lifted, s: u32) -> bool
    requires { s < length rows.now.case.model.states }
{
    match rows.only_row(s) {
        OnlyRow::Single(_) | OnlyRow::Pair(_) => true,
        OnlyRow::Other => false,
    }
}

/// Whether a choice of a state is so.
fn has_endless_choice(rows: &Lifted, rewards: &Rewards, s: u32) -> bool
    ghost spans: { Spans }
    requires lifted { IsLiftedTo rows.now spans }
    requires state { s < length rows.now.case.model.states }
    ensures { IsTrue result → (z : List ℤ) → IsPriced rows.now.case spans (price rows.now.case.w rewards.now) z → ⊥ }
{
    if rows.model().is_goal(s) || leads_on(rows, s) {
        return false;
    }
    for a in 0..rows.choice_count(s) {
        if is_endless(rows, rewards, s, a) {
            return true;
        }
    }
    false
}

/// Whether a choice of some state is so.
fn has_endless(rows: &Lifted, rewards: &Rewards) -> bool
    ghost spans: { Spans }
    requires { IsLiftedTo rows.now spans }
    ensures { IsTrue result → (z : List ℤ) → IsPriced rows.now.case spans (price rows.now.case.w rewards.now) z → ⊥ }
{
    for s in 0..rows.model().states() {
        if has_endless_choice(rows, rewards, s) {
            return true;
        }
    }
    false
}

/// Leaves in `lane` the least priced vector of the case on the rectangle that its rows are lifted to, if there is one and
/// the initial state's number in it is within the limit: of the vectors of numbers from 0 to 2 to the `w` that have 0 on
/// goal states, and elsewhere at least the reward and the weighted mean of each choice at each corner of its row, the one that
/// is least at each state. False: in each such vector, if there is any, the initial state's number is above the limit, and
/// what `lane` holds is free. What `lane` and `work` hold at entry is free. Takes no memory.
pub fn least_priced_within(
    rows: &Lifted,
    rewards: &Rewards,
    limit: i64,
    lane: &mut [i64],
    work: &mut [u32],
) -> bool
    ghost spans: { Spans }
    requires { CanIterate rows.now.case rows.now.links spans rows.now.weights lane.old work.old }
    ensures least { IsTrue result → IsLeastPriced rows.now.case spans (price rows.now.case.w rewards.now) lane.new }
    ensures past { IsFalse result → (z : List ℤ) → IsPriced rows.now.case spans (price rows.now.case.w rewards.now) z
        → limit <ℤ number z rows.now.case.model.init }
{
    rows_at_corners();
    corners_bound_weights();
    let _ = rows.w();
    let rule = Rule {
        choice: Extreme::Greatest,
        corner: Extreme::Greatest,
        ends: Ends::Rewarded(*rewards),
    };
    if has_endless(rows, rewards) {
        return false;
    }
    if !least_bound(rows, rule, limit, lane, work) {
        return false;
    }
    pays_all(rows, rewards, lane)
}

/// The same with no limit but 2 to the `w`. False: there is no such vector.
pub fn least_priced(rows: &Lifted, rewards: &Rewards, lane: &mut [i64], work: &mut [u32]) -> bool
    ghost spans: { Spans }
    requires { CanIterate rows.now.case rows.now.links spans rows.now.weights lane.old work.old }
    ensures least { IsTrue result → IsLeastPriced rows.now.case spans (price rows.now.case.w rewards.now) lane.new }
    ensures none { IsFalse result → (z : List ℤ) → IsPriced rows.now.case spans (price rows.now.case.w rewards.now) z → ⊥ }
{
    rows_at_corners();
    least_priced_within(rows, rewards, one_at(rows.w()), lane, work)
}
