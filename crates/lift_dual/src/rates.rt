//! The least rate of every choice.

ghost use Rattle.std.specs.Prelude.{◌≡◌, ◌≤◌, ◌<◌, ◌^◌, ◌*ℤ◌, ◌≤ℤ◌, ◌<ℤ◌, false, pos, length};
ghost use Rattle.lift_grid.specs.Rectangle.{Spans};
ghost use Rattle.lift_model.specs.Model.{is_goal};
ghost use Rattle.lift_model.specs.Links.{HasChoice};
ghost use Rattle.corner_lift.specs.Case.{engine_limit};
ghost use Rattle.corner_lift.specs.Certificate.{mark, unmarked, most_rate};
ghost use Rattle.corner_lift.specs.Lifted.{IsLiftedTo};
ghost use Rattle.corner_lift.specs.Stages.{LeadsBelow};
ghost use Rattle.robust_rank.specs.Rate.{IsRowRate, IsFirstFrom};
ghost use Rattle.lift_dual.specs.Avoiding.{AllLeadBelow, AreStagesOfAll};
ghost use Rattle.lift_dual.specs.Rates.{IsRateOfState, IsRateOfStates};

use crate::ranks::{is_unranked, mark_at};
use corner_lift::{Lifted, Weighed, is_enough, least_into, rows_at_corners};

/// The greatest rate that there is need of.
const MOST_RATE: u32 = 126;

/// How often `weight` is to be doubled to be at least the whole, but at least `first` times.
fn doublings(weight: i128, whole: i128, first: u32) -> u32
    requires weight { pos 1 ≤ℤ weight }
    requires whole { (pos 1 ≤ℤ whole) × (whole <ℤ pos engine_limit) }
    requires first { first ≤ most_rate }
    ensures least { IsFirstFrom (λ e. whole ≤ℤ (weight *ℤ pos (2 ^ e))) first result }
    ensures most { result ≤ most_rate }
{
    for e in first..MOST_RATE {
        if is_enough(weight, e, whole) {
            return e;
        }
    }
    MOST_RATE
}

/// The least rate of the state's choice, but at least `first`.
fn rate_of_row(rows: &Lifted, ranks: &[u32], s: u32, a: u32, first: u32) -> u32
    ghost spans: { Spans }
    requires lifted { IsLiftedTo rows.now spans }
    requires row { HasChoice rows.now.case.model s a }
    requires ranks { length ranks.now ≡ length rows.now.case.model.states }
    requires leads { LeadsBelow rows.now.case spans (mark ranks.now) (mark ranks.now s) s a }
    requires first { first ≤ most_rate }
    ensures least { IsFirstFrom (IsRowRate rows.now.case spans ranks.now s a) first result }
    ensures most { result ≤ most_rate }
{
    rows_at_corners();
    let _ = rows.w();
    let rank = mark_at(ranks, s as usize);
    let Weighed { sum, whole } = least_into(
        rows.case(),
        rows.links(),
        rows.weights(),
        s,
        a,
        ranks,
        rank,
    );
    doublings(sum, whole, first)
}

/// The least rate of all choices of the state, but at least `first`, which it is where the state has no rank or is
/// a goal state.
fn rate_of_state(rows: &Lifted, ranks: &[u32], s: u32, first: u32) -> u32
    ghost spans: { Spans }
    requires lifted { IsLiftedTo rows.now spans }
    requires state { s < length rows.now.case.model.states }
    requires ranks { length ranks.now ≡ length rows.now.case.model.states }
    requires leads { is_goal rows.now.case.model s ≡ false → mark ranks.now s < unmarked
        → AllLeadBelow rows.now.case spans (mark ranks.now) (mark ranks.now s) s }
    requires first { first ≤ most_rate }
    ensures least { IsFirstFrom (IsRateOfState rows.now.case spans ranks.now s) first result }
    ensures most { result ≤ most_rate }
{
    rows_at_corners();
    let _ = rows.w();
    if is_unranked(ranks, s) {
        return first;
    }
    if rows.model().is_goal(s) {
        return first;
    }
    let mut e = first;
    for a in 0..rows.choice_count(s) {
        e = rate_of_row(rows, ranks, s, a, e);
    }
    e
}

/// The least e at which, at each corner of each choice of each state that has a rank and is no goal state, the weight
/// into states of lower rank times 2 to the `e` is at least the whole. It is at most 126, and 0 where there is no
/// such state.
pub(crate) fn rate_all(rows: &Lifted, ranks: &[u32]) -> u32
    ghost spans: { Spans }
    requires lifted { IsLiftedTo rows.now spans }
    requires ranks { length ranks.now ≡ length rows.now.case.model.states }
    requires stages { AreStagesOfAll rows.now.case spans (mark ranks.now) }
    ensures least { IsFirstFrom (IsRateOfStates rows.now.case spans ranks.now (length rows.now.case.model.states)) 0 result }
    ensures most { result ≤ most_rate }
{
    let _ = rows.w();
    let mut e = 0;
    for s in 0..rows.model().states() {
        e = rate_of_state(rows, ranks, s, e);
    }
    e
}
