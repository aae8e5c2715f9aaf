//! The greatest lower vector for every scheduler, with its ranks.

ghost use Rattle.std.specs.Prelude.{◌≡◌, ℕ, ◌≤◌, ◌<◌, ◌≤ℤ◌, ◌+ℤ◌, ◌-ℤ◌, [], pos, length, All, IsNone, IfSome};
ghost use Rattle.lift_grid.specs.Rectangle.{Spans};
ghost use Rattle.corner_lift.specs.Certificate.{AreNumbers, mark, unmarked};
ghost use Rattle.corner_lift.specs.Lifted.{IsLiftedTo};
ghost use Rattle.rounded_iter.specs.Watching.{CanIterate};
ghost use Rattle.lower_cert.specs.Lowering.{IsHeight};
ghost use Rattle.lift_dual.specs.Avoiding.{AreStagesOfAll, IsLeastAvoiding, IsRest, IsGreatestLowerAll};
ghost use Rattle.lift_dual.specs.Greatest.{IsLeastAvoidingWithin, IsGreatestAllAbove, NoneOfAllIsAbove};

use crate::laws::{bounds_are_vectors, rest_is_greatest};
use crate::ranks::{NONE, rank_all};
use crate::rates::rate_all;
use corner_lift::{Case, Lifted, one_at, rows_at_corners};
use float_guess::{Ends, Extreme, Rule};
use lift_model::Links;
use lower_cert::Rate;
use rounded_iter::least_bound_by_guess;

/// The greatest rank, or 1 where none is greater.
fn height(ranks: &[u32]) -> u32
    ensures height { IsHeight ranks.now (length ranks.now) result }
    ensures marks { All (λ rank. rank ≤ unmarked) ranks.now }
{
    let mut height = 1;
    for rank in ranks {
        if *rank != NONE && *rank > height {
            height = *rank;
        }
    }
    height
}

/// What is left of `top`.
#[inline(always)]
fn rest(top: i64, number: i64) -> i64
    requires { (pos 0 ≤ℤ number) × (number ≤ℤ top) }
    ensures { result ≡ top -ℤ number }
{
    top - number
}

/// How much is left of `top` at most, where what is taken away is above the limit.
#[inline(always)]
fn most_left(top: i64, limit: i64) -> i64
    requires top { pos 0 ≤ℤ top }
    requires limit { pos 0 ≤ℤ (limit +ℤ pos 1) }
    ensures { result ≡ (top -ℤ pos 1) -ℤ limit }
{
    top - 1 - limit
}

/// Leaves in each place what is left of the number that stands for 1.
fn leave_rest(rows: &Lifted, lane: &mut [i64])
    requires { AreNumbers rows.now.case lane.old }
    ensures { IsRest rows.now.case lane.old lane.new }
{
    rows_at_corners();
    let top = rows.top();
    for s in 0..lane.len() {
        lane[s] = rest(top, lane[s]);
    }
}

/// Leaves in `ranks` the ranks by stages in which every choice counts, and in `lane` the least avoiding vector by
/// these. Stops where the initial state's number passes the limit. True: `lane` is that vector, and its number
/// there is within the limit. False: in each avoiding vector it is above. What `lane`, `ranks` and `work` hold at entry
/// is free; `lane` is taken for a guess of that vector. Takes no memory.
pub fn least_avoiding_within(
    rows: &Lifted,
    limit: i64,
    lane: &mut [i64],
    ranks: &mut [u32],
    work: &mut [u32],
) -> bool
    ghost spans: { Spans }
    requires can { CanIterate rows.now.case rows.now.links spans rows.now.weights lane.old work.old }
    requires size { length ranks.old ≡ length rows.now.case.model.states }
    ensures stages { AreStagesOfAll rows.now.case spans (mark ranks.new) }
    ensures most { (s : ℕ) → mark ranks.new s < unmarked → mark ranks.new s ≤ length rows.now.case.model.states }
    ensures avoiding { IsLeastAvoidingWithin rows.now.case spans limit (mark ranks.new) lane.new result }
{
    bounds_are_vectors();
    let _ = rows.w();
    let states = rows.model().states() as usize;
    rank_all(rows, ranks, &mut work[..states]);
    let rule = Rule {
        choice: Extreme::Greatest,
        corner: Extreme::Greatest,
        ends: Ends::Unranked(&*ranks),
    };
    least_bound_by_guess(rows, rule, limit, lane, work)
}

/// Leaves in `lane` what is left of the least avoiding vector, and gives the least rate and height that the ranks
/// allow.
fn leave_lower(rows: &Lifted, lane: &mut [i64], ranks: &[u32]) -> Rate
    ghost spans: { Spans }
    requires lifted { IsLiftedTo rows.now spans }
    requires size { length ranks.now ≡ length rows.now.case.model.states }
    requires stages { AreStagesOfAll rows.now.case spans (mark ranks.now) }
    requires most { (s : ℕ) → mark ranks.now s < unmarked → mark ranks.now s ≤ length rows.now.case.model.states }
    requires avoiding { IsLeastAvoiding rows.now.case spans (mark ranks.now) lane.old }
    ensures rest { IsRest rows.now.case lane.old lane.new }
    ensures greatest { IsGreatestLowerAll rows.now.case spans
        (record { numbers = lane.new; picks = []; ranks = ranks.now; e = result.e; k = result.k }) }
    ensures height { result.k ≤ length rows.now.case.model.states }
{
    rest_is_greatest();
    let _ = rows.w();
    leave_rest(rows, lane);
    Rate {
        e: rate_all(rows, ranks),
        k: height(ranks),
    }
}

/// Leaves in `lane` and `ranks` the greatest lower vector for every scheduler of the case on the rectangle whose table
/// `weights` is, with the ranks by stages in which every choice counts, and gives the least rate and height that
/// these allow: of the vectors of numbers from 0 to 2 to the `w` that have 2 to the `w` on goal states, 0 on states
/// without rank, and elsewhere at most the weighted mean of each choice at each corner of its row, the one that is
/// greatest at each state. What `lane`, `ranks` and `work` hold at entry is free. Takes no memory.
pub fn greatest_all(
    case: &Case,
    links: &Links,
    weights: &[i128],
    lane: &mut [i64],
    ranks: &mut [u32],
    work: &mut [u32],
) -> Rate
    ghost spans: { Spans }
    requires can { CanIterate case.now links.now spans weights.now lane.old work.old }
    requires size { length ranks.old ≡ length case.now.model.states }
    ensures greatest { IsGreatestLowerAll case.now spans
        (record { numbers = lane.new; picks = []; ranks = ranks.new; e = result.e; k = result.k }) }
    ensures height { result.k ≤ length case.now.model.states }
{
    let top = one_at(case.w());
    let rows = Lifted::new(&*case, &*links, &*weights);
    least_avoiding_within(&rows, top, lane, ranks, work);
    leave_lower(&rows, lane, ranks)
}

/// As `greatest_all`, on the rectangle that the rows are lifted to, but stops as soon as the initial state's number
/// isn't above the limit, which is at least -1. None: in no lower vector for every scheduler is it above, and what
/// `lane` and `ranks` hold is free. `lane` is taken for a guess of the least avoiding vector.
pub fn greatest_all_above(
    rows: &Lifted,
    limit: i64,
    lane: &mut [i64],
    ranks: &mut [u32],
    work: &mut [u32],
) -> Option<Rate>
    ghost spans: { Spans }
    requires can { CanIterate rows.now.case rows.now.links spans rows.now.weights lane.old work.old }
    requires size { length ranks.old ≡ length rows.now.case.model.states }
    requires limit { pos 0 ≤ℤ (limit +ℤ pos 1) }
    ensures some { IfSome result (λ rate. IsGreatestAllAbove rows.now.case spans limit
        (record { numbers = lane.new; picks = []; ranks = ranks.new; e = rate.e; k = rate.k })) }
    ensures none { IsNone result → NoneOfAllIsAbove rows.now.case spans limit }
{
    rest_is_greatest();
    let _ = rows.w();
    let most = most_left(rows.top(), limit);
    if !least_avoiding_within(rows, most, lane, ranks, work) {
        return None;
    }
    Some(leave_lower(rows, lane, ranks))
}
