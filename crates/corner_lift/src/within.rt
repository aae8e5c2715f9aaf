//! What is looked up of a row's targets: whether their numbers keep to a limit, and which of them have a lower rank.

ghost use Rattle.std.specs.Prelude.{◌≡◌, ◌<◌, ◌≤ℤ◌, length, All, IsTrue};
ghost use Rattle.lift_grid.specs.Rectangle.{Spans};
ghost use Rattle.lift_model.specs.Model.{row_at};
ghost use Rattle.corner_lift.specs.Corner.{corner_sum};
ghost use Rattle.corner_lift.specs.Certificate.{mark, ranked_below};
ghost use Rattle.corner_lift.specs.Case.{number, IsLeast, corner_count};
ghost use Rattle.corner_lift.specs.Table.{CanRead, IsWhole};
ghost use Rattle.corner_lift.specs.Dot.{dot, corner_part, CanCompare};
ghost use Rattle.corner_lift.specs.Pairs.{one_where};

use crate::case::Case;
use crate::corner_table::{CornerTable, Weighed};
use crate::row::lesser;
use crate::table::{corner_of, sum_below};
use lift_model::{Links, RowPlace};

/// Whether no target's number is above this one.
#[inline]
pub(crate) fn are_at_most(targets: &[u32], vec: &[i64], most: i64) -> bool
    requires { All (λ t. t < length vec.now) targets.now }
    ensures { IsTrue result → All (λ t. number vec.now t ≤ℤ most) targets.now }
{
    for target in targets {
        if vec[*target as usize] > most {
            return false;
        }
    }
    true
}

/// Whether no target's number is below this one.
#[inline]
pub(crate) fn are_at_least(targets: &[u32], vec: &[i64], least: i64) -> bool
    requires { All (λ t. t < length vec.now) targets.now }
    ensures { IsTrue result → All (λ t. least ≤ℤ number vec.now t) targets.now }
{
    for target in targets {
        if vec[*target as usize] < least {
            return false;
        }
    }
    true
}

/// Whether the state's rank is less than `below`.
#[inline(always)]
pub(crate) fn is_below(ranks: &[u32], s: u32, below: u32) -> bool
    requires { s < length ranks.now }
    ensures { one_where result ≡ ranked_below (mark ranks.now) below s }
{
    ranks[s as usize] < below
}

/// The least sum over the corners of the weights whose target's rank is less than `below`.
pub(crate) fn least_below(
    weights: &[i128],
    place: RowPlace,
    targets: &[u32],
    ranks: &[u32],
    below: u32,
) -> i128
    requires targets { All (λ t. t < length ranks.now) targets.now }
    requires room { CanCompare (ranked_below (mark ranks.now) below) weights.now targets.now place }
    ensures { IsLeast (λ c. dot (ranked_below (mark ranks.now) below) (corner_part weights.now place c) targets.now) place.corners result }
{
    let mut least = sum_below(corner_of(weights, place, 0), targets, ranks, below);
    for corner in 1..place.corners {
        let sum = sum_below(corner_of(weights, place, corner), targets, ranks, below);
        least = lesser(least, sum);
    }
    least
}

/// The least weight of a row into states of rank below `below`, over the corners of the rectangle whose table
/// `weights` is, and the row's whole. No multiplication.
#[inline(always)]
pub fn least_into(
    case: &Case,
    links: &Links,
    weights: &[i128],
    s: u32,
    a: u32,
    ranks: &[u32],
    below: u32,
) -> Weighed
    ghost spans: { Spans }
    requires { CanRead case.now links.now spans weights.now s a × (length ranks.now ≡ length case.now.model.states) }
    ensures least { IsLeast (λ c. corner_sum case.now.d spans (row_at case.now.model s a) c (ranked_below (mark ranks.now) below))
        (corner_count case.now s a) result.sum }
    ensures whole { IsWhole case.now s a result.whole }
{
    CornerTable::new(&*case, &*links, &*weights).least_into(s, a, ranks, below)
}
