//! The table of a rectangle with what is quickly looked up of its rows of two entries: a sum over the corners then takes
//! two products of 64 bits, as it grows with the weight of the entry whose target has the greater number.

ghost use Rattle.std.specs.Prelude.{◌≡◌, ◌+◌, ◌*◌, ◌^◌, ◌<◌, ◌≤◌, ◌-◌, ◌≤ℤ◌, ◌<ℤ◌, ◌*ℤ◌, ◌+ℤ◌, ◌-ℤ◌, ℕ, pos, length, unsigned_abs, All, IfSome, IsTrue};
ghost use Rattle.lift_grid.specs.Rectangle.{Spans};
ghost use Rattle.lift_model.specs.Model.{row_at};
ghost use Rattle.lift_model.specs.Links.{ArePlaces};
ghost use Rattle.lift_model.specs.OnlyRow.{IsPairRow};
ghost use Rattle.corner_lift.specs.Corner.{corner_sum};
ghost use Rattle.corner_lift.specs.Certificate.{mark, ranked_below};
ghost use Rattle.corner_lift.specs.Case.{IsLeast, corner_count, most_precision};
ghost use Rattle.corner_lift.specs.Table.{CanRead};
ghost use Rattle.corner_lift.specs.Dot.{lane_limit};
ghost use Rattle.corner_lift.specs.Pairs.{AreCorners, HasLane, HasPair, IsGreatestPair, IsLeastPair, one_where, pair_whole};
ghost use Rattle.corner_lift.specs.Paired.{IsPairOf, IsNoneOrPair, IsLaneOf, IsWholeOver, pair_block};

use crate::case::Case;
use crate::laws::premises;
use crate::pairs::{greatest_first, is_lower, least_first, rise_of};
use crate::within::is_below;
use lift_model::{Links, PairRow, RowPlace};

/// How many rows of two entries are looked up at most, of those whose weights come first.
const PLACES: usize = 64;

/// What is looked up of a row of two entries.
#[derive(Clone, Copy)]
pub(crate) struct Pair {
    /// Where the table has its weights.
    at: u32,
    /// At how many corners it has them. 0: there is no such row.
    corners: u32,
    /// What all weights here are given as parts of, at least 1.
    scale: i64,
    /// The least weight of the first entry over the corners.
    least: i64,
    /// The greatest.
    greatest: i64,
    /// What both entries weigh together, at each corner.
    whole: i64,
    /// 2 to the 64, less 1, over the whole. Nothing is promised of it.
    inverse: u64,
}

/// In place of a row that isn't looked up.
const NO_PAIR: Pair = Pair {
    at: 0,
    corners: 0,
    scale: 1,
    least: 0,
    greatest: 0,
    whole: 0,
    inverse: 0,
};

/// A weighted sum of a row of two entries, and its whole, in 64 bits: both may have been divided by the same number.
#[derive(Clone, Copy)]
pub struct LaneSum {
    /// The sum.
    pub sum: i64,
    /// The whole, at least 1.
    pub whole: i64,
    /// What both were divided by, at least 1.
    pub scale: i64,
    /// 2 to the 64, less 1, over the whole. Nothing is promised of it.
    pub inverse: u64,
}

impl LaneSum {
    /// How often the whole goes into a number from 0 on, or 1 less. Nothing is promised of it, so who asks tests it.
    #[inline(always)]
    pub fn guess(self, number: i64) -> i64 {
        ((u128::from(number.unsigned_abs()) * u128::from(self.inverse)) >> 64) as i64
    }
}

impl Pair {
    /// A sum of the row, with its whole.
    #[inline(always)]
    pub(crate) fn summed(self, sum: i64) -> LaneSum
        ensures sum { result.sum ≡ sum }
        ensures whole { (result.whole ≡ self.whole) × (result.scale ≡ self.scale) }
    {
        LaneSum {
            sum,
            whole: self.whole,
            scale: self.scale,
            inverse: self.inverse,
        }
    }
}

/// The table of a rectangle, with what is quickly looked up of the rows of two entries that come first.
#[derive(Drop)]
pub struct PairTable<'a> {
    weights: &'a [i128],
    pairs: [Pair; PLACES],
}

impl<'a> std::marker::Model for PairTable<'a> {
    ghost use Rattle.std.specs.Prelude.{List, ℤ, All};
    ghost use Rattle.corner_lift.specs.Paired.{IsNoneOrPair};

    ghost Value = { List ℤ };

    ghost view = { λ t. t.weights.now };

    ghost invariant = { λ t. All (IsNoneOrPair t.weights.now) t.pairs };
}

/// A weight, if 64 bits hold it.
fn short_of(weight: i128) -> Option<i64>
    ensures { IfSome result (λ short. short ≡ weight) }
{
    i64::try_from(weight).ok()
}

/// What both entries weigh together at the first corner, if 64 bits hold it.
fn whole_of(block: &[i128]) -> Option<i64>
    requires { HasPair block.now 0 }
    ensures { IfSome result (λ whole. whole ≡ pair_whole block.now) }
{
    let whole = block[0].checked_add(block[1])?;
    short_of(whole)
}

/// A common divisor of two numbers: the greatest one, but that isn't promised.
fn common_divisor(a: i64, b: i64) -> i64 {
    let mut a = a.unsigned_abs();
    let mut b = b.unsigned_abs();
    while b != 0 {
        let rest = a % b;
        a = b;
        b = rest;
    }
    i64::try_from(a).unwrap_or(1)
}

/// What a number is over a divisor of it.
fn divided(number: i64, divisor: i64) -> Option<i64>
    ensures { IfSome result (λ part. number ≡ part *ℤ divisor) }
{
    let part = number.checked_div(divisor)?;
    if part.checked_mul(divisor) == Some(number) {
        Some(part)
    } else {
        None
    }
}

/// What weights are divided by: 1 where sums fit 64 bits without that.
fn scale_of(least: i64, greatest: i64, whole: i64, w: u32) -> i64
    requires { w ≤ most_precision }
    ensures { pos 1 ≤ℤ result }
{
    if is_short(whole, w) {
        return 1;
    }
    common_divisor(whole, common_divisor(least, greatest)).max(1)
}

/// What is looked up of the row of two entries that has this block of weights, if 64 bits hold it.
fn pair_of(at: u32, corners: u32, block: &[i128], w: u32) -> Option<Pair>
    requires block { HasPair block.now 0 }
    requires precision { w ≤ most_precision }
    ensures place { IfSome result (λ p. (p.at ≡ at) × (p.corners ≡ corners)) }
    ensures pair { IfSome result (IsLaneOf block.now) }
{
    let least = short_of(least_first(block))?;
    let greatest = short_of(greatest_first(block))?;
    let whole = whole_of(block)?;
    let scale = scale_of(least, greatest, whole, w);
    let least = divided(least, scale)?;
    let greatest = divided(greatest, scale)?;
    let whole = divided(whole, scale)?;
    let inverse = u64::MAX.checked_div(whole.unsigned_abs())?;
    Some(Pair {
        at,
        corners,
        scale,
        least,
        greatest,
        whole,
        inverse,
    })
}

/// The same of the row at that place, if it has two entries.
fn pair_at(weights: &[i128], place: RowPlace, w: u32) -> Option<Pair>
    requires { w ≤ most_precision }
    ensures { IfSome result (IsPairOf weights.now) }
{
    if place.count != 2 || place.corners == 0 {
        return None;
    }
    let at = place.weights as usize;
    let end = at + 2 * place.corners as usize;
    if end > weights.len() {
        return None;
    }
    pair_of(place.weights, place.corners, &weights[at..end], w)
}

/// Where it is looked up. Of rows of two entries with as many corners, 64 in a row have places of their own.
#[inline(always)]
fn slot(at: u32) -> usize
    ensures { result < 64 }
{
    ((at >> 1) ^ (at >> 7)) as usize % PLACES
}

/// Whether the whole leaves `w` of 63 bits free.
#[inline(always)]
fn is_short(whole: i64, w: u32) -> bool
    requires { w ≤ most_precision }
    ensures { IsTrue result → whole <ℤ pos (2 ^ (63 - w)) }
{
    whole < 1 << (63 - w)
}

/// What a row of two entries sums to where the first one has that weight, in 64 bits.
#[inline(always)]
fn lane_risen(whole: i64, weight: i64, first: i64, second: i64) -> i64
    requires weight { (pos 0 ≤ℤ weight) × (weight ≤ℤ whole) }
    requires first { HasLane whole first }
    requires second { HasLane whole second }
    ensures { result ≡ (whole *ℤ second) +ℤ (weight *ℤ (first -ℤ second)) }
{
    whole * second + weight * rise_of(first, second)
}

impl<'a> PairTable<'a> {
    /// The table of a rectangle, with its first rows of two entries. Takes no memory.
    pub fn of(case: &Case, links: &Links, weights: &'a [i128]) -> PairTable<'a>
        requires { ArePlaces case.now.model links.now }
        ensures { result ≡ weights.now }
    {
        let w = case.w();
        let mut pairs = [NO_PAIR; PLACES];
        let firsts = links.firsts();
        for block in 0..firsts.len().min(PLACES) {
            let place = links.place(firsts[block].state, firsts[block].choice);
            if let Some(pair) = pair_at(weights, place, w) {
                pairs[slot(place.weights)] = pair;
            }
        }
        PairTable { weights, pairs }
    }

    /// The weights.
    #[inline(always)]
    pub fn weights(&self) -> &[i128]
        ensures { result.now ≡ self.now }
    {
        self.weights
    }

    /// What is looked up of the row of two entries that stands at that place, if 64 bits hold its sums.
    #[inline(always)]
    pub(crate) fn pair(&self, at: u32, corners: u32, w: u32) -> Option<Pair>
        requires some { 1 ≤ corners }
        requires precision { w ≤ most_precision }
        ensures place { IfSome result (λ p. (p.at ≡ at) × (p.corners ≡ corners)) }
        ensures pair { IfSome result (IsPairOf self.now) }
        ensures short { IfSome result (λ p. p.whole <ℤ pos (2 ^ (63 - w))) }
    {
        let pair = self.pairs[slot(at)];
        if pair.at == at && pair.corners == corners && is_short(pair.whole, w) {
            return Some(pair);
        }
        None
    }

    /// The greatest sum of a row that is looked up over its corners, by the least and the greatest weight of its first
    /// entry.
    #[inline(always)]
    pub(crate) fn greatest_sum(&self, pair: Pair, first: i64, second: i64) -> i64
        requires pair { IsPairOf self.now pair }
        requires corners { AreCorners (pair_block self.now pair) (pair.whole *ℤ pair.scale) }
        requires first { HasLane pair.whole first }
        requires second { HasLane pair.whole second }
        ensures { IsGreatestPair (pair_block self.now pair) first second (result *ℤ pair.scale) }
    {
        if is_lower(first, second) {
            return lane_risen(pair.whole, pair.least, first, second);
        }
        lane_risen(pair.whole, pair.greatest, first, second)
    }

    /// The least sum of such a row.
    #[inline(always)]
    pub(crate) fn least_sum(&self, pair: Pair, first: i64, second: i64) -> i64
        requires pair { IsPairOf self.now pair }
        requires corners { AreCorners (pair_block self.now pair) (pair.whole *ℤ pair.scale) }
        requires first { HasLane pair.whole first }
        requires second { HasLane pair.whole second }
        ensures { IsLeastPair (pair_block self.now pair) first second (result *ℤ pair.scale) }
    {
        if is_lower(first, second) {
            return lane_risen(pair.whole, pair.greatest, first, second);
        }
        lane_risen(pair.whole, pair.least, first, second)
    }

    /// The least weight over the corners of those of the two entries of such a row that count.
    #[inline(always)]
    pub(crate) fn counted_sum(&self, pair: Pair, first: bool, second: bool) -> i64
        requires pair { IsPairOf self.now pair }
        requires corners { AreCorners (pair_block self.now pair) (pair.whole *ℤ pair.scale) }
        requires room { unsigned_abs pair.whole < lane_limit }
        ensures { IsLeastPair (pair_block self.now pair) (one_where first) (one_where second) (result *ℤ pair.scale) }
    {
        match (first, second) {
            (true, true) => pair.whole,
            (true, false) => pair.least,
            (false, true) => pair.whole - pair.greatest,
            (false, false) => 0,
        }
    }

    /// The least weight of the only row of a state, which has two entries, into states of rank below `below` over its
    /// corners, and its whole, if it is quickly looked up.
    #[inline(always)]
    pub fn least_into_of(
        &self,
        case: &Case,
        links: &Links,
        s: u32,
        row: PairRow,
        ranks: &[u32],
        below: u32,
    ) -> Option<LaneSum>
        ghost spans: { Spans }
        requires can { CanRead case.now links.now spans self.now s 0 × (length ranks.now ≡ length case.now.model.states) }
        requires row { IsPairRow case.now.model links.now s row }
        ensures least { IfSome result (λ row.
            IsLeast (λ c. corner_sum case.now.d spans (row_at case.now.model s 0) c (ranked_below (mark ranks.now) below))
            (corner_count case.now s 0) (row.sum *ℤ row.scale)) }
        ensures whole { IfSome result (IsWholeOver case.now s 0) }
    {
        premises();
        let w = case.w();
        let pair = self.pair(row.weights, row.corners, w)?;
        let first = is_below(ranks, row.first, below);
        let second = is_below(ranks, row.second, below);
        let sum = self.counted_sum(pair, first, second);
        Some(pair.summed(sum))
    }
}
