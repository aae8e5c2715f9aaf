//! Rows of two entries, of which most models consist: their weights stand in a block corner by corner, and one look at
//! each corner does.

ghost use Rattle.std.specs.Prelude.{◌≡◌, ◌+◌, ◌*◌, ◌^◌, ◌<◌, ◌≤◌, ◌≤ℤ◌, ◌*ℤ◌, ◌+ℤ◌, ◌-ℤ◌, ◌↔◌, ◌⊎◌, ℕ, pos, length, slice_range, unsigned_abs, IsTrue, IsFalse};
ghost use Rattle.corner_lift.specs.Case.{most_precision, engine_limit};
ghost use Rattle.corner_lift.specs.Dot.{lane_limit};
ghost use Rattle.corner_lift.specs.Pairs.{HasPair, pair_sum, pair_whole, AreCorners, ArePairs, ArePairsAtMost, IsLeastFirst, IsGreatestFirst, IsLeastPair, IsGreatestPair, IsPairNumber, HasRoom, one_where, FitsProducts, FitsPair, FitPairs};

use crate::corner_table::Weighed;
use crate::row::{greater, lesser};
use crate::table::{is_narrow, times};
use lift_model::RowPlace;

/// The weights of a row at all its corners.
#[inline]
pub(crate) fn block_of(weights: &[i128], place: RowPlace) -> &[i128]
    requires { place.weights + place.count * place.corners ≤ length weights.now }
    ensures { result.now ≡ slice_range weights.now place.weights (place.weights + place.count * place.corners) }
{
    let at = place.weights as usize;
    &weights[at..at + place.count as usize * place.corners as usize]
}

/// What a row of two entries weighs at a corner, in numbers of 64 bits.
#[inline]
fn lane_pair(block: &[i128], corner: usize, first: i64, second: i64) -> i64
    requires inside { HasPair block.now corner }
    requires fits { FitsPair lane_limit block.now corner first second }
    ensures { result ≡ pair_sum block.now corner first second }
{
    block[2 * corner] as i64 * first + block[2 * corner + 1] as i64 * second
}

/// What a row of two entries weighs at a corner.
#[inline]
fn wide_pair(block: &[i128], corner: usize, first: i64, second: i64) -> i128
    requires inside { HasPair block.now corner }
    requires fits { FitsProducts engine_limit block.now corner first second }
    ensures { result ≡ pair_sum block.now corner first second }
{
    times(block[2 * corner], first) + times(block[2 * corner + 1], second)
}

/// Whether the sum of two entries is at most a number at each corner, in numbers of 64 bits.
#[inline]
fn are_pairs_at_most(block: &[i128], first: i64, second: i64, most: i64) -> bool
    requires { FitPairs lane_limit block.now first second }
    ensures { IsTrue result ↔ ArePairsAtMost block.now first second most }
{
    let mut corner = 0;
    while 2 * corner + 1 < block.len() {
        if lane_pair(block, corner, first, second) > most {
            return false;
        }
        corner += 1;
    }
    true
}

/// Whether the sum of two entries is at most a number at each corner.
#[inline]
fn are_wide_pairs_at_most(block: &[i128], first: i64, second: i64, most: i128) -> bool
    requires { FitPairs engine_limit block.now first second }
    ensures { IsTrue result ↔ ArePairsAtMost block.now first second most }
{
    let mut corner = 0;
    while 2 * corner + 1 < block.len() {
        if wide_pair(block, corner, first, second) > most {
            return false;
        }
        corner += 1;
    }
    true
}

/// Whether a row of two entries, whose targets have these numbers, has a sum of at most the number times the whole at
/// each corner; in numbers of 64 bits where they hold it.
#[inline]
pub(crate) fn is_pair_capped(block: &[i128], first: i64, second: i64, number: i64, w: u32) -> bool
    requires pairs { ArePairs w block.now (pair_whole block.now) }
    requires precision { w ≤ most_precision }
    requires numbers { (unsigned_abs first ≤ 2 ^ w) × ((unsigned_abs second ≤ 2 ^ w) × (unsigned_abs number ≤ 2 ^ w)) }
    ensures { IsTrue result ↔ ArePairsAtMost block.now first second (pair_whole block.now *ℤ number) }
{
    let sum = block[0] + block[1];
    if is_narrow(sum, w) {
        are_pairs_at_most(block, first, second, sum as i64 * number)
    } else {
        are_wide_pairs_at_most(block, first, second, times(sum, number))
    }
}

/// The least weight of the first of two entries over the corners.
#[inline(always)]
pub(crate) fn least_first(block: &[i128]) -> i128
    requires { HasPair block.now 0 }
    ensures { IsLeastFirst block.now result }
{
    let mut least = block[0];
    let mut corner = 1;
    while 2 * corner + 1 < block.len() {
        least = lesser(least, block[2 * corner]);
        corner += 1;
    }
    least
}

/// The greatest weight of the first of two entries over the corners.
#[inline(always)]
pub(crate) fn greatest_first(block: &[i128]) -> i128
    requires { HasPair block.now 0 }
    ensures { IsGreatestFirst block.now result }
{
    let mut greatest = block[0];
    let mut corner = 1;
    while 2 * corner + 1 < block.len() {
        greatest = greater(greatest, block[2 * corner]);
        corner += 1;
    }
    greatest
}

/// The lesser of two numbers of 64 bits.
#[inline]
pub(crate) fn lesser_in_lane(left: i64, right: i64) -> i64
    ensures left { result ≤ℤ left }
    ensures right { result ≤ℤ right }
    ensures one { (result ≡ left) ⊎ (result ≡ right) }
{
    if left < right { left } else { right }
}

/// The greater of two numbers of 64 bits.
#[inline]
pub(crate) fn greater_in_lane(left: i64, right: i64) -> i64
    ensures left { left ≤ℤ result }
    ensures right { right ≤ℤ result }
    ensures one { (result ≡ left) ⊎ (result ≡ right) }
{
    if left < right { right } else { left }
}

/// The least sum of two entries over the corners, in numbers of 64 bits.
#[inline]
fn least_in_lane(block: &[i128], first: i64, second: i64) -> i64
    requires some { HasPair block.now 0 }
    requires fits { FitPairs lane_limit block.now first second }
    ensures { IsLeastPair block.now first second result }
{
    let mut least = lane_pair(block, 0, first, second);
    let mut corner = 1;
    while 2 * corner + 1 < block.len() {
        let sum = lane_pair(block, corner, first, second);
        least = lesser_in_lane(least, sum);
        corner += 1;
    }
    least
}

/// The greatest sum of two entries over the corners, in numbers of 64 bits.
#[inline]
fn greatest_in_lane(block: &[i128], first: i64, second: i64) -> i64
    requires some { HasPair block.now 0 }
    requires fits { FitPairs lane_limit block.now first second }
    ensures { IsGreatestPair block.now first second result }
{
    let mut greatest = lane_pair(block, 0, first, second);
    let mut corner = 1;
    while 2 * corner + 1 < block.len() {
        let sum = lane_pair(block, corner, first, second);
        greatest = greater_in_lane(greatest, sum);
        corner += 1;
    }
    greatest
}

/// Whether the first number is below the second.
#[inline(always)]
pub(crate) fn is_lower(first: i64, second: i64) -> bool
    ensures lower { IsTrue result → first ≤ℤ second }
    ensures other { IsFalse result → second ≤ℤ first }
{
    first < second
}

/// What the first number is above the second.
#[inline(always)]
pub(crate) fn rise_of(first: i64, second: i64) -> i64
    requires { (pos 0 ≤ℤ first) × (pos 0 ≤ℤ second) }
    ensures { result ≡ first -ℤ second }
{
    first - second
}

/// What a row of two entries sums to where the first one has that weight: the whole times the second number, and the
/// weight times what the first number is above it.
#[inline]
fn risen(whole: i128, weight: i128, first: i64, second: i64) -> i128
    requires weight { (pos 0 ≤ℤ weight) × (weight ≤ℤ whole) }
    requires first { HasRoom whole first }
    requires second { HasRoom whole second }
    ensures { result ≡ (whole *ℤ second) +ℤ (weight *ℤ (first -ℤ second)) }
{
    times(whole, second) + times(weight, rise_of(first, second))
}

/// The least sum of two entries over the corners, by one product: a sum grows with the weight of the first entry where
/// its number is the greater one, else it falls.
#[inline]
fn wide_least(block: &[i128], whole: i128, first: i64, second: i64) -> i128
    requires corners { AreCorners block.now whole }
    requires first { HasRoom whole first }
    requires second { HasRoom whole second }
    ensures { IsLeastPair block.now first second result }
{
    if is_lower(first, second) {
        return risen(whole, greatest_first(block), first, second);
    }
    risen(whole, least_first(block), first, second)
}

/// The greatest sum of two entries over the corners, by one product.
#[inline]
fn wide_greatest(block: &[i128], whole: i128, first: i64, second: i64) -> i128
    requires corners { AreCorners block.now whole }
    requires first { HasRoom whole first }
    requires second { HasRoom whole second }
    ensures { IsGreatestPair block.now first second result }
{
    if is_lower(first, second) {
        return risen(whole, least_first(block), first, second);
    }
    risen(whole, greatest_first(block), first, second)
}

/// The least sum over the corners of a row of two entries, whose targets have these numbers, and its whole; in numbers
/// of 64 bits where they hold it.
#[inline(always)]
pub(crate) fn least_pair(block: &[i128], first: i64, second: i64, w: u32) -> Weighed
    requires pairs { ArePairs w block.now (pair_whole block.now) }
    requires precision { w ≤ most_precision }
    requires numbers { IsPairNumber w first × IsPairNumber w second }
    ensures sum { IsLeastPair block.now first second result.sum }
    ensures whole { result.whole ≡ pair_whole block.now }
{
    let whole = block[0] + block[1];
    if is_narrow(whole, w) {
        let sum = i128::from(least_in_lane(block, first, second));
        return Weighed { sum, whole };
    }
    let sum = wide_least(block, whole, first, second);
    Weighed { sum, whole }
}

/// The greatest sum over the corners of a row of two entries, whose targets have these numbers, and its whole; in
/// numbers of 64 bits where they hold it.
#[inline(always)]
pub(crate) fn greatest_pair(block: &[i128], first: i64, second: i64, w: u32) -> Weighed
    requires pairs { ArePairs w block.now (pair_whole block.now) }
    requires precision { w ≤ most_precision }
    requires numbers { IsPairNumber w first × IsPairNumber w second }
    ensures sum { IsGreatestPair block.now first second result.sum }
    ensures whole { result.whole ≡ pair_whole block.now }
{
    let whole = block[0] + block[1];
    if is_narrow(whole, w) {
        let sum = i128::from(greatest_in_lane(block, first, second));
        return Weighed { sum, whole };
    }
    let sum = wide_greatest(block, whole, first, second);
    Weighed { sum, whole }
}

/// The least weight over the corners of those of two entries that count.
#[inline]
fn least_counted(block: &[i128], whole: i128, first: bool, second: bool) -> i128
    requires corners { AreCorners block.now whole }
    requires room { unsigned_abs whole < engine_limit }
    ensures { IsLeastPair block.now (one_where first) (one_where second) result }
{
    match (first, second) {
        (true, true) => whole,
        (true, false) => least_first(block),
        (false, true) => whole - greatest_first(block),
        (false, false) => 0,
    }
}

/// The least weight over the corners of those of two entries that count, and the row's whole.
#[inline(always)]
pub(crate) fn least_pair_into(block: &[i128], first: bool, second: bool) -> Weighed
    requires corners { AreCorners block.now (pair_whole block.now) }
    requires room { unsigned_abs (pair_whole block.now) < engine_limit }
    ensures sum { IsLeastPair block.now (one_where first) (one_where second) result.sum }
    ensures whole { result.whole ≡ pair_whole block.now }
{
    let whole = block[0] + block[1];
    let sum = least_counted(block, whole, first, second);
    Weighed { sum, whole }
}
