//! Tables of the weights of all rows at the corners of a rectangle, made once for it.

ghost use Rattle.std.specs.Prelude.{◌≡◌, ℕ, ◌+◌, ◌*◌, ◌^◌, ◌<◌, ◌≤◌, ◌++◌, ◌≤ℤ◌, ◌<ℤ◌, ◌+ℤ◌, ◌-ℤ◌, ◌*ℤ◌, ◌-◌, ◌%◌, ◌⊎◌, ◌↔◌, pos, length, All, map, take, count_ones, unsigned_abs, IsTrue, if◌then◌else◌};
ghost use Rattle.lift_grid.specs.Rectangle.{Spans, spans_of};
ghost use Rattle.lift_model.specs.Model.{row_at, support};
ghost use Rattle.lift_model.specs.Links.{ArePlaces, weight_count};
ghost use Rattle.corner_lift.specs.Corner.{corner_sum};
ghost use Rattle.corner_lift.specs.Certificate.{AreNumbers, mark, ranked_below};
ghost use Rattle.corner_lift.specs.Case.{number, IsCase, IsRowOf, AreSidesInside, IsGreatest, IsLeast, BoundsAbove, BoundsBelow, row_value, row_whole, corner_count, abs_sum, engine_limit, most_precision, most_row_parameters};
ghost use Rattle.corner_lift.specs.Ends.{weight_at, greatest_end, IsPair};
ghost use Rattle.corner_lift.specs.Table.{block, IsTable, CanRead, HasShortSums, loop_weight};
ghost use Rattle.corner_lift.specs.Dot.{dot, total, corner_part, only_at, but_at, CanSum, CanCompare, FitsLane, FitsLaneAtCorners};

use crate::case::Case;
use crate::corner_table::{CornerTable, Others};
use crate::ends::Ends;
use crate::laws::premises;
use crate::pairs::{greater_in_lane, lesser_in_lane};
use crate::row::{greater, lesser};
use lift_model::{Links, Row, RowPlace};

/// Two corners of a row that differ at most in the end of the row's first parameter.
#[derive(Drop)]
struct CornerPair {
    /// The one with its low end.
    low: Ends,
    /// The one with its high end.
    high: Ends,
}

/// Writes the weights of a row at a corner.
fn fill_corner(case: &Case, row: &Row, ends: &Ends, place: usize, weights: &mut [i128])
    requires room { abs_sum row.now * (greatest_end case.now.d ends.now ^ length ends.now * 2 ^ case.now.w) < engine_limit }
    requires space { place + length row.now ≤ length weights.old }
    ensures { take (place + length row.now) weights.new
        ≡ take place weights.old ++ map (λ entry. weight_at case.now.d ends.now entry.poly) row.now }
{
    let d = case.grid().d;
    let mut at = place;
    for entry in row.entries() {
        weights[at] = ends.weight(d, &entry.poly);
        at += 1;
    }
}

/// How many corners a set of parameters has.
fn corners(support: u16) -> u32
    requires { count_ones support ≤ most_row_parameters }
    ensures { result ≡ 2 ^ count_ones support }
{
    1 << support.count_ones()
}

/// What two parts weigh together: the one over the end of their parameter, the other over `d`.
fn joined(present: i128, absent: i128, end: i64, d: i64) -> i128
    requires present { unsigned_abs present * unsigned_abs end < engine_limit }
    requires absent { unsigned_abs absent * unsigned_abs d < engine_limit }
    ensures { result ≡ present *ℤ end +ℤ absent *ℤ d }
{
    times(present, end) + times(absent, d)
}

/// Writes the weights of a row at two corners that differ in one parameter: what the other parameters
/// give is calculated once for both.
fn fill_pair(
    case: &Case,
    row: &Row,
    pair: &CornerPair,
    low_weights: &mut [i128],
    high_weights: &mut [i128],
)
    requires pair { IsPair pair.now.low pair.now.high }
    requires low_room { abs_sum row.now * (greatest_end case.now.d pair.now.low ^ length pair.now.low * 2 ^ case.now.w) < engine_limit }
    requires high_room { abs_sum row.now * (greatest_end case.now.d pair.now.high ^ length pair.now.high * 2 ^ case.now.w) < engine_limit }
    requires low_space { length low_weights.old ≡ length row.now }
    requires high_space { length high_weights.old ≡ length row.now }
    ensures low { low_weights.new ≡ map (λ entry. weight_at case.now.d pair.now.low entry.poly) row.now }
    ensures high { high_weights.new ≡ map (λ entry. weight_at case.now.d pair.now.high entry.poly) row.now }
{
    let d = case.grid().d;
    let (parameter, low_end) = pair.low.first();
    let (_, high_end) = pair.high.first();
    let rest = pair.low.rest();
    let mut at = 0;
    for entry in row.entries() {
        let (present, absent) = rest.parts(parameter, d, &entry.poly);
        low_weights[at] = joined(present, absent, low_end, d);
        high_weights[at] = joined(present, absent, high_end, d);
        at += 1;
    }
}

/// Writes the weights of a row at two corners that differ in one parameter, the one behind the other.
fn fill_both(case: &Case, row: &Row, pair: &CornerPair, weights: &mut [i128])
    requires pair { IsPair pair.now.low pair.now.high }
    requires low_room { abs_sum row.now * (greatest_end case.now.d pair.now.low ^ length pair.now.low * 2 ^ case.now.w) < engine_limit }
    requires high_room { abs_sum row.now * (greatest_end case.now.d pair.now.high ^ length pair.now.high * 2 ^ case.now.w) < engine_limit }
    requires space { length weights.old ≡ 2 * length row.now }
    ensures { weights.new ≡ map (λ entry. weight_at case.now.d pair.now.low entry.poly) row.now
        ++ map (λ entry. weight_at case.now.d pair.now.high entry.poly) row.now }
{
    let count = row.entries().len();
    let (low_weights, high_weights) = weights.split_at_mut(count);
    fill_pair(case, row, pair, low_weights, high_weights);
}

/// Writes them at a place.
fn fill_pair_at(case: &Case, row: &Row, pair: &CornerPair, place: usize, weights: &mut [i128])
    requires pair { IsPair pair.now.low pair.now.high }
    requires low_room { abs_sum row.now * (greatest_end case.now.d pair.now.low ^ length pair.now.low * 2 ^ case.now.w) < engine_limit }
    requires high_room { abs_sum row.now * (greatest_end case.now.d pair.now.high ^ length pair.now.high * 2 ^ case.now.w) < engine_limit }
    requires space { place + 2 * length row.now ≤ length weights.old }
    ensures { take (place + 2 * length row.now) weights.new
        ≡ take place weights.old ++ (map (λ entry. weight_at case.now.d pair.now.low entry.poly) row.now
        ++ map (λ entry. weight_at case.now.d pair.now.high entry.poly) row.now) }
{
    let end = place + 2 * row.entries().len();
    fill_both(case, row, pair, &mut weights[place..end]);
}

/// Writes the weights of a row with parameters at all its corners, and tells where they end.
fn fill_pairs(case: &Case, sides: &[i64], row: &Row, place: usize, weights: &mut [i128]) -> usize
    requires case { IsCase case.now }
    requires sides { AreSidesInside case.now.root sides.now }
    requires row { IsRowOf case.now row.now }
    requires some { 1 ≤ count_ones (support row.now) }
    requires space { place + weight_count row.now ≤ length weights.old }
    ensures end { result ≡ place + weight_count row.now }
    ensures filled { take result weights.new
        ≡ take place weights.old ++ block case.now.d (spans_of sides.now) row.now }
{
    let support = row.support();
    let count = row.entries().len();
    let mut at = place;
    for pair in 0..corners(support) / 2 {
        let low = Ends::at(sides, support, 2 * pair);
        let high = Ends::at(sides, support, 2 * pair + 1);
        fill_pair_at(case, row, &CornerPair { low, high }, at, weights);
        at += 2 * count;
    }
    at
}

/// Writes the weights of a row at all its corners, and tells where they end.
fn fill_row(case: &Case, sides: &[i64], row: &Row, place: usize, weights: &mut [i128]) -> usize
    requires case { IsCase case.now }
    requires sides { AreSidesInside case.now.root sides.now }
    requires row { IsRowOf case.now row.now }
    requires space { place + weight_count row.now ≤ length weights.old }
    ensures end { result ≡ place + weight_count row.now }
    ensures filled { take result weights.new
        ≡ take place weights.old ++ block case.now.d (spans_of sides.now) row.now }
{
    let support = row.support();
    if support.count_ones() > 0 {
        return fill_pairs(case, sides, row, place, weights);
    }
    let ends = Ends::at(sides, support, 0);
    fill_corner(case, row, &ends, place, weights);
    place + row.entries().len()
}

/// Makes the table of a rectangle inside the root. What the weights are before is of no account. Rows
/// with the same polynomials have one block, which is made once.
pub fn fill(case: &Case, links: &Links, sides: &[i64], weights: &mut [i128])
    requires places { ArePlaces case.now.model links.now }
    requires sides { AreSidesInside case.now.root sides.now }
    requires size { length weights.old ≡ links.now.weights }
    ensures { IsTable case.now links.now (spans_of sides.now) weights.new }
{
    let model = case.model();
    let mut at = 0;
    for first in links.firsts() {
        at = fill_row(
            case,
            sides,
            model.row(first.state, first.choice),
            at,
            weights,
        );
    }
}

/// The weights of a corner of the row that stands at that place.
#[inline]
pub(crate) fn corner_of(weights: &[i128], place: RowPlace, corner: u32) -> &[i128]
    requires { place.weights + place.count * corner + place.count ≤ length weights.now }
    ensures { result.now ≡ corner_part weights.now place corner }
{
    let count = place.count as usize;
    let at = place.weights as usize + count * corner as usize;
    &weights[at..at + count]
}

/// A weight times a number.
#[inline]
pub(crate) fn times(weight: i128, number: i64) -> i128
    requires { unsigned_abs weight * unsigned_abs number < engine_limit }
    ensures { result ≡ weight *ℤ number }
{
    weight * i128::from(number)
}

/// The sum of the weights, each times its target's number, in numbers of 64 bits.
#[inline]
fn sum_in_lane(weights: &[i128], targets: &[u32], vec: &[i64]) -> i64
    requires targets { All (λ t. t < length vec.now) targets.now }
    requires room { CanSum (number vec.now) weights.now targets.now }
    requires lane { FitsLane (number vec.now) weights.now targets.now }
    ensures { result ≡ dot (number vec.now) weights.now targets.now }
{
    let mut sum = 0;
    for j in 0..targets.len() {
        sum += weights[j] as i64 * vec[targets[j] as usize];
    }
    sum
}

/// Two sums of weights, each times its target's number, in numbers of 64 bits: each number is looked up once for both.
#[inline]
fn both_in_lane(low: &[i128], high: &[i128], targets: &[u32], vec: &[i64]) -> (i64, i64)
    requires targets { All (λ t. t < length vec.now) targets.now }
    requires low { CanSum (number vec.now) low.now targets.now × FitsLane (number vec.now) low.now targets.now }
    requires high { CanSum (number vec.now) high.now targets.now × FitsLane (number vec.now) high.now targets.now }
    ensures { (result.0 ≡ dot (number vec.now) low.now targets.now) × (result.1 ≡ dot (number vec.now) high.now targets.now) }
{
    let mut first = 0;
    let mut second = 0;
    for j in 0..targets.len() {
        let number = vec[targets[j] as usize];
        first += low[j] as i64 * number;
        second += high[j] as i64 * number;
    }
    (first, second)
}

/// The sum of the weights into other states than `s`, each times its target's number, and of these weights alone; in
/// numbers of 64 bits.
#[inline]
pub(crate) fn others_in_lane(weights: &[i128], targets: &[u32], s: u32, vec: &[i64]) -> Others
    requires targets { All (λ t. t < length vec.now) targets.now }
    requires room { CanSum (number vec.now) weights.now targets.now }
    requires lane { FitsLane (number vec.now) weights.now targets.now }
    ensures sum { result.sum ≡ dot (but_at s (number vec.now)) weights.now targets.now }
    ensures whole { result.whole ≡ dot (but_at s (λ t. pos 1)) weights.now targets.now }
{
    let mut sum = 0;
    let mut whole = 0;
    for j in 0..targets.len() {
        if targets[j] != s {
            let weight = weights[j] as i64;
            sum += weight * vec[targets[j] as usize];
            whole += weight;
        }
    }
    Others { sum, whole }
}

/// The sum of the weights, each times its target's number.
#[inline]
fn wide_sum(weights: &[i128], targets: &[u32], vec: &[i64]) -> i128
    requires targets { All (λ t. t < length vec.now) targets.now }
    requires room { CanSum (number vec.now) weights.now targets.now }
    ensures { result ≡ dot (number vec.now) weights.now targets.now }
{
    let mut sum = 0;
    for j in 0..targets.len() {
        sum += times(weights[j], vec[targets[j] as usize]);
    }
    sum
}

/// The sum of the weights, each times its target's number; in numbers of 64 bits where they hold it.
#[inline]
pub(crate) fn sum_of(weights: &[i128], targets: &[u32], vec: &[i64], narrow: bool) -> i128
    requires targets { All (λ t. t < length vec.now) targets.now }
    requires room { CanSum (number vec.now) weights.now targets.now }
    requires lane { IsTrue narrow → FitsLane (number vec.now) weights.now targets.now }
    ensures { result ≡ dot (number vec.now) weights.now targets.now }
{
    if narrow {
        i128::from(sum_in_lane(weights, targets, vec))
    } else {
        wide_sum(weights, targets, vec)
    }
}

/// The weight where it counts, else 0.
fn counted(weight: i128, counts: bool) -> i128
    ensures { result ≡ weight *ℤ (if counts then pos 1 else pos 0) }
{
    if counts { weight } else { 0 }
}

/// The sum of the weights whose target's rank is less than `below`.
pub(crate) fn sum_below(weights: &[i128], targets: &[u32], ranks: &[u32], below: u32) -> i128
    requires targets { All (λ t. t < length ranks.now) targets.now }
    requires room { CanSum (ranked_below (mark ranks.now) below) weights.now targets.now }
    ensures { result ≡ dot (ranked_below (mark ranks.now) below) weights.now targets.now }
{
    let mut sum = 0;
    for j in 0..targets.len() {
        sum += counted(weights[j], ranks[targets[j] as usize] < below);
    }
    sum
}

/// The sum of the weights whose target is `s`.
pub(crate) fn sum_at(weights: &[i128], targets: &[u32], s: u32) -> i128
    requires { CanSum (only_at s) weights.now targets.now }
    ensures { result ≡ dot (only_at s) weights.now targets.now }
{
    let mut sum = 0;
    for j in 0..targets.len() {
        sum += counted(weights[j], targets[j] == s);
    }
    sum
}

/// The sum of the weights.
#[inline]
pub(crate) fn total_of(weights: &[i128]) -> i128
    requires weights { All (λ w. pos 0 ≤ℤ w) weights.now }
    requires room { total weights.now <ℤ pos engine_limit }
    ensures { result ≡ total weights.now }
{
    let mut sum = 0;
    for weight in weights {
        sum += *weight;
    }
    sum
}

/// Whether weights that sum to the whole can be summed in numbers of 64 bits, each times a number of at
/// most 2 to the `w`.
#[inline]
pub(crate) fn is_narrow(whole: i128, w: u32) -> bool
    requires { w ≤ most_precision }
    ensures { IsTrue result → whole <ℤ pos (2 ^ (63 - w)) }
{
    match i64::try_from(whole) {
        Ok(short) => short < 1 << (63 - w),
        Err(_) => false,
    }
}

/// The greater of the sums at two corners of the row that stands at that place, in numbers of 64 bits.
#[inline(always)]
fn greater_of_both(
    weights: &[i128],
    place: RowPlace,
    pair: u32,
    targets: &[u32],
    vec: &[i64],
) -> i64
    requires targets { All (λ t. t < length vec.now) targets.now }
    requires room { CanCompare (number vec.now) weights.now targets.now place }
    requires lane { FitsLaneAtCorners (number vec.now) weights.now targets.now place }
    requires inside { 2 * pair + 1 < place.corners }
    ensures low { dot (number vec.now) (corner_part weights.now place (2 * pair)) targets.now ≤ℤ result }
    ensures high { dot (number vec.now) (corner_part weights.now place (2 * pair + 1)) targets.now ≤ℤ result }
    ensures one { (result ≡ dot (number vec.now) (corner_part weights.now place (2 * pair)) targets.now)
        ⊎ (result ≡ dot (number vec.now) (corner_part weights.now place (2 * pair + 1)) targets.now) }
{
    let low = corner_of(weights, place, 2 * pair);
    let high = corner_of(weights, place, 2 * pair + 1);
    let (first, second) = both_in_lane(low, high, targets, vec);
    greater_in_lane(first, second)
}

/// The greatest sum over the corners of the row that stands at that place, two corners at a time, in numbers of 64 bits.
#[inline]
fn greatest_in_lane(weights: &[i128], place: RowPlace, targets: &[u32], vec: &[i64]) -> i64
    requires targets { All (λ t. t < length vec.now) targets.now }
    requires room { CanCompare (number vec.now) weights.now targets.now place }
    requires lane { FitsLaneAtCorners (number vec.now) weights.now targets.now place }
    requires even { place.corners % 2 ≡ 0 }
    ensures { IsGreatest (λ c. dot (number vec.now) (corner_part weights.now place c) targets.now) place.corners result }
{
    let mut greatest = greater_of_both(weights, place, 0, targets, vec);
    for pair in 1..place.corners / 2 {
        let next = greater_of_both(weights, place, pair, targets, vec);
        greatest = greater_in_lane(greatest, next);
    }
    greatest
}

/// The greatest sum over the corners of the row that stands at that place.
pub(crate) fn greatest_of(
    weights: &[i128],
    place: RowPlace,
    targets: &[u32],
    vec: &[i64],
    narrow: bool,
) -> i128
    requires targets { All (λ t. t < length vec.now) targets.now }
    requires room { CanCompare (number vec.now) weights.now targets.now place }
    requires lane { IsTrue narrow → FitsLaneAtCorners (number vec.now) weights.now targets.now place }
    ensures { IsGreatest (λ c. dot (number vec.now) (corner_part weights.now place c) targets.now) place.corners result }
{
    if narrow && place.corners % 2 == 0 {
        return i128::from(greatest_in_lane(weights, place, targets, vec));
    }
    let mut greatest = sum_of(corner_of(weights, place, 0), targets, vec, narrow);
    for corner in 1..place.corners {
        let sum = sum_of(corner_of(weights, place, corner), targets, vec, narrow);
        greatest = greater(greatest, sum);
    }
    greatest
}

/// The lesser of the sums at two corners of the row that stands at that place, in numbers of 64 bits.
#[inline(always)]
fn lesser_of_both(weights: &[i128], place: RowPlace, pair: u32, targets: &[u32], vec: &[i64]) -> i64
    requires targets { All (λ t. t < length vec.now) targets.now }
    requires room { CanCompare (number vec.now) weights.now targets.now place }
    requires lane { FitsLaneAtCorners (number vec.now) weights.now targets.now place }
    requires inside { 2 * pair + 1 < place.corners }
    ensures low { result ≤ℤ dot (number vec.now) (corner_part weights.now place (2 * pair)) targets.now }
    ensures high { result ≤ℤ dot (number vec.now) (corner_part weights.now place (2 * pair + 1)) targets.now }
    ensures one { (result ≡ dot (number vec.now) (corner_part weights.now place (2 * pair)) targets.now)
        ⊎ (result ≡ dot (number vec.now) (corner_part weights.now place (2 * pair + 1)) targets.now) }
{
    let low = corner_of(weights, place, 2 * pair);
    let high = corner_of(weights, place, 2 * pair + 1);
    let (first, second) = both_in_lane(low, high, targets, vec);
    lesser_in_lane(first, second)
}

/// The least sum over the corners of the row that stands at that place, two corners at a time, in numbers of 64 bits.
#[inline]
fn least_in_lane(weights: &[i128], place: RowPlace, targets: &[u32], vec: &[i64]) -> i64
    requires targets { All (λ t. t < length vec.now) targets.now }
    requires room { CanCompare (number vec.now) weights.now targets.now place }
    requires lane { FitsLaneAtCorners (number vec.now) weights.now targets.now place }
    requires even { place.corners % 2 ≡ 0 }
    ensures { IsLeast (λ c. dot (number vec.now) (corner_part weights.now place c) targets.now) place.corners result }
{
    let mut least = lesser_of_both(weights, place, 0, targets, vec);
    for pair in 1..place.corners / 2 {
        let next = lesser_of_both(weights, place, pair, targets, vec);
        least = lesser_in_lane(least, next);
    }
    least
}

/// The least sum over the corners of the row that stands at that place.
pub(crate) fn least_of(
    weights: &[i128],
    place: RowPlace,
    targets: &[u32],
    vec: &[i64],
    narrow: bool,
) -> i128
    requires targets { All (λ t. t < length vec.now) targets.now }
    requires room { CanCompare (number vec.now) weights.now targets.now place }
    requires lane { IsTrue narrow → FitsLaneAtCorners (number vec.now) weights.now targets.now place }
    ensures { IsLeast (λ c. dot (number vec.now) (corner_part weights.now place c) targets.now) place.corners result }
{
    if narrow && place.corners % 2 == 0 {
        return i128::from(least_in_lane(weights, place, targets, vec));
    }
    let mut least = sum_of(corner_of(weights, place, 0), targets, vec, narrow);
    for corner in 1..place.corners {
        let sum = sum_of(corner_of(weights, place, corner), targets, vec, narrow);
        least = lesser(least, sum);
    }
    least
}

/// `row_value` of the rectangle whose table `weights` is. One multiplication for each entry.
pub fn table_value(
    case: &Case,
    links: &Links,
    weights: &[i128],
    s: u32,
    a: u32,
    corner: u32,
    vec: &[i64],
) -> i128
    ghost spans: { Spans }
    requires { CanRead case.now links.now spans weights.now s a × AreNumbers case.now vec.now × (corner < corner_count case.now s a) }
    ensures { result ≡ row_value case.now spans s a vec.now corner }
{
    premises();
    let w = case.w();
    let place = links.place(s, a);
    let whole = total_of(corner_of(weights, place, 0));
    sum_of(
        corner_of(weights, place, corner),
        links.targets(place),
        vec,
        is_narrow(whole, w),
    )
}

/// `row_max` of the rectangle whose table `weights` is. One multiplication for each entry and corner.
#[inline]
pub fn table_max(case: &Case, links: &Links, weights: &[i128], s: u32, a: u32, vec: &[i64]) -> i128
    ghost spans: { Spans }
    requires { CanRead case.now links.now spans weights.now s a × AreNumbers case.now vec.now }
    ensures greatest { IsGreatest (row_value case.now spans s a vec.now) (corner_count case.now s a) result }
    ensures range { (pos 0 ≤ℤ result) × (result ≤ℤ (pos (2 ^ case.now.w) *ℤ row_whole case.now s a)) }
    ensures bound { BoundsAbove case.now spans s a vec.now result }
{
    CornerTable::new(&*case, &*links, &*weights)
        .greatest(s, a, vec)
        .sum
}

/// `row_min` of the rectangle whose table `weights` is. One multiplication for each entry and corner.
#[inline]
pub fn table_min(case: &Case, links: &Links, weights: &[i128], s: u32, a: u32, vec: &[i64]) -> i128
    ghost spans: { Spans }
    requires { CanRead case.now links.now spans weights.now s a × AreNumbers case.now vec.now }
    ensures least { IsLeast (row_value case.now spans s a vec.now) (corner_count case.now s a) result }
    ensures bound { BoundsBelow case.now spans s a vec.now result }
{
    CornerTable::new(&*case, &*links, &*weights)
        .least(s, a, vec)
        .sum
}

/// `weight_into` of the rectangle whose table `weights` is. No multiplication.
pub fn table_into(
    case: &Case,
    links: &Links,
    weights: &[i128],
    s: u32,
    a: u32,
    corner: u32,
    ranks: &[u32],
    below: u32,
) -> i128
    ghost spans: { Spans }
    requires { CanRead case.now links.now spans weights.now s a × (length ranks.now ≡ length case.now.model.states)
        × (corner < corner_count case.now s a) }
    ensures { result ≡ corner_sum case.now.d spans (row_at case.now.model s a) corner
        (ranked_below (mark ranks.now) below) }
{
    premises();
    let _ = case.w();
    let place = links.place(s, a);
    sum_below(
        corner_of(weights, place, corner),
        links.targets(place),
        ranks,
        below,
    )
}

/// `whole`, from the table: the sum of the weights at the first corner.
pub fn table_whole(case: &Case, links: &Links, weights: &[i128], s: u32, a: u32) -> i128
    ghost spans: { Spans }
    requires { CanRead case.now links.now spans weights.now s a }
    ensures value { result ≡ row_whole case.now s a }
    ensures positive { pos 1 ≤ℤ result }
    ensures size { unsigned_abs result < engine_limit }
    ensures room { (n : ℕ) → n ≤ 2 ^ case.now.w → n * unsigned_abs result < engine_limit }
{
    premises();
    let _ = case.w();
    total_of(corner_of(weights, links.place(s, a), 0))
}

/// Whether 64 bits hold each weighted sum of a row: its whole, times 2 to the `w`, is below 2 to the 63.
#[inline]
pub fn has_short_sums(case: &Case, links: &Links, weights: &[i128], s: u32, a: u32) -> bool
    ghost spans: { Spans }
    requires { CanRead case.now links.now spans weights.now s a }
    ensures { IsTrue result ↔ HasShortSums case.now s a }
{
    table_whole(case, links, weights, s, a) < 1 << (63 - case.w())
}

/// What a row of the rectangle whose table `weights` is weighs at a corner into other states than its own, where 64
/// bits hold its sums. One multiplication for each entry.
#[inline]
pub fn table_others(
    case: &Case,
    links: &Links,
    weights: &[i128],
    s: u32,
    a: u32,
    corner: u32,
    vec: &[i64],
) -> Others
    ghost spans: { Spans }
    requires read { CanRead case.now links.now spans weights.now s a
        × AreNumbers case.now vec.now × (corner < corner_count case.now s a) }
    requires narrow { HasShortSums case.now s a }
    ensures sum { result.sum ≡ row_value case.now spans s a vec.now corner
        -ℤ (number vec.now s *ℤ loop_weight case.now spans s a corner) }
    ensures whole { result.whole ≡ row_whole case.now s a -ℤ loop_weight case.now spans s a corner }
    ensures least { (pos 0 ≤ℤ result.sum) × (pos 0 ≤ℤ result.whole) }
{
    CornerTable::new(&*case, &*links, &*weights).others(s, a, corner, vec)
}
