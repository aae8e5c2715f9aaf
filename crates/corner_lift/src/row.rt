ghost use Rattle.std.specs.Prelude.{◌≡◌, ℕ, ◌+◌, ◌*◌, ◌^◌, ◌<◌, ◌≤◌, ◌*ℤ◌, ◌≤ℤ◌, ◌⊎◌, pos, length, unsigned_abs};
ghost use Rattle.lift_grid.specs.Rectangle.{spans_of};
ghost use Rattle.lift_model.specs.Process.{power};
ghost use Rattle.lift_model.specs.Model.{choices, row_at, support as support_of};
ghost use Rattle.corner_lift.specs.Corner.{parameter_count, corner_sum, corner_weight};
ghost use Rattle.corner_lift.specs.Certificate.{AreNumbers, ranked_below, mark};
ghost use Rattle.corner_lift.specs.Case.{number, IsCase, IsRowOf, AreSidesInside, IsGreatest, IsLeast, BoundsAbove, BoundsBelow, row_value, row_whole, corner_count, greatest_size, abs_sum, engine_limit, most_row_parameters};

use crate::case::Case;
use crate::ends::Ends;
use crate::weighted::{sum_below, sum_of};
use lift_model::{Model, Row, weighted_sums_follow};
use lift_poly::weights_follow;

/// The weight of an entry of the state's choice, at a corner of that row. It has no case, so what a case
/// gives is asked for here: `d` from 1 on, one pair of sides for each declared parameter, at most 4
/// parameters in the row, and numbers that fit 126 bits.
pub fn raw_weight(
    model: &Model,
    d: i64,
    sides: &[i64],
    s: u32,
    a: u32,
    entry: u32,
    corner: u32,
) -> i128
    requires positive { pos 1 ≤ℤ d }
    requires pairs { length sides.now ≡ 2 * length model.now.names }
    requires state { s < length model.now.states }
    requires choice { a < length (choices model.now s) }
    requires entry { entry < length (row_at model.now s a) }
    requires few { parameter_count (spans_of sides.now) (support_of (row_at model.now s a)) ≤ most_row_parameters }
    requires corner { corner < 2 ^ parameter_count (spans_of sides.now) (support_of (row_at model.now s a)) }
    requires narrow { let row = row_at model.now s a in let spans = spans_of sides.now in
        abs_sum row * greatest_size d spans ^ parameter_count spans (support_of row) < engine_limit }
    ensures value { result ≡ corner_weight d (spans_of sides.now) (row_at model.now s a) corner entry }
    ensures size { unsigned_abs result < engine_limit }
{
    let row = model.row(s, a);
    let ends = Ends::at(sides, row.support(), corner);
    let entries = row.entries();
    let entry = &entries[entry as usize];
    ends.weight(d, &entry.poly)
}

/// `first` times so many factors `d`.
fn times_power(first: i64, d: i64, count: u32) -> i128
    requires positive { pos 1 ≤ℤ d }
    requires room { unsigned_abs first * unsigned_abs d ^ count < engine_limit }
    ensures { result ≡ first *ℤ power d count }
{
    let mut product = i128::from(first);
    let mut left = count;
    while left > 0 {
        product *= i128::from(d);
        left -= 1;
    }
    product
}

/// What the weights of the state's choice sum to at each corner of that row: the common denominator
/// times the grid's number for each of its parameters. From 1 to 2^126 - 1, also when a number of up to
/// 2^w is multiplied by it.
pub fn whole(case: &Case, s: u32, a: u32) -> i128
    requires state { s < length case.now.model.states }
    requires choice { a < length (choices case.now.model s) }
    ensures value { result ≡ row_whole case.now s a }
    ensures positive { pos 1 ≤ℤ result }
    ensures size { unsigned_abs result < engine_limit }
    ensures room { (n : ℕ) → n ≤ 2 ^ case.now.w → n * unsigned_abs result < engine_limit }
{
    let model = case.model();
    let support = model.row(s, a).support();
    times_power(model.common(), case.grid().d, support.count_ones())
}

/// The corners of a row over a rectangle.
#[derive(Drop)]
struct Corners<'a> {
    /// The rectangle's sides.
    sides: &'a [i64],
    /// The row's parameters.
    support: u16,
}

/// The weighted sum over a row at a corner.
fn value_at(case: &Case, row: &Row, corners: &Corners, corner: u32, vec: &[i64]) -> i128
    requires case { IsCase case.now }
    requires sides { AreSidesInside case.now.root corners.now.sides.now }
    requires row { IsRowOf case.now row.now }
    requires support { corners.now.support ≡ support_of row.now }
    requires numbers { AreNumbers case.now vec.now }
    ensures { result ≡ corner_sum case.now.d (spans_of corners.now.sides.now) row.now corner (number vec.now) }
{
    let ends = Ends::at(corners.sides, corners.support, corner);
    sum_of(case, row, &ends, vec)
}

/// The weighted sum of `vec` over the state's choice at a corner of that row, over the whole. `vec` has
/// a number from 0 to 2^w for each state, and the sides lie inside the root.
///
/// A multiplication for each term and parameter of the row, and one for each entry.
pub fn row_value(case: &Case, sides: &[i64], s: u32, a: u32, corner: u32, vec: &[i64]) -> i128
    requires sides { AreSidesInside case.now.root sides.now }
    requires state { s < length case.now.model.states }
    requires choice { a < length (choices case.now.model s) }
    requires corner { corner < corner_count case.now s a }
    requires numbers { AreNumbers case.now vec.now }
    ensures { result ≡ row_value case.now (spans_of sides.now) s a vec.now corner }
{
    let row = case.model().row(s, a);
    let support = row.support();
    value_at(case, row, &Corners { sides, support }, corner, vec)
}

/// The greater of two numbers.
pub(crate) fn greater(left: i128, right: i128) -> i128
    ensures left { left ≤ℤ result }
    ensures right { right ≤ℤ result }
    ensures one { (result ≡ left) ⊎ (result ≡ right) }
{
    if left < right { right } else { left }
}

/// The lesser of two numbers.
pub(crate) fn lesser(left: i128, right: i128) -> i128
    ensures left { result ≤ℤ left }
    ensures right { result ≤ℤ right }
    ensures one { (result ≡ left) ⊎ (result ≡ right) }
{
    if left < right { left } else { right }
}

/// The greatest `row_value` over the corners of the row, from 0 to 2^w times the whole. At every
/// valuation inside the sides the weighted mean is at most this over the whole.
pub fn row_max(case: &Case, sides: &[i64], s: u32, a: u32, vec: &[i64]) -> i128
    requires sides { AreSidesInside case.now.root sides.now }
    requires state { s < length case.now.model.states }
    requires choice { a < length (choices case.now.model s) }
    requires numbers { AreNumbers case.now vec.now }
    ensures greatest { IsGreatest (row_value case.now (spans_of sides.now) s a vec.now) (corner_count case.now s a) result }
    ensures range { (pos 0 ≤ℤ result) × (result ≤ℤ (pos (2 ^ case.now.w) *ℤ row_whole case.now s a)) }
    ensures bound { BoundsAbove case.now (spans_of sides.now) s a vec.now result }
{
    weights_follow();
    weighted_sums_follow();
    let row = case.model().row(s, a);
    let support = row.support();
    let corners = Corners { sides, support };
    let mut greatest = value_at(case, row, &corners, 0, vec);
    for corner in 1..1u32 << support.count_ones() {
        let value = value_at(case, row, &corners, corner, vec);
        greatest = greater(greatest, value);
    }
    greatest
}

/// The least `row_value` over the corners of the row. At every valuation inside the sides the weighted
/// mean is at least this over the whole.
pub fn row_min(case: &Case, sides: &[i64], s: u32, a: u32, vec: &[i64]) -> i128
    requires sides { AreSidesInside case.now.root sides.now }
    requires state { s < length case.now.model.states }
    requires choice { a < length (choices case.now.model s) }
    requires numbers { AreNumbers case.now vec.now }
    ensures least { IsLeast (row_value case.now (spans_of sides.now) s a vec.now) (corner_count case.now s a) result }
    ensures bound { BoundsBelow case.now (spans_of sides.now) s a vec.now result }
{
    weights_follow();
    let row = case.model().row(s, a);
    let support = row.support();
    let corners = Corners { sides, support };
    let mut least = value_at(case, row, &corners, 0, vec);
    for corner in 1..1u32 << support.count_ones() {
        let value = value_at(case, row, &corners, corner, vec);
        least = lesser(least, value);
    }
    least
}

/// The weight of the state's choice, at a corner of that row, into the targets whose rank is less than
/// `below`. `ranks` has a place for each state, `u32::MAX` where there is no rank.
pub fn weight_into(
    case: &Case,
    sides: &[i64],
    s: u32,
    a: u32,
    corner: u32,
    ranks: &[u32],
    below: u32,
) -> i128
    requires sides { AreSidesInside case.now.root sides.now }
    requires state { s < length case.now.model.states }
    requires choice { a < length (choices case.now.model s) }
    requires corner { corner < corner_count case.now s a }
    requires ranks { length ranks.now ≡ length case.now.model.states }
    ensures { result ≡ corner_sum case.now.d (spans_of sides.now) (row_at case.now.model s a) corner
        (ranked_below (mark ranks.now) below) }
{
    let row = case.model().row(s, a);
    let ends = Ends::at(sides, row.support(), corner);
    sum_below(case, row, &ends, ranks, below)
}
