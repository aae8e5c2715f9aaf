//! Weighted sums over a row, at the ends that a corner chooses.

ghost use Rattle.std.specs.Prelude.{◌≡◌, ◌≤◌, ◌<◌, ◌*◌, ◌^◌, ◌*ℤ◌, ◌<ℤ◌, pos, length, All, unsigned_abs, if◌then◌else◌};
ghost use Rattle.lift_poly.specs.Arithmetic as polynomial;
ghost use Rattle.lift_model.specs.Process.{weighted_sum};
ghost use Rattle.corner_lift.specs.Case.{abs_sum, number, engine_limit};
ghost use Rattle.corner_lift.specs.Certificate.{mark, ranked_below};
ghost use Rattle.corner_lift.specs.Ends.{weight_at, moves_by, greatest_end};

use crate::case::Case;
use crate::ends::Ends;
use lift_model::{Entry, Row};

/// What the entry weighs, times a number. Where the number is 0 nothing is weighed.
fn times(ends: &Ends, d: i64, entry: &Entry, number: i64) -> i128
    requires positive { pos 0 <ℤ d }
    requires weight { polynomial.abs_sum entry.now.poly * greatest_end d ends.now ^ length ends.now < engine_limit }
    requires room { polynomial.abs_sum entry.now.poly * (greatest_end d ends.now ^ length ends.now * unsigned_abs number) < engine_limit }
    ensures value { result ≡ weight_at d ends.now entry.now.poly *ℤ number }
    ensures size { unsigned_abs result ≤ polynomial.abs_sum entry.now.poly
        * (greatest_end d ends.now ^ length ends.now * unsigned_abs number) }
{
    if number == 0 {
        return 0;
    }
    ends.weight(d, &entry.poly) * i128::from(number)
}

/// The weighted sum of `vec` over the row.
pub(crate) fn sum_of(case: &Case, row: &Row, ends: &Ends, vec: &[i64]) -> i128
    requires room { abs_sum row.now * (greatest_end case.now.d ends.now ^ length ends.now * 2 ^ case.now.w) < engine_limit }
    requires targets { All (λ entry. entry.target < length vec.now) row.now }
    requires numbers { All (λ n. unsigned_abs n ≤ 2 ^ case.now.w) vec.now }
    ensures { result ≡ weighted_sum (number vec.now) (moves_by case.now.d ends.now row.now) }
{
    let d = case.grid().d;
    let mut sum = 0;
    for entry in row.entries() {
        sum += times(ends, d, entry, vec[entry.target as usize]);
    }
    sum
}

/// 1 or 0.
fn one_if(holds: bool) -> i64
    ensures { result ≡ (if holds then pos 1 else pos 0) }
{
    if holds { 1 } else { 0 }
}

/// The weight of the row into the targets whose rank is less than `below`.
pub(crate) fn sum_below(case: &Case, row: &Row, ends: &Ends, ranks: &[u32], below: u32) -> i128
    requires room { abs_sum row.now * (greatest_end case.now.d ends.now ^ length ends.now * 2 ^ case.now.w) < engine_limit }
    requires targets { All (λ entry. entry.target < length ranks.now) row.now }
    ensures { result ≡ weighted_sum (ranked_below (mark ranks.now) below) (moves_by case.now.d ends.now row.now) }
{
    let d = case.grid().d;
    let mut sum = 0;
    for entry in row.entries() {
        let counts = one_if(ranks[entry.target as usize] < below);
        sum += times(ends, d, entry, counts);
    }
    sum
}
