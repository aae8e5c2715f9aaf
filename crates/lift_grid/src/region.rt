// From a region's text to a rectangle over a grid.
ghost use Rattle.std.specs.Prelude.{◌≡◌, ◌*◌, ◌*ℤ◌, ◌/◌, ◌<◌, ◌≤◌, ◌^◌, ℕ, pos, ◌<ℤ◌, nat_lt};
ghost use Rattle.std.specs.Prelude.{unsigned_abs, min, map, if◌then◌else◌, ◌∷◌, [], Some, None};
ghost use Rattle.std.specs.Prelude.{All, IfOk, length};
ghost use Rattle.lift_frac.specs.Frac.{ratio_of};
ghost use Rattle.lift_frac.specs.Gcd.{lcm};
ghost use Rattle.lift_frac.specs.Limits.{size_limit};
ghost use Rattle.lift_grid.specs.Region.{common_denominator, Divides, number_over, span_over};
ghost use Rattle.lift_grid.specs.Region.{is_narrow, spans_over, over_grid, region, Gives};
ghost use Rattle.lift_grid.specs.Rectangle.{sides_of, IsOnGrid, most_halvings};
ghost use Rattle.lift_grid.specs.Parts.{ratios_of, region_of};

use crate::error::RegionError;
use crate::interval::Interval;
use crate::intervals::{in_order, intervals_of};
use crate::laws::regions_are_on_grid;
use crate::rect::{Grid, Rect};
use lift_frac::{Frac, divisors_and_multiples, gcd};
use lift_names::Names;
use std::alloc::Global;

/// `size_limit`: the size from which on a number is too large.
const SIZE_LIMIT: u128 = 1 << 62;

/// The least common multiple with a denominator, or the limit where that is less.
fn common_with(d: u128, den: &i128) -> u128
    requires d { d ≤ size_limit }
    requires positive { pos 0 <ℤ den.now }
    requires den { unsigned_abs den.now < size_limit }
    ensures value { result ≡ min (size_limit) (lcm d (unsigned_abs den.now)) }
    ensures within { result ≤ size_limit }
{
    let den = den.unsigned_abs();
    (d / gcd(d, den) * den).min(SIZE_LIMIT)
}

/// The least common denominator of all ends, or the limit where that is less.
fn common_denominator(intervals: &[Interval]) -> u128
    ensures { result ≡ min (size_limit) (common_denominator (map ratios_of intervals.now)) }
{
    divisors_and_multiples();
    let mut d = 1;
    for interval in intervals {
        d = common_with(d, &interval.low.den);
        d = common_with(d, &interval.high.den);
    }
    d
}

/// The number, where it is below the limit in size.
fn narrowed(number: &i128) -> Option<i64>
    ensures { result ≡ (if nat_lt (unsigned_abs number.now) (size_limit) then Some number.now else None) }
{
    if number.unsigned_abs() < SIZE_LIMIT {
        Some(*number as i64)
    } else {
        None
    }
}

/// A number times a scale.
fn scaled(number: &i128, scale: u128) -> i128
    requires number { unsigned_abs number.now < size_limit }
    requires scale { scale < size_limit }
    ensures { result ≡ number.now *ℤ pos scale }
{
    *number * scale as i128
}

/// What one step of a fraction's denominator is over the grid.
fn scale_of(d: u128, depth: u32, den: &i128) -> u128
    requires small { d * 2 ^ depth < size_limit }
    requires depth { depth ≤ most_halvings }
    requires positive { pos 0 <ℤ den.now }
    ensures value { result ≡ d / unsigned_abs den.now * 2 ^ depth }
    ensures within { result < size_limit }
{
    d / den.unsigned_abs() * 2_u128.pow(depth)
}

/// A fraction's number over the grid; none from the limit on.
fn number_over(d: u128, depth: u32, fraction: &Frac) -> Option<i64>
    requires small { d * 2 ^ depth < size_limit }
    requires depth { depth ≤ most_halvings }
    ensures { let number = number_over d depth (ratio_of fraction.now) in
        result ≡ (if nat_lt (unsigned_abs number) (size_limit) then Some number else None) }
{
    let scale = scale_of(d, depth, &fraction.den);
    narrowed(&scaled(&fraction.num, scale))
}

/// An interval's two ends over the grid; none where one is at the limit or past it.
fn span_over(d: u128, depth: u32, interval: &Interval) -> Option<[i64; 2]>
    requires small { d * 2 ^ depth < size_limit }
    requires depth { depth ≤ most_halvings }
    ensures { let span = span_over d depth (ratios_of interval.now) in
        result ≡ (if is_narrow span then Some (sides_of (span ∷ [])) else None) }
{
    let low = number_over(d, depth, &interval.low)?;
    let high = number_over(d, depth, &interval.high)?;
    Some([low, high])
}

/// The intervals over the grid.
#[tactic(auto, unfolding(crate::specs::Region::spans_over))]
fn spans_over(
    alloc: Global,
    d: u128,
    depth: u32,
    intervals: &[Interval],
) -> Result<Rect, RegionError>
    requires small { d * 2 ^ depth < size_limit }
    requires depth { depth ≤ most_halvings }
    requires positive { 0 < d }
    requires divides { All (Divides d) (map ratios_of intervals.now) }
    ensures { Gives (λ r. r) result (spans_over d depth (map ratios_of intervals.now)) }
{
    let mut sides = Vec::new(alloc);
    for interval in intervals {
        let ends = span_over(d, depth, interval).ok_or(RegionError::Wide)?;
        sides.extend_from_slice(&ends)?;
    }
    Ok(Rect::new(sides))
}

/// The intervals over the grid that they and the depth call for.
#[tactic(auto, unfolding(crate::specs::Region::over_grid))]
fn over_grid(alloc: Global, depth: u32, intervals: &[Interval]) -> Result<(Grid, Rect), RegionError>
    requires { depth ≤ most_halvings }
    ensures { Gives region_of result (over_grid depth (map ratios_of intervals.now)) }
{
    divisors_and_multiples();
    let common = common_denominator(intervals);
    let d = common * 2_u128.pow(depth);
    if d >= SIZE_LIMIT {
        return Err(RegionError::Wide);
    }
    let rect = spans_over(alloc, common, depth, intervals)?;
    let grid = Grid { d: d as i64, depth };
    Ok((grid, rect))
}

/// Reads the region that a text names, over the grid that its ends and the depth call for: the
/// least common denominator of all ends times 2^depth. The text is clauses like `1/4<=p<=1/2`
/// between commas, one for each declared parameter; blanks may stand between any two parts. The
/// first refusal is told: clause by clause from the left, in a clause `Syntax`, `Wide`,
/// `UnknownName`, `Repeated` and `EmptyInterval`, and behind it `Syntax`; then `Missing`; then
/// `Wide` where the grid, or an end over it, is 2^62 or more in size. Linear in the text's length,
/// and quadratic in the number of parameters.
#[tactic(auto, unfolding(crate::specs::Region::region))]
pub fn read_region(
    alloc: Global,
    text: &[u8],
    names: &Names,
    depth: u32,
) -> Result<(Grid, Rect), RegionError>
    requires { depth ≤ most_halvings }
    ensures region { Gives region_of result (region names.now depth text.now) }
    ensures on_grid { IfOk result (λ p. IsOnGrid p.0.d depth (length names.now) p.1) }
    ensures depth { IfOk result (λ p. p.0.depth ≡ depth) }
{
    regions_are_on_grid();
    let intervals = intervals_of(alloc, names, text)?;
    let ordered = in_order(alloc, &intervals, names.len())?;
    over_grid(alloc, depth, &ordered)
}
