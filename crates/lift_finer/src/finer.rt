// A region over a grid that is finer by a power of two.
ghost use Rattle.std.specs.Prelude.{◌≡◌, ◌≤◌, ◌<◌, ◌-◌, ◌^◌, pos, ◌*ℤ◌, true, Some, None, if◌then◌else◌, length, unsigned_abs, IfOk, IfSome};
ghost use Rattle.std.specs.List.{list_all};
ghost use Rattle.std.specs.Option.{option_map};
ghost use Rattle.lift_frac.specs.Limits.{size_limit};
ghost use Rattle.lift_grid.specs.Parts.{region_of};
ghost use Rattle.lift_grid.specs.Rectangle.{IsOnGrid, most_halvings};
ghost use Rattle.lift_grid.specs.Region.{is_narrow};
ghost use Rattle.lift_finer.specs.Finer.{finer_number, finer_sides, finer_spans, finer_within, is_small, most_finer};

use lift_grid::{Grid, Rect};
use std::alloc::{AllocError, Global};

/// `size_limit`: the size from which on a number is too large.
const SIZE_LIMIT: u128 = 1 << 62;

/// A number times a scale.
fn scaled(number: i64, n: u32) -> i128
    requires number { unsigned_abs number < size_limit }
    requires n { n ≤ most_finer }
    ensures { result ≡ number *ℤ pos n }
{
    i128::from(number) * i128::from(n)
}

/// The number over a grid `n` times as fine; none where it is too large.
fn finer_number(number: i64, n: u32) -> Option<i64>
    requires number { unsigned_abs number < size_limit }
    requires n { n ≤ most_finer }
    ensures { result ≡ finer_number n number }
{
    let finer = scaled(number, n);
    if finer.unsigned_abs() < SIZE_LIMIT {
        Some(finer as i64)
    } else {
        None
    }
}

/// The ends of a rectangle over a grid `n` times as fine; none where one is too large.
fn finer_sides(alloc: Global, sides: &[i64], n: u32) -> Result<Option<Vec<i64>>, AllocError>
    requires sides { list_all is_small sides.now ≡ true }
    requires n { n ≤ most_finer }
    ensures { IfOk result (λ found. option_map (λ v. v.items) found ≡ finer_sides n sides.now) }
{
    let mut finer = Vec::new(alloc);
    for side in sides {
        let Some(number) = finer_number(*side, n) else {
            return Ok(None);
        };
        finer.push(number)?;
    }
    Ok(Some(finer))
}

/// The rectangle over a grid `n` times as fine; none where an end is too large.
fn finer_rect(alloc: Global, root: &Rect, n: u32) -> Result<Option<Rect>, AllocError>
    requires n { (1 ≤ n) × (n ≤ most_finer) }
    ensures { IfOk result (λ found. let finer = finer_spans n root.now in
        found ≡ (if list_all is_narrow finer then Some finer else None)) }
{
    let Some(sides) = finer_sides(alloc, root.sides(), n)? else {
        return Ok(None);
    };
    let rect = Rect::from_sides(alloc, &sides)?;
    Ok(Some(rect))
}

/// A region over a grid that is so much finer that each span can be halved `depth` times; none where the grid's number
/// or an end is too large then.
pub fn finer_region(
    alloc: Global,
    grid: Grid,
    root: &Rect,
    depth: u32,
) -> Result<Option<(Grid, Rect)>, AllocError>
    requires grid { IsOnGrid grid.d grid.depth (length root.now) root.now }
    requires depth { (grid.depth ≤ depth) × (depth ≤ most_halvings) }
    ensures region { IfOk result (λ found.
        option_map region_of found ≡ finer_within (2 ^ (depth - grid.depth)) depth (region_of (grid, root.now))) }
    ensures on_grid { IfOk result (λ found. IfSome found (λ p. IsOnGrid p.0.d depth (length root.now) p.1)) }
    ensures depth { IfOk result (λ found. IfSome found (λ p. p.0.depth ≡ depth)) }
{
    let n = 2_u32.pow(depth - grid.depth);
    let Some(d) = finer_number(grid.d, n) else {
        return Ok(None);
    };
    let Some(rect) = finer_rect(alloc, root, n)? else {
        return Ok(None);
    };
    Ok(Some((Grid { d, depth }, rect)))
}
