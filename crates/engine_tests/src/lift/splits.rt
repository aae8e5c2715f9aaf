//! Tests of the split rule and of halves.

ghost use Rattle.std.specs.Prelude.{◌≡◌, ◌<◌, ◌^◌, length};
ghost use Rattle.lift_grid.specs.Rectangle.{spans_of};
ghost use Rattle.lift_grid.specs.Splitting.{HasHalvings, IsHalvable};

use crate::cells::each_row;
use crate::lift::names::names_of;
use lift_grid::{halves_stay_on_grid, members_are_below, narrow, read_region, split_axis};
use lift_names::Names;
use std::alloc::{AllocError, Global};
use std::string::String;
use test_cells::{Teller, Unreported, cut};

/// One half of a rectangle.
fn half(alloc: Global, sides: &[i64], axis: u32, lower: bool) -> Result<Vec<i64>, AllocError>
    requires { IsHalvable axis (spans_of sides.now) }
{
    let mut half = Vec::from_slice(alloc, sides)?;
    narrow(&mut half, axis, lower);
    Ok(half)
}

/// The axis of three spans, and the lower and the upper half.
fn halves(alloc: Global, sides: &[i64], live: u16) -> Result<String, AllocError>
    requires halvings { HasHalvings 1 (spans_of sides.now) }
    requires spans { length (spans_of sides.now) ≡ 3 }
    requires sides { length sides.now ≡ 6 }
    requires live { live < 2 ^ 3 }
{
    members_are_below();
    halves_stay_on_grid();
    let Some(axis) = split_axis(sides, live) else {
        return format!(in alloc; "none");
    };
    let lower = half(alloc, sides, axis, true)?;
    let upper = half(alloc, sides, axis, false)?;
    format!(in alloc; "{axis} {lower:?} {upper:?}")
}

/// A region of p, q and r at depth 1, the live parameters as a set, and the axis with both halves.
const SPLITS: &str = "\
0<=p<=1,0<=q<=1,0<=r<=1 | 7 | 0 [0, 1, 0, 2, 0, 2] [1, 2, 0, 2, 0, 2]
0<=p<=1,0<=q<=1,0<=r<=1 | 6 | 1 [0, 2, 0, 1, 0, 2] [0, 2, 1, 2, 0, 2]
0<=p<=1,0<=q<=1,0<=r<=1 | 4 | 2 [0, 2, 0, 2, 0, 1] [0, 2, 0, 2, 1, 2]
0<=p<=1,0<=q<=1,0<=r<=1 | 0 | none
0<=p<=1/2,0<=q<=1,0<=r<=1 | 7 | 1 [0, 2, 0, 2, 0, 4] [0, 2, 2, 4, 0, 4]
0<=p<=1/2,0<=q<=1,0<=r<=1 | 5 | 2 [0, 2, 0, 4, 0, 2] [0, 2, 0, 4, 2, 4]
0<=p<=1/2,0<=q<=1,0<=r<=1 | 1 | 0 [0, 1, 0, 4, 0, 4] [1, 2, 0, 4, 0, 4]
0<=p<=1/3,0<=q<=1/2,0<=r<=1/6 | 7 | 1 [0, 4, 0, 3, 0, 2] [0, 4, 3, 6, 0, 2]
-1<=p<=1/2,0<=q<=1,-3/4<=r<=-1/4 | 7 | 0 [-8, -2, 0, 8, -6, -2] [-2, 4, 0, 8, -6, -2]
-1<=p<=1/2,0<=q<=1,-3/4<=r<=-1/4 | 4 | 2 [-8, 4, 0, 8, -6, -4] [-8, 4, 0, 8, -4, -2]
-1<=p<=0,3<=q<=7/2,5<=r<=6 | 7 | 0 [-4, -2, 12, 14, 20, 24] [-2, 0, 12, 14, 20, 24]";

/// The axis and both halves of the region of three names.
fn halves_over(alloc: Global, names: &Names, region: &[u8], live: u16) -> Result<String, Unreported>
    requires names { length names.now ≡ 3 }
    requires live { live < 2 ^ 3 }
{
    match read_region(alloc, region, names, 1) {
        Ok((_, root)) if root.sides().len() == 6 => Ok(halves(alloc, root.sides(), live)?),
        _ => Err(Unreported::Cell),
    }
}

/// The same of a row's cells.
fn halves_reported(alloc: Global, names: &Names, asked: &str) -> Result<String, Unreported> {
    let (region, live) = cut(asked);
    match live.parse::<u16>() {
        Ok(live) if live < 8 && names.len() == 3 => {
            halves_over(alloc, names, region.as_bytes(), live)
        }
        _ => Err(Unreported::Cell),
    }
}

struct Splits;

impl Teller for Splits {
    type Reported = String;

    type Error = Unreported;

    fn tell(&self, alloc: Global, asked: &str) -> Result<String, Unreported> {
        let names = names_of(alloc, "p q r")?;
        let reported = halves_reported(alloc, &names, asked);
        drop(names);
        reported
    }
}

#[test]
fn halves_the_longest_live_span(rt: HostRuntime) {
    each_row(&rt, rt.alloc(), SPLITS, &Splits);
}
