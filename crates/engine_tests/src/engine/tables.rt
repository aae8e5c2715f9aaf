//! Tests of tables of corner weights.

ghost use Rattle.std.specs.Prelude.{◌≡◌, length};
ghost use Rattle.lift_grid.specs.Rectangle.{spans_of, sides_of};
ghost use Rattle.lift_model.specs.Links.{HasChoice};
ghost use Rattle.lift_model.specs.OnlyRow.{IsPairRow};
ghost use Rattle.corner_lift.specs.Case.{corner_count};
ghost use Rattle.corner_lift.specs.Certificate.{AreNumbers};
ghost use Rattle.corner_lift.specs.Lifted.{IsLiftedTo};

use crate::cells::each_row;
use crate::engine::roots::{Engine, Lanes, Root, find_text};
use crate::example::chain_of;
use corner_lift::{LaneSum, Lifted, has_short_sums, rows_at_corners};
use lift_model::{OnlyRow, PairRow};
use std::alloc::{AllocError, Global};
use std::fmt::Write;
use std::string::String;
use test_cells::{Teller, Unreported, cut};

/// A row of state 0 with both parameters, and a region; how many weights the table has; and of that row
/// the whole, what the numbers 0, 16 and 0 sum to at the first and at the last corner, the least and the
/// greatest over the corners, at the last corner the weights into the goal state and into state 0
/// itself, and the least weight into the goal state over the corners. Whether the mean is at most 9 and at most 10, and
/// whether it is at least 6 and at least 7. The sums of the fourth row and of the seventh and the eighth need more than 64
/// bits. Then what is quickly looked up, if it is: the least and the greatest sum over the corners, and the least weight
/// into the goal state; and of the only row of state 0, as far as it is short and leads elsewhere, the same. Last, what it
/// weighs into other states at the last corner, where 64 bits hold its sums: state 0's own number, 5 there, doesn't count.
const READ: &str = "\
0 : p*q;1 : p-p*q;2 : 1-p | 1/5<=p<=2/5,3/5<=q<=4/5 | \
    [13, 25, 32, 32, 16, 64, 2, 8, 1]; [true, true, false, false]; -, -, -; other; 32 of 17
0 : p;1 : q-p;2 : 1-q | 1/5<=p<=2/5,3/5<=q<=4/5 | \
    [13, 25, 160, 160, 80, 240, 10, 10, 5]; [false, true, false, false]; -, -, -; other; 160 of 15
1 : 1/2*p+1/2*q;2 : 1-1/2*p-1/2*q | 1/5<=p<=2/5,3/5<=q<=4/5 | \
    [9, 50, 320, 480, 320, 480, 30, 0, 20]; [false, true, true, false]; \
    320 of 50 by 1, 480 of 50 by 1, 20 of 50 by 1; pair 1 2: 320 of 50 by 1, 480 of 50 by 1, 20 of 50 by 1; 480 of 50
0 : p*q;1 : p-p*q;2 : 1-p | 1/576460752303423488<=p<=2/576460752303423488,1/576460752303423488<=q<=2/576460752303423488 | \
    [13, 332306998946228968225951765070086144, 9223372036854775792, 18446744073709551552, 9223372036854775776, 18446744073709551584, \
    1152921504606846972, 4, 576460752303423486]; [true, true, false, false]; -, -, -; other; -
1 : 1/2*p+1/2*q;2 : 1-1/2*p-1/2*q | 1/536870912<=p<=3/536870912,1/536870912<=q<=3/536870912 | \
    [9, 576460752303423488, 17179869184, 51539607552, 17179869184, 51539607552, 3221225472, 0, 1073741824]; [true, true, false, false]; \
    16 of 536870912 by 1073741824, 48 of 536870912 by 1073741824, 1 of 536870912 by 1073741824; \
    pair 1 2: 16 of 536870912 by 1073741824, 48 of 536870912 by 1073741824, 1 of 536870912 by 1073741824; -
0 : 1/2*p+1/2*q;1 : 1-1/2*p-1/2*q | 1/5<=p<=2/5,3/5<=q<=4/5 | \
    [9, 50, 480, 320, 320, 480, 20, 30, 20]; [false, true, true, false]; 320 of 50 by 1, 480 of 50 by 1, 20 of 50 by 1; other; 320 of 20
1 : p*q;2 : 1-p*q | 1/576460752303423488<=p<=2/576460752303423488,1/576460752303423488<=q<=2/576460752303423488 | \
    [9, 332306998946228968225951765070086144, 16, 64, 16, 64, 4, 0, 1]; [true, true, false, false]; -, -, -; pair 1 2: -, -, -; -
0 : p*q;1 : 1-p*q | 1/576460752303423488<=p<=2/576460752303423488,1/576460752303423488<=q<=2/576460752303423488 | \
    [9, 332306998946228968225951765070086144, 5316911983139663491615228241121378288, 5316911983139663491615228241121378240, \
    5316911983139663491615228241121378240, 5316911983139663491615228241121378288, 332306998946228968225951765070086140, 4, \
    332306998946228968225951765070086140]; [false, false, true, true]; -, -, -; other; -";

/// What the row of state 0 sums to at its first and at its last corner, and there its weight into state 0.
fn at_corners(rows: &Lifted, vec: &[i64]) -> (i128, i128, i128)
    requires lifted { IsLiftedTo rows.now (spans_of (sides_of rows.now.case.root)) }
    requires row { HasChoice rows.now.case.model 0 0 }
    requires numbers { AreNumbers rows.now.case vec.now }
    requires corners { corner_count rows.now.case 0 0 ≡ 4 }
{
    let first = rows.table_value(0, 0, 0, vec);
    let last = rows.table_corner(0, 0, 3, vec);
    (first, last.sum, last.own)
}

/// The whole of the row of state 0, and its least and its greatest sum over the corners.
fn over_corners(rows: &Lifted, vec: &[i64]) -> (i128, i128, i128)
    requires lifted { IsLiftedTo rows.now (spans_of (sides_of rows.now.case.root)) }
    requires row { HasChoice rows.now.case.model 0 0 }
    requires numbers { AreNumbers rows.now.case vec.now }
{
    let least = rows.table_least(0, 0, vec).sum;
    let greatest = rows.table_greatest(0, 0, vec);
    (greatest.whole, least, greatest.sum)
}

/// The weight of the row of state 0 into the goal state, at its last corner and the least over the corners.
fn into_goal(rows: &Lifted) -> (i128, i128)
    requires lifted { IsLiftedTo rows.now (spans_of (sides_of rows.now.case.root)) }
    requires row { HasChoice rows.now.case.model 0 0 }
    requires states { length rows.now.case.model.states ≡ 3 }
    requires corners { corner_count rows.now.case 0 0 ≡ 4 }
{
    let last = rows.table_into(0, 0, 3, &[1, 0, u32::MAX], 1);
    let least = rows.table().least_into(0, 0, &[1, 0, u32::MAX], 1).sum;
    (last, least)
}

/// The numbers that the table tells of the row of state 0.
fn numbers_of(rows: &Lifted, vec: &[i64]) -> [i128; 9]
    requires lifted { IsLiftedTo rows.now (spans_of (sides_of rows.now.case.root)) }
    requires row { HasChoice rows.now.case.model 0 0 }
    requires numbers { AreNumbers rows.now.case vec.now }
    requires states { length rows.now.case.model.states ≡ 3 }
    requires corners { corner_count rows.now.case 0 0 ≡ 4 }
{
    let (first, last, own) = at_corners(rows, vec);
    let (whole, least, greatest) = over_corners(rows, vec);
    let (goal, into) = into_goal(rows);
    let size = rows.weights().len() as i128;
    [size, whole, first, last, least, greatest, goal, own, into]
}

/// Whether the mean of the row of state 0 is at most 9, at most 10, at least 6 and at least 7.
fn bounds_of(rows: &Lifted, vec: &[i64]) -> [bool; 4]
    requires lifted { IsLiftedTo rows.now (spans_of (sides_of rows.now.case.root)) }
    requires row { HasChoice rows.now.case.model 0 0 }
    requires numbers { AreNumbers rows.now.case vec.now }
    requires precision { rows.now.case.w ≡ 4 }
{
    let table = rows.table();
    [
        table.is_capped(0, 0, vec, 9),
        table.is_capped(0, 0, vec, 10),
        table.is_held(0, 0, vec, 6),
        table.is_held(0, 0, vec, 7),
    ]
}

/// The least and the greatest sum of a row, and its least weight into the goal state, as far as they are looked up.
type Sums = (Option<LaneSum>, Option<LaneSum>, Option<LaneSum>);

/// Tells a sum of a row with its whole, and what both were divided by.
fn tell_sum(reported: &mut String, row: Option<LaneSum>, behind: &str) -> Result<(), AllocError> {
    match row {
        Some(row) => write!(
            reported,
            "{} of {} by {}{behind}",
            row.sum, row.whole, row.scale
        ),
        None => write!(reported, "-{behind}"),
    }
}

/// Tells all of them.
fn tell_sums(reported: &mut String, sums: Sums) -> Result<(), AllocError> {
    let (least, greatest, into) = sums;
    tell_sum(reported, least, ", ")?;
    tell_sum(reported, greatest, ", ")?;
    tell_sum(reported, into, "; ")
}

/// What is looked up of the row of state 0.
fn row_reported(rows: &Lifted, vec: &[i64]) -> Sums
    requires lifted { IsLiftedTo rows.now (spans_of (sides_of rows.now.case.root)) }
    requires row { HasChoice rows.now.case.model 0 0 }
    requires numbers { AreNumbers rows.now.case vec.now }
    requires states { length rows.now.case.model.states ≡ 3 }
{
    let least = rows.least(0, 0, vec);
    let greatest = rows.greatest(0, 0, vec);
    let into = rows.least_into(0, 0, &[1, 0, u32::MAX], 1);
    (least, greatest, into)
}

/// What is looked up of the only row of state 0, which has two entries.
fn pair_reported(rows: &Lifted, row: PairRow, vec: &[i64]) -> Sums
    requires lifted { IsLiftedTo rows.now (spans_of (sides_of rows.now.case.root)) }
    requires row { HasChoice rows.now.case.model 0 0 }
    requires numbers { AreNumbers rows.now.case vec.now }
    requires states { length rows.now.case.model.states ≡ 3 }
    requires pair { IsPairRow rows.now.case.model rows.now.links 0 row }
{
    let least = rows.least_of(0, row, vec);
    let greatest = rows.greatest_of(0, row, vec);
    let into = rows.least_into_of(0, row, &[1, 0, u32::MAX], 1);
    (least, greatest, into)
}

/// Tells what is looked up of the only row of state 0, as far as it is short and leads elsewhere.
fn tell_only(reported: &mut String, rows: &Lifted, vec: &[i64]) -> Result<(), AllocError>
    requires lifted { IsLiftedTo rows.now (spans_of (sides_of rows.now.case.root)) }
    requires row { HasChoice rows.now.case.model 0 0 }
    requires numbers { AreNumbers rows.now.case vec.now }
    requires states { length rows.now.case.model.states ≡ 3 }
{
    match rows.only_row(0) {
        OnlyRow::Single(target) => write!(reported, "single {target}; "),
        OnlyRow::Pair(row) => {
            write!(reported, "pair {} {}: ", row.first, row.second)?;
            tell_sums(reported, pair_reported(rows, row, vec))
        }
        OnlyRow::Other => write!(reported, "other; "),
    }
}

/// What the row of state 0 weighs into other states at its last corner and their whole, if 64 bits hold its sums.
fn leaving(rows: &Lifted, vec: &[i64]) -> Option<(i64, i64)>
    requires lifted { IsLiftedTo rows.now (spans_of (sides_of rows.now.case.root)) }
    requires row { HasChoice rows.now.case.model 0 0 }
    requires numbers { AreNumbers rows.now.case vec.now }
    requires corners { corner_count rows.now.case 0 0 ≡ 4 }
{
    let _ = rows.w();
    if !has_short_sums(rows.case(), rows.links(), rows.weights(), 0, 0) {
        return None;
    }
    let others = rows.table().others(0, 0, 3, vec);
    Some((others.sum, others.whole))
}

/// Tells what a row weighs into other states.
fn tell_leaving(reported: &mut String, leaving: Option<(i64, i64)>) -> Result<(), AllocError> {
    match leaving {
        Some((sum, whole)) => write!(reported, "{sum} of {whole}"),
        None => write!(reported, "-"),
    }
}

/// Tells the numbers and the bounds of the row of state 0, and what is looked up of it.
fn tell_row(reported: &mut String, rows: &Lifted, vec: &[i64]) -> Result<(), AllocError>
    requires lifted { IsLiftedTo rows.now (spans_of (sides_of rows.now.case.root)) }
    requires row { HasChoice rows.now.case.model 0 0 }
    requires numbers { AreNumbers rows.now.case vec.now }
    requires states { length rows.now.case.model.states ≡ 3 }
    requires corners { corner_count rows.now.case 0 0 ≡ 4 }
    requires precision { rows.now.case.w ≡ 4 }
{
    let numbers = numbers_of(rows, vec);
    let bounds = bounds_of(rows, vec);
    write!(reported, "{numbers:?}; {bounds:?}; ")?;
    tell_sums(reported, row_reported(rows, vec))?;
    tell_only(reported, rows, vec)
}

/// Tells the whole of the row of state 0, by the table of the case's root.
fn tell_table(reported: &mut String, rows: &Lifted) -> Result<(), AllocError>
    requires lifted { IsLiftedTo rows.now (spans_of (sides_of rows.now.case.root)) }
    requires row { HasChoice rows.now.case.model 0 0 }
    requires states { length rows.now.case.model.states ≡ 3 }
    requires corners { corner_count rows.now.case 0 0 ≡ 4 }
    requires precision { rows.now.case.w ≡ 4 }
{
    tell_row(reported, rows, &[0, 16, 0])?;
    tell_leaving(reported, leaving(rows, &[5, 16, 0]))
}

/// The same as a text.
fn table_reported(alloc: Global, rows: &Lifted) -> Result<String, Unreported>
    requires lifted { IsLiftedTo rows.now (spans_of (sides_of rows.now.case.root)) }
    requires row { HasChoice rows.now.case.model 0 0 }
    requires states { length rows.now.case.model.states ≡ 3 }
    requires corners { corner_count rows.now.case 0 0 ≡ 4 }
    requires precision { rows.now.case.w ≡ 4 }
{
    let mut reported = String::new(alloc);
    tell_table(&mut reported, rows)?;
    Ok(reported)
}

/// The same where the case has three states, and one row of both parameters at state 0.
struct RowOfBoth;

impl Engine for RowOfBoth {
    type Found = String;

    fn find(&self, alloc: Global, root: Root, _lanes: &mut Lanes) -> Result<String, Unreported> {
        rows_at_corners();
        let case = root.case;
        if case.w() != 4 || case.model().states() != 3 || case.model().choices(0) != 1 {
            return Err(Unreported::Cell);
        }
        if case.model().row(0, 0).support().count_ones() != 2 {
            return Err(Unreported::Cell);
        }
        table_reported(alloc, &Lifted::new(case, root.links, root.weights))
    }
}

struct Tables;

impl Teller for Tables {
    type Reported = String;

    type Error = Unreported;

    fn tell(&self, alloc: Global, asked: &str) -> Result<String, Unreported> {
        let (row, region) = cut(asked);
        let text = chain_of(alloc, row)?;
        find_text(alloc, &text, region.as_bytes(), 4, &RowOfBoth)
    }
}

#[test]
fn reads_a_row_from_its_table(rt: HostRuntime) {
    each_row(&rt, rt.alloc(), READ, &Tables);
}
