//! Tests of regions, their corners, and lists.

ghost use Rattle.std.specs.Prelude.{◌<◌, ◌≤◌, IsBitSet};
ghost use Rattle.lift_grid.specs.Rectangle.{most_halvings};

use crate::cells::each_row;
use crate::lift::names::names_of;
use lift_grid::{Grid, Marks, Rect, Values, corner_side, read_region};
use lift_names::Names;
use std::alloc::{AllocError, Global};
use std::string::String;
use test_cells::{Teller, Unreported, count, cut_two};

/// A region of p and q at depth 20, and why it is refused. Each test of a clause stands before the next
/// one, and before what stands behind the clause. 2199023255552 * 2^20 * 2 is 2^62, and so is
/// 2^41 * 2^20 * 2 as an end.
const REFUSED: &str = "\
1/10<=p<=2/5 | Missing
 | Missing
 \t | Missing
0<=p<=1,0<=q<=1,0<=q<=1 | Repeated
0<=p<=1,1/2<=q<=1/2 | EmptyInterval
0<=p<=1,1<=q<=-1 | EmptyInterval
0<=p<=1,0<=z<=1 | UnknownName
1/10<p<2/5 | Syntax
0<=p<=1/0 | Syntax
0<=p<=1,0<=q<=1, | Syntax
,0<=p<=1,0<=q<=1 | Syntax
0<=p<=1 0<=q<=1 | Syntax
0<=p< =1 | Syntax
0<=2p<=1 | Syntax
--1<=p<=1 | Syntax
0<=p<=1/ | Syntax
0<=p<=1. | Syntax
1e99<=z<=1/0 | Syntax
1e99<=z<=1 | Wide
4611686018427387904<=p<=1 | Wide
1/3037000500<=p<=1/3037000500/3037000500 | EmptyInterval
1e18/1e-18<=p<=1 | Wide
1<=z<=0; | UnknownName
0<=p<=1,1<=p<=0; | Repeated
1<=p<=0; | EmptyInterval
0<=p<=1;0<=z<=1 | Syntax
0<=p<=1,1<2 | Syntax
0<=p<=1/4398046511104,0<=q<=1 | Wide
0<=p<=4398046511104,0<=q<=1 | Wide";

/// Why a region at depth 20 is refused.
fn refusal(alloc: Global, text: &[u8], names: &Names) -> &'static str {
    match read_region(alloc, text, names, 20) {
        Ok(_) => "",
        Err(error) => error.name(),
    }
}

struct Refused;

impl Teller for Refused {
    type Reported = &'static str;

    type Error = AllocError;

    fn tell(&self, alloc: Global, asked: &str) -> Result<&'static str, AllocError> {
        let names = names_of(alloc, "p q")?;
        Ok(refusal(alloc, asked.as_bytes(), &names))
    }
}

#[test]
fn refuses_the_first_fault(rt: HostRuntime) {
    each_row(&rt, rt.alloc(), REFUSED, &Refused);
}

/// The declared names, the depth, a region, and the grid and the ends that it gives.
const READ: &str = "\
p | 0 | 1e-1<=p<=4e-1 | 10; [1, 4]
 | 5 |  | 32; []
 | 0 |  \t  | 1; []
p | 1 | 2/5<=p<=3/5 | 10; [4, 6]
p q | 2 | 1/2<=q<=3/5,1/2<=p<=3/5 | 40; [20, 24, 20, 24]
p q | 0 |  \t- 3 / 4 <= p <= - 1 / 6\t, 0 <= q <= 0.10  | 60; [-45, -10, 0, 6]
p q | 1 |  -1<=p<=2/4,0/7<=q<=1 | 4; [-4, 2, 0, 4]
p | 20 | 0<=p<=1/2199023255552 | 2305843009213693952; [0, 1048576]
a b c d e f g h i j k l m n o p | 0 | 0<=a<=1,0<=b<=1,0<=c<=1,0<=d<=1,0<=e<=1,0<=f<=1,0<=g<=1,0<=h<=1,\
0<=i<=1,0<=j<=1,0<=k<=1,0<=l<=1,0<=m<=1,0<=n<=1,0<=o<=1,1/3<=p<=1 | 3; \
[0, 3, 0, 3, 0, 3, 0, 3, 0, 3, 0, 3, 0, 3, 0, 3, 0, 3, 0, 3, 0, 3, 0, 3, 0, 3, 0, 3, 0, 3, 1, 3]";

/// A grid and ends as they are shown.
fn shown(alloc: Global, grid: Grid, sides: &[i64]) -> Result<String, Unreported> {
    Ok(format!(in alloc; "{}; {sides:?}", grid.d)?)
}

/// The grid and the ends of a region at a depth.
fn region_of(alloc: Global, names: &Names, text: &[u8], depth: u32) -> Result<String, Unreported>
    requires { depth ≤ most_halvings }
{
    match read_region(alloc, text, names, depth) {
        Ok((grid, rect)) if grid.depth == depth => shown(alloc, grid, rect.sides()),
        _ => Err(Unreported::Cell),
    }
}

struct Read;

impl Teller for Read {
    type Reported = String;

    type Error = Unreported;

    fn tell(&self, alloc: Global, asked: &str) -> Result<String, Unreported> {
        let (words, depth, text) = cut_two(asked);
        let depth = count(depth);
        if depth > 20 {
            return Err(Unreported::Cell);
        }
        let names = names_of(alloc, words)?;
        region_of(alloc, &names, text.as_bytes(), depth)
    }
}

#[test]
fn reads_regions(rt: HostRuntime) {
    each_row(&rt, rt.alloc(), READ, &Read);
}

/// An end of one of the parameters 0 and 2, which the set 5 holds.
fn end_of_five(corner: u32, parameter: u32) -> i64
    requires corner { corner < 4 }
    requires member { IsBitSet 5 parameter }
{
    corner_side(&[2, 4, 6, 8, -5, 1], 5, corner, parameter)
}

/// The set of the parameters 0 and 2: a corner, and the ends that it chooses for them.
const ENDS: &str = "\
0 | 2; -5
1 | 4; -5
2 | 2; 1
3 | 4; 1";

struct Ends;

impl Teller for Ends {
    type Reported = String;

    type Error = Unreported;

    fn tell(&self, alloc: Global, asked: &str) -> Result<String, Unreported> {
        let corner = count(asked);
        if corner >= 4 {
            return Err(Unreported::Cell);
        }
        let (first, second) = (end_of_five(corner, 0), end_of_five(corner, 2));
        Ok(format!(in alloc; "{first}; {second}")?)
    }
}

#[test]
fn chooses_ends(rt: HostRuntime) {
    each_row(&rt, rt.alloc(), ENDS, &Ends);
}

/// Whether a list keeps its values.
fn keeps_values(alloc: Global, values: &[i64]) -> Result<bool, AllocError> {
    Ok(Values::from_slice(alloc, values)?.as_slice() == values)
}

/// Whether a list keeps its marks.
fn keeps_marks(alloc: Global, marks: &[u32]) -> Result<bool, AllocError> {
    Ok(Marks::from_slice(alloc, marks)?.as_slice() == marks)
}

/// Whether a rectangle keeps its sides.
fn keeps_sides(alloc: Global) -> Result<bool, AllocError> {
    let rect = Rect::from_sides(alloc, &[2, 4, 6, 8, -5, 1])?;
    Ok(rect.sides() == [2, 4, 6, 8, -5, 1].as_slice())
}

/// Whether lists keep what they are made of.
fn keeps_all(alloc: Global) -> Result<bool, AllocError> {
    let are_kept = keeps_values(alloc, &[9, -16, 0])? && keeps_marks(alloc, &[1, 4294967295])?;
    Ok(are_kept && keeps_sides(alloc)?)
}

#[test]
fn keeps_lists(rt: HostRuntime) {
    assert!(rt; matches!(keeps_all(rt.alloc()), Ok(true)));
}
