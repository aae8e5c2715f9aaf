//! Tests of corners.

ghost use Rattle.std.specs.Prelude.{◌≡◌, ◌≤◌, ◌<◌, length};
ghost use Rattle.lift_grid.specs.Rectangle.{most_halvings};
ghost use Rattle.lift_model.specs.Model.{choices};
ghost use Rattle.corner_lift.specs.Case.{AreSidesInside, corner_count};
ghost use Rattle.corner_lift.specs.Certificate.{AreNumbers};

use crate::cells::each_row;
use crate::example::model_of;
use corner_lift::{
    Case, corners_bound_weights, row_max, row_min, row_value, rows_at_corners, weight_into, whole,
};
use lift_model::Model;
use std::alloc::Global;
use std::string::String;
use test_cases::{case_of, root_of};
use test_cells::{Teller, Unreported, count};

/// p q, p - p q and 1 - p to the states 0, 1 and 2, of which 1 is the goal.
const PRODUCTS: &str = "@type: DTMC;@parameters;p q;@model;state 0 init;0 : p*q;1 : p-p*q;2 : 1-p;\
state 1 goal;1 : 1;state 2;2 : 1";

/// The depth; what the numbers 0, 16 and 0 sum to at the corners 0 to 3; and the whole, the least and the
/// greatest of these, the weight into the goal state at corner 1, that into state 2 at corner 2, and the
/// greatest depth.
const WEIGHED: &str = "\
0 | [32, 64, 16, 32]; [25, 16, 64, 4, 20, 0]
1 | [128, 256, 64, 128]; [100, 64, 256, 16, 80, 1]";

/// What the row of state 0 sums to at each corner.
fn sums_of(case: &Case, sides: &[i64], vec: &[i64]) -> [i128; 4]
    requires sides { AreSidesInside case.now.root sides.now }
    requires numbers { AreNumbers case.now vec.now }
    requires states { length case.now.model.states ≡ 3 }
    requires choice { length (choices case.now.model 0) ≡ 1 }
    requires corners { corner_count case.now 0 0 ≡ 4 }
{
    [
        row_value(case, sides, 0, 0, 0, vec),
        row_value(case, sides, 0, 0, 1, vec),
        row_value(case, sides, 0, 0, 2, vec),
        row_value(case, sides, 0, 0, 3, vec),
    ]
}

/// The least and the greatest of these.
fn ends_of(case: &Case, sides: &[i64], vec: &[i64]) -> (i128, i128)
    requires sides { AreSidesInside case.now.root sides.now }
    requires numbers { AreNumbers case.now vec.now }
    requires states { length case.now.model.states ≡ 3 }
    requires choice { length (choices case.now.model 0) ≡ 1 }
{
    let least = row_min(case, sides, 0, 0, vec);
    let greatest = row_max(case, sides, 0, 0, vec);
    (least, greatest)
}

/// The weights of the row of state 0 into the goal state at corner 1, and into state 2 at corner 2.
fn weights_of(case: &Case, sides: &[i64]) -> (i128, i128)
    requires sides { AreSidesInside case.now.root sides.now }
    requires states { length case.now.model.states ≡ 3 }
    requires choice { length (choices case.now.model 0) ≡ 1 }
    requires corners { corner_count case.now 0 0 ≡ 4 }
{
    let goal = weight_into(case, sides, 0, 0, 1, &[1, 0, u32::MAX], 1);
    let other = weight_into(case, sides, 0, 0, 2, &[1, u32::MAX, 0], 1);
    (goal, other)
}

/// What the row of state 0 weighs.
fn weighed(alloc: Global, case: &Case, sides: &[i64], vec: &[i64]) -> Result<String, Unreported>
    requires sides { AreSidesInside case.now.root sides.now }
    requires numbers { AreNumbers case.now vec.now }
    requires states { length case.now.model.states ≡ 3 }
    requires choice { length (choices case.now.model 0) ≡ 1 }
    requires corners { corner_count case.now 0 0 ≡ 4 }
{
    let sums = sums_of(case, sides, vec);
    let (least, greatest) = ends_of(case, sides, vec);
    let (goal, other) = weights_of(case, sides);
    let depth = i128::from(case.greatest_depth());
    let others = [whole(case, 0, 0), least, greatest, goal, other, depth];
    Ok(format!(in alloc; "{sums:?}; {others:?}")?)
}

/// The same on the root of a case, which has to have three states, and one row of both parameters at state 0.
fn weighed_on(alloc: Global, case: &Case) -> Result<String, Unreported> {
    rows_at_corners();
    if case.w() != 4 || case.model().states() != 3 || case.model().choices(0) != 1 {
        return Err(Unreported::Cell);
    }
    if case.model().row(0, 0).support().count_ones() != 2 {
        return Err(Unreported::Cell);
    }
    weighed(alloc, case, case.root().sides(), &[0, 16, 0])
}

/// The same over a region of the parameters at a depth.
fn weighed_over(alloc: Global, model: &Model, depth: u32) -> Result<String, Unreported>
    requires { depth ≤ most_halvings }
{
    let (grid, root) = root_of(alloc, b"1/5<=p<=2/5,3/5<=q<=4/5", model.names(), depth)?;
    let case = case_of(model, &root, grid, 4)?;
    weighed_on(alloc, &case)
}

struct Weights;

impl Teller for Weights {
    type Reported = String;

    type Error = Unreported;

    fn tell(&self, alloc: Global, asked: &str) -> Result<String, Unreported> {
        let depth = count(asked);
        if depth > 20 {
            return Err(Unreported::Cell);
        }
        let model = model_of(alloc, PRODUCTS)?;
        let reported = weighed_over(alloc, &model, depth);
        drop(model);
        reported
    }
}

#[test]
fn weighs_a_row_at_its_corners(rt: HostRuntime) {
    corners_bound_weights();
    each_row(&rt, rt.alloc(), WEIGHED, &Weights);
}
