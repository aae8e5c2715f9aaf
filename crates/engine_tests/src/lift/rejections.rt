//! Tests of rejecting certificates.

ghost use Rattle.std.specs.Prelude.{◌≡◌, ◌≤◌, ◌⊎◌, true, false, length, All};
ghost use Rattle.lift_model.specs.Model.{is_goal};
ghost use Rattle.corner_lift.specs.Certificate.{unmarked};
ghost use Rattle.engine_tests.specs.Lane.{IsInLane};

use crate::cells::each_row;
use crate::example::ask_text;
use crate::lift::certificates::{COIN, bound_of, numbers_of, shown};
use corner_lift::Case;
use lift_cert::{Bound, Miss, meets_reject};
use std::alloc::Global;
use std::string::String;
use test_cases::Asker;
use test_cells::{Teller, Unreported, count, cut_three};

/// For p from 3/5 to 9/10 and at precision 4: the numbers, the chosen row and the rank of state 0, `e`, the
/// bound, and the answer. State 1 is the goal, and state 2 has no rank. The weights of state 0 sum to
/// 10, and at the low corner 6 of them lead to the goal.
const REJECT: &str = "\
9 16 0 | 0 1 | 1 | 1/2 | Ok(())
9 16 0 | 0 1 | 126 | 1/2 | Ok(())
10 16 0 | 0 1 | 1 | 1/2 | Err(Row { state: 0, choice: 0, corner: 0, left: 100, right: 96 })
10 16 0 | 0 1 | 0 | 1/2 | Err(Row { state: 0, choice: 0, corner: 0, left: 100, right: 96 })
9 16 0 | 0 1 | 0 | 1/2 | Err(Rate { state: 0, choice: 0, corner: 0, weight: 6, e: 0, whole: 10 })
9 16 0 | - - | 1 | 1/2 | Err(Unranked { state: 0, value: 9 })
0 16 0 | - - | 0 | 0/1 | Err(Limit { left: 0, right: 0 })
9 15 0 | 0 1 | 1 | 1/2 | Err(Goal { state: 1, value: 15 })
9 16 3 | 0 1 | 1 | 1/2 | Err(Unranked { state: 2, value: 3 })
8 16 0 | 0 1 | 1 | 1/2 | Err(Limit { left: 16, right: 16 })
9 16 0 | 0 1 | 1 | 5/8 | Err(Limit { left: 72, right: 80 })";

/// In place of a chosen row or a rank where a state has none.
const NONE: u32 = u32::MAX;

/// The answer on the whole root. State 0 picks its first choice and has rank 1, or has
/// neither chosen row nor rank.
fn answer_of(case: &Case, bound: Bound, y: &[i64], is_ranked: bool, e: u32) -> Result<(), Miss>
    requires precision { case.now.w ≡ 4 }
    requires states { length case.now.model.states ≡ 3 }
    requires first { is_goal case.now.model 0 ≡ false }
    requires second { is_goal case.now.model 1 ≡ true }
    requires third { is_goal case.now.model 2 ≡ false }
    requires size { length y.now ≡ 3 }
    requires range { All IsInLane y.now }
    requires rate { e ≤ 126 }
{
    let sides = case.root().sides();
    if is_ranked {
        let (picks, ranks) = ([0, NONE, NONE], [1, 0, NONE]);
        meets_reject(case, sides, bound, y, &picks, &ranks, e, 1)
    } else {
        let (picks, ranks) = ([NONE, NONE, NONE], [NONE, 0, NONE]);
        meets_reject(case, sides, bound, y, &picks, &ranks, e, 1)
    }
}

/// The answer to these cells.
fn answer_reported(alloc: Global, case: &Case, asked: &str) -> Result<String, Unreported>
    requires precision { case.now.w ≡ 4 }
    requires states { length case.now.model.states ≡ 3 }
    requires first { is_goal case.now.model 0 ≡ false }
    requires second { is_goal case.now.model 1 ≡ true }
    requires third { is_goal case.now.model 2 ≡ false }
{
    let (numbers, marks, rate, bound) = cut_three(asked);
    let (y, bound, e) = (numbers_of(numbers)?, bound_of(bound)?, count(rate));
    if e > 126 {
        return Err(Unreported::Cell);
    }
    shown(alloc, answer_of(case, bound, &y, marks == "0 1", e))
}

/// The same, where the case is at precision 4 and has three states, of which the second alone is a goal state.
#[derive(Clone, Copy)]
struct Rejection<'a> {
    asked: &'a str,
}

impl Asker for Rejection<'_> {
    type Reported = String;

    fn ask(&self, alloc: Global, case: &Case) -> Result<String, Unreported> {
        let model = case.model();
        if case.w() != 4 || model.states() != 3 {
            return Err(Unreported::Cell);
        }
        if model.is_goal(0) || !model.is_goal(1) || model.is_goal(2) {
            return Err(Unreported::Cell);
        }
        answer_reported(alloc, case, self.asked)
    }
}

struct Rejections;

impl Teller for Rejections {
    type Reported = String;

    type Error = Unreported;

    fn tell(&self, alloc: Global, asked: &str) -> Result<String, Unreported> {
        ask_text(alloc, COIN, b"3/5<=p<=9/10", 4, &Rejection { asked })
    }
}

#[test]
fn finds_the_first_miss_of_a_rejection(rt: HostRuntime) {
    each_row(&rt, rt.alloc(), REJECT, &Rejections);
}
