//! The tests of an accepting certificate.

ghost use Rattle.std.specs.Prelude.{◌≡◌, ◌≤◌, ◌<◌, ◌*◌, ◌*ℤ◌, ◌↔◌, ℕ, true, false};
ghost use Rattle.std.specs.Prelude.{length, unsigned_abs, IsOk, IfErr, MatchResult};
ghost use Rattle.lift_grid.specs.Rectangle.{spans_of};
ghost use Rattle.lift_model.specs.Model.{is_goal, choices};
ghost use Rattle.corner_lift.specs.Case.{IsCase, AreSidesInside, number, corner_count};
ghost use Rattle.corner_lift.specs.Case.{engine_limit};
ghost use Rattle.corner_lift.specs.Certificate.{AreNumbers};
ghost use Rattle.lift_cert.specs.Certificate.{IsAccepting, IsWithin};
ghost use Rattle.lift_cert.specs.Miss.{IsAcceptedRow, IsAcceptedState, IsStateMiss, IsBoundMiss};
ghost use Rattle.lift_cert.specs.Miss.{IsFirstAcceptMiss, HasSmallNumbers};

use crate::bound::Bound;
use crate::miss::Miss;
use corner_lift::{Case, one_at, row_value, rows_at_corners, whole};

/// How many corners the row of the state's choice has.
pub(crate) fn corners_of(case: &Case, state: u32, choice: u32) -> u32
    requires state { state < length case.now.model.states }
    requires choice { choice < length (choices case.now.model state) }
    ensures count { result ≡ corner_count case.now state choice }
    ensures case { IsCase case.now }
{
    rows_at_corners();
    1 << case.model().row(state, choice).support().count_ones()
}

/// A number times a whole.
pub(crate) fn times(number: i64, whole: i128) -> i128
    requires room { unsigned_abs number * unsigned_abs whole < engine_limit }
    ensures { result ≡ number *ℤ whole }
{
    i128::from(number) * whole
}

/// Tests the row of an inner state's choice at each of its corners. The state's earlier rows
/// passed.
fn test_row(case: &Case, sides: &[i64], x: &[i64], state: u32, choice: u32) -> Result<(), Miss>
    requires sides { AreSidesInside case.now.root sides.now }
    requires numbers { AreNumbers case.now x.now }
    requires state { state < length case.now.model.states }
    requires inner { is_goal case.now.model state ≡ false }
    requires choice { choice < length (choices case.now.model state) }
    requires before { (a : ℕ) → a < choice
        → IsAcceptedRow case.now (spans_of sides.now) x.now state a }
    ensures miss { let spans = spans_of sides.now in MatchResult result
        (λ _. IsAcceptedRow case.now spans x.now state choice)
        (IsStateMiss case.now spans x.now state) }
    ensures numbers { IfErr result HasSmallNumbers }
{
    rows_at_corners();
    let right = times(x[state as usize], whole(case, state, choice));
    for corner in 0..corners_of(case, state, choice) {
        let left = row_value(case, sides, state, choice, corner, x);
        if left > right {
            return Err(Miss::Row {
                state,
                choice,
                corner,
                left,
                right,
            });
        }
    }
    Ok(())
}

/// Tests a goal state, whose rows don't matter.
fn test_goal(case: &Case, sides: &[i64], x: &[i64], state: u32) -> Result<(), Miss>
    requires numbers { AreNumbers case.now x.now }
    requires state { state < length case.now.model.states }
    requires goal { is_goal case.now.model state ≡ true }
    ensures miss { let spans = spans_of sides.now in MatchResult result
        (λ _. IsAcceptedState case.now spans x.now state)
        (IsStateMiss case.now spans x.now state) }
    ensures numbers { IfErr result HasSmallNumbers }
{
    rows_at_corners();
    let value = x[state as usize];
    if value != one_at(case.w()) {
        return Err(Miss::Goal { state, value });
    }
    Ok(())
}

/// Tests a state: a goal state's number, or else each of its rows.
fn test_state(case: &Case, sides: &[i64], x: &[i64], state: u32) -> Result<(), Miss>
    requires sides { AreSidesInside case.now.root sides.now }
    requires numbers { AreNumbers case.now x.now }
    requires state { state < length case.now.model.states }
    ensures miss { let spans = spans_of sides.now in MatchResult result
        (λ _. IsAcceptedState case.now spans x.now state)
        (IsStateMiss case.now spans x.now state) }
    ensures numbers { IfErr result HasSmallNumbers }
{
    let model = case.model();
    if model.is_goal(state) {
        return test_goal(case, sides, x, state);
    }
    for choice in 0..model.choices(state) {
        test_row(case, sides, x, state, choice)?;
    }
    Ok(())
}

/// Tests the initial state's number against the bound.
fn test_limit(case: &Case, bound: Bound, x: &[i64]) -> Result<(), Miss>
    requires { AreNumbers case.now x.now }
    ensures miss { MatchResult result
        (λ _. IsWithin bound case.now.w (number x.now case.now.model.init))
        (IsBoundMiss case.now bound x.now) }
    ensures numbers { IfErr result HasSmallNumbers }
{
    rows_at_corners();
    let init = case.model().init();
    let (left, right) = bound.beside(x[init as usize], case.w());
    if left > right {
        return Err(Miss::Limit { left, right });
    }
    Ok(())
}

/// Whether `x` is an accepting certificate of the rectangle with these sides, or the first test
/// that it fails. A state is tested before the next one: a goal state's number is 2 to the
/// precision (`Goal`), and else at each corner of each choice in turn the weighted sum of `x` is at
/// most the state's number times the whole (`Row`). Last, the initial state's number over 2 to the
/// precision is at most the bound (`Limit`).
///
/// The sides lie inside the root, and `x` has a number from 0 to 2^w for each state. Takes no
/// memory, and goes over the terms of a row once for each of its corners. The rows of goal states
/// aren't looked at.
pub fn meets_accept(case: &Case, sides: &[i64], bound: Bound, x: &[i64]) -> Result<(), Miss>
    requires sides { AreSidesInside case.now.root sides.now }
    requires numbers { AreNumbers case.now x.now }
    ensures ok { IsOk result ↔ IsAccepting case.now (spans_of sides.now) bound x.now }
    ensures miss { IfErr result (IsFirstAcceptMiss case.now (spans_of sides.now) bound x.now) }
    ensures numbers { IfErr result HasSmallNumbers }
{
    rows_at_corners();
    for state in 0..case.model().states() {
        test_state(case, sides, x, state)?;
    }
    test_limit(case, bound, x)
}
