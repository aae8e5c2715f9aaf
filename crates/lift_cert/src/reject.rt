//! The tests of a rejecting certificate.

ghost use Rattle.std.specs.Prelude.{◌≡◌, ◌≤◌, ◌<◌, ◌+◌, ◌^◌, ◌*ℤ◌, ◌≤ℤ◌, ◌<ℤ◌, ◌↔◌, ℕ, pos, true, false};
ghost use Rattle.std.specs.Prelude.{length, unsigned_abs, IsTrue, IsOk, IfErr, MatchResult};
ghost use Rattle.lift_grid.specs.Rectangle.{spans_of};
ghost use Rattle.lift_model.specs.Model.{is_goal, choices};
ghost use Rattle.corner_lift.specs.Case.{IsCase, AreSidesInside, number, row_whole, engine_limit};
ghost use Rattle.corner_lift.specs.Certificate.{AreNumbers, unmarked, mark};
ghost use Rattle.lift_cert.specs.Certificate.{IsRejecting, IsBeyond};
ghost use Rattle.lift_cert.specs.Miss.{HasSmallNumbers};
ghost use Rattle.lift_cert.specs.RejectMiss.{HasRejectForm, IsMarked, IsAtCorner, IsSupported, IsFast};
ghost use Rattle.lift_cert.specs.RejectMiss.{IsHeldCorner, IsHeldRow, IsHeldState, IsHeldMiss};
ghost use Rattle.lift_cert.specs.RejectMiss.{IsFirstRejectMiss, IsUnderBoundMiss, weight_below};

use crate::accept::{corners_of, times};
use crate::bound::Bound;
use crate::certificate::Certificate;
use crate::miss::Miss;
use corner_lift::{
    Case, corners_bound_weights, is_enough, one_at, row_value, rows_at_corners, weight_into, whole,
};

/// The row that a ranked state picks, over a rectangle.
#[derive(Drop)]
struct ChosenRow<'a> {
    case: &'a Case<'a>,
    sides: &'a [i64],
    r: &'a Certificate<'a>,
    state: u32,
    choice: u32,
}

impl ChosenRow<'_> {
    /// Tests the mean at a corner.
    fn test_mean(&self, corner: u32) -> Result<(), Miss>
        requires case { IsCase self.now.case.now }
        requires sides { AreSidesInside self.now.case.now.root self.now.sides.now }
        requires form { HasRejectForm self.now.case.now self.now.r.now }
        requires at { IsAtCorner self.now.case.now (spans_of self.now.sides.now) self.now.r.now self.now.state self.now.choice corner }
        ensures miss { let spans = spans_of self.now.sides.now in MatchResult result
            (λ _. IsSupported self.now.case.now spans self.now.r.now self.now.state self.now.choice corner)
            (IsHeldMiss self.now.case.now spans self.now.r.now self.now.state) }
        ensures numbers { IfErr result HasSmallNumbers }
    {
        rows_at_corners();
        let left = times(
            self.r.number(self.case, self.state),
            whole(self.case, self.state, self.choice),
        );
        let right = row_value(
            self.case,
            self.sides,
            self.state,
            self.choice,
            corner,
            self.r.numbers(),
        );
        if left > right {
            return Err(Miss::Row {
                state: self.state,
                choice: self.choice,
                corner,
                left,
                right,
            });
        }
        Ok(())
    }

    /// The weight at a corner into states of lower rank.
    fn weight_below(&self, corner: u32) -> i128
        requires case { IsCase self.now.case.now }
        requires sides { AreSidesInside self.now.case.now.root self.now.sides.now }
        requires form { HasRejectForm self.now.case.now self.now.r.now }
        requires at { IsAtCorner self.now.case.now (spans_of self.now.sides.now) self.now.r.now self.now.state self.now.choice corner }
        ensures value { result
            ≡ weight_below self.now.case.now (spans_of self.now.sides.now) self.now.r.now self.now.state self.now.choice corner }
        ensures least { pos 0 ≤ℤ result }
        ensures most { result ≤ℤ row_whole self.now.case.now self.now.state self.now.choice }
    {
        rows_at_corners();
        corners_bound_weights();
        let rank = self.r.rank(self.case, self.state);
        weight_into(
            self.case,
            self.sides,
            self.state,
            self.choice,
            corner,
            self.r.ranks(),
            rank,
        )
    }

    /// Tests the rate at a corner where the mean passed.
    fn test_rate(&self, corner: u32) -> Result<(), Miss>
        requires case { IsCase self.now.case.now }
        requires sides { AreSidesInside self.now.case.now.root self.now.sides.now }
        requires form { HasRejectForm self.now.case.now self.now.r.now }
        requires at { IsAtCorner self.now.case.now (spans_of self.now.sides.now) self.now.r.now self.now.state self.now.choice corner }
        requires mean { IsSupported self.now.case.now (spans_of self.now.sides.now) self.now.r.now self.now.state self.now.choice corner }
        ensures miss { let spans = spans_of self.now.sides.now in MatchResult result
            (λ _. IsFast self.now.case.now spans self.now.r.now self.now.state self.now.choice corner)
            (IsHeldMiss self.now.case.now spans self.now.r.now self.now.state) }
        ensures numbers { IfErr result HasSmallNumbers }
    {
        let weight = self.weight_below(corner);
        let whole = whole(self.case, self.state, self.choice);
        let e = self.r.e();
        if !is_enough(weight, e, whole) {
            return Err(Miss::Rate {
                state: self.state,
                choice: self.choice,
                corner,
                weight,
                e,
                whole,
            });
        }
        Ok(())
    }

    /// Tests a corner: first the mean, then the rate.
    fn test_corner(&self, corner: u32) -> Result<(), Miss>
        requires case { IsCase self.now.case.now }
        requires sides { AreSidesInside self.now.case.now.root self.now.sides.now }
        requires form { HasRejectForm self.now.case.now self.now.r.now }
        requires at { IsAtCorner self.now.case.now (spans_of self.now.sides.now) self.now.r.now self.now.state self.now.choice corner }
        ensures miss { let spans = spans_of self.now.sides.now in MatchResult result
            (λ _. IsHeldCorner self.now.case.now spans self.now.r.now self.now.state self.now.choice corner)
            (IsHeldMiss self.now.case.now spans self.now.r.now self.now.state) }
        ensures numbers { IfErr result HasSmallNumbers }
    {
        self.test_mean(corner)?;
        self.test_rate(corner)
    }
}

/// Tests a ranked state at each corner of the row that it picks.
fn test_ranked(case: &Case, sides: &[i64], r: &Certificate, state: u32) -> Result<(), Miss>
    requires sides { AreSidesInside case.now.root sides.now }
    requires form { HasRejectForm case.now r.now }
    requires state { state < length case.now.model.states }
    requires inner { is_goal case.now.model state ≡ false }
    requires ranked { mark r.now.ranks state < unmarked }
    ensures miss { let spans = spans_of sides.now in MatchResult result
        (λ _. IsHeldState case.now spans r.now state)
        (IsHeldMiss case.now spans r.now state) }
    ensures numbers { IfErr result HasSmallNumbers }
{
    let choice = r.pick(case, state);
    let row = ChosenRow {
        case: &*case,
        sides: &*sides,
        r: &*r,
        state,
        choice,
    };
    for corner in 0..corners_of(case, state, choice) {
        row.test_corner(corner)?;
    }
    Ok(())
}

/// Tests a state without rank.
fn test_unranked(case: &Case, sides: &[i64], r: &Certificate, state: u32) -> Result<(), Miss>
    requires form { HasRejectForm case.now r.now }
    requires state { state < length case.now.model.states }
    requires inner { is_goal case.now.model state ≡ false }
    requires none { mark r.now.ranks state ≡ unmarked }
    ensures miss { let spans = spans_of sides.now in MatchResult result
        (λ _. IsHeldState case.now spans r.now state)
        (IsHeldMiss case.now spans r.now state) }
    ensures numbers { IfErr result HasSmallNumbers }
{
    rows_at_corners();
    let value = r.number(case, state);
    if value != 0 {
        return Err(Miss::Unranked { state, value });
    }
    Ok(())
}

/// Tests a goal state.
fn test_goal(case: &Case, sides: &[i64], r: &Certificate, state: u32) -> Result<(), Miss>
    requires form { HasRejectForm case.now r.now }
    requires state { state < length case.now.model.states }
    requires goal { is_goal case.now.model state ≡ true }
    ensures miss { let spans = spans_of sides.now in MatchResult result
        (λ _. IsHeldState case.now spans r.now state)
        (IsHeldMiss case.now spans r.now state) }
    ensures numbers { IfErr result HasSmallNumbers }
{
    rows_at_corners();
    let value = r.number(case, state);
    if value != one_at(case.w()) {
        return Err(Miss::Goal { state, value });
    }
    Ok(())
}

/// Tests a state by what it is: a goal state, a state without rank, or a ranked one.
fn test_state(case: &Case, sides: &[i64], r: &Certificate, state: u32) -> Result<(), Miss>
    requires sides { AreSidesInside case.now.root sides.now }
    requires form { HasRejectForm case.now r.now }
    requires state { state < length case.now.model.states }
    ensures miss { let spans = spans_of sides.now in MatchResult result
        (λ _. IsHeldState case.now spans r.now state)
        (IsHeldMiss case.now spans r.now state) }
    ensures numbers { IfErr result HasSmallNumbers }
{
    if case.model().is_goal(state) {
        test_goal(case, sides, r, state)
    } else if r.is_ranked(case, state) {
        test_ranked(case, sides, r, state)
    } else {
        test_unranked(case, sides, r, state)
    }
}

/// Tests the initial state's number against the bound.
fn test_limit(case: &Case, bound: Bound, r: &Certificate) -> Result<(), Miss>
    requires { HasRejectForm case.now r.now }
    ensures miss { MatchResult result
        (λ _. IsBeyond bound case.now.w (number r.now.numbers case.now.model.init))
        (IsUnderBoundMiss case.now bound r.now) }
    ensures numbers { IfErr result HasSmallNumbers }
{
    rows_at_corners();
    let init = case.model().init();
    let (left, right) = bound.beside(r.number(case, init), case.w());
    if left <= right {
        return Err(Miss::Limit { left, right });
    }
    Ok(())
}

/// Whether the numbers `y` with these choices, ranks, `e` and `k` are a rejecting certificate of the
/// rectangle with these sides, or the first test that they fail. A state is tested before the next
/// one. A goal state's number is 2 to the precision (`Goal`), and that of a state without rank is 0
/// (`Unranked`). Any other state is tested at each corner of the row that it picks: the state's number
/// times the whole is at most the weighted sum of `y` (`Row`), and the weight into states of lower
/// rank, times 2 to the `e`, is at least the whole (`Rate`). Last, the initial state's number over 2 to
/// the precision is above the bound (`Limit`).
///
/// The sides lie inside the root. There is a number from 0 to 2^w, a chosen row and a rank for each state.
/// Goal states, and no others, have rank 0; they have no chosen row, which is `u32::MAX`. Any other state has
/// a rank from 1 to `k` and choices one of its choices, or it has neither, which is `u32::MAX` for both.
/// `k` is from 1 to 65,536, and `e` at most 126. Takes no memory. The rows of goal states, and those
/// that aren't picked, aren't looked at.
pub fn meets_reject(
    case: &Case,
    sides: &[i64],
    bound: Bound,
    y: &[i64],
    picks: &[u32],
    ranks: &[u32],
    e: u32,
    k: u32,
) -> Result<(), Miss>
    requires sides { AreSidesInside case.now.root sides.now }
    requires form { HasRejectForm case.now
        (record { numbers = y.now; picks = picks.now; ranks = ranks.now; e = e; k = k }) }
    ensures ok { IsOk result ↔ IsRejecting case.now (spans_of sides.now) bound
        (record { numbers = y.now; picks = picks.now; ranks = ranks.now; e = e; k = k }) }
    ensures miss { IfErr result (IsFirstRejectMiss case.now (spans_of sides.now) bound
        (record { numbers = y.now; picks = picks.now; ranks = ranks.now; e = e; k = k })) }
    ensures numbers { IfErr result HasSmallNumbers }
{
    rows_at_corners();
    let r = Certificate::new(y, picks, ranks, e, k);
    for state in 0..case.model().states() {
        test_state(case, sides, &r, state)?;
    }
    test_limit(case, bound, &r)
}
