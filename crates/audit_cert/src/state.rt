//! The tests of a state.

ghost use Rattle.std.specs.Prelude.{◌≡◌, ℕ, ◌<◌, ◌≤◌, true, false, length, IfErr, MatchResult};
ghost use Rattle.lift_grid.specs.Rectangle.{spans_of};
ghost use Rattle.lift_model.specs.Model.{choices, is_goal};
ghost use Rattle.corner_lift.specs.Case.{AreSidesInside};
ghost use Rattle.lift_cert.specs.Miss.{HasSmallNumbers};
ghost use Rattle.audit_cert.specs.Claim.{IsTested, PassesRow, PassesState, lacks_rank};
ghost use Rattle.audit_cert.specs.Form.{HasForm};
ghost use Rattle.audit_cert.specs.Held.{IsMissAt, IsToBeTested, claim_of};
ghost use Rattle.audit_cert.specs.Miss.{IsAtRow};

use crate::claim::Claim;
use crate::corner::{corner_count, test_mean, test_rate};
use corner_lift::{Case, rows_at_corners};
use lift_cert::Miss;

/// Tests a row of a state at each of its corners: first the mean, then the rate.
fn test_row(case: &Case, sides: &[i64], claim: &Claim, state: u32, choice: u32) -> Result<(), Miss>
    requires sides { AreSidesInside case.now.root sides.now }
    requires form { HasForm case.now (claim_of claim.now) }
    requires at { IsAtRow case.now (spans_of sides.now) (claim_of claim.now) state choice }
    ensures miss { let spans = spans_of sides.now in MatchResult result
        (λ _. PassesRow case.now spans (claim_of claim.now) state choice)
        (IsMissAt case.now spans (claim_of claim.now) state) }
    ensures numbers { IfErr result HasSmallNumbers }
{
    for corner in 0..corner_count(case, state, choice) {
        test_mean(case, sides, claim, state, choice, corner)?;
        test_rate(case, sides, claim, state, choice, corner)?;
    }
    Ok(())
}

/// Tests each row of a state, of which none is picked.
fn test_each_row(case: &Case, sides: &[i64], claim: &Claim, state: u32) -> Result<(), Miss>
    requires sides { AreSidesInside case.now.root sides.now }
    requires form { HasForm case.now (claim_of claim.now) }
    requires inner { IsToBeTested case.now (claim_of claim.now) state }
    requires each { (claim_of claim.now).picks ≡ None }
    ensures miss { let spans = spans_of sides.now in MatchResult result
        (λ _. (a : ℕ) → a < length (choices case.now.model state) → PassesRow case.now spans (claim_of claim.now) state a)
        (IsMissAt case.now spans (claim_of claim.now) state) }
    ensures numbers { IfErr result HasSmallNumbers }
{
    for choice in 0..case.model().choices(state) {
        test_row(case, sides, claim, state, choice)?;
    }
    Ok(())
}

/// Tests the rows of a state: the picked one, or each.
fn test_rows(case: &Case, sides: &[i64], claim: &Claim, state: u32) -> Result<(), Miss>
    requires sides { AreSidesInside case.now.root sides.now }
    requires form { HasForm case.now (claim_of claim.now) }
    requires inner { IsToBeTested case.now (claim_of claim.now) state }
    ensures miss { let spans = spans_of sides.now in MatchResult result
        (λ _. (a : ℕ) → IsTested case.now (claim_of claim.now).picks state a
        → PassesRow case.now spans (claim_of claim.now) state a)
        (IsMissAt case.now spans (claim_of claim.now) state) }
    ensures numbers { IfErr result HasSmallNumbers }
{
    match claim.picks {
        None => test_each_row(case, sides, claim, state),
        Some(picks) => {
            let place = state as usize;
            test_row(case, sides, claim, state, picks[place])
        }
    }
}

/// Tests a goal state.
fn test_goal(case: &Case, sides: &[i64], claim: &Claim, state: u32) -> Result<(), Miss>
    requires form { HasForm case.now (claim_of claim.now) }
    requires state { state < length case.now.model.states }
    requires goal { is_goal case.now.model state ≡ true }
    ensures miss { let spans = spans_of sides.now in MatchResult result
        (λ _. PassesState case.now spans (claim_of claim.now) state)
        (IsMissAt case.now spans (claim_of claim.now) state) }
    ensures numbers { IfErr result HasSmallNumbers }
{
    rows_at_corners();
    let value = claim.number(case, state);
    if value != claim.goal_number(case) {
        return Err(Miss::Goal { state, value });
    }
    Ok(())
}

/// Tests a state without rank.
fn test_unranked(case: &Case, sides: &[i64], claim: &Claim, state: u32) -> Result<(), Miss>
    requires form { HasForm case.now (claim_of claim.now) }
    requires state { state < length case.now.model.states }
    requires inner { is_goal case.now.model state ≡ false }
    requires unranked { lacks_rank (claim_of claim.now).ranking state ≡ true }
    ensures miss { let spans = spans_of sides.now in MatchResult result
        (λ _. PassesState case.now spans (claim_of claim.now) state)
        (IsMissAt case.now spans (claim_of claim.now) state) }
    ensures numbers { IfErr result HasSmallNumbers }
{
    rows_at_corners();
    let value = claim.number(case, state);
    if value != 0 {
        return Err(Miss::Unranked { state, value });
    }
    Ok(())
}

/// Tests a state by what it is: a goal state, a state without rank where there are ranks, or any other.
pub(crate) fn test_state(case: &Case, sides: &[i64], claim: &Claim, state: u32) -> Result<(), Miss>
    requires sides { AreSidesInside case.now.root sides.now }
    requires form { HasForm case.now (claim_of claim.now) }
    requires state { state < length case.now.model.states }
    ensures miss { let spans = spans_of sides.now in MatchResult result
        (λ _. PassesState case.now spans (claim_of claim.now) state)
        (IsMissAt case.now spans (claim_of claim.now) state) }
    ensures numbers { IfErr result HasSmallNumbers }
{
    if case.model().is_goal(state) {
        return test_goal(case, sides, claim, state);
    }
    if claim.lacks_rank(case, state) {
        return test_unranked(case, sides, claim, state);
    }
    test_rows(case, sides, claim, state)
}
