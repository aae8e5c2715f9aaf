//! The tests at a corner: the mean, and the rate.

ghost use Rattle.std.specs.Prelude.{◌≡◌, ◌<◌, ◌≤ℤ◌, [], pos, length, IfErr, IfSome, MatchResult};
ghost use Rattle.lift_grid.specs.Rectangle.{spans_of};
ghost use Rattle.lift_model.specs.Model.{choices};
ghost use Rattle.corner_lift.specs.Case.{AreSidesInside, IsCase, corner_count, row_whole};
ghost use Rattle.lift_cert.specs.Miss.{HasSmallNumbers};
ghost use Rattle.lift_cert.specs.RejectMiss.{IsFast, weight_below};
ghost use Rattle.audit_cert.specs.Claim.{IsMet};
ghost use Rattle.audit_cert.specs.Form.{HasForm, HasRanks};
ghost use Rattle.audit_cert.specs.Held.{IsMissAt, claim_of, ranking_of};
ghost use Rattle.audit_cert.specs.Miss.{IsAtCorner};

use crate::claim::{Claim, Ranking};
use corner_lift::{Case, is_enough, row_value, rows_at_corners, times, weight_into, whole};
use lift_cert::Miss;

/// How many corners the row of the state's choice has.
pub(crate) fn corner_count(case: &Case, state: u32, choice: u32) -> u32
    requires state { state < length case.now.model.states }
    requires choice { choice < length (choices case.now.model state) }
    ensures count { result ≡ corner_count case.now state choice }
    ensures case { IsCase case.now }
{
    rows_at_corners();
    let support = case.model().row(state, choice).support();
    1 << support.count_ones()
}

/// Tests the mean at a corner.
pub(crate) fn test_mean(
    case: &Case,
    sides: &[i64],
    claim: &Claim,
    state: u32,
    choice: u32,
    corner: u32,
) -> Result<(), Miss>
    requires sides { AreSidesInside case.now.root sides.now }
    requires form { HasForm case.now (claim_of claim.now) }
    requires at { IsAtCorner case.now (spans_of sides.now) (claim_of claim.now) state choice corner }
    ensures miss { let spans = spans_of sides.now in MatchResult result
        (λ _. IsMet case.now spans (claim_of claim.now) state choice corner)
        (IsMissAt case.now spans (claim_of claim.now) state) }
    ensures numbers { IfErr result HasSmallNumbers }
{
    rows_at_corners();
    let _ = case.w();
    let product = times(claim.left_over(case, state), whole(case, state, choice));
    let sum = row_value(case, sides, state, choice, corner, claim.targets);
    let (left, right) = claim.kind.beside(sum, product);
    if left > right {
        return Err(Miss::Row {
            state,
            choice,
            corner,
            left,
            right,
        });
    }
    Ok(())
}

impl Ranking<'_> {
    /// The weight at a corner into states of lower rank.
    fn weight_below(&self, case: &Case, sides: &[i64], state: u32, choice: u32, corner: u32) -> i128
        requires sides { AreSidesInside case.now.root sides.now }
        requires ranks { HasRanks case.now (ranking_of [] self.now) }
        requires state { state < length case.now.model.states }
        requires choice { choice < length (choices case.now.model state) }
        requires corner { corner < corner_count case.now state choice }
        ensures value { result ≡ weight_below case.now (spans_of sides.now) (ranking_of [] self.now) state choice corner }
        ensures least { pos 0 ≤ℤ result }
        ensures most { result ≤ℤ row_whole case.now state choice }
    {
        rows_at_corners();
        let _ = case.w();
        let rank = self.rank(case, state);
        weight_into(case, sides, state, choice, corner, self.ranks, rank)
    }
}

/// Tests the rate at a corner where the mean passed.
pub(crate) fn test_rate(
    case: &Case,
    sides: &[i64],
    claim: &Claim,
    state: u32,
    choice: u32,
    corner: u32,
) -> Result<(), Miss>
    requires sides { AreSidesInside case.now.root sides.now }
    requires form { HasForm case.now (claim_of claim.now) }
    requires met { IsMet case.now (spans_of sides.now) (claim_of claim.now) state choice corner }
    requires at { IsAtCorner case.now (spans_of sides.now) (claim_of claim.now) state choice corner }
    ensures miss { let spans = spans_of sides.now in MatchResult result
        (λ _. IfSome (claim_of claim.now).ranking (λ r. IsFast case.now spans r state choice corner))
        (IsMissAt case.now spans (claim_of claim.now) state) }
    ensures numbers { IfErr result HasSmallNumbers }
{
    let Some(ranking) = claim.ranking else {
        return Ok(());
    };
    let weight = ranking.weight_below(case, sides, state, choice, corner);
    let whole = whole(case, state, choice);
    if !is_enough(weight, ranking.e, whole) {
        return Err(Miss::Rate {
            state,
            choice,
            corner,
            weight,
            e: ranking.e,
            whole,
        });
    }
    Ok(())
}
