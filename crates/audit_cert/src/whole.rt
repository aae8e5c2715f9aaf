//! All tests of a vector, in order.

ghost use Rattle.std.specs.Prelude.{◌↔◌, IfErr, IfSome, IsOk, MatchResult, length};
ghost use Rattle.lift_grid.specs.Rectangle.{spans_of};
ghost use Rattle.corner_lift.specs.Case.{AreSidesInside, number};
ghost use Rattle.lift_cert.specs.Miss.{HasSmallNumbers};
ghost use Rattle.audit_cert.specs.Claim.{KeepsTo, Passes};
ghost use Rattle.audit_cert.specs.Form.{HasForm};
ghost use Rattle.audit_cert.specs.Held.{IsMissAt, claim_of};
ghost use Rattle.audit_cert.specs.Miss.{IsFirstMiss};

use crate::claim::Claim;
use crate::state::test_state;
use corner_lift::{Case, rows_at_corners};
use lift_cert::Miss;

/// Tests the initial state's number against the limit, where there is one.
fn test_limit(case: &Case, sides: &[i64], claim: &Claim) -> Result<(), Miss>
    requires { HasForm case.now (claim_of claim.now) }
    ensures miss { MatchResult result
        (λ _. IfSome (claim_of claim.now).limit (KeepsTo case.now.w (number claim.now.numbers.now case.now.model.init)))
        (IsMissAt case.now (spans_of sides.now) (claim_of claim.now) (length case.now.model.states)) }
    ensures numbers { IfErr result HasSmallNumbers }
{
    rows_at_corners();
    let Some(limit) = claim.limit else {
        return Ok(());
    };
    let init = case.model().init();
    let (left, right) = limit.beside(claim.number(case, init), case.w());
    if !limit.admits((left, right)) {
        return Err(Miss::Limit { left, right });
    }
    Ok(())
}

/// Whether the vector passes every test, or the first one that it fails.
pub(crate) fn meets(case: &Case, sides: &[i64], claim: &Claim) -> Result<(), Miss>
    requires sides { AreSidesInside case.now.root sides.now }
    requires form { HasForm case.now (claim_of claim.now) }
    ensures ok { IsOk result ↔ Passes case.now (spans_of sides.now) (claim_of claim.now) }
    ensures miss { IfErr result (IsFirstMiss case.now (spans_of sides.now) (claim_of claim.now)) }
    ensures numbers { IfErr result HasSmallNumbers }
{
    rows_at_corners();
    for state in 0..case.model().states() {
        test_state(case, sides, claim, state)?;
    }
    test_limit(case, sides, claim)
}
