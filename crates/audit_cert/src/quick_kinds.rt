//! The quick tests of each kind of certificate: what `meets` of that kind tests, over the table of the rectangle, which
//! lies inside the root. The links are those of the case's model. They go over each row that is tested once, and take no
//! memory.

ghost use Rattle.std.specs.Prelude.{◌↔◌, IfSome, IsTrue};
ghost use Rattle.lift_grid.specs.Rectangle.{Spans};
ghost use Rattle.lift_model.specs.Links.{ArePlaces};
ghost use Rattle.corner_lift.specs.Case.{number};
ghost use Rattle.corner_lift.specs.Certificate.{AreNumbers};
ghost use Rattle.corner_lift.specs.Table.{IsTable};
ghost use Rattle.lift_cert.specs.Certificate.{IsBeyond, IsWithin};
ghost use Rattle.lift_dual.specs.Property.{IsHighSide, IsLowSide};
ghost use Rattle.lift_dual.specs.Sides.{IsLowerAll, IsUpperOne};
ghost use Rattle.lift_bounded.specs.Steps.{IsLowerStep, IsUpperStep};
ghost use Rattle.lift_cost.specs.Certificate.{IsCostCertificate};
ghost use Rattle.audit_cert.specs.Form.{HasPicks, HasRanks};
ghost use Rattle.audit_cert.specs.Held.{ranking_of};

use crate::claim::Ranking;
use crate::claims::{cost, lower_all, lower_step, upper_one, upper_step};
use crate::quick::passes;
use corner_lift::{Case, rows_at_corners};
use float_guess::Rewards;
use lift_cert::Bound;
use lift_cost::Budget;
use lift_model::Links;
use property_text::Op;

/// Whether `x` with these choices is an upper vector for one scheduler, on the lower side of the bound: what `meets_upper_one`
/// tests.
pub fn is_upper_one(
    case: &Case,
    links: &Links,
    weights: &[i128],
    op: Op,
    bound: Bound,
    x: &[i64],
    picks: &[u32],
) -> bool
    ghost spans: { Spans }
    requires places { ArePlaces case.now.model links.now }
    requires table { IsTable case.now links.now spans weights.now }
    requires numbers { AreNumbers case.now x.now }
    requires picks { HasPicks case.now picks.now }
    ensures { IsTrue result ↔ (IsUpperOne case.now spans x.now picks.now
        × IsLowSide op bound case.now.w (number x.now case.now.model.init)) }
{
    rows_at_corners();
    let _ = case.w();
    let claim = upper_one(op, bound, x, picks);
    passes(case, links, weights, &claim)
}

/// Whether `y` with these ranks is a lower vector for every scheduler, on the upper side of the bound: what
/// `meets_lower_all` tests.
pub fn is_lower_all(
    case: &Case,
    links: &Links,
    weights: &[i128],
    op: Op,
    bound: Bound,
    y: &[i64],
    ranking: Ranking,
) -> bool
    ghost spans: { Spans }
    requires places { ArePlaces case.now.model links.now }
    requires table { IsTable case.now links.now spans weights.now }
    requires numbers { AreNumbers case.now y.now }
    requires ranks { HasRanks case.now (ranking_of y.now ranking) }
    ensures { IsTrue result ↔ (IsLowerAll case.now spans (ranking_of y.now ranking.entry)
        × IsHighSide op bound case.now.w (number y.now case.now.model.init)) }
{
    rows_at_corners();
    let _ = case.w();
    let claim = lower_all(op, bound, y, ranking);
    passes(case, links, weights, &claim)
}

/// Whether `z` is an upper vector of one step more than `x`, at the last step within the bound: what `meets_upper_step`
/// tests.
pub fn is_upper_step(
    case: &Case,
    links: &Links,
    weights: &[i128],
    bound: Option<Bound>,
    x: &[i64],
    z: &[i64],
) -> bool
    ghost spans: { Spans }
    requires places { ArePlaces case.now.model links.now }
    requires table { IsTable case.now links.now spans weights.now }
    requires before { AreNumbers case.now x.now }
    requires numbers { AreNumbers case.now z.now }
    ensures { IsTrue result ↔ (IsUpperStep case.now spans x.now z.now
        × IfSome bound (λ b. IsWithin b case.now.w (number z.now case.now.model.init))) }
{
    rows_at_corners();
    let _ = case.w();
    let claim = upper_step(bound, x, z);
    passes(case, links, weights, &claim)
}

/// Whether `z` with these choices is a lower vector of one step more than `y`, at the last step beyond the bound: what
/// `meets_lower_step` tests.
pub fn is_lower_step(
    case: &Case,
    links: &Links,
    weights: &[i128],
    bound: Option<Bound>,
    y: &[i64],
    z: &[i64],
    picks: &[u32],
) -> bool
    ghost spans: { Spans }
    requires places { ArePlaces case.now.model links.now }
    requires table { IsTable case.now links.now spans weights.now }
    requires before { AreNumbers case.now y.now }
    requires numbers { AreNumbers case.now z.now }
    requires picks { HasPicks case.now picks.now }
    ensures { IsTrue result ↔ (IsLowerStep case.now spans y.now z.now picks.now
        × IfSome bound (λ b. IsBeyond b case.now.w (number z.now case.now.model.init))) }
{
    rows_at_corners();
    let _ = case.w();
    let claim = lower_step(bound, y, z, picks);
    passes(case, links, weights, &claim)
}

/// Whether `z` is a cost certificate: what `meets_cost` tests.
pub fn is_cost(
    case: &Case,
    links: &Links,
    weights: &[i128],
    rewards: Rewards,
    budget: Budget,
    z: &[i64],
) -> bool
    ghost spans: { Spans }
    requires places { ArePlaces case.now.model links.now }
    requires table { IsTable case.now links.now spans weights.now }
    requires numbers { AreNumbers case.now z.now }
    ensures { IsTrue result ↔ IsCostCertificate case.now spans rewards.entry.costs.now rewards.entry.cap
        (record { num = budget.num; den = budget.den }) z.now }
{
    rows_at_corners();
    let _ = case.w();
    let claim = cost(rewards, budget, z);
    passes(case, links, weights, &claim)
}
