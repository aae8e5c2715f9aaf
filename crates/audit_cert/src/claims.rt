//! What the vectors of each kind of certificate claim.

ghost use Rattle.std.specs.Prelude.{◌≡◌, Option};
ghost use Rattle.std.specs.Option.{option_map};
ghost use Rattle.audit_cert.specs.Claim.{cost, high, last, low, lower_all, lower_step, upper_one, upper_step};
ghost use Rattle.audit_cert.specs.Held.{claim_of, limit_of, ranking_of};

use crate::claim::{Claim, Kind, Ranking};
use crate::limit::Limit;
use float_guess::Rewards;
use lift_cert::Bound;
use lift_cost::Budget;
use property_text::Op;

/// The limit of the last step, at which a bound is given, on the lower side.
fn last_low(bound: Option<Bound>) -> Option<Limit>
    ensures { option_map limit_of result ≡ last low bound }
{
    match bound {
        None => None,
        Some(bound) => Some(Limit::low(Op::AtMost, bound)),
    }
}

/// The same on the upper side.
fn last_high(bound: Option<Bound>) -> Option<Limit>
    ensures { option_map limit_of result ≡ last high bound }
{
    match bound {
        None => None,
        Some(bound) => Some(Limit::high(Op::AtMost, bound)),
    }
}

/// The claim of an upper vector for one scheduler.
pub(crate) fn upper_one<'a>(op: Op, bound: Bound, x: &'a [i64], picks: &'a [u32]) -> Claim<'a>
    ensures { claim_of result ≡ upper_one op bound x.now picks.now }
{
    Claim {
        kind: Kind::Upper,
        numbers: x,
        targets: x,
        picks: Some(picks),
        ranking: None,
        limit: Some(Limit::low(op, bound)),
    }
}

/// The claim of a lower vector for every scheduler.
pub(crate) fn lower_all<'a>(op: Op, bound: Bound, y: &'a [i64], ranking: Ranking<'a>) -> Claim<'a>
    ensures { claim_of result ≡ lower_all op bound (ranking_of y.now ranking.entry) }
{
    Claim {
        kind: Kind::Lower,
        numbers: y,
        targets: y,
        picks: None,
        ranking: Some(ranking),
        limit: Some(Limit::high(op, bound)),
    }
}

/// The claim of an upper vector of one step more than `x`.
pub(crate) fn upper_step<'a>(bound: Option<Bound>, x: &'a [i64], z: &'a [i64]) -> Claim<'a>
    ensures { claim_of result ≡ upper_step bound x.now z.now }
{
    Claim {
        kind: Kind::Upper,
        numbers: z,
        targets: x,
        picks: None,
        ranking: None,
        limit: last_low(bound),
    }
}

/// The claim of a lower vector of one step more than `y`.
pub(crate) fn lower_step<'a>(
    bound: Option<Bound>,
    y: &'a [i64],
    z: &'a [i64],
    picks: &'a [u32],
) -> Claim<'a>
    ensures { claim_of result ≡ lower_step bound y.now z.now picks.now }
{
    Claim {
        kind: Kind::Lower,
        numbers: z,
        targets: y,
        picks: Some(picks),
        ranking: None,
        limit: last_high(bound),
    }
}

/// The claim of a priced vector.
pub(crate) fn cost<'a>(rewards: Rewards<'a>, budget: Budget, z: &'a [i64]) -> Claim<'a>
    ensures { claim_of result ≡ cost rewards.entry.costs.now rewards.entry.cap (record { num = budget.num; den = budget.den }) z.now }
{
    Claim {
        kind: Kind::Priced(rewards),
        numbers: z,
        targets: z,
        picks: None,
        ranking: None,
        limit: Some(Limit::within(budget, rewards.cap)),
    }
}
