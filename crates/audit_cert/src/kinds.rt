//! The tests of each kind of certificate, with the first that fails.

ghost use Rattle.std.specs.Prelude.{◌↔◌, IfErr, IfSome, IsOk};
ghost use Rattle.lift_grid.specs.Rectangle.{spans_of};
ghost use Rattle.corner_lift.specs.Case.{AreSidesInside, number};
ghost use Rattle.corner_lift.specs.Certificate.{AreNumbers};
ghost use Rattle.lift_cert.specs.Certificate.{IsBeyond, IsWithin};
ghost use Rattle.lift_cert.specs.Miss.{HasSmallNumbers};
ghost use Rattle.lift_dual.specs.Property.{IsHighSide, IsLowSide};
ghost use Rattle.lift_dual.specs.Sides.{IsLowerAll, IsUpperOne};
ghost use Rattle.lift_bounded.specs.Steps.{IsLowerStep, IsUpperStep};
ghost use Rattle.lift_cost.specs.Certificate.{IsCostCertificate};
ghost use Rattle.audit_cert.specs.Claim.{cost, lower_all, lower_step, upper_one, upper_step};
ghost use Rattle.audit_cert.specs.Form.{HasPicks, HasRanks};
ghost use Rattle.audit_cert.specs.Held.{ranking_of};
ghost use Rattle.audit_cert.specs.Miss.{IsFirstMiss};

use crate::claim::Ranking;
use crate::claims::{cost, lower_all, lower_step, upper_one, upper_step};
use crate::whole::meets;
use corner_lift::{Case, rows_at_corners};
use float_guess::Rewards;
use lift_cert::{Bound, Miss};
use lift_cost::Budget;
use property_text::Op;

/// Whether `x` with these choices is an upper vector for one scheduler of the rectangle with these sides, and the initial
/// state's number is on the lower side of the bound, or the first test that fails. A state is tested before the next one:
/// a goal state's number is 2 to the precision (`Goal`), and of any other state, at each corner of the row that it picks,
/// the weighted sum of `x` is at most its number times the whole (`Row`). Last comes the bound (`Limit`).
///
/// The sides lie inside the root. There is a number from 0 to 2^w and a chosen row for each state: none, which is
/// `u32::MAX`, for goal states, and one of its choices for any other. Takes no memory.
pub fn meets_upper_one(
    case: &Case,
    sides: &[i64],
    op: Op,
    bound: Bound,
    x: &[i64],
    picks: &[u32],
) -> Result<(), Miss>
    requires sides { AreSidesInside case.now.root sides.now }
    requires numbers { AreNumbers case.now x.now }
    requires picks { HasPicks case.now picks.now }
    ensures ok { IsOk result ↔ (IsUpperOne case.now (spans_of sides.now) x.now picks.now
        × IsLowSide op bound case.now.w (number x.now case.now.model.init)) }
    ensures miss { IfErr result (IsFirstMiss case.now (spans_of sides.now) (upper_one op bound x.now picks.now)) }
    ensures numbers { IfErr result HasSmallNumbers }
{
    rows_at_corners();
    let _ = case.w();
    let claim = upper_one(op, bound, x, picks);
    meets(case, sides, &claim)
}

/// Whether `y` with these ranks, `e` and `k` is a lower vector for every scheduler of the rectangle with these sides, and
/// the initial state's number is on the upper side of the bound, or the first test that fails. A state is tested before
/// the next one: a goal state's number is 2 to the precision (`Goal`), and that of a state without rank is 0 (`Unranked`).
/// Of any other state, at each corner of each choice, its number times the whole is at most the weighted sum of `y`
/// (`Row`), and the weight into states of lower rank, times 2 to the `e`, is at least the whole (`Rate`). Last comes the
/// bound (`Limit`).
///
/// The sides lie inside the root. There is a number from 0 to 2^w and a rank for each state: 0 for goal states, and for
/// any other one from 1 to `k`, or none, which is `u32::MAX`. `k` is from 1 to 65,536, and `e` at most 126. Takes no
/// memory.
pub fn meets_lower_all(
    case: &Case,
    sides: &[i64],
    op: Op,
    bound: Bound,
    y: &[i64],
    ranking: Ranking,
) -> Result<(), Miss>
    requires sides { AreSidesInside case.now.root sides.now }
    requires numbers { AreNumbers case.now y.now }
    requires ranks { HasRanks case.now (ranking_of y.now ranking) }
    ensures ok { IsOk result ↔ (IsLowerAll case.now (spans_of sides.now)
        (ranking_of y.now ranking.entry)
        × IsHighSide op bound case.now.w (number y.now case.now.model.init)) }
    ensures miss { IfErr result (IsFirstMiss case.now (spans_of sides.now)
        (lower_all op bound (ranking_of y.now ranking.entry))) }
    ensures numbers { IfErr result HasSmallNumbers }
{
    rows_at_corners();
    let _ = case.w();
    let claim = lower_all(op, bound, y, ranking);
    meets(case, sides, &claim)
}

/// Whether `z` is an upper vector of one step more than `x`, and, at the last step, at which a bound is given, the initial
/// state's number over 2 to the precision is at most that, or the first test that fails. A goal state's number is 2 to the
/// precision (`Goal`), and of any other state, at each corner of each choice, the weighted sum of `x` is at most its number
/// in `z` times the whole (`Row`). Last comes the bound (`Limit`).
///
/// The sides lie inside the root, and both vectors have a number from 0 to 2^w for each state. Takes no memory.
pub fn meets_upper_step(
    case: &Case,
    sides: &[i64],
    bound: Option<Bound>,
    x: &[i64],
    z: &[i64],
) -> Result<(), Miss>
    requires sides { AreSidesInside case.now.root sides.now }
    requires before { AreNumbers case.now x.now }
    requires numbers { AreNumbers case.now z.now }
    ensures ok { IsOk result ↔ (IsUpperStep case.now (spans_of sides.now) x.now z.now
        × IfSome bound (λ b. IsWithin b case.now.w (number z.now case.now.model.init))) }
    ensures miss { IfErr result (IsFirstMiss case.now (spans_of sides.now) (upper_step bound x.now z.now)) }
    ensures numbers { IfErr result HasSmallNumbers }
{
    rows_at_corners();
    let _ = case.w();
    let claim = upper_step(bound, x, z);
    meets(case, sides, &claim)
}

/// Whether `z` with these choices is a lower vector of one step more than `y`, and, at the last step, at which a bound is
/// given, the initial state's number over 2 to the precision is above that, or the first test that fails. A goal state's
/// number is 2 to the precision (`Goal`), and of any other state, at each corner of the row that it picks, its number in
/// `z` times the whole is at most the weighted sum of `y` (`Row`). Last comes the bound (`Limit`).
///
/// The sides lie inside the root, both vectors have a number from 0 to 2^w for each state, and there is a chosen row for
/// each state: none, which is `u32::MAX`, for goal states, and one of its choices for any other. Takes no memory.
pub fn meets_lower_step(
    case: &Case,
    sides: &[i64],
    bound: Option<Bound>,
    y: &[i64],
    z: &[i64],
    picks: &[u32],
) -> Result<(), Miss>
    requires sides { AreSidesInside case.now.root sides.now }
    requires before { AreNumbers case.now y.now }
    requires numbers { AreNumbers case.now z.now }
    requires picks { HasPicks case.now picks.now }
    ensures ok { IsOk result ↔ (IsLowerStep case.now (spans_of sides.now) y.now z.now picks.now
        × IfSome bound (λ b. IsBeyond b case.now.w (number z.now case.now.model.init))) }
    ensures miss { IfErr result (IsFirstMiss case.now (spans_of sides.now) (lower_step bound y.now z.now picks.now)) }
    ensures numbers { IfErr result HasSmallNumbers }
{
    rows_at_corners();
    let _ = case.w();
    let claim = lower_step(bound, y, z, picks);
    meets(case, sides, &claim)
}

/// Whether `z` is a cost certificate of the rectangle with these sides, or the first test that fails. A goal state's number
/// is 0 (`Goal`), and of any other state, at each corner of each choice, the weighted sum of `z` is at most its number less
/// its price, times the whole (`Row`). Last, the initial state's number over 2 to the precision, times the cap, is at most
/// the budget (`Limit`). Where a price is above a state's number, -1 stands for what it leaves of it.
///
/// The sides lie inside the root, and `z` has a number from 0 to 2^w, which stands for the cap, for each state. Takes no
/// memory.
pub fn meets_cost(
    case: &Case,
    sides: &[i64],
    rewards: Rewards,
    budget: Budget,
    z: &[i64],
) -> Result<(), Miss>
    requires sides { AreSidesInside case.now.root sides.now }
    requires numbers { AreNumbers case.now z.now }
    ensures ok { IsOk result ↔ IsCostCertificate case.now (spans_of sides.now) rewards.entry.costs.now rewards.entry.cap
        (record { num = budget.num; den = budget.den }) z.now }
    ensures miss { IfErr result (IsFirstMiss case.now (spans_of sides.now)
        (cost rewards.entry.costs.now rewards.entry.cap (record { num = budget.num; den = budget.den }) z.now)) }
    ensures numbers { IfErr result HasSmallNumbers }
{
    rows_at_corners();
    let _ = case.w();
    let claim = cost(rewards, budget, z);
    meets(case, sides, &claim)
}
