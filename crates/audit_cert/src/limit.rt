//! What the initial state's number is compared with.

ghost use Rattle.std.specs.Prelude.{◌≡◌, ◌*◌, ◌≤◌, ◌≤ℤ◌, ◌^◌, ◌*ℤ◌, ◌↔◌, pos, IsTrue, if◌then◌else◌};
ghost use Rattle.corner_lift.specs.Case.{most_precision};
ghost use Rattle.lift_cert.specs.Miss.{IsSmall};
ghost use Rattle.property_text.specs.declared.op.Op.TheVariants.{Above, AtLeast, AtMost, Below};
ghost use Rattle.lift_dual.specs.Property.{is_closed};
ghost use Rattle.audit_cert.specs.Claim.{KeepsTo, Stands, high, low, within_budget};
ghost use Rattle.audit_cert.specs.Held.{limit_of};

use corner_lift::one_at;
use lift_cert::Bound;
use lift_cost::Budget;
use property_text::Op;

/// How the initial state's number over 2 to the precision, times the scale, compares with the level.
#[derive(Clone, Copy)]
pub(crate) struct Limit {
    pub relation: Op,
    pub scale: u64,
    pub level: u64,
}

/// How numbers of the lower side of a bound compare with it.
fn lower_relation(op: Op) -> Op
    ensures { result ≡ (if is_closed op then AtMost else Below) }
{
    match op {
        Op::AtMost | Op::Above => Op::AtMost,
        Op::Below | Op::AtLeast => Op::Below,
    }
}

/// How those of its upper side do.
fn upper_relation(op: Op) -> Op
    ensures { result ≡ (if is_closed op then Above else AtLeast) }
{
    match op {
        Op::AtMost | Op::Above => Op::Above,
        Op::Below | Op::AtLeast => Op::AtLeast,
    }
}

/// Whether one number stands in that relation to another.
fn stands(relation: Op, left: i128, right: i128) -> bool
    ensures { IsTrue result ↔ Stands relation left right }
{
    match relation {
        Op::AtMost => left <= right,
        Op::Below => left < right,
        Op::AtLeast => left >= right,
        Op::Above => left > right,
    }
}

/// The product, which can't overflow.
fn widening_mul(a: i64, b: u64) -> i128
    ensures { result ≡ a *ℤ pos b }
{
    i128::from(a) * i128::from(b)
}

/// The same of short numbers.
fn short_mul(a: u32, b: u32) -> u64
    ensures { result ≡ a * b }
{
    u64::from(a) * u64::from(b)
}

impl Limit {
    /// The lower side of a bound.
    pub(crate) fn low(op: Op, bound: Bound) -> Limit
        ensures { limit_of result ≡ low op bound }
    {
        Limit {
            relation: lower_relation(op),
            scale: u64::from(bound.den),
            level: u64::from(bound.num),
        }
    }

    /// Its upper side.
    pub(crate) fn high(op: Op, bound: Bound) -> Limit
        ensures { limit_of result ≡ high op bound }
    {
        Limit {
            relation: upper_relation(op),
            scale: u64::from(bound.den),
            level: u64::from(bound.num),
        }
    }

    /// At most the budget, where 1 stands for the cap.
    pub(crate) fn within(budget: Budget, cap: u32) -> Limit
        ensures { limit_of result ≡ within_budget (record { num = budget.num; den = budget.den }) cap }
    {
        Limit {
            relation: Op::AtMost,
            scale: short_mul(cap, budget.den),
            level: budget.num,
        }
    }

    /// A number over 2 to the precision `w` times the scale, and the level, each times 2 to the `w`.
    pub(crate) fn beside(&self, number: i64, w: u32) -> (i128, i128)
        requires w { w ≤ most_precision }
        requires number { (pos 0 ≤ℤ number) × (number ≤ℤ pos (2 ^ w)) }
        ensures left { result.0 ≡ number *ℤ pos self.now.scale }
        ensures right { result.1 ≡ pos self.now.level *ℤ pos (2 ^ w) }
        ensures small { IsSmall result.0 × IsSmall result.1 }
    {
        (
            widening_mul(number, self.scale),
            widening_mul(one_at(w), self.level),
        )
    }

    /// Whether these two stand in the relation.
    pub(crate) fn admits(&self, sides: (i128, i128)) -> bool
        ensures { IsTrue result ↔ Stands self.now.relation sides.0 sides.1 }
    {
        stands(self.relation, sides.0, sides.1)
    }
}
