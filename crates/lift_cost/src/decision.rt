//! The decision of a rectangle.

ghost use Rattle.std.specs.Prelude.{◌≡◌, ◌*◌, ◌^◌, ◌≤ℤ◌, ◌<ℤ◌, ◌*ℤ◌, List, ℤ, pos, length, IsTrue, IsFalse};
ghost use Rattle.lift_grid.specs.Rectangle.{Spans, spans_of};
ghost use Rattle.corner_lift.specs.Case.{AreSidesInside, number};
ghost use Rattle.rounded_iter.specs.Priced.{IsLeastPriced};
ghost use Rattle.lift_cost.specs.Certificate.{IsAffordable, price_over};
ghost use Rattle.lift_cost.specs.Decided.{CanAskCost, DecidesCost, IsOpenCost, asked};
ghost use Rattle.lift_cost.specs.Rooms.{HasCostLanes, KeepsPlaces};

use crate::cost::least_cost_within;
use crate::laws::cost_certificates_decide;
use crate::question::CostQuestion;
use crate::room::CostLanes;
use corner_lift::{fill, one_at, rows_at_corners};
use float_guess::Rewards;

/// The product, which can't overflow.
fn widening_mul(a: u64, b: u64) -> u128
    ensures { result ≡ a * b }
{
    u128::from(a) * u128::from(b)
}

/// The same of short numbers.
fn short_mul(a: u32, b: u32) -> u64
    ensures { result ≡ a * b }
{
    u64::from(a) * u64::from(b)
}

impl CostQuestion<'_, '_> {
    /// Whether a number over 2 to the precision, times the cap, is at most the budget.
    fn is_affordable(&self, number: i64) -> bool
        requires { pos 0 ≤ℤ number }
        ensures within { IsTrue result → IsAffordable (asked self.now).budget self.now.cap self.now.case.now.w number }
        ensures beyond { IsFalse result → (pos self.now.budget.num *ℤ pos (2 ^ self.now.case.now.w))
            <ℤ (number *ℤ pos (self.now.cap * self.now.budget.den)) }
    {
        let one = one_at(self.case.w());
        let most = widening_mul(self.budget.num, one.unsigned_abs());
        let scale = short_mul(self.cap, self.budget.den);
        widening_mul(number.unsigned_abs(), scale) <= most
    }

    /// No number above this is affordable.
    fn limit(&self) -> i64
        ensures { (n : ℤ) → (pos 0 ≤ℤ n) × (n ≤ℤ pos (2 ^ self.now.case.now.w))
            → IsAffordable (asked self.now).budget self.now.cap self.now.case.now.w n → n ≤ℤ result }
    {
        let one = one_at(self.case.w());
        let most = widening_mul(self.budget.num, one.unsigned_abs());
        let scale = u128::from(short_mul(self.cap, self.budget.den));
        match most.checked_div(scale) {
            Some(number) if number < one as u128 => number as i64,
            _ => one,
        }
    }

    /// Whether there is a priced vector of the rectangle that has these sides, and the initial state's number in it is
    /// within the limit. Then the least one is in the values.
    fn find(&self, lanes: &mut CostLanes, sides: &[i64]) -> bool
        ghost spans: { Spans }
        requires spans { spans_of sides.now ≡ spans }
        requires can { CanAskCost self.now }
        requires lanes { HasCostLanes self.now.case.now.model self.now.links.now lanes.old }
        requires sides { AreSidesInside self.now.case.now.root sides.now }
        ensures kept { KeepsPlaces lanes.old lanes.new }
        ensures least { IsTrue result → IsLeastPriced self.now.case.now spans
            (price_over self.now.case.now.w self.now.costs.now self.now.cap) lanes.new.values.items }
        ensures open { IsFalse result → IsOpenCost self.now.case.now (asked self.now) spans }
    {
        rows_at_corners();
        fill(self.case, self.links, sides, &mut lanes.weights);
        let rewards = Rewards {
            costs: self.costs,
            cap: self.cap,
        };
        least_cost_within(
            self.case,
            self.links,
            &lanes.weights,
            &rewards,
            self.limit(),
            &mut lanes.values,
            &mut lanes.work,
        )
    }

    /// The initial state's number.
    fn initial_number(&self, values: &[i64]) -> i64
        requires { length values.now ≡ length self.now.case.now.model.states }
        ensures { result ≡ number values.now self.now.case.now.model.init }
    {
        let init = self.case.model().init();
        values[init as usize]
    }

    /// Decides the rectangle that has these sides. True: the least priced vector is in the values, and it is within the
    /// budget. False: there is no cost certificate. Takes no memory.
    pub(crate) fn decide(&self, lanes: &mut CostLanes, sides: &[i64]) -> bool
        ghost spans: { Spans }
        requires spans { spans_of sides.now ≡ spans }
        requires can { CanAskCost self.now }
        requires lanes { HasCostLanes self.now.case.now.model self.now.links.now lanes.old }
        requires sides { AreSidesInside self.now.case.now.root sides.now }
        ensures kept { KeepsPlaces lanes.old lanes.new }
        ensures decides { IsTrue result → DecidesCost self.now.case.now (asked self.now) spans lanes.new.values.items }
        ensures open { IsFalse result → IsOpenCost self.now.case.now (asked self.now) spans }
    {
        cost_certificates_decide();
        rows_at_corners();
        if !self.find(lanes, sides) {
            return false;
        }
        self.is_affordable(self.initial_number(&lanes.values))
    }
}
