//! The least priced vector of a case on a rectangle.

ghost use Rattle.std.specs.Prelude.{◌≡◌, ◌≤◌, ◌<ℤ◌, List, ℤ, IsTrue, IsFalse, length};
ghost use Rattle.lift_grid.specs.Rectangle.{Spans};
ghost use Rattle.corner_lift.specs.Case.{number};
ghost use Rattle.rounded_iter.specs.Priced.{IsPriced, IsLeastPriced};
ghost use Rattle.rounded_iter.specs.Watching.{CanIterate};
ghost use Rattle.lift_cost.specs.Certificate.{price_over};

use corner_lift::{Case, Lifted};
use float_guess::Rewards;
use lift_costs::Costs;
use lift_model::Links;
use rounded_iter::{least_priced, least_priced_within};

/// As `least_cost`, where the initial state's number is within the limit. False: in each priced vector it is above.
pub(crate) fn least_cost_within(
    case: &Case,
    links: &Links,
    weights: &[i128],
    rewards: &Rewards,
    limit: i64,
    lane: &mut [i64],
    work: &mut [u32],
) -> bool
    ghost spans: { Spans }
    requires { CanIterate case.now links.now spans weights.now lane.old work.old }
    ensures least { IsTrue result → IsLeastPriced case.now spans
        (price_over case.now.w rewards.now.costs.now rewards.now.cap) lane.new }
    ensures past { IsFalse result → (z : List ℤ) → IsPriced case.now spans
        (price_over case.now.w rewards.now.costs.now rewards.now.cap) z → limit <ℤ number z case.now.model.init }
{
    let rows = Lifted::new(&*case, &*links, &*weights);
    least_priced_within(&rows, rewards, limit, lane, work)
}

/// Leaves in `lane` the least priced vector of the case on the rectangle whose table `weights` is, if there is one: of the
/// vectors of numbers from 0 to 2 to the `w`, which stands for the cap, that have 0 on goal states, and elsewhere at least
/// the state's cost over the cap and the weighted mean of each choice at each corner of its row, the one that is least at
/// each state. False: there is no such vector, and what `lane` holds is free. What `lane` and `work` hold at entry is free.
/// Takes no memory.
pub fn least_cost(
    case: &Case,
    links: &Links,
    weights: &[i128],
    costs: &Costs,
    cap: u32,
    lane: &mut [i64],
    work: &mut [u32],
) -> bool
    ghost spans: { Spans }
    requires can { CanIterate case.now links.now spans weights.now lane.old work.old }
    requires cap { 1 ≤ cap }
    requires costs { length costs.now ≡ length case.now.model.states }
    ensures least { IsTrue result → IsLeastPriced case.now spans (price_over case.now.w costs.now cap) lane.new }
    ensures none { IsFalse result → (z : List ℤ) → IsPriced case.now spans (price_over case.now.w costs.now cap) z → ⊥ }
{
    let rows = Lifted::new(&*case, &*links, &*weights);
    let rewards = Rewards {
        costs: &*costs,
        cap,
    };
    least_priced(&rows, &rewards, lane, work)
}
