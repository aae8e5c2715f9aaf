ghost use Rattle.lift_cost.specs.Laws.{CertificatesBoundCosts, LeastPricedRefutes};
ghost use Rattle.lift_cost.specs.Laws.{LeastCostsAreOne, LeastPricedOrNone};
ghost use Rattle.lift_cost.specs.Laws.{CostTreesAreOne, CostTreesExist};

use corner_lift::{live_parameters_have_spans, rows_at_corners, rows_inside};
use lift_frac::divisors_and_multiples;
use lift_model::tosses_are_bounded;
use lift_walk::{rectangles_at_depths, split_axes_are_one};

/// Holds the laws of cost certificates, for who reasons about them: one bounds what every scheduler pays at
/// every valuation inside its rectangle, and where the least priced vector is beyond the budget there is none.
/// It does nothing.
pub fn cost_certificates_decide()
    ensures bounds { CertificatesBoundCosts }
    ensures refutes { LeastPricedRefutes }
{
    divisors_and_multiples();
    tosses_are_bounded();
    rows_at_corners();
    rows_inside();
}

/// A rectangle inside the root has a least priced vector, whatever the prices are, or no priced vector at all. It
/// does nothing.
pub fn least_costs_exist()
    ensures { LeastPricedOrNone }
{
    rows_at_corners();
}

/// A rectangle is decided by at most one vector. It does nothing.
pub fn least_costs_are_one()
    ensures { LeastCostsAreOne }
{}

/// A case has at most one right tree for costs, a cap and a budget. It does nothing.
pub fn cost_trees_are_one()
    ensures { CostTreesAreOne }
{
    least_costs_are_one();
    split_axes_are_one();
}

/// A case has a right tree for costs, a cap and a budget. So it has exactly one. It does nothing.
pub fn cost_trees_exist()
    ensures { CostTreesExist }
{
    cost_certificates_decide();
    least_costs_exist();
    rectangles_at_depths();
    live_parameters_have_spans();
}
