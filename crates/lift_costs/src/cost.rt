// One cost.
ghost use Rattle.lift_costs.specs.Costs.{IsCost};

/// A cost, `num / den`.
#[derive(Clone, Copy)]
pub(crate) struct Cost {
    pub num: u64,
    pub den: u64,
    ghost is_cost: { IsCost (record { num = num; den = den }) },
}
