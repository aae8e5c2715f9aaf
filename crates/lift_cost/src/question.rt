use corner_lift::Case;
use lift_costs::Costs;
use lift_model::Links;

/// A budget: its parts over the denominator.
#[derive(Clone, Copy)]
pub struct Budget {
    pub num: u64,
    pub den: u32,
}

/// What is asked of the rectangles of a case: whether what every scheduler is expected to pay before the goal is within
/// the budget.
#[derive(Clone, Copy)]
pub struct CostQuestion<'a, 'm> {
    pub case: &'a Case<'m>,
    /// The links of the case's model.
    pub links: &'a Links,
    /// What a visit of each state costs.
    pub costs: &'a Costs,
    /// The cost that 1 stands for.
    pub cap: u32,
    pub budget: Budget,
}
