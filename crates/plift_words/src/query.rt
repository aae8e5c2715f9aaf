use lift_cert::Bound;
use lift_cost::Budget;
use property_text::Op;

/// How much may be paid before the goal.
#[derive(Clone, Copy)]
pub struct CostLimits {
    /// The cost that the number 1 stands for in certificates, at least 1. A greater one is never found.
    pub cap: u32,
    /// What the expected cost has to be at most, from 0 to the cap, in lowest terms.
    pub budget: Budget,
}

/// What is asked, with its bound.
#[derive(Clone, Copy)]
pub enum Query {
    /// Of the model, on any number of steps; with the least precision of a range, where one is told.
    Whole(Bound, Option<u32>),
    /// Of the model, within so many steps.
    Within(Bound, u32),
    /// Of a chain, by its quotient, on any number of steps.
    Lumped(Bound),
    /// Of the model, on any number of steps, for a property that compares in this way; with the least precision of a
    /// range, where one is told.
    Property(Bound, Op, Option<u32>),
    /// What is paid in the model before the goal.
    Cost(CostLimits),
}
