// The costs of all states.
ghost use Rattle.std.specs.Prelude.{◌≡◌, ◌<◌, ◌++◌, ◌∷◌, [], pos, ◌≤ℤ◌, length, All, OnOk, OnErr};
ghost use Rattle.lift_frac.specs.Frac.{ratio_of};
ghost use Rattle.lift_costs.specs.Costs.{IsCost, cost, cost_of};

use crate::cost::Cost;
use lift_frac::Frac;
use std::alloc::{AllocError, Global};
use std::marker::Model;

/// What a visit of each state costs, in the order of the states.
#[derive(Drop)]
pub struct Costs {
    costs: Vec<Cost>,
}

impl Model for Costs {
    ghost use Rattle.std.specs.Prelude.{List, map};
    ghost use Rattle.lift_costs.specs.Costs.{CostData};

    ghost Value = { List CostData };

    ghost view = { λ c. map (λ one. record { num = one.num; den = one.den }) c.costs.items };
}

/// A fraction that isn't below 0, as a cost.
fn cost_from(value: Frac) -> Cost
    requires { pos 0 ≤ℤ value.num }
    ensures num { result.num ≡ (cost (ratio_of value)).num }
    ensures den { result.den ≡ (cost (ratio_of value)).den }
{
    Cost {
        num: value.num.unsigned_abs() as u64,
        den: value.den.unsigned_abs() as u64,
    }
}

impl Costs {
    /// No state has a cost yet. It takes no memory.
    pub fn new(alloc: Global) -> Costs
        ensures { result ≡ [] }
    {
        Costs {
            costs: Vec::new(alloc),
        }
    }

    /// How many states have a cost.
    pub fn len(&self) -> usize
        ensures { result ≡ length self.now }
    {
        self.costs.len()
    }

    /// The cost of the next state: a fraction from 0 on. Nothing has changed where memory is wanting.
    pub fn push(&mut self, value: Frac) -> Result<(), AllocError>
        requires { pos 0 ≤ℤ value.num }
        ensures ok { OnOk result (self.new ≡ self.old ++ cost (ratio_of value) ∷ []) }
        ensures err { OnErr result (self.new ≡ self.old) }
    {
        self.costs.push(cost_from(value))?;
        Ok(())
    }

    /// Holds the law that each of them is a cost, for who reasons about them all. It does nothing.
    pub fn are_costs(&self)
        ensures { All IsCost self.now }
    {
        let _ = &self.costs;
    }

    /// The cost of a state in lowest terms: its numerator and its denominator.
    pub fn get(&self, s: u32) -> (i64, i64)
        requires { s < length self.now }
        ensures cost { let found = cost_of self.now s in
            result ≡ (pos found.num, pos found.den) }
        ensures valid { IsCost (cost_of self.now s) }
    {
        let cost = self.costs[s as usize];
        (cost.num as i64, cost.den as i64)
    }
}
