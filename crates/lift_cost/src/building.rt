//! The tree of a case for a budget, whole.

ghost use Rattle.std.specs.Prelude.{◌≡◌, ◌<◌, ◌≤◌, ◌^◌, IfOk, length};
ghost use Rattle.lift_model.specs.Links.{AreLinks};
ghost use Rattle.lift_cost.specs.Built.{halved_of};
ghost use Rattle.lift_cost.specs.Decided.{IsRightCost, asked};

use crate::decider::{Affordable, CostDecider};
use crate::question::{Budget, CostQuestion};
use crate::room::{CostLanes, CostRoom};
use corner_lift::Case;
use lift_costs::Costs;
use lift_grid::Values;
use lift_model::Links;
use std::alloc::{AllocError, Global};
use tree_writer::{Grower, build_tree};

/// What stands at the top of a tree.
#[derive(Drop)]
pub enum CostBranch {
    /// A split on a parameter, with the trees of the lower and of the upper half.
    Split {
        axis: u32,
        lower: Box<CostBranch>,
        upper: Box<CostBranch>,
    },
    /// An accepting leaf, with the number of each state, of which 2 to the `w` stands for the cap.
    Accept {
        z: Values,
    },
    /// An unknown leaf.
    Unknown,
}

/// The tree of a case for a budget.
#[derive(Drop)]
pub struct CostTree {
    top: CostBranch,
}

impl CostTree {
    /// What stands at the top.
    pub fn top(&self) -> &CostBranch
        ensures { result.now ≡ self.now.top }
    {
        &self.top
    }
}

impl Grower for CostDecider<'_, '_> {
    type Branch = CostBranch;

    ghost is_right = { λ d spans depth b. IsRightCost d.question.now.case.now (asked d.question.now) spans depth
        (halved_of b) };

    fn grow_leaf(
        &self,
        alloc: Global,
        room: &CostLanes,
        _verdict: Affordable,
    ) -> Result<CostBranch, AllocError> {
        Ok(CostBranch::Accept {
            z: Values::from_slice(alloc, &room.values)?,
        })
    }

    fn grow_unknown(&self) -> CostBranch {
        CostBranch::Unknown
    }

    fn grow_split(
        &self,
        alloc: Global,
        axis: u32,
        lower: CostBranch,
        upper: CostBranch,
    ) -> Result<CostBranch, AllocError> {
        let lower = Box::new(alloc, lower)?;
        let upper = Box::new(alloc, upper)?;
        Ok(CostBranch::Split { axis, lower, upper })
    }
}

/// Builds the right tree of a case for costs, a cap and a budget. Memory is taken for a room and for the tree. The
/// program writes trees as it walks; the tests of trees call this.
pub fn build(
    alloc: Global,
    case: &Case,
    links: &Links,
    costs: &Costs,
    cap: u32,
    budget: Budget,
) -> Result<CostTree, AllocError>
    requires links { AreLinks case.now.model links.now }
    requires costs { length costs.now ≡ length case.now.model.states }
    requires cap { 1 ≤ cap }
    ensures { IfOk result (λ t. IsRightCost case.now (record {
      costs = costs.now;
      cap = cap;
      budget = record { num = budget.num; den = budget.den };
    }) case.now.root 0 (halved_of t.top)) }
{
    let mut room = CostRoom::make(alloc, case, links)?;
    let question = CostQuestion {
        case: &*case,
        links: &*links,
        costs: &*costs,
        cap,
        budget,
    };
    let decider = CostDecider {
        question: &question,
    };
    let top = build_tree(alloc, case, &decider, &mut room.sides, &mut room.lanes)?;
    Ok(CostTree { top })
}
