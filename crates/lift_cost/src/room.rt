//! All memory of a walk.

ghost use Rattle.std.specs.Prelude.{IfOk};
ghost use Rattle.lift_model.specs.Links.{AreLinks};
ghost use Rattle.lift_cost.specs.Rooms.{IsMadeFor};

use corner_lift::Case;
use lift_model::Links;
use lift_pool::Pool;
use lift_walk::sides_of_case;
use std::alloc::{AllocError, Global};

/// What the decision of a rectangle works in.
#[derive(Drop)]
pub struct CostLanes {
    /// The table of corner weights.
    pub(crate) weights: Vec<i128>,
    /// The vector.
    pub(crate) values: Vec<i64>,
    /// What it is found in.
    pub(crate) work: Vec<u32>,
}

/// All memory that a walk over the tree of a case for a budget needs. What it holds between two walks is free.
#[derive(Drop)]
pub struct CostRoom {
    /// The sides of the rectangles on the way from the root.
    pub(crate) sides: Pool<i64>,
    /// What the decision of each of them works in.
    pub(crate) lanes: CostLanes,
}

impl CostRoom {
    /// Takes all memory that walks over the case's tree need. The one error is that memory runs out.
    pub fn make(alloc: Global, case: &Case, links: &Links) -> Result<Self, AllocError>
        requires { AreLinks case.now.model links.now }
        ensures { IfOk result (IsMadeFor case.now links.now) }
    {
        let states = case.model().states() as usize;
        Ok(CostRoom {
            sides: sides_of_case(alloc, case)?,
            lanes: CostLanes {
                weights: vec![in alloc; 0i128; links.weights_len()]?,
                values: vec![in alloc; 0i64; states]?,
                work: vec![in alloc; 0u32; 2 * states]?,
            },
        })
    }
}
