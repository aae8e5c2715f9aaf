//! All memory of a walk.

ghost use Rattle.std.specs.Prelude.{◌≡◌, ◌≤◌, IfOk};
ghost use Rattle.lift_model.specs.Links.{AreLinks};
ghost use Rattle.lift_bounded.specs.Rooms.{IsMadeFor, most_steps};

use corner_lift::Case;
use lift_model::Links;
use lift_pool::Pool;
use lift_walk::sides_of_case;
use std::alloc::{AllocError, Global};

/// What the decision of a rectangle for a number of steps works in.
#[derive(Drop)]
pub(crate) struct StepLanes {
    /// The table of corner weights.
    pub(crate) weights: Vec<i128>,
    /// The vector of each number of steps, from 0 on.
    pub(crate) numbers: Pool<i64>,
    /// The choices of each number of steps, from 1 on.
    pub(crate) picks: Pool<u32>,
    /// The vector that is made.
    pub(crate) work: Vec<i64>,
    /// The choices that are made.
    pub(crate) marks: Vec<u32>,
}

impl std::marker::Model for StepLanes {
    ghost use Rattle.lift_bounded.specs.Rooms.{StepLanesData};

    ghost Value = { StepLanesData };

    ghost view = { λ r. record {
      weights = r.weights.items;
      numbers = r.numbers;
      picks = r.picks;
      work = r.work.items;
      marks = r.marks.items;
    } };
}

/// All memory that a walk over the tree of a case for a number of steps needs.
///
/// A room is seen as its parts. What its lanes hold between two walks is free.
#[derive(Drop)]
pub struct BoundedRoom {
    /// The sides of the rectangles on the way from the root.
    pub(crate) sides: Pool<i64>,
    /// What the decision of each of them works in.
    pub(crate) lanes: StepLanes,
    /// How many steps.
    pub(crate) steps: u32,
}

impl std::marker::Model for BoundedRoom {
    ghost use Rattle.lift_bounded.specs.Rooms.{BoundedRoomData};

    ghost Value = { BoundedRoomData };

    ghost view = { λ r. record {
      sides = r.sides;
      lanes = r.lanes;
      steps = r.steps;
    } };
}

impl BoundedRoom {
    /// Takes all memory that walks over the case's tree for so many steps need, from 1 to 64. The one error is that
    /// memory runs out.
    pub fn make(alloc: Global, case: &Case, links: &Links, steps: u32) -> Result<Self, AllocError>
        requires links { AreLinks case.now.model links.now }
        requires steps { (1 ≤ steps) × (steps ≤ most_steps) }
        ensures made { IfOk result (IsMadeFor case.now links.now) }
        ensures steps { IfOk result (λ r. r.steps ≡ steps) }
    {
        let states = case.model().states() as usize;
        let count = steps as usize;
        Ok(BoundedRoom {
            sides: sides_of_case(alloc, case)?,
            lanes: StepLanes {
                weights: vec![in alloc; 0i128; links.weights_len()]?,
                numbers: Pool::filled(alloc, count + 1, states, 0)?,
                picks: Pool::filled(alloc, count, states, 0)?,
                work: vec![in alloc; 0i64; states]?,
                marks: vec![in alloc; 0u32; states]?,
            },
            steps,
        })
    }

    /// How many steps the room was made for.
    pub fn steps(&self) -> u32
        ensures { result ≡ self.now.steps }
    {
        self.steps
    }
}
