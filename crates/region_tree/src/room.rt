ghost use Rattle.std.specs.Prelude.{◌≡◌, ◌<◌, [], ◌∷◌, IfOk, length, slice_index_or};
ghost use Rattle.lift_grid.specs.Rectangle.{sides_of};
ghost use Rattle.lift_model.specs.Links.{AreLinks};
ghost use Rattle.region_tree.specs.Recent.{HasAllPlaces, forgotten};
ghost use Rattle.region_tree.specs.Rooms.{IsMadeFor, end_count, last_sides};

use crate::aim::Errors;
use crate::decided::Decided;
use crate::pools::Pools;
use corner_lift::Case;
use lift_collapse::Collapse;
use lift_model::Links;
use lift_pool::Pool;
use lift_walk::{sides_go_down, sides_of_case};
use std::alloc::{AllocError, Global};

/// What the decision of a rectangle works in. It is seen as its parts.
#[derive(Drop)]
pub struct Lanes {
    /// The case's model with fewer states, where that is worth it.
    pub(crate) collapse: Option<Collapse>,
    /// The table of corner weights.
    pub(crate) weights: Pool<i128>,
    /// The lanes in which vectors are found.
    pub(crate) pools: Pools,
    /// The rectangles of a walk that were decided last.
    pub(crate) decided: Decided,
    /// By what least precisions are looked for. It isn't seen, since nothing rests on it.
    pub(crate) errors: Errors,
}

impl std::marker::Model for Lanes {
    ghost use Rattle.region_tree.specs.Lanes.{LanesData};

    ghost Value = { LanesData };

    ghost view = { λ l. record {
      collapse = l.collapse;
      weights = l.weights;
      pools = l.pools;
      decided = l.decided;
    } };
}

impl Lanes {
    /// Forgets which rectangles were decided.
    pub fn forget(&mut self)
        ensures { self.new ≡ record self.old { decided = forgotten self.old.decided } }
    {
        self.decided.forget();
    }

    /// The lanes in which vectors are found.
    pub fn pools(&self) -> &Pools
        ensures { result.now ≡ self.now.pools }
    {
        &self.pools
    }
}

/// All memory that a walk over the tree of a case needs.
///
/// What the lanes and the collapsed model's table hold between two walks is free, and so is what is noted.
#[derive(Drop)]
pub struct Room {
    /// The sides of the rectangles on the way from the root.
    pub sides: Pool<i64>,
    /// What the decision of each of them works in.
    pub lanes: Lanes,
}

/// Places for the rectangles of a walk that are decided last.
fn decided_of_case(alloc: Global, case: &Case) -> Result<Decided, AllocError>
    ensures { IfOk result (HasAllPlaces (end_count case.now)) }
{
    sides_go_down();
    let ends = case.root().sides().len();
    Decided::none(alloc, ends)
}

impl Room {
    /// Makes all pools that a walk over the case's tree needs, and collapses its model, so that what follows
    /// takes no memory. The one lane of sides holds the root's.
    pub fn make(alloc: Global, case: &Case, links: &Links) -> Result<Self, AllocError>
        requires { AreLinks case.now.model links.now }
        ensures made { IfOk result (IsMadeFor case.now links.now) }
        ensures root { IfOk result (λ r. r.sides.lanes ≡ sides_of case.now.root ∷ []) }
    {
        Ok(Room {
            sides: sides_of_case(alloc, case)?,
            lanes: Lanes {
                weights: Pool::filled(alloc, 1, links.weights_len(), 0)?,
                pools: Pools::of_model(alloc, case.model(), links)?,
                decided: decided_of_case(alloc, case)?,
                errors: Errors::NONE,
                collapse: Collapse::build(alloc, case.model(), links)?,
            },
        })
    }

    /// The last lane of sides.
    pub fn sides(&self) -> &[i64]
        requires { 0 < length self.now.sides.lanes }
        ensures { result.now ≡ last_sides self.now }
    {
        self.sides.lane(self.sides.lanes() - 1)
    }

    /// The table of corner weights.
    pub fn weights(&self) -> &[i128]
        requires { 0 < length self.now.lanes.weights.lanes }
        ensures { result.now ≡ slice_index_or self.now.lanes.weights.lanes 0 [] }
    {
        self.lanes.weights.lane(0)
    }

    /// The numbers of the states.
    pub fn values(&self) -> &[i64]
        requires { 0 < length self.now.lanes.pools.values.lanes }
        ensures { result.now ≡ slice_index_or self.now.lanes.pools.values.lanes 0 [] }
    {
        self.lanes.pools.values.lane(0)
    }

    /// The choices of the states.
    pub fn picks(&self) -> &[u32]
        requires { 0 < length self.now.lanes.pools.picks.lanes }
        ensures { result.now ≡ slice_index_or self.now.lanes.pools.picks.lanes 0 [] }
    {
        self.lanes.pools.picks.lane(0)
    }

    /// The ranks of the states.
    pub fn ranks(&self) -> &[u32]
        requires { 0 < length self.now.lanes.pools.ranks.lanes }
        ensures { result.now ≡ slice_index_or self.now.lanes.pools.ranks.lanes 0 [] }
    {
        self.lanes.pools.ranks.lane(0)
    }
}
