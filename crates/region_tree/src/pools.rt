//! The lanes in which the vectors of a rectangle are found.

ghost use Rattle.std.specs.Prelude.{◌≡◌, IfOk};
ghost use Rattle.lift_model.specs.Links.{AreLinks};
ghost use Rattle.lift_model.specs.Model.{row_count};
ghost use Rattle.region_tree.specs.Rooms.{HasPools};

use lift_model::{Links, Model};
use lift_pool::Pool;
use std::alloc::{AllocError, Global};

/// The lanes in which the vectors of a rectangle are found: one of each kind.
#[derive(Drop)]
pub struct Pools {
    /// The numbers of the states.
    pub values: Pool<i64>,
    /// Which rows are allowed.
    pub allowed: Pool<u32>,
    /// The ranks of the states.
    pub ranks: Pool<u32>,
    /// The choices of the states.
    pub picks: Pool<u32>,
    /// Work space.
    pub work: Pool<u32>,
}

/// How many rows the model has: as many as the number of its last row, and one.
fn row_count(model: &Model, links: &Links) -> usize
    requires { AreLinks model.now links.now }
    ensures { result ≡ row_count model.now }
{
    let last = model.states() - 1;
    links.row_place(last, model.choices(last) - 1) + 1
}

impl Pools {
    /// Takes the lanes of a model. The one error is that memory runs out.
    pub fn of_model(alloc: Global, model: &Model, links: &Links) -> Result<Pools, AllocError>
        requires { AreLinks model.now links.now }
        ensures { IfOk result (HasPools model.now) }
    {
        let states = model.states() as usize;
        Ok(Pools {
            values: Pool::filled(alloc, 1, states, 0)?,
            allowed: Pool::filled(alloc, 1, row_count(model, links), 0)?,
            ranks: Pool::filled(alloc, 1, states, 0)?,
            picks: Pool::filled(alloc, 1, states, 0)?,
            work: Pool::filled(alloc, 1, 2 * states, 0)?,
        })
    }
}
