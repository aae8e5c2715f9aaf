// How far a check has come.
ghost use Rattle.std.specs.Prelude.{◌≡◌, ◌≤◌, ◌+◌, ◌<◌, ◌^◌, IfOk};
ghost use Rattle.lift_base.specs.Lines.{fresh};

use crate::summary::Summary;
use lift_base::Lines;
use std::alloc::{AllocError, Global};

/// How far a check has come: the lines that are left, the number of the next node, and the leaves that
/// were met. Beside that it has room for weights.
#[derive(Drop)]
pub(crate) struct Walk {
    pub lines: Lines,
    pub node: u32,
    pub leaves: Summary,
    pub weights: Vec<i128>,
}

impl Walk {
    /// Nothing was read yet, and there is no room. More than `limit` bytes are too many.
    pub fn make(alloc: Global, limit: u64) -> Result<Walk, AllocError>
        requires { limit ≤ 2 ^ 32 }
        ensures lines { IfOk result (λ w. w.lines ≡ fresh limit w.lines.text) }
        ensures node { IfOk result (λ w. w.node ≡ 0) }
    {
        Ok(Walk {
            lines: Lines::make(alloc, limit)?,
            node: 0,
            leaves: Summary::none(1),
            weights: Vec::new(alloc),
        })
    }

    /// A node more, with these leaves.
    pub fn pass(&mut self, leaves: Summary)
        requires { self.old.node + 1 < 2 ^ 32 }
        ensures { self.new ≡ record self.old { node = self.old.node + 1; leaves = leaves } }
    {
        self.node += 1;
        self.leaves = leaves;
    }
}
