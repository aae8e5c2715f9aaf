//! What is built of a tree whose rectangles are decided.

ghost use Rattle.std.specs.Prelude.{◌+◌, ℕ, IfOk};
ghost use Rattle.lift_grid.specs.Rectangle.{Spans};
ghost use Rattle.lift_grid.specs.Tree.{lower_half, upper_half};
ghost use Rattle.corner_lift.specs.Case.{greatest_depth};
ghost use Rattle.lift_walk.specs.Halved.{IsHalvedOn};

use crate::decider::Decider;
use std::alloc::{AllocError, Global};

/// Builds the nodes of trees whose rectangles it decides.
pub trait Grower: Decider {
    /// What stands at the top of a tree.
    type Branch: Drop;

    /// It is the right tree over a rectangle at a depth.
    ghost is_right: { Self → Spans → ℕ → Self.Branch → Type 0 };

    /// The leaf that stands in the room. It is right where it decides.
    fn grow_leaf(
        &self,
        alloc: Global,
        room: &Self::Room,
        verdict: Self::Verdict,
    ) -> Result<Self::Branch, AllocError>
        requires ready { (made : Self.Room) × Self.is_ready self.now made room.now }
        ensures { IfOk result (λ b. (spans : Spans) (depth : ℕ)
            → Self.decides self.now spans (Self.leaf self.now room.now verdict) → is_right self.now spans depth b) };

    /// An unknown leaf. It is right where an open rectangle isn't halved any more.
    fn grow_unknown(&self) -> Self::Branch
        ensures { (spans : Spans) → Self.is_open self.now spans
            → is_right self.now spans (greatest_depth (Self.case self.now)) result };

    /// A split. It is right where an open rectangle is halved so, and the trees of the halves are right.
    fn grow_split(
        &self,
        alloc: Global,
        axis: u32,
        lower: Self::Branch,
        upper: Self::Branch,
    ) -> Result<Self::Branch, AllocError>
        ensures { IfOk result (λ b. (spans : Spans) (depth : ℕ)
            → Self.is_open self.now spans → IsHalvedOn (Self.case self.now) spans depth axis
            → is_right self.now (lower_half axis spans) (depth + 1) lower
            → is_right self.now (upper_half axis spans) (depth + 1) upper → is_right self.now spans depth b) };
}
