//! The tree of a case, built while it is walked over.

ghost use Rattle.std.specs.List.{AllByRecursion};
ghost use Rattle.std.specs.Prelude.{◌≡◌, [], ◌∷◌, IfOk, List, ℕ};
ghost use Rattle.std.specs.declared.option.Option.{Option};
ghost use Rattle.std.specs.declared.option.Option.TheVariants.{None};
ghost use Rattle.lift_base.specs.Outside.{last_count};
ghost use Rattle.lift_grid.specs.Rectangle.{Spans};
ghost use Rattle.lift_pool.specs.Shapes.{IsSameShape};
ghost use Rattle.lift_walk.specs.Halved.{Halved, IsRightBy};
ghost use Rattle.lift_walk.specs.Sides.{IsMadeForSides};
ghost use Rattle.tree_writer.specs.Text.{LeavesAreOne};

use crate::grower::Grower;
use corner_lift::Case;
use lift_pool::Pool;
use lift_walk::{Given, Guide, Walker};
use std::alloc::{AllocError, Global};

/// Builds a tree whose rectangles are decided. Its nodes go nowhere, and nothing of it is known beforehand.
#[derive(Drop)]
struct Builder<'a, D> {
    decider: &'a D,
    alloc: Global,
}

impl<D: Grower> Guide for Builder<'_, D> {
    type Room = D::Room;

    type Verdict = D::Verdict;

    type Base = ();

    type Out = ();

    type Part = D::Branch;

    type Fault = AllocError;

    ghost Leaf = { D.Leaf };

    ghost case = { λ b. D.case b.decider.now };

    ghost decides = { λ b. D.decides b.decider.now };

    ghost is_open = { λ b. D.is_open b.decider.now };

    ghost may = { λ _ _ _. ⊥ };

    ghost leaf = { λ b. D.leaf b.decider.now };

    ghost is_ready = { λ b. D.is_ready b.decider.now };

    ghost Fixed = { Unit {0} };

    ghost fixed = { λ _. tt };

    ghost fits = { λ _ _. Unit {0} };

    ghost taken = { λ _. None };

    ghost faults = { λ _. last_count };

    ghost split_entry = { λ _ _ _. [] };

    ghost leaf_entry = { λ _ _ _. [] };

    ghost unknown_entry = { λ _ _. [] };

    ghost is_part = { λ b t part. (spans : Spans) (depth : ℕ)
        → IsRightBy (D.decides b.decider.now) (D.is_open b.decider.now) (D.case b.decider.now) spans depth t
        → D.is_right b.decider.now spans depth part };

    ghost BaseFixed = { Unit {0} };

    ghost base_fixed = { λ _. tt };

    ghost Rest = { List (Halved D.Leaf) };

    ghost first = { λ t rest. t ∷ rest };

    ghost is_ahead = { λ _ _ _ trees. AllByRecursion (λ t. t ≡ Halved.unknown) trees };

    fn decide(&self, room: &mut D::Room, sides: &[i64]) -> Option<D::Verdict> {
        self.decider.decide(room, sides)
    }

    fn next(
        &self,
        _base: &mut (),
        _room: &mut D::Room,
        _sides: &[i64],
        _out: &mut (),
    ) -> Given<Result<D::Branch, AllocError>> {
        Given::Unknown
    }

    fn take_split(&self, _out: &mut (), _axis: u32) -> Result<(), AllocError> {
        Ok(())
    }

    fn take_leaf(
        &self,
        room: &D::Room,
        verdict: D::Verdict,
        _out: &mut (),
    ) -> Result<D::Branch, AllocError> {
        self.decider.grow_leaf(self.alloc, room, verdict)
    }

    fn take_unknown(&self, _out: &mut ()) -> Result<D::Branch, AllocError> {
        Ok(self.decider.grow_unknown())
    }

    fn join(&self, axis: u32, lower: D::Branch, upper: D::Branch) -> Result<D::Branch, AllocError> {
        self.decider.grow_split(self.alloc, axis, lower, upper)
    }
}

/// Builds the case's right tree. The pool of sides was made for the case, and after it is as made; so is the room.
/// Memory is taken for the tree alone.
pub fn build_tree<D: Grower>(
    alloc: Global,
    case: &Case,
    decider: &D,
    sides: &mut Pool<i64>,
    room: &mut D::Room,
) -> Result<D::Branch, AllocError>
    requires same { D.case decider.now ≡ case.now }
    requires leaves { LeavesAreOne case.now (D.decides decider.now) (D.is_open decider.now) }
    requires sides { IsMadeForSides case.now sides.old }
    requires ready { D.is_ready decider.now room.old room.old }
    ensures right { IfOk result (D.is_right decider.now case.now.root 0) }
    ensures sides { IsSameShape sides.old sides.new }
    ensures ready { D.is_ready decider.now room.old room.new }
{
    let builder = Builder { decider, alloc };
    let walker = Walker {
        case: &*case,
        guide: &builder,
    };
    walker.walk(false, sides, room, &mut (), &mut ())
}
