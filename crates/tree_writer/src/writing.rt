//! The nodes of a tree, written while it is walked over.

ghost use Rattle.std.specs.List.{AllByRecursion};
ghost use Rattle.std.specs.Prelude.{◌≡◌, [], ◌∷◌, List};
ghost use Rattle.lift_base.specs.Outside.{WroteSome};
ghost use Rattle.lift_pool.specs.Shapes.{IsSameShape};
ghost use Rattle.cert_text.specs.Report.{split_line, unknown_line};
ghost use Rattle.lift_walk.specs.Halved.{Halved};
ghost use Rattle.lift_walk.specs.Sides.{IsMadeForSides};
ghost use Rattle.tree_writer.specs.Text.{IsTreeText, LeavesAreOne};

use crate::decider::Decider;
use cert_text::{write_split, write_unknown};
use corner_lift::Case;
use lift_base::{Sink, WriteFault};
use lift_pool::Pool;
use lift_walk::{Given, Guide, Walker};
use std::marker::PhantomData;

/// Writes the lines of the nodes of a tree whose rectangles are decided. Nothing of it is known beforehand.
#[derive(Drop)]
struct Writer<'a, D, K> {
    decider: &'a D,
    out: PhantomData<K>,
}

impl<D: Decider, K: Sink> Guide for Writer<'_, D, K> {
    type Room = D::Room;

    type Verdict = D::Verdict;

    type Base = ();

    type Out = K;

    type Part = ();

    type Fault = WriteFault;

    ghost Leaf = { D.Leaf };

    ghost case = { λ w. D.case w.decider.now };

    ghost decides = { λ w. D.decides w.decider.now };

    ghost is_open = { λ w. D.is_open w.decider.now };

    ghost may = { λ _ _ _. ⊥ };

    ghost leaf = { λ w. D.leaf w.decider.now };

    ghost is_ready = { λ w. D.is_ready w.decider.now };

    ghost Fixed = { Unit {0} };

    ghost fixed = { λ _. tt };

    ghost fits = { λ _ _. Unit {0} };

    ghost taken = { K.taken };

    ghost faults = { K.faults };

    ghost split_entry = { λ _ _. split_line };

    ghost leaf_entry = { λ w _. D.leaf_text w.decider.now };

    ghost unknown_entry = { λ _ _. unknown_line };

    ghost is_part = { λ _ _ _. Unit {0} };

    ghost BaseFixed = { Unit {0} };

    ghost base_fixed = { λ _. tt };

    ghost Rest = { List (Halved D.Leaf) };

    ghost first = { λ t rest. t ∷ rest };

    ghost is_ahead = { λ _ _ _ trees. AllByRecursion (λ t. t ≡ Halved.unknown) trees };

    fn decide(&self, room: &mut D::Room, sides: &[i64]) -> Option<D::Verdict> {
        self.decider.decide(room, sides)
    }

    fn next(
        &self,
        _base: &mut (),
        _room: &mut D::Room,
        _sides: &[i64],
        _out: &mut K,
    ) -> Given<Result<(), WriteFault>> {
        Given::Unknown
    }

    fn take_split(&self, out: &mut K, axis: u32) -> Result<(), WriteFault> {
        write_split(out, axis)
    }

    fn take_leaf(
        &self,
        room: &D::Room,
        verdict: D::Verdict,
        out: &mut K,
    ) -> Result<(), WriteFault> {
        self.decider.write_leaf(room, verdict, out)
    }

    fn take_unknown(&self, out: &mut K) -> Result<(), WriteFault> {
        write_unknown(out)
    }

    fn join(&self, _axis: u32, _lower: (), _upper: ()) -> Result<(), WriteFault> {
        Ok(())
    }
}

/// Writes the lines of the nodes of the case's right tree, in preorder, and ends at the first failure. The pool of
/// sides was made for the case, and after it is as made; so is the room. Takes no memory of its own.
///
/// At Ok there is a right tree. Whichever tree is right, all its lines were written, or after an error a part of
/// them, from the front. An error comes only where the sink's count of faults rose or stands at its last value.
pub fn write_tree<D: Decider, K: Sink>(
    case: &Case,
    decider: &D,
    sides: &mut Pool<i64>,
    room: &mut D::Room,
    out: &mut K,
) -> Result<(), WriteFault>
    requires same { D.case decider.now ≡ case.now }
    requires leaves { LeavesAreOne case.now (D.decides decider.now) (D.is_open decider.now) }
    requires sides { IsMadeForSides case.now sides.old }
    requires ready { D.is_ready decider.now room.old room.old }
    ensures wrote { WroteSome (IsTreeText (D.decides decider.now) (D.is_open decider.now) (D.leaf_text decider.now)
        case.now case.now.root 0) K.taken K.faults out.old out.new result }
    ensures sides { IsSameShape sides.old sides.new }
    ensures ready { D.is_ready decider.now room.old room.new }
{
    let writer: Writer<D, K> = Writer {
        decider,
        out: PhantomData,
    };
    let walker = Walker {
        case: &*case,
        guide: &writer,
    };
    walker.walk(false, sides, room, &mut (), out)
}
