//! Who decides rectangles.

ghost use Rattle.std.specs.Prelude.{List, ℕ, MatchOption};
ghost use Rattle.lift_base.specs.Outside.{Wrote};
ghost use Rattle.lift_grid.specs.Rectangle.{Spans, spans_of};
ghost use Rattle.corner_lift.specs.Case.{CaseData, AreSidesInside};

use lift_base::{Sink, WriteFault};

/// Decides rectangles of a case by leaves, and writes the lines of those.
pub trait Decider {
    /// The memory that it works in.
    type Room;

    /// How a rectangle was decided. With what stands in the room it tells the leaf.
    type Verdict;

    /// The leaves.
    ghost Leaf: { Type 0 };

    /// The case.
    ghost case: { Self → CaseData };

    /// Which leaves decide a rectangle.
    ghost decides: { Self → Spans → Self.Leaf → Type 0 };

    /// Which rectangles are open, since no leaf decides them.
    ghost is_open: { Self → Spans → Type 0 };

    /// The lines of a leaf.
    ghost leaf_text: { Self → Self.Leaf → List ℕ };

    /// The leaf of a verdict, with what stands in the room.
    ghost leaf: { Self → Self.Room → Self.Verdict → Self.Leaf };

    /// The second room has all that decisions need, in the shape of the first one.
    ghost is_ready: { Self → Self.Room → Self.Room → Type 0 };

    /// Decides the rectangle that has these sides. The leaf that decides it stands in the room then; None comes
    /// where it is open.
    fn decide(&self, room: &mut Self::Room, sides: &[i64]) -> Option<Self::Verdict>
        requires ready { (made : Self.Room) × is_ready self.now made room.old }
        requires sides { AreSidesInside (case self.now).root sides.now }
        ensures ready { (made : Self.Room) → is_ready self.now made room.old → is_ready self.now made room.new }
        ensures decided { MatchOption result (is_open self.now (spans_of sides.now))
            (λ verdict. decides self.now (spans_of sides.now) (leaf self.now room.new verdict)) };

    /// Writes the lines of the leaf that stands in the room.
    fn write_leaf<K: Sink>(
        &self,
        room: &Self::Room,
        verdict: Self::Verdict,
        out: &mut K,
    ) -> Result<(), WriteFault>
        requires ready { (made : Self.Room) × is_ready self.now made room.now }
        ensures { Wrote K.taken K.faults out.old out.new result (leaf_text self.now (leaf self.now room.now verdict)) };
}
