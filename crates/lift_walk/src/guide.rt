//! Who guides a walk over the tree of a case.

ghost use Rattle.std.specs.Prelude.{◌≡◌, IfOk, List, MatchOption, OnErr, ℕ};
ghost use Rattle.std.specs.declared.option.Option.{Option};
ghost use Rattle.lift_base.specs.Outside.{Rose};
ghost use Rattle.lift_grid.specs.Rectangle.{Spans, spans_of};
ghost use Rattle.corner_lift.specs.Case.{AreSidesInside, CaseData, IsInside};
ghost use Rattle.lift_walk.specs.Bases.{MayStand};
ghost use Rattle.lift_walk.specs.Given.{Gives};
ghost use Rattle.lift_walk.specs.Halved.{Halved};
ghost use Rattle.lift_walk.specs.Shown.{Took};

use crate::given::Given;

/// Guides a walk over the tree of a case: decides its rectangles by leaves, knows what of the tree stands already, and
/// takes its nodes, one after another.
///
/// For a node an entry is taken, which is a list of bytes. Where none are told, nothing is said of them.
pub trait Guide {
    /// The memory that decisions work in.
    type Room;

    /// How a rectangle was decided. With what stands in the room it tells the leaf.
    type Verdict;

    /// What gives the nodes of a tree that is known beforehand.
    type Base;

    /// Where the nodes are taken to.
    type Out;

    /// What stands for a tree all of whose nodes were taken.
    type Part: Drop;

    /// Why a node wasn't taken.
    type Fault: Drop;

    /// The leaves.
    ghost Leaf: { Type 0 };

    /// The case.
    ghost case: { Self → CaseData };

    /// Which leaves decide a rectangle.
    ghost decides: { Self → Spans → Self.Leaf → Type 0 };

    /// Which rectangles are open, since no leaf decides them.
    ghost is_open: { Self → Spans → Type 0 };

    /// Which leaves may stand at a rectangle of a tree that is known beforehand.
    ghost may: { Self → Spans → Self.Leaf → Type 0 };

    /// The leaf of a verdict, with what stands in the room.
    ghost leaf: { Self → Self.Room → Self.Verdict → Self.Leaf };

    /// The second room has all that decisions need, in the shape of the first one.
    ghost is_ready: { Self → Self.Room → Self.Room → Type 0 };

    /// What no call changes of where the nodes are taken to.
    ghost Fixed: { Type 0 };

    /// It, of such a place.
    ghost fixed: { Self.Out → Self.Fixed };

    /// Nodes can be taken there.
    ghost fits: { Self → Self.Fixed → Type 0 };

    /// The bytes that were taken, where they are told.
    ghost taken: { Self.Out → Option (List ℕ) };

    /// How many faults were counted; the count stays at its last value.
    ghost faults: { Self.Out → ℕ };

    /// The entry of a split on a parameter.
    ghost split_entry: { Self → Self.Fixed → ℕ → List ℕ };

    /// The entry of a leaf.
    ghost leaf_entry: { Self → Self.Fixed → Self.Leaf → List ℕ };

    /// The entry of an unknown leaf.
    ghost unknown_entry: { Self → Self.Fixed → List ℕ };

    /// What stands for a tree.
    ghost is_part: { Self → Halved Self.Leaf → Self.Part → Type 0 };

    /// What no call changes of what gives the nodes that are known beforehand.
    ghost BaseFixed: { Type 0 };

    /// It, of such a one.
    ghost base_fixed: { Self.Base → Self.BaseFixed };

    /// What is still to come of what is known beforehand.
    ghost Rest: { Type 0 };

    /// A tree, and then the rest.
    ghost first: { Halved Self.Leaf → Self.Rest → Self.Rest };

    /// What that is.
    ghost is_ahead: { Self → Self.Base → Self.Fixed → Self.Rest → Type 0 };

    /// Decides the rectangle that has these sides. The leaf that decides it stands in the room then; None comes
    /// where it is open.
    fn decide(&self, room: &mut Self::Room, sides: &[i64]) -> Option<Self::Verdict>
        requires ready { (made : Self.Room) × is_ready self.now made room.old }
        requires sides { AreSidesInside (case self.now).root sides.now }
        ensures ready { (made : Self.Room) → is_ready self.now made room.old → is_ready self.now made room.new }
        ensures decided { MatchOption result (is_open self.now (spans_of sides.now))
            (λ verdict. decides self.now (spans_of sides.now) (leaf self.now room.new verdict)) };

    /// Gives the next node of the tree that is known beforehand. A leaf that decides is taken, and noted in the room.
    fn next(
        &self,
        base: &mut Self::Base,
        room: &mut Self::Room,
        sides: &[i64],
        out: &mut Self::Out,
    ) -> Given<Result<Self::Part, Self::Fault>>
        requires ready { (made : Self.Room) × is_ready self.now made room.old }
        requires sides { AreSidesInside (case self.now).root sides.now }
        requires fits { fits self.now (fixed out.old) }
        requires ahead { (t : Halved Self.Leaf) × ((rest : Self.Rest)
            × (is_ahead self.now base.old (fixed out.old) (first t rest) × MayStand (may self.now) (spans_of sides.now) t)) }
        ensures ready { (made : Self.Room) → is_ready self.now made room.old → is_ready self.now made room.new }
        ensures fixed { fixed out.new ≡ fixed out.old }
        ensures base { base_fixed base.new ≡ base_fixed base.old }
        ensures given { (t : Halved Self.Leaf) (rest : Self.Rest) → is_ahead self.now base.old (fixed out.old) (first t rest)
            → Gives first (is_ahead self.now base.new (fixed out.new)) (leaf_entry self.now (fixed out.old)) (is_part self.now)
            taken faults out.old out.new t rest result };

    /// Takes a split on that parameter; the nodes of the lower half follow, and then those of the upper one.
    fn take_split(&self, out: &mut Self::Out, axis: u32) -> Result<(), Self::Fault>
        requires { fits self.now (fixed out.old) }
        ensures took { Took taken faults out.old out.new result (split_entry self.now (fixed out.old) axis) }
        ensures fixed { fixed out.new ≡ fixed out.old };

    /// Takes the leaf that stands in the room.
    fn take_leaf(
        &self,
        room: &Self::Room,
        verdict: Self::Verdict,
        out: &mut Self::Out,
    ) -> Result<Self::Part, Self::Fault>
        requires ready { (made : Self.Room) × is_ready self.now made room.now }
        requires fits { fits self.now (fixed out.old) }
        requires decides { (spans : Spans) × (IsInside (case self.now).root spans
            × decides self.now spans (leaf self.now room.now verdict)) }
        ensures took { Took taken faults out.old out.new result
            (leaf_entry self.now (fixed out.old) (leaf self.now room.now verdict)) }
        ensures part { IfOk result (is_part self.now (Halved.leaf (leaf self.now room.now verdict))) }
        ensures fixed { fixed out.new ≡ fixed out.old };

    /// Takes an unknown leaf.
    fn take_unknown(&self, out: &mut Self::Out) -> Result<Self::Part, Self::Fault>
        requires { fits self.now (fixed out.old) }
        ensures took { Took taken faults out.old out.new result (unknown_entry self.now (fixed out.old)) }
        ensures part { IfOk result (is_part self.now Halved.unknown) }
        ensures fixed { fixed out.new ≡ fixed out.old };

    /// Joins what stands for the trees of the lower and of the upper half.
    fn join(
        &self,
        axis: u32,
        lower: Self::Part,
        upper: Self::Part,
    ) -> Result<Self::Part, Self::Fault>
        ensures part { IfOk result (λ part. (a b : Halved Self.Leaf) → is_part self.now a lower → is_part self.now b upper
            → is_part self.now (Halved.split axis a b) part) }
        ensures fault { OnErr result ((out : Self.Out) → Rose (faults out) (faults out)) };
}
