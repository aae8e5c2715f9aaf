ghost use Rattle.std.specs.Prelude.{◌≡◌, ◌∷◌, List, ℕ};
ghost use Rattle.region_tree.specs.Bases.{Gives};
ghost use Rattle.region_tree.specs.Nodes.{Node};
ghost use Rattle.region_tree.specs.Visits.{Visits};

use crate::visitor::{Seen, Visitor};

/// A node of a tree that is gone on from.
#[derive(Clone, Copy, Debug, PartialEq, Eq)]
pub enum Given {
    /// A split on that parameter; the nodes of the lower half follow, and then those of the upper one.
    Split(u32),
    /// An accepting leaf.
    Accept,
    /// A rejecting leaf.
    Reject,
    /// An unknown leaf.
    Unknown,
}

/// Gives the nodes of a tree, one after another, in preorder. Of a leaf that decides it has the bytes of its entry.
pub trait Base {
    /// Which nodes are still to come.
    ghost is_ahead: { Self → List Node → Type 0 };

    /// The entry of a node.
    ghost entry: { Self → Node → List ℕ };

    /// The bytes that go with the node that was given last.
    ghost bytes: { Self → List ℕ };

    /// Gives the next node.
    fn next(&mut self) -> Given
        requires ahead { (node : Node) × ((rest : List Node) × is_ahead self.old (node ∷ rest)) }
        ensures gives { Gives is_ahead (entry self.old) bytes self.old self.new result }
        ensures entry { entry self.new ≡ entry self.old };

    /// The bytes of its entry, where it is a leaf that decides.
    fn bytes(&self) -> &[u8]
        ensures { result.now ≡ bytes self.now };
}

/// A visitor that also takes entries as they are.
pub trait Copier: Visitor {
    /// A leaf, by the bytes of its entry.
    fn copy(&mut self, bytes: &[u8]) -> Seen
        ensures visits { Visits Self.taken Self.faults self.old self.new result bytes.now }
        ensures entry { Self.entry self.new ≡ Self.entry self.old }
        ensures states { Self.states self.new ≡ Self.states self.old }
        ensures precision { Self.precision self.new ≡ Self.precision self.old }
        ensures same { Self.reference self.new ≡ Self.reference self.old };
}
