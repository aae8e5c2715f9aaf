ghost use Rattle.std.specs.Prelude.{◌≡◌, List, ℕ};
ghost use Rattle.std.specs.declared.option.Option.{Option};
ghost use Rattle.std.specs.Borrow.{GName};
ghost use Rattle.lift_grid.specs.Tree.{RejectData};
ghost use Rattle.lift_range.specs.Range.{Between};
ghost use Rattle.region_tree.specs.Nodes.{Node};
ghost use Rattle.region_tree.specs.Nodes.Node.{accept, reject, split, unknown};
ghost use Rattle.region_tree.specs.Visits.{AreShown, IsShown, Visits};

/// What a visitor did with a node.
#[derive(Clone, Copy, Debug, PartialEq, Eq)]
pub enum Seen {
    /// It took the node's entry.
    Kept,
    /// It took a part of the entry, from its front, and counted a fault.
    Failed,
}

/// Is shown the nodes of a tree, one after another.
///
/// A visitor takes an entry for each node, which is a list of bytes. Whichever nodes it is shown, the
/// number of states, the precision and the entries stay the same, and its count of faults never falls.
pub trait Visitor {
    /// The number of states of the model whose tree is shown.
    ghost states: { Self → ℕ };

    /// The greatest precision that a leaf may have.
    ghost precision: { Self → ℕ };

    /// What is taken for a node.
    ghost entry: { Self → Node → List ℕ };

    /// The bytes that were taken, where they are told.
    ghost taken: { Self → Option (List ℕ) };

    /// How many faults were counted; the count stays at its last value.
    ghost faults: { Self → ℕ };

    /// Where the visitor holds a reference, its name in the logic, which no call changes.
    ghost reference: { Self → GName } = { λ _. 0 };

    /// A split on that parameter; the nodes of the lower half follow, and then those of the upper one.
    fn split(&mut self, axis: u32) -> Seen
        ensures visits { Visits taken faults self.old self.new result (entry self.old (split axis)) }
        ensures entry { entry self.new ≡ entry self.old }
        ensures states { states self.new ≡ states self.old }
        ensures precision { precision self.new ≡ precision self.old }
        ensures same { reference self.new ≡ reference self.old };

    /// An accepting leaf, with its precision and the number of each state.
    fn accept(&mut self, u: u32, x: &[i64]) -> Seen
        requires u { Between 1 (precision self.old) u }
        requires x { AreShown (states self.old) x.now }
        ensures visits { Visits taken faults self.old self.new result (entry self.old (accept u x.now)) }
        ensures entry { entry self.new ≡ entry self.old }
        ensures states { states self.new ≡ states self.old }
        ensures precision { precision self.new ≡ precision self.old }
        ensures same { reference self.new ≡ reference self.old };

    /// A rejecting leaf, with its precision, and the number, the chosen row and the rank of each state; a state without
    /// chosen row or rank has `u32::MAX` there.
    fn reject(&mut self, u: u32, e: u32, k: u32, y: &[i64], picks: &[u32], ranks: &[u32]) -> Seen
        requires u { Between 1 (precision self.old) u }
        requires r { IsShown (states self.old) (record {
          numbers = y.now;
          picks = picks.now;
          ranks = ranks.now;
          e = e;
          k = k;
        }) }
        ensures visits { let r : RejectData = record {
          numbers = y.now;
          picks = picks.now;
          ranks = ranks.now;
          e = e;
          k = k;
        } in Visits taken faults self.old self.new result (entry self.old (reject u r)) }
        ensures entry { entry self.new ≡ entry self.old }
        ensures states { states self.new ≡ states self.old }
        ensures precision { precision self.new ≡ precision self.old }
        ensures same { reference self.new ≡ reference self.old };

    /// An unknown leaf.
    fn unknown(&mut self) -> Seen
        ensures visits { Visits taken faults self.old self.new result (entry self.old unknown) }
        ensures entry { entry self.new ≡ entry self.old }
        ensures states { states self.new ≡ states self.old }
        ensures precision { precision self.new ≡ precision self.old }
        ensures same { reference self.new ≡ reference self.old };
}
