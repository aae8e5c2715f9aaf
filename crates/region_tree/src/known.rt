//! A visitor is shown the nodes of a tree that goes on from another one.

ghost use Rattle.std.specs.Prelude.{◌≡◌, ◌++◌, List, ℕ};
ghost use Rattle.corner_lift.specs.Case.{IsCase};
ghost use Rattle.region_tree.specs.Nodes.{Node, nodes};
ghost use Rattle.region_tree.specs.Nodes.Node.{split, unknown};
ghost use Rattle.region_tree.specs.Right.{Decides, Decision, IsOpen, tree_from};
ghost use Rattle.region_tree.specs.Walking.{AreReady, IsVisitorOf, MayStand, VisitorData, leaf_in, node_of};

use crate::base::{self, Base, Copier};
use crate::room::Lanes;
use crate::search::Search;
use crate::showing::{Unkept, kept};
use crate::side::Found;
use lift_cert::{Bound, certificates_are_of_one_kind};
use lift_range::certificates_double;
use lift_walk::{Given, Guide};
use lower_cert::ranks_fit;
use std::marker::PhantomData;

/// Shows a visitor the nodes of a tree that goes on from the one that a base gives.
#[derive(Drop)]
pub(crate) struct Going<'a, B, V> {
    pub(crate) search: Search<'a, Bound>,
    pub(crate) base: PhantomData<B>,
    pub(crate) visitor: PhantomData<V>,
}

impl<B: Base, V: Copier> Guide for Going<'_, B, V> {
    type Room = Lanes;

    type Verdict = Found;

    type Base = B;

    type Out = V;

    type Part = ();

    type Fault = Unkept;

    ghost Leaf = { Decision };

    ghost case = { λ s. s.search.case.now };

    ghost decides = { λ s. Decides s.search.case.now s.search.from s.search.sought };

    ghost is_open = { λ s spans. IsOpen s.search.case.now s.search.from spans s.search.sought };

    ghost may = { λ s. MayStand s.search.case.now s.search.sought };

    ghost leaf = { λ _ lanes found. leaf_in lanes.pools found };

    ghost is_ready = { λ s. AreReady s.search.case.now s.search.links.now s.search.sought s.search.from };

    ghost Fixed = { VisitorData };

    ghost fixed = { λ v. record {
      states = V.states v;
      precision = V.precision v;
      entry = V.entry v;
      reference = V.reference v;
    } };

    ghost fits = { λ s v. IsCase s.search.case.now × IsVisitorOf s.search.case.now v };

    ghost taken = { V.taken };

    ghost faults = { V.faults };

    ghost split_entry = { λ _ v axis. v.entry (split axis) };

    ghost leaf_entry = { λ _ v l. v.entry (node_of l) };

    ghost unknown_entry = { λ _ v. v.entry unknown };

    ghost is_part = { λ _ _ _. Unit {0} };

    ghost BaseFixed = { Node → List ℕ };

    ghost base_fixed = { B.entry };

    ghost Rest = { List Node };

    ghost first = { λ t rest. nodes (tree_from t) ++ rest };

    ghost is_ahead = { λ _ base v rest. B.is_ahead base rest × ((node : Node) → B.entry base node ≡ v.entry node) };

    fn decide(&self, room: &mut Lanes, sides: &[i64]) -> Option<Found> {
        self.search.find(room, sides)
    }

    fn next(
        &self,
        base: &mut B,
        room: &mut Lanes,
        sides: &[i64],
        out: &mut V,
    ) -> Given<Result<(), Unkept>> {
        certificates_double();
        certificates_are_of_one_kind();
        ranks_fit();
        let _ = self.search.case.w();
        match base.next() {
            base::Given::Split(axis) => Given::Split(axis),
            base::Given::Accept => {
                room.decided.note_accepted(sides);
                Given::Leaf(kept(out.copy(base.bytes())))
            }
            base::Given::Reject => {
                room.decided.note_rejected(sides);
                Given::Leaf(kept(out.copy(base.bytes())))
            }
            base::Given::Unknown => Given::Unknown,
        }
    }

    fn take_split(&self, out: &mut V, axis: u32) -> Result<(), Unkept> {
        kept(out.split(axis))
    }

    fn take_leaf(&self, room: &Lanes, verdict: Found, out: &mut V) -> Result<(), Unkept> {
        self.search.show(room, verdict, out)
    }

    fn take_unknown(&self, out: &mut V) -> Result<(), Unkept> {
        kept(out.unknown())
    }

    fn join(&self, _axis: u32, _lower: (), _upper: ()) -> Result<(), Unkept> {
        Ok(())
    }
}
