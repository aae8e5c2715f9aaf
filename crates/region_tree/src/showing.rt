//! A visitor is shown the nodes of a tree while it is walked over.

ghost use Rattle.std.specs.List.{AllByRecursion};
ghost use Rattle.std.specs.Prelude.{◌≡◌, [], ◌∷◌, List, MatchOption, MatchResult, length};
ghost use Rattle.lift_grid.specs.Rectangle.{Spans, spans_of};
ghost use Rattle.lift_model.specs.Links.{AreLinks};
ghost use Rattle.corner_lift.specs.Case.{AreSidesInside, IsCase};
ghost use Rattle.lift_range.specs.Range.{Between};
ghost use Rattle.lift_walk.specs.Halved.{Halved};
ghost use Rattle.lift_walk.specs.Shown.{Took};
ghost use Rattle.region_tree.specs.Nodes.Node.{split, unknown};
ghost use Rattle.region_tree.specs.Decided.{sought_for};
ghost use Rattle.region_tree.specs.Right.{Decides, Decision, IsOpen};
ghost use Rattle.region_tree.specs.Rooms.{HasLanes, KeepsShape};
ghost use Rattle.region_tree.specs.Sides.{AreKnown};
ghost use Rattle.region_tree.specs.Walking.{AreReady, IsVisitorOf, VisitorData, leaf_in, node_of};
ghost use Rattle.region_tree.specs.declared.visitor.Seen.TheVariants.{Failed, Kept};

use crate::room::Lanes;
use crate::search::Search;
use crate::side::{Found, Side};
use crate::visitor::{Seen, Visitor};
use corner_lift::lower_precisions_are_cases;
use lift_cert::{Bound, certificates_are_of_one_kind};
use lift_walk::{Given, Guide};
use lower_cert::{Rate, ranks_fit};
use std::marker::PhantomData;

/// A visitor failed.
#[derive(Clone, Copy)]
pub(crate) struct Unkept;

/// Whether a visitor took a node.
pub(crate) fn kept(seen: Seen) -> Result<(), Unkept>
    ensures { MatchResult result (λ _. seen ≡ Kept) (λ _. seen ≡ Failed) }
{
    match seen {
        Seen::Kept => Ok(()),
        Seen::Failed => Err(Unkept),
    }
}

/// What is told of a walk.
pub(crate) fn seen(walked: Result<(), Unkept>) -> Seen
    ensures { MatchResult walked (λ _. result ≡ Kept) (λ _. result ≡ Failed) }
{
    match walked {
        Ok(()) => Seen::Kept,
        Err(Unkept) => Seen::Failed,
    }
}

impl Search<'_, Bound> {
    /// Decides the rectangle of a walk that has these sides.
    pub(crate) fn find(&self, lanes: &mut Lanes, sides: &[i64]) -> Option<Found>
        requires links { AreLinks self.now.case.now.model self.now.links.now }
        requires lanes { HasLanes self.now.case.now.model self.now.links.now lanes.old }
        requires sides { AreSidesInside self.now.case.now.root sides.now }
        requires from { Between 1 self.now.case.now.w self.now.from }
        requires known { AreKnown (sought_for self.now.sought) self.now.case.now lanes.old.decided }
        ensures shape { KeepsShape lanes.old lanes.new }
        ensures known { AreKnown (sought_for self.now.sought) self.now.case.now lanes.new.decided }
        ensures decided { MatchOption result (IsOpen self.now.case.now self.now.from (spans_of sides.now) self.now.sought)
            (λ found. Decides self.now.case.now self.now.from self.now.sought (spans_of sides.now)
            (leaf_in lanes.new.pools found)) }
    {
        certificates_are_of_one_kind();
        lower_precisions_are_cases();
        let _ = self.case.w();
        self.decide(lanes, sides)
    }

    /// Shows the leaf that was found, with the certificate that stands in the lanes.
    pub(crate) fn show<V: Visitor>(
        &self,
        lanes: &Lanes,
        found: Found,
        visitor: &mut V,
    ) -> Result<(), Unkept>
        requires case { IsCase self.now.case.now }
        requires from { Between 1 self.now.case.now.w self.now.from }
        requires lanes { HasLanes self.now.case.now.model self.now.links.now lanes.now }
        requires decided { (spans : Spans) × Decides self.now.case.now self.now.from self.now.sought spans
            (leaf_in lanes.now.pools found) }
        requires states { V.states visitor.old ≡ length self.now.case.now.model.states }
        requires precision { V.precision visitor.old ≡ self.now.case.now.w }
        ensures took { Took V.taken V.faults visitor.old visitor.new result
            (V.entry visitor.old (node_of (leaf_in lanes.now.pools found))) }
        ensures states { V.states visitor.new ≡ V.states visitor.old }
        ensures precision { V.precision visitor.new ≡ V.precision visitor.old }
        ensures entry { V.entry visitor.new ≡ V.entry visitor.old }
        ensures same { V.reference visitor.new ≡ V.reference visitor.old }
    {
        lower_precisions_are_cases();
        ranks_fit();
        let pools = &lanes.pools;
        let Found { u, side } = found;
        kept(match side {
            Side::Above => visitor.accept(u, pools.values.lane(0)),
            Side::Below(Rate { e, k }) => visitor.reject(
                u,
                e,
                k,
                pools.values.lane(0),
                pools.picks.lane(0),
                pools.ranks.lane(0),
            ),
        })
    }
}

/// Shows a visitor the nodes of the tree of a case. Nothing of it is known beforehand.
#[derive(Drop)]
pub(crate) struct Showing<'a, V> {
    pub(crate) search: Search<'a, Bound>,
    pub(crate) visitor: PhantomData<V>,
}

impl<V: Visitor> Guide for Showing<'_, V> {
    type Room = Lanes;

    type Verdict = Found;

    type Base = ();

    type Out = V;

    type Part = ();

    type Fault = Unkept;

    ghost Leaf = { Decision };

    ghost case = { λ s. s.search.case.now };

    ghost decides = { λ s. Decides s.search.case.now s.search.from s.search.sought };

    ghost is_open = { λ s spans. IsOpen s.search.case.now s.search.from spans s.search.sought };

    ghost may = { λ _ _ _. ⊥ };

    ghost leaf = { λ _ lanes found. leaf_in lanes.pools found };

    ghost is_ready = { λ s. AreReady s.search.case.now s.search.links.now s.search.sought s.search.from };

    ghost Fixed = { VisitorData };

    ghost fixed = { λ v. record {
      states = V.states v;
      precision = V.precision v;
      entry = V.entry v;
      reference = V.reference v;
    } };

    ghost fits = { λ s v. IsCase s.search.case.now × IsVisitorOf s.search.case.now v };

    ghost taken = { V.taken };

    ghost faults = { V.faults };

    ghost split_entry = { λ _ v axis. v.entry (split axis) };

    ghost leaf_entry = { λ _ v l. v.entry (node_of l) };

    ghost unknown_entry = { λ _ v. v.entry unknown };

    ghost is_part = { λ _ _ _. Unit {0} };

    ghost BaseFixed = { Unit {0} };

    ghost base_fixed = { λ _. tt };

    ghost Rest = { List (Halved Decision) };

    ghost first = { λ t rest. t ∷ rest };

    ghost is_ahead = { λ _ _ _ trees. AllByRecursion (λ t. t ≡ Halved.unknown) trees };

    fn decide(&self, room: &mut Lanes, sides: &[i64]) -> Option<Found> {
        self.search.find(room, sides)
    }

    fn next(
        &self,
        _base: &mut (),
        _room: &mut Lanes,
        _sides: &[i64],
        _out: &mut V,
    ) -> Given<Result<(), Unkept>> {
        Given::Unknown
    }

    fn take_split(&self, out: &mut V, axis: u32) -> Result<(), Unkept> {
        kept(out.split(axis))
    }

    fn take_leaf(&self, room: &Lanes, verdict: Found, out: &mut V) -> Result<(), Unkept> {
        self.search.show(room, verdict, out)
    }

    fn take_unknown(&self, out: &mut V) -> Result<(), Unkept> {
        kept(out.unknown())
    }

    fn join(&self, _axis: u32, _lower: (), _upper: ()) -> Result<(), Unkept> {
        Ok(())
    }
}
