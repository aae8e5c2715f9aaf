// The walk that goes on from a tree.
ghost use Rattle.std.specs.Prelude.{◌≡◌, length};
ghost use Rattle.lift_model.specs.Links.{AreLinks};
ghost use Rattle.lift_range.specs.Range.{Between};
ghost use Rattle.region_tree.specs.Bases.{GoesOn, OffersOne};
ghost use Rattle.region_tree.specs.Nodes.{Node};
ghost use Rattle.region_tree.specs.Rooms.{IsAsMade, IsMadeFor};

use crate::base::{Base, Copier};
use crate::known::Going;
use crate::laws::certificates_are_one;
use crate::room::Room;
use crate::search::Search;
use crate::showing::seen;
use crate::visitor::Seen;
use corner_lift::{Case, lower_precisions_are_cases};
use lift_cert::Bound;
use lift_model::Links;
use lift_walk::Walker;
use std::marker::PhantomData;

/// Shows the visitor the nodes of a tree that refines the one which the base gives, in preorder: where that one has an
/// unknown leaf stands the right tree of its rectangle, for the precisions from `from` to the case's own. A leaf that
/// decides is shown by the bytes that were given. It ends at the first failure. The room was made for the case, and
/// after it is as made. Takes no memory.
///
/// Where all was kept there is such a tree. Whichever tree is such a one, the entries of all its nodes were
/// taken, or after a failure a part of them, from the front.
pub fn refine<B: Base, V: Copier>(
    case: &Case,
    links: &Links,
    bound: Bound,
    from: u32,
    room: &mut Room,
    base: &mut B,
    visitor: &mut V,
) -> Seen
    requires links { AreLinks case.now.model links.now }
    requires from { Between 1 case.now.w from }
    requires made { IsMadeFor case.now links.now room.old }
    requires base { OffersOne (B.is_ahead base.old) case.now bound case.now.root 0 }
    requires entries { (node : Node) → B.entry base.old node ≡ V.entry visitor.old node }
    requires states { V.states visitor.old ≡ length case.now.model.states }
    requires precision { V.precision visitor.old ≡ case.now.w }
    ensures walks { GoesOn case.now from case.now.root bound 0 B.is_ahead base.old base.new
        V.taken V.faults (V.entry visitor.old) visitor.old visitor.new result }
    ensures room { IsAsMade room.old room.new }
    ensures lines { B.entry base.new ≡ B.entry base.old }
    ensures states { V.states visitor.new ≡ V.states visitor.old }
    ensures precision { V.precision visitor.new ≡ V.precision visitor.old }
    ensures entry { V.entry visitor.new ≡ V.entry visitor.old }
    ensures same { V.reference visitor.new ≡ V.reference visitor.old }
{
    certificates_are_one();
    lower_precisions_are_cases();
    let _ = case.w();
    room.lanes.forget();
    let search = Search {
        case: &*case,
        links: &*links,
        sought: bound,
        from,
    };
    let going: Going<B, V> = Going {
        search,
        base: PhantomData,
        visitor: PhantomData,
    };
    let walker = Walker {
        case: &*case,
        guide: &going,
    };
    seen(walker.walk(true, &mut room.sides, &mut room.lanes, base, visitor))
}
