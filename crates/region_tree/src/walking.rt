// The walk over the tree of a case.
ghost use Rattle.std.specs.Prelude.{◌≡◌, length};
ghost use Rattle.lift_model.specs.Links.{AreLinks};
ghost use Rattle.lift_range.specs.Range.{Between};
ghost use Rattle.region_tree.specs.Rooms.{IsAsMade, IsMadeFor};
ghost use Rattle.region_tree.specs.Visits.{Walks};

use crate::laws::certificates_are_one;
use crate::room::Room;
use crate::search::Search;
use crate::showing::{Showing, seen};
use crate::visitor::{Seen, Visitor};
use corner_lift::{Case, lower_precisions_are_cases};
use lift_cert::Bound;
use lift_model::Links;
use lift_walk::Walker;
use std::marker::PhantomData;

/// Shows the visitor the nodes of the case's right tree, for the precisions from `from` to its own, in preorder, and
/// ends at the first failure. The room was made for the case, and after it is as made. Takes no memory.
///
/// Where all was kept there is a right tree. Whichever tree is right, the entries of all its nodes were
/// taken, or after a failure a part of them, from the front.
pub fn walk<V: Visitor>(
    case: &Case,
    links: &Links,
    bound: Bound,
    from: u32,
    room: &mut Room,
    visitor: &mut V,
) -> Seen
    requires links { AreLinks case.now.model links.now }
    requires from { Between 1 case.now.w from }
    requires made { IsMadeFor case.now links.now room.old }
    requires states { V.states visitor.old ≡ length case.now.model.states }
    requires precision { V.precision visitor.old ≡ case.now.w }
    ensures walks { Walks case.now from case.now.root bound 0
        V.taken V.faults (V.entry visitor.old) visitor.old visitor.new result }
    ensures room { IsAsMade room.old room.new }
    ensures states { V.states visitor.new ≡ V.states visitor.old }
    ensures precision { V.precision visitor.new ≡ V.precision visitor.old }
    ensures entry { V.entry visitor.new ≡ V.entry visitor.old }
    ensures same { V.reference visitor.new ≡ V.reference visitor.old }
{
    certificates_are_one();
    lower_precisions_are_cases();
    let _ = case.w();
    room.lanes.forget();
    let search = Search {
        case: &*case,
        links: &*links,
        sought: bound,
        from,
    };
    let showing: Showing<V> = Showing {
        search,
        visitor: PhantomData,
    };
    let walker = Walker {
        case: &*case,
        guide: &showing,
    };
    seen(walker.walk(false, &mut room.sides, &mut room.lanes, &mut (), visitor))
}
