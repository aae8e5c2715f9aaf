//! The search of the rectangles of a case, one after another.

ghost use Rattle.std.specs.Prelude.{◌≡◌};
ghost use Rattle.lift_grid.specs.Rectangle.{spans_of};
ghost use Rattle.lift_model.specs.Links.{AreLinks};
ghost use Rattle.corner_lift.specs.Case.{AreSidesInside};
ghost use Rattle.corner_lift.specs.Table.{IsTable};
ghost use Rattle.lift_range.specs.Range.{Between};
ghost use Rattle.region_tree.specs.Decided.{lane};
ghost use Rattle.region_tree.specs.Rooms.{HasLanes, KeepsShape};
ghost use Rattle.region_tree.specs.Sides.{AreKnown, IsFound, IsSoundFor};

use crate::decided::Outlook;
use crate::decision::{fill_collapse, make_table};
use crate::finder::Finder;
use crate::room::Lanes;
use crate::side::Found;
use crate::sought::{Sought, decide_in};
use corner_lift::Case;
use lift_model::Links;

/// Searches the rectangles of a case for what is sought of each, at the precisions from `from` to the case's own.
#[derive(Clone, Copy)]
pub struct Search<'a, S> {
    pub case: &'a Case<'a>,
    /// The links of the case's model.
    pub links: &'a Links,
    pub sought: S,
    /// The least precision, from 1 to the case's.
    pub from: u32,
}

impl<S: Sought> Search<'_, S> {
    /// Decides the rectangle that has these sides, of which that is known, and notes what it has. Its table is in the
    /// lanes then, and what decides it.
    pub(crate) fn decide_by(
        &self,
        lanes: &mut Lanes,
        sides: &[i64],
        outlook: Outlook,
    ) -> Option<Found>
        requires links { AreLinks self.now.case.now.model self.now.links.now }
        requires from { Between 1 self.now.case.now.w self.now.from }
        requires lanes { HasLanes self.now.case.now.model self.now.links.now lanes.old }
        requires sides { AreSidesInside self.now.case.now.root sides.now }
        requires outlook { IsSoundFor (S.certificates self.now.sought) self.now.case.now (spans_of sides.now) outlook }
        ensures shape { KeepsShape lanes.old lanes.new }
        ensures known { AreKnown (S.certificates self.now.sought) self.now.case.now lanes.old.decided
            → AreKnown (S.certificates self.now.sought) self.now.case.now lanes.new.decided }
        ensures table { IsTable self.now.case.now self.now.links.now (spans_of sides.now) (lane lanes.new.weights) }
        ensures found { IsFound (S.certificates self.now.sought) self.now.case.now self.now.from (spans_of sides.now)
            lanes.new.pools result }
    {
        self.sought.meeting_rectangles_agree(self.case);
        let _ = self.case.w();
        make_table(self.case, self.links, sides, &mut lanes.weights);
        fill_collapse(self.case, sides, &mut lanes.collapse);
        let finder = Finder {
            case: self.case,
            links: self.links,
            sides,
            weights: lanes.weights.lane(0),
        };
        let told = decide_in(
            &self.sought,
            outlook,
            &finder,
            &mut lanes.collapse,
            &mut lanes.pools,
        );
        lanes.decided.note(sides, told);
        self.settle(
            told,
            &finder,
            &mut lanes.collapse,
            &mut lanes.pools,
            &mut lanes.errors,
        )
    }

    /// Decides the rectangle of a walk that has these sides: what the rectangles before it had tells of it, and what it
    /// has is noted. Takes no memory.
    pub fn decide(&self, lanes: &mut Lanes, sides: &[i64]) -> Option<Found>
        requires links { AreLinks self.now.case.now.model self.now.links.now }
        requires from { Between 1 self.now.case.now.w self.now.from }
        requires lanes { HasLanes self.now.case.now.model self.now.links.now lanes.old }
        requires sides { AreSidesInside self.now.case.now.root sides.now }
        requires known { AreKnown (S.certificates self.now.sought) self.now.case.now lanes.old.decided }
        ensures shape { KeepsShape lanes.old lanes.new }
        ensures known { AreKnown (S.certificates self.now.sought) self.now.case.now lanes.new.decided }
        ensures found { IsFound (S.certificates self.now.sought) self.now.case.now self.now.from (spans_of sides.now)
            lanes.new.pools result }
    {
        let _ = self.case.w();
        let outlook = lanes.decided.outlook(sides);
        self.decide_by(lanes, sides, outlook)
    }
}
