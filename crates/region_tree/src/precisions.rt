//! The least precision of a range that decides a rectangle.

ghost use Rattle.std.specs.Prelude.{◌≡◌, length, IfSome, MatchOption};
ghost use Rattle.lift_grid.specs.Rectangle.{spans_of};
ghost use Rattle.corner_lift.specs.Case.{at};
ghost use Rattle.lift_collapse.specs.Filled.{IsFilled};
ghost use Rattle.lift_range.specs.Range.{Between};
ghost use Rattle.region_tree.specs.Decided.{CanAsk};
ghost use Rattle.region_tree.specs.Recent.{LooksFrom};
ghost use Rattle.region_tree.specs.Rooms.{HasLane, HasPools, KeepsPools};
ghost use Rattle.region_tree.specs.Sides.{IsFound, IsSoundFor, IsTold};

use crate::aim::{Aim, Errors};
use crate::decided::Outlook;
use crate::finder::Finder;
use crate::pools::Pools;
use crate::search::Search;
use crate::side::{Found, Side};
use crate::sought::{Sought, decide_in};
use lift_collapse::Collapse;
use lift_pool::Pool;

/// What is looked for at lower precisions, where a rectangle is decided at one: there is no certificate from the other
/// side.
fn outlook_below(side: Side) -> Outlook
    ensures { LooksFrom side result }
{
    let is_above = matches!(side, Side::Above);
    Outlook {
        may_accept: is_above,
        may_reject: !is_above,
        rejects_first: !is_above,
    }
}

impl Finder<'_> {
    /// The initial state's number.
    fn first_number(&self, values: &Pool<i64>) -> i64
        requires { HasLane values.now (length self.now.case.now.model.states) }
    {
        let init = self.case.model().init() as usize;
        values.lane(0).get(init).copied().unwrap_or(0)
    }
}

impl<S: Sought> Search<'_, S> {
    /// Decides the rectangle at the precision `u` alone, in the lanes.
    fn decide_at(
        &self,
        u: u32,
        outlook: Outlook,
        finder: &Finder,
        collapse: &mut Option<Collapse>,
        pools: &mut Pools,
    ) -> Option<Side>
        requires u { Between 1 finder.now.case.now.w u }
        requires asked { CanAsk finder.now.case.now finder.now.links.now (spans_of finder.now.sides.now) finder.now.weights.now }
        requires filled { IfSome collapse.old (IsFilled finder.now.case.now (spans_of finder.now.sides.now)) }
        requires pools { HasPools finder.now.case.now.model pools.old }
        requires outlook { IsSoundFor (S.certificates self.now.sought) (at finder.now.case.now u) (spans_of finder.now.sides.now) outlook }
        ensures collapse { collapse.new ≡ collapse.old }
        ensures pools { KeepsPools pools.old pools.new }
        ensures told { IsTold (S.certificates self.now.sought) (at finder.now.case.now u) (spans_of finder.now.sides.now) pools.new result }
    {
        let case = finder.case.at(u);
        let finder = Finder {
            case: &case,
            links: finder.links,
            sides: finder.sides,
            weights: finder.weights,
        };
        decide_in(&self.sought, outlook, &finder, collapse, pools)
    }

    /// Finds the least precision from `from` on that decides the rectangle, as the case's does, and leaves its
    /// certificate in the lanes. What decides at a precision does at each greater one, from the same side.
    pub(crate) fn settle(
        &self,
        told: Option<Side>,
        finder: &Finder,
        collapse: &mut Option<Collapse>,
        pools: &mut Pools,
        errors: &mut Errors,
    ) -> Option<Found>
        requires from { Between 1 finder.now.case.now.w self.now.from }
        requires asked { CanAsk finder.now.case.now finder.now.links.now (spans_of finder.now.sides.now) finder.now.weights.now }
        requires filled { IfSome collapse.old (IsFilled finder.now.case.now (spans_of finder.now.sides.now)) }
        requires pools { HasPools finder.now.case.now.model pools.old }
        requires told { IsTold (S.certificates self.now.sought) finder.now.case.now (spans_of finder.now.sides.now) pools.old told }
        ensures collapse { collapse.new ≡ collapse.old }
        ensures pools { KeepsPools pools.old pools.new }
        ensures found { IsFound (S.certificates self.now.sought) finder.now.case.now self.now.from (spans_of finder.now.sides.now) pools.new result }
    {
        self.sought.meeting_rectangles_agree(finder.case);
        self.sought.precisions_agree(finder.case);
        let mut high = finder.case.w();
        let Some(side) = told else {
            return None;
        };
        let outlook = outlook_below(side);
        let aim = Aim {
            sought: &self.sought,
            w: high,
            accepts: outlook.may_accept,
            number: finder.first_number(&pools.values),
        };
        let mut error = errors.of(aim.accepts);
        let mut held = told;
        let mut low = self.from;
        while low < high {
            let u = aim.next(error, low, high);
            held = self.decide_at(u, outlook, finder, collapse, pools);
            if held.is_some() {
                high = u;
                error = Some(aim.error(u, finder.first_number(&pools.values)));
            } else {
                low = u + 1;
                error = aim.greater_error(error, u);
            }
        }
        errors.keep(aim.accepts, error);
        if let Some(side) = held {
            return Some(Found { u: high, side });
        }
        match self.decide_at(high, outlook, finder, collapse, pools) {
            Some(side) => Some(Found { u: high, side }),
            None => None,
        }
    }
}
