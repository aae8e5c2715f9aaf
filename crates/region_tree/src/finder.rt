//! The vectors of a rectangle, by a limit on the initial state's number.

ghost use Rattle.std.specs.Prelude.{◌≡◌, IsNone, IfSome};
ghost use Rattle.lift_grid.specs.Rectangle.{Spans};
ghost use Rattle.lower_cert.specs.Limit.{IsGreatestAbove, NoneIsAbove};
ghost use Rattle.lower_cert.specs.Lowering.{IsHigh};
ghost use Rattle.rounded_iter.specs.Watching.{CanIterate, IsLeastWithin};
ghost use Rattle.lift_collapse.specs.Filled.{IsFilled};
ghost use Rattle.region_tree.specs.Decided.{CanAsk, lane, reject_in};
ghost use Rattle.region_tree.specs.Rooms.{HasPools, KeepsPools};

use crate::pools::Pools;
use corner_lift::{Case, Lifted};
use lift_collapse::Collapse;
use lift_model::Links;
use lift_pool::lanes_stand_alone;
use lower_cert::{Rate, greatest_reject_above, greatest_reject_from};
use rounded_iter::least_upper_within;

/// What the vectors of a rectangle are found by.
#[derive(Clone, Copy)]
pub struct Finder<'a> {
    pub case: &'a Case<'a>,
    /// The links of the case's model.
    pub links: &'a Links,
    /// The sides of the rectangle.
    pub sides: &'a [i64],
    /// Its table.
    pub weights: &'a [i128],
}

impl Finder<'_> {
    /// The least upper vector in `lane`, if its number of the initial state is within the limit. It is found on
    /// the collapsed model where there is one.
    fn least_upper(
        &self,
        limit: i64,
        collapse: &mut Option<Collapse>,
        lane: &mut [i64],
        work: &mut [u32],
    ) -> bool
        ghost spans: { Spans }
        requires can { CanIterate self.now.case.now self.now.links.now spans self.now.weights.now lane.old work.old }
        requires filled { IfSome collapse.old (IsFilled self.now.case.now spans) }
        ensures same { collapse.new ≡ collapse.old }
        ensures least { IsLeastWithin self.now.case.now spans limit lane.new result }
    {
        match collapse {
            Some(collapse) => collapse.least_upper_within(self.case, limit, lane),
            None => least_upper_within(self.case, self.links, self.weights, limit, lane, work),
        }
    }

    /// Whether an upper vector exists whose number of the initial state is within the limit. Then the least one is in
    /// the values.
    pub fn least_upper_within(
        &self,
        limit: i64,
        collapse: &mut Option<Collapse>,
        pools: &mut Pools,
    ) -> bool
        ghost spans: { Spans }
        requires asked { CanAsk self.now.case.now self.now.links.now spans self.now.weights.now }
        requires filled { IfSome collapse.old (IsFilled self.now.case.now spans) }
        requires pools { HasPools self.now.case.now.model pools.old }
        ensures collapse { collapse.new ≡ collapse.old }
        ensures pools { KeepsPools pools.old pools.new }
        ensures least { IsLeastWithin self.now.case.now spans limit (lane pools.new.values) result }
    {
        lanes_stand_alone::<i64>();
        lanes_stand_alone::<u32>();
        self.least_upper(
            limit,
            collapse,
            pools.values.lane_mut(0),
            pools.work.lane_mut(0),
        )
    }

    /// The greatest lower vector in the lanes, with its ranks and choices, if its number of the initial state is
    /// above the limit. It is lowered from the vector of ones.
    fn lower_from_ones(&self, limit: i64, pools: &mut Pools) -> Option<Rate>
        ghost spans: { Spans }
        requires asked { CanAsk self.now.case.now self.now.links.now spans self.now.weights.now }
        requires pools { HasPools self.now.case.now.model pools.old }
        ensures pools { KeepsPools pools.old pools.new }
        ensures some { IfSome result (λ rate.
            IsGreatestAbove self.now.case.now spans limit (reject_in pools.new rate.e rate.k)) }
        ensures none { IsNone result → NoneIsAbove self.now.case.now spans limit }
    {
        lanes_stand_alone::<i64>();
        lanes_stand_alone::<u32>();
        greatest_reject_above(
            self.case,
            self.links,
            self.weights,
            limit,
            pools.values.lane_mut(0),
            pools.allowed.lane_mut(0),
            pools.ranks.lane_mut(0),
            pools.picks.lane_mut(0),
            pools.work.lane_mut(0),
        )
    }

    /// The same, lowered from the vector in the lanes, which lies at or above each lower vector.
    fn lower_from_values(&self, limit: i64, pools: &mut Pools) -> Option<Rate>
        ghost spans: { Spans }
        requires asked { CanAsk self.now.case.now self.now.links.now spans self.now.weights.now }
        requires pools { HasPools self.now.case.now.model pools.old }
        requires high { IsHigh self.now.case.now spans (lane pools.old.values) }
        ensures pools { KeepsPools pools.old pools.new }
        ensures some { IfSome result (λ rate.
            IsGreatestAbove self.now.case.now spans limit (reject_in pools.new rate.e rate.k)) }
        ensures none { IsNone result → NoneIsAbove self.now.case.now spans limit }
    {
        lanes_stand_alone::<i64>();
        lanes_stand_alone::<u32>();
        let rows = Lifted::new(self.case, self.links, self.weights);
        greatest_reject_from(
            &rows,
            limit,
            pools.values.lane_mut(0),
            pools.allowed.lane_mut(0),
            pools.ranks.lane_mut(0),
            pools.picks.lane_mut(0),
            pools.work.lane_mut(0),
        )
    }

    /// The greatest lower vector in the lanes, with its ranks and choices, if its number of the initial state is
    /// above the limit. Where there is a collapsed model, a vector at or above it is found on that.
    pub fn greatest_lower_above(
        &self,
        limit: i64,
        collapse: &mut Option<Collapse>,
        pools: &mut Pools,
    ) -> Option<Rate>
        ghost spans: { Spans }
        requires asked { CanAsk self.now.case.now self.now.links.now spans self.now.weights.now }
        requires filled { IfSome collapse.old (IsFilled self.now.case.now spans) }
        requires pools { HasPools self.now.case.now.model pools.old }
        ensures collapse { collapse.new ≡ collapse.old }
        ensures pools { KeepsPools pools.old pools.new }
        ensures some { IfSome result (λ rate.
            IsGreatestAbove self.now.case.now spans limit (reject_in pools.new rate.e rate.k)) }
        ensures none { IsNone result → NoneIsAbove self.now.case.now spans limit }
    {
        lanes_stand_alone::<i64>();
        let Some(collapse) = collapse else {
            return self.lower_from_ones(limit, pools);
        };
        if !collapse.lower_above(self.case, limit, pools.values.lane_mut(0)) {
            return None;
        }
        self.lower_from_values(limit, pools)
    }
}
