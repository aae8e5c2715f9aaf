//! The vectors of a rectangle for the scheduler that reaches the least, in the lanes. In a chain, which has one
//! scheduler, they are those for the one that reaches the most.

ghost use Rattle.std.specs.Prelude.{◌≡◌, ◌≤ℤ◌, ◌+ℤ◌, pos, length, IfSome, IsNone};
ghost use Rattle.lift_grid.specs.Rectangle.{Spans};
ghost use Rattle.lift_model.specs.declared.kind.Kind.TheVariants.{Dtmc};
ghost use Rattle.lift_collapse.specs.Filled.{IsFilled};
ghost use Rattle.lift_dual.specs.Greatest.{IsGreatestAllAbove, NoneOfAllIsAbove};
ghost use Rattle.lift_dual.specs.Choosing.{IsLeastUpperOneWithin};
ghost use Rattle.region_tree.specs.Decided.{CanAsk, lane};
ghost use Rattle.region_tree.specs.Rooms.{HasPools, KeepsPools};
ghost use Rattle.property_tree.specs.Decided.{lower_all_in};

use corner_lift::Lifted;
use lift_collapse::{Collapse, Sought};
use lift_dual::{chains_have_one_scheduler, choose_first, greatest_all_above, least_one_within};
use lift_model::Kind;
use lift_pool::lanes_stand_alone;
use lower_cert::Rate;
use region_tree::{Finder, Pools};

/// Writes zeros.
fn clear(lane: &mut [i64])
    ensures { length lane.new ≡ length lane.old }
{
    for s in 0..lane.len() {
        lane[s] = 0;
    }
}

/// Leaves in `lane` a guess of the vector that is sought, where there is a collapsed model, and else zeros.
fn guess(
    finder: &Finder,
    sought: Sought,
    limit: i64,
    collapse: &mut Option<Collapse>,
    lane: &mut [i64],
)
    ghost spans: { Spans }
    requires filled { IfSome collapse.old (IsFilled finder.now.case.now spans) }
    requires size { length lane.old ≡ length finder.now.case.now.model.states }
    ensures collapse { collapse.new ≡ collapse.old }
    ensures size { length lane.new ≡ length lane.old }
{
    match collapse {
        Some(collapse) => collapse.guess(finder.case, sought, limit, lane),
        None => clear(lane),
    }
}

/// As `upper_one_within`, by a search over one choice of each state.
fn upper_of_process(
    finder: &Finder,
    limit: i64,
    collapse: &mut Option<Collapse>,
    pools: &mut Pools,
) -> bool
    ghost spans: { Spans }
    requires asked { CanAsk finder.now.case.now finder.now.links.now spans finder.now.weights.now }
    requires filled { IfSome collapse.old (IsFilled finder.now.case.now spans) }
    requires pools { HasPools finder.now.case.now.model pools.old }
    ensures collapse { collapse.new ≡ collapse.old }
    ensures pools { KeepsPools pools.old pools.new }
    ensures least { IsLeastUpperOneWithin finder.now.case.now spans limit
        (lane pools.new.values) (lane pools.new.picks) result }
{
    lanes_stand_alone::<i64>();
    lanes_stand_alone::<u32>();
    let rows = Lifted::new(finder.case, finder.links, finder.weights);
    let values = pools.values.lane_mut(0);
    guess(finder, Sought::UpperOne, limit, collapse, values);
    least_one_within(
        &rows,
        limit,
        values,
        pools.picks.lane_mut(0),
        pools.work.lane_mut(0),
    )
}

/// As `upper_one_within`, by the least upper vector for every scheduler.
fn upper_of_chain(
    finder: &Finder,
    limit: i64,
    collapse: &mut Option<Collapse>,
    pools: &mut Pools,
) -> bool
    ghost spans: { Spans }
    requires asked { CanAsk finder.now.case.now finder.now.links.now spans finder.now.weights.now }
    requires filled { IfSome collapse.old (IsFilled finder.now.case.now spans) }
    requires pools { HasPools finder.now.case.now.model pools.old }
    requires chain { finder.now.case.now.model.kind ≡ Dtmc }
    ensures collapse { collapse.new ≡ collapse.old }
    ensures pools { KeepsPools pools.old pools.new }
    ensures least { IsLeastUpperOneWithin finder.now.case.now spans limit
        (lane pools.new.values) (lane pools.new.picks) result }
{
    chains_have_one_scheduler();
    lanes_stand_alone::<u32>();
    let _ = finder.case.w();
    if !finder.least_upper_within(limit, collapse, pools) {
        return false;
    }
    choose_first(finder.case.model(), pools.picks.lane_mut(0));
    true
}

/// Whether an upper vector for one scheduler exists whose number of the initial state is within the limit. Then the
/// least one is in the values, and its choices stand in `picks`.
pub(crate) fn upper_one_within(
    finder: &Finder,
    limit: i64,
    collapse: &mut Option<Collapse>,
    pools: &mut Pools,
) -> bool
    ghost spans: { Spans }
    requires asked { CanAsk finder.now.case.now finder.now.links.now spans finder.now.weights.now }
    requires filled { IfSome collapse.old (IsFilled finder.now.case.now spans) }
    requires pools { HasPools finder.now.case.now.model pools.old }
    ensures collapse { collapse.new ≡ collapse.old }
    ensures pools { KeepsPools pools.old pools.new }
    ensures least { IsLeastUpperOneWithin finder.now.case.now spans limit
        (lane pools.new.values) (lane pools.new.picks) result }
{
    match finder.case.model().kind() {
        Kind::Dtmc => upper_of_chain(finder, limit, collapse, pools),
        Kind::Mdp => upper_of_process(finder, limit, collapse, pools),
    }
}

/// As `lower_all_above`, by ranks in which every choice counts.
fn lower_of_process(
    finder: &Finder,
    limit: i64,
    collapse: &mut Option<Collapse>,
    pools: &mut Pools,
) -> Option<Rate>
    ghost spans: { Spans }
    requires asked { CanAsk finder.now.case.now finder.now.links.now spans finder.now.weights.now }
    requires filled { IfSome collapse.old (IsFilled finder.now.case.now spans) }
    requires pools { HasPools finder.now.case.now.model pools.old }
    requires limit { pos 0 ≤ℤ (limit +ℤ pos 1) }
    ensures collapse { collapse.new ≡ collapse.old }
    ensures pools { KeepsPools pools.old pools.new }
    ensures some { IfSome result (λ rate.
        IsGreatestAllAbove finder.now.case.now spans limit (lower_all_in pools.new rate.e rate.k)) }
    ensures none { IsNone result → NoneOfAllIsAbove finder.now.case.now spans limit }
{
    lanes_stand_alone::<i64>();
    lanes_stand_alone::<u32>();
    let rows = Lifted::new(finder.case, finder.links, finder.weights);
    let values = pools.values.lane_mut(0);
    let most = rows.top().saturating_sub(1).saturating_sub(limit);
    guess(finder, Sought::Avoiding, most, collapse, values);
    greatest_all_above(
        &rows,
        limit,
        values,
        pools.ranks.lane_mut(0),
        pools.work.lane_mut(0),
    )
}

/// As `lower_all_above`, by the greatest lower vector for some scheduler.
fn lower_of_chain(
    finder: &Finder,
    limit: i64,
    collapse: &mut Option<Collapse>,
    pools: &mut Pools,
) -> Option<Rate>
    ghost spans: { Spans }
    requires asked { CanAsk finder.now.case.now finder.now.links.now spans finder.now.weights.now }
    requires filled { IfSome collapse.old (IsFilled finder.now.case.now spans) }
    requires pools { HasPools finder.now.case.now.model pools.old }
    requires chain { finder.now.case.now.model.kind ≡ Dtmc }
    ensures collapse { collapse.new ≡ collapse.old }
    ensures pools { KeepsPools pools.old pools.new }
    ensures some { IfSome result (λ rate.
        IsGreatestAllAbove finder.now.case.now spans limit (lower_all_in pools.new rate.e rate.k)) }
    ensures none { IsNone result → NoneOfAllIsAbove finder.now.case.now spans limit }
{
    chains_have_one_scheduler();
    let _ = finder.case.w();
    finder.greatest_lower_above(limit, collapse, pools)
}

/// The greatest lower vector for every scheduler, with its ranks, in the lanes, if its number of the initial state is
/// above the limit, which is at least -1.
pub(crate) fn lower_all_above(
    finder: &Finder,
    limit: i64,
    collapse: &mut Option<Collapse>,
    pools: &mut Pools,
) -> Option<Rate>
    ghost spans: { Spans }
    requires asked { CanAsk finder.now.case.now finder.now.links.now spans finder.now.weights.now }
    requires filled { IfSome collapse.old (IsFilled finder.now.case.now spans) }
    requires pools { HasPools finder.now.case.now.model pools.old }
    requires limit { pos 0 ≤ℤ (limit +ℤ pos 1) }
    ensures collapse { collapse.new ≡ collapse.old }
    ensures pools { KeepsPools pools.old pools.new }
    ensures some { IfSome result (λ rate.
        IsGreatestAllAbove finder.now.case.now spans limit (lower_all_in pools.new rate.e rate.k)) }
    ensures none { IsNone result → NoneOfAllIsAbove finder.now.case.now spans limit }
{
    match finder.case.model().kind() {
        Kind::Dtmc => lower_of_chain(finder, limit, collapse, pools),
        Kind::Mdp => lower_of_process(finder, limit, collapse, pools),
    }
}
