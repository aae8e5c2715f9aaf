//! Ranks by stages in which every choice counts.

ghost use Rattle.std.specs.Prelude.{◌≡◌, ◌+◌, ◌≤◌, ◌<◌, ◌<ℤ◌, ◌↔◌, ℕ, suc, pos, length, IsTrue, IsFalse, All, count_by, slice_set};
ghost use Rattle.lift_grid.specs.Rectangle.{Spans};
ghost use Rattle.lift_model.specs.Links.{HasChoice, states_before};
ghost use Rattle.corner_lift.specs.Certificate.{mark, unmarked};
ghost use Rattle.corner_lift.specs.Lifted.{IsLiftedTo};
ghost use Rattle.corner_lift.specs.Stages.{LeadsBelow};
ghost use Rattle.robust_rank.specs.Staging.{is_rank, IsStarting, StageData, AreKept};
ghost use Rattle.lift_dual.specs.Avoiding.{AllLeadBelow, AreStagesOfAll};
ghost use Rattle.lift_dual.specs.Ranking.{HasPlaces, IsBegun, IsCompleteOfAll, IsGatheringOfAll, IsLookedOfAll};

use crate::laws::stages_of_all;
use corner_lift::{Case, Lifted, least_into, rows_at_corners};

/// In place of a rank where a state has none.
pub(crate) const NONE: u32 = u32::MAX;

/// The rank of a state, or a state of the queue.
#[inline(always)]
pub(crate) fn mark_at(marks: &[u32], at: usize) -> u32
    requires { at < length marks.now }
    ensures { result ≡ mark marks.now at }
{
    marks[at]
}

/// Whether the weight is above 0.
#[inline(always)]
fn is_positive(weight: i128) -> bool
    ensures { IsTrue result ↔ pos 0 <ℤ weight }
{
    weight > 0
}

/// Whether at each of its corners the state's choice has positive weight into states whose rank is less than
/// `below`.
#[inline(always)]
fn leads_below(rows: &Lifted, s: u32, a: u32, ranks: &[u32], below: u32) -> bool
    ghost spans: { Spans }
    requires lifted { IsLiftedTo rows.now spans }
    requires row { HasChoice rows.now.case.model s a }
    requires ranks { length ranks.now ≡ length rows.now.case.model.states }
    ensures { IsTrue result ↔ LeadsBelow rows.now.case spans (mark ranks.now) below s a }
{
    rows_at_corners();
    let _ = rows.w();
    is_positive(
        least_into(
            rows.case(),
            rows.links(),
            rows.weights(),
            s,
            a,
            ranks,
            below,
        )
        .sum,
    )
}

/// Whether each choice of the state leads below.
fn all_lead_below(rows: &Lifted, s: u32, ranks: &[u32], below: u32) -> bool
    ghost spans: { Spans }
    requires lifted { IsLiftedTo rows.now spans }
    requires state { s < length rows.now.case.model.states }
    requires ranks { length ranks.now ≡ length rows.now.case.model.states }
    ensures all { IsTrue result → AllLeadBelow rows.now.case spans (mark ranks.now) below s }
    ensures some { IsFalse result → AllLeadBelow rows.now.case spans (mark ranks.now) below s → ⊥ }
{
    for a in 0..rows.choice_count(s) {
        if !leads_below(rows, s, a, ranks, below) {
            return false;
        }
    }
    true
}

/// Whether the state has no rank.
#[inline(always)]
pub(crate) fn is_unranked(ranks: &[u32], s: u32) -> bool
    requires { s < length ranks.now }
    ensures yes { IsTrue result → unmarked ≤ mark ranks.now s }
    ensures no { IsFalse result → mark ranks.now s < unmarked }
{
    ranks[s as usize] == NONE
}

/// Gives a state without rank the rank, and puts it at the end of the queue.
#[inline(always)]
fn add(ranks: &mut [u32], queue: &mut [u32], s: u32, rank: u32, found: usize) -> usize
    requires state { s < length ranks.old }
    requires sizes { length queue.old ≡ length ranks.old }
    requires none { unmarked ≤ mark ranks.old s }
    requires rank { rank < unmarked }
    requires count { found ≡ count_by is_rank ranks.old }
    ensures ranks { ranks.new ≡ slice_set ranks.old s rank }
    ensures queue { queue.new ≡ slice_set queue.old found s }
    ensures found { result ≡ found + 1 }
    ensures room { found < length queue.old }
    ensures count { result ≡ count_by is_rank ranks.new }
{
    ranks[s as usize] = rank;
    queue[found] = s;
    found + 1
}

/// Takes all ranks away.
fn clear(ranks: &mut [u32])
    ensures none { (s : ℕ) → mark ranks.new s ≡ unmarked }
    ensures count { count_by is_rank ranks.new ≡ 0 }
{
    for s in 0..ranks.len() {
        ranks[s] = NONE;
    }
}

/// Gives rank 0 to the state, if it is a goal state, and puts it into the queue.
#[inline(always)]
fn add_goal(case: &Case, s: u32, found: usize, ranks: &mut [u32], queue: &mut [u32]) -> usize
    requires state { s < length case.now.model.states }
    requires starting { IsStarting case.now ranks.old queue.old s found }
    ensures { IsStarting case.now ranks.new queue.new (s + 1) result }
{
    if !case.model().is_goal(s) {
        return found;
    }
    add(ranks, queue, s, 0, found)
}

/// Gives rank 0 to the goal states and none to the others, and puts the goal states into the queue.
fn start(case: &Case, ranks: &mut [u32], queue: &mut [u32]) -> usize
    requires { HasPlaces case.now ranks.old queue.old }
    ensures { IsStarting case.now ranks.new queue.new (length case.now.model.states) result }
{
    clear(ranks);
    let mut found = 0;
    for s in 0..case.model().states() {
        found = add_goal(case, s, found, ranks, queue);
    }
    found
}

/// The stage after the one of that rank.
#[derive(Drop)]
struct NextStage<'a> {
    rows: &'a Lifted<'a>,
    rank: u32,
}

impl NextStage<'_> {
    /// Adds a state if it has no rank and each of its choices leads into the stages before.
    #[inline(always)]
    fn try_state(&self, s: u32, found: usize, ranks: &mut [u32], queue: &mut [u32]) -> usize
        ghost start: { StageData }
        requires lifted { IsLiftedTo self.now.rows.now start.spans }
        requires state { s < length self.now.rows.now.case.model.states }
        requires gathering { IsGatheringOfAll self.now.rows.now.case start self.now.rank found ranks.old queue.old }
        ensures gathering { IsGatheringOfAll self.now.rows.now.case start self.now.rank result ranks.new queue.new }
        ensures kept { AreKept ranks.old ranks.new }
        ensures looked { IsLookedOfAll self.now.rows.now.case start self.now.rank ranks.new s }
    {
        if !is_unranked(ranks, s) {
            return found;
        }
        if !all_lead_below(self.rows, s, ranks, self.rank + 1) {
            return found;
        }
        add(ranks, queue, s, self.rank + 1, found)
    }

    /// Tries the states before `t`.
    fn try_before(&self, t: u32, found: usize, ranks: &mut [u32], queue: &mut [u32]) -> usize
        ghost start: { StageData }
        requires lifted { IsLiftedTo self.now.rows.now start.spans }
        requires state { t < length self.now.rows.now.case.model.states }
        requires gathering { IsGatheringOfAll self.now.rows.now.case start self.now.rank found ranks.old queue.old }
        ensures gathering { IsGatheringOfAll self.now.rows.now.case start self.now.rank result ranks.new queue.new }
        ensures kept { AreKept ranks.old ranks.new }
        ensures looked { All (IsLookedOfAll self.now.rows.now.case start self.now.rank ranks.new)
            (states_before self.now.rows.now.links t) }
    {
        let _ = self.rows.w();
        let mut found = found;
        for s in self.rows.links().before(t) {
            found = self.try_state(*s, found, ranks, queue);
        }
        found
    }

    /// Adds each state of the stage, behind the queue's part from `from` to `to`, which holds the stage before.
    fn add_all(&self, from: usize, to: usize, ranks: &mut [u32], queue: &mut [u32]) -> usize
        ghost start: { StageData }
        requires lifted { IsLiftedTo self.now.rows.now start.spans }
        requires begun { IsBegun self.now.rows.now.case start ranks.old queue.old self.now.rank from to }
        ensures { IsCompleteOfAll self.now.rows.now.case start.spans ranks.new queue.new (suc self.now.rank) to result }
    {
        stages_of_all();
        let _ = self.rows.w();
        let mut found = to;
        for i in from..to {
            let t = mark_at(queue, i);
            found = self.try_before(t, found, ranks, queue);
        }
        found
    }
}

/// Gives each state its rank by stages: 0 to goal states, and else r + 1 where it has none up to r and each of
/// its choices, at each of its corners, has positive weight into states of rank at most r. A state without rank
/// has `u32::MAX`. What `ranks` and `queue` hold at entry is free.
pub(crate) fn rank_all(rows: &Lifted, ranks: &mut [u32], queue: &mut [u32])
    ghost spans: { Spans }
    requires lifted { IsLiftedTo rows.now spans }
    requires places { HasPlaces rows.now.case ranks.old queue.old }
    ensures stages { AreStagesOfAll rows.now.case spans (mark ranks.new) }
    ensures most { (s : ℕ) → mark ranks.new s < unmarked → mark ranks.new s ≤ length rows.now.case.model.states }
{
    stages_of_all();
    let _ = rows.w();
    let mut from = 0;
    let mut to = start(rows.case(), ranks, queue);
    let mut rank = 0;
    while from < to {
        let stage = NextStage { rows: &*rows, rank };
        let end = stage.add_all(from, to, ranks, queue);
        from = to;
        to = end;
        rank += 1;
    }
}
