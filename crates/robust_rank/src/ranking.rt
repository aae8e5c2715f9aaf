ghost use Rattle.std.specs.Prelude.{◌≡◌, ◌+◌, List, ◌≤◌, ◌<◌, ◌↔◌, ◌<ℤ◌, pos, ℕ, suc, length, false, IsTrue, IfSome, IsSome, IsNone, All, count_by, slice_set};
ghost use Rattle.lift_grid.specs.Rectangle.{Spans};
ghost use Rattle.lift_model.specs.Model.{is_goal, choices, row_at, row_count};
ghost use Rattle.lift_model.specs.Links.{AreLinks, HasChoice, states_before, targets_of};
ghost use Rattle.lift_model.specs.OnlyRow.{IsPairRow, IsSingleRow};
ghost use Rattle.corner_lift.specs.Case.{IsInside};
ghost use Rattle.corner_lift.specs.Certificate.{mark, unmarked};
ghost use Rattle.corner_lift.specs.Stages.{LeadsBelow, AreStages};
ghost use Rattle.corner_lift.specs.Table.{IsTable};
ghost use Rattle.robust_rank.specs.Attracting.{Pass};
ghost use Rattle.robust_rank.specs.Staging.{allows, CanRank, CanRankBy, IsLeading, IsLeastLeading, HasLeading, HasNoLeading, OthersHaveNoChoice, is_rank, IsReached, IsChoiceOf, IsStarting, IsComplete, StageData, IsGathering, AreKept, IsLooked};
ghost use Rattle.robust_rank.specs.InOrder.{AreRanks};

use crate::marks::{NONE, are_below, mark_of};
use crate::rows::{Choices, Rows};
use corner_lift::{Case, PairTable, least_into, rows_at_corners};
use lift_model::{Links, OnlyRow, PairRow};

/// Whether the weight is above 0.
#[inline(always)]
fn is_positive(weight: i128) -> bool
    ensures { IsTrue result ↔ pos 0 <ℤ weight }
{
    weight > 0
}

/// Whether both targets of a row have a rank less than `below`.
#[inline(always)]
pub(crate) fn are_both_below(row: PairRow, ranks: &[u32], below: u32) -> bool
    requires { (row.first < length ranks.now) × (row.second < length ranks.now) }
    ensures { IsTrue result → (mark ranks.now row.first < below) × (mark ranks.now row.second < below) }
{
    ranks[row.first as usize] < below && ranks[row.second as usize] < below
}

/// Whether the state has a rank less than `below`.
#[inline(always)]
fn is_below(target: u32, ranks: &[u32], below: u32) -> bool
    requires { target < length ranks.now }
    ensures { IsTrue result → mark ranks.now target < below }
{
    ranks[target as usize] < below
}

/// Whether the number is above 0.
#[inline(always)]
fn is_some(number: i64) -> bool
    ensures { IsTrue result ↔ pos 0 <ℤ number }
{
    number > 0
}

/// Whether the only row of a state, which leads to that state alone, leads below, if that is quickly told.
#[inline(always)]
fn single_leads(case: &Case, s: u32, target: u32, ranks: &[u32], below: u32) -> Option<bool>
    ghost spans: { Spans }
    requires inside { IsInside case.now.root spans }
    requires state { s < length case.now.model.states }
    requires row { IsSingleRow case.now.model s target }
    requires ranks { length ranks.now ≡ length case.now.model.states }
    ensures { IfSome result (λ yes. IsTrue yes ↔ LeadsBelow case.now spans (mark ranks.now) below s 0) }
{
    rows_at_corners();
    let _ = case.w();
    if is_below(target, ranks, below) {
        return Some(true);
    }
    None
}

/// Gives a state without rank the rank, and puts it at the end of the queue.
#[inline(always)]
fn add(ranks: &mut [u32], queue: &mut [u32], s: u32, rank: u32, found: usize) -> usize
    requires state { s < length ranks.old }
    requires sizes { length queue.old ≡ length ranks.old }
    requires none { unmarked ≤ mark ranks.old s }
    requires rank { rank < unmarked }
    requires count { found ≡ count_by is_rank ranks.old }
    ensures ranks { ranks.new ≡ slice_set ranks.old s rank }
    ensures queue { queue.new ≡ slice_set queue.old found s }
    ensures found { result ≡ found + 1 }
    ensures room { found < length queue.old }
    ensures count { result ≡ count_by is_rank ranks.new }
{
    ranks[s as usize] = rank;
    queue[found] = s;
    found + 1
}

/// Takes all ranks away.
fn clear(ranks: &mut [u32])
    ensures none { (s : ℕ) → mark ranks.new s ≡ unmarked }
    ensures count { count_by is_rank ranks.new ≡ 0 }
{
    for s in 0..ranks.len() {
        ranks[s] = NONE;
    }
}

/// Gives rank 0 to the state, if it is a goal state, and puts it into the queue.
#[inline(always)]
fn add_goal(case: &Case, s: u32, found: usize, ranks: &mut [u32], queue: &mut [u32]) -> usize
    requires state { s < length case.now.model.states }
    requires starting { IsStarting case.now ranks.old queue.old s found }
    ensures starting { IsStarting case.now ranks.new queue.new (s + 1) result }
{
    if !case.model().is_goal(s) {
        return found;
    }
    add(ranks, queue, s, 0, found)
}

/// Gives rank 0 to the goal states and none to the others, and puts the goal states into the queue.
#[inline(never)]
fn start(case: &Case, ranks: &mut [u32], queue: &mut [u32]) -> usize
    requires sizes { (length ranks.old ≡ length case.now.model.states) × (length queue.old ≡ length case.now.model.states) }
    ensures { IsStarting case.now ranks.new queue.new (length case.now.model.states) result }
{
    clear(ranks);
    let mut found = 0;
    for s in 0..case.model().states() {
        found = add_goal(case, s, found, ranks, queue);
    }
    found
}

/// A stage: the states of a rank, which stand in a part of the queue.
#[derive(Clone, Copy)]
struct Stage {
    /// The rank.
    rank: u32,
    /// Where its part of the queue begins.
    from: usize,
    /// Where it ends.
    to: usize,
}

/// The search for the stage after one, under way.
#[derive(Clone, Copy)]
struct Search {
    /// The rank of the stage before.
    rank: u32,
    /// How many states the queue holds.
    found: usize,
}

impl Rows<'_> {
    /// The targets of the state's choice.
    #[inline(always)]
    pub(crate) fn targets(&self, s: u32, a: u32) -> &[u32]
        requires links { AreLinks self.now.case.now.model self.now.links.now }
        requires row { HasChoice self.now.case.now.model s a }
        ensures { result.now ≡ targets_of (row_at self.now.case.now.model s a) }
    {
        self.links.targets(self.links.place(s, a))
    }

    /// Whether all targets of the state's choice have a rank less than `below`, so that nothing need be weighed.
    #[inline(always)]
    pub(crate) fn leads_only_below(&self, s: u32, a: u32, ranks: &[u32], below: u32) -> bool
        requires links { AreLinks self.now.case.now.model self.now.links.now }
        requires row { HasChoice self.now.case.now.model s a }
        requires ranks { length ranks.now ≡ length self.now.case.now.model.states }
        ensures { IsTrue result → All (λ t. mark ranks.now t < below) (targets_of (row_at self.now.case.now.model s a)) }
    {
        let _ = self.case.w();
        are_below(self.targets(s, a), ranks, below)
    }

    /// Whether at each of its corners the state's choice has positive weight into states whose rank is less
    /// than `below`.
    #[inline(always)]
    fn leads_below(&self, s: u32, a: u32, ranks: &[u32], below: u32) -> bool
        ghost spans: { Spans }
        requires links { AreLinks self.now.case.now.model self.now.links.now }
        requires table { IsTable self.now.case.now self.now.links.now spans self.now.weights.now }
        requires row { HasChoice self.now.case.now.model s a }
        requires ranks { length ranks.now ≡ length self.now.case.now.model.states }
        ensures { IsTrue result ↔ LeadsBelow self.now.case.now spans (mark ranks.now) below s a }
    {
        rows_at_corners();
        let _ = self.case.w();
        if self.leads_only_below(s, a, ranks, below) {
            return true;
        }
        is_positive(
            least_into(
                self.case,
                self.links,
                self.weights.weights(),
                s,
                a,
                ranks,
                below,
            )
            .sum,
        )
    }

    /// How many choices a state has, by the links, whose lists lie closer together than the model's.
    #[inline(always)]
    pub(crate) fn choice_count(&self, s: u32) -> u32
        requires links { AreLinks self.now.case.now.model self.now.links.now }
        requires state { s < length self.now.case.now.model.states }
        ensures { result ≡ length (choices self.now.case.now.model s) }
    {
        self.links.choices(s)
    }

    /// Whether the only row of a state, which has two entries, leads below, if that is quickly told.
    #[inline(always)]
    pub(crate) fn pair_leads(&self, s: u32, row: PairRow, ranks: &[u32], below: u32) -> Option<bool>
        ghost spans: { Spans }
        requires links { AreLinks self.now.case.now.model self.now.links.now }
        requires table { IsTable self.now.case.now self.now.links.now spans self.now.weights.now }
        requires state { s < length self.now.case.now.model.states }
        requires row { IsPairRow self.now.case.now.model self.now.links.now s row }
        requires ranks { length ranks.now ≡ length self.now.case.now.model.states }
        ensures { IfSome result (λ yes. IsTrue yes ↔ LeadsBelow self.now.case.now spans (mark ranks.now) below s 0) }
    {
        rows_at_corners();
        let _ = self.case.w();
        if are_both_below(row, ranks, below) {
            return Some(true);
        }
        let row = self
            .weights
            .least_into_of(self.case, self.links, s, row, ranks, below)?;
        Some(is_some(row.sum))
    }

    /// Whether the only row of a state leads below, if that is quickly told.
    #[inline(always)]
    fn only_leads(&self, s: u32, ranks: &[u32], below: u32) -> Option<bool>
        ghost spans: { Spans }
        requires links { AreLinks self.now.case.now.model self.now.links.now }
        requires table { IsTable self.now.case.now self.now.links.now spans self.now.weights.now }
        requires state { s < length self.now.case.now.model.states }
        requires ranks { length ranks.now ≡ length self.now.case.now.model.states }
        ensures only { IsSome result → length (choices self.now.case.now.model s) ≡ 1 }
        ensures leads { IfSome result (λ yes. IsTrue yes ↔ LeadsBelow self.now.case.now spans (mark ranks.now) below s 0) }
    {
        match self.links.only_row(s) {
            OnlyRow::Single(target) => single_leads(self.case, s, target, ranks, below),
            OnlyRow::Pair(row) => self.pair_leads(s, row, ranks, below),
            OnlyRow::Other => None,
        }
    }
}

impl Choices<'_, '_> {
    /// Whether the state's choice is allowed.
    #[inline(always)]
    pub(crate) fn is_allowed(&self, s: u32, a: u32) -> bool
        requires links { AreLinks self.now.rows.case.now.model self.now.rows.links.now }
        requires rows { length self.now.allowed.now ≡ row_count self.now.rows.case.now.model }
        requires row { HasChoice self.now.rows.case.now.model s a }
        ensures { IsTrue result ↔ Pass (allows self.now.rows.case.now.model self.now.allowed.now) s a }
    {
        self.allowed[self.rows.links.row_place(s, a)] != 0
    }

    /// Whether the state's choice is allowed and leads below.
    #[inline(always)]
    fn is_leading(&self, s: u32, a: u32, ranks: &[u32], below: u32) -> bool
        ghost spans: { Spans }
        requires rows { CanRankBy self.now spans }
        requires row { HasChoice self.now.rows.case.now.model s a }
        requires ranks { length ranks.now ≡ length self.now.rows.case.now.model.states }
        ensures { IsTrue result ↔ IsLeading self.now.rows.case.now spans self.now.allowed.now (mark ranks.now) below s a }
    {
        self.is_allowed(s, a) && self.rows.leads_below(s, a, ranks, below)
    }

    /// The least allowed choice of the state that leads below, one after the other.
    #[inline(never)]
    pub(crate) fn leading_of_choices(&self, s: u32, ranks: &[u32], below: u32) -> Option<u32>
        ghost spans: { Spans }
        requires rows { CanRankBy self.now spans }
        requires state { s < length self.now.rows.case.now.model.states }
        requires ranks { length ranks.now ≡ length self.now.rows.case.now.model.states }
        ensures some { IfSome result (IsLeastLeading self.now.rows.case.now spans self.now.allowed.now (mark ranks.now) below s) }
        ensures none { IsNone result → HasNoLeading self.now.rows.case.now spans self.now.allowed.now (mark ranks.now) below s }
    {
        for a in 0..self.rows.choice_count(s) {
            if self.is_leading(s, a, ranks, below) {
                return Some(a);
            }
        }
        None
    }

    /// The least allowed choice of the state that leads below.
    #[inline(always)]
    fn leading_choice(&self, s: u32, ranks: &[u32], below: u32) -> Option<u32>
        ghost spans: { Spans }
        requires rows { CanRankBy self.now spans }
        requires state { s < length self.now.rows.case.now.model.states }
        requires ranks { length ranks.now ≡ length self.now.rows.case.now.model.states }
        ensures some { IfSome result (IsLeastLeading self.now.rows.case.now spans self.now.allowed.now (mark ranks.now) below s) }
        ensures none { IsNone result → HasNoLeading self.now.rows.case.now spans self.now.allowed.now (mark ranks.now) below s }
    {
        if let Some(leads) = self.rows.only_leads(s, ranks, below) {
            if !leads {
                return None;
            }
            if !self.is_allowed(s, 0) {
                return None;
            }
            return Some(0);
        }
        self.leading_of_choices(s, ranks, below)
    }

    /// Gives a state the rank after the search's if it has none and a choice that leads below that.
    #[inline(always)]
    fn try_state(&self, s: u32, search: Search, ranks: &mut [u32], queue: &mut [u32]) -> usize
        ghost start: { StageData }
        requires rows { CanRankBy self.now start.spans }
        requires state { s < length self.now.rows.case.now.model.states }
        requires gathering { IsGathering self.now.rows.case.now self.now.allowed.now start search.rank search.found ranks.old queue.old }
        ensures gathering { IsGathering self.now.rows.case.now self.now.allowed.now start search.rank result ranks.new queue.new }
        ensures kept { AreKept ranks.old ranks.new }
        ensures looked { IsLooked self.now.rows.case.now self.now.allowed.now start search.rank ranks.new s }
    {
        if mark_of(ranks, s as usize) != NONE {
            return search.found;
        }
        match self.leading_choice(s, ranks, search.rank + 1) {
            Some(_) => add(ranks, queue, s, search.rank + 1, search.found),
            None => search.found,
        }
    }

    /// Tries the states before `t`.
    fn try_before(&self, t: u32, search: Search, ranks: &mut [u32], queue: &mut [u32]) -> usize
        ghost start: { StageData }
        requires rows { CanRankBy self.now start.spans }
        requires state { t < length self.now.rows.case.now.model.states }
        requires gathering { IsGathering self.now.rows.case.now self.now.allowed.now start search.rank search.found ranks.old queue.old }
        ensures gathering { IsGathering self.now.rows.case.now self.now.allowed.now start search.rank result ranks.new queue.new }
        ensures kept { AreKept ranks.old ranks.new }
        ensures looked { All (IsLooked self.now.rows.case.now self.now.allowed.now start search.rank ranks.new)
            (states_before self.now.rows.links.now t) }
    {
        let rank = search.rank;
        let mut found = search.found;
        for s in self.rows.links.before(t) {
            found = self.try_state(*s, Search { rank, found }, ranks, queue);
        }
        found
    }

    /// Gives the rank after the stage's to each state that gets it, and puts these behind the stage's part of the queue.
    #[inline(never)]
    fn add_stage(&self, stage: Stage, ranks: &mut [u32], queue: &mut [u32]) -> usize
        ghost start: { StageData }
        requires rows { CanRankBy self.now start.spans }
        requires start { (start.ranks ≡ ranks.old) × ((start.queue ≡ queue.old) × (start.to ≡ stage.to)) }
        requires complete { IsComplete self.now.rows.case.now start.spans self.now.allowed.now start.ranks start.queue
            stage.rank stage.from start.to }
        requires some { stage.from < stage.to }
        ensures complete { IsComplete self.now.rows.case.now start.spans self.now.allowed.now ranks.new queue.new
            (suc stage.rank) stage.to result }
    {
        let _ = self.rows.case.w();
        let rank = stage.rank;
        let mut found = stage.to;
        for i in stage.from..stage.to {
            let t = mark_of(queue, i);
            found = self.try_before(t, Search { rank, found }, ranks, queue);
        }
        found
    }

    /// The least allowed choice of a state that leads below, where there is one. The last choice isn't looked
    /// at: where no other does, it does.
    #[inline(always)]
    fn known_choice(&self, s: u32, ranks: &[u32], below: u32) -> u32
        ghost spans: { Spans }
        requires rows { CanRankBy self.now spans }
        requires state { s < length self.now.rows.case.now.model.states }
        requires ranks { length ranks.now ≡ length self.now.rows.case.now.model.states }
        requires some { HasLeading self.now.rows.case.now spans self.now.allowed.now (mark ranks.now) below s }
        ensures { IsLeastLeading self.now.rows.case.now spans self.now.allowed.now (mark ranks.now) below s result }
    {
        let last = self.rows.choice_count(s) - 1;
        for choice in 0..last {
            if self.is_leading(s, choice, ranks, below) {
                return choice;
            }
        }
        last
    }

    /// The chosen row of a state: the least allowed choice that leads below its rank. None where it has no rank,
    /// or is a goal state.
    #[inline(always)]
    fn choice_of(&self, s: u32, ranks: &[u32]) -> u32
        ghost spans: { Spans }
        requires rows { CanRankBy self.now spans }
        requires state { s < length self.now.rows.case.now.model.states }
        requires ranks { length ranks.now ≡ length self.now.rows.case.now.model.states }
        requires reached { IsReached self.now.rows.case.now spans self.now.allowed.now ranks.now s }
        ensures chosen { IsChoiceOf self.now.rows.case.now spans self.now.allowed.now ranks.now s result }
    {
        let rank = mark_of(ranks, s as usize);
        if self.rows.case.model().is_goal(s) || rank == NONE {
            return NONE;
        }
        self.known_choice(s, ranks, rank)
    }

    /// Writes the choices of all states.
    #[inline(never)]
    fn choose_all(&self, ranks: &[u32], picks: &mut [u32])
        ghost spans: { Spans }
        requires rows { CanRankBy self.now spans }
        requires sizes { (length ranks.now ≡ length self.now.rows.case.now.model.states)
            × (length picks.old ≡ length self.now.rows.case.now.model.states) }
        requires reached { (s : ℕ) → IsReached self.now.rows.case.now spans self.now.allowed.now ranks.now s }
        ensures { (s : ℕ) → s < length self.now.rows.case.now.model.states
            → IsChoiceOf self.now.rows.case.now spans self.now.allowed.now ranks.now s (mark picks.new s) }
    {
        for s in 0..self.rows.case.model().states() {
            picks[s as usize] = self.choice_of(s, ranks);
        }
    }

    /// Gives each state its rank, stage by stage, with a queue in `queue`.
    #[inline(never)]
    fn rank_by_stages(&self, ranks: &mut [u32], queue: &mut [u32])
        ghost spans: { Spans }
        requires rows { CanRankBy self.now spans }
        requires sizes { (length ranks.old ≡ length self.now.rows.case.now.model.states)
            × (length queue.old ≡ length self.now.rows.case.now.model.states) }
        ensures { AreRanks self.now.rows.case.now spans self.now.allowed.now ranks.new }
    {
        rows_at_corners();
        let _ = self.rows.case.w();
        let mut from = 0;
        let mut to = start(self.rows.case, ranks, queue);
        let mut rank = 0;
        while from < to {
            let end = self.add_stage(Stage { rank, from, to }, ranks, queue);
            from = to;
            to = end;
            rank += 1;
        }
    }

    /// Gives each state its rank: in one pass where the links' order allows that, and else by stages, with a
    /// queue in `queue`.
    fn rank_all(&self, ranks: &mut [u32], queue: &mut [u32])
        ghost spans: { Spans }
        requires rows { CanRankBy self.now spans }
        requires sizes { (length ranks.old ≡ length self.now.rows.case.now.model.states)
            × (length queue.old ≡ length self.now.rows.case.now.model.states) }
        ensures { AreRanks self.now.rows.case.now spans self.now.allowed.now ranks.new }
    {
        if self.rank_in_order(ranks) {
            return;
        }
        self.rank_by_stages(ranks, queue);
    }
}

/// Leaves in `ranks` and `picks` the ranks and choices by stages. Rank 0 have the goal states. A state has
/// rank r + 1 where it has none up to r, and an allowed choice that at each of its corners has positive
/// weight into states of rank at most r; the least such choice is its chosen row. A state without rank, or
/// without chosen row as goal states are, has `u32::MAX` there. What a stage adds doesn't see what else that
/// stage adds.
///
/// `weights` is the table of some sides inside the root, and `links` are those of the case's model.
/// `allowed` has a number for each row, in reading order, which is 0 where the row isn't allowed.
/// `ranks` and `picks` have one place for each state, and what they hold at entry is free. Takes no
/// memory. Each state is looked at once where the links' order has all states' targets before them, and
/// else, after a part of such a pass, once for each state that it leads to.
pub fn attract(
    case: &Case,
    links: &Links,
    weights: &[i128],
    allowed: &[u32],
    ranks: &mut [u32],
    picks: &mut [u32],
)
    ghost spans: { Spans }
    requires rows { CanRank case.now links.now spans weights.now allowed.now }
    requires sizes { (length ranks.old ≡ length case.now.model.states) × (length picks.old ≡ length case.now.model.states) }
    ensures stages { AreStages case.now spans (Pass (allows case.now.model allowed.now)) (mark picks.new) (mark ranks.new) }
    ensures others { OthersHaveNoChoice case.now picks.new ranks.new }
{
    let _ = case.w();
    let pairs = PairTable::of(case, links, weights);
    let choices = Choices {
        rows: Rows {
            case: &*case,
            links: &*links,
            weights: &pairs,
        },
        allowed,
    };
    choices.rank_all(ranks, picks);
    choices.choose_all(ranks, picks);
}
