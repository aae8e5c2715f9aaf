//! Quick tests of vectors, over a table of the rectangle's weights: they tell no miss.

ghost use Rattle.std.specs.Prelude.{ℕ, ◌<◌, ◌↔◌, [], length, IsTrue, IfSome};
ghost use Rattle.lift_grid.specs.Rectangle.{Spans};
ghost use Rattle.lift_model.specs.Links.{ArePlaces, HasChoice};
ghost use Rattle.lift_model.specs.Model.{choices};
ghost use Rattle.corner_lift.specs.Case.{corner_count, number};
ghost use Rattle.corner_lift.specs.Table.{IsTable};
ghost use Rattle.corner_lift.specs.Lifted.{IsLiftedTo};
ghost use Rattle.lift_cert.specs.RejectMiss.{IsFast};
ghost use Rattle.audit_cert.specs.Claim.{IsMet, IsTested, KeepsTo, Passes, PassesRow, PassesState};
ghost use Rattle.audit_cert.specs.Form.{HasForm, HasRanks};
ghost use Rattle.audit_cert.specs.Held.{IsToBeTested, claim_of, ranking_of};

use crate::claim::{Claim, Kind, Ranking};
use corner_lift::{Case, CornerTable, Weighed, corners_bound_weights, is_enough, rows_at_corners};
use lift_model::Links;

/// Whether a state's number keeps to its side of the mean at each corner of the row.
fn is_row_met(table: &CornerTable, claim: &Claim, state: u32, choice: u32) -> bool
    ghost spans: { Spans }
    requires lifted { IsLiftedTo table.now spans }
    requires row { HasChoice table.now.case.model state choice }
    requires form { HasForm table.now.case (claim_of claim.now) }
    ensures { IsTrue result ↔ ((c : ℕ) → c < corner_count table.now.case state choice
        → IsMet table.now.case spans (claim_of claim.now) state choice c) }
{
    rows_at_corners();
    let left = claim.left_over(table.case(), state);
    if left < 0 {
        return false;
    }
    match claim.kind {
        Kind::Upper => table.is_capped(state, choice, claim.targets, left),
        Kind::Lower => table.is_held(state, choice, claim.targets, left),
        Kind::Priced(_) => table.is_capped(state, choice, claim.targets, left),
    }
}

impl Ranking<'_> {
    /// Whether enough weight leads to lower ranks at each corner of the row.
    fn is_row_fast(&self, table: &CornerTable, state: u32, choice: u32) -> bool
        ghost spans: { Spans }
        requires lifted { IsLiftedTo table.now spans }
        requires row { HasChoice table.now.case.model state choice }
        requires ranks { HasRanks table.now.case (ranking_of [] self.now) }
        ensures { IsTrue result ↔ ((c : ℕ) → c < corner_count table.now.case state choice
            → IsFast table.now.case spans (ranking_of [] self.now) state choice c) }
    {
        rows_at_corners();
        corners_bound_weights();
        let rank = self.rank(table.case(), state);
        let Weighed { sum, whole } = table.least_into(state, choice, self.ranks, rank);
        is_enough(sum, self.e, whole)
    }
}

/// Whether enough weight leads to lower ranks at each corner of the row, where there are ranks.
fn is_row_fast(table: &CornerTable, claim: &Claim, state: u32, choice: u32) -> bool
    ghost spans: { Spans }
    requires lifted { IsLiftedTo table.now spans }
    requires row { HasChoice table.now.case.model state choice }
    requires form { HasForm table.now.case (claim_of claim.now) }
    ensures { IsTrue result ↔ ((c : ℕ) → c < corner_count table.now.case state choice
        → IfSome (claim_of claim.now).ranking (λ r. IsFast table.now.case spans r state choice c)) }
{
    match claim.ranking {
        None => true,
        Some(ranking) => ranking.is_row_fast(table, state, choice),
    }
}

/// Whether the row passes at each of its corners.
fn is_row_passed(table: &CornerTable, claim: &Claim, state: u32, choice: u32) -> bool
    ghost spans: { Spans }
    requires lifted { IsLiftedTo table.now spans }
    requires row { HasChoice table.now.case.model state choice }
    requires form { HasForm table.now.case (claim_of claim.now) }
    ensures { IsTrue result ↔ PassesRow table.now.case spans (claim_of claim.now) state choice }
{
    if !is_row_met(table, claim, state, choice) {
        return false;
    }
    is_row_fast(table, claim, state, choice)
}

/// Whether each row of a state passes.
fn is_each_row_passed(table: &CornerTable, claim: &Claim, state: u32) -> bool
    ghost spans: { Spans }
    requires lifted { IsLiftedTo table.now spans }
    requires form { HasForm table.now.case (claim_of claim.now) }
    requires state { state < length table.now.case.model.states }
    ensures { IsTrue result ↔ ((a : ℕ) → a < length (choices table.now.case.model state)
        → PassesRow table.now.case spans (claim_of claim.now) state a) }
{
    for choice in 0..table.choice_count(state) {
        if !is_row_passed(table, claim, state, choice) {
            return false;
        }
    }
    true
}

/// Whether the rows that are tested of a state pass: the picked one, or each.
fn are_rows_passed(table: &CornerTable, claim: &Claim, state: u32) -> bool
    ghost spans: { Spans }
    requires lifted { IsLiftedTo table.now spans }
    requires form { HasForm table.now.case (claim_of claim.now) }
    requires inner { IsToBeTested table.now.case (claim_of claim.now) state }
    ensures { IsTrue result ↔ ((a : ℕ) → IsTested table.now.case (claim_of claim.now).picks state a
        → PassesRow table.now.case spans (claim_of claim.now) state a) }
{
    match claim.picks {
        None => is_each_row_passed(table, claim, state),
        Some(picks) => is_row_passed(table, claim, state, picks[state as usize]),
    }
}

/// Whether the state passes.
fn is_state_passed(table: &CornerTable, claim: &Claim, state: u32) -> bool
    ghost spans: { Spans }
    requires lifted { IsLiftedTo table.now spans }
    requires form { HasForm table.now.case (claim_of claim.now) }
    requires state { state < length table.now.case.model.states }
    ensures { IsTrue result ↔ PassesState table.now.case spans (claim_of claim.now) state }
{
    let case = table.case();
    if case.model().is_goal(state) {
        return claim.number(case, state) == claim.goal_number(case);
    }
    if claim.lacks_rank(case, state) {
        return claim.number(case, state) == 0;
    }
    are_rows_passed(table, claim, state)
}

/// Whether the initial state's number keeps to the limit, where there is one.
fn is_limit_kept(case: &Case, claim: &Claim) -> bool
    requires { HasForm case.now (claim_of claim.now) }
    ensures { IsTrue result ↔ IfSome (claim_of claim.now).limit
        (KeepsTo case.now.w (number claim.now.numbers.now case.now.model.init)) }
{
    rows_at_corners();
    match claim.limit {
        None => true,
        Some(limit) => {
            let init = case.model().init();
            limit.admits(limit.beside(claim.number(case, init), case.w()))
        }
    }
}

/// Whether the vector passes every test, which `meets` makes, over the table of a rectangle: one multiplication for each
/// entry and corner of a row that is tested.
pub(crate) fn passes(case: &Case, links: &Links, weights: &[i128], claim: &Claim) -> bool
    ghost spans: { Spans }
    requires places { ArePlaces case.now.model links.now }
    requires table { IsTable case.now links.now spans weights.now }
    requires form { HasForm case.now (claim_of claim.now) }
    ensures { IsTrue result ↔ Passes case.now spans (claim_of claim.now) }
{
    let model = case.model();
    let table = CornerTable::new(&*case, &*links, &*weights);
    for state in 0..model.states() {
        if !is_state_passed(&table, claim, state) {
            return false;
        }
    }
    is_limit_kept(case, claim)
}
