//! Quick tests of certificates, over a table of the rectangle's weights: they tell no miss.

ghost use Rattle.std.specs.Prelude.{◌≡◌, ◌<◌, ◌≤ℤ◌, ◌↔◌, ℕ, false, length, All, IsTrue};
ghost use Rattle.lift_grid.specs.Rectangle.{Spans};
ghost use Rattle.lift_model.specs.Links.{ArePlaces, HasChoice};
ghost use Rattle.lift_model.specs.Model.{is_goal};
ghost use Rattle.corner_lift.specs.Case.{corner_count};
ghost use Rattle.corner_lift.specs.Certificate.{AreNumbers, mark};
ghost use Rattle.corner_lift.specs.Table.{IsTable};
ghost use Rattle.corner_lift.specs.Lifted.{IsLiftedTo};
ghost use Rattle.lift_cert.specs.Certificate.{IsAccepting, IsRejecting};
ghost use Rattle.lift_cert.specs.Miss.{IsAcceptedRow, IsAcceptedState};
ghost use Rattle.lift_cert.specs.RejectMiss.{HasRejectForm, IsSupported, IsFast, IsHeldRow, IsHeldState};

use crate::bound::Bound;
use crate::certificate::Certificate;
use corner_lift::{
    Case, CornerTable, Weighed, corners_bound_weights, is_enough, one_at, rows_at_corners,
};
use lift_model::Links;

/// Whether each of these states has a lower rank than this one.
#[inline]
fn are_below(targets: &[u32], ranks: &[u32], below: u32) -> bool
    ensures { IsTrue result → All (λ t. mark ranks.now t < below) targets.now }
{
    for target in targets {
        let place = *target as usize;
        if place >= ranks.len() || ranks[place] >= below {
            return false;
        }
    }
    true
}

/// Whether the row of the state's choice passes at each of its corners.
fn is_row_accepted(table: &CornerTable, x: &[i64], state: u32, choice: u32) -> bool
    ghost spans: { Spans }
    requires lifted { IsLiftedTo table.now spans }
    requires row { HasChoice table.now.case.model state choice }
    requires numbers { AreNumbers table.now.case x.now }
    ensures { IsTrue result ↔ IsAcceptedRow table.now.case spans x.now state choice }
{
    rows_at_corners();
    let _ = table.case();
    table.is_capped(state, choice, x, x[state as usize])
}

/// Whether each row of an inner state passes.
fn are_rows_accepted(table: &CornerTable, x: &[i64], state: u32) -> bool
    ghost spans: { Spans }
    requires lifted { IsLiftedTo table.now spans }
    requires numbers { AreNumbers table.now.case x.now }
    requires state { state < length table.now.case.model.states }
    requires inner { is_goal table.now.case.model state ≡ false }
    ensures { IsTrue result ↔ IsAcceptedState table.now.case spans x.now state }
{
    for choice in 0..table.choice_count(state) {
        if !is_row_accepted(table, x, state, choice) {
            return false;
        }
    }
    true
}

/// Whether the state passes.
fn is_state_accepted(table: &CornerTable, x: &[i64], state: u32) -> bool
    ghost spans: { Spans }
    requires lifted { IsLiftedTo table.now spans }
    requires numbers { AreNumbers table.now.case x.now }
    requires state { state < length table.now.case.model.states }
    ensures { IsTrue result ↔ IsAcceptedState table.now.case spans x.now state }
{
    rows_at_corners();
    let case = table.case();
    if case.model().is_goal(state) {
        return x[state as usize] == one_at(case.w());
    }
    are_rows_accepted(table, x, state)
}

/// Whether `x` is an accepting certificate of the rectangle whose table `weights` is: what
/// `meets_accept` tests, with one multiplication for each entry of a row and corner.
///
/// The rectangle lies inside the root, `links` are those of the case's model, and `x` has a number from
/// 0 to 2^w for each state. Takes no memory. The rows of goal states aren't looked at.
pub fn is_accepting(case: &Case, links: &Links, weights: &[i128], bound: Bound, x: &[i64]) -> bool
    ghost spans: { Spans }
    requires places { ArePlaces case.now.model links.now }
    requires table { IsTable case.now links.now spans weights.now }
    requires numbers { AreNumbers case.now x.now }
    ensures { IsTrue result ↔ IsAccepting case.now spans bound x.now }
{
    rows_at_corners();
    let model = case.model();
    let table = CornerTable::new(&*case, &*links, &*weights);
    for state in 0..model.states() {
        if !is_state_accepted(&table, x, state) {
            return false;
        }
    }
    bound.admits(x[model.init() as usize], case.w())
}

/// Whether a ranked state's number is at most the mean at each corner of the row that it picks.
fn is_row_supported(table: &CornerTable, r: &Certificate, state: u32, choice: u32) -> bool
    ghost spans: { Spans }
    requires lifted { IsLiftedTo table.now spans }
    requires row { HasChoice table.now.case.model state choice }
    requires form { HasRejectForm table.now.case r.now }
    ensures { IsTrue result ↔ ((c : ℕ) → c < corner_count table.now.case state choice
        → IsSupported table.now.case spans r.now state choice c) }
{
    rows_at_corners();
    let number = r.number(table.case(), state);
    table.is_held(state, choice, r.numbers(), number)
}

/// Whether each corner of the row that a ranked state picks has enough weight into lower ranks. Where all
/// targets have lower ranks, all of the weight leads there.
fn is_row_fast(table: &CornerTable, r: &Certificate, state: u32, choice: u32) -> bool
    ghost spans: { Spans }
    requires lifted { IsLiftedTo table.now spans }
    requires row { HasChoice table.now.case.model state choice }
    requires form { HasRejectForm table.now.case r.now }
    ensures { IsTrue result ↔ ((c : ℕ) → c < corner_count table.now.case state choice
        → IsFast table.now.case spans r.now state choice c) }
{
    rows_at_corners();
    corners_bound_weights();
    let rank = r.rank(table.case(), state);
    let ranks = r.ranks();
    if are_below(table.targets(state, choice), ranks, rank) {
        return true;
    }
    let Weighed { sum, whole } = table.least_into(state, choice, ranks, rank);
    is_enough(sum, r.e(), whole)
}

/// Whether the row that a ranked state picks passes at each of its corners.
fn is_row_held(table: &CornerTable, r: &Certificate, state: u32, choice: u32) -> bool
    ghost spans: { Spans }
    requires lifted { IsLiftedTo table.now spans }
    requires row { HasChoice table.now.case.model state choice }
    requires form { HasRejectForm table.now.case r.now }
    ensures { IsTrue result ↔ IsHeldRow table.now.case spans r.now state choice }
{
    if !is_row_supported(table, r, state, choice) {
        return false;
    }
    is_row_fast(table, r, state, choice)
}

/// Whether the state passes.
fn is_state_held(table: &CornerTable, r: &Certificate, state: u32) -> bool
    ghost spans: { Spans }
    requires lifted { IsLiftedTo table.now spans }
    requires form { HasRejectForm table.now.case r.now }
    requires state { state < length table.now.case.model.states }
    ensures { IsTrue result ↔ IsHeldState table.now.case spans r.now state }
{
    rows_at_corners();
    let case = table.case();
    if case.model().is_goal(state) {
        return r.number(case, state) == one_at(case.w());
    }
    if !r.is_ranked(case, state) {
        return r.number(case, state) == 0;
    }
    let choice = r.pick(case, state);
    is_row_held(table, r, state, choice)
}

/// Whether that is a rejecting certificate of the rectangle whose table `weights` is: what `meets_reject`
/// tests, with one multiplication for each entry of a picked row and corner.
///
/// The rectangle lies inside the root, `links` are those of the case's model, and the certificate has
/// the form that `meets_reject` asks for. Takes no memory. The rows of goal states, and those that
/// aren't picked, aren't looked at.
pub fn is_rejecting(
    case: &Case,
    links: &Links,
    weights: &[i128],
    bound: Bound,
    r: &Certificate,
) -> bool
    ghost spans: { Spans }
    requires places { ArePlaces case.now.model links.now }
    requires table { IsTable case.now links.now spans weights.now }
    requires form { HasRejectForm case.now r.now }
    ensures { IsTrue result ↔ IsRejecting case.now spans bound r.now }
{
    rows_at_corners();
    let model = case.model();
    let table = CornerTable::new(&*case, &*links, &*weights);
    for state in 0..model.states() {
        if !is_state_held(&table, r, state) {
            return false;
        }
    }
    !bound.admits(r.number(case, model.init()), case.w())
}
