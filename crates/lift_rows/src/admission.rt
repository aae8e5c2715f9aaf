ghost use Rattle.std.specs.Prelude.{◌≡◌, ◌<◌, ◌≤◌, ◌↔◌, length, IsOk, IfOk, IfErr, MatchResult};
ghost use Rattle.std.specs.Bool.{OnTrue};
ghost use Rattle.lift_grid.specs.Rectangle.{IsOnGrid};
ghost use Rattle.lift_grid.specs.Parts.{region_of};
ghost use Rattle.lift_model.specs.Model.{choices, row_at};
ghost use Rattle.lift_model.specs.Links.{ArePlaces};
ghost use Rattle.corner_lift.specs.Case.{SumsToOne, IsNarrow, IsNowhereNegative, IsAdmittedRow, IsAdmitted, case_of, row_parameters, most_row_parameters, most_halvings, most_precision};
ghost use Rattle.lift_rows.specs.Admitted.{HasWeightsFromZero, HasSumsOfTotal};
ghost use Rattle.lift_rows.specs.Fault.{IsRowFault, IsFirstFault, HasSmallNumber};

use crate::candidate::Candidate;
use crate::error::RowError;
use crate::sums::sum_fault;
use crate::weights::first_negative;
use crate::width::is_narrow;
use corner_lift::{Case, rows_at_corners, rows_inside};
use lift_grid::{Grid, Rect};
use lift_model::{Links, Model};

/// `most_row_parameters`: how many parameters may occur in a row.
const MOST_PARAMETERS: u32 = 4;

/// Tests that the coefficients of the row sum to what is due.
fn test_sums(asked: &Candidate, state: u32, choice: u32) -> Result<(), RowError>
    requires state { state < length asked.now.model.states }
    requires choice { choice < length (choices asked.now.model state) }
    ensures fault { let k = asked.now in let row = row_at k.model state choice in
        MatchResult result (λ _. SumsToOne k.model.common row) (IsRowFault k state choice row) }
    ensures number { IfErr result HasSmallNumber }
{
    let model = asked.model();
    match sum_fault(model.common(), model.row(state, choice)) {
        Some((set, sum)) => Err(RowError::RowSum {
            state,
            choice,
            set,
            sum,
        }),
        None => Ok(()),
    }
}

/// Tests that few parameters occur in the row.
fn test_count(asked: &Candidate, state: u32, choice: u32) -> Result<(), RowError>
    requires state { state < length asked.now.model.states }
    requires choice { choice < length (choices asked.now.model state) }
    requires sums { SumsToOne asked.now.model.common (row_at asked.now.model state choice) }
    ensures fault { let k = asked.now in let row = row_at k.model state choice in
        MatchResult result (λ _. row_parameters k row ≤ most_row_parameters) (IsRowFault k state choice row) }
    ensures number { IfErr result HasSmallNumber }
{
    rows_at_corners();
    let count = asked.model().row(state, choice).support().count_ones();
    if count > MOST_PARAMETERS {
        Err(RowError::RowParameters {
            state,
            choice,
            count,
        })
    } else {
        Ok(())
    }
}

/// Tests that the row is narrow.
fn test_width(asked: &Candidate, state: u32, choice: u32) -> Result<(), RowError>
    requires state { state < length asked.now.model.states }
    requires choice { choice < length (choices asked.now.model state) }
    requires sums { SumsToOne asked.now.model.common (row_at asked.now.model state choice) }
    requires few { row_parameters asked.now (row_at asked.now.model state choice) ≤ most_row_parameters }
    ensures fault { let k = asked.now in let row = row_at k.model state choice in
        MatchResult result (λ _. IsNarrow k row) (IsRowFault k state choice row) }
    ensures number { IfErr result HasSmallNumber }
{
    rows_at_corners();
    let row = asked.model().row(state, choice);
    if is_narrow(asked, row, row.support().count_ones()) {
        Ok(())
    } else {
        Err(RowError::TooWide { state, choice })
    }
}

/// Tests that no entry of the row weighs less than 0 at a corner.
fn test_weights(asked: &Candidate, state: u32, choice: u32) -> Result<(), RowError>
    requires state { state < length asked.now.model.states }
    requires choice { choice < length (choices asked.now.model state) }
    requires sums { SumsToOne asked.now.model.common (row_at asked.now.model state choice) }
    requires few { row_parameters asked.now (row_at asked.now.model state choice) ≤ most_row_parameters }
    requires narrow { IsNarrow asked.now (row_at asked.now.model state choice) }
    ensures fault { let k = asked.now in let row = row_at k.model state choice in
        MatchResult result (λ _. IsNowhereNegative k row) (IsRowFault k state choice row) }
    ensures number { IfErr result HasSmallNumber }
{
    let Some(negative) = first_negative(asked, state, choice) else {
        return Ok(());
    };
    let entries = asked.model().row(state, choice).entries();
    Err(RowError::Negative {
        state,
        choice,
        target: entries[negative.entry as usize].target,
        corner: negative.corner,
        weight: negative.weight,
    })
}

/// Tests the row of a state's choice: its sums, its number of parameters, its width, its weights.
fn test_row(asked: &Candidate, state: u32, choice: u32) -> Result<(), RowError>
    requires state { state < length asked.now.model.states }
    requires choice { choice < length (choices asked.now.model state) }
    ensures fault { let k = asked.now in let row = row_at k.model state choice in
        MatchResult result (λ _. IsAdmittedRow k row) (IsRowFault k state choice row) }
    ensures number { IfErr result HasSmallNumber }
{
    test_sums(asked, state, choice)?;
    test_count(asked, state, choice)?;
    test_width(asked, state, choice)?;
    test_weights(asked, state, choice)
}

/// Whether the first row of each block is admitted, and so is every row, since rows of a block have the
/// same polynomials.
fn firsts_pass(asked: &Candidate, links: &Links) -> bool
    requires { ArePlaces asked.now.model links.now }
    ensures { OnTrue result (IsAdmitted asked.now) }
{
    for first in links.firsts() {
        if test_row(asked, first.state, first.choice).is_err() {
            return false;
        }
    }
    true
}

/// The case of a model over a root, or the first fault of its rows, which are tested by state and
/// choice. A row is tested in this order: its coefficients at a set of parameters sum to the common
/// denominator or to 0 (`RowSum`); at most 4 parameters occur in it (`RowParameters`); with A the sum of
/// its coefficients' sizes, B the greatest size among the grid's number and the root's ends, and g
/// parameters in it, A·B^g·2^w is below 2^126 (`TooWide`); no entry weighs less than 0 at a corner of
/// the root (`Negative`). The numbers of a refusal are above -2^126 and below 2^126.
///
/// The root has a span for each declared parameter and is on the grid, whose depth is at most 20, and
/// `w` is from 1 to 40. Takes no memory. It goes over a row's terms once for each block of 256 sets that
/// has sets of its parameters, once for its width, and once for each of its corners.
pub fn admit<'m>(model: &'m Model, root: &'m Rect, grid: Grid, w: u32) -> Result<Case<'m>, RowError>
    requires grid { IsOnGrid grid.d grid.depth (length model.now.names) root.now }
    requires depth { grid.depth ≤ most_halvings }
    requires precision { (1 ≤ w) × (w ≤ most_precision) }
    ensures case { IfOk result (λ c. c ≡ case_of model.now (region_of (grid, root.now)) w) }

    // Ok exactly where each row is admitted, and else the first fault.
    ensures admitted { IsOk result ↔ IsAdmitted (case_of model.now (region_of (grid, root.now)) w) }
    ensures fault { IfErr result (IsFirstFault (case_of model.now (region_of (grid, root.now)) w)) }
    ensures number { IfErr result HasSmallNumber }

    // At every valuation inside the root each row is then a distribution.
    ensures weights { IfOk result HasWeightsFromZero }
    ensures sums { IfOk result HasSumsOfTotal }
{
    let states = model.states();
    // What a root's sides are and what holds of rows inside, for the proof.
    let _ = root.sides();
    rows_inside();
    let asked = Candidate::new(model, root, grid, w);
    for s in 0..states {
        for a in 0..model.choices(s) {
            test_row(&asked, s, a)?;
        }
    }
    Ok(Case::new(model, root, grid, w))
}

/// The same by the model's links: of rows with the same polynomials one is tested. All rows are gone
/// over in turn only where one isn't admitted, to tell the first fault.
pub fn admit_linked<'m>(
    model: &'m Model,
    root: &'m Rect,
    grid: Grid,
    w: u32,
    links: &Links,
) -> Result<Case<'m>, RowError>
    requires grid { IsOnGrid grid.d grid.depth (length model.now.names) root.now }
    requires depth { grid.depth ≤ most_halvings }
    requires precision { (1 ≤ w) × (w ≤ most_precision) }
    requires places { ArePlaces model.now links.now }
    ensures case { IfOk result (λ c. c ≡ case_of model.now (region_of (grid, root.now)) w) }

    // Ok exactly where each row is admitted, and else the first fault.
    ensures admitted { IsOk result ↔ IsAdmitted (case_of model.now (region_of (grid, root.now)) w) }
    ensures fault { IfErr result (IsFirstFault (case_of model.now (region_of (grid, root.now)) w)) }
    ensures number { IfErr result HasSmallNumber }

    // At every valuation inside the root each row is then a distribution.
    ensures weights { IfOk result HasWeightsFromZero }
    ensures sums { IfOk result HasSumsOfTotal }
{
    let _ = model.states();
    // What a root's sides are and what holds of rows inside, for the proof.
    let _ = root.sides();
    rows_inside();
    let asked = Candidate::new(model, root, grid, w);
    if firsts_pass(&asked, links) {
        Ok(Case::new(model, root, grid, w))
    } else {
        admit(model, root, grid, w)
    }
}
