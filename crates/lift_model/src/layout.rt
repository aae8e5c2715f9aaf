//! Where the rows of a model and their weights stand in flat lists.

ghost use Rattle.std.specs.Prelude.{◌≡◌, ◌+◌, ◌<◌, ◌++◌, ◌∷◌, [], length, OnOk, IfOk};
ghost use Rattle.lift_model.specs.Model.{ModelData, row_at};
ghost use Rattle.lift_model.specs.Links.{HasChoice, targets_of, all_targets};
ghost use Rattle.lift_model.specs.Layout.{IsLaid, AreRowStarts, AreCut};

use crate::blocks::{Blocks, corners_of};
use crate::model::Model;
use crate::row::Row;
use std::alloc::{AllocError, Global};

/// Where a row's targets and weights begin, and how many entries and corners it has.
#[derive(Clone, Copy)]
pub struct RowPlace {
    /// Where its targets begin among those of all rows.
    pub entries: u32,
    /// How many entries it has.
    pub count: u32,
    /// How many corners it has.
    pub corners: u32,
    /// Where its weights begin in a table.
    pub weights: u32,
}

/// The rows so far, their targets, and the blocks of their weights.
#[derive(Drop)]
pub struct Layout {
    /// The places of the rows.
    pub rows: Vec<RowPlace>,
    /// The targets of all rows.
    pub targets: Vec<u32>,
    /// The blocks.
    pub blocks: Blocks,
}

/// Where the rows and the targets of each state begin, and where the last ones end.
#[derive(Drop)]
pub struct Starts {
    /// The numbers of the first rows.
    pub rows: Vec<u32>,
    /// The places of the first targets.
    pub targets: Vec<u32>,
}

/// Appends the targets of a row.
fn push_targets(targets: &mut Vec<u32>, row: &Row) -> Result<(), AllocError>
    ensures { OnOk result (targets.new.items ≡ targets.old.items ++ targets_of row.now) }
{
    for entry in row.entries() {
        targets.push(entry.target)?;
    }
    Ok(())
}

/// Appends a row.
fn push_row(layout: &mut Layout, model: &Model, s: u32, a: u32) -> Result<(), AllocError>
    requires row { HasChoice model.now s a }
    requires laid { IsLaid model.now layout.old s a }
    ensures laid { OnOk result (IsLaid model.now layout.new s (a + 1)) }
    ensures targets { OnOk result (layout.new.targets.items ≡ layout.old.targets.items ++ targets_of (row_at model.now s a)) }
{
    let row = model.row(s, a);
    let weights = layout.blocks.place(model, s, a)?;
    layout.rows.push(RowPlace {
        entries: layout.targets.len() as u32,
        count: row.entries().len() as u32,
        corners: corners_of(row),
        weights,
    })?;
    push_targets(&mut layout.targets, row)?;
    Ok(())
}

/// Appends the rows of a state.
fn push_rows(layout: &mut Layout, model: &Model, s: u32) -> Result<(), AllocError>
    requires state { s < length model.now.states }
    requires laid { IsLaid model.now layout.old s 0 }
    ensures laid { OnOk result (IsLaid model.now layout.new (s + 1) 0) }
    ensures targets { OnOk result (layout.new.targets.items ≡ layout.old.targets.items ++ all_targets model.now s) }
{
    for a in 0..model.choices(s) {
        push_row(layout, model, s, a)?;
    }
    Ok(())
}

/// The number of rows.
fn count_rows(model: &Model) -> usize {
    let mut count = 0usize;
    for s in 0..model.states() {
        count = count.saturating_add(model.choices(s) as usize);
    }
    count
}

/// Appends the rows of all states, and tells where those of each begin.
fn push_states(layout: &mut Layout, starts: &mut Starts, model: &Model) -> Result<(), AllocError>
    requires laid { IsLaid model.now layout.old 0 0 }
    requires rows { AreRowStarts model.now starts.old.rows.items 0 }
    requires targets { AreCut model.now starts.old.targets.items layout.old.targets.items 0 }
    ensures laid { OnOk result (IsLaid model.now layout.new (length model.now.states) 0) }
    ensures rows { OnOk result (AreRowStarts model.now starts.new.rows.items (length model.now.states)) }
    ensures targets { OnOk result (AreCut model.now starts.new.targets.items layout.new.targets.items (length model.now.states)) }
{
    for s in 0..model.states() {
        push_rows(layout, model, s)?;
        starts.rows.push(layout.rows.len() as u32)?;
        starts.targets.push(layout.targets.len() as u32)?;
    }
    Ok(())
}

/// A layout without rows, with room for so many.
fn no_rows(alloc: Global, count: usize) -> Result<Layout, AllocError>
    ensures laid { (m : ModelData) → IfOk result (λ layout. IsLaid m layout 0 0) }
    ensures targets { IfOk result (λ layout. layout.targets.items ≡ []) }
{
    Ok(Layout {
        rows: Vec::with_capacity(alloc, count)?,
        targets: Vec::with_capacity(alloc, count.saturating_mul(2))?,
        blocks: Blocks::new(alloc, count)?,
    })
}

/// The beginnings before the first state.
fn no_starts(alloc: Global) -> Result<Starts, AllocError>
    ensures { IfOk result (λ starts. (starts.rows.items ≡ 0 ∷ []) × (starts.targets.items ≡ 0 ∷ [])) }
{
    Ok(Starts {
        rows: vec![in alloc; 0u32]?,
        targets: vec![in alloc; 0u32]?,
    })
}

/// Lays out the rows of all states.
pub(crate) fn lay_out(alloc: Global, model: &Model) -> Result<(Layout, Starts), AllocError>
    ensures laid { IfOk result (λ all. IsLaid model.now all.0 (length model.now.states) 0) }
    ensures rows { IfOk result (λ all. AreRowStarts model.now all.1.rows.items (length model.now.states)) }
    ensures targets { IfOk result (λ all. AreCut model.now all.1.targets.items all.0.targets.items (length model.now.states)) }
{
    let mut layout = no_rows(alloc, count_rows(model))?;
    let mut starts = no_starts(alloc)?;
    push_states(&mut layout, &mut starts, model)?;
    Ok((layout, starts))
}
