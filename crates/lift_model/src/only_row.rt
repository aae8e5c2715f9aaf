//! States with one short row, of which most models consist: what is looked up of the row stands in one place.

ghost use Rattle.std.specs.Prelude.{◌≡◌, slice_index_or, IfOk, IfSome};
ghost use Rattle.lift_model.specs.OnlyRow.{IsOnlyPlace, IsRowAt, IsOnlyRowIn, AreOnlyRowsIn};

use crate::layout::RowPlace;
use crate::lists::number_at;
use std::alloc::{AllocError, Global};

/// A row of two entries.
#[derive(Clone, Copy)]
pub struct PairRow {
    /// The target of the first entry.
    pub first: u32,
    /// The target of the second entry.
    pub second: u32,
    /// Where its weights begin in a table.
    pub weights: u32,
    /// How many corners it has.
    pub corners: u32,
}

/// The only row of a state, as far as it is short.
#[derive(Clone, Copy)]
pub enum OnlyRow {
    /// It has one entry, which leads to this other state.
    Single(u32),
    /// It has two entries, which lead to other states.
    Pair(PairRow),
    /// The state has more rows, or a longer one, or one that leads back to it; or nothing is known of it.
    Other,
}

/// Where the only row of a state stands, if it has only one.
fn only_place(starts: &[u32], rows: &[RowPlace], s: u32) -> Option<RowPlace>
    ensures { IfSome result (IsOnlyPlace starts.now rows.now s) }
{
    let start = number_at(starts, s as usize);
    let end = number_at(starts, s as usize + 1);
    if end.saturating_sub(start) != 1 {
        return None;
    }
    rows.get(start as usize).copied()
}

/// The row at that place, for a state that has no other.
fn row_at_place(targets: &[u32], place: RowPlace, s: u32) -> OnlyRow
    ensures { IsRowAt targets.now place s result }
{
    let entries = place.entries as usize;
    let first = number_at(targets, entries);
    if first == s {
        return OnlyRow::Other;
    }
    if place.count == 1 {
        return OnlyRow::Single(first);
    }
    let second = number_at(targets, entries + 1);
    if place.count != 2 || second == s {
        return OnlyRow::Other;
    }
    OnlyRow::Pair(PairRow {
        first,
        second,
        weights: place.weights,
        corners: place.corners,
    })
}

/// The only row of a state.
fn only_row_of(starts: &[u32], rows: &[RowPlace], targets: &[u32], s: u32) -> OnlyRow
    ensures { IsOnlyRowIn starts.now rows.now targets.now s result }
{
    match only_place(starts, rows, s) {
        Some(place) => row_at_place(targets, place, s),
        None => OnlyRow::Other,
    }
}

/// The only row of a state, and of none past the end.
#[inline(always)]
pub(crate) fn only_row_at(only: &[OnlyRow], s: usize) -> OnlyRow
    ensures { result ≡ slice_index_or only.now s OnlyRow.Other }
{
    only.get(s).copied().unwrap_or(OnlyRow::Other)
}

/// The only rows of so many states.
pub(crate) fn find_only_rows(
    alloc: Global,
    starts: &[u32],
    rows: &[RowPlace],
    targets: &[u32],
    states: u32,
) -> Result<Vec<OnlyRow>, AllocError>
    ensures { IfOk result (λ list. AreOnlyRowsIn starts.now rows.now targets.now list.items) }
{
    let mut list = Vec::with_capacity(alloc, states as usize)?;
    for s in 0..states {
        list.push(only_row_of(starts, rows, targets, s))?;
    }
    Ok(list)
}
