//! The entries of a chain, seen from their targets, and their marks, summed state by state.

ghost use Rattle.std.specs.Prelude.{◌≡◌, ◌<◌, ◌∷◌, [], ℕ, true, false, All, length, IfOk, OnOk};
ghost use Rattle.lift_model.specs.Model.{is_goal, row_at};
ghost use Rattle.lift_lump.specs.Search.{modulus, whole, arrows_into, IsArrow, AreArrows, AreEntered, AreRaised, AreVisited};

use crate::lists::Lists;
use crate::marks::{MODULUS, mark_of};
use lift_model::{Entry, Model};
use std::alloc::{AllocError, Global};

/// An entry, seen from its target.
#[derive(Clone, Copy)]
pub struct Arrow {
    /// The state that it comes from.
    pub source: u32,
    /// The weight of its polynomial at a valuation, up to multiples of a prime.
    pub mark: u64,
}

/// Adds the mark of an arrow to the number of its source, which is noted if its number was 0.
fn add_mark(numbers: &mut [u64], visited: &mut Vec<u32>, arrow: Arrow) -> Result<(), AllocError>
    requires arrow { IsArrow (length numbers.old) arrow }
    requires below { All (λ n. n < modulus) numbers.old }
    ensures numbers { OnOk result (AreRaised numbers.old numbers.new (arrow ∷ [])) }
    ensures visited { OnOk result (AreVisited numbers.old visited.old.items → AreVisited numbers.new visited.new.items) }
{
    let at = arrow.source as usize;
    let number = numbers[at];
    if number == 0 {
        visited.push(arrow.source)?;
    }
    numbers[at] = (number + arrow.mark) % MODULUS;
    Ok(())
}

/// Adds the marks of arrows to the numbers of their sources. Those whose number was 0 are noted.
pub(crate) fn add_marks(
    numbers: &mut [u64],
    visited: &mut Vec<u32>,
    arrows: &[Arrow],
) -> Result<(), AllocError>
    requires arrows { All (IsArrow (length numbers.old)) arrows.now }
    requires below { All (λ n. n < modulus) numbers.old }
    ensures numbers { OnOk result (AreRaised numbers.old numbers.new arrows.now) }
    ensures visited { OnOk result (AreVisited numbers.old visited.old.items → AreVisited numbers.new visited.new.items) }
{
    for arrow in arrows {
        add_mark(numbers, visited, *arrow)?;
    }
    Ok(())
}

/// Empty lists, so many.
fn no_arrows(alloc: Global, count: u32) -> Result<Lists<Arrow>, AllocError>
    ensures count { IfOk result (λ lists. length lists ≡ count) }
    ensures none { IfOk result (λ lists. (t : ℕ) → arrows_into lists t ≡ []) }
{
    let mut lists = Lists::new(alloc);
    for _ in 0..count {
        lists.open(alloc)?;
    }
    Ok(lists)
}

/// Adds the arrows of a state's entries.
fn enter_row(
    lists: &mut Lists<Arrow>,
    point: &[u64],
    s: u32,
    row: &[Entry],
) -> Result<(), AllocError>
    requires state { s < length lists.old }
    requires targets { All (λ entry. entry.target < length lists.old) row.now }
    ensures { OnOk result (AreEntered (whole point.now) s row.now lists.old lists.new) }
{
    for entry in row {
        let mark = mark_of(point, &entry.poly);
        lists.push(entry.target as usize, Arrow { source: s, mark })?;
    }
    Ok(())
}

/// Adds the arrows of a state's entries, if it isn't a goal state.
fn enter(lists: &mut Lists<Arrow>, point: &[u64], model: &Model, s: u32) -> Result<(), AllocError>
    requires state { s < length model.now.states }
    requires count { length lists.old ≡ length model.now.states }
    ensures goal { is_goal model.now s ≡ true → OnOk result (lists.new ≡ lists.old) }
    ensures entered { is_goal model.now s ≡ false
        → OnOk result (AreEntered (whole point.now) s (row_at model.now s 0) lists.old lists.new) }
{
    let _common = model.common();
    if model.is_goal(s) {
        return Ok(());
    }
    enter_row(lists, point, s, model.row(s, 0).entries())?;
    Ok(())
}

/// The arrows of a chain, by their targets, with the marks at a point.
pub(crate) fn arrows_of(
    alloc: Global,
    point: &[u64],
    model: &Model,
) -> Result<Lists<Arrow>, AllocError>
    ensures count { IfOk result (λ lists. length lists ≡ length model.now.states) }
    ensures arrows { IfOk result (λ lists. All (All (IsArrow (length model.now.states))) lists) }
    ensures marks { IfOk result (λ lists. AreArrows model.now (whole point.now) (arrows_into lists)) }
{
    let mut lists = no_arrows(alloc, model.states())?;
    for s in 0..model.states() {
        enter(&mut lists, point, model, s)?;
    }
    Ok(lists)
}
