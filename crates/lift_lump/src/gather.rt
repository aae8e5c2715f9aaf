//! The number of each state's entries into a block.

ghost use Rattle.std.specs.Prelude.{◌≡◌, ◌≤◌, ◌<◌, ◌+◌, ℕ, List, false, length, All, OnOk, slice_index_or};
ghost use Rattle.lift_lump.specs.Search.{modulus, marked, arrows_into, IsArrow, AreVisited, AreMarked, AreNumbersOf, IsCountedIn};
ghost use Rattle.lift_lump.specs.declared.arrows.Arrow.{Arrow};

use crate::arrows::{Arrow, add_marks};
use crate::lists::Lists;
use std::alloc::AllocError;

/// Looks at a state: if it is of the block and wasn't marked, it is marked, and the marks of the arrows into it
/// are added.
fn count_in(
    into: &[Arrow],
    labels: &[u32],
    block: u32,
    t: u32,
    marks: &mut [bool],
    numbers: &mut [u64],
    visited: &mut Vec<u32>,
) -> Result<(), AllocError>
    requires arrows { All (IsArrow (length labels.now)) into.now }
    requires state { t < length labels.now }
    requires sizes { (length marks.old ≡ length labels.now) × (length numbers.old ≡ length labels.now) }
    requires below { All (λ n. n < modulus) numbers.old }
    ensures counted { OnOk result ((all : ℕ → List Arrow) → all t ≡ into.now
        → IsCountedIn all labels.now block t marks.old marks.new numbers.old numbers.new) }
    ensures visited { OnOk result (AreVisited numbers.old visited.old.items → AreVisited numbers.new visited.new.items) }
{
    let at = t as usize;
    if labels[at] != block || marks[at] {
        return Ok(());
    }
    marks[at] = true;
    add_marks(numbers, visited, into)
}

/// Sums the marks of the arrows into a block, whose states are among the members. States of the block are
/// marked on the way, so that one that stands twice counts once.
pub(crate) fn gather(
    arrows: &Lists<Arrow>,
    labels: &[u32],
    members: &[u32],
    block: u32,
    marks: &mut [bool],
    numbers: &mut [u64],
    visited: &mut Vec<u32>,
) -> Result<(), AllocError>
    requires count { length arrows.now ≡ length labels.now }
    requires arrows { All (All (IsArrow (length labels.now))) arrows.now }
    requires members { All (λ t. t < length labels.now) members.now }
    requires sizes { (length marks.old ≡ length labels.now) × (length numbers.old ≡ length labels.now) }
    requires unmarked { (u : ℕ) → marked marks.old u ≡ false }
    requires below { All (λ n. n < modulus) numbers.old }
    requires zero { (u : ℕ) → slice_index_or numbers.old u 0 ≡ 0 }
    ensures marked { OnOk result (AreMarked labels.now block members.now marks.new) }
    ensures numbers { OnOk result (AreNumbersOf (arrows_into arrows.now) marks.new numbers.new) }
    ensures size { OnOk result (length numbers.new ≡ length labels.now) }
    ensures visited { OnOk result (AreVisited numbers.new visited.new.items) }
{
    for t in members {
        let at = *t as usize;
        let into = arrows.list(at);
        count_in(into, labels, block, *t, marks, numbers, visited)?;
    }
    Ok(())
}
