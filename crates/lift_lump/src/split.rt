//! The search for the coarsest right partition: each block is taken once, and all blocks are split by their states'
//! entries into it.

ghost use Rattle.std.specs.Prelude.{◌≡◌, ◌≢◌, ◌<◌, ◌≤◌, ◌+◌, ◌^◌, ℕ, true, false, length, All, Contains, IfOk, OnOk, slice_index_or};
ghost use Rattle.lift_lump.specs.Search.{marked, number_at, arrows_into, IsArrow, AreVisited, IsByNumber};
ghost use Rattle.lift_lump.specs.Splitting.{AreInside, AreUsed, AreFew, AreListed, AreClear, AreTelling, IsKeptAbove, HaveNone};

use crate::arrows::Arrow;
use crate::gather::gather;
use crate::laws::coarsest_is_one;
use crate::lists::Lists;
use crate::partition::{Partition, add_rests, regroup};
use crate::touch::{sort, touched_of};
use std::alloc::{AllocError, Global};

/// What a split writes down of each state. Between splits all is 0.
#[derive(Drop)]
pub struct Room {
    /// The number of its entries into the block.
    pub numbers: Vec<u64>,
    /// Whether it is of the block.
    pub marks: Vec<bool>,
    /// The states whose number isn't 0.
    pub visited: Vec<u32>,
}

impl Room {
    /// The room for so many states.
    pub(crate) fn new(alloc: Global, states: usize) -> Result<Room, AllocError>
        ensures { IfOk result (λ r. AreClear states r.numbers.items r.marks.items) }
    {
        Ok(Room {
            numbers: vec![in alloc; 0; states]?,
            marks: vec![in alloc; false; states]?,
            visited: Vec::new(alloc),
        })
    }
}

/// Unmarks these states.
fn unmark(states: &[u32], marks: &mut [bool])
    requires states { All (λ s. s < length marks.old) states.now }
    requires marks { (u : ℕ) → marked marks.old u ≡ true → Contains states.now u }
    ensures { (u : ℕ) → marked marks.new u ≡ false }
{
    for s in states {
        marks[*s as usize] = false;
    }
}

/// Sets the number of a state to 0.
fn clear_one(numbers: &mut [u64], s: u32)
    ensures { (u : ℕ) → number_at numbers.new u ≢ 0 → (number_at numbers.old u ≢ 0) × (u ≢ s) }
{
    let at = s as usize;
    if at < numbers.len() {
        numbers[at] = 0;
    }
}

/// Sets the numbers of these states to 0.
fn clear(states: &[u32], numbers: &mut [u64])
    requires states { AreVisited numbers.old states.now }
    ensures { (u : ℕ) → number_at numbers.new u ≡ 0 }
{
    for s in states {
        clear_one(numbers, *s);
    }
}

/// Finds the numbers of the states' entries into a block.
fn count(
    arrows: &Lists<Arrow>,
    part: &Partition,
    block: u32,
    room: &mut Room,
) -> Result<(), AllocError>
    requires block { block < length part.now.members }
    requires count { length arrows.now ≡ length part.now.labels.items }
    requires arrows { All (All (IsArrow (length part.now.labels.items))) arrows.now }
    requires inside { AreInside part.now.labels.items part.now.sizes.items part.now.members }
    requires listed { AreListed part.now.labels.items part.now.members }
    requires clear { AreClear (length part.now.labels.items) room.old.numbers.items room.old.marks.items }
    ensures size { OnOk result (length room.new.numbers.items ≡ length part.now.labels.items) }
    ensures unmarked { OnOk result ((u : ℕ) → marked room.new.marks.items u ≡ false) }
    ensures marks { OnOk result (length room.new.marks.items ≡ length part.now.labels.items) }
    ensures visited { OnOk result (AreVisited room.new.numbers.items room.new.visited.items) }
    ensures telling { OnOk result (AreTelling (arrows_into arrows.now) part.now.labels.items room.new.numbers.items) }
{
    coarsest_is_one();
    let states = part.members.list(block as usize);
    gather(
        arrows,
        &part.labels,
        states,
        block,
        &mut room.marks,
        &mut room.numbers,
        &mut room.visited,
    )?;
    unmark(states, &mut room.marks);
    Ok(())
}

/// Splits blocks by the numbers of their states, those whose number isn't 0 being given.
pub(crate) fn split_by(
    alloc: Global,
    part: &mut Partition,
    numbers: &[u64],
    visited: &[u32],
) -> Result<(), AllocError>
    requires sizes { length numbers.now ≡ length part.old.labels.items }
    requires visited { AreVisited numbers.now visited.now }
    requires states { length part.old.labels.items + 1 < 2 ^ 32 }
    requires inside { AreInside part.old.labels.items part.old.sizes.items part.old.members }
    requires used { AreUsed part.old.labels.items (length part.old.members) }
    requires listed { AreListed part.old.labels.items part.old.members }
    ensures inside { OnOk result (AreInside part.new.labels.items part.new.sizes.items part.new.members) }
    ensures used { OnOk result (AreUsed part.new.labels.items (length part.new.members)) }
    ensures few { OnOk result (AreFew part.new.labels.items (length part.new.members)) }
    ensures listed { OnOk result (AreListed part.new.labels.items part.new.members) }
    ensures size { OnOk result (length part.new.labels.items ≡ length part.old.labels.items) }
    ensures count { OnOk result (length part.old.members ≤ length part.new.members) }
    ensures numbers { OnOk result (IsByNumber (length part.old.labels.items) (λ s. slice_index_or part.old.labels.items s 0)
        numbers.now (λ s. slice_index_or part.new.labels.items s 0)) }
{
    let mut touched = touched_of(alloc, &part.labels, numbers, visited)?;
    sort(&mut touched);
    add_rests(alloc, &mut touched, part, numbers)?;
    sort(&mut touched);
    regroup(alloc, &touched, part)?;
    Ok(())
}

/// Splits blocks by the numbers of their states, of which some aren't 0. Those whose number is 0 keep their labels, and
/// each of these labels has some, so new ones come up.
pub(crate) fn split_off(
    alloc: Global,
    part: &mut Partition,
    numbers: &[u64],
    visited: &[u32],
) -> Result<(), AllocError>
    requires sizes { length numbers.now ≡ length part.old.labels.items }
    requires visited { AreVisited numbers.now visited.now }
    requires some { 0 < length visited.now }
    requires others { All (λ s. (s < length numbers.now) × (number_at numbers.now s ≢ 0)) visited.now }
    requires none { HaveNone part.old.labels.items numbers.now }
    requires states { length part.old.labels.items + 1 < 2 ^ 32 }
    requires inside { AreInside part.old.labels.items part.old.sizes.items part.old.members }
    requires used { AreUsed part.old.labels.items (length part.old.members) }
    requires listed { AreListed part.old.labels.items part.old.members }
    ensures inside { OnOk result (AreInside part.new.labels.items part.new.sizes.items part.new.members) }
    ensures used { OnOk result (AreUsed part.new.labels.items (length part.new.members)) }
    ensures few { OnOk result (AreFew part.new.labels.items (length part.new.members)) }
    ensures listed { OnOk result (AreListed part.new.labels.items part.new.members) }
    ensures size { OnOk result (length part.new.labels.items ≡ length part.old.labels.items) }
    ensures more { OnOk result (length part.old.members < length part.new.members) }
    ensures numbers { OnOk result (IsByNumber (length part.old.labels.items) (λ s. slice_index_or part.old.labels.items s 0)
        numbers.now (λ s. slice_index_or part.new.labels.items s 0)) }
{
    let mut touched = touched_of(alloc, &part.labels, numbers, visited)?;
    sort(&mut touched);
    regroup(alloc, &touched, part)?;
    Ok(())
}

/// Splits all blocks by their states' entries into one of them.
fn split(
    alloc: Global,
    arrows: &Lists<Arrow>,
    part: &mut Partition,
    block: u32,
    room: &mut Room,
) -> Result<(), AllocError>
    requires block { block < length part.old.members }
    requires count { length arrows.now ≡ length part.old.labels.items }
    requires arrows { All (All (IsArrow (length part.old.labels.items))) arrows.now }
    requires states { length part.old.labels.items + 1 < 2 ^ 32 }
    requires inside { AreInside part.old.labels.items part.old.sizes.items part.old.members }
    requires used { AreUsed part.old.labels.items (length part.old.members) }
    requires listed { AreListed part.old.labels.items part.old.members }
    requires clear { AreClear (length part.old.labels.items) room.old.numbers.items room.old.marks.items }
    ensures inside { OnOk result (AreInside part.new.labels.items part.new.sizes.items part.new.members) }
    ensures used { OnOk result (AreUsed part.new.labels.items (length part.new.members)) }
    ensures few { OnOk result (AreFew part.new.labels.items (length part.new.members)) }
    ensures listed { OnOk result (AreListed part.new.labels.items part.new.members) }
    ensures size { OnOk result (length part.new.labels.items ≡ length part.old.labels.items) }
    ensures count { OnOk result (length part.old.members ≤ length part.new.members) }
    ensures clear { OnOk result (AreClear (length part.old.labels.items) room.new.numbers.items room.new.marks.items) }
    ensures kept { OnOk result (IsKeptAbove (arrows_into arrows.now) part.old.labels.items part.new.labels.items) }
{
    count(arrows, part, block, room)?;
    split_by(alloc, part, &room.numbers, &room.visited)?;
    clear(&room.visited, &mut room.numbers);
    room.visited.clear();
    Ok(())
}

/// Takes the blocks from that label on, one after another, those that come up on the way too, and splits all blocks
/// by each. Of a block that was taken all parts but one come up with labels of their own. So where blocks are
/// split by all labels they are split by every part too.
pub(crate) fn search(
    alloc: Global,
    arrows: &Lists<Arrow>,
    part: &mut Partition,
    from: u32,
    room: &mut Room,
) -> Result<(), AllocError>
    requires count { length arrows.now ≡ length part.old.labels.items }
    requires arrows { All (All (IsArrow (length part.old.labels.items))) arrows.now }
    requires states { length part.old.labels.items + 1 < 2 ^ 32 }
    requires inside { AreInside part.old.labels.items part.old.sizes.items part.old.members }
    requires used { AreUsed part.old.labels.items (length part.old.members) }
    requires listed { AreListed part.old.labels.items part.old.members }
    requires clear { AreClear (length part.old.labels.items) room.old.numbers.items room.old.marks.items }
    ensures inside { OnOk result (AreInside part.new.labels.items part.new.sizes.items part.new.members) }
    ensures used { OnOk result (AreUsed part.new.labels.items (length part.new.members)) }
    ensures few { OnOk result (AreFew part.new.labels.items (length part.new.members)) }
    ensures listed { OnOk result (AreListed part.new.labels.items part.new.members) }
    ensures size { OnOk result (length part.new.labels.items ≡ length part.old.labels.items) }
    ensures count { OnOk result (length part.old.members ≤ length part.new.members) }
    ensures clear { OnOk result (AreClear (length part.old.labels.items) room.new.numbers.items room.new.marks.items) }
    ensures kept { OnOk result (IsKeptAbove (arrows_into arrows.now) part.old.labels.items part.new.labels.items) }
{
    for block in from..u32::MAX {
        if block as usize >= part.members.len() {
            break;
        }
        split(alloc, arrows, part, block, room)?;
    }
    Ok(())
}
