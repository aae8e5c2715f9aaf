//! The states that entries lead from into a block.

ghost use Rattle.std.specs.Prelude.{◌≡◌, ◌<◌, ◌∷◌, [], ℕ, List, All, length, IfOk, OnOk};
ghost use Rattle.lift_lump.specs.Search.{AreVisited, number_at};
ghost use Rattle.lift_lump.specs.Renaming.{AreTouched, AreSortedKeys, IsLookedAt, key_of, AreAllTouched, StandsIn};
ghost use Rattle.lift_lump.specs.Splitting.{AreAdded, AreGathered};

use std::alloc::{AllocError, Global};

/// A state that entries lead from into a set.
#[derive(Clone, Copy)]
pub struct Touched {
    /// Its block and its number, as one number.
    pub key: u128,
    /// The state.
    pub state: u32,
}

/// A state with its key.
fn keyed(labels: &[u32], numbers: &[u64], s: u32) -> Touched
    requires inside { s < length labels.now }
    requires sizes { length numbers.now ≡ length labels.now }
    ensures { result ≡ record { key = key_of labels.now numbers.now s; state = s } }
{
    let label = u128::from(labels[s as usize]);
    let number = u128::from(numbers[s as usize]);
    Touched {
        key: label * 18446744073709551616 + number,
        state: s,
    }
}

/// Adds a state with its key, if its number isn't 0.
fn touch(list: &mut Vec<Touched>, labels: &[u32], numbers: &[u64], s: u32) -> Result<(), AllocError>
    requires { length numbers.now ≡ length labels.now }
    ensures { OnOk result (IsLookedAt labels.now numbers.now s list.old.items list.new.items) }
{
    let at = s as usize;
    if at >= labels.len() || numbers[at] == 0 {
        return Ok(());
    }
    list.push(keyed(labels, numbers, s))?;
    Ok(())
}

/// The states whose number isn't 0.
pub(crate) fn touched_of(
    alloc: Global,
    labels: &[u32],
    numbers: &[u64],
    visited: &[u32],
) -> Result<Vec<Touched>, AllocError>
    requires sizes { length numbers.now ≡ length labels.now }
    requires visited { AreVisited numbers.now visited.now }
    ensures touched { IfOk result (λ list. AreTouched labels.now numbers.now list.items) }
    ensures all { IfOk result (λ list. AreAllTouched labels.now numbers.now list.items) }
    ensures only { IfOk result (λ list. (s : ℕ) → number_at numbers.now s ≡ 0 → StandsIn list.items s → ⊥) }
{
    let mut list = Vec::with_capacity(alloc, visited.len())?;
    for s in visited {
        touch(&mut list, labels, numbers, *s)?;
    }
    Ok(list)
}

/// Sorts touched states by block and number.
pub(crate) fn sort(touched: &mut Vec<Touched>)
    ensures sorted { AreSortedKeys touched.new.items }
    ensures stand { (s : ℕ) → StandsIn touched.new.items s → StandsIn touched.old.items s }
    ensures same { (labels numbers : List ℕ) (members : List (List ℕ))
        → AreGathered labels numbers members touched.old.items → AreGathered labels numbers members touched.new.items }
{
    touched.sort_unstable_by_key(|t| t.key);
}

/// Adds a state, if it is of the block and its number is 0.
fn add_one(
    list: &mut Vec<Touched>,
    labels: &[u32],
    numbers: &[u64],
    block: u32,
    s: u32,
) -> Result<(), AllocError>
    requires inside { s < length labels.now }
    requires sizes { length numbers.now ≡ length labels.now }
    ensures { OnOk result (AreAdded labels.now numbers.now block (s ∷ []) list.old.items list.new.items) }
{
    let at = s as usize;
    if labels[at] != block || numbers[at] != 0 {
        return Ok(());
    }
    list.push(keyed(labels, numbers, s))?;
    Ok(())
}

/// Adds those of these states that are of the block and whose number is 0.
pub(crate) fn add_rest(
    list: &mut Vec<Touched>,
    labels: &[u32],
    numbers: &[u64],
    block: u32,
    states: &[u32],
) -> Result<(), AllocError>
    requires inside { All (λ s. s < length labels.now) states.now }
    requires sizes { length numbers.now ≡ length labels.now }
    ensures { OnOk result (AreAdded labels.now numbers.now block states.now list.old.items list.new.items) }
{
    for s in states {
        add_one(list, labels, numbers, block, *s)?;
    }
    Ok(())
}
