//! Which states lead to a state, in parts of one flat list.

ghost use Rattle.std.specs.Prelude.{◌≡◌, ℕ, ◌+◌, ◌<◌, ◌≤◌, ◌^◌, ◌∷◌, [], length, sum, true, false, All, IfOk};
ghost use Rattle.lift_model.specs.Valid.{most_states};
ghost use Rattle.lift_model.specs.Before.{at as number_in, count_of, AreSums, ArePlaced, HaveRoom, AreEntered, HasLast, AreCuts, AreListed, AreSources, AreFirst, part};

use std::alloc::{AllocError, Global};

/// The states that lead to each state, each list a part of one flat list.
#[derive(Drop)]
pub struct Sources {
    /// Where each part begins, and after the last one where its room ends.
    pub starts: Vec<u32>,
    /// Where each part ends.
    pub ends: Vec<u32>,
    /// The flat list.
    pub states: Vec<u32>,
}

/// Adds to each count how often its number is in the list.
fn count_targets(counts: &mut [u32], targets: &[u32])
    requires small { length targets.now < 2 ^ 32 }
    requires inside { All (λ t. t < length counts.old) targets.now }
    requires zero { (u : ℕ) → number_in counts.old u ≡ 0 }
    ensures { (u : ℕ) → u < length counts.old → number_in counts.new u ≡ count_of u targets.now }
{
    for target in targets {
        counts[*target as usize] += 1;
    }
}

/// The sums of the counts before each place, and of all.
fn sum_counts(alloc: Global, counts: &[u32]) -> Result<Vec<u32>, AllocError>
    requires { sum counts.now < 2 ^ 32 }
    ensures { IfOk result (λ starts. AreSums starts.items counts.now (length counts.now)) }
{
    let mut starts = vec![in alloc; 0u32]?;
    let mut sum = 0u32;
    for count in counts {
        sum += *count;
        starts.push(sum)?;
    }
    Ok(starts)
}

/// Whether the state is the last of a part.
fn is_last(states: &[u32], start: u32, end: u32, s: u32) -> bool
    requires { end ≤ length states.now }
    ensures yes { result ≡ true → HasLast states.now start end s }
    ensures no { result ≡ false → ¬ HasLast states.now start end s }
{
    start < end && states[end as usize - 1] == s
}

/// Enters the state `s` at one of its targets, where it isn't there.
fn enter(starts: &[u32], ends: &mut [u32], states: &mut [u32], target: u32, s: u32)
    requires placed { ArePlaced starts.now ends.old (length states.old) (length ends.old) }
    requires target { target < length ends.old }
    requires room { number_in ends.old target < number_in starts.now (target + 1) }
    ensures { AreEntered starts.now ends.old states.old ends.new states.new (length ends.old) s (target ∷ []) }
{
    let at = target as usize;
    let end = ends[at];
    if is_last(states, starts[at], end, s) {
        return;
    }
    states[end as usize] = s;
    ends[at] = end + 1;
}

/// Enters the state `s` at each of these targets.
fn enter_all(starts: &[u32], ends: &mut [u32], states: &mut [u32], targets: &[u32], s: u32)
    requires placed { ArePlaced starts.now ends.old (length states.old) (length ends.old) }
    requires targets { All (λ t. t < length ends.old) targets.now }
    requires room { HaveRoom starts.now ends.old (length ends.old) targets.now }
    ensures { AreEntered starts.now ends.old states.old ends.new states.new (length ends.old) s targets.now }
{
    for target in targets {
        enter(starts, ends, states, *target, s);
    }
}

/// Enters each state at its targets.
fn enter_states(starts: &[u32], ends: &mut [u32], states: &mut [u32], targets: &[u32], cuts: &[u32])
    requires placed { ArePlaced starts.now ends.old (length states.old) (length ends.old) }
    requires empty { (u : ℕ) → u < length ends.old → number_in ends.old u ≡ number_in starts.now u }
    requires targets { All (λ t. t < length ends.old) targets.now }
    requires room { HaveRoom starts.now ends.old (length ends.old) targets.now }
    requires cuts { AreCuts cuts.now (length ends.old) (length targets.now) }
    requires small { length ends.old ≤ most_states }
    ensures placed { ArePlaced starts.now ends.new (length states.new) (length ends.old) }
    ensures listed { AreListed (length ends.old) targets.now cuts.now (part starts.now ends.new states.new) (length ends.old) }
{
    for s in 0..ends.len() {
        enter_all(
            starts,
            ends,
            states,
            &targets[cuts[s] as usize..cuts[s + 1] as usize],
            s as u32,
        );
    }
}

/// Whether none of these positions lies before that one.
fn is_first(positions: &[u32], position: u32) -> bool
    ensures { result ≡ true → All (λ p. position ≤ p) positions.now }
{
    for p in positions {
        if *p < position {
            return false;
        }
    }
    true
}

/// Tells for each position whether none in its part of the flat list lies before it.
pub(crate) fn find_first(
    alloc: Global,
    positions: &[u32],
    starts: &[u32],
    ends: &[u32],
    before: &[u32],
) -> Result<Vec<bool>, AllocError>
    requires { ArePlaced starts.now ends.now (length before.now) (length positions.now) }
    ensures { IfOk result (λ list. AreFirst positions.now (part starts.now ends.now before.now) list.items) }
{
    let mut list = Vec::with_capacity(alloc, positions.len())?;
    for s in 0..positions.len() {
        let part = &before[starts[s] as usize..ends[s] as usize];
        list.push(is_first(part, positions[s]))?;
    }
    Ok(list)
}

/// The states that lead to each of so many states. Their targets stand cut into those of each state.
pub(crate) fn find_sources(
    alloc: Global,
    count: usize,
    targets: &[u32],
    cuts: &[u32],
) -> Result<Sources, AllocError>
    requires count { (1 ≤ count) × (count ≤ most_states) }
    requires small { length targets.now < 2 ^ 32 }
    requires targets { All (λ t. t < count) targets.now }
    requires cuts { AreCuts cuts.now count (length targets.now) }
    ensures { IfOk result (λ all. AreSources count targets.now cuts.now all.starts.items all.ends.items all.states.items) }
{
    let mut counts = vec![in alloc; 0u32; count]?;
    count_targets(&mut counts, targets);
    let starts = sum_counts(alloc, &counts)?;
    drop(counts);
    let mut ends = Vec::from_slice(alloc, &starts[..count])?;
    let mut states = vec![in alloc; 0u32; starts[count] as usize]?;
    enter_states(&starts, &mut ends, &mut states, targets, cuts);
    Ok(Sources {
        starts,
        ends,
        states,
    })
}
