//! Tests of greatest lower vectors.

use crate::cells::each_row;
use crate::engine::roots::{Engine, Lanes, Root, find_text};
use crate::example::process_of;
use lower_cert::{Rate, greatest_reject, greatest_reject_above};
use std::alloc::Global;
use std::string::String;
use test_cells::{Teller, Unreported};

/// The region of the tables.
const REGION: &[u8] = b"2/5<=p<=3/5";

/// The choices of state 0, and those of a state 3; and for p from 2/5 to 3/5 and at precision 4 the greatest
/// lower vector, its choices, ranks, e and k, and the greatest limit that the initial state's number is above.
///
/// A coin that shows heads with 1/4; one with p; one that is thrown again with 1/2, where rounding down from
/// below stalls at 7; one that is thrown again with p; a loop that is never left, which would hold any number;
/// two states that lead to each other, the first of which may throw a coin with 1/16; a coin with 1/100,
/// whose number is 0; one whose heads are impossible at p = 2/5; two coins, of which both add the state; and
/// a coin that may be thrown later, in state 3.
const GREATEST: &str = "\
action a;1 : 1/4;2 : 3/4 | [4, 16, 0]; [0, 4294967295, 4294967295]; [1, 0, 4294967295]; e 2 k 1; 3
action a;1 : p;2 : 1-p | [6, 16, 0]; [0, 4294967295, 4294967295]; [1, 0, 4294967295]; e 2 k 1; 5
action a;0 : 1/2;1 : 1/4;2 : 1/4 | [8, 16, 0]; [0, 4294967295, 4294967295]; [1, 0, 4294967295]; e 2 k 1; 7
action a;0 : p;1 : 1/5;2 : 4/5-p | [5, 16, 0]; [0, 4294967295, 4294967295]; [1, 0, 4294967295]; e 3 k 1; 4
action a;0 : 1 | [0, 16, 0]; [4294967295, 4294967295, 4294967295]; [4294967295, 0, 4294967295]; e 0 k 1; -1
action a;3 : 1;action b;1 : 1/16;2 : 15/16 / action a;0 : 1 | \
    [1, 16, 0, 1]; [1, 4294967295, 4294967295, 0]; [1, 0, 4294967295, 2]; e 4 k 2; 0
action a;1 : 1/100;2 : 99/100 | [0, 16, 0]; [0, 4294967295, 4294967295]; [1, 0, 4294967295]; e 7 k 1; -1
action a;1 : p-2/5;2 : 7/5-p | [0, 16, 0]; [4294967295, 4294967295, 4294967295]; [4294967295, 0, 4294967295]; e 0 k 1; -1
action a;1 : p;2 : 1-p;action b;1 : 1-p;2 : p | [6, 16, 0]; [0, 4294967295, 4294967295]; [1, 0, 4294967295]; e 2 k 1; 5
action a;3 : 1;action b;1 : 1/2;2 : 1/2 / action a;1 : 1/2;2 : 1/2 | \
    [8, 16, 0, 8]; [1, 4294967295, 4294967295, 0]; [1, 0, 4294967295, 1]; e 1 k 1; 7";

/// Whether the call that stops at a limit finds the initial state's number above it.
#[derive(Clone, Copy)]
struct Above {
    limit: i64,
}

impl Engine for Above {
    type Found = bool;

    fn find(&self, _alloc: Global, root: Root, lanes: &mut Lanes) -> Result<bool, Unreported> {
        let rate = greatest_reject_above(
            root.case,
            root.links,
            root.weights,
            self.limit,
            &mut lanes.numbers,
            &mut lanes.allowed,
            &mut lanes.ranks,
            &mut lanes.picks,
            &mut lanes.work,
        );
        Ok(rate.is_some())
    }
}

/// The greatest of the limits from -1 to 16 that the initial state's number is found above.
fn greatest_limit(alloc: Global, lines: &str) -> Result<i64, Unreported> {
    let mut greatest = -2;
    for limit in -1..17 {
        if find_text(alloc, lines, REGION, 4, &Above { limit })? {
            greatest = limit;
        }
    }
    Ok(greatest)
}

/// The greatest lower vector, with what belongs to it.
struct Greatest;

impl Engine for Greatest {
    type Found = String;

    fn find(&self, alloc: Global, root: Root, lanes: &mut Lanes) -> Result<String, Unreported> {
        let rate = greatest_reject(
            root.case,
            root.links,
            root.weights,
            &mut lanes.numbers,
            &mut lanes.allowed,
            &mut lanes.ranks,
            &mut lanes.picks,
            &mut lanes.work,
        );
        shown(alloc, lanes, rate)
    }
}

/// The same as it is shown.
fn shown(alloc: Global, lanes: &Lanes, rate: Rate) -> Result<String, Unreported> {
    let Lanes {
        numbers,
        ranks,
        picks,
        ..
    } = lanes;
    let (e, k) = (rate.e, rate.k);
    Ok(format!(in alloc; "{numbers:?}; {picks:?}; {ranks:?}; e {e} k {k}")?)
}

/// The greatest lower vector and the greatest limit, at precision 4.
fn both_of(alloc: Global, lines: &str) -> Result<String, Unreported> {
    let limit = greatest_limit(alloc, lines)?;
    let vector = find_text(alloc, lines, REGION, 4, &Greatest)?;
    Ok(format!(in alloc; "{vector}; {limit}")?)
}

struct GreatestLower;

impl Teller for GreatestLower {
    type Reported = String;

    type Error = Unreported;

    fn tell(&self, alloc: Global, asked: &str) -> Result<String, Unreported> {
        let text = process_of(alloc, "p", asked)?;
        both_of(alloc, &text)
    }
}

#[test]
fn finds_the_greatest_lower_vectors(rt: HostRuntime) {
    each_row(&rt, rt.alloc(), GREATEST, &GreatestLower);
}

/// The choices of state 0 and of a state 3, which lead to each other, and the greatest lower vector at
/// precision 20 with what belongs to it.
///
/// They leave the cycle with 1/64: lowered from 1 it takes several hundred rounds, and so does raising the
/// vector that it is begun from. State 0 has at most state 3's number less a 64th of it, and state 3 at most
/// state 0's number less a 64th of it and 16384 more: so a 63rd and a 64th of state 0's number, rounded up,
/// come to at most 16384.
///
/// They leave it with 10^-17, in equal parts to the goal and to where it is lost: a number above half of 2^20 is
/// never held, as what leaves takes a little, and half of it is. Lowered from 1 it takes half a million rounds.
const SLOW: &str = "\
action a;3 : 63/64;2 : 1/64 / action a;0 : 63/64;1 : 1/64 | \
    [520128, 1048576, 0, 528385]; [0, 4294967295, 4294967295, 0]; [2, 0, 4294967295, 1]; e 6 k 2
action a;3 : 1-1e-17;1 : 1e-17/2;2 : 1e-17/2 / action a;0 : 1-1e-17;1 : 1e-17/2;2 : 1e-17/2 | \
    [524288, 1048576, 0, 524288]; [0, 4294967295, 4294967295, 0]; [1, 0, 4294967295, 1]; e 58 k 1";

struct SlowCycles;

impl Teller for SlowCycles {
    type Reported = String;

    type Error = Unreported;

    fn tell(&self, alloc: Global, asked: &str) -> Result<String, Unreported> {
        let text = process_of(alloc, "p", asked)?;
        find_text(alloc, &text, REGION, 20, &Greatest)
    }
}

#[test]
fn finds_the_greatest_lower_vectors_of_slow_cycles(rt: HostRuntime) {
    each_row(&rt, rt.alloc(), SLOW, &SlowCycles);
}
