//! Tests of least vectors.

use crate::cells::each_row;
use crate::engine::roots::{Engine, Lanes, Root, find_text};
use crate::example::process_of;
use rounded_iter::{least_upper, least_value};
use std::alloc::Global;
use std::string::String;
use test_cells::{Teller, Unreported};

/// The region of the tables.
const REGION: &[u8] = b"2/5<=p<=3/5,1/5<=q<=2/5";

/// The choices of state 0, with what further states there are, and the least upper vector and the least
/// value vector for p from 2/5 to 3/5, q from 1/5 to 2/5 and at precision 4: a coin that shows heads with
/// 1/4, and one with 1/10; one with 1/4 that is thrown again with 1/2, so that it shows heads with 1/2;
/// two coins to choose from, that show heads with p and with 1 - p; a coin with p that needn't be thrown;
/// a loop that is never left; a coin that is thrown again with p; a coin over p and q whose greatest corner
/// has high p and low q, and its least one low p and high q; two states that lead to each other; and a
/// state that nothing leads to.
const LEAST: &str = "\
action a;1 : 1/4;2 : 3/4 | [4, 16, 0]; [4, 16, 0]
action a;1 : 1/10;2 : 9/10 | [2, 16, 0]; [2, 16, 0]
action a;0 : 1/2;1 : 1/4;2 : 1/4 | [8, 16, 0]; [8, 16, 0]
action a;1 : p;2 : 1-p;action b;1 : 1-p;2 : p | [10, 16, 0]; [7, 16, 0]
action a;0 : 1;action b;1 : p;2 : 1-p | [10, 16, 0]; [7, 16, 0]
action a;0 : 1 | [0, 16, 0]; [0, 16, 0]
action a;0 : p;1 : 1/5;2 : 4/5-p | [8, 16, 0]; [6, 16, 0]
action a;1 : p*(1-q);2 : 1-p*(1-q) | [8, 16, 0]; [4, 16, 0]
action a;3 : 1/2;2 : 1/2 / action a;0 : 1/2;1 : 1/2 | [6, 16, 0, 11]; [6, 16, 0, 11]
action a;1 : p;2 : 1-p / action a;0 : 1/2;3 : 1/2 | [10, 16, 0, 10]; [7, 16, 0, 7]";

/// The least upper vector and the least value vector.
struct Least;

impl Engine for Least {
    type Found = String;

    fn find(&self, alloc: Global, root: Root, lanes: &mut Lanes) -> Result<String, Unreported> {
        let Root {
            case,
            links,
            weights,
        } = root;
        least_upper(case, links, weights, &mut lanes.numbers, &mut lanes.work);
        least_value(case, links, weights, &mut lanes.others, &mut lanes.work);
        shown(alloc, &lanes.numbers, &lanes.others)
    }
}

/// Both vectors as they are shown.
fn shown(alloc: Global, upper: &[i64], value: &[i64]) -> Result<String, Unreported> {
    Ok(format!(in alloc; "{upper:?}; {value:?}")?)
}

/// The choices of state 0 and of a state 3, which lead to each other and leave that cycle with 1/4096, and
/// the least upper vector and the least value vector at precision 20. State 0 asks for state 3's number
/// less a 4096th of it, and state 3 for state 0's number less a 4096th of it and 256 more. Both hold first
/// where state 0 has 128 * 4096 and state 3 has 128 more. From 0 on that takes 22,430 rounds.
///
/// And two states that lead to each other and leave that cycle with 10^-17, in equal parts to the goal and to
/// where it is lost: a number below half of 2^20 is never enough, as what leaves adds a little, and half of it
/// is. From 0 on that takes half a million rounds.
const SLOW: &str = "\
action a;3 : 1-1e-17;1 : 1e-17/2;2 : 1e-17/2 / action a;0 : 1-1e-17;1 : 1e-17/2;2 : 1e-17/2 | \
    [524288, 1048576, 0, 524288]; [524288, 1048576, 0, 524288]
action a;3 : 4095/4096;2 : 1/4096 / action a;0 : 4095/4096;1 : 1/4096 | [524288, 1048576, 0, 524416]; [524288, 1048576, 0, 524416]";

struct LeastVectors;

impl Teller for LeastVectors {
    type Reported = String;

    type Error = Unreported;

    fn tell(&self, alloc: Global, asked: &str) -> Result<String, Unreported> {
        let text = process_of(alloc, "p q", asked)?;
        find_text(alloc, &text, REGION, 4, &Least)
    }
}

#[test]
fn finds_the_least_vectors(rt: HostRuntime) {
    each_row(&rt, rt.alloc(), LEAST, &LeastVectors);
}

struct SlowCycles;

impl Teller for SlowCycles {
    type Reported = String;

    type Error = Unreported;

    fn tell(&self, alloc: Global, asked: &str) -> Result<String, Unreported> {
        let text = process_of(alloc, "p q", asked)?;
        find_text(alloc, &text, REGION, 20, &Least)
    }
}

#[test]
fn finds_the_least_vectors_of_slow_cycles(rt: HostRuntime) {
    each_row(&rt, rt.alloc(), SLOW, &SlowCycles);
}
