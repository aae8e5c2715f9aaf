//! Tests of guesses. Nothing is promised of what one comes to; a table tells what it comes to for each way.

ghost use Rattle.std.specs.Prelude.{◌≤◌};
ghost use Rattle.corner_lift.specs.Case.{most_precision};

use crate::cells::each_row;
use crate::engine::roots::{Engine, Lanes, Root, find_text};
use crate::example::process_of;
use float_guess::{Ends, Extreme, Method, Rounding, Rule, guess_part, make_shares_whole};
use rounded_iter::least_upper;
use std::alloc::Global;
use std::string::String;
use test_cells::{Teller, Unreported, count, cut_two};

/// The choices of state 0 and of a state 3, if there is one; the way; the precision; and the guesses at or below what
/// these states are worth, and above it, for p from 2/5 to 3/5, where the least upper vector was found before.
///
/// A coin that is thrown again in one half of the cases is worth 8. With .390625 for each of the two throws it is worth
/// 8.78, and with as much less 7.22. A coin that shows heads with p is worth 9.6, and 9.99 or 9.21. Two states that lead to
/// each other and leave that cycle with 1/1024, one of them to the goal: 1023/2047 and 1024/2047 of 2^20 are 524031.87 and
/// 524544.13. There are 1024 steps, which bring 400. Where nothing is guessed
/// it is 0, and 1 on the other side.
const GUESSES: &str = "\
action a;0 : 1/2;1 : 1/4;2 : 1/4 | whole | 4 | [7, 16, 0]; [9, 16, 0]
action a;0 : 1/2;1 : 1/4;2 : 1/4 | moved | 4 | [8, 16, 0]; [8, 16, 0]
action a;0 : 1/2;1 : 1/4;2 : 1/4 | none | 4 | [0, 16, 0]; [1, 16, 0]
action a;1 : p;2 : 1-p;action b;1 : 1-p;2 : p | whole | 4 | [9, 16, 0]; [10, 16, 0]
action a;1 : p;2 : 1-p;action b;1 : 1-p;2 : p | moved | 4 | [9, 16, 0]; [10, 16, 0]
action a;3 : 1023/1024;2 : 1/1024 / action a;0 : 1023/1024;1 : 1/1024 | whole | 20 | \
    [524031, 1048576, 0, 524544]; [524032, 1048576, 0, 524545]
action a;3 : 1023/1024;2 : 1/1024 / action a;0 : 1023/1024;1 : 1/1024 | once | 20 | \
    [524031, 1048576, 0, 524544]; [524032, 1048576, 0, 524545]
action a;3 : 1023/1024;2 : 1/1024 / action a;0 : 1023/1024;1 : 1/1024 | moved | 20 | \
    [524431, 1048576, 0, 524944]; [523632, 1048576, 0, 524145]";

/// The first position of the states that aren't ends.
const FIRST: u32 = 2;

/// A way to guess, on one side of what the states are worth.
#[derive(Clone, Copy)]
struct Guess {
    method: Method,
    rounding: Rounding,
}

/// The rule of the least upper vector.
fn upper_rule() -> Rule<'static> {
    Rule {
        choice: Extreme::Greatest,
        corner: Extreme::Greatest,
        ends: Ends::Goals,
    }
}

impl Engine for Guess {
    type Found = String;

    fn find(&self, alloc: Global, root: Root, lanes: &mut Lanes) -> Result<String, Unreported> {
        let Root {
            case,
            links,
            weights,
        } = root;
        let states = case.model().states();
        least_upper(case, links, weights, &mut lanes.numbers, &mut lanes.work);
        let (means, noted) = lanes.work.split_at_mut(states as usize);
        make_shares_whole(noted);
        let is_done = guess_part(
            case,
            links,
            weights,
            upper_rule(),
            self.rounding,
            &mut lanes.numbers,
            means,
            noted,
            FIRST,
            states,
            self.method,
        );
        shown(alloc, is_done, &lanes.numbers)
    }
}

/// A guess as it is shown, where there is one.
fn shown(alloc: Global, is_done: bool, numbers: &[i64]) -> Result<String, Unreported> {
    if !is_done {
        return Ok(format!(in alloc; "no guess")?);
    }
    Ok(format!(in alloc; "{numbers:?}")?)
}

/// The way that a cell names.
fn method_of(cell: &str) -> Result<Method, Unreported> {
    match cell {
        "whole" => Ok(Method::Elimination),
        "once" => Ok(Method::FirstElimination),
        "moved" => Ok(Method::MovedElimination),
        "none" => Ok(Method::Nothing),
        _ => Err(Unreported::Cell),
    }
}

/// The guess for the process with these choices.
fn guess_for(alloc: Global, choices: &str, w: u32, guess: Guess) -> Result<String, Unreported>
    requires low { 1 ≤ w }
    requires high { w ≤ most_precision }
{
    let text = process_of(alloc, "p", choices)?;
    find_text(alloc, &text, b"2/5<=p<=3/5", w, &guess)
}

struct Guesses;

impl Teller for Guesses {
    type Reported = String;

    type Error = Unreported;

    fn tell(&self, alloc: Global, asked: &str) -> Result<String, Unreported> {
        let (choices, method, w) = cut_two(asked);
        let method = method_of(method)?;
        let w = count(w).clamp(1, 20);
        let rounding = Rounding::Down;
        let below = guess_for(alloc, choices, w, Guess { method, rounding })?;
        let rounding = Rounding::Up;
        let above = guess_for(alloc, choices, w, Guess { method, rounding })?;
        Ok(format!(in alloc; "{below}; {above}")?)
    }
}

#[test]
fn guesses_by_each_method(rt: HostRuntime) {
    each_row(&rt, rt.alloc(), GUESSES, &Guesses);
}
