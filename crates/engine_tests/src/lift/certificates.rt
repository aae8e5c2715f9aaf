//! Tests of bounds and of certificates.

ghost use Rattle.std.specs.Prelude.{◌≡◌, length, All, IfOk};
ghost use Rattle.engine_tests.specs.Lane.{IsInLane};

use crate::cells::each_row;
use crate::example::ask_text;
use corner_lift::Case;
use lift_cert::{Bound, Miss, meets_accept};
use lift_frac::{Frac, read_ratio};
use std::alloc::Global;
use std::string::String;
use test_cases::Asker;
use test_cells::{Teller, Unreported, cut, first_word, signed};

/// The bound of a fraction from 0 to 1.
fn bound_by(fraction: Frac) -> Option<Bound> {
    let Frac { num, den } = fraction;
    if 0 <= num && num <= den && den < 1 << 32 {
        Some(Bound {
            num: num as u32,
            den: den as u32,
        })
    } else {
        None
    }
}

/// The bound that a cell writes.
pub(crate) fn bound_of(cell: &str) -> Result<Bound, Unreported> {
    read_ratio(cell).and_then(bound_by).ok_or(Unreported::Cell)
}

/// At precision 4: the value, the bound, and whether the value over 16 is at most the bound.
const BOUNDS: &str = "\
8 | 1/2 | true
9 | 1/2 | false
4 | 1/8 | false
0 | 0/1 | true
16 | 1/1 | true";

struct Bounds;

impl Teller for Bounds {
    type Reported = bool;

    type Error = Unreported;

    fn tell(&self, _alloc: Global, asked: &str) -> Result<bool, Unreported> {
        let (value, bound) = cut(asked);
        Ok(bound_of(bound)?.admits(signed(value), 4))
    }
}

#[test]
fn admits_values_up_to_the_bound(rt: HostRuntime) {
    each_row(&rt, rt.alloc(), BOUNDS, &Bounds);
}

/// A coin that shows heads, the goal, with p.
pub(crate) const COIN: &str = "@type: DTMC;@parameters;p;@model;state 0 init;1 : p;2 : 1-p;\
state 1 goal;1 : 1;state 2;2 : 1";

/// For p from 1/10 to 2/5 and at precision 4: the numbers, the bound, and the answer. The weights
/// of state 0 sum to 10; with 16 at the goal its weighted sum is 1 * 16 at the low corner and
/// 4 * 16 at the high one.
const ACCEPT: &str = "\
7 16 0 | 1/2 | Ok(())
7 16 0 | 7/16 | Ok(())
6 16 0 | 1/2 | Err(Row { state: 0, choice: 0, corner: 1, left: 64, right: 60 })
1 16 0 | 1/2 | Err(Row { state: 0, choice: 0, corner: 0, left: 16, right: 10 })
7 15 0 | 1/2 | Err(Goal { state: 1, value: 15 })
7 16 0 | 1/4 | Err(Limit { left: 28, right: 16 })
5 15 0 | 1/4 | Err(Row { state: 0, choice: 0, corner: 1, left: 60, right: 50 })
6 15 0 | 1/4 | Err(Goal { state: 1, value: 15 })";

/// A number from 0 to 16.
fn number_of(word: &str) -> Result<i64, Unreported>
    ensures { IfOk result IsInLane }
{
    let number = signed(word);
    if number < 0 || number > 16 {
        return Err(Unreported::Cell);
    }
    Ok(number)
}

/// The three words of a cell.
fn words_of(cell: &str) -> (&str, &str, &str) {
    let (first, rest) = first_word(cell);
    let (second, third) = first_word(rest);
    (first, second, third)
}

/// The numbers of three states.
pub(crate) fn numbers_of(cell: &str) -> Result<[i64; 3], Unreported>
    ensures { IfOk result (λ x. All IsInLane x) }
{
    let (first, second, third) = words_of(cell);
    let first = number_of(first)?;
    let second = number_of(second)?;
    let third = number_of(third)?;
    Ok([first, second, third])
}

/// An answer as it is shown.
pub(crate) fn shown(alloc: Global, answer: Result<(), Miss>) -> Result<String, Unreported> {
    Ok(format!(in alloc; "{answer:?}")?)
}

/// The answer on the whole root.
fn answer_of(case: &Case, bound: Bound, x: &[i64]) -> Result<(), Miss>
    requires precision { case.now.w ≡ 4 }
    requires size { length x.now ≡ length case.now.model.states }
    requires range { All IsInLane x.now }
{
    meets_accept(case, case.root().sides(), bound, x)
}

/// The answer to these cells.
fn answer_reported(alloc: Global, case: &Case, asked: &str) -> Result<String, Unreported>
    requires precision { case.now.w ≡ 4 }
    requires states { length case.now.model.states ≡ 3 }
{
    let (numbers, bound) = cut(asked);
    let (x, bound) = (numbers_of(numbers)?, bound_of(bound)?);
    shown(alloc, answer_of(case, bound, &x))
}

/// The same, where the case is at precision 4 and has three states.
#[derive(Clone, Copy)]
struct Acceptance<'a> {
    asked: &'a str,
}

impl Asker for Acceptance<'_> {
    type Reported = String;

    fn ask(&self, alloc: Global, case: &Case) -> Result<String, Unreported> {
        if case.w() != 4 || case.model().states() != 3 {
            return Err(Unreported::Cell);
        }
        answer_reported(alloc, case, self.asked)
    }
}

struct Acceptances;

impl Teller for Acceptances {
    type Reported = String;

    type Error = Unreported;

    fn tell(&self, alloc: Global, asked: &str) -> Result<String, Unreported> {
        ask_text(alloc, COIN, b"1/10<=p<=2/5", 4, &Acceptance { asked })
    }
}

#[test]
fn finds_the_first_miss(rt: HostRuntime) {
    each_row(&rt, rt.alloc(), ACCEPT, &Acceptances);
}
