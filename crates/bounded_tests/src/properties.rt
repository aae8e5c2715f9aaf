//! Formulas, read or refused, and models that are cut for them.

use crate::cases::COIN;
use crate::cells::each_row;
use lift_model::{Model, Row};
use property_text::{Formula, read_formula, restrict};
use std::alloc::{AllocError, Global};
use std::string::String;
use test_cases::model_of;
use test_cells::{Teller, Unreported, count, cut_three};

/// The comparison, the bound, the label of the safe states, `-` where there is none, and that of the goal states.
fn formula_shown(alloc: Global, formula: &Formula) -> Result<String, AllocError> {
    let safe = String::from_utf8_lossy(alloc, formula.safe().unwrap_or(b"-"))?;
    let goal = String::from_utf8_lossy(alloc, formula.goal())?;
    let (op, bound) = (formula.op(), formula.bound());
    format!(in alloc; "{op:?} {}/{}, {safe}, {goal}", bound.num, bound.den)
}

struct Formulas;

impl Teller for Formulas {
    type Reported = String;

    type Error = AllocError;

    fn tell(&self, alloc: Global, asked: &str) -> Result<String, AllocError> {
        match read_formula(alloc, asked.as_bytes()) {
            Ok(formula) => {
                let shown = formula_shown(alloc, &formula);
                drop(formula);
                shown
            }
            Err(cause) => format!(in alloc; "{cause:?}"),
        }
    }
}

/// A text, and the formula that it is.
const READ: &str = "\
P>=1/2 [ F \"heads\" ] | AtLeast 1/2, -, heads
P<=1/2[F\"heads\"] | AtMost 1/2, -, heads
P\t> 1e-1\t[\tF\t\"a b\"\t] | Above 1/10, -, a b
P < 0.25 [ \"up\" U \"done\" ] | Below 1/4, up, done
P<1 [ \"F\"U\"U\" ] | Below 1/1, F, U
P<=0/3 [ F \"]\" ] | AtMost 0/1, -, ]
P>1/4294967295 [ F \"a\" ] | Above 1/4294967295, -, a";

#[test]
fn formulas_are_read(rt: HostRuntime) {
    each_row(&rt, rt.alloc(), READ, &Formulas);
}

/// A text, and why it is no formula: what is wrong as a whole, in the comparison or its bound, and in the path; and bounds
/// out of range.
const REFUSED: &str = "\
P<=1/2 F \"heads\" | Syntax
 | Syntax
 P<=1/2 [ F \"a\" ] | Syntax
P<=1/2 [ F \"a\" ]  | Syntax
P<=1/2 [ F \"a\" ]] | Syntax
P< =1/2 [ F \"a\" ] | Syntax
P=1/2 [ F \"a\" ] | Syntax
P<=1 /2 [ F \"a\" ] | Syntax
P<=-1/2 [ F \"a\" ] | Syntax
P<=1/2/2 [ F \"a\" ] | Syntax
P<= [ F \"a\" ] | Syntax
P<=1/2 [ F \"\" ] | Syntax
P<=1/2 [ F a ] | Syntax
P<=1/2 [ F \"a\tb\" ] | Syntax
P<=1/2 [ \"a\" F \"b\" ] | Syntax
P<=1/0 [ \"a\" U ] | Syntax
P<=1/0 [ F \"a\" ] | Bound
P<=3/2 [ F \"a\" ] | Bound
P>1/4294967296 [ F \"a\" ] | Bound
P>=1e99/1e99 [ F \"a\" ] | Bound";

#[test]
fn what_is_no_formula_is_refused(rt: HostRuntime) {
    each_row(&rt, rt.alloc(), REFUSED, &Formulas);
}

/// A choice between a row without entries and one with two.
const CHOICE: &[u8] = b"@type: MDP\n@parameters\np\n@model\nstate 0 init\naction none\n\
action toss\n1 : p\n2 : 1-p\nstate 1 heads\n1 : 1\nstate 2\n2 : 1\n";

/// Whether a row is one entry to that state with probability 1.
fn stays(row: &Row, state: u32, common: i64) -> bool {
    match row.entries() {
        [entry] => {
            entry.target == state
                && entry.poly.len() == 1
                && entry.poly.term(0) == (0, i128::from(common))
        }
        _ => false,
    }
}

/// How many entries the row of a state's choice has, and whether it stays in the state.
fn row_shown(alloc: Global, model: &Model, state: u32, choice: u32) -> Result<String, Unreported> {
    if state >= model.states() || choice >= model.choices(state) {
        return Err(Unreported::Cell);
    }
    let row = model.row(state, choice);
    let (count, stays) = (row.entries().len(), stays(row, state, model.common()));
    Ok(format!(in alloc; "{count} {stays}")?)
}

/// Which states a cell says are safe, by a 1 for each.
fn safe_of(alloc: Global, cell: &str) -> Result<Vec<bool>, AllocError> {
    let mut safe = Vec::new(alloc);
    for byte in cell.as_bytes() {
        safe.push(*byte == b'1')?;
    }
    Ok(safe)
}

/// The row of that state and choice of a model after the cut that leaves the safe states.
fn cut_row(
    alloc: Global,
    model: &Model,
    safe: &[bool],
    state: u32,
    choice: u32,
) -> Result<String, Unreported> {
    if safe.len() != model.states() as usize {
        return Err(Unreported::Cell);
    }
    let cut = restrict(alloc, model, safe)?;
    let shown = row_shown(alloc, &cut, state, choice);
    drop(cut);
    shown
}

/// The same of the model of a text.
fn cut_reported(
    alloc: Global,
    text: &[u8],
    safe: &[bool],
    state: u32,
    choice: u32,
) -> Result<String, Unreported> {
    let model = model_of(alloc, text, b"heads")?;
    let shown = cut_row(alloc, &model, safe, state, choice);
    drop(model);
    shown
}

struct Cuts;

impl Teller for Cuts {
    type Reported = String;

    type Error = Unreported;

    fn tell(&self, alloc: Global, asked: &str) -> Result<String, Unreported> {
        let (name, safe, state, choice) = cut_three(asked);
        let text = if name == "COIN" { COIN } else { CHOICE };
        let safe = safe_of(alloc, safe)?;
        cut_reported(alloc, text, &safe, count(state), count(choice))
    }
}

/// A model, which of its states are safe, a state and a choice, and how many entries its row has after the cut, and whether
/// it stays in the state.
const CUT: &str = "\
COIN | 010 | 0 | 0 | 1 true
COIN | 010 | 1 | 0 | 1 true
COIN | 010 | 2 | 0 | 1 true
COIN | 100 | 0 | 0 | 2 false";

#[test]
fn a_state_that_is_not_safe_is_cut(rt: HostRuntime) {
    each_row(&rt, rt.alloc(), CUT, &Cuts);
}

/// The same of a model with a row without entries.
const CHOICES_CUT: &str = "\
CHOICE | 001 | 0 | 0 | 0 false
CHOICE | 001 | 0 | 1 | 1 true
CHOICE | 111 | 0 | 1 | 2 false";

#[test]
fn each_choice_is_cut_that_has_an_entry(rt: HostRuntime) {
    each_row(&rt, rt.alloc(), CHOICES_CUT, &Cuts);
}
