//! Certificates for the scheduler that reaches the least.

ghost use Rattle.std.specs.Prelude.{◌≡◌, ◌*◌, length, IfOk};
ghost use Rattle.lift_grid.specs.Rectangle.{spans_of, sides_of};
ghost use Rattle.lift_model.specs.Links.{AreLinks};
ghost use Rattle.corner_lift.specs.Table.{IsTable};

use crate::cases::ask_named;
use crate::cells::each_row;
use corner_lift::{Case, fill};
use lift_dual::{greatest_all, least_one};
use lift_model::Links;
use std::alloc::{AllocError, Global};
use std::string::String;
use test_cases::Asker;
use test_cells::{Teller, Unreported, cut};

/// The model and its region; and at precision 4 the least upper vector for one scheduler with its choices, and the
/// greatest lower vector for every scheduler with its ranks, e and k.
///
/// A coin that shows heads with p, also where p may be 0; one that is tossed again in half of the cases, so that 7 is
/// the least x with x/2 + 16/5 at most x, and 3 the greatest y with y at most y/2 + 8/5; two coins that show heads
/// with p and with 1 - p, also where neither is better, so that the first one is picked; a coin that needn't be
/// tossed; and a choice between one toss and a way that is sure, but takes two steps.
const BOTH: &str = "\
COIN | 3/5<=p<=9/10 | [15, 16, 0] [0, 4294967295, 0]; [9, 16, 0] [1, 0, 4294967295] e 1 k 1
COIN | 0<=p<=1 | [16, 16, 0] [0, 4294967295, 0]; [0, 16, 0] [4294967295, 0, 4294967295] e 0 k 1
LOOP | 1/5<=p<=2/5 | [7, 16, 0] [0, 4294967295, 0]; [3, 16, 0] [1, 0, 4294967295] e 4 k 1
TWIN | 3/5<=p<=9/10 | [7, 16, 0] [1, 4294967295, 0]; [1, 16, 0] [1, 0, 4294967295] e 4 k 1
TWIN | 1/4<=p<=3/4 | [12, 16, 0] [0, 4294967295, 0]; [4, 16, 0] [1, 0, 4294967295] e 2 k 1
WAIT | 3/5<=p<=9/10 | [0, 16, 0] [1, 4294967295, 0]; [0, 16, 0] [4294967295, 0, 4294967295] e 0 k 1
SHORT_CUT | 0<=p<=1 | [8, 16, 0, 16] [0, 0, 0, 4294967295]; [8, 16, 0, 16] [2, 1, 4294967295, 0] e 1 k 2";

/// Lanes for what is found. What they hold at first is of no account.
#[derive(Drop)]
struct Lanes {
    numbers: Vec<i64>,
    marks: Vec<u32>,
    work: Vec<u32>,
}

/// Lanes for so many states.
fn lanes_for(alloc: Global, states: u32) -> Result<Lanes, AllocError>
    ensures numbers { IfOk result (λ lanes. length lanes.numbers.items ≡ states) }
    ensures marks { IfOk result (λ lanes. length lanes.marks.items ≡ states) }
    ensures work { IfOk result (λ lanes. length lanes.work.items ≡ 2 * states) }
{
    let states = states as usize;
    Ok(Lanes {
        numbers: vec![in alloc; 8; states]?,
        marks: vec![in alloc; 7; states]?,
        work: vec![in alloc; 7; 2 * states]?,
    })
}

/// The table of the case's root.
fn table_of(alloc: Global, case: &Case, links: &Links) -> Result<Vec<i128>, AllocError>
    requires { AreLinks case.now.model links.now }
    ensures { IfOk result (λ weights. IsTable case.now links.now (spans_of (sides_of case.now.root)) weights.items) }
{
    let mut weights = vec![in alloc; 0i128; links.weights_len()]?;
    fill(case, links, case.root().sides(), &mut weights);
    Ok(weights)
}

/// The least upper vector for one scheduler, with its choices, as they are shown.
fn least_shown(
    alloc: Global,
    case: &Case,
    links: &Links,
    weights: &[i128],
) -> Result<String, AllocError>
    requires links { AreLinks case.now.model links.now }
    requires table { IsTable case.now links.now (spans_of (sides_of case.now.root)) weights.now }
{
    let Lanes {
        mut numbers,
        mut marks,
        mut work,
    } = lanes_for(alloc, case.model().states())?;
    least_one(case, links, weights, &mut numbers, &mut marks, &mut work);
    format!(in alloc; "{numbers:?} {marks:?}")
}

/// The greatest lower vector for every scheduler, with its ranks, e and k, as they are shown.
fn greatest_shown(
    alloc: Global,
    case: &Case,
    links: &Links,
    weights: &[i128],
) -> Result<String, AllocError>
    requires links { AreLinks case.now.model links.now }
    requires table { IsTable case.now links.now (spans_of (sides_of case.now.root)) weights.now }
{
    let Lanes {
        mut numbers,
        mut marks,
        mut work,
    } = lanes_for(alloc, case.model().states())?;
    let rate = greatest_all(case, links, weights, &mut numbers, &mut marks, &mut work);
    let (e, k) = (rate.e, rate.k);
    format!(in alloc; "{numbers:?} {marks:?} e {e} k {k}")
}

/// Both by the links of a case.
fn both_by(alloc: Global, case: &Case, links: &Links) -> Result<String, AllocError>
    requires { AreLinks case.now.model links.now }
{
    let weights = table_of(alloc, case, links)?;
    let least = least_shown(alloc, case, links, &weights)?;
    let greatest = greatest_shown(alloc, case, links, &weights)?;
    format!(in alloc; "{least}; {greatest}")
}

/// Both on the root of a case.
struct Both;

impl Asker for Both {
    type Reported = String;

    fn ask(&self, alloc: Global, case: &Case) -> Result<String, Unreported> {
        let links = Links::build(alloc, case.model())?;
        let both = both_by(alloc, case, &links);
        drop(links);
        Ok(both?)
    }
}

impl Teller for Both {
    type Reported = String;

    type Error = Unreported;

    fn tell(&self, alloc: Global, asked: &str) -> Result<String, Unreported> {
        let (name, region) = cut(asked);
        ask_named(alloc, name, region, 0, self)
    }
}

#[test]
fn finds_the_least_for_one_and_the_greatest_for_all(rt: HostRuntime) {
    each_row(&rt, rt.alloc(), BOTH, &Both);
}
