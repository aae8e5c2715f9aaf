//! Trees that are written.

ghost use Rattle.std.specs.Prelude.{◌≤◌};
ghost use Rattle.lift_model.specs.Links.{AreLinks};
ghost use Rattle.lift_bounded.specs.Rooms.{most_steps};

use crate::cases::ask_named;
use crate::cells::each_row;
use corner_lift::Case;
use lift_base::MemSink;
use lift_bounded::{BoundedRoom, write_tree};
use lift_cert::Bound;
use lift_model::Links;
use std::alloc::{AllocError, Global};
use std::string::String;
use test_cases::{Asker, bound_of};
use test_cells::{Teller, Unreported, count, cut, cut_three};

/// In each table: the model, its region, the depth, the bound, the number of steps, and the text of the tree at precision
/// 4, in which a `;` stands for a line feed.
const ONE_STEP: &str = "LOOP | 1/5<=p<=2/5 | 0 | 1/4 | 1 | accept;x 1 4 16 0;";

const TWO_STEPS: &str = "LOOP | 1/5<=p<=2/5 | 0 | 1/4 | 2 | unknown;";

const LOWER_BOUND: &str = "LOOP | 1/5<=p<=2/5 | 0 | 1/10 | 2 | \
reject b 2/16;y 1 1 16 0;choice 1 0 - 0;y 2 2 16 0;choice 2 0 - 0;";

const CHANGED_CHOICE: &str = "SHORT_CUT | 0<=p<=1 | 0 | 1/2 | 3 | \
reject b 16/16;y 1 8 16 0 16;choice 1 0 0 0 -;y 2 16 16 0 16;choice 2 1 0 0 -;y 3 16 16 0 16;choice 3 1 0 0 -;";

const LOWER_HALF: &str = "COIN | 2/5<=p<=3/5 | 1 | 1/2 | 1 | split 0;accept;x 1 8 16 0;unknown;";

/// A sink that takes one byte in each call, and whose call of that number fails: none where it is 0.
fn sink(alloc: Global, failing: u64) -> Result<MemSink, AllocError> {
    MemSink::new(alloc, 1000, 1, Vec::from_slice(alloc, &[failing])?)
}

/// A text with a `;` for each line feed.
fn lines_shown(alloc: Global, bytes: &[u8]) -> Result<String, AllocError> {
    let mut text = Vec::new(alloc);
    for byte in bytes {
        text.push(if *byte == b'\n' { b';' } else { *byte })?;
    }
    String::from_utf8_lossy(alloc, &text)
}

/// A bound, and a number of steps.
#[derive(Clone, Copy)]
struct Asked {
    bound: Bound,
    steps: u32,
}

/// Whether a case's tree for what is asked is written whole, by its links.
fn is_written_by(
    alloc: Global,
    case: &Case,
    links: &Links,
    asked: Asked,
    out: &mut MemSink,
) -> Result<bool, AllocError>
    requires links { AreLinks case.now.model links.now }
    requires steps { (1 ≤ asked.steps) × (asked.steps ≤ most_steps) }
{
    let mut room = BoundedRoom::make(alloc, case, links, asked.steps)?;
    let is_whole = write_tree(case, links, asked.bound, &mut room, out).is_ok();
    let is_as_made = room.steps() == asked.steps;
    drop(room);
    Ok(is_whole && is_as_made)
}

/// The same by links that are built.
fn is_written(
    alloc: Global,
    case: &Case,
    asked: Asked,
    out: &mut MemSink,
) -> Result<bool, AllocError>
    requires { (1 ≤ asked.steps) × (asked.steps ≤ most_steps) }
{
    let links = Links::build(alloc, case.model())?;
    let is_written = is_written_by(alloc, case, &links, asked, out);
    drop(links);
    is_written
}

/// The same into a sink whose call of that number fails.
fn is_written_till(
    alloc: Global,
    case: &Case,
    asked: Asked,
    failing: u64,
) -> Result<bool, AllocError>
    requires { (1 ≤ asked.steps) × (asked.steps ≤ most_steps) }
{
    let mut out = sink(alloc, failing)?;
    let is_written = is_written(alloc, case, asked, &mut out);
    drop(out);
    is_written
}

/// The text of a tree, by a sink that takes it; where a sink fails at its last byte, that has to be an error.
fn tree_taken(
    alloc: Global,
    case: &Case,
    asked: Asked,
    out: &mut MemSink,
) -> Result<String, Unreported>
    requires { (1 ≤ asked.steps) × (asked.steps ≤ most_steps) }
{
    if !is_written(alloc, case, asked, out)? {
        return Err(Unreported::Cell);
    }
    let text = out.taken();
    if is_written_till(alloc, case, asked, text.len() as u64)? {
        return Err(Unreported::Cell);
    }
    Ok(lines_shown(alloc, text)?)
}

/// The text of a tree.
fn tree_reported(alloc: Global, case: &Case, asked: Asked) -> Result<String, Unreported>
    requires { (1 ≤ asked.steps) × (asked.steps ≤ most_steps) }
{
    let mut out = sink(alloc, 0)?;
    let reported = tree_taken(alloc, case, asked, &mut out);
    drop(out);
    reported
}

/// The cells of a bound and of steps.
#[derive(Clone, Copy)]
struct Within<'a> {
    cells: &'a str,
}

impl Asker for Within<'_> {
    type Reported = String;

    fn ask(&self, alloc: Global, case: &Case) -> Result<String, Unreported> {
        let (bound, steps) = cut(self.cells);
        let (bound, steps) = (bound_of(bound)?, count(steps));
        if steps < 1 || steps > 64 {
            return Err(Unreported::Cell);
        }
        tree_reported(alloc, case, Asked { bound, steps })
    }
}

struct Trees;

impl Teller for Trees {
    type Reported = String;

    type Error = Unreported;

    fn tell(&self, alloc: Global, asked: &str) -> Result<String, Unreported> {
        let (name, region, depth, cells) = cut_three(asked);
        ask_named(alloc, name, region, count(depth), &Within { cells })
    }
}

#[test]
fn one_step_is_within_the_bound(rt: HostRuntime) {
    each_row(&rt, rt.alloc(), ONE_STEP, &Trees);
}

#[test]
fn two_steps_are_unknown(rt: HostRuntime) {
    each_row(&rt, rt.alloc(), TWO_STEPS, &Trees);
}

#[test]
fn two_steps_are_beyond_a_lower_bound(rt: HostRuntime) {
    each_row(&rt, rt.alloc(), LOWER_BOUND, &Trees);
}

#[test]
fn the_best_choice_changes_with_the_steps_left(rt: HostRuntime) {
    each_row(&rt, rt.alloc(), CHANGED_CHOICE, &Trees);
}

#[test]
fn the_lower_half_is_within_the_bound(rt: HostRuntime) {
    each_row(&rt, rt.alloc(), LOWER_HALF, &Trees);
}
