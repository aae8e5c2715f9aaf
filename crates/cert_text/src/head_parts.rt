// The parts of a head, line by line.
ghost use Rattle.std.specs.Prelude.{◌≡◌, ◌≤◌, ◌<◌, ◌^◌, pos, length, None, IfOk};
ghost use Rattle.lift_model.specs.Valid.{most_parameters, most_states};
ghost use Rattle.lift_grid.specs.Rectangle.{most_halvings};
ghost use Rattle.line_text.specs.Reading.{line_at};
ghost use Rattle.line_text.specs.Follow.{Follows};
ghost use Rattle.cert_text.specs.Lines.{version_of, kind_of, parameters_of, goal_of, bound_of, box_of};
ghost use Rattle.corner_lift.specs.Case.{most_precision};
ghost use Rattle.cert_text.specs.Head.{from_at, head_at};
ghost use Rattle.cert_text.specs.Forms.{IsHead};
ghost use Rattle.cert_text.specs.HeadParts.{sizes_at, asked_at, head_of};

use crate::box_line::box_of;
use crate::head_lines::{bound_of, goal_of, kind_of, version_of};
use crate::head_reader::Head;
use crate::number_line::number_line;
use crate::parameters::parameters_of;
use crate::precisions::Precisions;
use crate::rows::{Shape, states};
use lift_base::{Lines, Source};
use lift_cert::Bound;
use lift_grid::{Grid, Rect};
use lift_model::{Kind, Model, Row};
use lift_names::Names;
use line_text::{FileError, Words, calls_add_up, due, take_line};
use std::alloc::Global;

/// Above each common denominator and each number of a grid.
const NUMBER_LIMIT: u64 = 1 << 62;

/// How many states a model has at most.
const MOST_STATES: u64 = 65_536;

/// The greatest precision: numbers are over 2 to this power.
const MOST_PRECISION: u64 = 40;

/// How often the root may be halved, one half below another.
const MOST_HALVINGS: u64 = 20;

/// The numbers of a model.
#[derive(Clone, Copy)]
pub(crate) struct Sizes {
    pub common: u64,
    pub states: u32,
    pub init: u32,
}

/// What is asked of a model.
#[derive(Drop)]
pub(crate) struct Asked {
    pub bound: Bound,
    pub precisions: Precisions,
    pub depth: u32,
    pub d: u64,
    pub root: Rect,
}

/// What the lines of a head tell.
#[derive(Drop)]
pub(crate) struct Parts {
    pub kind: Kind,
    pub names: Names,
    pub sizes: Sizes,
    pub goal: Vec<bool>,
    pub states: Vec<Vec<Row>>,
    pub asked: Asked,
}

impl Parts {
    /// The head of these parts.
    pub fn into_head(self) -> Head
        requires { IsHead (head_of self) }
        ensures { result ≡ head_of self }
    {
        let model = Model::new(
            self.kind,
            signed(self.sizes.common),
            self.names,
            self.goal,
            self.sizes.init,
            self.states,
        );
        let asked = self.asked;
        let grid = Grid {
            d: signed(asked.d),
            depth: asked.depth,
        };
        Head::new(model, asked.root, grid, asked.precisions, asked.bound)
    }
}

/// The line that is due, as whether the version is the second one.
fn version_line<S: Source>(alloc: Global, lines: &mut Lines, src: &mut S) -> Result<bool, FileError>
    ensures { Follows S.left S.faults (λ x. x) (line_at version_of)
        lines.old lines.new src.old src.new result }
{
    due(lines, src)?;
    let read = version_of(alloc, &Words::of(lines.line()));
    take_line(lines, read)
}

/// The line that is due, as the kind.
fn kind_line<S: Source>(lines: &mut Lines, src: &mut S) -> Result<Kind, FileError>
    ensures { Follows S.left S.faults (λ x. x) (line_at kind_of)
        lines.old lines.new src.old src.new result }
{
    due(lines, src)?;
    let read = kind_of(&Words::of(lines.line()));
    take_line(lines, read)
}

/// The line that is due, as the parameters' names.
fn parameters_line<S: Source>(
    alloc: Global,
    lines: &mut Lines,
    src: &mut S,
) -> Result<Names, FileError>
    ensures value { Follows S.left S.faults (λ x. x) (line_at parameters_of)
        lines.old lines.new src.old src.new result }
    ensures few { IfOk result (λ x. length x ≤ most_parameters) }
{
    due(lines, src)?;
    let read = parameters_of(alloc, &Words::of(lines.line()));
    take_line(lines, read)
}

/// The line that is due, as the goal states of so many.
fn goal_line<S: Source>(
    alloc: Global,
    lines: &mut Lines,
    src: &mut S,
    states: u32,
) -> Result<Vec<bool>, FileError>
    ensures { Follows S.left S.faults (λ x. x.items) (line_at (goal_of states))
        lines.old lines.new src.old src.new result }
{
    due(lines, src)?;
    let read = goal_of(alloc, states, &Words::of(lines.line()));
    take_line(lines, read)
}

/// The line that is due, as the bound.
fn bound_line<S: Source>(lines: &mut Lines, src: &mut S) -> Result<Bound, FileError>
    ensures { Follows S.left S.faults (λ x. x) (line_at bound_of)
        lines.old lines.new src.old src.new result }
{
    due(lines, src)?;
    let read = bound_of(&Words::of(lines.line()));
    take_line(lines, read)
}

/// The line that is due in the second version, as the least precision of a range up to that one.
fn from_line<S: Source>(
    alloc: Global,
    lines: &mut Lines,
    src: &mut S,
    second: bool,
    w: u32,
) -> Result<Option<u32>, FileError>
    requires small { w ≤ most_precision }
    requires ready { lines.old.failure ≡ None }
    ensures { Follows S.left S.faults (λ x. x) (from_at second w) lines.old lines.new src.old src.new result }
{
    calls_add_up::<S>();
    if !second {
        return Ok(None);
    }
    let v = number_line(alloc, lines, src, b"from", 1..u64::from(w) + 1)?;
    Ok(Some(v as u32))
}

/// The line that is due, as the root.
fn box_line<S: Source>(
    alloc: Global,
    lines: &mut Lines,
    src: &mut S,
    parameters: u32,
    depth: u32,
) -> Result<Rect, FileError>
    requires { depth ≤ most_halvings }
    ensures { Follows S.left S.faults (λ x. x) (line_at (box_of parameters depth))
        lines.old lines.new src.old src.new result }
{
    due(lines, src)?;
    let read = box_of(alloc, &Words::of(lines.line()), parameters, depth);
    take_line(lines, read)
}

/// A number of a head as a signed one.
fn signed(n: u64) -> i64
    requires { n < 2 ^ 62 }
    ensures { result ≡ pos n }
{
    n as i64
}

/// The lines of the common denominator, of the number of states and of the initial one, of which the first is due.
fn sizes_lines<S: Source>(alloc: Global, lines: &mut Lines, src: &mut S) -> Result<Sizes, FileError>
    ensures follows { Follows S.left S.faults (λ x. x) sizes_at lines.old lines.new src.old src.new result }
    ensures states { IfOk result (λ x. x.states ≤ most_states) }
{
    calls_add_up::<S>();
    let common = number_line(alloc, lines, src, b"common", 1..NUMBER_LIMIT)?;
    let count = number_line(alloc, lines, src, b"states", 1..MOST_STATES + 1)?;
    let init = number_line(alloc, lines, src, b"init", 0..count)?;
    Ok(Sizes {
        common,
        states: count as u32,
        init: init as u32,
    })
}

/// The lines of what is asked of a model with so many parameters, of which the first is due.
fn asked_lines<S: Source>(
    alloc: Global,
    lines: &mut Lines,
    src: &mut S,
    second: bool,
    parameters: u32,
) -> Result<Asked, FileError>
    ensures { Follows S.left S.faults (λ x. x) (asked_at second parameters) lines.old lines.new src.old src.new result }
{
    calls_add_up::<S>();
    let bound = bound_line(lines, src)?;
    let w = number_line(alloc, lines, src, b"precision", 1..MOST_PRECISION + 1)?;
    let from = from_line(alloc, lines, src, second, w as u32)?;
    let depth = number_line(alloc, lines, src, b"depth", 0..MOST_HALVINGS + 1)?;
    let d = number_line(alloc, lines, src, b"grid", 1..NUMBER_LIMIT)?;
    let root = box_line(alloc, lines, src, parameters, depth as u32)?;
    Ok(Asked {
        bound,
        precisions: Precisions { from, w: w as u32 },
        depth: depth as u32,
        d,
        root,
    })
}

/// The parts of the head whose first line is due.
pub(crate) fn parts_at<S: Source>(
    alloc: Global,
    lines: &mut Lines,
    src: &mut S,
) -> Result<Parts, FileError>
    ensures { Follows S.left S.faults head_of head_at lines.old lines.new src.old src.new result }
{
    calls_add_up::<S>();
    let second = version_line(alloc, lines, src)?;
    let kind = kind_line(lines, src)?;
    let names = parameters_line(alloc, lines, src)?;
    let parameters = names.len();
    let sizes = sizes_lines(alloc, lines, src)?;
    let goal = goal_line(alloc, lines, src, sizes.states)?;
    let shape = Shape {
        kind,
        states: sizes.states,
        parameters,
    };
    let states = states(alloc, lines, src, shape)?;
    let asked = asked_lines(alloc, lines, src, second, parameters)?;
    Ok(Parts {
        kind,
        names,
        sizes,
        goal,
        states,
        asked,
    })
}
