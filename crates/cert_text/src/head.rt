// Writes the head of a report.
ghost use Rattle.std.specs.Prelude.{◌++◌, is_some};
ghost use Rattle.std.specs.List.{concat};
ghost use Rattle.lift_base.specs.Outside.{Wrote};
ghost use Rattle.cert_text.specs.Report.{line, version_words, asked_lines, from_lines, scale_lines, box_line, region_lines, head_lines};

use crate::model::write_model;
use corner_lift::Case;
use lift_base::{Sink, Word, WriteFault, write_all, write_words, writes_in_turn};
use lift_cert::Bound;
use lift_grid::Rect;

fn write_version<K: Sink>(out: &mut K, from: Option<u32>) -> Result<(), WriteFault>
    ensures { Wrote K.taken K.faults out.old out.new result (line (version_words (is_some from))) }
{
    match from {
        None => write_all(out, b"plift 1\n"),
        Some(_) => write_all(out, b"plift 2\n"),
    }
}

#[tactic(auto, unfolding(crate::specs::Report::asked_lines))]
fn write_asked<K: Sink>(out: &mut K, case: &Case, bound: Bound) -> Result<(), WriteFault>
    ensures { Wrote K.taken K.faults out.old out.new result (concat (asked_lines case.now bound)) }
{
    write_words(
        out,
        &[
            Word::Text(b"bound "),
            Word::Count(u64::from(bound.num)),
            Word::Text(b"/"),
            Word::Count(u64::from(bound.den)),
            Word::Text(b"\nprecision "),
            Word::Count(u64::from(case.w())),
            Word::Text(b"\n"),
        ],
    )
}

fn write_from<K: Sink>(out: &mut K, from: Option<u32>) -> Result<(), WriteFault>
    ensures { Wrote K.taken K.faults out.old out.new result (concat (from_lines from)) }
{
    writes_in_turn::<K>();
    match from {
        None => Ok(()),
        Some(v) => write_words(
            out,
            &[
                Word::Text(b"from "),
                Word::Count(u64::from(v)),
                Word::Text(b"\n"),
            ],
        ),
    }
}

#[tactic(auto, unfolding(crate::specs::Report::scale_lines))]
fn write_scale<K: Sink>(out: &mut K, case: &Case) -> Result<(), WriteFault>
    ensures { Wrote K.taken K.faults out.old out.new result (concat (scale_lines case.now)) }
{
    let grid = case.grid();
    write_words(
        out,
        &[
            Word::Text(b"depth "),
            Word::Count(u64::from(grid.depth)),
            Word::Text(b"\ngrid "),
            Word::Number(i128::from(grid.d)),
            Word::Text(b"\n"),
        ],
    )
}

/// Writes the line of a root. Takes no memory.
pub fn write_box<K: Sink>(out: &mut K, root: &Rect) -> Result<(), WriteFault>
    ensures { Wrote K.taken K.faults out.old out.new result (box_line root.now) }
{
    let sides = root.sides();
    write_words(
        out,
        &[Word::Text(b"box"), Word::Numbers(sides), Word::Text(b"\n")],
    )
}

/// Writes the last three lines of a head: the depth, the grid and the root.
fn write_region<K: Sink>(out: &mut K, case: &Case) -> Result<(), WriteFault>
    ensures { Wrote K.taken K.faults out.old out.new result (concat (region_lines case.now)) }
{
    writes_in_turn::<K>();
    write_scale(out, case)?;
    write_box(out, case.root())
}

/// Writes a head whose lines above the last three are given. Takes no memory.
pub fn write_head_below<K: Sink>(out: &mut K, top: &[u8], case: &Case) -> Result<(), WriteFault>
    ensures { Wrote K.taken K.faults out.old out.new result (top.now ++ concat (region_lines case.now)) }
{
    writes_in_turn::<K>();
    write_all(out, top)?;
    write_region(out, case)
}

/// Writes the head of a report: the version, the case's model, and what is asked of it. With a least
/// precision the report is of the second version. Takes no memory.
pub fn write_head<K: Sink>(
    out: &mut K,
    case: &Case,
    bound: Bound,
    from: Option<u32>,
) -> Result<(), WriteFault>
    ensures { Wrote K.taken K.faults out.old out.new result (concat (head_lines case.now from bound)) }
{
    writes_in_turn::<K>();
    write_version(out, from)?;
    write_model(out, case.model())?;
    write_asked(out, case, bound)?;
    write_from(out, from)?;
    write_region(out, case)
}
