// The axes of a picture, and the values of the other parameters.
ghost use Rattle.std.specs.Prelude.{◌≡◌, [], slice_index_or, unsigned_abs};
ghost use Rattle.lift_base.specs.Outside.{Wrote};
ghost use Rattle.view_text.specs.Axes.{axis_text, cut_text, cuts_from, end_text, ends_text, name_label};
ghost use Rattle.view_text.specs.Axes.{parameter_name, short_name, span_text};
ghost use Rattle.view_text.specs.Numbers.{fraction_text};

use crate::axis::Axis;
use crate::fraction::write_fraction;
use crate::style::{TEXT_END, ends_start, name_start, write_cut_start};
use crate::ticks::write_ticks;
use cert_text::Head;
use lift_base::{Sink, Word, WriteFault, write_all, write_words, writes_in_turn};
use view_map::{Cut, Slice, span_at};

/// How many bytes of a name are shown at most.
const LONGEST: usize = 24;

/// The name of a parameter.
pub(crate) fn parameter_name(head: &Head, parameter: u32) -> &[u8]
    ensures { result.now ≡ parameter_name head.now parameter }
{
    let names = head.model().names();
    if parameter < names.len() {
        names.get(parameter)
    } else {
        b""
    }
}

// Writes a name, without its middle where it is long.
fn write_short<K: Sink>(out: &mut K, name: &[u8]) -> Result<(), WriteFault>
    ensures { Wrote K.taken K.faults out.old out.new result (short_name name.now) }
{
    if name.len() <= LONGEST {
        return write_all(out, name);
    }
    write_words(
        out,
        &[
            Word::Text(&name[..11]),
            Word::Text(b"&#8230;"),
            Word::Text(&name[name.len() - 12..]),
        ],
    )
}

// Writes a parameter's name, whole for who points at it, and short.
fn write_label<K: Sink>(out: &mut K, head: &Head, parameter: u32) -> Result<(), WriteFault>
    ensures { Wrote K.taken K.faults out.old out.new result (name_label head.now parameter) }
{
    writes_in_turn::<K>();
    let name = parameter_name(head, parameter);
    write_all(out, b"<title>")?;
    write_all(out, name)?;
    write_all(out, b"</title>")?;
    write_short(out, name)
}

/// Writes an end of a parameter's span, over the grid.
pub(crate) fn write_end<K: Sink>(out: &mut K, head: &Head, end: i64) -> Result<(), WriteFault>
    ensures { Wrote K.taken K.faults out.old out.new result (end_text head.now end) }
{
    let _ = head.w();
    let d = head.grid().d;
    write_fraction(out, end, d.unsigned_abs())
}

// Writes both ends of a span.
fn write_ends<K: Sink>(out: &mut K, head: &Head, low: i64, high: i64) -> Result<(), WriteFault>
    ensures { Wrote K.taken K.faults out.old out.new result (ends_text head.now (low, high)) }
{
    writes_in_turn::<K>();
    write_all(out, b"from ")?;
    write_end(out, head, low)?;
    write_all(out, b" to ")?;
    write_end(out, head, high)
}

// Writes a parameter's name, its ends and its ticks.
fn write_span<K: Sink>(
    out: &mut K,
    head: &Head,
    axis: Axis,
    parameter: u32,
) -> Result<(), WriteFault>
    ensures { Wrote K.taken K.faults out.old out.new result (span_text head.now axis parameter) }
{
    writes_in_turn::<K>();
    let span = span_at(head.root().sides(), parameter);
    write_all(out, name_start(axis))?;
    write_label(out, head, parameter)?;
    write_all(out, ends_start(axis))?;
    write_ends(out, head, span.0, span.1)?;
    write_all(out, TEXT_END)?;
    write_ticks(out, head, axis, span.0, span.1)
}

/// Writes the same of the parameter on an axis, where there is one.
pub(crate) fn write_axis<K: Sink>(
    out: &mut K,
    head: &Head,
    axis: Axis,
    parameter: Option<u32>,
) -> Result<(), WriteFault>
    ensures { Wrote K.taken K.faults out.old out.new result (axis_text head.now axis parameter) }
{
    writes_in_turn::<K>();
    match parameter {
        None => Ok(()),
        Some(parameter) => write_span(out, head, axis, parameter),
    }
}

// Writes a value.
fn write_value<K: Sink>(out: &mut K, cut: Cut) -> Result<(), WriteFault>
    ensures { Wrote K.taken K.faults out.old out.new result
        (fraction_text cut.num (unsigned_abs cut.den)) }
{
    let (num, den) = cut.value();
    write_fraction(out, num, den.unsigned_abs())
}

// Writes a value of a parameter, on that line.
fn write_cut<K: Sink>(out: &mut K, head: &Head, line: u64, cut: Cut) -> Result<(), WriteFault>
    ensures { Wrote K.taken K.faults out.old out.new result (cut_text head.now line cut) }
{
    writes_in_turn::<K>();
    write_cut_start(out, line)?;
    write_label(out, head, cut.parameter())?;
    write_all(out, b" = ")?;
    write_value(out, cut)?;
    write_all(out, TEXT_END)
}

/// Writes the values of the other parameters.
pub(crate) fn write_cuts<K: Sink>(out: &mut K, head: &Head, slice: &Slice) -> Result<(), WriteFault>
    ensures { Wrote K.taken K.faults out.old out.new result (cuts_from head.now 0 slice.now.cuts) }
{
    writes_in_turn::<K>();
    for (line, cut) in slice.cuts().iter().enumerate() {
        write_cut(out, head, line as u64, *cut)?;
    }
    Ok(())
}
