// The ticks of an axis.
ghost use Rattle.std.specs.Prelude.{◌≡◌, ◌<◌, ◌≤◌, ◌*◌, ◌^◌, ◌*ℤ◌, ◌||◌, pos, unsigned_abs};
ghost use Rattle.lift_base.specs.Outside.{Wrote};
ghost use Rattle.view_text.specs.Axes.{all_ticks, has_ticks, note_text, places_of, quarters, tick_text, ticks_text};

use crate::axis::Axis;
use crate::decimal::{Places, write_decimal};
use crate::style::{GROUP_END, ROUNDED_NOTE, TEXT_END, ticks_start, write_tick_start};
use cert_text::Head;
use lift_base::{Sink, WriteFault, write_all, writes_in_turn};
use view_map::{Slice, span_at};

/// From where to where an axis goes, over a grid.
#[derive(Clone, Copy)]
struct Span {
    low: i64,
    high: i64,
    d: u64,
}

// How many places the numbers of the ticks have, where there are ticks.
fn places_of(span: Span) -> Option<Places>
    ensures { result ≡ places_of (span.low, span.high) span.d }
{
    let d = u128::from(span.d);
    let width = u128::from(span.high.abs_diff(span.low));
    let size = u128::from(span.low.unsigned_abs().max(span.high.unsigned_abs()));
    if 10_000 * d <= size {
        None
    } else if d <= 25 * width {
        Some(Places::Three)
    } else if d <= 25_000 * width {
        Some(Places::Six)
    } else if d <= 25_000_000 * width {
        Some(Places::Nine)
    } else {
        None
    }
}

// A few times a number.
fn times(a: i64, n: u32) -> i128
    requires { n ≤ 4 }
    ensures value { result ≡ a *ℤ pos n }
    ensures within { unsigned_abs result ≤ 2 ^ 65 }
{
    i128::from(a) * i128::from(n)
}

// So many quarters of the way from the low end to the high end, in quarters.
fn quarters(low: i64, high: i64, n: u32) -> i128
    requires { n ≤ 4 }
    ensures value { result ≡ quarters (low, high) n }
    ensures within { unsigned_abs result ≤ 2 ^ 66 }
{
    times(low, 4 - n) + times(high, n)
}

// Writes the number of a tick, where it stands.
fn write_tick<K: Sink>(
    out: &mut K,
    axis: Axis,
    span: Span,
    places: Places,
    n: u32,
) -> Result<(), WriteFault>
    requires quarter { n ≤ 4 }
    requires grid { 0 < span.d }
    ensures { Wrote K.taken K.faults out.old out.new result
        (tick_text span.d axis (span.low, span.high) places n) }
{
    writes_in_turn::<K>();
    write_tick_start(out, axis, n)?;
    let num = quarters(span.low, span.high, n);
    write_decimal(out, places, num, 4 * u128::from(span.d))?;
    write_all(out, TEXT_END)
}

// Writes the marks and the numbers of an axis.
fn write_all_ticks<K: Sink>(
    out: &mut K,
    axis: Axis,
    span: Span,
    places: Places,
) -> Result<(), WriteFault>
    requires { 0 < span.d }
    ensures { Wrote K.taken K.faults out.old out.new result
        (all_ticks span.d axis (span.low, span.high) (Some places)) }
{
    writes_in_turn::<K>();
    write_all(out, ticks_start(axis))?;
    write_tick(out, axis, span, places, 0)?;
    write_tick(out, axis, span, places, 1)?;
    write_tick(out, axis, span, places, 2)?;
    write_tick(out, axis, span, places, 3)?;
    write_tick(out, axis, span, places, 4)?;
    write_all(out, GROUP_END)
}

// Writes them where there are some.
fn write_some_ticks<K: Sink>(out: &mut K, axis: Axis, span: Span) -> Result<(), WriteFault>
    requires { 0 < span.d }
    ensures { Wrote K.taken K.faults out.old out.new result
        (all_ticks span.d axis (span.low, span.high) (places_of (span.low, span.high) span.d)) }
{
    writes_in_turn::<K>();
    match places_of(span) {
        None => Ok(()),
        Some(places) => write_all_ticks(out, axis, span, places),
    }
}

/// Writes the ticks of an axis that goes from one end to another.
pub(crate) fn write_ticks<K: Sink>(
    out: &mut K,
    head: &Head,
    axis: Axis,
    low: i64,
    high: i64,
) -> Result<(), WriteFault>
    ensures { Wrote K.taken K.faults out.old out.new result (ticks_text head.now axis (low, high)) }
{
    let _ = head.w();
    let d = head.grid().d.unsigned_abs();
    write_some_ticks(out, axis, Span { low, high, d })
}

// Whether there is an axis that has ticks.
fn has_ticks(head: &Head, parameter: Option<u32>) -> bool
    ensures { result ≡ has_ticks head.now parameter }
{
    match parameter {
        None => false,
        Some(parameter) => {
            let (low, high) = span_at(head.root().sides(), parameter);
            let d = head.grid().d.unsigned_abs();
            places_of(Span { low, high, d }).is_some()
        }
    }
}

// Whether there are ticks on either axis.
fn is_ticked(head: &Head, slice: &Slice) -> bool
    ensures { result ≡ (has_ticks head.now slice.now.x || has_ticks head.now slice.now.y) }
{
    has_ticks(head, slice.x()) || has_ticks(head, slice.y())
}

/// Writes that ticks are rounded, once for both axes, where there are some.
pub(crate) fn write_note<K: Sink>(out: &mut K, head: &Head, slice: &Slice) -> Result<(), WriteFault>
    ensures { Wrote K.taken K.faults out.old out.new result
        (note_text head.now slice.now.x slice.now.y) }
{
    if is_ticked(head, slice) {
        write_all(out, ROUNDED_NOTE)
    } else {
        Ok(())
    }
}
