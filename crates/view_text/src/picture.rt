// The picture of a slice of a report's region.
ghost use Rattle.std.specs.Prelude.{◌≡◌};
ghost use Rattle.lift_base.specs.Outside.{Wrote};
ghost use Rattle.view_text.specs.Picture.{bottom_text, size_text, start_text, svg_text, top_text};

use crate::axes::{write_axis, write_cuts};
use crate::axis::Axis;
use crate::field::write_field;
use crate::legend::{write_legend, write_patterns};
use crate::style::{DESC_START, PATTERNS_END, PATTERNS_START, PICTURE_END, write_size};
use crate::ticks::write_note;
use crate::title::{write_question, write_shares, write_title};
use cert_text::Head;
use lift_base::{Sink, Text, WriteFault, write_all, writes_in_turn};
use view_map::{ReportMap, Slice};

/// The picture of a slice of a report's region, as SVG.
#[derive(Clone, Copy)]
pub struct Picture<'a> {
    pub map: &'a ReportMap,
    pub slice: &'a Slice,
}

// Writes the start: size, name, description and patterns.
fn write_start<K: Sink>(out: &mut K, map: &ReportMap, slice: &Slice) -> Result<(), WriteFault>
    ensures { Wrote K.taken K.faults out.old out.new result (start_text map.now slice.now) }
{
    writes_in_turn::<K>();
    write_size(out, slice)?;
    write_question(out, map.head())?;
    write_all(out, DESC_START)?;
    write_shares(out, map)?;
    write_all(out, PATTERNS_START)?;
    write_patterns(out)?;
    write_all(out, PATTERNS_END)
}

// Writes what stands above the field.
fn write_top<K: Sink>(out: &mut K, map: &ReportMap, slice: &Slice) -> Result<(), WriteFault>
    ensures { Wrote K.taken K.faults out.old out.new result (top_text map.now slice.now) }
{
    writes_in_turn::<K>();
    write_start(out, map, slice)?;
    write_title(out, map)?;
    write_legend(out)?;
    write_axis(out, map.head(), Axis::Upright, slice.y())
}

// Writes what stands below it.
fn write_bottom<K: Sink>(out: &mut K, head: &Head, slice: &Slice) -> Result<(), WriteFault>
    ensures { Wrote K.taken K.faults out.old out.new result (bottom_text head.now slice.now) }
{
    writes_in_turn::<K>();
    write_axis(out, head, Axis::Across, slice.x())?;
    write_note(out, head, slice)?;
    write_cuts(out, head, slice)?;
    write_all(out, PICTURE_END)
}

// Writes the picture.
fn write_picture<K: Sink>(out: &mut K, map: &ReportMap, slice: &Slice) -> Result<(), WriteFault>
    ensures { Wrote K.taken K.faults out.old out.new result (svg_text map.now slice.now) }
{
    writes_in_turn::<K>();
    write_top(out, map, slice)?;
    write_field(out, map, slice)?;
    write_bottom(out, map.head(), slice)
}

impl<'a> Text for Picture<'a> {
    ghost text = { λ p. svg_text p.map.now p.slice.now };

    fn write_to<K: Sink>(&self, out: &mut K) -> Result<(), WriteFault> {
        write_picture(out, self.map, self.slice)
    }
}
