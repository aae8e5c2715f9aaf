// The patterns of the kinds of leaves, and the legend.
ghost use Rattle.lift_base.specs.Outside.{Wrote};
ghost use Rattle.view_text.specs.Style.{box_text, each_kind, legend_text, pattern_text, word_text};

use crate::style::{BOXES_START, GROUP_END, write_box, write_pattern, write_word};
use lift_base::{Sink, WriteFault, write_all, writes_in_turn};
use view_map::LeafKind;

/// Writes the pattern of each kind.
pub(crate) fn write_patterns<K: Sink>(out: &mut K) -> Result<(), WriteFault>
    ensures { Wrote K.taken K.faults out.old out.new result (each_kind pattern_text) }
{
    writes_in_turn::<K>();
    write_pattern(out, LeafKind::Accept)?;
    write_pattern(out, LeafKind::Reject)?;
    write_pattern(out, LeafKind::Unknown)
}

fn write_boxes<K: Sink>(out: &mut K) -> Result<(), WriteFault>
    ensures { Wrote K.taken K.faults out.old out.new result (each_kind box_text) }
{
    writes_in_turn::<K>();
    write_box(out, LeafKind::Accept)?;
    write_box(out, LeafKind::Reject)?;
    write_box(out, LeafKind::Unknown)
}

fn write_kind_words<K: Sink>(out: &mut K) -> Result<(), WriteFault>
    ensures { Wrote K.taken K.faults out.old out.new result (each_kind word_text) }
{
    writes_in_turn::<K>();
    write_word(out, LeafKind::Accept)?;
    write_word(out, LeafKind::Reject)?;
    write_word(out, LeafKind::Unknown)
}

/// Writes the legend, a box and a word for each kind.
pub(crate) fn write_legend<K: Sink>(out: &mut K) -> Result<(), WriteFault>
    ensures { Wrote K.taken K.faults out.old out.new result legend_text }
{
    writes_in_turn::<K>();
    write_all(out, BOXES_START)?;
    write_boxes(out)?;
    write_all(out, GROUP_END)?;
    write_kind_words(out)
}
