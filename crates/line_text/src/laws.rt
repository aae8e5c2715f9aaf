//! Laws of calls on lines of a source, for who reasons about readers over them. The functions do nothing.

ghost use Rattle.line_text.specs.Laws.{AddsUp, EndsBeyond, EndsWithin};

use lift_base::Source;

/// Calls in turn: what they take adds up.
pub fn calls_add_up<S: Source>()
    ensures { AddsUp S.left S.faults }
{}

/// How a reading ends.
pub fn readings_end<S: Source>()
    ensures within { EndsWithin S.left S.faults }
    ensures beyond { EndsBeyond S.left S.faults }
{}
