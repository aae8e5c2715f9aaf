ghost use Rattle.lift_base.specs.Laws.{WritesNothing, WritesBoth, StopsBefore, BeginsWithAll};
ghost use Rattle.lift_base.specs.Laws.{GoesOn, StopsThere, EndsWithAll};
ghost use Rattle.lift_base.specs.Lines.{FrontsAreOne};

use crate::output::Sink;

/// Holds the laws of calls that write one after the other into a sink, for who reasons about them:
/// of two calls, and of a text that is written in many pieces. It does nothing.
pub fn writes_in_turn<K: Sink>()
    ensures nothing { WritesNothing K.taken K.faults }
    ensures both { WritesBoth K.taken K.faults }
    ensures stopped { StopsBefore K.taken K.faults }

    // A text in many pieces.
    ensures begins { BeginsWithAll K.taken K.faults }
    ensures next { GoesOn K.taken K.faults }
    ensures stops { StopsThere K.taken K.faults }
    ensures ends { EndsWithAll K.taken K.faults }
{}

/// Holds the law that one thing alone stands at the front of what is left of a source, so that what was told of
/// it is told again where nothing was given. It does nothing.
pub fn fronts_are_one()
    ensures { FrontsAreOne }
{}
