//! The tree of a case for a property.

ghost use Rattle.std.specs.Prelude.{IfSome, Some, None};
ghost use Rattle.lift_base.specs.Outside.{WroteSome};
ghost use Rattle.lift_model.specs.Links.{AreLinks};
ghost use Rattle.lift_range.specs.Range.{Between};
ghost use Rattle.region_tree.specs.Rooms.{IsAsMade, IsMadeFor};
ghost use Rattle.property_tree.specs.Text.{IsAskedText};

use crate::decider::{PropertyDecider, RangeDecider};
use crate::laws::{leaves_are_one, range_leaves_are_one};
use crate::question::Question;
use lift_base::{Sink, WriteFault};
use region_tree::{Room, lanes_keep_their_shape};

/// As `write_tree`, at the case's precision.
fn write_alone<K: Sink>(question: &Question, room: &mut Room, out: &mut K) -> Result<(), WriteFault>
    requires links { AreLinks question.now.case.now.model question.now.links.now }
    requires made { IsMadeFor question.now.case.now question.now.links.now room.old }
    ensures wrote { WroteSome (IsAskedText question.now.case.now None question.now.op question.now.bound question.now.case.now.root 0)
        K.taken K.faults out.old out.new result }
    ensures room { IsAsMade room.old room.new }
{
    leaves_are_one();
    lanes_keep_their_shape();
    let _ = question.case.w();
    room.lanes.forget();
    let decider = PropertyDecider {
        question: &*question,
    };
    tree_writer::write_tree(
        question.case,
        &decider,
        &mut room.sides,
        &mut room.lanes,
        out,
    )
}

/// As `write_tree`, for the precisions from `from` to the case's.
fn write_range<K: Sink>(
    question: &Question,
    from: u32,
    room: &mut Room,
    out: &mut K,
) -> Result<(), WriteFault>
    requires links { AreLinks question.now.case.now.model question.now.links.now }
    requires made { IsMadeFor question.now.case.now question.now.links.now room.old }
    requires from { Between 1 question.now.case.now.w from }
    ensures wrote { WroteSome (IsAskedText question.now.case.now (Some from) question.now.op question.now.bound question.now.case.now.root 0)
        K.taken K.faults out.old out.new result }
    ensures room { IsAsMade room.old room.new }
{
    range_leaves_are_one();
    lanes_keep_their_shape();
    let _ = question.case.w();
    room.lanes.forget();
    let decider = RangeDecider {
        question: &*question,
        from,
    };
    tree_writer::write_tree(
        question.case,
        &decider,
        &mut room.sides,
        &mut room.lanes,
        out,
    )
}

/// Writes the lines of the nodes of the case's right tree for what is asked, in preorder, and ends at the first
/// failure. The room was made for the case, and after it is as made. Takes no memory.
///
/// At Ok there is a right tree. Whichever tree is right, all its lines were written, or after an error a part of
/// them, from the front. An error comes only where the sink's count of faults rose or stands at its last value.
pub fn write_tree<K: Sink>(
    question: &Question,
    room: &mut Room,
    out: &mut K,
) -> Result<(), WriteFault>
    requires links { AreLinks question.now.case.now.model question.now.links.now }
    requires made { IsMadeFor question.now.case.now question.now.links.now room.old }
    requires from { IfSome question.now.from (Between 1 question.now.case.now.w) }
    ensures wrote { WroteSome (IsAskedText question.now.case.now question.now.from question.now.op question.now.bound question.now.case.now.root 0)
        K.taken K.faults out.old out.new result }
    ensures room { IsAsMade room.old room.new }
{
    match question.from {
        Some(from) => write_range(question, from, room, out),
        None => write_alone(question, room, out),
    }
}
