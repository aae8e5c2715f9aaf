//! The tree of a case for a number of steps.

ghost use Rattle.lift_base.specs.Outside.{WroteSome};
ghost use Rattle.lift_model.specs.Links.{AreLinks};
ghost use Rattle.lift_bounded.specs.Rooms.{IsAsMade, IsMadeFor};
ghost use Rattle.lift_bounded.specs.Text.{IsTreeText};

use crate::decider::StepDecider;
use crate::laws::certificates_by_steps_are_one;
use crate::room::BoundedRoom;
use corner_lift::Case;
use lift_base::{Sink, WriteFault};
use lift_cert::Bound;
use lift_model::Links;

/// Writes the lines of the nodes of the case's right tree for as many steps as the room was made for, in preorder,
/// and ends at the first failure. The room was made for the case, and after it is as made. Takes no memory.
///
/// At Ok there is a right tree. Whichever tree is right, all its lines were written, or after an error a part of
/// them, from the front. An error comes only where the sink's count of faults rose or stands at its last value.
pub fn write_tree<K: Sink>(
    case: &Case,
    links: &Links,
    bound: Bound,
    room: &mut BoundedRoom,
    out: &mut K,
) -> Result<(), WriteFault>
    requires links { AreLinks case.now.model links.now }
    requires made { IsMadeFor case.now links.now room.old }
    ensures wrote { WroteSome (IsTreeText case.now bound room.old.steps case.now.root 0)
        K.taken K.faults out.old out.new result }
    ensures room { IsAsMade room.old room.new }
{
    certificates_by_steps_are_one();
    let decider = StepDecider {
        case: &*case,
        links: &*links,
        bound,
        steps: room.steps,
    };
    tree_writer::write_tree(case, &decider, &mut room.sides, &mut room.lanes, out)
}
