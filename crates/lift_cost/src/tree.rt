//! The tree of a case for a budget.

ghost use Rattle.lift_base.specs.Outside.{WroteSome};
ghost use Rattle.lift_cost.specs.Decided.{CanAskCost, asked};
ghost use Rattle.lift_cost.specs.Rooms.{IsAsMade, IsMadeFor};
ghost use Rattle.lift_cost.specs.Text.{IsTreeText};

use crate::decider::CostDecider;
use crate::laws::least_costs_are_one;
use crate::question::CostQuestion;
use crate::room::CostRoom;
use lift_base::{Sink, WriteFault};

/// Writes the lines of the nodes of the case's right tree for what is asked, in preorder, and ends at the first
/// failure. The room was made for the case, and after it is as made. Takes no memory.
///
/// At Ok there is a right tree. Whichever tree is right, all its lines were written, or after an error a part of
/// them, from the front. An error comes only where the sink's count of faults rose or stands at its last value.
pub fn write_tree<K: Sink>(
    question: &CostQuestion,
    room: &mut CostRoom,
    out: &mut K,
) -> Result<(), WriteFault>
    requires can { CanAskCost question.now }
    requires made { IsMadeFor question.now.case.now question.now.links.now room.old }
    ensures wrote { WroteSome (IsTreeText question.now.case.now (asked question.now) question.now.case.now.root 0)
        K.taken K.faults out.old out.new result }
    ensures room { IsAsMade room.old room.new }
{
    least_costs_are_one();
    let decider = CostDecider {
        question: &*question,
    };
    tree_writer::write_tree(
        question.case,
        &decider,
        &mut room.sides,
        &mut room.lanes,
        out,
    )
}
