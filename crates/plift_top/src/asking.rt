// What is asked of a case: its answer is a text, of which the nodes are written while the case's tree is walked over.
ghost use Rattle.std.specs.Prelude.{IfOk, List, ℕ};
ghost use Rattle.lift_base.specs.Outside.{Wrote, WroteSome};
ghost use Rattle.plift_top.specs.Heads.{IsHeaded};
ghost use Rattle.plift_top.specs.Steps.{WritesText};

use crate::refusal::Refusal;
use lift_base::{Sink, Telling, WriteFault, tell_buffered};
use std::alloc::{AllocError, Global};

/// What is asked of a case, and how its answer is written.
pub(crate) trait Asking {
    /// The memory that a walk over the case's tree works in.
    type Room: Drop;

    /// It can be asked.
    ghost can: { Self → Type 0 };

    /// The room was made for it.
    ghost is_made: { Self → Self.Room → Type 0 };

    /// The bytes of the head.
    ghost head: { Self → List ℕ };

    /// The bytes are those of the nodes of a tree that is right for it.
    ghost are_nodes: { Self → List ℕ → Type 0 };

    /// Takes all memory that its answer needs. The one error is that memory runs out.
    fn make_room(&self, alloc: Global) -> Result<Self::Room, AllocError>
        requires { can self.now }
        ensures { IfOk result (is_made self.now) };

    /// Writes the head.
    fn write_head<K: Sink>(&self, out: &mut K) -> Result<(), WriteFault>
        requires { can self.now }
        ensures { Wrote K.taken K.faults out.old out.new result (head self.now) };

    /// Writes each node of the right tree, as soon as it is decided. Takes no memory.
    fn write_nodes<K: Sink>(&self, room: &mut Self::Room, out: &mut K) -> Result<(), WriteFault>
        requires can { can self.now }
        requires made { is_made self.now room.old }
        ensures { WroteSome (are_nodes self.now) K.taken K.faults out.old out.new result };
}

// What is asked, with the room that was made for it.
#[derive(Drop)]
struct QueryInRoom<'a, 'r, A: Asking> {
    asked: &'a A,
    room: &'r mut A::Room,
}

impl<'a, 'r, A: Asking> Telling for QueryInRoom<'a, 'r, A> {
    ghost is_ready = { λ t. A.can t.asked.now × A.is_made t.asked.now t.room.now };

    ghost is_text = { λ t. IsHeaded (A.head t.asked.now) (A.are_nodes t.asked.now) };

    fn tell_to<K: Sink>(&mut self, out: &mut K) -> Result<(), WriteFault> {
        self.asked.write_head(out)?;
        self.asked.write_nodes(self.room, out)
    }
}

/// Takes all memory that an answer needs, and then writes it by way of a buffer. From then on no memory is taken.
pub(crate) fn answer<A: Asking, K: Sink>(
    alloc: Global,
    asked: &A,
    out: &mut K,
) -> Result<(), Refusal>
    requires { A.can asked.now }
    ensures { WritesText K.taken K.faults (IsHeaded (A.head asked.now) (A.are_nodes asked.now))
        out.old out.new result }
{
    let mut room = asked.make_room(alloc)?;
    let mut query = QueryInRoom {
        asked,
        room: &mut room,
    };
    let written = tell_buffered(out, &mut query);
    drop(room);
    Ok(written?)
}
