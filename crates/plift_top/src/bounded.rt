// The text of a case for a number of steps, which is written while its tree is walked over.
ghost use Rattle.std.specs.Prelude.{◌≡◌, ◌≤◌};
ghost use Rattle.std.specs.List.{concat};
ghost use Rattle.lift_base.specs.Outside.{Wrote};
ghost use Rattle.lift_model.specs.Links.{AreLinks};
ghost use Rattle.lift_bounded.specs.Rooms.{IsMadeFor};
ghost use Rattle.lift_bounded.specs.Text.{IsTreeText};
ghost use Rattle.plift_words.specs.Values.{most_steps};
ghost use Rattle.plift_words.specs.declared.query.Query.TheVariants as query;
ghost use Rattle.plift_top.specs.Asked.{AskedModel};
ghost use Rattle.plift_top.specs.Bounded.{within_lines, bounded_head};
ghost use Rattle.plift_top.specs.Steps.{IsTestedCase, AnswersCase};

use crate::asking::{Asking, answer};
use crate::heads::write_fineness;
use crate::refusal::Refusal;
use cert_text::write_model;
use corner_lift::{Case, live_parameters_have_spans};
use lift_base::{Sink, Word, WriteFault, write_all, write_words, writes_in_turn};
use lift_bounded::{BoundedRoom, certificates_by_steps_decide, write_tree};
use lift_cert::Bound;
use lift_grid::trees_tile;
use lift_model::Links;
use region_tree::rectangles_at_depths;
use std::alloc::{AllocError, Global};

// Writes the bound and the number of steps.
#[tactic(auto, unfolding(crate::specs::Bounded::within_lines))]
fn write_within<K: Sink>(out: &mut K, bound: Bound, steps: u32) -> Result<(), WriteFault>
    ensures { Wrote K.taken K.faults out.old out.new result (concat (within_lines bound steps)) }
{
    write_words(
        out,
        &[
            Word::Text(b"bound "),
            Word::Count(u64::from(bound.num)),
            Word::Text(b"/"),
            Word::Count(u64::from(bound.den)),
            Word::Text(b"\nsteps "),
            Word::Count(u64::from(steps)),
            Word::Text(b"\n"),
        ],
    )
}

// Writes the head: the version, the case's model, and what is asked of it.
fn write_bounded_head<K: Sink>(
    out: &mut K,
    case: &Case,
    bound: Bound,
    steps: u32,
) -> Result<(), WriteFault>
    ensures { Wrote K.taken K.faults out.old out.new result
        (concat (bounded_head case.now bound steps)) }
{
    writes_in_turn::<K>();
    write_all(out, b"plift-bounded 1\n")?;
    write_model(out, case.model())?;
    write_within(out, bound, steps)?;
    write_fineness(out, case, None)
}

/// What is asked of a case whose rows were tested: whether what is reached within so many steps stays within a bound.
#[derive(Clone, Copy)]
pub(crate) struct Within<'c, 'm> {
    pub case: &'c Case<'m>,
    pub links: &'c Links,
    pub bound: Bound,
    pub steps: u32,
}

impl<'c, 'm> Asking for Within<'c, 'm> {
    type Room = BoundedRoom;

    ghost can = { λ q. AreLinks q.case.now.model q.links.now × (1 ≤ q.steps) × (q.steps ≤ most_steps) };

    ghost is_made = { λ q room. IsMadeFor q.case.now q.links.now room × (room.steps ≡ q.steps) };

    ghost head = { λ q. concat (bounded_head q.case.now q.bound q.steps) };

    ghost are_nodes = { λ q. IsTreeText q.case.now q.bound q.steps q.case.now.root 0 };

    fn make_room(&self, alloc: Global) -> Result<BoundedRoom, AllocError> {
        BoundedRoom::make(alloc, self.case, self.links, self.steps)
    }

    fn write_head<K: Sink>(&self, out: &mut K) -> Result<(), WriteFault> {
        write_bounded_head(out, self.case, self.bound, self.steps)
    }

    fn write_nodes<K: Sink>(&self, room: &mut BoundedRoom, out: &mut K) -> Result<(), WriteFault> {
        write_tree(self.case, self.links, self.bound, room, out)
    }
}

/// Takes all memory that is needed for a number of steps, and writes the text for them.
pub(crate) fn answer_within<K: Sink>(
    alloc: Global,
    asked: &Within,
    out: &mut K,
) -> Result<(), Refusal>
    requires case { IsTestedCase asked.now.case.now }
    requires links { AreLinks asked.now.case.now.model asked.now.links.now }
    requires steps { (1 ≤ asked.now.steps) × (asked.now.steps ≤ most_steps) }
    ensures { (a : AskedModel) → AnswersCase K.taken K.faults (query.Within asked.now.bound asked.now.steps) a
        asked.now.case.now out.old out.new result }
{
    certificates_by_steps_decide();
    rectangles_at_depths();
    live_parameters_have_spans();
    trees_tile();
    answer(alloc, asked, out)
}
