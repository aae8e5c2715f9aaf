// The text of a case for a property, which is written while its tree is walked over.
ghost use Rattle.std.specs.Prelude.{◌≡◌, IfSome};
ghost use Rattle.std.specs.List.{concat};
ghost use Rattle.lift_base.specs.Outside.{Wrote};
ghost use Rattle.lift_model.specs.Links.{AreLinks};
ghost use Rattle.lift_range.specs.Range.{Between};
ghost use Rattle.region_tree.specs.Rooms.{IsMadeFor};
ghost use Rattle.property_text.specs.Grammar.{op_text};
ghost use Rattle.property_tree.specs.Text.{IsAskedText};
ghost use Rattle.plift_words.specs.declared.query.Query.TheVariants as query;
ghost use Rattle.plift_top.specs.Asked.{AskedModel, cut};
ghost use Rattle.plift_top.specs.Property.{property_line, property_lines, property_head};
ghost use Rattle.plift_top.specs.Steps.{IsTestedCase, AnswersCase};

use crate::asking::{Asking, answer};
use crate::heads::write_fineness;
use crate::refusal::Refusal;
use cert_text::write_model;
use corner_lift::{live_parameters_have_spans, lower_precisions_are_cases};
use lift_base::{Sink, Word, WriteFault, write_all, write_words, writes_in_turn};
use lift_cert::Bound;
use lift_dual::until_is_bounded;
use lift_grid::trees_tile;
use property_text::{Op, until_is_reach};
use property_tree::{Question, write_tree};
use region_tree::{Room, rectangles_at_depths};
use std::alloc::{AllocError, Global};

// A comparison as it is written.
fn op_text(op: Op) -> &'static [u8]
    ensures { result.now ≡ op_text op }
{
    match op {
        Op::AtMost => b"<=",
        Op::Below => b"<",
        Op::AtLeast => b">=",
        Op::Above => b">",
    }
}

// Writes the comparison and the bound.
#[tactic(auto, unfolding(crate::specs::Property::property_lines))]
fn write_asked<K: Sink>(out: &mut K, op: Op, bound: Bound) -> Result<(), WriteFault>
    ensures { Wrote K.taken K.faults out.old out.new result (concat (property_lines op bound)) }
{
    write_words(
        out,
        &[
            Word::Text(b"property "),
            Word::Text(op_text(op)),
            Word::Text(b" "),
            Word::Count(u64::from(bound.num)),
            Word::Text(b"/"),
            Word::Count(u64::from(bound.den)),
            Word::Text(b"\n"),
        ],
    )
}

// The line of the version: the second one where a range of precisions is asked for.
fn version_line(from: Option<u32>) -> &'static [u8]
    ensures { result.now ≡ property_line from }
{
    match from {
        None => b"plift-property 1\n",
        Some(_) => b"plift-property 2\n",
    }
}

// Writes the head: the version, the case's model, and what is asked of it.
fn write_property_head<K: Sink>(out: &mut K, asked: &Question) -> Result<(), WriteFault>
    ensures { Wrote K.taken K.faults out.old out.new result
        (concat (property_head asked.now.case.now asked.now.from asked.now.op asked.now.bound)) }
{
    writes_in_turn::<K>();
    write_all(out, version_line(asked.from))?;
    write_model(out, asked.case.model())?;
    write_asked(out, asked.op, asked.bound)?;
    write_fineness(out, asked.case, asked.from)
}

impl<'c, 'm> Asking for Question<'c, 'm> {
    type Room = Room;

    ghost can = { λ q. AreLinks q.case.now.model q.links.now × IfSome q.from (Between 1 q.case.now.w) };

    ghost is_made = { λ q. IsMadeFor q.case.now q.links.now };

    ghost head = { λ q. concat (property_head q.case.now q.from q.op q.bound) };

    ghost are_nodes = { λ q. IsAskedText q.case.now q.from q.op q.bound q.case.now.root 0 };

    fn make_room(&self, alloc: Global) -> Result<Room, AllocError> {
        Room::make(alloc, self.case, self.links)
    }

    fn write_head<K: Sink>(&self, out: &mut K) -> Result<(), WriteFault> {
        write_property_head(out, self)
    }

    fn write_nodes<K: Sink>(&self, room: &mut Room, out: &mut K) -> Result<(), WriteFault> {
        write_tree(self, room, out)
    }
}

/// Takes all memory that is needed for a property of a case whose rows were tested, and writes the text for it.
pub(crate) fn answer_property<K: Sink>(
    alloc: Global,
    asked: &Question,
    out: &mut K,
) -> Result<(), Refusal>
    requires case { IsTestedCase asked.now.case.now }
    requires links { AreLinks asked.now.case.now.model asked.now.links.now }
    requires from { IfSome asked.now.from (Between 1 asked.now.case.now.w) }
    ensures { (a : AskedModel) → asked.now.case.now.model ≡ cut a
        → AnswersCase K.taken K.faults (query.Property asked.now.bound asked.now.op asked.now.from) a asked.now.case.now
        out.old out.new result }
{
    until_is_bounded();
    until_is_reach();
    rectangles_at_depths();
    live_parameters_have_spans();
    lower_precisions_are_cases();
    trees_tile();
    answer(alloc, asked, out)
}
