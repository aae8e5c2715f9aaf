// What a report tells: what was asked, of what, and the shares of the volume.
ghost use Rattle.std.specs.Prelude.{◌≡◌};
ghost use Rattle.lift_base.specs.Outside.{Wrote};
ghost use Rattle.view_text.specs.Picture.{bound_text, depth_text, kind_name, model_text, question};
ghost use Rattle.view_text.specs.Picture.{range_text, shares_text, title_text};

use crate::share::write_percent;
use crate::style::{MODEL_START, QUESTION_START, SHARES_START, TEXT_END};
use cert_text::Head;
use lift_base::{Sink, Word, WriteFault, write_all, write_words, writes_in_turn};
use lift_model::{Kind, Model};
use view_map::{LeafKind, ReportMap};

fn write_bound<K: Sink>(out: &mut K, head: &Head) -> Result<(), WriteFault>
    ensures { Wrote K.taken K.faults out.old out.new result (bound_text head.now) }
{
    let bound = head.bound();
    write_words(
        out,
        &[
            Word::Text(b"at most "),
            Word::Count(u64::from(bound.num)),
            Word::Text(b"/"),
            Word::Count(u64::from(bound.den)),
            Word::Text(b", numbers over 2^"),
        ],
    )
}

// Writes the least precision of a range, before the greatest, where they differ.
fn write_range<K: Sink>(out: &mut K, least: u32, greatest: u32) -> Result<(), WriteFault>
    ensures { Wrote K.taken K.faults out.old out.new result (range_text least greatest) }
{
    writes_in_turn::<K>();
    if least == greatest {
        return Ok(());
    }
    write_words(out, &[Word::Count(u64::from(least)), Word::Text(b" to 2^")])
}

// Writes the greatest precision and the depth.
fn write_depth<K: Sink>(out: &mut K, head: &Head) -> Result<(), WriteFault>
    ensures { Wrote K.taken K.faults out.old out.new result (depth_text head.now) }
{
    write_words(
        out,
        &[
            Word::Count(u64::from(head.w())),
            Word::Text(b", depth "),
            Word::Count(u64::from(head.grid().depth)),
        ],
    )
}

/// Writes what was asked.
pub(crate) fn write_question<K: Sink>(out: &mut K, head: &Head) -> Result<(), WriteFault>
    ensures { Wrote K.taken K.faults out.old out.new result (question head.now) }
{
    writes_in_turn::<K>();
    write_bound(out, head)?;
    write_range(out, head.from(), head.w())?;
    write_depth(out, head)
}

fn kind_name(kind: Kind) -> &'static [u8]
    ensures { result.now ≡ kind_name kind }
{
    match kind {
        Kind::Dtmc => b"Markov chain",
        Kind::Mdp => b"Markov decision process",
    }
}

// Writes of what it was asked.
fn write_model<K: Sink>(out: &mut K, model: &Model) -> Result<(), WriteFault>
    ensures { Wrote K.taken K.faults out.old out.new result (model_text model.now) }
{
    write_words(
        out,
        &[
            Word::Text(kind_name(model.kind())),
            Word::Text(b", states: "),
            Word::Count(u64::from(model.states())),
        ],
    )
}

/// Writes the shares of the kinds of leaves.
pub(crate) fn write_shares<K: Sink>(out: &mut K, map: &ReportMap) -> Result<(), WriteFault>
    ensures { Wrote K.taken K.faults out.old out.new result (shares_text map.now.parts) }
{
    writes_in_turn::<K>();
    write_percent(out, b"accepted ", map.share_of(LeafKind::Accept))?;
    write_percent(out, b", rejected ", map.share_of(LeafKind::Reject))?;
    write_percent(out, b", unknown ", map.share_of(LeafKind::Unknown))?;
    write_all(out, b" of the volume, rounded down")
}

/// Writes the title: what was asked, of what, and the shares.
pub(crate) fn write_title<K: Sink>(out: &mut K, map: &ReportMap) -> Result<(), WriteFault>
    ensures { Wrote K.taken K.faults out.old out.new result (title_text map.now) }
{
    writes_in_turn::<K>();
    write_all(out, QUESTION_START)?;
    write_question(out, map.head())?;
    write_all(out, MODEL_START)?;
    write_model(out, map.head().model())?;
    write_all(out, SHARES_START)?;
    write_shares(out, map)?;
    write_all(out, TEXT_END)
}
