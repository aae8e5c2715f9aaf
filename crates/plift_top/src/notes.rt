// Notes of refusals.
ghost use Rattle.std.specs.Prelude.{◌≡◌};
ghost use Rattle.lift_base.specs.Outside.{Wrote};
ghost use Rattle.plift_top.specs.Answers.{status_of, usage_note, region_note, model_note};
ghost use Rattle.plift_top.specs.Answers.{rows_note, note_of, answered, IsNoted};

use crate::refusal::Refusal;
use check_notes::{Status, write_row_words, write_unsound_note};
use drn_read::DrnError;
use lift_base::{Sink, Word, WriteFault, write_all, write_words, writes_in_turn};
use lift_grid::RegionError;
use lift_rows::RowError;
use plift_words::Field;

fn status_of(refusal: Refusal) -> Status
    ensures { result ≡ status_of refusal }
{
    match refusal {
        Refusal::Usage(_) | Refusal::Region(_) => Status::Usage,
        Refusal::Model(_) | Refusal::NotChain => Status::ModelRefused,
        Refusal::Rows(_) | Refusal::TooWide => Status::RowsRefused,
        Refusal::Unsound(_) => Status::NotSound,
        Refusal::ReadFault => Status::ReadFault,
        Refusal::WriteFault => Status::WriteFault,
        Refusal::TooLong => Status::TooLong,
        Refusal::Memory => Status::Memory,
    }
}

fn usage_note(field: Field) -> &'static [u8]
    ensures { result.now ≡ usage_note field }
{
    match field {
        Field::Words => b"usage: words\n",
        Field::Goal => b"usage: --goal\n",
        Field::Bound => b"usage: --bound\n",
        Field::Depth => b"usage: --depth\n",
        Field::Precision => b"usage: --precision\n",
        Field::Steps => b"usage: --steps\n",
        Field::From => b"usage: --from\n",
        Field::Blocks => b"usage: N\n",
        Field::Formula => b"usage: --formula Syntax\n",
        Field::FormulaBound => b"usage: --formula Bound\n",
        Field::Reward => b"usage: --reward\n",
        Field::Cap => b"usage: --cap\n",
        Field::Budget => b"usage: --budget\n",
    }
}

fn write_model_note<E: Sink>(notes: &mut E, error: DrnError) -> Result<(), WriteFault>
    ensures { Wrote E.taken E.faults notes.old notes.new result (model_note error) }
{
    write_words(
        notes,
        &[
            Word::Text(b"model: line "),
            Word::Count(u64::from(error.line)),
            Word::Text(b": "),
            Word::Text(error.cause.name().as_bytes()),
            Word::Text(b"\n"),
        ],
    )
}

fn write_region_note<E: Sink>(notes: &mut E, error: RegionError) -> Result<(), WriteFault>
    ensures { Wrote E.taken E.faults notes.old notes.new result (region_note error) }
{
    write_words(
        notes,
        &[
            Word::Text(b"usage: --region "),
            Word::Text(error.name().as_bytes()),
            Word::Text(b"\n"),
        ],
    )
}

fn write_rows_note<E: Sink>(notes: &mut E, error: RowError) -> Result<(), WriteFault>
    ensures { Wrote E.taken E.faults notes.old notes.new result (rows_note error) }
{
    writes_in_turn::<E>();
    write_all(notes, b"rows: ")?;
    write_row_words(notes, error)?;
    write_all(notes, b"\n")
}

fn write_note<E: Sink>(notes: &mut E, refusal: Refusal) -> Result<(), WriteFault>
    ensures { Wrote E.taken E.faults notes.old notes.new result (note_of refusal) }
{
    match refusal {
        Refusal::Usage(field) => write_all(notes, usage_note(field)),
        Refusal::Region(error) => write_region_note(notes, error),
        Refusal::Model(error) => write_model_note(notes, error),
        Refusal::Rows(error) => write_rows_note(notes, error),
        Refusal::Unsound(error) => write_unsound_note(notes, error),
        Refusal::NotChain => write_all(notes, b"lump: not a chain\n"),
        Refusal::TooWide => write_all(notes, b"lump: too wide\n"),
        Refusal::ReadFault => write_all(notes, b"read fault\n"),
        Refusal::WriteFault => write_all(notes, b"write fault\n"),
        Refusal::TooLong => write_all(notes, b"too long\n"),
        Refusal::Memory => write_all(notes, b"out of memory\n"),
    }
}

/// How an answer ends the program. A refusal is told by its note; that the notes fail changes
/// nothing.
pub fn end<E: Sink>(notes: &mut E, answer: Result<(), Refusal>) -> Status
    ensures status { result ≡ answered answer }
    ensures noted { IsNoted E.taken E.faults notes.old notes.new answer }
{
    match answer {
        Ok(()) => Status::Done,
        Err(refusal) => {
            let _ = write_note(notes, refusal);
            status_of(refusal)
        }
    }
}
