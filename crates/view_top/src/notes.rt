// Notes of refusals.
ghost use Rattle.std.specs.Prelude.{◌≡◌};
ghost use Rattle.lift_base.specs.Outside.{Wrote};
ghost use Rattle.view_top.specs.Answers.{answered, cause_name, IsNoted, note_of, status_of, usage_note};

use crate::refusal::Refusal;
use check_notes::{Status, write_unsound_note};
use lift_base::{Sink, Word, WriteFault, write_all, write_words};
use view_words::{Cause, Usage};

fn status_of(refusal: Refusal) -> Status
    ensures { result ≡ status_of refusal }
{
    match refusal {
        Refusal::Usage(_) => Status::Usage,
        Refusal::Unsound(_) => Status::NotSound,
        Refusal::ReadFault => Status::ReadFault,
        Refusal::WriteFault => Status::WriteFault,
        Refusal::TooLong => Status::TooLong,
        Refusal::Memory => Status::Memory,
    }
}

fn cause_name(cause: Cause) -> &'static [u8]
    ensures { result.now ≡ cause_name cause }
{
    match cause {
        Cause::Syntax => b"Syntax",
        Cause::UnknownName => b"UnknownName",
        Cause::Repeated => b"Repeated",
        Cause::Outside => b"Outside",
    }
}

fn write_usage_note<E: Sink>(notes: &mut E, usage: Usage) -> Result<(), WriteFault>
    ensures { Wrote E.taken E.faults notes.old notes.new result (usage_note usage) }
{
    match usage {
        Usage::Words => write_all(notes, b"usage: words\n"),
        Usage::X(cause) => write_words(
            notes,
            &[
                Word::Text(b"usage: --x "),
                Word::Text(cause_name(cause)),
                Word::Text(b"\n"),
            ],
        ),
        Usage::Y(cause) => write_words(
            notes,
            &[
                Word::Text(b"usage: --y "),
                Word::Text(cause_name(cause)),
                Word::Text(b"\n"),
            ],
        ),
        Usage::At { place, cause } => write_words(
            notes,
            &[
                Word::Text(b"usage: --at "),
                Word::Count(place),
                Word::Text(b" "),
                Word::Text(cause_name(cause)),
                Word::Text(b"\n"),
            ],
        ),
    }
}

fn write_note<E: Sink>(notes: &mut E, refusal: Refusal) -> Result<(), WriteFault>
    ensures { Wrote E.taken E.faults notes.old notes.new result (note_of refusal) }
{
    match refusal {
        Refusal::Usage(usage) => write_usage_note(notes, usage),
        Refusal::Unsound(error) => write_unsound_note(notes, error),
        Refusal::ReadFault => write_all(notes, b"read fault\n"),
        Refusal::WriteFault => write_all(notes, b"write fault\n"),
        Refusal::TooLong => write_all(notes, b"too long\n"),
        Refusal::Memory => write_all(notes, b"out of memory\n"),
    }
}

/// How an answer ends the program. A refusal is told by its note; that the notes fail changes
/// nothing.
pub fn end<E: Sink>(notes: &mut E, answer: Result<(), Refusal>) -> Status
    ensures status { result ≡ answered answer }
    ensures noted { IsNoted E.taken E.faults notes.old notes.new answer }
{
    match answer {
        Ok(()) => Status::Done,
        Err(refusal) => {
            let _ = write_note(notes, refusal);
            status_of(refusal)
        }
    }
}
