// The whole program, over any source and sinks.
ghost use Rattle.std.specs.Prelude.{◌≡◌, map, string_bytes};
ghost use Rattle.view_words.specs.Words.{job};
ghost use Rattle.view_top.specs.Answers.{Acts, Ends, Follows, TellsFirst, TellsOfCopy};

use crate::notes::end;
use crate::refusal::Refusal;
use crate::shown::show;
use check_notes::Status;
use lift_base::{Sink, Source};
use std::alloc::Global;
use view_follow::{Lines, follow};
use view_words::{Job, job_of};

// Copies a report.
fn follow_report<S: Source, K: Sink, E: Sink>(
    source: &mut S,
    out: &mut K,
    notes: &mut E,
    lines: Lines,
) -> Result<(), Refusal>
    ensures follows { Follows S.left S.faults K.taken K.faults
        source.old source.new out.old out.new result }
    ensures reported { TellsOfCopy S.left E.taken E.faults lines
        source.old source.new notes.old notes.new result }
{
    follow(source, out, notes, lines)?;
    Ok(())
}

// Does what the words ask for.
fn act<S: Source, K: Sink, E: Sink>(
    alloc: Global,
    words: &[String],
    source: &mut S,
    out: &mut K,
    notes: &mut E,
    lines: Lines,
) -> Result<(), Refusal>
    ensures acts { Acts S.left S.faults K.taken K.faults (job (map string_bytes words.now))
        source.old source.new out.old out.new result }
    ensures first { TellsFirst S.left E.taken E.faults lines (job (map string_bytes words.now))
        source.old source.new notes.old notes.new result }
{
    match job_of(alloc, words)? {
        Job::Show(view) => show(alloc, &view, source, out),
        Job::Follow => follow_report(source, out, notes, lines),
    }
}

/// Runs the program on the words after its name: reads from `source`, writes to `out`, and tells of
/// a refusal, and of the progress of a report that is copied, on `notes`.
///
/// At `Done` of a picture or a table the source was read to its end and gave a sound report, and `out`
/// took the picture of the slice that the words name, or the table, of that report's map. A report
/// that isn't sound is refused with the status and the note that `plift check` gives it. At `Done` of
/// `--follow` the source was read to its end, and `out` took what it gave, byte for byte; `notes` was
/// told the lines of progress of these bytes.
pub fn run<S: Source, K: Sink, E: Sink>(
    alloc: Global,
    words: &Vec<String>,
    source: &mut S,
    out: &mut K,
    notes: &mut E,
    lines: Lines,
) -> Status
    ensures { Ends S.left S.faults K.taken K.faults E.taken E.faults lines
        (job (map string_bytes words.now.items))
        source.old source.new out.old out.new notes.old notes.new result }
{
    let answer = act(alloc, words, source, out, notes, lines);
    end(notes, answer)
}
