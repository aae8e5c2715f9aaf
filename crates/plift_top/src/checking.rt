// Checks a report.
ghost use Rattle.lift_base.specs.Outside.{Wrote};
ghost use Rattle.plift_top.specs.Check.{checking, sound_line};
ghost use Rattle.plift_top.specs.Reads.{KeepsWithin, Reads};
ghost use Rattle.cert_check.specs.Source.{report_limit};

use crate::refusal::Refusal;
use cert_check::{Summary, check};
use lift_base::{Sink, Source, Word, WriteFault, write_words};
use std::alloc::Global;

// Writes the line of a sound file.
fn write_sound<K: Sink>(out: &mut K, leaves: Summary) -> Result<(), WriteFault>
    ensures { Wrote K.taken K.faults out.old out.new result (sound_line leaves) }
{
    write_words(
        out,
        &[
            Word::Text(b"sound accept "),
            Word::Count(u64::from(leaves.accept)),
            Word::Text(b" reject "),
            Word::Count(u64::from(leaves.reject)),
            Word::Text(b" unknown "),
            Word::Count(u64::from(leaves.unknown)),
            Word::Text(b"\n"),
        ],
    )
}

/// Checks the report that the source gives, line by line, and writes how many leaves of each kind it has.
pub fn check_report<S: Source, K: Sink>(
    alloc: Global,
    source: &mut S,
    out: &mut K,
) -> Result<(), Refusal>
    ensures answer { Reads S.left S.faults K.taken K.faults checking
        source.old source.new out.old out.new result }
    ensures limit { KeepsWithin report_limit result (S.left source.old) (S.left source.new) }
{
    let leaves = check(alloc, source)?;
    write_sound(out, leaves)?;
    Ok(())
}
