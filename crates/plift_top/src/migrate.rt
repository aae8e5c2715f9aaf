// Writes a report of the first version as one of the second.
ghost use Rattle.std.specs.Prelude.{◌≤◌, List, ℕ, length};
ghost use Rattle.cert_check.specs.Source.{report_limit};
ghost use Rattle.cert_text.specs.Migrated.{MigratesTo};
ghost use Rattle.plift_top.specs.Migrate.{ChecksFirst, migrating};
ghost use Rattle.plift_top.specs.Reads.{KeepsLimit, Reads, ReadsText};

use crate::refusal::Refusal;
use crate::verify::TEXT_LIMIT;
use cert_check::{CheckError, Summary, check_text, sound_files_migrate};
use cert_text::{TextCause, TextError, migrate_text};
use lift_base::{Sink, Source, Telling, WriteFault, read_all, tell_buffered};
use std::alloc::Global;

// Checks a text, of which a report of the second version is refused by its first line.
fn check_first(alloc: Global, text: &[u8]) -> Result<Summary, CheckError>
    requires { length text.now ≤ report_limit }
    ensures { ChecksFirst text.now result }
{
    if text.starts_with(b"plift 2\n") {
        return Err(CheckError::Text(TextError {
            line: 1,
            cause: TextCause::Version,
        }));
    }
    check_text(alloc, text)
}

// A report's text, which is told in the second version.
#[derive(Drop)]
struct Migration<'t> {
    text: &'t [u8],
}

impl<'t> Telling for Migration<'t> {
    ghost is_ready = { λ m. (new : List ℕ) × MigratesTo m.text.now new };

    ghost is_text = { λ m new. MigratesTo m.text.now new };

    fn tell_to<K: Sink>(&mut self, out: &mut K) -> Result<(), WriteFault> {
        migrate_text(self.text, out)
    }
}

// Checks a text as a report of the first version, and writes it as one of the second, by way of a buffer. Nothing is
// written before the check is done, and from then on no memory is taken.
fn migrate_whole<K: Sink>(alloc: Global, text: &[u8], out: &mut K) -> Result<(), Refusal>
    requires { length text.now ≤ report_limit }
    ensures { ReadsText K.taken K.faults migrating text.now out.old out.new result }
{
    sound_files_migrate();
    check_first(alloc, text)?;
    tell_buffered(out, &mut Migration { text })?;
    Ok(())
}

/// Reads a report of the first version from the source, whole, checks it, and writes it as one of the second.
pub fn migrate<S: Source, K: Sink>(
    alloc: Global,
    source: &mut S,
    out: &mut K,
) -> Result<(), Refusal>
    ensures answer { Reads S.left S.faults K.taken K.faults migrating
        source.old source.new out.old out.new result }
    ensures limit { KeepsLimit result (S.left source.old) (S.left source.new) }
{
    let text = read_all(alloc, source, TEXT_LIMIT)?;
    migrate_whole(alloc, &text, out)
}
