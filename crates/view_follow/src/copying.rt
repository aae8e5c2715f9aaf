// Copies a report as it comes.
ghost use Rattle.std.specs.Prelude.{◌≡◌};
ghost use Rattle.view_follow.specs.Copied.{Copies, PassedHas, Tells};
ghost use Rattle.view_follow.specs.Progress.{Passes};
ghost use Rattle.view_follow.specs.declared.copying.CopyError.TheVariants as copy;

use crate::progress::{Lines, Progress};
use lift_base::{Got, Sink, Source, WriteFault, write_all};

/// Why copying ended before the end of input.
#[derive(Clone, Copy)]
pub enum CopyError {
    ReadFault,
    WriteFault,
    /// The source gave bytes in 2^64 - 1 reads, and no end came.
    TooLong,
}

impl From<WriteFault> for CopyError {
    ghost from_gives = { λ _ e. e ≡ copy.WriteFault };

    fn from(_: WriteFault) -> Self {
        CopyError::WriteFault
    }
}

/// How many bytes a read may give at most.
const PIECE: usize = 4096;

// Copies to the end of input. Each read's bytes are written before the next read.
fn copy<S: Source, K: Sink, E: Sink>(
    source: &mut S,
    out: &mut K,
    notes: &mut E,
    progress: &mut Progress,
) -> Result<(), CopyError>
    ensures copied { Copies S.left S.faults K.taken K.faults
        source.old source.new out.old out.new result }
    ensures reported { PassedHas (Passes E.taken E.faults notes.old notes.new progress.old progress.new)
        S.left source.old source.new result }
{
    let mut buffer = [0u8; PIECE];
    for reads in 0..u64::MAX {
        match source.read(&mut buffer) {
            Got::Failed => return Err(CopyError::ReadFault),
            Got::Bytes(0) => return Ok(()),
            Got::Bytes(count) => {
                let piece = &buffer[..count];
                write_all(out, piece)?;
                progress.pass(piece, notes);
            }
        }
    }
    Err(CopyError::TooLong)
}

/// Copies a report to the end of input, as it comes, and tells on `notes` how far it has come. That
/// `notes` fails changes nothing.
pub fn follow<S: Source, K: Sink, E: Sink>(
    source: &mut S,
    out: &mut K,
    notes: &mut E,
    lines: Lines,
) -> Result<(), CopyError>
    ensures copied { Copies S.left S.faults K.taken K.faults
        source.old source.new out.old out.new result }
    ensures reported { Tells S.left E.taken E.faults lines source.old source.new notes.old notes.new result }
{
    let mut progress = Progress::new(lines);
    let copied = copy(source, out, notes, &mut progress);
    progress.end(notes);
    copied
}
