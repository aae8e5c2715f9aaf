// Why a file isn't sound, or wasn't checked.
ghost use Rattle.std.specs.Prelude.{◌≡◌};
ghost use Rattle.cert_check.specs.Shown.{reported, reported_line};
ghost use Rattle.cert_check.specs.declared.error.CheckError.TheVariants.{Memory, Rows};

use cert_text::{FileError, TextCause, TextError};
use lift_base::LineError;
use lift_cert::Miss;
use lift_rows::RowError;
use std::alloc::AllocError;

/// Why a file isn't sound, or wasn't checked. Nodes are numbered from 0 in preorder.
#[derive(Clone, Copy, Debug)]
pub enum CheckError {
    /// The text isn't that of a report, or has no whole line where one is due. The cause is never want
    /// of memory.
    Text(TextError),
    /// A row of the model isn't admitted over the region.
    Rows(RowError),
    /// The certificate of a leaf doesn't hold, and this is the first test that it fails.
    Missed { node: u32, miss: Miss },
    /// A split stands at the greatest depth, or an unknown leaf above it.
    Depth { node: u32 },
    /// A split stands on another axis than that of the split rule.
    Axis { node: u32 },
    /// Something follows the last node.
    Rest,
    /// Reading the source failed.
    Fault,
    /// The source gives more bytes than were allowed.
    TooLong,
    /// Want of memory.
    Memory,
}

impl From<FileError> for CheckError {
    ghost from_gives = { λ x e. e ≡ reported x };

    fn from(error: FileError) -> Self {
        match error {
            FileError::Text(error) => match error.cause {
                TextCause::Memory => CheckError::Memory,
                _ => CheckError::Text(error),
            },
            FileError::Fault => CheckError::Fault,
            FileError::TooLong => CheckError::TooLong,
        }
    }
}

impl From<RowError> for CheckError {
    ghost from_gives = { λ x e. e ≡ Rows x };

    fn from(error: RowError) -> Self {
        CheckError::Rows(error)
    }
}

impl From<AllocError> for CheckError {
    ghost from_gives = { λ _ e. e ≡ Memory };

    fn from(_: AllocError) -> Self {
        CheckError::Memory
    }
}

impl From<LineError> for CheckError {
    ghost from_gives = { λ x e. e ≡ reported_line x };

    fn from(error: LineError) -> Self {
        match error {
            LineError::Fault => CheckError::Fault,
            LineError::TooLong => CheckError::TooLong,
        }
    }
}
