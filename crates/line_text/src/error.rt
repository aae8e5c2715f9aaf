ghost use Rattle.std.specs.Prelude.{◌≡◌};
ghost use Rattle.line_text.specs.declared.error.TextCause.TheVariants.{Memory};

use std::alloc::{AllocError, AllocFailed};

/// Why a text isn't that of a report.
#[derive(Clone, Copy, Debug, PartialEq, Eq)]
pub enum TextCause {
    /// The line hasn't the form of a line that may stand there.
    Syntax = 1,
    /// The text is of another version.
    Version = 2,
    /// A number, a name, a row or a line passes a limit.
    Limit = 3,
    /// No whole line is left.
    Truncated = 4,
    /// Want of memory.
    Memory = 5,
}

/// The first fault of a text, and the number of the line that was due.
#[derive(Clone, Copy, Debug, PartialEq, Eq)]
pub struct TextError {
    /// The line's number, from 1 on.
    pub line: u32,
    /// The cause.
    pub cause: TextCause,
}

impl From<AllocError> for TextCause {
    ghost from_gives = { λ _ e. e ≡ Memory };

    fn from(_: AllocError) -> Self {
        TextCause::Memory
    }
}

impl<T: Drop> From<AllocFailed<T>> for TextCause {
    ghost from_gives = { λ _ e. e ≡ Memory };

    fn from(_: AllocFailed<T>) -> Self {
        TextCause::Memory
    }
}

/// Why a text that a source gives line by line isn't read on.
#[derive(Clone, Copy, Debug, PartialEq, Eq)]
pub enum FileError {
    /// The text's first fault. The number of its line stays at the last value of its type.
    Text(TextError),
    /// A read failed.
    Fault,
    /// More bytes came than the limit allows.
    TooLong,
}
