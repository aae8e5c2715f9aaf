// Why the program gave up.
ghost use Rattle.std.specs.Prelude.{◌≡◌};
ghost use Rattle.view_top.specs.Refused.{check_refusal, copy_refusal, read_refusal, words_refusal};
ghost use Rattle.view_top.specs.declared.refusal.Refusal.TheVariants as refusal;

use cert_check::CheckError;
use lift_base::{ReadError, WriteFault};
use std::alloc::AllocError;
use view_follow::CopyError;
use view_words::{Usage, WordsError};

/// Why the program gave up, with what its note tells.
#[derive(Clone, Copy)]
pub enum Refusal {
    /// This part of the command line is at fault.
    Usage(Usage),
    /// The report isn't sound. The error is a first fault of its bytes.
    Unsound(CheckError),
    ReadFault,
    WriteFault,
    /// The source gives more bytes than a report may have.
    TooLong,
    Memory,
}

impl From<Usage> for Refusal {
    ghost from_gives = { λ fault e. e ≡ refusal.Usage fault };

    fn from(fault: Usage) -> Self {
        Refusal::Usage(fault)
    }
}

impl From<AllocError> for Refusal {
    ghost from_gives = { λ _ e. e ≡ refusal.Memory };

    fn from(_: AllocError) -> Self {
        Refusal::Memory
    }
}

impl From<WriteFault> for Refusal {
    ghost from_gives = { λ _ e. e ≡ refusal.WriteFault };

    fn from(_: WriteFault) -> Self {
        Refusal::WriteFault
    }
}

impl From<ReadError> for Refusal {
    ghost from_gives = { λ x e. e ≡ read_refusal x };

    fn from(error: ReadError) -> Self {
        match error {
            ReadError::Fault => Refusal::ReadFault,
            ReadError::TooLong => Refusal::TooLong,
            ReadError::Memory => Refusal::Memory,
        }
    }
}

impl From<CheckError> for Refusal {
    ghost from_gives = { λ error e. e ≡ check_refusal error };

    fn from(error: CheckError) -> Self {
        match error {
            CheckError::Fault => Refusal::ReadFault,
            CheckError::TooLong => Refusal::TooLong,
            CheckError::Memory => Refusal::Memory,
            _ => Refusal::Unsound(error),
        }
    }
}

impl From<WordsError> for Refusal {
    ghost from_gives = { λ error e. e ≡ words_refusal error };

    fn from(error: WordsError) -> Self {
        match error {
            WordsError::Usage(fault) => Refusal::Usage(fault),
            WordsError::Memory => Refusal::Memory,
        }
    }
}

impl From<CopyError> for Refusal {
    ghost from_gives = { λ error e. e ≡ copy_refusal error };

    fn from(error: CopyError) -> Self {
        match error {
            CopyError::ReadFault => Refusal::ReadFault,
            CopyError::WriteFault => Refusal::WriteFault,
            CopyError::TooLong => Refusal::TooLong,
        }
    }
}
