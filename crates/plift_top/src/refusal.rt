// Why a command gave up.
ghost use Rattle.std.specs.Prelude.{◌≡◌};
ghost use Rattle.plift_top.specs.declared.refusal.Refusal.TheVariants.{Memory, WriteFault, Rows};
ghost use Rattle.plift_top.specs.Refused.{words_refusal, refusal_of, model_refusal, region_refusal};
ghost use Rattle.plift_top.specs.Refused.{check_refusal, lump_refusal};

use cert_check::CheckError;
use drn_read::{DrnCause, DrnError};
use lift_base::ReadError;
use lift_grid::RegionError;
use lift_lump::LumpError;
use lift_rows::RowError;
use plift_words::{Field, WordsError};
use std::alloc::AllocError;

/// Why a command gave up, with what its note tells.
#[derive(Clone, Copy)]
pub enum Refusal {
    /// This part of the command line is at fault.
    Usage(Field),
    /// The text stands for no model.
    Model(DrnError),
    /// The region's text names no rectangle of the model's parameters.
    Region(RegionError),
    /// A row of the model isn't admitted over the region.
    Rows(RowError),
    /// A decision process can't be lumped.
    NotChain,
    /// A coefficient of the chain's quotient is too large.
    TooWide,
    /// The file isn't sound. The error is the first fault that was met.
    Unsound(CheckError),
    ReadFault,
    WriteFault,
    /// The source gives more bytes than a text or a report may have.
    TooLong,
    Memory,
}

impl From<WordsError> for Refusal {
    ghost from_gives = { λ error e. e ≡ words_refusal error };

    fn from(error: WordsError) -> Self {
        match error {
            WordsError::Usage(field) => Refusal::Usage(field),
            WordsError::Memory => Refusal::Memory,
        }
    }
}

impl From<AllocError> for Refusal {
    ghost from_gives = { λ _ e. e ≡ Memory };

    fn from(_: AllocError) -> Self {
        Refusal::Memory
    }
}

impl From<lift_base::WriteFault> for Refusal {
    ghost from_gives = { λ _ e. e ≡ WriteFault };

    fn from(_: lift_base::WriteFault) -> Self {
        Refusal::WriteFault
    }
}

impl From<ReadError> for Refusal {
    ghost from_gives = { λ x e. e ≡ refusal_of x };

    fn from(error: ReadError) -> Self {
        match error {
            ReadError::Fault => Refusal::ReadFault,
            ReadError::TooLong => Refusal::TooLong,
            ReadError::Memory => Refusal::Memory,
        }
    }
}

impl From<DrnError> for Refusal {
    ghost from_gives = { λ error e. e ≡ model_refusal error };

    fn from(error: DrnError) -> Self {
        match error.cause {
            DrnCause::Memory => Refusal::Memory,
            _ => Refusal::Model(error),
        }
    }
}

impl From<RegionError> for Refusal {
    ghost from_gives = { λ error e. e ≡ region_refusal error };

    fn from(error: RegionError) -> Self {
        match error {
            RegionError::Memory => Refusal::Memory,
            _ => Refusal::Region(error),
        }
    }
}

impl From<RowError> for Refusal {
    ghost from_gives = { λ error e. e ≡ Rows error };

    fn from(error: RowError) -> Self {
        Refusal::Rows(error)
    }
}

impl From<CheckError> for Refusal {
    ghost from_gives = { λ error e. e ≡ check_refusal error };

    fn from(error: CheckError) -> Self {
        match error {
            CheckError::Fault => Refusal::ReadFault,
            CheckError::TooLong => Refusal::TooLong,
            CheckError::Memory => Refusal::Memory,
            _ => Refusal::Unsound(error),
        }
    }
}

impl From<LumpError> for Refusal {
    ghost from_gives = { λ error e. e ≡ lump_refusal error };

    fn from(error: LumpError) -> Self {
        match error {
            LumpError::NotChain => Refusal::NotChain,
            LumpError::Wide => Refusal::TooWide,
            LumpError::Memory => Refusal::Memory,
        }
    }
}
