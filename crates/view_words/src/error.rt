ghost use Rattle.std.specs.Prelude.{◌≡◌};
ghost use Rattle.view_words.specs.declared.error.WordsError.TheVariants.{Memory};

use crate::job::Usage;
use std::alloc::AllocError;

/// Why words ask for no job.
#[derive(Clone, Copy)]
pub enum WordsError {
    /// This part of the line is at fault.
    Usage(Usage),
    Memory,
}

impl From<AllocError> for WordsError {
    ghost from_gives = { λ _ e. e ≡ Memory };

    fn from(_: AllocError) -> Self {
        WordsError::Memory
    }
}
