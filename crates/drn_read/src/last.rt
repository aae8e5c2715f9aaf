// The last state that was read.
ghost use Rattle.std.specs.Prelude.{◌≡◌};
ghost use Rattle.drn_read.specs.Judging.{choiceless};
ghost use Rattle.drn_read.specs.Shown.{refusal};

use crate::error::{DrnCause, DrnError};
use crate::state::State;

/// The last state has a choice; else its own line is told.
pub(crate) fn test_last_state(states: &[State]) -> Result<(), DrnError>
    ensures { refusal result ≡ choiceless states.now }
{
    match states {
        [.., last] if last.choices.is_empty() => Err(DrnError {
            line: last.line,
            cause: DrnCause::NoChoice,
        }),
        _ => Ok(()),
    }
}
