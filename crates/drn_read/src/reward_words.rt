// The rewards in a line of the model, by its words.
ghost use Rattle.std.specs.Prelude.{◌≡◌, ◌==◌, drop, false};
ghost use Rattle.std.specs.Option.{option_map};
ghost use Rattle.lift_bytes.specs.Bytes.{code, first_passes};
ghost use Rattle.drn_read.specs.RewardLines.{is_rewards, rewards_at, action_rewards};
ghost use Rattle.drn_read.specs.Shown.{left, piece};
ghost use Rattle.drn_read.specs.CostShown.{behind_word};

use crate::cursor::{Cursor, LineWord};
use crate::labels::is_closed;
use drn_lexer::WordForm;

/// Whether the word is a group that has its end.
fn is_rewards(word: LineWord<'_>) -> bool
    ensures { result ≡ is_rewards (piece word.entry) }
{
    word.form == WordForm::Group && is_closed(word)
}

/// The rewards that these words begin with.
pub(crate) fn rewards_at(words: Cursor<'_>) -> Option<&[u8]>
    ensures { option_map (λ group. group.now) result ≡ rewards_at (left words.entry) }
{
    let mut words = words;
    match words.next_word() {
        Ok(Some(word)) if is_rewards(word) => Some(word.bytes),
        _ => None,
    }
}

/// The rewards behind `action`, in front of which a name may stand.
pub(crate) fn action_rewards(words: Cursor<'_>) -> Option<&[u8]>
    ensures { option_map (λ group. group.now) result ≡ action_rewards (left words.entry) }
{
    let mut behind = words;
    match behind.next_word() {
        Ok(Some(word)) if word.form == WordForm::Group => rewards_at(words),
        Ok(Some(_)) => rewards_at(behind),
        _ => None,
    }
}

/// The rewards behind `state` and its number.
pub(crate) fn state_rewards(words: Cursor<'_>) -> Option<&[u8]>
    ensures { option_map (λ group. group.now) result ≡ rewards_at (drop 1 (left words.entry)) }
{
    let mut words = words;
    match words.next_word() {
        Ok(Some(_)) => rewards_at(words),
        Ok(None) => None,
        Err(_) => None,
    }
}

/// The words behind the first one, where that is this one, which begins with no quote.
pub(crate) fn behind_word<'t>(words: Cursor<'t>, name: &[u8]) -> Option<Cursor<'t>>
    requires { first_passes (λ b. b == code "\"") name.now ≡ false }
    ensures { option_map left result ≡ behind_word name.now (left words.entry) }
{
    let mut words = words;
    match words.next_word() {
        Ok(Some(word)) if word.bytes == name => Some(words),
        Ok(_) => None,
        Err(_) => None,
    }
}
