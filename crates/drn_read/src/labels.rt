// The words of a state's line and of an action's line.
ghost use Rattle.std.specs.Prelude.{◌≡◌, ◌≤◌, ◌∷◌, true, drop, IfOk};
ghost use Rattle.lift_model.specs.Valid.{most_states};
ghost use Rattle.drn_read.specs.Faults.{fault_of};
ghost use Rattle.drn_read.specs.States.{is_label};
ghost use Rattle.drn_read.specs.Judging.{is_closed, label_fault, state_word_fault, labels_fault};
ghost use Rattle.drn_read.specs.Judging.{number_fault, state_fault, more_fault, group_fault};
ghost use Rattle.drn_read.specs.Judging.{name_and_group_fault};
ghost use Rattle.drn_read.specs.Shown.{left, piece, Carries};

use crate::cursor::{Cursor, LineWord};
use crate::digits::{is_digits, number_of};
use crate::error::DrnCause;
use drn_lexer::{WordForm, unquoted};

/// How many states a model may have.
const MOST_STATES: usize = 65_536;

/// Which of the two labels that matter a state carries.
#[derive(Clone, Copy)]
pub(crate) struct Labels {
    pub init: bool,
    pub goal: bool,
}

/// Whether a group has its end.
pub(crate) fn is_closed(group: LineWord<'_>) -> bool
    ensures { result ≡ is_closed (piece group.entry) }
{
    group.bytes.contains(&b']')
}

/// Whether the word is this label.
fn is_label(word: LineWord<'_>, label: &[u8]) -> bool
    ensures { result ≡ is_label label.now (piece word.entry) }
{
    match word.form {
        WordForm::Group => false,
        form => unquoted(form, word.bytes) == label,
    }
}

fn test_label(label: &[u8]) -> Result<(), DrnCause>
    ensures { fault_of result ≡ label_fault label.now }
{
    match label {
        [b'!', ..] => Err(DrnCause::ExitRate),
        [b'{', ..] => Err(DrnCause::Observation),
        _ => Ok(()),
    }
}

fn test_state_word(is_first: bool, word: LineWord<'_>) -> Result<(), DrnCause>
    ensures { fault_of result ≡ state_word_fault is_first (piece word.entry) }
{
    match word.form {
        WordForm::Group => {
            if is_first && is_closed(word) {
                Ok(())
            } else {
                Err(DrnCause::Syntax)
            }
        }
        _ => test_label(word.bytes),
    }
}

/// The labels behind a state's number, and a group before them that is passed over.
fn read_labels(words: Cursor<'_>, goal: &[u8]) -> Result<Labels, DrnCause>
    ensures fault { fault_of result ≡ labels_fault true (left words.entry) }
    ensures labels { IfOk result (Carries goal.now (left words.entry)) }
{
    let mut words = words;
    let mut labels = Labels {
        init: false,
        goal: false,
    };
    let mut is_first = true;
    while let Some(word) = words.next_word()? {
        test_state_word(is_first, word)?;
        labels.init |= is_label(word, b"init");
        labels.goal |= is_label(word, goal);
        is_first = false;
    }
    Ok(labels)
}

/// Tests a state's number, where so many states stand before it.
pub(crate) fn test_number(before: usize, word: LineWord<'_>) -> Result<(), DrnCause>
    requires { before ≤ most_states }
    ensures { fault_of result ≡ number_fault before (piece word.entry) }
{
    if !is_digits(word.bytes) {
        return Err(DrnCause::Syntax);
    }
    if number_of(word.bytes) != Some(before as u128) {
        return Err(DrnCause::StateOrder);
    }
    if before == MOST_STATES {
        return Err(DrnCause::LimitStates);
    }
    Ok(())
}

/// The words behind `state`: the number of the state, where so many stand before it, a group that
/// is passed over, and labels.
pub(crate) fn read_state(before: usize, words: Cursor<'_>, goal: &[u8]) -> Result<Labels, DrnCause>
    requires { before ≤ most_states }
    ensures fault { fault_of result ≡ state_fault before (left words.entry) }
    ensures labels { IfOk result (Carries goal.now (drop 1 (left words.entry))) }
{
    let mut words = words;
    let Some(number) = words.next_word()? else {
        return Err(DrnCause::Syntax);
    };
    test_number(before, number)?;
    read_labels(words, goal)
}

/// Nothing more may stand on the line.
fn no_more(words: Cursor<'_>) -> Result<(), DrnCause>
    ensures { fault_of result ≡ more_fault (left words.entry) }
{
    let mut words = words;
    match words.next_word()? {
        Some(_) => Err(DrnCause::Syntax),
        None => Ok(()),
    }
}

/// A group, and nothing behind it.
fn group(word: LineWord<'_>, behind: Cursor<'_>) -> Result<(), DrnCause>
    ensures { fault_of result ≡ group_fault (piece word.entry ∷ left behind.entry) }
{
    if word.form == WordForm::Group && is_closed(word) {
        no_more(behind)
    } else {
        Err(DrnCause::Syntax)
    }
}

/// A group if there is one, and nothing behind it.
fn optional_group(words: Cursor<'_>) -> Result<(), DrnCause>
    ensures { fault_of result ≡ group_fault (left words.entry) }
{
    let mut words = words;
    match words.next_word()? {
        Some(word) => group(word, words),
        None => Ok(()),
    }
}

/// The words behind `action`: a name if there is one, and then a group if there is one.
pub(crate) fn read_action(words: Cursor<'_>) -> Result<(), DrnCause>
    ensures { fault_of result ≡ name_and_group_fault (left words.entry) }
{
    let mut words = words;
    match words.next_word()? {
        Some(word) if word.form == WordForm::Group => group(word, words),
        Some(_) => optional_group(words),
        None => Ok(()),
    }
}
