// A transition's line: its target, and its value behind a colon.
ghost use Rattle.std.specs.Prelude.{◌≡◌, ◌≢◌, ◌≤◌, true, length, Some, Err, IfSome, IfNone};
ghost use Rattle.std.specs.List.{list_all};
ghost use Rattle.std.specs.Option.{option_map};
ghost use Rattle.std.specs.Char.{is_ascii_digit};
ghost use Rattle.std.specs.Str.Parse.{digits_value};
ghost use Rattle.drn_lexer.specs.Symbols.{symbols};
ghost use Rattle.lift_model.specs.Valid.{most_parameters};
ghost use Rattle.drn_read.specs.Text.{most_digits};
ghost use Rattle.drn_read.specs.States.{lone_name, value_of_placeholder, named_value};
ghost use Rattle.drn_read.specs.Judging.{target_text_fault};
ghost use Rattle.drn_read.specs.Shown.{rest};
ghost use Rattle.drn_read.specs.ModelSteps.{IsTransitionFront};

use crate::cursor::Cursor;
use crate::digits::{MOST_DIGITS, number_of};
use crate::error::DrnCause;
use crate::front::TransitionFront;
use crate::placeholders::Placeholders;
use crate::shared::SharedValue;
use crate::text::behind_colon;
use crate::value::value_of;
use drn_lexer::SymbolForm;
use lift_bytes::digits_len;
use lift_names::Names;
use std::alloc::Global;

/// The number that at most 20 digits write.
#[tactic(auto, using(crate::proofs::Entries::few_digits))]
fn short_number(digits: &[u8]) -> u128
    requires digits { list_all is_ascii_digit digits.now ≡ true }
    requires short { length digits.now ≤ most_digits }
    ensures { result ≡ digits_value 10 digits.now }
{
    number_of(digits).unwrap()
}

/// The target of a transition's line, and what is left behind the colon. None exactly where the
/// target has more than 20 digits, or no colon stands behind it.
pub(crate) fn transition_front(line: Cursor<'_>) -> Option<TransitionFront<'_>>
    ensures some { IfSome result (IsTransitionFront (rest line.entry)) }
    ensures none { IfNone result (target_text_fault (rest line.entry) ≡ Some DrnCause.Syntax) }
{
    let text = line.rest();
    let digits = digits_len(text);
    if digits > MOST_DIGITS {
        return None;
    }
    let Some(value) = behind_colon(line.forward(digits)) else {
        return None;
    };
    Some(TransitionFront {
        target: short_number(&text[..digits]),
        value,
    })
}

/// The name where the symbols that are left are one `$name` and nothing else.
fn lone_name(value: Cursor<'_>) -> Option<&[u8]>
    ensures { option_map (λ name. name.now) result ≡ lone_name (symbols (rest value.entry)) }
{
    let mut value = value;
    let Some(only) = value.next_symbol() else {
        return None;
    };
    if value.next_symbol().is_some() {
        return None;
    }
    match only.form {
        SymbolForm::Dollar => Some(&only.bytes[1..]),
        _ => None,
    }
}

/// The value of a placeholder by its name.
fn value_of_placeholder(placeholders: &Placeholders, name: &[u8]) -> Result<SharedValue, DrnCause>
    ensures { result ≢ Err DrnCause.Memory
        → result ≡ value_of_placeholder placeholders.now name.now }
{
    match placeholders.find(name) {
        Some(value) => Ok(value.share()?),
        None => Err(DrnCause::UnknownPlace),
    }
}

/// The value that is left of a transition's line: a placeholder's, or one that is written there.
pub(crate) fn named_value(
    alloc: Global,
    value: Cursor<'_>,
    names: &Names,
    placeholders: &Placeholders,
) -> Result<SharedValue, DrnCause>
    requires { length names.now ≤ most_parameters }
    ensures { result ≢ Err DrnCause.Memory
        → result ≡ named_value names.now placeholders.now (rest value.entry) }
{
    match lone_name(value) {
        Some(name) => value_of_placeholder(placeholders, name),
        None => Ok(SharedValue::new(alloc, value_of(alloc, value, names)?)?),
    }
}
