// Reads the list of parameters.
ghost use Rattle.std.specs.Prelude.{◌≡◌, ◌≤◌, ◌<◌, ◌++◌, ◌∷◌, [], false, length, map, OnOk};
ghost use Rattle.std.specs.List.{list_any};
ghost use Rattle.std.specs.Str.{bytes_eq};
ghost use Rattle.lift_model.specs.Valid.{most_parameters};
ghost use Rattle.drn_read.specs.Faults.{fault_of};
ghost use Rattle.drn_read.specs.Judging.{name_fault, names_fault};
ghost use Rattle.drn_read.specs.Shown.{Tells, left, piece};

use crate::cursor::{Cursor, LineWord};
use crate::error::DrnCause;
use lift_bytes::is_name;
use lift_names::Names;
use std::alloc::AllocError;

/// How many parameters a model may have.
const MOST_PARAMETERS: u32 = 16;

/// How many bytes a name may have.
pub(crate) const MOST_NAME_BYTES: usize = 64;

/// Whether the name is one of these. One look-up.
fn is_among(name: &[u8], names: &Names) -> bool
    ensures { result ≡ list_any (bytes_eq name.now) names.now }
{
    names.find(name).is_some()
}

/// Tests a word of the list, behind these names.
fn test_name(names: &Names, word: LineWord<'_>) -> Result<(), DrnCause>
    requires { length names.now ≤ most_parameters }
    ensures { fault_of result ≡ name_fault names.now (piece word.entry) }
{
    if !is_name(word.bytes) {
        return Err(DrnCause::Syntax);
    }
    if word.bytes.len() > MOST_NAME_BYTES {
        return Err(DrnCause::LimitName);
    }
    if is_among(word.bytes, names) {
        return Err(DrnCause::RepeatedName);
    }
    if names.len() == MOST_PARAMETERS {
        return Err(DrnCause::LimitParameters);
    }
    Ok(())
}

/// One more name, which isn't there yet. Nothing changes where there is no memory.
fn push_new(names: &mut Names, name: &[u8]) -> Result<(), AllocError>
    requires room { length names.old < most_parameters }
    requires new { list_any (bytes_eq name.now) names.old ≡ false }
    ensures names { OnOk result (names.new ≡ names.old ++ name.now ∷ []) }
    ensures few { length names.new ≤ most_parameters }
{
    names.push(name)?;
    Ok(())
}

/// One more word of the list.
fn read_name(names: &mut Names, word: LineWord<'_>) -> Result<(), DrnCause>
    requires { length names.old ≤ most_parameters }
    ensures fault { Tells result (name_fault names.old (piece word.entry)) }
    ensures names { OnOk result (names.new ≡ names.old ++ word.entry.bytes.now ∷ []) }
    ensures few { length names.new ≤ most_parameters }
{
    test_name(names, word)?;
    push_new(names, word.bytes)?;
    Ok(())
}

/// The words of the list, behind the names that are there already.
pub(crate) fn read_names(names: &mut Names, words: Cursor<'_>) -> Result<(), DrnCause>
    requires { length names.old ≤ most_parameters }
    ensures fault { Tells result (names_fault names.old (left words.entry)) }
    ensures names { OnOk result (names.new
        ≡ names.old ++ map (λ word. word.bytes) (left words.entry)) }
    ensures few { length names.new ≤ most_parameters }
{
    let mut words = words;
    while let Some(word) = words.next_word()? {
        read_name(names, word)?;
    }
    Ok(())
}
