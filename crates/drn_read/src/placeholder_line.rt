// Reads the name in a placeholder's line.
ghost use Rattle.std.specs.Prelude.{◌≡◌, ◌<◌, ◌≤◌, ◌==◌, ◌+◌, false, length, drop, IfOk};
ghost use Rattle.std.specs.List.{list_any};
ghost use Rattle.std.specs.Str.{bytes_eq};
ghost use Rattle.lift_bytes.specs.Bytes.{code, first_passes, is_name_byte, behind};
ghost use Rattle.drn_read.specs.Faults.{fault_of};
ghost use Rattle.drn_read.specs.Sections.{placeholder_name};
ghost use Rattle.drn_read.specs.Judging.{most_placeholders, nameless_fault, new_name_fault};
ghost use Rattle.drn_read.specs.Judging.{placeholder_name_fault};
ghost use Rattle.drn_read.specs.Shown.{IsNewName};

use crate::error::DrnCause;
use crate::parameters::MOST_NAME_BYTES;
use crate::placeholders::Placeholders;
use lift_bytes::name_len;

/// How many placeholders a text may have.
const MOST_PLACEHOLDERS: usize = 65_536;

/// Whether a line begins with `$`.
fn begins_dollar(line: &[u8]) -> bool
    ensures { result ≡ first_passes (λ b. b == code "$") line.now }
{
    matches!(line, [b'$', ..])
}

/// The name behind the first byte of a line, which isn't empty.
fn name_behind_first(line: &[u8]) -> &[u8]
    requires { 1 ≤ length line.now }
    ensures within { 1 + length result.now ≤ length line.now }
    ensures name { result.now ≡ placeholder_name line.now }
    ensures behind { drop (1 + length result.now) line.now ≡ behind is_name_byte (drop 1 line.now) }
{
    let rest = &line[1..];
    &rest[..name_len(rest)]
}

/// The name of a placeholder's line, without its `$`.
fn name_of(line: &[u8]) -> Result<&[u8], DrnCause>
    ensures fault { fault_of result ≡ nameless_fault line.now }
    ensures within { IfOk result (λ name. 1 + length name.now ≤ length line.now) }
    ensures name { IfOk result (λ name. name.now ≡ placeholder_name line.now) }
    ensures behind { IfOk result (λ name.
        drop (1 + length name.now) line.now ≡ behind is_name_byte (drop 1 line.now)) }
{
    if !begins_dollar(line) {
        return Err(DrnCause::Syntax);
    }
    let name = name_behind_first(line);
    if name.is_empty() {
        return Err(DrnCause::Syntax);
    }
    Ok(name)
}

/// Tests a new placeholder's name, behind these placeholders.
fn test_name(placeholders: &Placeholders, name: &[u8]) -> Result<(), DrnCause>
    ensures fault { fault_of result ≡ new_name_fault placeholders.now name.now }
    ensures room { IfOk result (λ _. length placeholders.now < most_placeholders) }
    ensures new { IfOk result (λ _.
        list_any (λ p. bytes_eq name.now p.name) placeholders.now ≡ false) }
{
    if name.len() > MOST_NAME_BYTES {
        return Err(DrnCause::LimitName);
    }
    if placeholders.contains(name) {
        return Err(DrnCause::RepeatedName);
    }
    if placeholders.len() >= MOST_PLACEHOLDERS {
        return Err(DrnCause::LimitPlaces);
    }
    Ok(())
}

/// The name of a placeholder's line, which is new behind these placeholders.
pub(crate) fn read_placeholder_name<'t>(
    placeholders: &Placeholders,
    line: &'t [u8],
) -> Result<&'t [u8], DrnCause>
    ensures fault { fault_of result ≡ placeholder_name_fault placeholders.now line.now }
    ensures name { IfOk result (λ name. IsNewName placeholders.now line.now name.now) }
{
    let name = name_of(line)?;
    test_name(placeholders, name)?;
    Ok(name)
}
