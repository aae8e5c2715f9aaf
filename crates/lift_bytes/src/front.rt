ghost use Rattle.std.specs.Prelude.{◌≡◌, ◌==◌, ◌≤◌, length};
ghost use Rattle.std.specs.List.{position_or_len, prefix_len};
ghost use Rattle.std.specs.Char.{is_ascii_digit};
ghost use Rattle.lift_bytes.specs.Bytes.{is_blank, is_name_byte};

use crate::class::{is_blank, is_name_byte};

/// How many blanks stand at the front.
pub fn blanks_len(text: &[u8]) -> usize
    ensures within { result ≤ length text.now }
    ensures len { result ≡ prefix_len is_blank text.now }
{
    for (i, byte) in text.iter().enumerate() {
        if !is_blank(*byte) {
            return i;
        }
    }
    text.len()
}

/// How many bytes of names stand at the front.
pub fn name_len(text: &[u8]) -> usize
    ensures within { result ≤ length text.now }
    ensures len { result ≡ prefix_len is_name_byte text.now }
{
    for (i, byte) in text.iter().enumerate() {
        if !is_name_byte(*byte) {
            return i;
        }
    }
    text.len()
}

/// How many digits stand at the front.
pub fn digits_len(text: &[u8]) -> usize
    ensures within { result ≤ length text.now }
    ensures len { result ≡ prefix_len is_ascii_digit text.now }
{
    for (i, byte) in text.iter().enumerate() {
        if !byte.is_ascii_digit() {
            return i;
        }
    }
    text.len()
}

/// How many bytes stand before the first one that is `end`; all of them where there is none.
pub fn len_before(text: &[u8], end: u8) -> usize
    ensures within { result ≤ length text.now }
    ensures len { result ≡ position_or_len (λ b. b == end) text.now }
{
    for (i, byte) in text.iter().enumerate() {
        if *byte == end {
            return i;
        }
    }
    text.len()
}
