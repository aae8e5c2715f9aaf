ghost use Rattle.std.specs.Prelude.{◌≡◌, ◌+◌, ◌≤◌, length};
ghost use Rattle.std.specs.List.{prefix_len, suffix_len};
ghost use Rattle.lift_bytes.specs.Bytes.{is_blank, behind};
ghost use Rattle.lift_bytes.specs.Trimming.{trimmed_end, trimmed};

use crate::class::is_blank;
use crate::front::blanks_len;

/// How many blanks stand at the end.
fn blanks_at_end(text: &[u8]) -> usize
    ensures within { result ≤ length text.now }
    ensures len { result ≡ suffix_len is_blank text.now }
{
    let mut left = text.len();
    while left > 0 && is_blank(text[left - 1]) {
        left -= 1;
    }
    text.len() - left
}

/// Without the blanks at the front.
pub fn trimmed_front(text: &[u8]) -> &[u8]
    ensures trimmed { result.now ≡ behind is_blank text.now }
    ensures within { prefix_len is_blank text.now + length result.now ≤ length text.now }
{
    &text[blanks_len(text)..]
}

/// Without the blanks at the end.
pub fn trimmed_end(text: &[u8]) -> &[u8]
    ensures trimmed { result.now ≡ trimmed_end text.now }
    ensures within { length result.now ≤ length text.now }
{
    &text[..text.len() - blanks_at_end(text)]
}

/// Without the blanks at both ends.
pub fn trimmed(text: &[u8]) -> &[u8]
    ensures trimmed { result.now ≡ trimmed text.now }
    ensures within { prefix_len is_blank text.now + length result.now ≤ length text.now }
{
    trimmed_end(trimmed_front(text))
}
