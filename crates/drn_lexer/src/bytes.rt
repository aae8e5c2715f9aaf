ghost use Rattle.std.specs.Prelude.{◌≡◌, ◌+◌, ◌≤◌, map, drop, length};
ghost use Rattle.std.specs.List.{prefix_len};
ghost use Rattle.std.specs.Simd.Lanes.{mask_l};
ghost use Rattle.drn_lexer.specs.Bytes.{is_text_byte, is_other_byte};
ghost use Rattle.drn_lexer.specs.Spans.{LiesIn, IsOn};
ghost use Rattle.drn_lexer.specs.Steps.{IsBehindBlanks};

use crate::line::Line;
use lift_bytes::blanks_len;
use std::simd::prelude::*;

/// How many bytes are looked at together.
const LANES: usize = 16;

/// A tab, or from a space to a tilde.
pub(crate) fn is_text_byte(byte: u8) -> bool
    ensures { result ≡ is_text_byte byte }
{
    byte == b'\t' || (b' '..=b'~').contains(&byte)
}

/// A bit for each of 16 bytes, the lowest for the first: whether it is no byte of text.
#[inline(always)]
fn others(bytes: u8x16) -> u64
    ensures { result ≡ mask_l (map is_other_byte bytes) }
{
    let outside = (bytes - u8x16::splat(b' ')).simd_ge(u8x16::splat(95));
    (outside & bytes.simd_ne(u8x16::splat(b'\t'))).to_bitmask()
}

/// Where the bytes of text end that stand from a place on.
fn text_end(text: &[u8], from: usize) -> usize
    requires { from ≤ length text.now }
    ensures end { result ≡ from + prefix_len is_text_byte (drop from text.now) }
    ensures within { result ≤ length text.now }
{
    let mut i = from;
    while i < text.len() && is_text_byte(text[i]) {
        i += 1;
    }
    i
}

/// How many bytes of text stand at the front. They are looked at by sixteens as long as so many bytes
/// are left.
#[inline(always)]
pub(crate) fn text_len(text: &[u8]) -> usize
    ensures len { result ≡ prefix_len is_text_byte text.now }
    ensures within { result ≤ length text.now }
{
    let mut i = 0;
    while text.len() - i >= LANES {
        let found = others(u8x16::from_slice(&text[i..]));
        if found != 0 {
            return i + found.trailing_zeros() as usize;
        }
        i += LANES;
    }
    text_end(text, i)
}

/// What stands on a line from a place on, without the blanks at its front, and where it begins.
pub(crate) fn behind_blanks(text: &[u8], line: Line, at: usize) -> (usize, &[u8])
    requires line { LiesIn line text.now }
    requires place { IsOn at line }
    ensures { IsBehindBlanks text.now at line.to result.0 result.1.now }
{
    let rest = &text[at..line.to];
    let blanks = blanks_len(rest);
    (at + blanks, &rest[blanks..])
}
