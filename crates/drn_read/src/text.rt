// Pieces of a line by their bytes.
ghost use Rattle.std.specs.Prelude.{◌≡◌, ◌==◌};
ghost use Rattle.std.specs.Option.{option_map};
ghost use Rattle.lift_bytes.specs.Bytes.{code, first_passes};
ghost use Rattle.drn_read.specs.Text.{behind_colon};
ghost use Rattle.drn_read.specs.Shown.{rest};

use crate::cursor::Cursor;
use lift_bytes::blanks_len;

/// Whether a line begins with `@`.
pub(crate) fn is_head(line: &[u8]) -> bool
    ensures { result ≡ first_passes (λ b. b == code "@") line.now }
{
    matches!(line, [b'@', ..])
}

fn begins_colon(text: &[u8]) -> bool
    ensures { result ≡ first_passes (λ b. b == code ":") text.now }
{
    matches!(text, [b':', ..])
}

/// The place behind a colon, around which blanks are free.
#[tactic(auto, using(crate::proofs::Pieces::colon_found, crate::proofs::Pieces::no_colon))]
pub(crate) fn behind_colon(cursor: Cursor<'_>) -> Option<Cursor<'_>>
    ensures { option_map (λ behind. rest behind) result ≡ behind_colon (rest cursor.entry) }
{
    let front = cursor.forward(blanks_len(cursor.rest()));
    if begins_colon(front.rest()) {
        Some(front.forward(1))
    } else {
        None
    }
}
