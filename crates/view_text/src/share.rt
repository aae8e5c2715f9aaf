// Shares of the region's volume.
ghost use Rattle.std.specs.Prelude.{◌≡◌, ◌++◌};
ghost use Rattle.lift_base.specs.Outside.{Wrote};
ghost use Rattle.view_text.specs.Numbers.{percent_text};

use lift_base::{Sink, Word, WriteFault, write_words};

/// The whole volume, in the units of shares.
pub(crate) const WHOLE: u64 = 1 << 20;

/// Writes a share in percent with four digits, rounded down, behind a label.
pub(crate) fn write_percent<K: Sink>(
    out: &mut K,
    label: &[u8],
    share: u32,
) -> Result<(), WriteFault>
    ensures { Wrote K.taken K.faults out.old out.new result (label.now ++ percent_text share) }
{
    let v = u64::from(share) * 1_000_000 / WHOLE;
    write_words(
        out,
        &[
            Word::Text(label),
            Word::Count(v / 10_000),
            Word::Text(b"."),
            Word::Count(v / 1000 % 10),
            Word::Count(v / 100 % 10),
            Word::Count(v / 10 % 10),
            Word::Count(v % 10),
            Word::Text(b" %"),
        ],
    )
}
