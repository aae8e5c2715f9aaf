// A line with one number.
ghost use Rattle.std.specs.Prelude.{◌≤◌, ◌<◌, ◌^◌, IfOk};
ghost use Rattle.line_text.specs.Follow.{Follows};
ghost use Rattle.line_text.specs.Parts.{number_in};
ghost use Rattle.line_text.specs.Reading.{line_at};

use lift_base::{Lines, Source};
use line_text::{FileError, Words, due, number_in, take_line};
use std::alloc::Global;
use std::ops::Range;

/// The line that is due, as a word and one number of a range.
pub(crate) fn number_line<S: Source>(
    alloc: Global,
    lines: &mut Lines,
    src: &mut S,
    key: &[u8],
    range: Range<u64>,
) -> Result<u64, FileError>
    requires { range.end ≤ 2 ^ 62 }
    ensures follows { Follows S.left S.faults (λ n. n) (line_at (number_in key.now range.start range.end))
        lines.old lines.new src.old src.new result }
    ensures range { IfOk result (λ n. n < range.end) }
{
    due(lines, src)?;
    let number = number_in(alloc, &Words::of(lines.line()), key, range.start, range.end);
    take_line(lines, number)
}
