// The line that is due of a source.
ghost use Rattle.std.specs.Prelude.{◌≡◌, ◌+◌};
ghost use Rattle.lift_base.specs.declared.pieces.Front.TheVariants as front;
ghost use Rattle.lift_base.specs.Lines.{IsFront};
ghost use Rattle.line_text.specs.Follow.{Due, Ends, Takes, reported_fault};
ghost use Rattle.line_text.specs.declared.error.FileError.TheVariants as file;

use crate::error::{FileError, TextCause, TextError};
use lift_base::{Front, LineError, Lines, Source};

/// A fault of the line that is due.
pub fn fault(lines: &Lines, cause: TextCause) -> FileError
    ensures { result ≡ file.Text (reported_fault (record { line = lines.now.given + 1; cause = cause })) }
{
    FileError::Text(TextError {
        line: lines.given().saturating_add(1),
        cause,
    })
}

/// Reads on until the line that is due is at the front, and leaves it there for `Lines::line` and `take_line`.
/// Limit where 2^20 + 1 bytes hold no line feed, Truncated where what is left holds none.
pub fn due<S: Source>(lines: &mut Lines, src: &mut S) -> Result<(), FileError>
    ensures { Due S.left S.faults lines.old lines.new src.old src.new result }
{
    match lines.look(src) {
        Ok(Front::Line) => Ok(()),
        Ok(Front::Long) => Err(fault(lines, TextCause::Limit)),
        Ok(Front::Cut) => Err(fault(lines, TextCause::Truncated)),
        Ok(Front::End) => Err(fault(lines, TextCause::Truncated)),
        Err(LineError::Fault) => Err(FileError::Fault),
        Err(LineError::TooLong) => Err(FileError::TooLong),
    }
}

/// What was read of the line at the front, which is given; or the cause, told of that line.
pub fn take_line<X>(lines: &mut Lines, read: Result<X, TextCause>) -> Result<X, FileError>
    requires { IsFront front.Line lines.old.held }
    ensures { Takes lines.old lines.new read result }
{
    match read {
        Ok(x) => {
            lines.pass();
            Ok(x)
        }
        Err(cause) => Err(fault(lines, cause)),
    }
}

/// Reads on until it can be told whether nothing is left.
pub fn is_end<S: Source>(lines: &mut Lines, src: &mut S) -> Result<bool, LineError>
    ensures { Ends S.left S.faults lines.old lines.new src.old src.new result }
{
    match lines.look(src) {
        Ok(Front::End) => Ok(true),
        Ok(Front::Line) => Ok(false),
        Ok(Front::Cut) => Ok(false),
        Ok(Front::Long) => Ok(false),
        Err(e) => Err(e),
    }
}
