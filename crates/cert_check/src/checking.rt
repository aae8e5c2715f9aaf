// Checks what a source gives.
ghost use Rattle.std.specs.Prelude.{◌≡◌, ◌≤◌, IfErr};
ghost use Rattle.cert_check.specs.Shown.{leaves_in};
ghost use Rattle.cert_check.specs.Source.{AnswersReported, ChecksSource, CountsFault, KeepsLimit, TellsSmallNumbers, report_limit};

use crate::error::CheckError;
use crate::file::{Checked, check_file};
use crate::laws::{answers_are_one, sound_files_pass, sound_reports_hold};
use crate::summary::Summary;
use crate::walk::Walk;
use lift_base::Source;
use line_text::readings_end;
use std::alloc::Global;

/// How many bytes a report may have.
const REPORT_LIMIT: u64 = 1 << 32;

/// Of a report that was checked its leaves.
pub(crate) fn leaves_in(answer: Result<Checked, CheckError>) -> Result<Summary, CheckError>
    ensures { result ≡ leaves_in answer }
{
    match answer {
        Ok(checked) => Ok(checked.leaves),
        Err(error) => Err(error),
    }
}

/// Checks a report that a source gives, line by line, as `check` does; more than `limit` bytes are too many.
pub fn check_within<S: Source>(
    alloc: Global,
    src: &mut S,
    limit: u64,
) -> Result<Summary, CheckError>
    requires { limit ≤ report_limit }
    ensures answer { ChecksSource limit S.left S.faults src.old src.new result }
    ensures limit { KeepsLimit limit result (S.left src.old) (S.left src.new) }
    ensures faults { CountsFault result (S.faults src.old) (S.faults src.new) }
    ensures numbers { IfErr result TellsSmallNumbers }
    ensures reported { AnswersReported limit (S.left src.old) (S.faults src.old) (S.faults src.new) result }
{
    sound_files_pass();
    sound_reports_hold();
    answers_are_one();
    readings_end::<S>();
    let mut walk = Walk::make(alloc, limit)?;
    let answer = check_file(alloc, &mut walk, src);
    let _ = walk.lines.given();
    leaves_in(answer)
}

/// Checks a report that a source gives, of at most 2^32 bytes, and tells how many leaves of each kind it has:
/// exactly where its text is that of a report whose rows are admitted over its region and whose tree is
/// sound, and was read to its end. Each line is read when it is due, and the first fault that is met is told:
/// of the source, of its size, of the head, or of the rows; of the nodes in preorder, of which each is read
/// before its depth is tested, and then its axis or its certificate; or that something follows. Nothing
/// behind it is read. After a fault of the source some bytes may be lost.
///
/// It keeps the lines' buffer of 1.1 MB, the head, a node, a rectangle for each level, and the weights of the
/// head's rows at their corners. Its time is linear in the file, but for the corners of rows.
pub fn check<S: Source>(alloc: Global, src: &mut S) -> Result<Summary, CheckError>
    ensures answer { ChecksSource report_limit S.left S.faults src.old src.new result }
    ensures limit { KeepsLimit report_limit result (S.left src.old) (S.left src.new) }
    ensures faults { CountsFault result (S.faults src.old) (S.faults src.new) }
    ensures numbers { IfErr result TellsSmallNumbers }
    ensures reported { AnswersReported report_limit (S.left src.old) (S.faults src.old) (S.faults src.new) result }
{
    check_within(alloc, src, REPORT_LIMIT)
}
