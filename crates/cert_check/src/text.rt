// Checks a report that stands in memory.
ghost use Rattle.std.specs.Prelude.{◌≡◌, ◌≤◌, ◌<◌, ◌^◌, length, IfOk, IfErr};
ghost use Rattle.cert_text.specs.Cut.{CutsHead};
ghost use Rattle.cert_check.specs.Answer.{Answers};
ghost use Rattle.cert_check.specs.Sound.{IsSoundFile};
ghost use Rattle.cert_check.specs.Source.{report_limit};
ghost use Rattle.cert_check.specs.Shown.{Says, IsReportedOfFile};

use crate::checking::check_within;
use crate::error::CheckError;
use crate::file::check_file;
use crate::laws::{sound_files_pass, sound_reports_hold};
use crate::summary::Summary;
use crate::walk::Walk;
use cert_text::{Head, behind_lines, cut_lines, heads_are_cut};
use line_text::{TextSource, readings_end};
use std::alloc::Global;

/// Checks a report that stands in memory, as `check` does one that a source gives: tells how many
/// leaves of each kind it has where it is sound, and else its first fault.
pub fn check_text(alloc: Global, text: &[u8]) -> Result<Summary, CheckError>
    requires { length text.now ≤ report_limit }
    ensures sound { IfOk result (IsSoundFile text.now) }
    ensures answer { Says (λ s. s) (Answers text.now) result }
    ensures reported { IfErr result IsReportedOfFile }
{
    sound_files_pass();
    check_within(alloc, &mut TextSource::new(text), text.len() as u64)
}

/// How many lines of a head tell the depth and the region; they are its last ones.
const REGION_LINES: u32 = 3;

/// A sound report that stands in memory: its head, the text of its nodes, and its leaves.
#[derive(Drop)]
pub struct SoundText<'t> {
    pub head: Head,
    /// The lines of the head above the last three, which tell the depth and the region.
    pub top: &'t [u8],
    pub nodes: &'t [u8],
    pub leaves: Summary,
}

/// Checks a report that stands in memory, as `check_text` does, and gives its head and the text of its nodes, which
/// were read only once.
pub fn check_parts(alloc: Global, text: &[u8]) -> Result<SoundText<'_>, CheckError>
    requires { length text.now < 2 ^ 32 }
    ensures sound { IfOk result (λ x. IsSoundFile text.now x.leaves) }
    ensures cut { IfOk result (λ x. CutsHead text.now x.head x.top.now x.nodes.now) }
    ensures answer { Says (λ x. x.leaves) (Answers text.now) result }
    ensures reported { IfErr result IsReportedOfFile }
{
    sound_files_pass();
    sound_reports_hold();
    readings_end::<TextSource>();
    heads_are_cut();
    let mut walk = Walk::make(alloc, text.len() as u64)?;
    let answer = check_file(alloc, &mut walk, &mut TextSource::new(text));
    let _ = walk.lines.given();
    let checked = answer?;
    let (top, below) = cut_lines(text, checked.head_lines.saturating_sub(REGION_LINES));
    Ok(SoundText {
        head: checked.head,
        top,
        nodes: behind_lines(below, REGION_LINES),
        leaves: checked.leaves,
    })
}
