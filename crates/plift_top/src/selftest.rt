// Tests the program on a ladder: verifies it, and checks the report.
ghost use Rattle.std.specs.Prelude.{◌≡◌, ◌≤◌, ◌⊎◌, Some, Ok, Err, IfOk, vec_len};
ghost use Rattle.lift_base.specs.Outside.{Wrote};
ghost use Rattle.model_gen.specs.Ladder.{ladder_text};
ghost use Rattle.cert_check.specs.Sound.{IsSoundFile};
ghost use Rattle.cert_check.specs.declared.summary.Summary.{Summary};
ghost use Rattle.cert_check.specs.Source.{file_limit};
ghost use Rattle.plift_top.specs.Reads.{Reads};
ghost use Rattle.plift_top.specs.Verify.{verifying};
ghost use Rattle.plift_top.specs.Selftest.{ladder_job, tested_line, GivesWithin};
ghost use Rattle.plift_top.specs.Selftest.{ReportsLadder, Selftests};
ghost use Rattle.plift_top.specs.declared.refusal.Refusal.TheVariants.{Memory};

use crate::laws::right_reports_are_sound;
use crate::limited::LimitedText;
use crate::refusal::Refusal;
use crate::verify::{TEXT_LIMIT, verify};
use cert_check::{Summary, check, sound_files_pass};
use lift_base::{Sink, SureSource, Text, Word, WriteFault, write_words};
use lift_cert::Bound;
use lift_rows::first_fault_is_one;
use model_gen::{Ladder, ladders_are_cases};
use plift_words::{Query, VerifyJob};
use region_tree::right_trees_are_one;
use std::alloc::{AllocError, Global};

/// The room for a ladder's text: one byte more than such a text has at most.
const LADDER_ROOM: usize = (1 << 23) + 1;

/// The room for a report: one byte more than a text may have, so that a longer one is known by it.
const REPORT_ROOM: usize = (1 << 26) + 1;

// The text of a ladder, in memory.
fn text_of(alloc: Global, ladder: &Ladder) -> Result<Vec<u8>, AllocError>
    ensures { IfOk result (λ text. text.items ≡ ladder_text ladder.now.blocks) }
{
    ladders_are_cases();
    let mut text = LimitedText::<LADDER_ROOM>::make(alloc)?;
    match ladder.write_to(&mut text) {
        Ok(()) => Ok(text.into_bytes()),
        Err(WriteFault) => unreachable!(),
    }
}

// Gives the bytes back, where they aren't more than a text may have.
fn within_limit(bytes: Vec<u8>) -> Result<Vec<u8>, Refusal>
    ensures { GivesWithin file_limit bytes result }
{
    if bytes.len() > TEXT_LIMIT {
        return Err(Refusal::TooLong);
    }
    Ok(bytes)
}

// Verifies the ladder that a source gives.
fn verify_ladder(
    alloc: Global,
    source: &mut SureSource,
    report: &mut LimitedText<REPORT_ROOM>,
) -> Result<(), Refusal>
    ensures { Reads (λ s. Some s) (λ s. 0) (λ t. Some t.bytes.items) (λ t. t.faults) (verifying ladder_job)
        source.old source.new report.old report.new result }
{
    let job = VerifyJob {
        goal: b"done",
        safe: None,
        reward: None,
        region: b"1/2<=p<=3/5,1/2<=q<=3/5",
        depth: 2,
        precision: 24,
        query: Query::Whole(Bound { num: 1, den: 2 }, None),
    };
    verify(alloc, &job, source, report)
}

// Verifies a ladder, and gives its report.
fn report_of(alloc: Global, ladder: &Ladder) -> Result<Vec<u8>, Refusal>
    ensures { ReportsLadder ladder.now.blocks result }
{
    ladders_are_cases();
    first_fault_is_one();
    right_trees_are_one();
    right_reports_are_sound();
    let text = text_of(alloc, ladder)?;
    let mut source = SureSource::new(text);
    let mut report = LimitedText::<REPORT_ROOM>::make(alloc)?;
    match verify_ladder(alloc, &mut source, &mut report) {
        Ok(()) => within_limit(report.into_bytes()),
        Err(Refusal::WriteFault) => Err(Refusal::TooLong),
        Err(refusal) => Err(refusal),
    }
}

// Checks a report, and counts its leaves.
fn leaves_of(alloc: Global, report: Vec<u8>) -> Result<Summary, Refusal>
    requires { vec_len report ≤ file_limit }
    ensures { (leaves : Summary) → IsSoundFile report.items leaves
        → (result ≡ Ok leaves) ⊎ (result ≡ Err Memory) }
{
    sound_files_pass();
    let leaves = check(alloc, &mut SureSource::new(report))?;
    Ok(leaves)
}

// Writes the line of a ladder that was tested.
fn write_tested<K: Sink>(out: &mut K, ladder: &Ladder, leaves: Summary) -> Result<(), WriteFault>
    ensures { Wrote K.taken K.faults out.old out.new result
        (tested_line ladder.now.blocks leaves) }
{
    let blocks = u64::from(ladder.blocks);
    write_words(
        out,
        &[
            Word::Text(b"selftest "),
            Word::Count(blocks),
            Word::Text(b" states "),
            Word::Count(2 * blocks + 2),
            Word::Text(b" accept "),
            Word::Count(u64::from(leaves.accept)),
            Word::Text(b" reject "),
            Word::Count(u64::from(leaves.reject)),
            Word::Text(b" unknown "),
            Word::Count(u64::from(leaves.unknown)),
            Word::Text(b"\n"),
        ],
    )
}

/// Makes a ladder's text, reads and verifies it, checks the report, and writes how many leaves of
/// each kind that has.
pub fn selftest<K: Sink>(alloc: Global, ladder: &Ladder, out: &mut K) -> Result<(), Refusal>
    ensures { Selftests K.taken K.faults ladder.now.blocks out.old out.new result }
{
    let report = report_of(alloc, ladder)?;
    let leaves = leaves_of(alloc, report)?;
    write_tested(out, ladder, leaves)?;
    Ok(())
}
