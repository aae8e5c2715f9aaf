// The whole program, over any source and sinks.
ghost use Rattle.std.specs.Prelude.{◌≡◌, ◌≢◌, ◌≤◌, ◌<◌, ◌⊎◌, length, List, ℕ};
ghost use Rattle.std.specs.Prelude.{Some, None, Ok, Err, IsErr, IsOk, true, false};
ghost use Rattle.std.specs.Option.{ForSome};
ghost use Rattle.std.specs.Io.KnownBytes.{Appends};
ghost use Rattle.lift_base.specs.Outside.{Rose, AppendsFront, TakenHas};
ghost use Rattle.lift_grid.specs.Region.{Region, region};
ghost use Rattle.lift_grid.specs.Tree.{Tree};
ghost use Rattle.corner_lift.specs.Case.{IsCase, IsAdmitted, case_of};
ghost use Rattle.region_tree.specs.Right.{IsRightTree};
ghost use Rattle.region_tree.specs.Laws.{RightTreesExist, RightTreesAreOne};
ghost use Rattle.lift_bounded.specs.Laws.{BoundedTreesExist, BoundedTreesAreOne};
ghost use Rattle.lift_cost.specs.Laws.{CostTreesExist, CostTreesAreOne};
ghost use Rattle.property_tree.specs.Laws.{PropertyTreesAreOne, RangeTreesAreOne};
ghost use Rattle.cert_text.specs.Report.{report_text};
ghost use Rattle.cert_text.specs.Forms.{IsReportedBound};
ghost use Rattle.plift_words.specs.Job.{VerifyData};
ghost use Rattle.plift_words.specs.declared.job.Field.TheVariants.{Words};
ghost use Rattle.plift_words.specs.Query.{query_bound, query_from, is_reported};
ghost use Rattle.plift_top.specs.Asked.{AskedModel, cut, asked_model};
ghost use Rattle.plift_top.specs.RightReport.{version_of};
ghost use Rattle.plift_top.specs.Reads.{KeepsWithin, WasRead};
ghost use Rattle.plift_top.specs.Verify.{Reports, ReportsFront, IsAnswerable, lacks_chain};
ghost use Rattle.plift_top.specs.Verify.{IsRefused};
ghost use Rattle.model_gen.specs.Ladder.{ladder_text, ladder_case, ladder_precision};
ghost use Rattle.plift_top.specs.Answers.{status_of, wanted, AsksToVerify, AsksToCheck, AsksToMigrate, AsksToRefine};
ghost use Rattle.plift_top.specs.Answers.{AsksToGenerate, AsksToSelftest, IsTooLong, limit_of};
ghost use Rattle.plift_top.specs.Selftest.{one_half, tested_line};
ghost use Rattle.plift_top.specs.Laws.{LaddersHaveTrees};
ghost use Rattle.cert_check.specs.Sound.{IsSoundFile, leaf_counts};
ghost use Rattle.cert_check.specs.Source.{NoFault, file_limit, report_limit};
ghost use Rattle.line_text.specs.Found.{WasFound};
ghost use Rattle.cert_check.specs.declared.summary.Summary.{Summary};
ghost use Rattle.plift_top.specs.Check.{IsFoundSound, IsFoundInPart, IsUnsound};
ghost use Rattle.plift_top.specs.Migrate.{IsMigrated, IsSoundFirst, IsUnsoundFirst};
ghost use Rattle.plift_top.specs.Refine.{IsFitting, IsRefinedTo, IsRefinedInPart, IsSoundText, LacksDepth, RefinesRight};
ghost use Rattle.plift_top.specs.Refine.{deeper_head};
ghost use Rattle.cert_text.specs.Head.{HeadData};
ghost use Rattle.plift_top.specs.Answers.{HasNote, WroteNote, Acts, Generates};

use crate::checking::check_report;
use crate::laws::{lumped_reports_are_sound, right_reports_are_sound};
use crate::migrate::migrate;
use crate::notes::end;
use crate::refine::refine;
use crate::refusal::Refusal;
use crate::selftest::selftest;
use crate::verify::verify;
use cert_check::{answers_are_one, sound_files_pass};
use cert_text::texts_tell_one_report;
use check_notes::Status;
use lift_base::{Sink, Source, write_buffered};
use lift_bounded::{bounded_trees_are_one, bounded_trees_exist};
use lift_cost::{cost_trees_are_one, cost_trees_exist};
use lift_rows::first_fault_is_one;
use model_gen::{Ladder, ladders_are_cases};
use plift_words::{Job, job_of};
use property_tree::{property_trees_are_one, range_trees_are_one};
use region_tree::{right_trees_are_one, right_trees_exist};
use std::alloc::Global;

// Writes a ladder.
fn write_ladder<K: Sink>(ladder: &Ladder, out: &mut K) -> Result<(), Refusal>
    ensures { Generates K.taken K.faults ladder.now.blocks out.old out.new result }
{
    write_buffered(out, ladder)?;
    Ok(())
}

// Does what the words ask for.
#[tactic(auto, unfolding(crate::specs::Answers::wanted))]
fn act<S: Source, K: Sink>(
    alloc: Global,
    words: &[String],
    source: &mut S,
    out: &mut K,
) -> Result<(), Refusal>
    ensures answer { Acts S.left S.faults K.taken K.faults (wanted words.now)
        source.old source.new out.old out.new result }
    ensures limit { ((n : ℕ) → AsksToSelftest (wanted words.now) n → ⊥)
        → KeepsWithin (limit_of (wanted words.now)) result (S.left source.old) (S.left source.new) }
    ensures bound { IsOk result → (j : VerifyData) → AsksToVerify (wanted words.now) j
        → ForSome (query_bound j.query) IsReportedBound }
    ensures whole { IsOk result → (j : VerifyData) → AsksToVerify (wanted words.now) j
        → is_reported j.query ≡ true → (j.safe ≡ None) × (j.reward ≡ None) }
{
    match job_of(alloc, words) {
        Ok(Job::Verify(job)) => verify(alloc, &job, source, out),
        Ok(Job::Generate(ladder)) => write_ladder(&ladder, out),
        Ok(Job::Check) => check_report(alloc, source, out),
        Ok(Job::Migrate) => migrate(alloc, source, out),
        Ok(Job::Refine(job)) => refine(alloc, job, source, out),
        Ok(Job::Selftest(ladder)) => selftest(alloc, &ladder, out),
        Err(cause) => Err(Refusal::from(cause)),
    }
}

/// Runs the program on the words after its name: reads from `source`, writes to `out`, and tells of
/// a refusal on `notes`.
pub fn run<S: Source, K: Sink, E: Sink>(
    alloc: Global,
    words: &Vec<String>,
    source: &mut S,
    out: &mut K,
    notes: &mut E,
) -> Status
    // Done of `verify`, `bounded`, `lumped`, `property` or `cost`: the source gave a text that stands for a model,
    // of `cost` with costs, which with the job's region makes a case, of `property` after the cut, and out took the
    // report of this case, with a range of precisions where the job tells one, its text for the number of steps, the
    // report of its quotient, or its text for the property or for the budget, whole, and that of its right tree. The
    // tree's leaves tile the root, and each bounds the schedulers inside its rectangle: those of the model that was
    // read, of `property` by way of its safe states, and of `cost` by what they pay before the goal.
    ensures done { result ≡ Status.Done
        → (j : VerifyData) → AsksToVerify (wanted words.now.items) j
        → WasRead (Reports (K.taken out.old) (K.taken out.new) j)
        (S.left source.old) (S.left source.new) }

    // What out took of `verify` or `lumped` is a sound file: of the second version where a range is told.
    ensures sound { result ≡ Status.Done
        → (j : VerifyData) → AsksToVerify (wanted words.now.items) j → is_reported j.query ≡ true
        → (report : List ℕ) × (leaves : Summary) × IsSoundFile report leaves
        × (leaves.version ≡ version_of (query_from j.query)) × Appends (K.taken out.old) (K.taken out.new) report }

    // Done of `check`: the source gave a sound file, and out took its line. The leaves of its report
    // tile its region, and each holds inside its rectangle, for the model and the bound in the file.
    ensures checked { result ≡ Status.Done → AsksToCheck (wanted words.now.items)
        → WasRead (IsFoundSound (K.taken out.old) (K.taken out.new))
        (S.left source.old) (S.left source.new) }

    // Done of `migrate`: the source gave a sound file of the first version, and out took the text of the
    // same report in the second, and nothing else; that is a sound file with the same leaves.
    ensures migrated { result ≡ Status.Done → AsksToMigrate (wanted words.now.items)
        → WasRead (IsMigrated (Appends (K.taken out.old) (K.taken out.new)))
        (S.left source.old) (S.left source.new) }

    // Done of `refine`: the source gave a sound file whose case is one at the depth that is asked for, which is
    // greater, and out took the report of that case, and nothing else: its tree keeps the decided leaves of the old
    // one, and has right trees in the place of its unknown leaves. It is a sound file of the same version.
    ensures refined { result ≡ Status.Done → (depth : ℕ) → AsksToRefine (wanted words.now.items) depth
        → WasRead (IsRefinedTo (K.taken out.old) (K.taken out.new) depth)
        (S.left source.old) (S.left source.new) }

    // Where the source gave the report of a right tree, out took that of the right tree at that depth: the bytes
    // that `verify` writes there.
    ensures refined_right { result ≡ Status.Done → (depth : ℕ) → AsksToRefine (wanted words.now.items) depth
        → WasRead (RefinesRight (K.taken out.old) (K.taken out.new) depth)
        (S.left source.old) (S.left source.new) }

    // Done of `generate`: out took the text of the ladder that is asked for, and nothing else.
    ensures generated { result ≡ Status.Done
        → (n : ℕ) → AsksToGenerate (wanted words.now.items) n
        → Appends (K.taken out.old) (K.taken out.new) (ladder_text n) }

    // Done of `selftest`: out took the line of the ladder's right tree, and nothing else.
    ensures selftested { result ≡ Status.Done
        → (n : ℕ) → AsksToSelftest (wanted words.now.items) n
        → (tree : Tree) × IsCase (ladder_case n) × IsRightTree (ladder_case n) ladder_precision one_half tree
        × Appends (K.taken out.old) (K.taken out.new) (tested_line n (leaf_counts 1 tree)) }

    // Each refusal has its cause. What `reported` says of its note has the causes of the others.
    ensures at_fault { IsErr (wanted words.now.items)
        → (result ≡ Status.Usage) ⊎ (result ≡ Status.Memory) }
    ensures not_plain { wanted words.now.items ≡ Err Words → result ≡ Status.Usage }
    ensures read_fault { result ≡ Status.ReadFault
        → Rose (S.faults source.old) (S.faults source.new) }
    ensures write_fault { result ≡ Status.WriteFault → Rose (K.faults out.old) (K.faults out.new) }
    ensures too_long { result ≡ Status.TooLong
        → IsTooLong (wanted words.now.items) (S.left source.old) (S.left source.new) }
    ensures within { result ≢ Status.TooLong
        → TakenHas (λ bytes. length bytes ≤ limit_of (wanted words.now.items))
        (S.left source.old) (S.left source.new) }

    // `check` answers NotSound only to bytes that are no front of a sound file, whatever may follow
    // those that were taken; nothing may where the end was seen. `migrate` does only to bytes that were
    // read to their end and are no sound file of the first version, and `refine` to such as are no sound file.
    // No other command does.
    ensures not_sound { result ≡ Status.NotSound
        → (AsksToCheck (wanted words.now.items)
        × WasFound report_limit IsUnsound (S.left source.old) (S.left source.new))
        ⊎ ((AsksToMigrate (wanted words.now.items)
        × WasRead IsUnsoundFirst (S.left source.old) (S.left source.new))
        ⊎ ((depth : ℕ) × AsksToRefine (wanted words.now.items) depth
        × WasRead IsUnsound (S.left source.old) (S.left source.new))) }

    // `check` answers Done or Memory to a sound file, and NotSound or Memory to any other, where no
    // fault is counted.
    ensures check_complete { (bytes : List ℕ) (leaves : Summary)
        → AsksToCheck (wanted words.now.items) → S.left source.old ≡ Some bytes
        → IsSoundFile bytes leaves → length bytes ≤ report_limit
        → NoFault (S.faults source.old) (S.faults source.new)
        → NoFault (K.faults out.old) (K.faults out.new)
        → (result ≡ Status.Done) ⊎ (result ≡ Status.Memory) }
    ensures check_refused { (bytes : List ℕ)
        → AsksToCheck (wanted words.now.items) → S.left source.old ≡ Some bytes
        → IsUnsound bytes → length bytes ≤ report_limit
        → NoFault (S.faults source.old) (S.faults source.new)
        → NoFault (K.faults out.old) (K.faults out.new)
        → (result ≡ Status.NotSound) ⊎ (result ≡ Status.Memory) }

    // `migrate` answers Done or Memory to a sound file of the first version, and NotSound or Memory to
    // any other text, where no fault is counted.
    ensures migrate_complete { (bytes : List ℕ) (leaves : Summary)
        → AsksToMigrate (wanted words.now.items) → S.left source.old ≡ Some bytes
        → IsSoundFirst bytes leaves → length bytes ≤ file_limit
        → NoFault (S.faults source.old) (S.faults source.new)
        → NoFault (K.faults out.old) (K.faults out.new)
        → (result ≡ Status.Done) ⊎ (result ≡ Status.Memory) }
    ensures migrate_refused { (bytes : List ℕ)
        → AsksToMigrate (wanted words.now.items) → S.left source.old ≡ Some bytes
        → IsUnsoundFirst bytes → length bytes ≤ file_limit
        → NoFault (S.faults source.old) (S.faults source.new)
        → NoFault (K.faults out.old) (K.faults out.new)
        → (result ≡ Status.NotSound) ⊎ (result ≡ Status.Memory) }

    // `refine` answers Done or Memory to a sound file whose depth is below the one that is asked for, and whose
    // case is one there; Usage or Memory where that depth isn't greater, or calls for too large a grid; RowsRefused or
    // Memory where a row is too wide for it; and NotSound or Memory to any other text, where no fault is counted.
    ensures refine_complete { (depth : ℕ) (bytes : List ℕ) (head : HeadData) (tree : Tree)
        → AsksToRefine (wanted words.now.items) depth → S.left source.old ≡ Some bytes
        → IsSoundText bytes head tree → IsFitting depth head → length bytes ≤ file_limit
        → NoFault (S.faults source.old) (S.faults source.new)
        → NoFault (K.faults out.old) (K.faults out.new)
        → (result ≡ Status.Done) ⊎ (result ≡ Status.Memory) }
    ensures refine_too_deep { (depth : ℕ) (bytes : List ℕ) (head : HeadData) (tree : Tree)
        → AsksToRefine (wanted words.now.items) depth → S.left source.old ≡ Some bytes
        → IsSoundText bytes head tree → LacksDepth depth head → length bytes ≤ file_limit
        → NoFault (S.faults source.old) (S.faults source.new)
        → NoFault (K.faults out.old) (K.faults out.new)
        → (result ≡ Status.Usage) ⊎ (result ≡ Status.Memory) }
    ensures refine_unadmitted { (depth : ℕ) (bytes : List ℕ) (head : HeadData) (tree : Tree)
        → AsksToRefine (wanted words.now.items) depth → S.left source.old ≡ Some bytes
        → IsSoundText bytes head tree → (LacksDepth depth head → ⊥)
        → (IsAdmitted (deeper_head depth head).asked → ⊥) → length bytes ≤ file_limit
        → NoFault (S.faults source.old) (S.faults source.new)
        → NoFault (K.faults out.old) (K.faults out.new)
        → (result ≡ Status.RowsRefused) ⊎ (result ≡ Status.Memory) }
    ensures refine_refused { (depth : ℕ) (bytes : List ℕ)
        → AsksToRefine (wanted words.now.items) depth → S.left source.old ≡ Some bytes
        → IsUnsound bytes → length bytes ≤ file_limit
        → NoFault (S.faults source.old) (S.faults source.new)
        → NoFault (K.faults out.old) (K.faults out.new)
        → (result ≡ Status.NotSound) ⊎ (result ≡ Status.Memory) }

    // A job, a text that stands for a model, and a region over which its rows are admitted after the cut give
    // Done or Memory, where no fault is counted. `lumped` wants a chain whose quotient isn't too wide.
    ensures complete { (j : VerifyData) (text : List ℕ) (a : AskedModel) (root : Region)
        → AsksToVerify (wanted words.now.items) j → S.left source.old ≡ Some text
        → asked_model j text ≡ Ok a → region (cut a).names j.depth j.region ≡ Ok root
        → IsAdmitted (case_of (cut a) root j.precision) → IsAnswerable j.query (cut a) → length text ≤ file_limit
        → NoFault (S.faults source.old) (S.faults source.new)
        → NoFault (K.faults out.old) (K.faults out.new)
        → (result ≡ Status.Done) ⊎ (result ≡ Status.Memory) }

    // A job that is refused at its text gives that refusal's status or Memory, where no fault is
    // counted.
    ensures refused { (j : VerifyData) (text : List ℕ) (why : Refusal)
        → AsksToVerify (wanted words.now.items) j → S.left source.old ≡ Some text
        → IsRefused j why text → length text ≤ file_limit
        → NoFault (S.faults source.old) (S.faults source.new)
        → NoFault (K.faults out.old) (K.faults out.new)
        → (result ≡ status_of why) ⊎ (result ≡ Status.Memory) }

    // Rows that aren't admitted over the job's region after the cut give RowsRefused or Memory, where no fault
    // is counted, of a chain where one is to be lumped.
    ensures unadmitted { (j : VerifyData) (text : List ℕ) (a : AskedModel) (root : Region)
        → AsksToVerify (wanted words.now.items) j → S.left source.old ≡ Some text
        → asked_model j text ≡ Ok a → region (cut a).names j.depth j.region ≡ Ok root
        → (IsAdmitted (case_of (cut a) root j.precision) → ⊥) → lacks_chain j.query (cut a).kind ≡ false
        → length text ≤ file_limit
        → NoFault (S.faults source.old) (S.faults source.new)
        → NoFault (K.faults out.old) (K.faults out.new)
        → (result ≡ Status.RowsRefused) ⊎ (result ≡ Status.Memory) }

    // A ladder is written whole, or a write fails; and nothing is read.
    ensures generates { (n : ℕ) → AsksToGenerate (wanted words.now.items) n
        → (result ≡ Status.Done) ⊎ (result ≡ Status.WriteFault) }
    ensures reads_nothing { (n : ℕ) → AsksToGenerate (wanted words.now.items) n
        → source.new ≡ source.old }

    // A ladder is tested without reading, or a write fails, or its report is too long.
    ensures tests { (n : ℕ) → AsksToSelftest (wanted words.now.items) n
        → (result ≡ Status.Done) ⊎ ((result ≡ Status.WriteFault)
        ⊎ ((result ≡ Status.TooLong) ⊎ (result ≡ Status.Memory))) }
    ensures tests_unread { (n : ℕ) → AsksToSelftest (wanted words.now.items) n
        → source.new ≡ source.old }
    ensures short_tested { (n : ℕ) (tree : Tree)
        → AsksToSelftest (wanted words.now.items) n → IsRightTree (ladder_case n) ladder_precision one_half tree
        → length (report_text (ladder_case n) None one_half tree) ≤ file_limit
        → NoFault (K.faults out.old) (K.faults out.new)
        → (result ≡ Status.Done) ⊎ (result ≡ Status.Memory) }
    ensures long_tested { (n : ℕ) (tree : Tree)
        → AsksToSelftest (wanted words.now.items) n → IsRightTree (ladder_case n) ladder_precision one_half tree
        → file_limit < length (report_text (ladder_case n) None one_half tree)
        → (result ≡ Status.TooLong) ⊎ (result ≡ Status.Memory) }

    // What stands after a refusal: a front of what was asked for after a write fault, else out as it
    // was.
    ensures part { result ≡ Status.WriteFault
        → (j : VerifyData) → AsksToVerify (wanted words.now.items) j
        → WasRead (ReportsFront (K.taken out.old) (K.taken out.new) j)
        (S.left source.old) (S.left source.new) }
    ensures line_part { result ≡ Status.WriteFault → AsksToCheck (wanted words.now.items)
        → WasRead (IsFoundInPart (K.taken out.old) (K.taken out.new))
        (S.left source.old) (S.left source.new) }
    ensures migrated_part { result ≡ Status.WriteFault → AsksToMigrate (wanted words.now.items)
        → WasRead (IsMigrated (AppendsFront (K.taken out.old) (K.taken out.new)))
        (S.left source.old) (S.left source.new) }
    ensures refined_part { result ≡ Status.WriteFault
        → (depth : ℕ) → AsksToRefine (wanted words.now.items) depth
        → WasRead (IsRefinedInPart (K.taken out.old) (K.taken out.new) depth)
        (S.left source.old) (S.left source.new) }
    ensures ladder_part { result ≡ Status.WriteFault
        → (n : ℕ) → AsksToGenerate (wanted words.now.items) n
        → AppendsFront (K.taken out.old) (K.taken out.new) (ladder_text n) }
    ensures tested_part { result ≡ Status.WriteFault
        → (n : ℕ) → AsksToSelftest (wanted words.now.items) n
        → (tree : Tree) × IsCase (ladder_case n) × IsRightTree (ladder_case n) ladder_precision one_half tree
        × AppendsFront (K.taken out.old) (K.taken out.new) (tested_line n (leaf_counts 1 tree)) }
    ensures kept { result ≢ Status.Done → result ≢ Status.WriteFault → out.new ≡ out.old }
    ensures unread { IsErr (wanted words.now.items) → source.new ≡ source.old }

    // A case has exactly one right tree for each bound and each range of precisions, and each ladder is a case: so what is said
    // above of whichever tree is right is said of one.
    ensures right_tree { RightTreesExist }
    ensures no_other_tree { RightTreesAreOne }
    ensures ladder_tree { LaddersHaveTrees }

    // So it has exactly one for each bound and each number of steps, and for costs, a cap and a budget; and at most one
    // for each comparison and bound, also with a range of precisions.
    ensures bounded_tree { BoundedTreesExist }
    ensures no_other_bounded_tree { BoundedTreesAreOne }
    ensures cost_tree { CostTreesExist }
    ensures no_other_cost_tree { CostTreesAreOne }
    ensures no_other_property_tree { PropertyTreesAreOne }
    ensures no_other_range_tree { RangeTreesAreOne }

    // A refusal is told by its note, and nothing else is.
    ensures silent { result ≡ Status.Done → notes.new ≡ notes.old }
    ensures reported { result ≢ Status.Done → (note : List ℕ)
        × HasNote result (wanted words.now.items) (S.left source.old) (S.left source.new) note
        × WroteNote E.taken E.faults notes.old notes.new note }
{
    first_fault_is_one();
    sound_files_pass();
    answers_are_one();
    texts_tell_one_report();
    right_reports_are_sound();
    lumped_reports_are_sound();
    right_trees_are_one();
    right_trees_exist();
    bounded_trees_are_one();
    bounded_trees_exist();
    cost_trees_are_one();
    cost_trees_exist();
    property_trees_are_one();
    range_trees_are_one();
    ladders_are_cases();
    let answer = act(alloc, words, source, out);
    end(notes, answer)
}
