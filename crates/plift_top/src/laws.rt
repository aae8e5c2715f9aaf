//! Laws of reports, for who reasons about them. The functions do nothing.

ghost use Rattle.plift_top.specs.Laws.{RightReportsAreSound, LumpedReportsAreSound, RefinedReportsAreSound};

use cert_check::sound_trees_are_reports;
use corner_lift::lower_precisions_are_cases;
use drn_read::texts_are_valid;
use lift_lump::quotients_are_cases;
use lift_refine::{bases_are_gone_on_from, refined_trees_are_right};
use lower_cert::ranks_fit;
use region_tree::rectangles_at_depths;

/// The report of a right tree, of a case whose model a text stands for, is a sound file, for any range of precisions.
pub fn right_reports_are_sound()
    ensures { RightReportsAreSound }
{
    texts_are_valid();
    ranks_fit();
    lower_precisions_are_cases();
    sound_trees_are_reports();
}

/// The report of a right tree, of a case that is the quotient of a chain for which a text stands, is a sound file.
pub fn lumped_reports_are_sound()
    ensures { LumpedReportsAreSound }
{
    texts_are_valid();
    ranks_fit();
    quotients_are_cases();
    lower_precisions_are_cases();
    sound_trees_are_reports();
}

/// The report of a tree that refines that of a sound report is a sound file, and that of the right tree where the old
/// one is.
pub fn refined_reports_are_sound()
    ensures { RefinedReportsAreSound }
{
    ranks_fit();
    lower_precisions_are_cases();
    sound_trees_are_reports();
    rectangles_at_depths();
    bases_are_gone_on_from();
    refined_trees_are_right();
}
