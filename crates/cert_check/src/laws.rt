//! Laws of answers and of sound files, for who reasons about them. The functions do nothing.

ghost use Rattle.cert_check.specs.Laws.{
  AnswersAreOne,
  PassingFilesAreSound,
  PrefixesAreRefused,
  SoundFilesMigrate,
  SoundFilesPass,
  SoundReportsHold,
  SoundTreesAreReports,
};
ghost use Rattle.cert_check.specs.Shown.{HalvesArePlaced, RootIsPlaced};

use cert_text::{heads_are_read, nodes_are_read, prefixes_are_truncated, reports_are_read};
use corner_lift::{halves_are_inside, live_parameters_have_spans, rows_inside};
use lift_cert::{certificates_decide, first_miss_is_one, rejecting_certificates_reach};
use lift_grid::{halves_stay_on_grid, trees_tile};
use lift_rows::first_fault_is_one;

/// At most one answer is given to a text.
pub fn answers_are_one()
    ensures { AnswersAreOne }
{
    rectangles_are_placed();
    heads_are_read();
    first_miss_is_one();
    first_fault_is_one();
}

/// The numbers of leaves are answered exactly to sound files.
pub fn sound_files_pass()
    ensures pass { SoundFilesPass }
    ensures sound { PassingFilesAreSound }
{
    heads_are_read();
    nodes_are_read();
    reports_are_read();
}

/// Each proper prefix of a sound file is refused as truncated.
pub fn prefixes_are_refused()
    ensures { PrefixesAreRefused }
{
    heads_are_read();
    nodes_are_read();
    prefixes_are_truncated();
}

/// The leaves of a sound report tile its root, an accepting leaf bounds every scheduler at every
/// valuation inside it, and a rejecting leaf tells what those that make its choices reach.
pub fn sound_reports_hold()
    ensures { SoundReportsHold }
{
    rectangles_are_placed();
    live_parameters_have_spans();
    trees_tile();
    certificates_decide();
    rejecting_certificates_reach();
}

/// A sound tree that can be told makes a sound report.
pub fn sound_trees_are_reports()
    ensures { SoundTreesAreReports }
{
    rectangles_are_placed();
    live_parameters_have_spans();
}

/// A sound file of the first version can be told in the second, and is sound there too.
pub fn sound_files_migrate()
    ensures { SoundFilesMigrate }
{}

/// Where the root and the halves of a rectangle stand.
pub(crate) fn rectangles_are_placed()
    ensures root { RootIsPlaced }
    ensures halves { HalvesArePlaced }
{
    rows_inside();
    halves_are_inside();
    halves_stay_on_grid();
    live_parameters_have_spans();
}
