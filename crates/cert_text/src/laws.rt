//! Laws of report texts, for who reasons about them. The functions do nothing.

ghost use Rattle.cert_text.specs.Cut.{HeadsAreCut};
ghost use Rattle.cert_text.specs.Laws.{HeadsAreReadBack, NodesAreReadBack, PrefixesAreTruncated, ReadHeadsAreReported, ReadNodesAreReported, ReadReportsAreReported, ReportsAreReadBack, TextsTellOneReport};

use line_text::{TextSource, readings_end};

/// A head is read exactly where its lines begin the text.
pub fn heads_are_read()
    ensures back { HeadsAreReadBack }
    ensures reported { ReadHeadsAreReported }
{}

/// A head that was read of a text in memory is cut off by its lines.
pub fn heads_are_cut()
    ensures { HeadsAreCut }
{
    readings_end::<TextSource>();
}

/// A node is read exactly where its lines begin the text.
pub fn nodes_are_read()
    ensures back { NodesAreReadBack }
    ensures reported { ReadNodesAreReported }
{}

/// A report is read exactly where its text begins the text.
pub fn reports_are_read()
    ensures back { ReportsAreReadBack }
    ensures reported { ReadReportsAreReported }
{}

/// No report's text begins another's, and none is told by two reports.
pub fn texts_tell_one_report()
    ensures { TextsTellOneReport }
{}

/// Each text that is cut off is refused as truncated.
pub fn prefixes_are_truncated()
    ensures { PrefixesAreTruncated }
{}
