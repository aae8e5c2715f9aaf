// Reads a report and shows it.
ghost use Rattle.std.specs.Prelude.{◌≡◌};
ghost use Rattle.view_words.specs.Given.{view_data, wish_data};
ghost use Rattle.view_top.specs.Shown.{picture_of, ReadsMap, Shows, text_for, WritesView};
ghost use Rattle.view_top.specs.Choice.{slice_for};
ghost use Rattle.view_words.specs.Words.{ViewData};

use crate::choice::slice_for;
use crate::refusal::Refusal;
use lift_base::{Sink, Source, read_all, write_buffered};
use std::alloc::Global;
use view_map::{ReportMap, read_map};
use view_text::{Picture, SummaryText};
use view_words::{View, Wish};

/// How many bytes a report may have.
const REPORT_LIMIT: usize = 1 << 26;

// Reads a report to its end and checks it.
fn map_of<S: Source>(alloc: Global, source: &mut S) -> Result<ReportMap, Refusal>
    ensures { ReadsMap S.left S.faults source.old source.new result }
{
    let text = read_all(alloc, source, REPORT_LIMIT)?;
    Ok(read_map(alloc, &text)?)
}

// Writes the picture of the slice that is asked for.
fn write_slice<K: Sink>(
    alloc: Global,
    map: &ReportMap,
    wish: &Wish<'_>,
    out: &mut K,
) -> Result<(), Refusal>
    ensures { WritesView K.taken K.faults
        (picture_of map.now (slice_for map.now.head (wish_data wish.now))) out.old out.new result }
{
    let slice = slice_for(alloc, map.head(), wish)?;
    write_buffered(out, &Picture { map, slice: &slice })?;
    Ok(())
}

// Writes the table.
fn write_table<K: Sink>(map: &ReportMap, out: &mut K) -> Result<(), Refusal>
    ensures { WritesView K.taken K.faults (text_for ViewData.summary map.now)
        out.old out.new result }
{
    write_buffered(out, &SummaryText { map })?;
    Ok(())
}

// Writes what is asked of a report.
fn write_view<K: Sink>(
    alloc: Global,
    map: &ReportMap,
    view: &View<'_>,
    out: &mut K,
) -> Result<(), Refusal>
    ensures { WritesView K.taken K.faults (text_for (view_data view.now) map.now)
        out.old out.new result }
{
    match view {
        View::Picture(wish) => write_slice(alloc, map, wish, out),
        View::Summary => write_table(map, out),
    }
}

/// Reads a report and writes what is asked of it.
pub fn show<S: Source, K: Sink>(
    alloc: Global,
    view: &View<'_>,
    source: &mut S,
    out: &mut K,
) -> Result<(), Refusal>
    ensures { Shows S.left S.faults K.taken K.faults (view_data view.now)
        source.old source.new out.old out.new result }
{
    let map = map_of(alloc, source)?;
    write_view(alloc, &map, view, out)
}
