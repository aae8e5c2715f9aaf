// The table of a report's leaves.
ghost use Rattle.std.specs.Prelude.{◌≡◌, ◌++◌, ◌≤◌, find, length};
ghost use Rattle.std.specs.Option.{option_map};
ghost use Rattle.lift_base.specs.Outside.{Wrote};
ghost use Rattle.view_text.specs.Summary.{depth_line, depths, extremes, greatest_from};
ghost use Rattle.view_text.specs.Summary.{interval_texts_from, interval_text, is_decided_at, leaf_kind_name, kind_text};
ghost use Rattle.view_text.specs.Summary.{leaf_line, leaf_text, least_below, leaves_line};
ghost use Rattle.view_text.specs.Summary.{share_line, shares_lines, summary_text};

use crate::axes::{parameter_name, write_end};
use crate::fraction::write_fraction;
use crate::share::{WHOLE, write_percent};
use cert_text::Head;
use lift_base::{Sink, Text, Word, WriteFault, write_all, write_words, writes_in_turn};
use view_map::{LeafKind, Part, ReportMap};

/// The table of a report's leaves: how many there are of each kind, their shares of the region's
/// volume, the greatest and the least decided rectangle, and how many there are at each depth.
#[derive(Clone, Copy)]
pub struct SummaryText<'a> {
    pub map: &'a ReportMap,
}

/// Depths are below this.
const DEPTHS: u32 = 21;

// Writes how many leaves of each kind there are in all.
fn write_leaves<K: Sink>(out: &mut K, map: &ReportMap) -> Result<(), WriteFault>
    ensures { Wrote K.taken K.faults out.old out.new result (leaves_line map.now) }
{
    write_words(
        out,
        &[
            Word::Text(b"leaves accept "),
            Word::Count(map.leaf_count(LeafKind::Accept)),
            Word::Text(b" reject "),
            Word::Count(map.leaf_count(LeafKind::Reject)),
            Word::Text(b" unknown "),
            Word::Count(map.leaf_count(LeafKind::Unknown)),
            Word::Text(b"\n"),
        ],
    )
}

// Writes the share of a kind of leaf, behind its label.
fn write_share<K: Sink>(
    out: &mut K,
    map: &ReportMap,
    label: &[u8],
    kind: LeafKind,
) -> Result<(), WriteFault>
    ensures { Wrote K.taken K.faults out.old out.new result (share_line map.now label.now kind) }
{
    writes_in_turn::<K>();
    let share = map.share_of(kind);
    write_all(out, label)?;
    write_fraction(out, i64::from(share), WHOLE)?;
    write_percent(out, b" ", share)?;
    write_all(out, b"\n")
}

// Writes the shares.
fn write_shares<K: Sink>(out: &mut K, map: &ReportMap) -> Result<(), WriteFault>
    ensures { Wrote K.taken K.faults out.old out.new result (shares_lines map.now) }
{
    writes_in_turn::<K>();
    write_share(out, map, b"share accept ", LeafKind::Accept)?;
    write_share(out, map, b"share reject ", LeafKind::Reject)?;
    write_share(out, map, b"share unknown ", LeafKind::Unknown)
}

fn is_decided_at(depth: u32, part: &Part) -> bool
    ensures { result ≡ is_decided_at depth part.now }
{
    part.kind() != LeafKind::Unknown && part.depth() == depth
}

// The first decided leaf at a depth.
fn decided_at(map: &ReportMap, depth: u32) -> Option<&Part>
    ensures { option_map (λ p. p.now) result ≡ find (is_decided_at depth) map.now.parts }
{
    map.parts().iter().find(|part| is_decided_at(depth, part))
}

// The first decided leaf of the least depth.
fn greatest(map: &ReportMap) -> Option<&Part>
    ensures { option_map (λ p. p.now) result ≡ greatest_from map.now.parts 0 21 }
{
    for depth in 0..DEPTHS {
        if let Some(part) = decided_at(map, depth) {
            return Some(part);
        }
    }
    None
}

// The first decided leaf of the greatest depth.
fn least(map: &ReportMap) -> Option<&Part>
    ensures { option_map (λ p. p.now) result ≡ least_below map.now.parts 21 }
{
    for above in 0..DEPTHS {
        if let Some(part) = decided_at(map, DEPTHS - 1 - above) {
            return Some(part);
        }
    }
    None
}

// Writes a parameter's interval in a leaf.
fn write_interval<K: Sink>(
    out: &mut K,
    head: &Head,
    part: &Part,
    parameter: u32,
) -> Result<(), WriteFault>
    ensures { Wrote K.taken K.faults out.old out.new result
        (interval_text head.now part.now parameter) }
{
    writes_in_turn::<K>();
    let (low, high) = part.span(parameter);
    write_all(out, b" ")?;
    write_all(out, parameter_name(head, parameter))?;
    write_all(out, b" ")?;
    write_end(out, head, low)?;
    write_all(out, b" ")?;
    write_end(out, head, high)
}

// Writes each parameter's interval in a leaf.
fn write_intervals<K: Sink>(out: &mut K, head: &Head, part: &Part) -> Result<(), WriteFault>
    ensures { Wrote K.taken K.faults out.old out.new result
        (interval_texts_from head.now part.now 0 (length head.now.asked.model.names)) }
{
    writes_in_turn::<K>();
    for parameter in 0..head.model().names().len() {
        write_interval(out, head, part, parameter)?;
    }
    Ok(())
}

fn leaf_kind_name(kind: LeafKind) -> &'static [u8]
    ensures { result.now ≡ leaf_kind_name kind }
{
    match kind {
        LeafKind::Accept => b"accept",
        LeafKind::Reject => b"reject",
        LeafKind::Unknown => b"unknown",
    }
}

// Writes a leaf's kind and depth behind a label.
fn write_kind<K: Sink>(out: &mut K, label: &[u8], part: &Part) -> Result<(), WriteFault>
    ensures { Wrote K.taken K.faults out.old out.new result (kind_text label.now part.now) }
{
    write_words(
        out,
        &[
            Word::Text(label),
            Word::Text(leaf_kind_name(part.kind())),
            Word::Text(b" depth "),
            Word::Count(u64::from(part.depth())),
        ],
    )
}

// Writes a leaf behind a label.
fn write_leaf<K: Sink>(
    out: &mut K,
    head: &Head,
    label: &[u8],
    part: &Part,
) -> Result<(), WriteFault>
    ensures { Wrote K.taken K.faults out.old out.new result (leaf_text head.now label.now part.now) }
{
    writes_in_turn::<K>();
    write_kind(out, label, part)?;
    write_intervals(out, head, part)?;
    write_all(out, b"\n")
}

// Writes a leaf behind a label, where there is one.
fn write_leaf_line<K: Sink>(
    out: &mut K,
    head: &Head,
    label: &[u8],
    part: Option<&Part>,
) -> Result<(), WriteFault>
    ensures { Wrote K.taken K.faults out.old out.new result
        (leaf_line head.now label.now (option_map (λ p. p.now) part.entry)) }
{
    match part {
        Some(part) => write_leaf(out, head, label, part),
        None => write_words(out, &[Word::Text(label), Word::Text(b"none\n")]),
    }
}

// Writes the greatest and the least decided rectangle.
fn write_extremes<K: Sink>(out: &mut K, map: &ReportMap) -> Result<(), WriteFault>
    ensures { Wrote K.taken K.faults out.old out.new result (extremes map.now) }
{
    writes_in_turn::<K>();
    write_leaf_line(out, map.head(), b"greatest ", greatest(map))?;
    write_leaf_line(out, map.head(), b"least ", least(map))
}

// Writes how many leaves of each kind there are at a depth.
fn write_depth<K: Sink>(out: &mut K, map: &ReportMap, depth: u32) -> Result<(), WriteFault>
    ensures { Wrote K.taken K.faults out.old out.new result (depth_line map.now depth) }
{
    write_words(
        out,
        &[
            Word::Text(b"depth "),
            Word::Count(u64::from(depth)),
            Word::Text(b" accept "),
            Word::Count(map.leaf_count_at(LeafKind::Accept, depth)),
            Word::Text(b" reject "),
            Word::Count(map.leaf_count_at(LeafKind::Reject, depth)),
            Word::Text(b" unknown "),
            Word::Count(map.leaf_count_at(LeafKind::Unknown, depth)),
            Word::Text(b"\n"),
        ],
    )
}

// Writes the line of each depth.
fn write_depths<K: Sink>(out: &mut K, map: &ReportMap) -> Result<(), WriteFault>
    ensures { Wrote K.taken K.faults out.old out.new result (depths map.now) }
{
    writes_in_turn::<K>();
    let head = map.head();
    let _ = head.w();
    for depth in 0..head.grid().depth + 1 {
        write_depth(out, map, depth)?;
    }
    Ok(())
}

// Writes the table.
fn write_summary<K: Sink>(out: &mut K, map: &ReportMap) -> Result<(), WriteFault>
    ensures { Wrote K.taken K.faults out.old out.new result (summary_text map.now) }
{
    writes_in_turn::<K>();
    write_leaves(out, map)?;
    write_shares(out, map)?;
    write_extremes(out, map)?;
    write_depths(out, map)
}

impl<'a> Text for SummaryText<'a> {
    ghost text = { λ s. summary_text s.map.now };

    fn write_to<K: Sink>(&self, out: &mut K) -> Result<(), WriteFault> {
        write_summary(out, self.map)
    }
}
