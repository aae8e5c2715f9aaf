// The field of a picture.
ghost use Rattle.std.specs.Prelude.{◌≡◌, ◌<◌, ◌≤◌, ◌-ℤ◌, max, min, unsigned_abs};
ghost use Rattle.lift_base.specs.Outside.{Wrote};
ghost use Rattle.lift_grid.specs.Rectangle.{spans_of};
ghost use Rattle.view_map.specs.Share.{is_kind};
ghost use Rattle.view_map.specs.Slice.{meets_all};
ghost use Rattle.view_text.specs.Field.{band, canvas, canvas_place, is_of, is_shown, is_wide, leaf_outline, outline};
ghost use Rattle.view_text.specs.Field.{outlines, shown_outline};
ghost use Rattle.view_text.specs.declared.layer.Layer.TheVariants.{Borders, Leaves};
ghost use Rattle.view_text.specs.Picture.{field_text, path_text};
ghost use Rattle.view_text.specs.Style.{each_kind};

use crate::layer::Layer;
use crate::style::{PATH_END, field_end, field_start, write_path_start};
use lift_base::{Sink, Word, WriteFault, write_all, write_words, writes_in_turn};
use view_map::{LeafKind, Part, ReportMap, Slice, span_at};

/// How many units the canvas has in each direction.
const CANVAS: u64 = 1 << 20;

/// How many units a leaf with a border has at least in each direction.
const BORDERED: u64 = 1 << 14;

// How far two numbers are apart.
fn distance(a: i64, b: i64) -> u64
    ensures { result ≡ unsigned_abs (a -ℤ b) }
{
    a.abs_diff(b)
}

fn at_least_one(n: u64) -> u64
    ensures value { result ≡ max n 1 }
    ensures positive { 0 < result }
{
    if n == 0 { 1 } else { n }
}

fn at_most_canvas(n: u128) -> u64
    ensures value { result ≡ min n canvas }
    ensures within { result ≤ canvas }
{
    if n < u128::from(CANVAS) {
        n as u64
    } else {
        CANVAS
    }
}

// Where a number of a span stands on the canvas.
fn canvas_place(low: i64, high: i64, z: i64) -> u64
    ensures place { result ≡ canvas_place (low, high) z }
    ensures within { result ≤ canvas }
{
    let width = at_least_one(distance(high, low));
    let units = u128::from(distance(z, low)) * u128::from(CANVAS) / u128::from(width);
    at_most_canvas(units)
}

// From where to where a leaf reaches along an axis.
fn band(root: &[i64], axis: Option<u32>, part: &Part) -> (u64, u64)
    ensures band { result ≡ band (spans_of root.now) axis part.now }
    ensures from { result.0 ≤ canvas }
    ensures to { result.1 ≤ canvas }
{
    match axis {
        None => (0, CANVAS),
        Some(parameter) => {
            let whole = span_at(root, parameter);
            let span = part.span(parameter);
            (
                canvas_place(whole.0, whole.1, span.0),
                canvas_place(whole.0, whole.1, span.1),
            )
        }
    }
}

// Writes a rectangle.
fn write_outline<K: Sink>(out: &mut K, x: (u64, u64), y: (u64, u64)) -> Result<(), WriteFault>
    requires from { y.0 ≤ canvas }
    requires to { y.1 ≤ canvas }
    ensures { Wrote K.taken K.faults out.old out.new result (outline x y) }
{
    write_words(
        out,
        &[
            Word::Text(b"M"),
            Word::Count(x.0),
            Word::Text(b" "),
            Word::Count(CANVAS - y.0),
            Word::Text(b"H"),
            Word::Count(x.1),
            Word::Text(b"V"),
            Word::Count(CANVAS - y.1),
            Word::Text(b"H"),
            Word::Count(x.0),
            Word::Text(b"z"),
        ],
    )
}

fn is_kind(a: LeafKind, b: LeafKind) -> bool
    ensures { result ≡ is_kind a b }
{
    a == b
}

// Whether a band is so wide that two borders leave most of it to be seen.
fn is_wide(band: (u64, u64)) -> bool
    requires { band.0 ≤ canvas }
    ensures { result ≡ is_wide band }
{
    band.0 + BORDERED <= band.1
}

// Whether a leaf is wide both ways.
fn has_border(map: &ReportMap, slice: &Slice, part: &Part) -> bool
    ensures { result ≡ is_of map.now slice.now Borders part.now }
{
    let root = map.head().root().sides();
    is_wide(band(root, slice.x(), part)) && is_wide(band(root, slice.y(), part))
}

// Whether a leaf is one of that layer's.
fn is_of(map: &ReportMap, slice: &Slice, layer: Layer, part: &Part) -> bool
    ensures { result ≡ is_of map.now slice.now layer part.now }
{
    match layer {
        Layer::Leaves(kind) => is_kind(kind, part.kind()),
        Layer::Borders => has_border(map, slice, part),
    }
}

// Whether a leaf is one of that layer's and meets the slice.
fn is_shown(map: &ReportMap, slice: &Slice, layer: Layer, part: &Part) -> bool
    ensures { result ≡ is_shown map.now slice.now layer part.now }
{
    let head = map.head();
    let meets = slice.meets(head.grid().d, head.root().sides(), part);
    is_of(map, slice, layer, part) && meets
}

// Writes the rectangle of a leaf.
fn write_leaf<K: Sink>(
    out: &mut K,
    map: &ReportMap,
    slice: &Slice,
    part: &Part,
) -> Result<(), WriteFault>
    ensures { Wrote K.taken K.faults out.old out.new result
        (leaf_outline map.now.head.asked.root slice.now.x slice.now.y part.now) }
{
    let root = map.head().root().sides();
    write_outline(
        out,
        band(root, slice.x(), part),
        band(root, slice.y(), part),
    )
}

// Writes the rectangle of a leaf that is one of that layer's and meets the slice, and else nothing.
fn write_part<K: Sink>(
    out: &mut K,
    map: &ReportMap,
    slice: &Slice,
    layer: Layer,
    part: &Part,
) -> Result<(), WriteFault>
    ensures { Wrote K.taken K.faults out.old out.new result (shown_outline map.now slice.now layer part.now) }
{
    writes_in_turn::<K>();
    if is_shown(map, slice, layer, part) {
        write_leaf(out, map, slice, part)
    } else {
        Ok(())
    }
}

// Writes the rectangles of the leaves of a layer that meet the slice.
fn write_outlines<K: Sink>(
    out: &mut K,
    map: &ReportMap,
    slice: &Slice,
    layer: Layer,
) -> Result<(), WriteFault>
    ensures { Wrote K.taken K.faults out.old out.new result (outlines map.now slice.now layer) }
{
    writes_in_turn::<K>();
    for part in map.parts() {
        write_part(out, map, slice, layer, part)?;
    }
    Ok(())
}

// Writes the path of a layer: its rectangles.
fn write_path<K: Sink>(
    out: &mut K,
    map: &ReportMap,
    slice: &Slice,
    layer: Layer,
) -> Result<(), WriteFault>
    ensures { Wrote K.taken K.faults out.old out.new result (path_text map.now slice.now layer) }
{
    writes_in_turn::<K>();
    write_path_start(out, layer)?;
    write_outlines(out, map, slice, layer)?;
    write_all(out, PATH_END)
}

// Writes the path of each kind.
fn write_paths<K: Sink>(out: &mut K, map: &ReportMap, slice: &Slice) -> Result<(), WriteFault>
    ensures { Wrote K.taken K.faults out.old out.new result
        (each_kind (λ kind. path_text map.now slice.now (Leaves kind))) }
{
    writes_in_turn::<K>();
    write_path(out, map, slice, Layer::Leaves(LeafKind::Accept))?;
    write_path(out, map, slice, Layer::Leaves(LeafKind::Reject))?;
    write_path(out, map, slice, Layer::Leaves(LeafKind::Unknown))
}

/// Writes the field: the rectangles of each kind of leaf, and borders over them.
pub(crate) fn write_field<K: Sink>(
    out: &mut K,
    map: &ReportMap,
    slice: &Slice,
) -> Result<(), WriteFault>
    ensures { Wrote K.taken K.faults out.old out.new result (field_text map.now slice.now) }
{
    writes_in_turn::<K>();
    write_all(out, field_start(slice.y()))?;
    write_paths(out, map, slice)?;
    write_path(out, map, slice, Layer::Borders)?;
    write_all(out, field_end(slice.y()))
}
