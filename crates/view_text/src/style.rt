// How a picture looks: what tells the kinds of leaves apart, and what is the same in each picture. It
// is SVG, with a canvas of 2^20 by 2^20 units for the field.
ghost use Rattle.std.specs.Prelude.{◌≡◌, ◌≤◌, ◌+◌, ◌*◌, pos};
ghost use Rattle.lift_base.specs.Outside.{Wrote};
ghost use Rattle.view_text.specs.Picture.{size_text};
ghost use Rattle.view_text.specs.Style.{box_text, cut_start, ends_start, field_end, field_start, kind_colour};
ghost use Rattle.view_text.specs.Style.{kind_marks, kind_place, kind_word, least_height, name_start, path_start};
ghost use Rattle.view_text.specs.Style.{pattern_text, picture_start, size_end, tick_start, ticks_start, word_text};
ghost use Rattle.view_text.specs.declared.axis.Axis.TheVariants.{Across, Upright};
ghost use Rattle.view_text.specs.declared.layer.Layer.TheVariants.{Borders, Leaves};

use crate::axis::Axis;
use crate::layer::Layer;
use lift_base::{Sink, Word, WriteFault, write_all, write_words};
use view_map::{LeafKind, Slice};

// The word of a kind in the legend. Its pattern has the same name.
fn kind_word(kind: LeafKind) -> &'static [u8]
    ensures { result.now ≡ kind_word kind }
{
    match kind {
        LeafKind::Accept => b"accepted",
        LeafKind::Reject => b"rejected",
        LeafKind::Unknown => b"unknown",
    }
}

// The colour of a kind: light blue, brown, white.
fn kind_colour(kind: LeafKind) -> &'static [u8]
    ensures { result.now ≡ kind_colour kind }
{
    match kind {
        LeafKind::Accept => b"#56b4e9",
        LeafKind::Reject => b"#b04a00",
        LeafKind::Unknown => b"#fff",
    }
}

// What is drawn over the colour: nothing, white stripes, a grey dot.
fn kind_marks(kind: LeafKind) -> &'static [u8]
    ensures { result.now ≡ kind_marks kind }
{
    match kind {
        LeafKind::Accept => b"",
        LeafKind::Reject => {
            b"<path d=\"M0 20000L20000 0M-5000 5000L5000 -5000M15000 25000L25000 15000\" \
            stroke=\"#fff\" stroke-width=\"3000\"/>"
        }
        LeafKind::Unknown => b"<circle cx=\"10000\" cy=\"10000\" r=\"2500\" fill=\"#555\"/>",
    }
}

// Where a kind stands in the legend, from left to right.
fn kind_place(kind: LeafKind) -> u64
    ensures place { result ≡ kind_place kind }
    ensures within { result ≤ 300 }
{
    match kind {
        LeafKind::Accept => 20,
        LeafKind::Reject => 160,
        LeafKind::Unknown => 300,
    }
}

/// Writes the pattern of a kind: its colour and its marks, under its name.
pub(crate) fn write_pattern<K: Sink>(out: &mut K, kind: LeafKind) -> Result<(), WriteFault>
    ensures { Wrote K.taken K.faults out.old out.new result (pattern_text kind) }
{
    write_words(
        out,
        &[
            Word::Text(b"<pattern id=\""),
            Word::Text(kind_word(kind)),
            Word::Text(
                b"\" width=\"20000\" height=\"20000\" patternUnits=\"userSpaceOnUse\">\
                <path d=\"M0 0h20000v20000H0z\" fill=\"",
            ),
            Word::Text(kind_colour(kind)),
            Word::Text(b"\"/>"),
            Word::Text(kind_marks(kind)),
            Word::Text(b"</pattern>\n"),
        ],
    )
}

/// Writes the box of a kind in the legend, filled by its pattern.
pub(crate) fn write_box<K: Sink>(out: &mut K, kind: LeafKind) -> Result<(), WriteFault>
    ensures { Wrote K.taken K.faults out.old out.new result (box_text kind) }
{
    write_words(
        out,
        &[
            Word::Text(b"<svg x=\""),
            Word::Count(kind_place(kind)),
            Word::Text(
                b"\" y=\"84\" width=\"26\" height=\"18\" viewBox=\"0 0 52429 36298\">\
                <path d=\"M0 0h52429v36298H0z\" fill=\"url(#",
            ),
            Word::Text(kind_word(kind)),
            Word::Text(b")\"/></svg>\n"),
        ],
    )
}

/// Writes the word of a kind beside its box.
pub(crate) fn write_word<K: Sink>(out: &mut K, kind: LeafKind) -> Result<(), WriteFault>
    ensures { Wrote K.taken K.faults out.old out.new result (word_text kind) }
{
    write_words(
        out,
        &[
            Word::Text(b"<text x=\""),
            Word::Count(kind_place(kind) + 34),
            Word::Text(b"\" y=\"98\">"),
            Word::Text(kind_word(kind)),
            Word::Text(b"</text>\n"),
        ],
    )
}

// How high a picture is without values of parameters: less with a bar.
fn least_height(y: Option<u32>) -> u64
    ensures height { result ≡ least_height y }
    ensures within { result ≤ 748 }
{
    match y {
        None => 268,
        Some(_) => 748,
    }
}

#[tactic(auto, unfolding(crate::specs::Style::picture_start))]
fn picture_start() -> &'static [u8]
    ensures { result.now ≡ picture_start }
{
    b"<svg xmlns=\"http://www.w3.org/2000/svg\" viewBox=\"0 0 720 "
}

#[tactic(auto, unfolding(crate::specs::Style::size_end))]
fn size_end() -> &'static [u8]
    ensures { result.now ≡ size_end }
{
    b"\" role=\"img\" font-family=\"sans-serif\" font-size=\"14\">\n<title>"
}

// How high a picture is with so many lines of values.
fn height(y: Option<u32>, lines: u64) -> i128
    ensures { result ≡ pos (least_height y + 20 * lines) }
{
    i128::from(least_height(y)) + 20 * i128::from(lines)
}

/// Writes the size of a picture: a line is added for each value of a parameter.
pub(crate) fn write_size<K: Sink>(out: &mut K, slice: &Slice) -> Result<(), WriteFault>
    ensures { Wrote K.taken K.faults out.old out.new result (size_text slice.now) }
{
    let lines = slice.cuts().len() as u64;
    write_words(
        out,
        &[
            Word::Text(picture_start()),
            Word::Number(height(slice.y(), lines)),
            Word::Text(size_end()),
        ],
    )
}

/// What stands before the field: it is a bar where no parameter lies on the upright axis, and else a
/// square.
#[tactic(auto, unfolding(crate::specs::Style::field_start))]
pub(crate) fn field_start(y: Option<u32>) -> &'static [u8]
    ensures { result.now ≡ field_start y }
{
    match y {
        None => {
            b"<svg x=\"140\" y=\"116\" width=\"520\" height=\"80\" viewBox=\"0 0 1048576 1048576\" \
            preserveAspectRatio=\"xMinYMin slice\">\n"
        }
        Some(_) => {
            b"<svg x=\"140\" y=\"156\" width=\"520\" height=\"520\" viewBox=\"0 0 1048576 1048576\" \
            preserveAspectRatio=\"xMinYMin slice\">\n"
        }
    }
}

// Writes what stands before the rectangles of a kind: they are filled by its pattern.
fn write_leaves_start<K: Sink>(out: &mut K, kind: LeafKind) -> Result<(), WriteFault>
    ensures { Wrote K.taken K.faults out.old out.new result (path_start (Leaves kind)) }
{
    write_words(
        out,
        &[
            Word::Text(b"<path fill=\"url(#"),
            Word::Text(kind_word(kind)),
            Word::Text(b")\" d=\""),
        ],
    )
}

// What stands before the borders.
#[tactic(auto, unfolding(crate::specs::Style::path_start))]
fn borders_start() -> &'static [u8]
    ensures { result.now ≡ path_start Borders }
{
    b"<path fill=\"none\" stroke=\"#000\" stroke-width=\"1000\" d=\""
}

/// Writes what stands before the rectangles of a layer: they make one path.
pub(crate) fn write_path_start<K: Sink>(out: &mut K, layer: Layer) -> Result<(), WriteFault>
    ensures { Wrote K.taken K.faults out.old out.new result (path_start layer) }
{
    match layer {
        Layer::Leaves(kind) => write_leaves_start(out, kind),
        Layer::Borders => write_all(out, borders_start()),
    }
}

/// What stands behind the field: its frame, and from where on the places below it are counted.
#[tactic(auto, unfolding(crate::specs::Style::field_end))]
pub(crate) fn field_end(y: Option<u32>) -> &'static [u8]
    ensures { result.now ≡ field_end y }
{
    match y {
        None => {
            b"</svg>\n<rect x=\"140\" y=\"116\" width=\"520\" height=\"80\" fill=\"none\" stroke=\"#000\"/>\n\
            <g transform=\"translate(0 196)\">\n"
        }
        Some(_) => {
            b"</svg>\n<rect x=\"140\" y=\"156\" width=\"520\" height=\"520\" fill=\"none\" stroke=\"#000\"/>\n\
            <g transform=\"translate(0 676)\">\n"
        }
    }
}

/// What stands before the name of a parameter: below the field's middle, or above the field.
#[tactic(auto, unfolding(crate::specs::Style::name_start))]
pub(crate) fn name_start(axis: Axis) -> &'static [u8]
    ensures { result.now ≡ name_start axis }
{
    match axis {
        Axis::Across => b"<text x=\"400\" y=\"42\" text-anchor=\"middle\">",
        Axis::Upright => b"<text x=\"20\" y=\"126\">",
    }
}

/// What stands between the name and the ends.
#[tactic(auto, unfolding(crate::specs::Style::ends_start))]
pub(crate) fn ends_start(axis: Axis) -> &'static [u8]
    ensures { result.now ≡ ends_start axis }
{
    match axis {
        Axis::Across =>
            b"</text>\n<text x=\"400\" y=\"60\" font-size=\"11\" text-anchor=\"middle\">",
        Axis::Upright => b"</text>\n<text x=\"20\" y=\"144\" font-size=\"11\">",
    }
}

/// What stands before the numbers of the ticks: five marks at the field's side.
#[tactic(auto, unfolding(crate::specs::Style::ticks_start))]
pub(crate) fn ticks_start(axis: Axis) -> &'static [u8]
    ensures { result.now ≡ ticks_start axis }
{
    match axis {
        Axis::Across => {
            b"<path d=\"M140 0v6M270 0v6M400 0v6M530 0v6M660 0v6\" stroke=\"#000\"/>\n\
            <g font-size=\"12\" text-anchor=\"middle\">\n"
        }
        Axis::Upright => {
            b"<path d=\"M140 156h-6M140 286h-6M140 416h-6M140 546h-6M140 676h-6\" stroke=\"#000\"/>\n\
            <g font-size=\"12\" text-anchor=\"end\">\n"
        }
    }
}

fn write_across_start<K: Sink>(out: &mut K, n: u32) -> Result<(), WriteFault>
    requires { n ≤ 4 }
    ensures { Wrote K.taken K.faults out.old out.new result (tick_start Across n) }
{
    write_words(
        out,
        &[
            Word::Text(b"<text x=\""),
            Word::Count(u64::from(140 + 130 * n)),
            Word::Text(b"\" y=\"20\">"),
        ],
    )
}

fn write_upright_start<K: Sink>(out: &mut K, n: u32) -> Result<(), WriteFault>
    requires { n ≤ 4 }
    ensures { Wrote K.taken K.faults out.old out.new result (tick_start Upright n) }
{
    write_words(
        out,
        &[
            Word::Text(b"<text x=\"130\" y=\""),
            Word::Count(u64::from(680 - 130 * n)),
            Word::Text(b"\">"),
        ],
    )
}

/// Writes what stands before the number of a tick, so many quarters of the way along an axis.
pub(crate) fn write_tick_start<K: Sink>(out: &mut K, axis: Axis, n: u32) -> Result<(), WriteFault>
    requires { n ≤ 4 }
    ensures { Wrote K.taken K.faults out.old out.new result (tick_start axis n) }
{
    match axis {
        Axis::Across => write_across_start(out, n),
        Axis::Upright => write_upright_start(out, n),
    }
}

// Where a line below the axis stands.
fn line_place(line: u64) -> i128
    ensures { result ≡ pos (84 + 20 * line) }
{
    84 + 20 * i128::from(line)
}

/// Writes what stands before the value of a parameter, on that line below the axis.
pub(crate) fn write_cut_start<K: Sink>(out: &mut K, line: u64) -> Result<(), WriteFault>
    ensures { Wrote K.taken K.faults out.old out.new result (cut_start line) }
{
    write_words(
        out,
        &[
            Word::Text(b"<text x=\"20\" y=\""),
            Word::Number(line_place(line)),
            Word::Text(b"\" font-size=\"13\">"),
        ],
    )
}

/// Between the name of a picture and its description.
pub const DESC_START: &[u8] = b"</title>\n<desc>";

/// Between the description and the patterns.
pub const PATTERNS_START: &[u8] = b"</desc>\n<defs>\n";

/// Behind the patterns.
pub const PATTERNS_END: &[u8] = b"</defs>\n<rect width=\"720\" height=\"100%\" fill=\"#fff\"/>\n";

/// Before the first line of the title.
pub const QUESTION_START: &[u8] = b"<text x=\"20\" y=\"26\" font-size=\"15\" font-weight=\"bold\">";

/// Between the first line of the title and the second.
pub const MODEL_START: &[u8] = b"</text>\n<text x=\"20\" y=\"48\">";

/// Between the second line and the third.
pub const SHARES_START: &[u8] = b"</text>\n<text x=\"20\" y=\"70\">";

/// Before the boxes of the legend.
pub const BOXES_START: &[u8] = b"<g stroke=\"#000\" stroke-width=\"1500\">\n";

/// That the numbers of the ticks are rounded.
pub const ROUNDED_NOTE: &[u8] =
    b"<text x=\"20\" y=\"42\" font-size=\"11\">ticks are rounded</text>\n";

/// Behind what belongs together.
pub const GROUP_END: &[u8] = b"</g>\n";

/// Behind the rectangles of a layer.
pub const PATH_END: &[u8] = b"\"/>\n";

/// Behind a text.
pub const TEXT_END: &[u8] = b"</text>\n";

/// At the end.
pub const PICTURE_END: &[u8] = b"</g>\n</svg>\n";
