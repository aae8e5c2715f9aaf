// The lines that the texts for a number of steps, for a property and for a budget share.
ghost use Rattle.std.specs.List.{concat};
ghost use Rattle.lift_base.specs.Outside.{Wrote};
ghost use Rattle.cert_text.specs.Report.{from_lines, scale_lines};
ghost use Rattle.plift_top.specs.Heads.{precision_line, fineness_lines};

use cert_text::write_box;
use corner_lift::Case;
use lift_base::{Sink, Word, WriteFault, write_words, writes_in_turn};

// Writes the precision.
fn write_precision<K: Sink>(out: &mut K, case: &Case) -> Result<(), WriteFault>
    ensures { Wrote K.taken K.faults out.old out.new result (precision_line case.now) }
{
    write_words(
        out,
        &[
            Word::Text(b"precision "),
            Word::Count(u64::from(case.w())),
            Word::Text(b"\n"),
        ],
    )
}

// Writes the least precision of a range, where one is asked for.
fn write_from<K: Sink>(out: &mut K, from: Option<u32>) -> Result<(), WriteFault>
    ensures { Wrote K.taken K.faults out.old out.new result (concat (from_lines from)) }
{
    writes_in_turn::<K>();
    match from {
        None => Ok(()),
        Some(v) => write_words(
            out,
            &[
                Word::Text(b"from "),
                Word::Count(u64::from(v)),
                Word::Text(b"\n"),
            ],
        ),
    }
}

// Writes the depth and the grid's number.
fn write_grid<K: Sink>(out: &mut K, case: &Case) -> Result<(), WriteFault>
    ensures { Wrote K.taken K.faults out.old out.new result (concat (scale_lines case.now)) }
{
    let grid = case.grid();
    write_words(
        out,
        &[
            Word::Text(b"depth "),
            Word::Count(u64::from(grid.depth)),
            Word::Text(b"\ngrid "),
            Word::Number(i128::from(grid.d)),
            Word::Text(b"\n"),
        ],
    )
}

/// Writes how fine a case is divided, with the least precision of a range where one is asked for, and its root.
pub(crate) fn write_fineness<K: Sink>(
    out: &mut K,
    case: &Case,
    from: Option<u32>,
) -> Result<(), WriteFault>
    ensures { Wrote K.taken K.faults out.old out.new result (concat (fineness_lines case.now from)) }
{
    writes_in_turn::<K>();
    write_precision(out, case)?;
    write_from(out, from)?;
    write_grid(out, case)?;
    write_box(out, case.root())
}
