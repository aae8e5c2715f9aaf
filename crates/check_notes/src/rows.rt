// What is told of a row that isn't admitted.
ghost use Rattle.std.specs.Prelude.{◌≡◌, ◌++◌};
ghost use Rattle.lift_base.specs.Outside.{Wrote};
ghost use Rattle.lift_rows.specs.Number.{error_row};
ghost use Rattle.check_notes.specs.Rows.{row_text, row_fault};

use lift_base::{Sink, Word, WriteFault, write_all, write_words, writes_in_turn};
use lift_rows::RowError;

fn write_row_fault<E: Sink>(notes: &mut E, error: RowError) -> Result<(), WriteFault>
    ensures { Wrote E.taken E.faults notes.old notes.new result (row_fault error) }
{
    match error {
        RowError::RowSum { set, sum, .. } => write_words(
            notes,
            &[
                Word::Text(b"set "),
                Word::Count(u64::from(set)),
                Word::Text(b" sums to "),
                Word::Number(sum),
            ],
        ),
        RowError::Negative {
            target,
            corner,
            weight,
            ..
        } => write_words(
            notes,
            &[
                Word::Text(b"target "),
                Word::Count(u64::from(target)),
                Word::Text(b" at corner "),
                Word::Count(u64::from(corner)),
                Word::Text(b" has weight "),
                Word::Number(weight),
            ],
        ),
        RowError::RowParameters { count, .. } => write_words(
            notes,
            &[Word::Count(u64::from(count)), Word::Text(b" parameters")],
        ),
        RowError::TooWide { .. } => write_all(notes, b"too wide"),
    }
}

/// Writes which row it is, and what is wrong with it.
pub fn write_row_words<E: Sink>(notes: &mut E, error: RowError) -> Result<(), WriteFault>
    ensures { Wrote E.taken E.faults notes.old notes.new result
        (row_text (error_row error) ++ row_fault error) }
{
    writes_in_turn::<E>();
    let (state, choice) = error.row();
    write_words(
        notes,
        &[
            Word::Text(b"state "),
            Word::Count(u64::from(state)),
            Word::Text(b" choice "),
            Word::Count(u64::from(choice)),
            Word::Text(b": "),
        ],
    )?;
    write_row_fault(notes, error)
}
