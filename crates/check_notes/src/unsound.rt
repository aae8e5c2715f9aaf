// What is told of a file that isn't sound.
ghost use Rattle.std.specs.Prelude.{◌≡◌, ◌++◌};
ghost use Rattle.lift_base.specs.Outside.{Wrote};
ghost use Rattle.check_notes.specs.Unsound.{text_cause_name, relation, miss_text};
ghost use Rattle.check_notes.specs.Unsound.{node_place, node_fault, fault_text, unsound_note};

use crate::rows::write_row_words;
use cert_check::CheckError;
use cert_text::TextCause;
use lift_base::{Sink, Word, WriteFault, write_all, write_words, writes_in_turn};
use lift_cert::Miss;

fn text_cause_name(cause: TextCause) -> &'static [u8]
    ensures { result.now ≡ text_cause_name cause }
{
    match cause {
        TextCause::Syntax => b"Syntax",
        TextCause::Version => b"Version",
        TextCause::Limit => b"Limit",
        TextCause::Truncated => b"Truncated",
        TextCause::Memory => b"Memory",
    }
}

// How a number stands to the bound that it misses.
fn relation(left: i128, right: i128) -> &'static [u8]
    ensures { result.now ≡ relation left right }
{
    if left > right { b" > " } else { b" <= " }
}

fn write_miss<E: Sink>(notes: &mut E, miss: Miss) -> Result<(), WriteFault>
    ensures { Wrote E.taken E.faults notes.old notes.new result (miss_text miss) }
{
    match miss {
        Miss::Goal { state, value } => write_words(
            notes,
            &[
                Word::Text(b"goal state "),
                Word::Count(u64::from(state)),
                Word::Text(b" value "),
                Word::Number(i128::from(value)),
            ],
        ),
        Miss::Unranked { state, value } => write_words(
            notes,
            &[
                Word::Text(b"unranked state "),
                Word::Count(u64::from(state)),
                Word::Text(b" value "),
                Word::Number(i128::from(value)),
            ],
        ),
        Miss::Row {
            state,
            choice,
            corner,
            left,
            right,
        } => write_words(
            notes,
            &[
                Word::Text(b"state "),
                Word::Count(u64::from(state)),
                Word::Text(b" choice "),
                Word::Count(u64::from(choice)),
                Word::Text(b" corner "),
                Word::Count(u64::from(corner)),
                Word::Text(b": "),
                Word::Number(left),
                Word::Text(b" > "),
                Word::Number(right),
            ],
        ),
        Miss::Rate {
            state,
            choice,
            corner,
            weight,
            e,
            whole,
        } => write_words(
            notes,
            &[
                Word::Text(b"state "),
                Word::Count(u64::from(state)),
                Word::Text(b" choice "),
                Word::Count(u64::from(choice)),
                Word::Text(b" corner "),
                Word::Count(u64::from(corner)),
                Word::Text(b": "),
                Word::Text(b"weight "),
                Word::Number(weight),
                Word::Text(b" times 2^"),
                Word::Count(u64::from(e)),
                Word::Text(b" < "),
                Word::Number(whole),
            ],
        ),
        Miss::Limit { left, right } => write_words(
            notes,
            &[
                Word::Text(b"bound: "),
                Word::Number(left),
                Word::Text(relation(left, right)),
                Word::Number(right),
            ],
        ),
    }
}

fn write_node_miss<E: Sink>(notes: &mut E, node: u32, miss: Miss) -> Result<(), WriteFault>
    ensures { Wrote E.taken E.faults notes.old notes.new result (node_place node ++ miss_text miss) }
{
    writes_in_turn::<E>();
    write_words(
        notes,
        &[
            Word::Text(b"node "),
            Word::Count(u64::from(node)),
            Word::Text(b" "),
        ],
    )?;
    write_miss(notes, miss)
}

// What is at fault with a node.
fn write_node_fault<E: Sink>(
    notes: &mut E,
    node: u32,
    fault: &'static [u8],
) -> Result<(), WriteFault>
    ensures { Wrote E.taken E.faults notes.old notes.new result (node_fault node fault.now) }
{
    write_words(
        notes,
        &[
            Word::Text(b"node "),
            Word::Count(u64::from(node)),
            Word::Text(fault),
        ],
    )
}

fn write_fault<E: Sink>(notes: &mut E, error: CheckError) -> Result<(), WriteFault>
    ensures { Wrote E.taken E.faults notes.old notes.new result (fault_text error) }
{
    match error {
        CheckError::Text(error) => write_words(
            notes,
            &[
                Word::Text(b"line "),
                Word::Count(u64::from(error.line)),
                Word::Text(b": "),
                Word::Text(text_cause_name(error.cause)),
            ],
        ),
        CheckError::Rows(error) => write_row_words(notes, error),
        CheckError::Missed { node, miss } => write_node_miss(notes, node, miss),
        CheckError::Depth { node } => write_node_fault(notes, node, b" depth"),
        CheckError::Axis { node } => write_node_fault(notes, node, b" axis"),
        CheckError::Rest => write_all(notes, b"rest"),
        CheckError::Fault | CheckError::TooLong | CheckError::Memory => {
            write_all(notes, b"not read")
        }
    }
}

/// Writes the note of a file that isn't sound.
pub fn write_unsound_note<E: Sink>(notes: &mut E, error: CheckError) -> Result<(), WriteFault>
    ensures { Wrote E.taken E.faults notes.old notes.new result (unsound_note error) }
{
    writes_in_turn::<E>();
    write_all(notes, b"not sound: ")?;
    write_fault(notes, error)?;
    write_all(notes, b"\n")
}
