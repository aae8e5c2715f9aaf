//! The ladder of retry blocks: a large valid model of any size, as a text, and the laws of it.
#![tactic(auto)]

ghost use Rattle.std.specs.Prelude.{◌≡◌, ◌≤◌, ◌<◌};
ghost use Rattle.lift_base.specs.Outside.{Wrote};
ghost use Rattle.model_gen.specs.Ladder.{most_blocks, first_label, block, blocks, head_lines};
ghost use Rattle.model_gen.specs.Ladder.{last_lines, joined, ladder_text};

mod ladder;
mod laws;

pub use ladder::Ladder;
pub use laws::ladders_are_cases;
use lift_base::{Sink, Word, WriteFault, write_all, write_words, writes_in_turn};

// The lines before the states.
fn write_head<K: Sink>(out: &mut K) -> Result<(), WriteFault>
    ensures { Wrote K.taken K.faults out.old out.new result (joined head_lines) }
{
    write_all(out, b"@type: DTMC\n@parameters\np q\n@model\n")
}

// The labels of a block's first state: that of block 0 is the initial state.
fn first_label(block: u64) -> &'static [u8]
    ensures { result.now ≡ first_label block }
{
    if block == 0 { b" init" } else { b"" }
}

// Block i of n.
fn write_block<K: Sink>(out: &mut K, n: u64, i: u64) -> Result<(), WriteFault>
    requires within { i < n }
    requires few { n ≤ most_blocks }
    ensures { Wrote K.taken K.faults out.old out.new result (joined (block n i)) }
{
    let (first, second, next, sink) = (2 * i, 2 * i + 1, 2 * i + 2, 2 * n + 1);
    write_words(
        out,
        &[
            Word::Text(b"state "),
            Word::Count(first),
            Word::Text(first_label(i)),
            Word::Text(b"\n"),
            Word::Count(next),
            Word::Text(b" : p\n"),
            Word::Count(second),
            Word::Text(b" : 1-p\nstate "),
            Word::Count(second),
            Word::Text(b"\n"),
            Word::Count(first),
            Word::Text(b" : q\n"),
            Word::Count(sink),
            Word::Text(b" : 1-q\n"),
        ],
    )
}

// All n blocks.
fn write_blocks<K: Sink>(out: &mut K, n: u64) -> Result<(), WriteFault>
    requires few { n ≤ most_blocks }
    ensures { Wrote K.taken K.faults out.old out.new result (joined (blocks n n)) }
{
    writes_in_turn::<K>();
    for i in 0..n {
        write_block(out, n, i)?;
    }
    Ok(())
}

// The goal and the sink behind n blocks.
fn write_last<K: Sink>(out: &mut K, n: u64) -> Result<(), WriteFault>
    requires few { n ≤ most_blocks }
    ensures { Wrote K.taken K.faults out.old out.new result (joined (last_lines n)) }
{
    let (goal, sink) = (2 * n, 2 * n + 1);
    write_words(
        out,
        &[
            Word::Text(b"state "),
            Word::Count(goal),
            Word::Text(b" done\n"),
            Word::Count(goal),
            Word::Text(b" : 1\nstate "),
            Word::Count(sink),
            Word::Text(b"\n"),
            Word::Count(sink),
            Word::Text(b" : 1\n"),
        ],
    )
}

/// Writes the text of the ladder of so many blocks. Takes no memory.
pub fn generate<K: Sink>(out: &mut K, blocks: u32) -> Result<(), WriteFault>
    requires some { 1 ≤ blocks }
    requires few { blocks ≤ most_blocks }
    ensures { Wrote K.taken K.faults out.old out.new result (ladder_text blocks) }
{
    writes_in_turn::<K>();
    let n = u64::from(blocks);
    write_head(out)?;
    write_blocks(out, n)?;
    write_last(out, n)
}
