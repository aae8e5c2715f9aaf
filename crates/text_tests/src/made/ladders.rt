//! Texts of ladders.
ghost use Rattle.std.specs.Prelude.{◌≤◌};

use crate::cells::each_row;
use lift_base::{MemSink, SureSink, write_buffered};
use model_gen::{Ladder, generate};
use std::alloc::{AllocError, Global};
use test_cells::{Teller, Unreported, cut, number};

/// The ladder of one block.
const ONE: &str = "\
@type: DTMC
@parameters
p q
@model
state 0 init
2 : p
1 : 1-p
state 1
0 : q
3 : 1-q
state 2 done
2 : 1
state 3
3 : 1
";

/// The ladder of one block, written into so much room by at most so many bytes a call; and whether
/// it was all written.
fn ladder_of_one(alloc: Global, room: usize, step: usize) -> Result<(MemSink, bool), AllocError>
    requires { 1 ≤ step }
{
    let mut out = MemSink::new(alloc, room, step, Vec::new(alloc))?;
    let is_whole = generate(&mut out, 1).is_ok();
    Ok((out, is_whole))
}

/// The room, the bytes of a call, and how many of the text's bytes are written.
const ROOMS: &str = "\
1000 | 1000 | 117
1000 | 1 | 117
117 | 7 | 117
116 | 7 | 116
36 | 36 | 36
3 | 2 | 3
0 | 1 | 0";

/// How many bytes of the ladder the sink took from its front, where it was said rightly whether these are all.
fn taken(out: &MemSink, is_whole: bool) -> Option<usize> {
    let taken = out.taken();
    let is_right = ONE.as_bytes().starts_with(taken) && is_whole == (taken.len() == ONE.len());
    is_right.then_some(taken.len())
}

struct Rooms;

impl Teller for Rooms {
    type Reported = usize;

    type Error = Unreported;

    fn tell(&self, alloc: Global, asked: &str) -> Result<usize, Unreported> {
        let (room, step) = cut(asked);
        let (out, is_whole) = ladder_of_one(
            alloc,
            number(room) as usize,
            number(step).max(1) as usize,
        )?;
        taken(&out, is_whole).ok_or(Unreported::Cell)
    }
}

#[test]
fn a_front_is_written_where_room_ends(rt: HostRuntime) {
    each_row(&rt, rt.alloc(), ROOMS, &Rooms);
}

/// How many blocks, and how long the text is.
const LENGTHS: &str = "\
1 | 117
2 | 161
5 | 303
50 | 2608
1000 | 59313
32767 | 2200474";

fn length_of(blocks: u32) -> Option<u64> {
    if blocks < 1 || 32767 < blocks {
        return None;
    }
    let mut out = SureSink::new();
    write_buffered(&mut out, &Ladder { blocks }).ok()?;
    Some(out.count())
}

struct Lengths;

impl Teller for Lengths {
    type Reported = u64;

    type Error = Unreported;

    fn tell(&self, _alloc: Global, asked: &str) -> Result<u64, Unreported> {
        match asked.parse::<u32>() {
            Ok(blocks) => length_of(blocks).ok_or(Unreported::Cell),
            Err(_) => Err(Unreported::Cell),
        }
    }
}

#[test]
fn texts_have_their_length(rt: HostRuntime) {
    each_row(&rt, rt.alloc(), LENGTHS, &Lengths);
}
