// How many bytes a text may have that is read whole; a report is read line by line.
ghost use Rattle.std.specs.Prelude.{None};

use crate::cells::each_claim;
use crate::runs::{End, Sinks, words_of};
use lift_base::{Got, Source};
use std::alloc::Global;
use test_cells::{Claim, Unreported, cut, cut_two, number};

// Each row: the words, how many line feeds the source gives, the status, and the note.
const LIMITS: &str = "\
verify --goal heads --bound 1/2 --precision 4 | 67108864 | ModelRefused | model: line 67108864: MissingSection;
verify --goal heads --bound 1/2 --precision 4 | 67108865 | TooLong | too long;
check | 67108864 | NotSound | not sound: line 1: Syntax;
check | 67108865 | NotSound | not sound: line 1: Syntax;
";

// Gives so many line feeds, made as they are read.
#[derive(Drop)]
struct LineFeeds {
    left: usize,
}

impl Source for LineFeeds {
    ghost left = { λ _. None };

    ghost faults = { λ _. 0 };

    fn read(&mut self, buf: &mut [u8]) -> Got {
        let count = self.left.min(buf.len());
        for byte in buf.iter_mut() {
            *byte = b'\n';
        }
        self.left -= count;
        Got::Bytes(count)
    }
}

// That a row's line feeds are answered by the status and the note that stand beside them, and nothing is written.
struct Limits;

impl Claim for Limits {
    fn holds(&self, alloc: Global, row: &str) -> Result<bool, Unreported> {
        let (words, left, rest) = cut_two(row);
        let (status, reported) = cut(rest);
        let left = number(left) as usize;
        let mut sinks = Sinks::make(alloc, 10, 1)?;
        let words = words_of(alloc, words, ' ')?;
        let want = End { status, reported };
        let comes = want.comes(alloc, &words, &mut LineFeeds { left }, &mut sinks);
        Ok(comes && sinks.out.taken().is_empty())
    }
}

#[test]
fn a_text_has_at_most_2_to_the_26_bytes(rt: HostRuntime) {
    each_claim(&rt, rt.alloc(), LIMITS, &Limits);
}
