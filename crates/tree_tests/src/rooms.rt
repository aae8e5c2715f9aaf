//! A room in which a second report is written.

ghost use Rattle.lift_model.specs.Links.{AreLinks};
ghost use Rattle.region_tree.specs.Rooms.{IsMadeFor};

use crate::cases::ask_coin;
use crate::cells::each_row;
use corner_lift::Case;
use lift_base::MemSink;
use lift_cert::Bound;
use lift_model::Links;
use plift_top::write_report;
use region_tree::Room;
use std::alloc::{AllocError, Global};
use std::string::String;
use test_cases::{Asker, bound_of};
use test_cells::{Teller, Unreported, cut, number};

/// The report of the coin for p from 1/10 to 9/10, the bound 1/2, precision 4 and depth 2.
const REPORT: &[u8] = b"plift 1\nkind dtmc\nparameters 1 p\ncommon 1\nstates 3\ninit 0\ngoal 1 1\n\
row 0 0 2\nto 1 1:1\nto 2 0:1 1:-1\nrow 1 0 1\nto 1 0:1\nrow 2 0 1\nto 2 0:1\n\
bound 1/2\nprecision 4\ndepth 2\ngrid 40\nbox 4 36\n\
split 0\naccept 8 16 0\nsplit 0\nunknown\n\
reject e 1 k 1 m 1 b 11/16\ny 11 16 0\nchoice 0 - -\nrank 1 0 -\n";

/// A sink that takes one byte in each call, and whose call of that number fails: none where it is 0.
fn sink(alloc: Global, failing: u64) -> Result<MemSink, AllocError> {
    MemSink::new(alloc, 1000, 1, Vec::from_slice(alloc, &[failing])?)
}

/// Whether the report of a case in this room is written whole.
fn is_written(case: &Case, links: &Links, bound: Bound, room: &mut Room, out: &mut MemSink) -> bool
    requires links { AreLinks case.now.model links.now }
    requires made { IsMadeFor case.now links.now room.old }
    ensures { IsMadeFor case.now links.now room.new }
{
    write_report(case, links, bound, None, room, out).is_ok()
}

/// Whether a case's reports for two bounds are written whole, in one room.
fn are_written(
    alloc: Global,
    case: &Case,
    bounds: [Bound; 2],
    first: &mut MemSink,
    second: &mut MemSink,
) -> Result<(bool, bool), AllocError> {
    let links = Links::build(alloc, case.model())?;
    let mut room = Room::make(alloc, case, &links)?;
    let is_first = is_written(case, &links, bounds[0], &mut room, first);
    let is_second = is_written(case, &links, bounds[1], &mut room, second);
    drop(room);
    drop(links);
    Ok((is_first, is_second))
}

/// How many bytes of REPORT are missing; none where what was taken is no front of it.
fn missing(out: &MemSink) -> Option<usize> {
    let taken = out.taken();
    if REPORT.starts_with(taken) {
        REPORT.len().checked_sub(taken.len())
    } else {
        None
    }
}

/// Whether each of both reports is written whole, and what is missing of it.
fn written_reported(
    alloc: Global,
    case: &Case,
    bounds: [Bound; 2],
    first: &mut MemSink,
    second: &mut MemSink,
) -> Result<String, Unreported> {
    let (is_first, is_second) = are_written(alloc, case, bounds, first, second)?;
    let (first, second) = (missing(first), missing(second));
    Ok(format!(in alloc; "{is_first} {first:?}, {is_second} {second:?}")?)
}

/// The same where a call of the first sink fails.
fn case_reported(
    alloc: Global,
    case: &Case,
    bounds: [Bound; 2],
    failing: u64,
) -> Result<String, Unreported> {
    let mut first = sink(alloc, failing)?;
    let mut second = sink(alloc, 0)?;
    written_reported(alloc, case, bounds, &mut first, &mut second)
}

/// The bounds of two reports, and which call of the first one's sink fails.
#[derive(Clone, Copy)]
struct Reports {
    bounds: [Bound; 2],
    failing: u64,
}

impl Asker for Reports {
    type Reported = String;

    fn ask(&self, alloc: Global, case: &Case) -> Result<String, Unreported> {
        case_reported(alloc, case, self.bounds, self.failing)
    }
}

/// The bound of a first report and which call of its sink fails, none where it is 0; and in turn of the first report and of
/// that for the bound 1/2, which is written in the same room, whether it is written whole, and how many bytes of REPORT are
/// missing. Rectangles that were accepted for the bound 1 say nothing for the bound 1/2.
const ROOMS: &str = "\
1/2 | 283 | false Some(2), true Some(0)
1/1 | 0 | true None, true Some(0)";

struct Rooms;

impl Teller for Rooms {
    type Reported = String;

    type Error = Unreported;

    fn tell(&self, alloc: Global, asked: &str) -> Result<String, Unreported> {
        let (bound, failing) = cut(asked);
        let bounds = [bound_of(bound)?, bound_of("1/2")?];
        let reports = Reports {
            bounds,
            failing: number(failing),
        };
        ask_coin(alloc, "1/10<=p<=9/10", 2, &reports)
    }
}

#[test]
fn a_room_serves_twice(rt: HostRuntime) {
    each_row(&rt, rt.alloc(), ROOMS, &Rooms);
}
