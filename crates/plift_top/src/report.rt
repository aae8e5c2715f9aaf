// The report of a case, which is written while the tree is walked over.
ghost use Rattle.std.specs.Prelude.{◌≡◌, List, MatchResult, length};
ghost use Rattle.std.specs.List.{concat};
ghost use Rattle.lift_base.specs.Outside.{Wrote, WroteSome};
ghost use Rattle.lift_model.specs.Links.{AreLinks};
ghost use Rattle.region_tree.specs.Rooms.{IsAsMade, IsMadeFor};
ghost use Rattle.region_tree.specs.declared.visitor.Seen.TheVariants.{Failed, Kept};
ghost use Rattle.cert_text.specs.Report.{at_lines, head_lines};
ghost use Rattle.plift_words.specs.declared.query.Query.TheVariants as query;
ghost use Rattle.plift_top.specs.Asked.{AskedModel};
ghost use Rattle.plift_top.specs.RightReport.{IsRange, AreRightNodes, IsRightReport, node_text};
ghost use Rattle.plift_top.specs.Steps.{IsTestedCase, AnswersCase};

use crate::asking::{Asking, answer};
use crate::refusal::Refusal;
use cert_text::{write_accept, write_at, write_head, write_reject, write_split, write_unknown};
use corner_lift::{Case, lower_precisions_are_cases};
use lift_base::{Sink, WriteFault, write_all, writes_in_turn};
use lift_cert::{Bound, certificates_decide, rejecting_certificates_reach};
use lift_model::Links;
use region_tree::{Copier, Room, Seen, Visitor, rectangles_at_depths, right_trees_tile, walk};
use std::alloc::{AllocError, Global};

/// Writes the lines of each node of a case's tree.
#[derive(Drop)]
pub(crate) struct Reporter<'r, 'c, 'm, K: Sink> {
    pub out: &'r mut K,
    pub case: &'c Case<'m>,
    /// The least precision of the range, where the report tells one.
    pub from: Option<u32>,
}

// Writes the precision of a decided leaf, where the report tells a range.
fn write_precision<K: Sink>(out: &mut K, from: Option<u32>, u: u32) -> Result<(), WriteFault>
    ensures { Wrote K.taken K.faults out.old out.new result (concat (at_lines from u)) }
{
    writes_in_turn::<K>();
    match from {
        None => Ok(()),
        Some(_) => write_at(out, u),
    }
}

// What a visitor answers, by what was written.
fn seen(written: Result<(), WriteFault>) -> Seen
    ensures { MatchResult written (λ _. result ≡ Kept) (λ _. result ≡ Failed) }
{
    match written {
        Ok(()) => Seen::Kept,
        Err(WriteFault) => Seen::Failed,
    }
}

impl<'r, 'c, 'm, K: Sink> Visitor for Reporter<'r, 'c, 'm, K> {
    ghost states = { λ r. length r.case.now.model.states };

    ghost precision = { λ r. r.case.now.w };

    ghost entry = { λ r. node_text r.case.now r.from };

    ghost taken = { λ r. K.taken r.out.now };

    ghost faults = { λ r. K.faults r.out.now };

    ghost reference = { λ r. r.out.ghost_name };

    fn split(&mut self, axis: u32) -> Seen {
        seen(write_split(self.out, axis))
    }

    fn accept(&mut self, u: u32, x: &[i64]) -> Seen {
        writes_in_turn::<K>();
        match write_precision(self.out, self.from, u) {
            Ok(()) => seen(write_accept(self.out, x)),
            Err(WriteFault) => Seen::Failed,
        }
    }

    fn reject(&mut self, u: u32, e: u32, k: u32, y: &[i64], picks: &[u32], ranks: &[u32]) -> Seen {
        writes_in_turn::<K>();
        match write_precision(self.out, self.from, u) {
            Ok(()) => {
                let case = self.case.at(u);
                seen(write_reject(self.out, &case, e, k, y, picks, ranks))
            }
            Err(WriteFault) => Seen::Failed,
        }
    }

    fn unknown(&mut self) -> Seen {
        seen(write_unknown(self.out))
    }
}

impl<'r, 'c, 'm, K: Sink> Copier for Reporter<'r, 'c, 'm, K> {
    fn copy(&mut self, bytes: &[u8]) -> Seen {
        seen(write_all(self.out, bytes))
    }
}

/// What a walk wrote, by what its visitor answered last.
pub(crate) fn written(seen: Seen) -> Result<(), WriteFault>
    ensures { MatchResult result (λ _. seen ≡ Kept) (λ _. seen ≡ Failed) }
{
    match seen {
        Seen::Kept => Ok(()),
        Seen::Failed => Err(WriteFault),
    }
}

/// What is asked of a case: whether what is reached stays within a bound.
#[derive(Clone, Copy)]
pub(crate) struct Reach<'c, 'm> {
    pub case: &'c Case<'m>,
    /// The links of the case's model.
    pub links: &'c Links,
    pub bound: Bound,
    /// The least precision of the range, where one is told.
    pub from: Option<u32>,
}

// Walks over the tree of a case for its range of precisions and writes the lines of its nodes.
fn write_tree<K: Sink>(asked: &Reach, room: &mut Room, out: &mut K) -> Result<(), WriteFault>
    requires links { AreLinks asked.now.case.now.model asked.now.links.now }
    requires from { IsRange asked.now.case.now asked.now.from }
    requires made { IsMadeFor asked.now.case.now asked.now.links.now room.old }
    ensures nodes { WroteSome (AreRightNodes asked.now.case.now asked.now.from asked.now.bound)
        K.taken K.faults out.old out.new result }
    ensures room { IsAsMade room.old room.new }
{
    let Reach {
        case,
        links,
        bound,
        from,
    } = *asked;
    let least = from.unwrap_or(case.w());
    let mut reporter = Reporter { out, case, from };
    written(walk(case, links, bound, least, room, &mut reporter))
}

/// Writes the report of a case: its head, and then each node of its right tree, in preorder, as soon
/// as it is decided. With the least precision of a range the tree is that for the range up to the case's precision,
/// and the report is of the second version; without it the tree is that at the case's precision alone. The room was
/// made for the case, and after it is as made. Takes no memory.
///
/// Where all was written there is a right tree. Whichever tree is right, its report was written, or
/// after a fault a front of it.
pub fn write_report<K: Sink>(
    case: &Case,
    links: &Links,
    bound: Bound,
    from: Option<u32>,
    room: &mut Room,
    out: &mut K,
) -> Result<(), WriteFault>
    requires links { AreLinks case.now.model links.now }
    requires from { IsRange case.now from }
    requires made { IsMadeFor case.now links.now room.old }
    ensures wrote { WroteSome (IsRightReport case.now from bound)
        K.taken K.faults out.old out.new result }
    ensures room { IsAsMade room.old room.new }
{
    write_head(out, case, bound, from)?;
    let reach = Reach {
        case: &*case,
        links: &*links,
        bound,
        from,
    };
    write_tree(&reach, room, out)
}

impl<'c, 'm> Asking for Reach<'c, 'm> {
    type Room = Room;

    ghost can = { λ q. AreLinks q.case.now.model q.links.now × IsRange q.case.now q.from };

    ghost is_made = { λ q. IsMadeFor q.case.now q.links.now };

    ghost head = { λ q. concat (head_lines q.case.now q.from q.bound) };

    ghost are_nodes = { λ q. AreRightNodes q.case.now q.from q.bound };

    fn make_room(&self, alloc: Global) -> Result<Room, AllocError> {
        Room::make(alloc, self.case, self.links)
    }

    fn write_head<K: Sink>(&self, out: &mut K) -> Result<(), WriteFault> {
        write_head(out, self.case, self.bound, self.from)
    }

    fn write_nodes<K: Sink>(&self, room: &mut Room, out: &mut K) -> Result<(), WriteFault> {
        write_tree(self, room, out)
    }
}

/// Takes all memory that is needed for a bound at a case whose rows were tested, and writes its report.
pub(crate) fn answer_reach<K: Sink>(
    alloc: Global,
    asked: &Reach,
    out: &mut K,
) -> Result<(), Refusal>
    requires case { IsTestedCase asked.now.case.now }
    requires links { AreLinks asked.now.case.now.model asked.now.links.now }
    requires from { IsRange asked.now.case.now asked.now.from }
    ensures { (a : AskedModel) → AnswersCase K.taken K.faults (query.Whole asked.now.bound asked.now.from) a
        asked.now.case.now out.old out.new result }
{
    certificates_decide();
    rejecting_certificates_reach();
    lower_precisions_are_cases();
    rectangles_at_depths();
    right_trees_tile();
    answer(alloc, asked, out)
}
