// Goes on from a report to a greater depth.
ghost use Rattle.std.specs.Prelude.{◌≡◌, ◌≤◌, ◌<◌, ◌++◌, List, IfOk, length};
ghost use Rattle.std.specs.List.{concat};
ghost use Rattle.lift_grid.specs.Rectangle.{IsOnGrid, most_halvings};
ghost use Rattle.lift_grid.specs.Tree.{Tree};
ghost use Rattle.lift_model.specs.Links.{AreLinks};
ghost use Rattle.region_tree.specs.Rooms.{IsMadeFor};
ghost use Rattle.cert_text.specs.Cut.{top_bytes};
ghost use Rattle.cert_text.specs.Report.{region_lines};
ghost use Rattle.plift_top.specs.RightReport.{node_text};
ghost use Rattle.plift_top.specs.Refine.{AreRefinedNodes, CanGoOn, GivesRegion, IsAhead, IsOld, IsOldTree};
ghost use Rattle.plift_top.specs.Refine.{RefinesOld, refining};
ghost use Rattle.plift_top.specs.Reads.{KeepsLimit, Reads, ReadsText};
ghost use Rattle.cert_check.specs.Source.{file_limit};

use crate::asking::{Asking, answer};
use crate::laws::refined_reports_are_sound;
use crate::refusal::Refusal;
use crate::report::{Reporter, written};
use crate::verify::TEXT_LIMIT;
use cert_check::{SoundText, check_parts};
use cert_text::{Head, NodeText, cut_node, texts_tell_one_report, write_head_below};
use corner_lift::Case;
use lift_base::{Sink, Source, WriteFault, read_all};
use lift_finer::finer_region;
use lift_grid::{Grid, Rect};
use lift_model::Links;
use lift_refine::bases_are_gone_on_from;
use lift_rows::{admit, admit_linked};
use plift_words::{Field, RefineJob};
use region_tree::{Base, Given, Room, rectangles_at_depths};
use std::alloc::{AllocError, Global};

/// Gives the nodes of a report's text.
#[derive(Drop)]
struct TextBase<'t, 'h> {
    text: &'t [u8],
    /// The lines of the node that was given last, where it is a leaf that decides.
    lines: &'t [u8],
    head: &'h Head,
}

impl<'t, 'h> Base for TextBase<'t, 'h> {
    ghost is_ahead = { λ b nodes. IsAhead b.head.now b.text.now nodes };

    ghost entry = { λ b. node_text b.head.now.asked b.head.now.from };

    ghost bytes = { λ b. b.lines.now };

    fn next(&mut self) -> Given {
        let (node, rest) = cut_node(self.text);
        self.text = rest;
        match node {
            NodeText::Split(axis) => Given::Split(axis),
            NodeText::Accept(lines) => {
                self.lines = lines;
                Given::Accept
            }
            NodeText::Reject(lines) => {
                self.lines = lines;
                Given::Reject
            }
            NodeText::Unknown => Given::Unknown,
        }
    }

    fn bytes(&self) -> &[u8] {
        self.lines
    }
}

// A report that is gone on from: its head, and the text of its nodes.
#[derive(Clone, Copy)]
struct Old<'t, 'h> {
    head: &'h Head,
    /// The lines of the head that don't tell the depth and the region.
    top: &'t [u8],
    nodes: &'t [u8],
}

// What is asked of a case, and the report that is gone on from.
#[derive(Drop)]
struct Refinement<'c, 'm, 't, 'h> {
    case: &'c Case<'m>,
    links: &'c Links,
    old: Old<'t, 'h>,
}

impl<'c, 'm, 't, 'h> Asking for Refinement<'c, 'm, 't, 'h> {
    type Room = Room;

    ghost can = { λ r. AreLinks r.case.now.model r.links.now × CanGoOn r.case.now r.old.head.now r.old.nodes.now };

    ghost is_made = { λ r. IsMadeFor r.case.now r.links.now };

    ghost head = { λ r. r.old.top.now ++ concat (region_lines r.case.now) };

    ghost are_nodes = { λ r. AreRefinedNodes r.case.now r.old.head.now r.old.nodes.now };

    fn make_room(&self, alloc: Global) -> Result<Room, AllocError> {
        Room::make(alloc, self.case, self.links)
    }

    fn write_head<K: Sink>(&self, out: &mut K) -> Result<(), WriteFault> {
        write_head_below(out, self.old.top, self.case)
    }

    // Walks over a tree that refines the one of a report, and writes the lines of its nodes.
    fn write_nodes<K: Sink>(&self, room: &mut Room, out: &mut K) -> Result<(), WriteFault> {
        bases_are_gone_on_from();
        rectangles_at_depths();
        let Refinement { case, links, old } = self;
        let head = old.head;
        let mut base = TextBase {
            text: old.nodes,
            lines: old.nodes,
            head,
        };
        let mut reporter = Reporter {
            out,
            case,
            from: head.reported_from(),
        };
        let seen = region_tree::refine(
            case,
            links,
            head.bound(),
            head.from(),
            room,
            &mut base,
            &mut reporter,
        );
        written(seen)
    }
}

// The region of a report, over the grid of a greater depth.
fn deeper_region(alloc: Global, head: &Head, depth: u32) -> Result<(Grid, Rect), Refusal>
    requires { depth ≤ most_halvings }
    ensures answer { GivesRegion depth head.now result }
    ensures on_grid { IfOk result (λ p. IsOnGrid p.0.d p.0.depth (length head.now.asked.model.names) p.1) }
    ensures depth { IfOk result (λ p. p.0.depth ≡ depth) }
{
    let _ = head.w();
    if depth <= head.grid().depth {
        return Err(Refusal::Usage(Field::Depth));
    }
    match finer_region(alloc, head.grid(), head.root(), depth)? {
        Some(region) => Ok(region),
        None => Err(Refusal::Usage(Field::Depth)),
    }
}

// Goes on from a report whose head was read.
fn refine_old<K: Sink>(alloc: Global, job: RefineJob, old: Old, out: &mut K) -> Result<(), Refusal>
    requires old { IsOld old.head.now old.nodes.now }
    requires top { old.top.now ≡ top_bytes old.head.now }
    ensures { (t : Tree) → IsOldTree old.entry.head.now old.entry.nodes.now t
        → RefinesOld K.taken K.faults job.depth old.entry.head.now t out.old out.new result }
{
    refined_reports_are_sound();
    texts_tell_one_report();
    let head = old.head;
    let (grid, root) = deeper_region(alloc, head, job.depth)?;
    let Ok(links) = Links::build(alloc, head.model()) else {
        // A row that isn't admitted is told all the same.
        admit(head.model(), &root, grid, head.w())?;
        return Err(Refusal::Memory);
    };
    let case = admit_linked(head.model(), &root, grid, head.w(), &links)?;
    let refinement = Refinement {
        case: &case,
        links: &links,
        old,
    };
    let answered = answer(alloc, &refinement, out);
    drop(links);
    answered
}

// Checks a text as a report, and goes on from it. Nothing is written before the check is done.
fn refine_text<K: Sink>(
    alloc: Global,
    job: RefineJob,
    text: &[u8],
    out: &mut K,
) -> Result<(), Refusal>
    requires { length text.now ≤ file_limit }
    ensures { ReadsText K.taken K.faults (refining job.depth) text.now out.old out.new result }
{
    let SoundText {
        head,
        top,
        nodes,
        ..
    } = check_parts(alloc, text)?;
    let old = Old {
        head: &head,
        top,
        nodes,
    };
    let written = refine_old(alloc, job, old, out);
    drop(head);
    written
}

/// Reads a report from the source, whole, checks it, and writes one of the same model, region and bound at a greater
/// depth, which goes on from it: its decided leaves are kept as they are, and in the place of each unknown one stands
/// the right tree of its rectangle.
pub fn refine<S: Source, K: Sink>(
    alloc: Global,
    job: RefineJob,
    source: &mut S,
    out: &mut K,
) -> Result<(), Refusal>
    ensures answer { Reads S.left S.faults K.taken K.faults (refining job.depth)
        source.old source.new out.old out.new result }
    ensures limit { KeepsLimit result (S.left source.old) (S.left source.new) }
{
    let text = read_all(alloc, source, TEXT_LIMIT)?;
    refine_text(alloc, job, &text, out)
}
