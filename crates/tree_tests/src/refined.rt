//! Trees that are gone on from.

ghost use Rattle.std.specs.Prelude.{◌≡◌, [], ◌∷◌, ◌++◌, ◌≤◌, None, IfOk, length, map};
ghost use Rattle.lift_model.specs.Links.{AreLinks};
ghost use Rattle.lift_range.specs.Range.{Between};
ghost use Rattle.region_tree.specs.Built.{tree_of};
ghost use Rattle.region_tree.specs.Rooms.{IsMadeFor};
ghost use Rattle.tree_tests.specs.Cut.{AreGivenOfCut, cut, given_of, givens, letter_of};

use crate::cases::ask_coin;
use crate::cells::each_row;
use crate::trees::{tell_marks, tell_numbers};
use corner_lift::Case;
use lift_cert::Bound;
use lift_model::Links;
use region_tree::{Base, Branch, Copier, Given, Room, Seen, Visitor, build, refine};
use std::alloc::{AllocError, Global};
use std::fmt::Write;
use std::string::String;
use test_cases::{Asker, bound_of};
use test_cells::{Teller, Unreported, count, cut_two};

/// The coin with the bound 1/2, at precision 4: p's interval, the depth, the least precision, the depth at which the tree is
/// cut that is gone on from, and in preorder the tree that is shown. A leaf of the first tree has the letter of its kind after
/// the word given; others are told as in the table of trees. So what is shown is the tree of that table, wherever it is cut.
const REFINED: &str = "\
1/10<=p<=9/10 | 2 | 4 | 1 | split 0 given A split 0 unknown at 4 reject 1 1 11 16 0 0 4294967295 4294967295 1 0 4294967295 |
1/10<=p<=9/10 | 3 | 1 | 0 | split 0 at 1 accept 1 2 0 split 0 split 0 unknown at 4 reject 1 1 9 16 0 0 4294967295 4294967295 1 0 4294967295 at 3 reject 1 1 5 8 0 0 4294967295 4294967295 1 0 4294967295 |
1/10<=p<=9/10 | 3 | 1 | 1 | split 0 given A split 0 split 0 unknown at 4 reject 1 1 9 16 0 0 4294967295 4294967295 1 0 4294967295 at 3 reject 1 1 5 8 0 0 4294967295 4294967295 1 0 4294967295 |
1/10<=p<=9/10 | 3 | 1 | 2 | split 0 given A split 0 split 0 unknown at 4 reject 1 1 9 16 0 0 4294967295 4294967295 1 0 4294967295 given R |
1/10<=p<=9/10 | 3 | 1 | 3 | split 0 given A split 0 split 0 unknown given R given R |
1/10<=p<=2/5 | 0 | 4 | 0 | given A |
3/5<=p<=9/10 | 3 | 4 | 0 | given R |";

/// The letter of a leaf that decides.
fn letter(given: Given) -> &'static [u8]
    ensures { result.now ≡ letter_of given }
{
    match given {
        Given::Accept => b"A",
        Given::Reject => b"R",
        Given::Split(_) | Given::Unknown => b"",
    }
}

/// Nodes that are still to come, and the one that was given last.
#[derive(Drop)]
struct Nodes<'n> {
    rest: &'n [Given],
    last: Given,
}

impl<'n> Base for Nodes<'n> {
    ghost is_ahead = { λ b ahead. map given_of ahead ≡ b.rest.now };

    ghost entry = { λ _ node. letter_of (given_of node) };

    ghost bytes = { λ b. letter_of b.last };

    fn next(&mut self) -> Given {
        match self.rest.split_first() {
            Some((given, rest)) => {
                self.last = *given;
                self.rest = rest;
                *given
            }
            None => Given::Unknown,
        }
    }

    fn bytes(&self) -> &[u8] {
        letter(self.last)
    }
}

/// Tells a rejecting leaf.
fn tell_reject(
    reported: &mut String,
    numbers: &[i64],
    picks: &[u32],
    ranks: &[u32],
) -> Result<(), AllocError> {
    tell_numbers(reported, numbers)?;
    tell_marks(reported, picks)?;
    tell_marks(reported, ranks)
}

/// The words of a leaf that was given.
fn given_words(bytes: &[u8]) -> &'static str {
    match bytes {
        b"A" => "given A ",
        b"R" => "given R ",
        _ => "given another ",
    }
}

/// Tells the nodes that it is shown.
#[derive(Drop)]
struct Shown<'c, 'm> {
    case: &'c Case<'m>,
    reported: String,
    /// Whether there was memory for all.
    is_whole: bool,
}

impl<'c, 'm> Shown<'c, 'm> {
    /// Notes whether there was memory for a node.
    fn note(&mut self, reported: Result<(), AllocError>)
        ensures { self.new.case ≡ self.old.case }
    {
        self.is_whole &= reported.is_ok();
    }
}

impl<'c, 'm> Visitor for Shown<'c, 'm> {
    ghost states = { λ s. length s.case.now.model.states };

    ghost precision = { λ s. s.case.now.w };

    ghost entry = { λ _ node. letter_of (given_of node) };

    ghost taken = { λ _. None };

    ghost faults = { λ _. 0 };

    #[tactic(auto, using(crate::proofs::Cutting::kept))]
    fn split(&mut self, axis: u32) -> Seen {
        let reported = write!(self.reported, "split {axis} ");
        self.note(reported);
        Seen::Kept
    }

    #[tactic(auto, using(crate::proofs::Cutting::kept))]
    fn accept(&mut self, u: u32, x: &[i64]) -> Seen {
        let reported = write!(self.reported, "at {u} accept ");
        self.note(reported);
        let reported = tell_numbers(&mut self.reported, x);
        self.note(reported);
        Seen::Kept
    }

    #[tactic(auto, using(crate::proofs::Cutting::kept))]
    fn reject(&mut self, u: u32, e: u32, k: u32, y: &[i64], picks: &[u32], ranks: &[u32]) -> Seen {
        let reported = write!(self.reported, "at {u} reject {e} {k} ");
        self.note(reported);
        let reported = tell_reject(&mut self.reported, y, picks, ranks);
        self.note(reported);
        Seen::Kept
    }

    #[tactic(auto, using(crate::proofs::Cutting::kept))]
    fn unknown(&mut self) -> Seen {
        let reported = self.reported.push_str("unknown ");
        self.note(reported);
        Seen::Kept
    }
}

impl<'c, 'm> Copier for Shown<'c, 'm> {
    #[tactic(auto, using(crate::proofs::Cutting::kept))]
    fn copy(&mut self, bytes: &[u8]) -> Seen {
        let reported = self.reported.push_str(given_words(bytes));
        self.note(reported);
        Seen::Kept
    }
}

/// Pushes the nodes of a tree that is cut at a depth.
fn push_nodes(nodes: &mut Vec<Given>, branch: &Branch, depth: u32) -> Result<(), AllocError>
    ensures { IfOk result (λ _. nodes.new.items ≡ nodes.old.items ++ givens (cut (tree_of branch.now) depth)) }
{
    let given = match branch {
        Branch::Split { axis, lower, upper } if depth > 0 => {
            nodes.push(Given::Split(*axis))?;
            push_nodes(nodes, lower, depth - 1)?;
            return push_nodes(nodes, upper, depth - 1);
        }
        Branch::Split { .. } | Branch::Unknown => Given::Unknown,
        Branch::Accept { .. } => Given::Accept,
        Branch::Reject { .. } => Given::Reject,
    };
    nodes.push(given)?;
    Ok(())
}

/// A case, its links, a bound and a least precision, and the depth at which its tree is cut.
#[derive(Clone, Copy)]
struct Question<'q, 'm> {
    case: &'q Case<'m>,
    links: &'q Links,
    bound: Bound,
    from: u32,
    depth: u32,
}

/// The nodes of a tree that is cut at a depth.
fn nodes_below(alloc: Global, branch: &Branch, depth: u32) -> Result<Vec<Given>, AllocError>
    ensures { IfOk result (λ nodes. nodes.items ≡ givens (cut (tree_of branch.now) depth)) }
{
    let mut nodes = Vec::new(alloc);
    push_nodes(&mut nodes, branch, depth)?;
    Ok(nodes)
}

/// The nodes of the tree that is cut.
fn nodes_of(alloc: Global, question: &Question) -> Result<Vec<Given>, AllocError>
    requires links { AreLinks question.now.case.now.model question.now.links.now }
    requires from { Between 1 question.now.case.now.w question.now.from }
    ensures { IfOk result (λ nodes. AreGivenOfCut question.now.case.now question.now.from question.now.bound
        question.now.depth nodes.items) }
{
    let (case, links) = (question.case, question.links);
    let tree = build(alloc, case, links, question.bound, question.from)?;
    let nodes = nodes_below(alloc, tree.top(), question.depth);
    drop(tree);
    nodes
}

/// A tree that was told, with a bar behind it, if there was memory for all.
fn with_bar(mut reported: String, is_whole: bool) -> Result<String, Unreported> {
    if !is_whole {
        return Err(Unreported::NoMemory);
    }
    reported.push('|')?;
    Ok(reported)
}

/// The tree that goes on from these nodes, by a room that was made for the case.
fn refined_in(
    alloc: Global,
    question: &Question,
    nodes: &[Given],
    room: &mut Room,
) -> Result<String, Unreported>
    requires links { AreLinks question.now.case.now.model question.now.links.now }
    requires from { Between 1 question.now.case.now.w question.now.from }
    requires nodes { AreGivenOfCut question.now.case.now question.now.from question.now.bound
        question.now.depth nodes.now }
    requires made { IsMadeFor question.now.case.now question.now.links.now room.old }
{
    let (case, links) = (question.case, question.links);
    let mut base = Nodes {
        rest: nodes,
        last: Given::Unknown,
    };
    let mut shown = Shown {
        case,
        reported: String::new(alloc),
        is_whole: true,
    };
    refine(
        case,
        links,
        question.bound,
        question.from,
        room,
        &mut base,
        &mut shown,
    );
    with_bar(shown.reported, shown.is_whole)
}

/// The tree that goes on from the one which is cut.
fn question_reported(alloc: Global, question: &Question) -> Result<String, Unreported>
    requires links { AreLinks question.now.case.now.model question.now.links.now }
    requires from { Between 1 question.now.case.now.w question.now.from }
{
    let nodes = nodes_of(alloc, question)?;
    let mut room = Room::make(alloc, question.case, question.links)?;
    let reported = refined_in(alloc, question, &nodes, &mut room);
    drop(room);
    reported
}

/// What a row asks beside p's interval and the case's depth: the least precision, and the depth at which the tree is cut.
#[derive(Clone, Copy)]
struct Asked {
    from: u32,
    depth: u32,
}

impl Asker for Asked {
    type Reported = String;

    /// The tree of a case that goes on from the one which is cut, for the bound 1/2.
    fn ask(&self, alloc: Global, case: &Case) -> Result<String, Unreported> {
        if self.from < 1 || self.from > case.w() {
            return Err(Unreported::Cell);
        }
        let bound = bound_of("1/2")?;
        let links = Links::build(alloc, case.model())?;
        let question = Question {
            case: &*case,
            links: &links,
            bound,
            from: self.from,
            depth: self.depth,
        };
        let reported = question_reported(alloc, &question);
        drop(links);
        reported
    }
}

struct Refined;

impl Teller for Refined {
    type Reported = String;

    type Error = Unreported;

    fn tell(&self, alloc: Global, asked: &str) -> Result<String, Unreported> {
        let (region, depth, rest) = cut_two(asked);
        let (from, cut) = test_cells::cut(rest);
        let asked = Asked {
            from: count(from),
            depth: count(cut),
        };
        ask_coin(alloc, region, count(depth), &asked)
    }
}

#[test]
fn goes_on_from_a_tree(rt: HostRuntime) {
    each_row(&rt, rt.alloc(), REFINED, &Refined);
}
