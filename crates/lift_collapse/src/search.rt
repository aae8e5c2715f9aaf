//! A search for states that may be collapsed. Nothing is proved of what it finds: it is tested afterwards.

ghost use Rattle.std.specs.Prelude.{◌≡◌, length};
ghost use Rattle.lift_model.specs.Links.{AreLinks};

use lift_model::{Links, Model};
use std::alloc::{AllocError, Global};

/// In place of a place where a state has none.
const NOWHERE: u32 = u32::MAX;

/// How often places are given, each time with the states apart whose places met in one row.
const ROUNDS: u32 = 4;

/// What a search finds.
#[derive(Drop)]
pub(crate) struct Found {
    /// The place of each state: a number among those that are kept.
    pub places: Vec<u32>,
    /// The states that are kept.
    pub kept: Vec<u32>,
    /// Whether a state is lost: it leads to no goal state.
    pub lost: Vec<bool>,
}

/// What is known of the states before they get places.
#[derive(Drop)]
struct Marks {
    lost: Vec<bool>,
    // states that no other one stands for
    apart: Vec<bool>,
}

/// Whether a state is marked.
fn is_marked(marks: &[bool], s: u32) -> bool {
    marks.get(s as usize).copied().unwrap_or(false)
}

/// Marks a state, or takes its mark away. Tells whether that is new.
fn set_mark(marks: &mut [bool], s: u32, mark: bool) -> bool {
    match marks.get_mut(s as usize) {
        Some(old) if *old != mark => {
            *old = mark;
            true
        }
        _ => false,
    }
}

/// The place of a state.
fn place_of(places: &[u32], s: u32) -> u32 {
    places.get(s as usize).copied().unwrap_or(NOWHERE)
}

/// Writes the place of a state.
fn put(places: &mut [u32], s: u32, place: u32) {
    if let Some(entry) = places.get_mut(s as usize) {
        *entry = place;
    }
}

/// Which states are lost: all that a search backwards from the goal states doesn't meet.
fn lost_states(alloc: Global, model: &Model, links: &Links) -> Result<Vec<bool>, AllocError>
    requires { AreLinks model.now links.now }
{
    let states = model.states();
    let mut lost = vec![in alloc; true; states as usize]?;
    let mut open = Vec::with_capacity(alloc, states as usize)?;
    for s in 0..states {
        if model.is_goal(s) {
            set_mark(&mut lost, s, false);
            open.push(s)?;
        }
    }
    for _ in 0..states {
        let Some(t) = open.pop() else {
            break;
        };
        if t >= states {
            break;
        }
        for s in links.before(t) {
            if set_mark(&mut lost, *s, false) {
                open.push(*s)?;
            }
        }
    }
    Ok(lost)
}

/// Whether the state has one choice, of one entry.
fn is_plain(model: &Model, links: &Links, s: u32) -> bool
    requires { AreLinks model.now links.now }
{
    s < model.states() && links.choices(s) == 1 && links.place(s, 0).count == 1
}

/// The lost state that stands for all of them.
fn lost_stand_in(model: &Model, links: &Links, lost: &[bool]) -> Option<u32>
    requires { AreLinks model.now links.now }
{
    for s in links.order() {
        if is_marked(lost, *s) && is_plain(model, links, *s) {
            return Some(*s);
        }
    }
    None
}

/// The place that two targets of a state have.
fn agreed(common: Option<u32>, place: u32) -> Option<u32> {
    match common {
        Some(other) if other != place => None,
        _ => Some(place),
    }
}

/// The place that all targets of a state have, if it is one.
fn common_place(model: &Model, links: &Links, places: &[u32], s: u32) -> Option<u32>
    requires { AreLinks model.now links.now }
{
    if s >= model.states() {
        return None;
    }
    let mut common = None;
    for a in 0..links.choices(s) {
        for target in links.targets(links.place(s, a)) {
            let place = place_of(places, *target);
            if place == NOWHERE {
                return None;
            }
            common = Some(agreed(common, place)?);
        }
    }
    common
}

/// The places that states get.
#[derive(Drop)]
struct Placing {
    places: Vec<u32>,
    kept: Vec<u32>,
    goal: Option<u32>,
    lost: Option<u32>,
}

impl Placing {
    /// Keeps a state at a new place, which it gives to another one, or to itself.
    fn keep(&mut self, s: u32, kept: u32) -> Result<u32, AllocError> {
        let place = u32::try_from(self.kept.len()).unwrap_or(NOWHERE);
        put(&mut self.places, s, place);
        self.kept.push(kept)?;
        Ok(place)
    }

    /// Gives a state a place that is there, or keeps another state, or itself, at a new one. Gives the place.
    fn place(&mut self, s: u32, place: Option<u32>, kept: u32) -> Result<Option<u32>, AllocError> {
        match place {
            Some(place) => {
                put(&mut self.places, s, place);
                Ok(Some(place))
            }
            None => Ok(Some(self.keep(s, kept)?)),
        }
    }
}

/// Gives places to the states in the order of the links, where those that a state leads to mostly come first.
fn give_places(
    alloc: Global,
    model: &Model,
    links: &Links,
    marks: &Marks,
) -> Result<Found, AllocError>
    requires { AreLinks model.now links.now }
{
    let states = model.states();
    let mut placing = Placing {
        places: vec![in alloc; NOWHERE; states as usize]?,
        kept: Vec::with_capacity(alloc, states as usize)?,
        goal: None,
        lost: None,
    };
    let stand_in = lost_stand_in(model, links, &marks.lost);
    for s in links.order() {
        let s = *s;
        match stand_in {
            _ if is_marked(&marks.apart, s) => {
                placing.keep(s, s)?;
            }
            _ if s < states && model.is_goal(s) => {
                let place = placing.goal;
                placing.goal = placing.place(s, place, s)?;
            }
            Some(kept) if is_marked(&marks.lost, s) => {
                let place = placing.lost;
                placing.lost = placing.place(s, place, kept)?;
            }
            _ => {
                let place = common_place(model, links, &placing.places, s);
                placing.place(s, place, s)?;
            }
        }
    }
    let lost = match stand_in {
        Some(_) => Vec::from_slice(alloc, &marks.lost)?,
        None => Vec::new(alloc),
    };
    Ok(Found {
        places: placing.places,
        kept: placing.kept,
        lost,
    })
}

/// The places that were met in a row.
#[derive(Drop)]
struct Seen {
    // for each place the number of the last row in which it was met
    rows: Vec<u32>,
    row: u32,
}

impl Seen {
    /// None, for so many places.
    fn none(alloc: Global, places: usize) -> Result<Seen, AllocError> {
        Ok(Seen {
            rows: vec![in alloc; 0u32; places]?,
            row: 0,
        })
    }

    /// Begins another row.
    fn begin_row(&mut self) {
        self.row = self.row.saturating_add(1);
    }

    /// Meets a place. Tells whether that is the first time in this row.
    fn meet(&mut self, place: u32) -> bool {
        let row = self.row;
        if place_of(&self.rows, place) == row {
            return false;
        }
        put(&mut self.rows, place, row);
        true
    }
}

/// The targets of a state's choice; none where there is no such choice.
fn targets_of<'a>(model: &Model, links: &'a Links, s: u32, a: u32) -> &'a [u32]
    requires { AreLinks model.now links.now }
{
    if s >= model.states() || a >= links.choices(s) {
        return &[];
    }
    links.targets(links.place(s, a))
}

/// Sets apart the targets of a row whose place another one before them has; where these are lost states, no
/// state is taken for lost any more. Tells whether there are any.
fn part_row(marks: &mut Marks, places: &[u32], seen: &mut Seen, targets: &[u32]) -> bool {
    seen.begin_row();
    let mut parted = false;
    for target in targets {
        if seen.meet(place_of(places, *target)) {
            continue;
        }
        if is_marked(&marks.lost, *target) {
            marks.lost.clear();
            return true;
        }
        parted |= set_mark(&mut marks.apart, *target, true);
    }
    parted
}

/// The number of choices of a state.
fn choice_count(model: &Model, links: &Links, s: u32) -> u32
    requires { AreLinks model.now links.now }
{
    if s < model.states() {
        links.choices(s)
    } else {
        0
    }
}

/// Does so for all rows of the states that are kept.
fn part_rows(
    model: &Model,
    links: &Links,
    marks: &mut Marks,
    found: &Found,
    seen: &mut Seen,
) -> bool
    requires { AreLinks model.now links.now }
{
    let mut parted = false;
    for s in &found.kept {
        for a in 0..choice_count(model, links, *s) {
            parted |= part_row(marks, &found.places, seen, targets_of(model, links, *s, a));
        }
    }
    parted
}

/// Finds which states may be collapsed. Takes memory, and a time nearly linear in the model's size.
pub(crate) fn find_places(alloc: Global, model: &Model, links: &Links) -> Result<Found, AllocError>
    requires { AreLinks model.now links.now }
{
    let mut marks = Marks {
        lost: lost_states(alloc, model, links)?,
        apart: vec![in alloc; false; model.states() as usize]?,
    };
    for _ in 0..ROUNDS {
        let found = give_places(alloc, model, links, &marks)?;
        let mut seen = Seen::none(alloc, found.kept.len())?;
        if !part_rows(model, links, &mut marks, &found, &mut seen) {
            return Ok(found);
        }
    }
    give_places(alloc, model, links, &marks)
}
