//! Lowering a slow part by a search for the number of one of its states, which is held while the others are lowered.
//!
//! A vector lies at or above each lower vector, and a state of it is held at a number. Then what the others are lowered to
//! lies at or above each lower vector that has at most this number there. If the held state would fall too, it lies at or
//! above all of them: one that has more there, made smaller by what it has more, is a lower vector that has just the
//! number. If it wouldn't, the number isn't too large. So a search by halving finds the state's number, in however many
//! steps a walk is expected to leave the part.

ghost use Rattle.std.specs.Prelude.{◌≡◌, ◌+◌, ◌-◌, ◌^◌, ◌<◌, ◌≤◌, ◌⊎◌, ◌≤ℤ◌, ◌+ℤ◌, pos, length, IfSome};
ghost use Rattle.corner_lift.specs.Case.{number};
ghost use Rattle.corner_lift.specs.Certificate.{AreNumbers};
ghost use Rattle.corner_lift.specs.Lifted.{IsLiftedTo};
ghost use Rattle.float_guess.specs.Part.{KeepsOthers};
ghost use Rattle.lower_cert.specs.Lowering.{Run, CanLower, IsHighUnder};
ghost use Rattle.lower_cert.specs.Holding.{holding, AreInRange, IsSavedAt, AreSaved, IsHighBeyond, IsPlace, IsSameSearch, IsSearch};

use crate::descent::Descent;
use crate::laws::vectors_are_lowered;
use crate::part::{Part, flag_part, write_at};
use crate::raise::within;
use crate::steering::{DEEPEST, Patience, Steering};
use crate::sweep::{turn, visit};
use corner_lift::{Lifted, rows_at_corners};
use float_guess::{Among, Ends, Extreme, HELD_STATES, Rule, most_visited, worth_by};

/// What the numbers of states are made of: the best choice, at its worst corner.
const RULE: Rule<'static> = Rule {
    choice: Extreme::Greatest,
    corner: Extreme::Least,
    ends: Ends::Goals,
};

/// How many numbers are tried at most: two for each halving.
const TRIES: u32 = 256;

/// How many passes settle a part once the number is found.
const SETTLING: u32 = 8192;

/// In place of a position where there is none.
const NOWHERE: u32 = u32::MAX;

/// A state of a part that is held, and where it stands, and where others stand that are held while this one's number is
/// searched, the last one first.
#[derive(Clone, Copy)]
struct Held {
    part: Part,
    position: u32,
    state: u32,
    outer: [u32; DEEPEST],
}

impl Held {
    /// Where the number of the state at a position of the part is kept.
    fn place(self, position: u32) -> usize
        requires { self.part.low ≤ position }
        ensures { result ≡ position - self.part.low }
    {
        (position - self.part.low) as usize
    }

    /// Whether a position is held.
    fn has(self, position: u32) -> bool {
        position == self.position || self.outer.contains(&position)
    }

    /// What is held while another one's number is searched.
    fn with_outer(self) -> [u32; DEEPEST] {
        [self.position, self.outer[0], self.outer[1]]
    }
}

/// How the fall of the others ended.
#[derive(Clone, Copy)]
enum Beside {
    /// The held state fell too.
    Falls,
    /// None falls.
    Settled,
    /// It took too many passes.
    Slow,
}

impl Beside {
    /// Whether it took too many passes.
    fn is_slow(self) -> bool {
        match self {
            Beside::Slow => true,
            Beside::Falls | Beside::Settled => false,
        }
    }
}

/// What came of a number.
#[derive(Clone, Copy)]
enum Tried {
    /// Another one may be tried.
    More,
    /// The initial state's number isn't above the limit.
    Enough,
    /// It took too many passes.
    Slow,
}

/// A search for the number of a held state. It keeps numbers of the part that lie at or above each lower vector, and
/// others that lie at or above each lower vector that has at most `low` at the held state.
#[derive(Clone, Copy)]
struct Search {
    held: Held,
    steering: Steering,
    base: [i64; HELD_STATES],
    low: i64,
    settled: [i64; HELD_STATES],
}

/// Keeps the number of the state at a position, at a place.
fn save_at(rows: &Lifted, lane: &[i64], position: u32, saved: &mut [i64], place: usize)
    requires numbers { AreNumbers rows.now.case lane.now }
    requires position { position < length rows.now.links.order }
    requires place { place < length saved.old }
    requires range { AreInRange rows.now.case saved.old }
    ensures range { AreInRange rows.now.case saved.new }
    ensures saved { IsSavedAt rows.now.case rows.now.links lane.now position place saved.old saved.new }
{
    if let Some(s) = rows.open_state(position) {
        saved[place] = lane[s as usize];
    }
}

/// Keeps the numbers of a part.
fn save(rows: &Lifted, lane: &[i64], held: Held, saved: &mut [i64])
    requires numbers { AreNumbers rows.now.case lane.now }
    requires part { held.part.high ≤ length rows.now.links.order }
    requires room { held.part.high ≤ held.part.low + length saved.old }
    requires range { AreInRange rows.now.case saved.old }
    ensures range { AreInRange rows.now.case saved.new }
    ensures saved { AreSaved rows.now.case rows.now.links lane.now held.part.low held.part.high saved.new }
{
    for position in held.part.low..held.part.high {
        save_at(rows, lane, position, saved, held.place(position));
    }
}

/// A number with so many more, but at most another one.
fn with_more(base: i64, settled: i64, more: i64) -> i64
    requires base { pos 0 ≤ℤ base }
    requires settled { (pos 0 ≤ℤ settled) × (pos 0 ≤ℤ more) }
    ensures range { (pos 0 ≤ℤ result) × (result ≤ℤ base) }
    ensures either { (result ≡ base) ⊎ (result ≡ settled +ℤ more) }
{
    match settled.checked_add(more) {
        Some(sum) if sum < base => sum,
        _ => base,
    }
}

/// How much more a number is than another one, if it is.
fn excess(number: i64, low: i64) -> i64
    requires { pos 0 ≤ℤ low }
    ensures { (pos 0 ≤ℤ result) × (number ≤ℤ (low +ℤ result)) }
{
    if number <= low { 0 } else { number - low }
}

/// Begins a part beside the held state, which has this number: from what is kept, whichever is less. What lies at or above
/// the lower vectors that have at most `low` there does so for those that have more, with as much more.
fn start_beside(rows: &Lifted, lane: &mut [i64], search: &Search, value: i64)
    ghost run: { Run }
    requires table { IsLiftedTo rows.now run.spans }
    requires search { IsSearch rows.now.case rows.now.links run search.now }
    requires beyond { IsHighBeyond rows.now.case rows.now.links run search.now.held.part.low search.now.held.part.high lane.old }
    requires value { (pos 0 ≤ℤ value) × (value ≤ℤ pos (2 ^ rows.now.case.w)) }
    ensures high { IsHighUnder rows.now.case (holding run search.now.held.state value) lane.new }
    ensures here { number lane.new search.now.held.state ≡ value }
    ensures kept { KeepsOthers rows.now.case rows.now.links search.now.held.part.low search.now.held.part.high lane.old lane.new }
{
    vectors_are_lowered();
    rows_at_corners();
    let _ = rows.w();
    let held = search.held;
    let more = excess(value, search.low);
    for position in held.part.low..held.part.high {
        let place = held.place(position);
        let start = with_more(search.base[place], search.settled[place], more);
        write_at(rows, lane, position, start);
    }
    lane[held.state as usize] = value;
}

/// Writes the numbers that are kept of a part.
fn restore(rows: &Lifted, lane: &mut [i64], search: &Search)
    ghost run: { Run }
    requires table { IsLiftedTo rows.now run.spans }
    requires search { IsSearch rows.now.case rows.now.links run search.now }
    requires beyond { IsHighBeyond rows.now.case rows.now.links run search.now.held.part.low search.now.held.part.high lane.old }
    ensures high { IsHighUnder rows.now.case run lane.new }
    ensures kept { KeepsOthers rows.now.case rows.now.links search.now.held.part.low search.now.held.part.high lane.old lane.new }
{
    let held = search.held;
    for position in held.part.low..held.part.high {
        write_at(rows, lane, position, search.base[held.place(position)]);
    }
}

/// What came of a pass: how many states were visited, and whether one fell.
#[derive(Clone, Copy)]
struct Round {
    visits: u32,
    fell: bool,
}

/// Visits the flagged states of a part beside those that are held.
fn pass_beside(rows: &Lifted, lane: &mut [i64], work: &mut [u32], held: Held) -> Round
    ghost run: { Run }
    requires can { CanLower rows.now run lane.old }
    requires place { IsPlace rows.now.case rows.now.links held }
    requires work { held.part.high ≤ length work.old }
    ensures high { IsHighUnder rows.now.case run lane.new }
    ensures kept { KeepsOthers rows.now.case rows.now.links held.part.low held.part.high lane.old lane.new }
{
    let mut visits: u32 = 0;
    let mut fell = false;
    for position in held.part.low..held.part.high {
        if work[position as usize] == 0 || held.has(position) {
            continue;
        }
        visits = visits.saturating_add(1);
        if turn(rows, lane, work, position, held.part.high) {
            fell = true;
        }
    }
    Round { visits, fell }
}

/// Begins a search for the number of a held state.
fn search_for(rows: &Lifted, lane: &[i64], held: Held, steering: Steering) -> Search
    ghost run: { Run }
    requires high { IsHighUnder rows.now.case run lane.now }
    requires place { IsPlace rows.now.case rows.now.links held }
    requires room { held.part.high ≤ held.part.low + HELD_STATES }
    ensures held { result.held ≡ held }
    ensures search { IsSearch rows.now.case rows.now.links run result }
{
    let mut search = Search {
        held,
        steering,
        base: [0; HELD_STATES],
        low: 0,
        settled: [0; HELD_STATES],
    };
    save(rows, lane, held, &mut search.base);
    save(rows, lane, held, &mut search.settled);
    search
}

/// Tries numbers of a held state, until its own is found or enough is: the others are lowered beside it by this method.
macro_rules! search_by {
    ($descent:ident, $lane:ident, $work:ident, $search:ident, $fall:ident) => {{
        let held = $search.held;
        for _ in 0..TRIES {
            let Some(value) = $descent.next_number($search) else {
                return true;
            };
            start_beside($descent.rows, $lane, $search, value);
            flag_part($work, held.part);
            let ended = $descent.$fall($lane, $work, held, &mut $search.steering);
            match $descent.keep($lane, $work, $search, value, ended) {
                Tried::More => {}
                Tried::Enough => return true,
                Tried::Slow => return false,
            }
        }
        false
    }};
}

/// Lowers the states of a part beside the held one, until that falls or none does, and where that takes long, by a search for
/// the number of another one by this method.
macro_rules! fall_or_hold {
    ($descent:ident, $lane:ident, $work:ident, $held:ident, $steering:ident, $search:ident) => {{
        let ended = $descent.fall_beside($lane, $work, $held, $steering);
        if !ended.is_slow() || !$steering.may_nest() {
            return ended;
        }
        let Some(other) = $descent.held_of($lane, $held.part, $held.with_outer()) else {
            return ended;
        };
        let number = $lane[other.state as usize];
        let mut search = search_for($descent.rows, $lane, other, $steering.inner(other.part, number));
        let found = $descent.$search($lane, $work, &mut search);
        restore($descent.rows, $lane, &search);
        flag_part($work, other.part);
        $steering.after(&search.steering, number);
        if !found {
            return Beside::Slow;
        }
        $descent.fall_alone($lane, $work, $held, $steering)
    }};
}

impl Descent<'_> {
    /// A state of a part to be held, beside another one: one that is met often on a walk that stays there.
    fn held_of(&self, lane: &[i64], part: Part, outer: [u32; DEEPEST]) -> Option<Held>
        requires { part.high ≤ length self.now.rows.now.links.order }
        ensures part { IfSome result (λ held. held.part ≡ part) }
        ensures room { IfSome result (λ held. held.part.high ≤ held.part.low + HELD_STATES) }
        ensures place { IfSome result (IsPlace self.now.rows.now.case self.now.rows.now.links) }
    {
        if part.len() as usize > HELD_STATES {
            return None;
        }
        let among = Among {
            low: part.low,
            high: part.high,
            held: &outer,
        };
        let position = most_visited(self.rows, RULE, lane, among)?;
        if position < part.low || part.high <= position {
            return None;
        }
        let state = self.rows.open_state(position)?;
        Some(Held {
            part,
            position,
            state,
            outer,
        })
    }

    /// Lowers the states of a part beside the held one, until that falls or none does.
    fn fall_beside(
        &self,
        lane: &mut [i64],
        work: &mut [u32],
        held: Held,
        steering: &mut Steering,
    ) -> Beside
        ghost run: { Run }
        requires can { CanLower self.now.rows.now run lane.old }
        requires place { IsPlace self.now.rows.now.case self.now.rows.now.links held }
        requires work { held.part.high ≤ length work.old }
        ensures high { IsHighUnder self.now.rows.now.case run lane.new }
        ensures kept { KeepsOthers self.now.rows.now.case self.now.rows.now.links held.part.low held.part.high lane.old lane.new }
    {
        let left = steering.visits_left();
        let mut visits: u32 = 0;
        for _ in 0..left {
            let round = pass_beside(self.rows, lane, work, held);
            visits = visits.saturating_add(round.visits);
            if turn(self.rows, lane, work, held.position, held.part.high) {
                steering.count(visits);
                return Beside::Falls;
            }
            if !round.fell {
                steering.count(visits);
                return Beside::Settled;
            }
            if visits >= left {
                break;
            }
        }
        steering.count(visits);
        Beside::Slow
    }

    /// The number of a held state that is worth to be tried before any that is less.
    fn end_of(&self, held: Held) -> i64 {
        if held.outer[0] == NOWHERE && held.state == self.rows.model().init() {
            return self.limit.saturating_add(1).max(0);
        }
        0
    }

    /// The next number to try.
    fn next_number(&self, search: &mut Search) -> Option<i64>
        requires place { IsPlace self.now.rows.now.case self.now.rows.now.links search.old.held }
        requires room { search.old.held.part.high ≤ search.old.held.part.low + length search.old.base }
        ensures same { IsSameSearch search.old search.new }
        ensures value { IfSome result (λ value. (pos 0 ≤ℤ value) × (value ≤ℤ pos (2 ^ self.now.rows.now.case.w))) }
    {
        let held = search.held;
        let end = self.end_of(held);
        let number = search.base[held.place(held.position)];
        let next = search.steering.next(number, end)?;
        Some(within(next, self.rows.top()))
    }

    /// Keeps what the others were lowered to beside a state that didn't fall, if they settled.
    fn keep_settled(&self, lane: &[i64], search: &mut Search, value: i64, ended: Beside) -> Tried
        ghost run: { Run }
        requires search { IsSearch self.now.rows.now.case self.now.rows.now.links run search.old }
        requires high { IsHighUnder self.now.rows.now.case (holding run search.old.held.state value) lane.now }
        requires value { pos 0 ≤ℤ value }
        ensures held { search.new.held ≡ search.old.held }
        ensures search { IsSearch self.now.rows.now.case self.now.rows.now.links run search.new }
    {
        match ended {
            Beside::Settled => {
                let held = search.held;
                save(self.rows, lane, held, &mut search.settled);
                search.low = value;
                let worth = worth_by(self.rows, RULE, lane, held.state);
                search.steering.stayed(value, worth);
                Tried::More
            }
            Beside::Falls | Beside::Slow => Tried::Slow,
        }
    }

    /// Whether what was found is enough: the initial state's number isn't above the limit, or the outer state that is held
    /// falls too.
    fn is_enough(&self, lane: &mut [i64], work: &mut [u32], held: Held) -> bool
        ghost run: { Run }
        requires can { CanLower self.now.rows.now run lane.old }
        requires place { IsPlace self.now.rows.now.case self.now.rows.now.links held }
        requires work { held.part.high ≤ length work.old }
        ensures high { IsHighUnder self.now.rows.now.case run lane.new }
        ensures kept { KeepsOthers self.now.rows.now.case self.now.rows.now.links held.part.low held.part.high lane.old lane.new }
    {
        if held.outer[0] < held.part.low || held.part.high <= held.outer[0] {
            return lane[self.rows.model().init() as usize] <= self.limit;
        }
        visit(self.rows, lane, work, held.outer[0], held.part.high)
    }

    /// Keeps what came of a number: the others were lowered beside the held state, which had this number.
    fn keep(
        &self,
        lane: &mut [i64],
        work: &mut [u32],
        search: &mut Search,
        value: i64,
        ended: Beside,
    ) -> Tried
        ghost run: { Run }
        requires table { IsLiftedTo self.now.rows.now run.spans }
        requires search { IsSearch self.now.rows.now.case self.now.rows.now.links run search.old }
        requires high { IsHighUnder self.now.rows.now.case (holding run search.old.held.state value) lane.old }
        requires value { pos 0 ≤ℤ value }
        requires work { search.old.held.part.high ≤ length work.old }
        ensures held { search.new.held ≡ search.old.held }
        ensures search { IsSearch self.now.rows.now.case self.now.rows.now.links run search.new }
        ensures kept { KeepsOthers self.now.rows.now.case self.now.rows.now.links search.old.held.part.low search.old.held.part.high
            lane.old lane.new }
    {
        vectors_are_lowered();
        rows_at_corners();
        let _ = self.rows.w();
        let held = search.held;
        let to = lane[held.state as usize];
        if value <= to {
            return self.keep_settled(lane, search, value, ended);
        }
        let enough = self.is_enough(lane, work, held);
        save(self.rows, lane, held, &mut search.base);
        search.steering.fell(value, to);
        if enough { Tried::Enough } else { Tried::More }
    }

    /// Lowers the states of a part beside the held one, until that falls or none does, holding no other one.
    fn fall_alone(
        &self,
        lane: &mut [i64],
        work: &mut [u32],
        held: Held,
        steering: &mut Steering,
    ) -> Beside
        ghost run: { Run }
        requires can { CanLower self.now.rows.now run lane.old }
        requires place { IsPlace self.now.rows.now.case self.now.rows.now.links held }
        requires work { held.part.high ≤ length work.old }
        ensures high { IsHighUnder self.now.rows.now.case run lane.new }
        ensures kept { KeepsOthers self.now.rows.now.case self.now.rows.now.links held.part.low held.part.high lane.old lane.new }
    {
        let mut patient = steering.patient();
        let ended = self.fall_beside(lane, work, held, &mut patient);
        steering.count_of(&patient);
        ended
    }

    /// Tries numbers of a state that is held beside three others, until its own is found or enough is. False: it took too long.
    fn search_beside_three(&self, lane: &mut [i64], work: &mut [u32], search: &mut Search) -> bool
        ghost run: { Run }
        requires table { IsLiftedTo self.now.rows.now run.spans }
        requires search { IsSearch self.now.rows.now.case self.now.rows.now.links run search.old }
        requires beyond { IsHighBeyond self.now.rows.now.case self.now.rows.now.links run search.old.held.part.low
            search.old.held.part.high lane.old }
        requires work { search.old.held.part.high ≤ length work.old }
        ensures held { search.new.held ≡ search.old.held }
        ensures search { IsSearch self.now.rows.now.case self.now.rows.now.links run search.new }
        ensures kept { KeepsOthers self.now.rows.now.case self.now.rows.now.links search.old.held.part.low search.old.held.part.high
            lane.old lane.new }
    {
        search_by!(self, lane, work, search, fall_alone)
    }

    /// Lowers the states of a part beside three held ones, and one more where that takes long.
    fn fall_beside_three(
        &self,
        lane: &mut [i64],
        work: &mut [u32],
        held: Held,
        steering: &mut Steering,
    ) -> Beside
        ghost run: { Run }
        requires can { CanLower self.now.rows.now run lane.old }
        requires place { IsPlace self.now.rows.now.case self.now.rows.now.links held }
        requires work { held.part.high ≤ length work.old }
        ensures high { IsHighUnder self.now.rows.now.case run lane.new }
        ensures kept { KeepsOthers self.now.rows.now.case self.now.rows.now.links held.part.low held.part.high lane.old lane.new }
    {
        fall_or_hold!(self, lane, work, held, steering, search_beside_three)
    }

    /// Tries numbers of a state that is held beside two others.
    fn search_beside_two(&self, lane: &mut [i64], work: &mut [u32], search: &mut Search) -> bool
        ghost run: { Run }
        requires table { IsLiftedTo self.now.rows.now run.spans }
        requires search { IsSearch self.now.rows.now.case self.now.rows.now.links run search.old }
        requires beyond { IsHighBeyond self.now.rows.now.case self.now.rows.now.links run search.old.held.part.low
            search.old.held.part.high lane.old }
        requires work { search.old.held.part.high ≤ length work.old }
        ensures held { search.new.held ≡ search.old.held }
        ensures search { IsSearch self.now.rows.now.case self.now.rows.now.links run search.new }
        ensures kept { KeepsOthers self.now.rows.now.case self.now.rows.now.links search.old.held.part.low search.old.held.part.high
            lane.old lane.new }
    {
        search_by!(self, lane, work, search, fall_beside_three)
    }

    /// Lowers the states of a part beside two held ones, and one more where that takes long.
    fn fall_beside_two(
        &self,
        lane: &mut [i64],
        work: &mut [u32],
        held: Held,
        steering: &mut Steering,
    ) -> Beside
        ghost run: { Run }
        requires can { CanLower self.now.rows.now run lane.old }
        requires place { IsPlace self.now.rows.now.case self.now.rows.now.links held }
        requires work { held.part.high ≤ length work.old }
        ensures high { IsHighUnder self.now.rows.now.case run lane.new }
        ensures kept { KeepsOthers self.now.rows.now.case self.now.rows.now.links held.part.low held.part.high lane.old lane.new }
    {
        fall_or_hold!(self, lane, work, held, steering, search_beside_two)
    }

    /// Tries numbers of a state that is held beside another one.
    fn search_beside_one(&self, lane: &mut [i64], work: &mut [u32], search: &mut Search) -> bool
        ghost run: { Run }
        requires table { IsLiftedTo self.now.rows.now run.spans }
        requires search { IsSearch self.now.rows.now.case self.now.rows.now.links run search.old }
        requires beyond { IsHighBeyond self.now.rows.now.case self.now.rows.now.links run search.old.held.part.low
            search.old.held.part.high lane.old }
        requires work { search.old.held.part.high ≤ length work.old }
        ensures held { search.new.held ≡ search.old.held }
        ensures search { IsSearch self.now.rows.now.case self.now.rows.now.links run search.new }
        ensures kept { KeepsOthers self.now.rows.now.case self.now.rows.now.links search.old.held.part.low search.old.held.part.high
            lane.old lane.new }
    {
        search_by!(self, lane, work, search, fall_beside_two)
    }

    /// Lowers the states of a part beside a held one, and one more where that takes long.
    fn fall_beside_one(
        &self,
        lane: &mut [i64],
        work: &mut [u32],
        held: Held,
        steering: &mut Steering,
    ) -> Beside
        ghost run: { Run }
        requires can { CanLower self.now.rows.now run lane.old }
        requires place { IsPlace self.now.rows.now.case self.now.rows.now.links held }
        requires work { held.part.high ≤ length work.old }
        ensures high { IsHighUnder self.now.rows.now.case run lane.new }
        ensures kept { KeepsOthers self.now.rows.now.case self.now.rows.now.links held.part.low held.part.high lane.old lane.new }
    {
        fall_or_hold!(self, lane, work, held, steering, search_beside_one)
    }

    /// Tries numbers of a held state.
    fn search_first(&self, lane: &mut [i64], work: &mut [u32], search: &mut Search) -> bool
        ghost run: { Run }
        requires table { IsLiftedTo self.now.rows.now run.spans }
        requires search { IsSearch self.now.rows.now.case self.now.rows.now.links run search.old }
        requires beyond { IsHighBeyond self.now.rows.now.case self.now.rows.now.links run search.old.held.part.low
            search.old.held.part.high lane.old }
        requires work { search.old.held.part.high ≤ length work.old }
        ensures held { search.new.held ≡ search.old.held }
        ensures search { IsSearch self.now.rows.now.case self.now.rows.now.links run search.new }
        ensures kept { KeepsOthers self.now.rows.now.case self.now.rows.now.links search.old.held.part.low search.old.held.part.high
            lane.old lane.new }
    {
        search_by!(self, lane, work, search, fall_beside_one)
    }

    /// Lowers a part by a search for the number of one of its states. False: there is none to be held, or it took too
    /// long.
    #[inline(never)]
    pub(crate) fn lower_held(
        &self,
        lane: &mut [i64],
        work: &mut [u32],
        part: Part,
        patience: Patience,
    ) -> bool
        ghost run: { Run }
        requires can { CanLower self.now.rows.now run lane.old }
        requires part { (part.high ≤ length work.old) × (part.high ≤ length self.now.rows.now.links.order) }
        ensures { IsHighUnder self.now.rows.now.case run lane.new }
    {
        let Some(held) = self.held_of(lane, part, [NOWHERE; DEEPEST]) else {
            return false;
        };
        let steering = Steering::of(patience, part, lane[held.state as usize]);
        let mut search = search_for(self.rows, lane, held, steering);
        let found = self.search_first(lane, work, &mut search);
        restore(self.rows, lane, &search);
        flag_part(work, part);
        found && self.settle_within(lane, work, part, SETTLING)
    }
}
