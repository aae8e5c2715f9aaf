//! The greatest lower vector of a rectangle, with its ranks and choices.

ghost use Rattle.std.specs.Prelude.{◌≡◌, ◌*◌, ◌<◌, ◌≤◌, ◌<ℤ◌, ◌↔◌, length, All, IsTrue, IsFalse, IsNone, IfSome};
ghost use Rattle.lift_grid.specs.Rectangle.{Spans};
ghost use Rattle.corner_lift.specs.Case.{number};
ghost use Rattle.corner_lift.specs.Certificate.{unmarked};
ghost use Rattle.corner_lift.specs.Lifted.{IsLiftedTo};
ghost use Rattle.corner_lift.specs.Stages.{IsGreatestLower};
ghost use Rattle.lower_cert.specs.Lowering.{IsRead, HasPlaces, IsHigh, IsSettled, IsHeight, total};
ghost use Rattle.lower_cert.specs.Limit.{IsGreatestAbove, NoneIsAbove};

use crate::descent::Descent;
use crate::exit::lower_to_exit;
use crate::laws::{ranks_fit, vectors_are_lowered};
use crate::lower::{NONE, lower_level, rank_states, stuck_level};
use crate::sweep::{clear_flags, flag_marked};
use corner_lift::{Case, Lifted, rows_at_corners};
use lift_model::Links;
use robust_rank::rate;

/// The rate of the choices, and the greatest rank.
#[derive(Clone, Copy)]
pub struct Rate {
    pub e: u32,
    pub k: u32,
}

/// The greatest rank, or 1 where none is greater.
fn height(ranks: &[u32]) -> u32
    ensures height { IsHeight ranks.now (length ranks.now) result }
    ensures marks { All (λ rank. rank ≤ unmarked) ranks.now }
{
    let mut height = 1;
    for rank in ranks {
        if *rank != NONE && *rank > height {
            height = *rank;
        }
    }
    height
}

/// The least rate and height that the ranks and choices of a settled vector allow.
fn rate_of(rows: &Lifted, lane: &[i64], ranks: &[u32], picks: &[u32]) -> Rate
    ghost spans: { Spans }
    requires table { IsLiftedTo rows.now spans }
    requires high { IsHigh rows.now.case spans lane.now }
    requires settled { IsSettled rows.now.case spans lane.now picks.now ranks.now }
    ensures greatest { IsGreatestLower rows.now.case spans
        (record { numbers = lane.now; picks = picks.now; ranks = ranks.now; e = result.e; k = result.k }) }
    ensures height { result.k ≤ length rows.now.case.model.states }
{
    vectors_are_lowered();
    ranks_fit();
    rows_at_corners();
    let _ = rows.w();
    Rate {
        e: rate(rows.case(), rows.links(), rows.weights(), ranks, picks),
        k: height(ranks),
    }
}

impl Descent<'_> {
    /// Whether the initial state's number is above the limit.
    fn is_above(&self, lane: &[i64]) -> bool
        requires { length lane.now ≡ length self.now.rows.now.case.model.states }
        ensures { IsTrue result ↔ self.now.limit <ℤ number lane.now self.now.rows.now.case.model.init }
    {
        self.limit < lane[self.rows.model().init() as usize]
    }

    /// Ranks the states, and lowers those without rank that have the greatest number above 0, if there are any:
    /// by 1, then to their best exit, and then all states until each is held by a choice. Tells whether it goes
    /// on: not where there are none, and not where the initial state's number isn't above the limit.
    fn lower_once(
        &self,
        lane: &mut [i64],
        allowed: &mut [u32],
        ranks: &mut [u32],
        picks: &mut [u32],
        work: &mut [u32],
    ) -> bool
        ghost spans: { Spans }
        requires table { IsLiftedTo self.now.rows.now spans }
        requires high { IsHigh self.now.rows.now.case spans lane.old }
        requires places { HasPlaces self.now.rows.now.case allowed.old ranks.old picks.old }
        requires work { length work.old ≡ 2 * length self.now.rows.now.case.model.states }
        ensures high { IsHigh self.now.rows.now.case spans lane.new }
        ensures lower { IsTrue result → total lane.new < total lane.old }
        ensures settled { IsFalse result → self.now.limit <ℤ number lane.new self.now.rows.now.case.model.init
            → IsSettled self.now.rows.now.case spans lane.new picks.new ranks.new }
    {
        rows_at_corners();
        let rows = self.rows;
        let _ = rows.w();
        if !self.is_above(lane) {
            return false;
        }
        rank_states(rows, lane, allowed, ranks, picks);
        let level = stuck_level(lane, ranks);
        if level <= 0 {
            return false;
        }
        lower_level(rows, lane, ranks, picks, level);
        lower_to_exit(rows, lane, ranks, picks, level - 1);
        clear_flags(work);
        flag_marked(rows, picks, work);
        self.settle(lane, work);
        true
    }

    /// Lowers a vector that lies at or above each lower vector until it is the greatest lower one, or until the
    /// initial state's number isn't above the limit.
    fn descend(
        &self,
        lane: &mut [i64],
        allowed: &mut [u32],
        ranks: &mut [u32],
        picks: &mut [u32],
        work: &mut [u32],
    )
        ghost spans: { Spans }
        requires table { IsLiftedTo self.now.rows.now spans }
        requires high { IsHigh self.now.rows.now.case spans lane.old }
        requires places { HasPlaces self.now.rows.now.case allowed.old ranks.old picks.old }
        requires work { length work.old ≡ 2 * length self.now.rows.now.case.model.states }
        ensures high { IsHigh self.now.rows.now.case spans lane.new }
        ensures settled { self.now.limit <ℤ number lane.new self.now.rows.now.case.model.init
            → IsSettled self.now.rows.now.case spans lane.new picks.new ranks.new }
    {
        while self.lower_once(lane, allowed, ranks, picks, work) {}
    }

    /// Lowers a vector that lies at or above each lower vector to the greatest lower one, and gives the rate, if the
    /// initial state's number is above the limit.
    fn reject_from(
        &self,
        lane: &mut [i64],
        allowed: &mut [u32],
        ranks: &mut [u32],
        picks: &mut [u32],
        work: &mut [u32],
    ) -> Option<Rate>
        ghost spans: { Spans }
        requires table { IsLiftedTo self.now.rows.now spans }
        requires high { IsHigh self.now.rows.now.case spans lane.old }
        requires places { HasPlaces self.now.rows.now.case allowed.old ranks.old picks.old }
        requires work { length work.old ≡ 2 * length self.now.rows.now.case.model.states }
        ensures some { IfSome result (λ rate. IsGreatestAbove self.now.rows.now.case spans self.now.limit
            (record { numbers = lane.new; picks = picks.new; ranks = ranks.new; e = rate.e; k = rate.k })) }
        ensures none { IsNone result → NoneIsAbove self.now.rows.now.case spans self.now.limit }
    {
        rows_at_corners();
        self.descend(lane, allowed, ranks, picks, work);
        if self.is_above(lane) {
            return Some(rate_of(self.rows, lane, ranks, picks));
        }
        None
    }
}

/// Leaves in `lane`, `ranks` and `picks` the greatest lower vector of the case on the rectangle whose table
/// `weights` is, with the ranks and choices of its stages, and gives the least rate and height that these
/// allow. What `lane`, `allowed`, `ranks`, `picks` and `work` hold at entry is free. Takes no memory.
pub fn greatest_reject(
    case: &Case,
    links: &Links,
    weights: &[i128],
    lane: &mut [i64],
    allowed: &mut [u32],
    ranks: &mut [u32],
    picks: &mut [u32],
    work: &mut [u32],
) -> Rate
    ghost spans: { Spans }
    requires read { IsRead case.now links.now spans weights.now lane.old }
    requires places { HasPlaces case.now allowed.old ranks.old picks.old }
    requires work { length work.old ≡ 2 * length case.now.model.states }
    ensures greatest { IsGreatestLower case.now spans
        (record { numbers = lane.new; picks = picks.new; ranks = ranks.new; e = result.e; k = result.k }) }
    ensures height { result.k ≤ length case.now.model.states }
{
    rows_at_corners();
    let rows = Lifted::new(&*case, &*links, &*weights);
    let limit = -1;
    let descent = Descent { rows: &rows, limit };
    descent.begin(lane, work);
    descent.descend(lane, allowed, ranks, picks, work);
    rate_of(&rows, lane, ranks, picks)
}

/// As `greatest_reject`, but stops as soon as the initial state's number isn't above the limit. None: in no
/// lower vector is it above. So with the greatest number within a bound as the limit, there is no rejecting
/// certificate for that bound, and what `lane`, `ranks` and `picks` hold is free.
pub fn greatest_reject_above(
    case: &Case,
    links: &Links,
    weights: &[i128],
    limit: i64,
    lane: &mut [i64],
    allowed: &mut [u32],
    ranks: &mut [u32],
    picks: &mut [u32],
    work: &mut [u32],
) -> Option<Rate>
    ghost spans: { Spans }
    requires read { IsRead case.now links.now spans weights.now lane.old }
    requires places { HasPlaces case.now allowed.old ranks.old picks.old }
    requires work { length work.old ≡ 2 * length case.now.model.states }
    ensures some { IfSome result (λ rate. IsGreatestAbove case.now spans limit
        (record { numbers = lane.new; picks = picks.new; ranks = ranks.new; e = rate.e; k = rate.k })) }
    ensures none { IsNone result → NoneIsAbove case.now spans limit }
{
    let rows = Lifted::new(&*case, &*links, &*weights);
    let descent = Descent { rows: &rows, limit };
    descent.begin(lane, work);
    descent.reject_from(lane, allowed, ranks, picks, work)
}

/// Lowers the vector of ones as far as the choices of states ask for, and leaves it in `lane`: it lies at or above each
/// lower vector, and is the greatest one where all states that it leaves above 0 can be ranked. False: in no lower vector
/// is the initial state's number above the limit. What `lane` and `work` hold at entry is free. Takes no memory.
pub fn lower_unranked(
    case: &Case,
    links: &Links,
    weights: &[i128],
    limit: i64,
    lane: &mut [i64],
    work: &mut [u32],
) -> bool
    ghost spans: { Spans }
    requires read { IsRead case.now links.now spans weights.now lane.old }
    requires work { length work.old ≡ 2 * length case.now.model.states }
    ensures high { IsHigh case.now spans lane.new }
    ensures none { IsFalse result → NoneIsAbove case.now spans limit }
{
    rows_at_corners();
    let rows = Lifted::new(&*case, &*links, &*weights);
    let descent = Descent { rows: &rows, limit };
    descent.begin(lane, work);
    descent.is_above(lane)
}

/// As `greatest_reject_above`, but begins from the vector in `lane`, which lies at or above each lower vector.
pub fn greatest_reject_from(
    rows: &Lifted,
    limit: i64,
    lane: &mut [i64],
    allowed: &mut [u32],
    ranks: &mut [u32],
    picks: &mut [u32],
    work: &mut [u32],
) -> Option<Rate>
    ghost spans: { Spans }
    requires read { IsRead rows.now.case rows.now.links spans rows.now.weights lane.old }
    requires high { IsHigh rows.now.case spans lane.old }
    requires places { HasPlaces rows.now.case allowed.old ranks.old picks.old }
    requires work { length work.old ≡ 2 * length rows.now.case.model.states }
    ensures some { IfSome result (λ rate. IsGreatestAbove rows.now.case spans limit
        (record { numbers = lane.new; picks = picks.new; ranks = ranks.new; e = rate.e; k = rate.k })) }
    ensures none { IsNone result → NoneIsAbove rows.now.case spans limit }
{
    let descent = Descent {
        rows: &*rows,
        limit,
    };
    descent.reject_from(lane, allowed, ranks, picks, work)
}
