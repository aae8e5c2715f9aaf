ghost use Rattle.std.specs.Prelude.{◌≡◌, ◌≤◌, ◌<◌, ◌↔◌, true, false, length, IsTrue};
ghost use Rattle.lift_model.specs.Model.{is_goal};
ghost use Rattle.corner_lift.specs.Case.{number};
ghost use Rattle.corner_lift.specs.Certificate.{mark, unmarked};
ghost use Rattle.lift_cert.specs.RejectMiss.{HasRejectForm};

use corner_lift::Case;

/// In place of a rank or of a chosen row where a state has none.
const NONE: u32 = u32::MAX;

/// A rejecting certificate that is to be tested.
#[derive(Drop)]
pub struct Certificate<'a> {
    y: &'a [i64],
    picks: &'a [u32],
    ranks: &'a [u32],
    e: u32,
    k: u32,
}

impl<'a> std::marker::Model for Certificate<'a> {
    ghost use Rattle.lift_grid.specs.Tree.{RejectData};

    ghost Value = { RejectData };

    ghost view = { λ r. record { numbers = r.y.now; picks = r.picks.now; ranks = r.ranks.now; e = r.e; k = r.k } };
}

impl<'a> Certificate<'a> {
    /// The certificate of these parts.
    pub fn new(y: &'a [i64], picks: &'a [u32], ranks: &'a [u32], e: u32, k: u32) -> Certificate<'a>
        ensures { result ≡ record { numbers = y.now; picks = picks.now; ranks = ranks.now; e = e; k = k } }
    {
        Certificate {
            y,
            picks,
            ranks,
            e,
            k,
        }
    }

    /// The numbers of all states.
    pub fn numbers(&self) -> &'a [i64]
        ensures { result.now ≡ self.now.numbers }
    {
        self.y
    }

    /// The ranks of all states.
    pub fn ranks(&self) -> &'a [u32]
        ensures { result.now ≡ self.now.ranks }
    {
        self.ranks
    }

    /// The number `e` of the rate.
    pub fn e(&self) -> u32
        ensures { result ≡ self.now.e }
    {
        self.e
    }

    /// A state's number.
    pub fn number(&self, case: &Case, state: u32) -> i64
        requires form { HasRejectForm case.now self.now }
        requires state { state < length case.now.model.states }
        ensures { result ≡ number self.now.numbers state }
    {
        self.y[state as usize]
    }

    /// A state's rank.
    pub fn rank(&self, case: &Case, state: u32) -> u32
        requires form { HasRejectForm case.now self.now }
        requires state { state < length case.now.model.states }
        ensures { result ≡ mark self.now.ranks state }
    {
        self.ranks[state as usize]
    }

    /// A state's chosen row.
    pub fn pick(&self, case: &Case, state: u32) -> u32
        requires form { HasRejectForm case.now self.now }
        requires state { state < length case.now.model.states }
        ensures { result ≡ mark self.now.picks state }
    {
        self.picks[state as usize]
    }

    /// Whether a state has a rank.
    pub fn is_ranked(&self, case: &Case, state: u32) -> bool
        requires form { HasRejectForm case.now self.now }
        requires state { state < length case.now.model.states }
        ensures ranked { IsTrue result ↔ mark self.now.ranks state < unmarked }
        ensures none { result ≡ false → mark self.now.ranks state ≡ unmarked }
    {
        self.rank(case, state) != NONE
    }
}
