//! Which precision is tried next, while the least one that decides is looked for. Nothing that is decided rests on it.

ghost use Rattle.std.specs.Prelude.{◌<◌, ◌≤◌};
ghost use Rattle.corner_lift.specs.Case.{most_precision};

use crate::sought::Sought;

/// Of how many precisions below one that decides an error tells.
const NEAR: u32 = 3;

/// How far the initial state's number at a leaf's precision was from its number at the case's own, rounded to that
/// precision, in units of the last place: of the last leaf of each kind.
#[derive(Clone, Copy)]
pub(crate) struct Errors {
    accepted: Option<i64>,
    rejected: Option<i64>,
}

impl Errors {
    /// None is known.
    pub(crate) const NONE: Errors = Errors {
        accepted: None,
        rejected: None,
    };

    /// That of a kind, or of the other one where none is known.
    pub(crate) fn of(self, accepts: bool) -> Option<i64> {
        let (own, other) = if accepts {
            (self.accepted, self.rejected)
        } else {
            (self.rejected, self.accepted)
        };
        own.or(other)
    }

    /// Keeps that of a kind.
    pub(crate) fn keep(&mut self, accepts: bool, error: Option<i64>) {
        if accepts {
            self.accepted = error;
        } else {
            self.rejected = error;
        }
    }
}

/// By what a precision is chosen: the side from which a certificate decides a rectangle at the case's precision `w`, and the
/// initial state's number in it.
#[derive(Drop)]
pub(crate) struct Aim<'a, S> {
    pub(crate) sought: &'a S,
    pub(crate) w: u32,
    pub(crate) accepts: bool,
    pub(crate) number: i64,
}

impl<S: Sought> Aim<'_, S> {
    /// The number at the precision `u`, rounded down.
    fn number_at(&self, u: u32) -> i64 {
        let halvings = self.w.saturating_sub(u);
        self.number.checked_shr(halvings).unwrap_or(0)
    }

    /// How far the number found at `u` is from that.
    pub(crate) fn error(&self, u: u32, found: i64) -> i64 {
        let number = self.number_at(u);
        if self.accepts {
            found.saturating_sub(number)
        } else {
            number.saturating_sub(found)
        }
    }

    /// Whether a certificate is to be expected at `u`, with such an error.
    fn expects(&self, error: i64, u: u32) -> bool
        requires { u ≤ most_precision }
    {
        let number = self.number_at(u);
        let limit = self.sought.limit(u);
        if self.accepts {
            number.saturating_add(error) <= limit
        } else {
            number.saturating_sub(error) > limit
        }
    }

    /// The first precision at which that is so, from `low` on, or `high`.
    fn first_expected(&self, error: i64, low: u32, high: u32) -> u32
        requires less { low < high }
        requires most { high ≤ most_precision }
        ensures low { low ≤ result }
        ensures high { result ≤ high }
    {
        for u in low..high {
            if self.expects(error, u) {
                return u;
            }
        }
        high
    }

    /// The precision that is tried next, from `low` on and below `high`: one less than the first at which a
    /// certificate is to be expected, and then that one. Where no error is known it is one in the middle.
    pub(crate) fn next(&self, error: Option<i64>, low: u32, high: u32) -> u32
        requires less { low < high }
        requires most { high ≤ most_precision }
        ensures low { low ≤ result }
        ensures high { result < high }
    {
        match error {
            Some(error) => {
                let u = self.first_expected(error, low, high);
                let is_far = high < self.w && high - u > NEAR;
                if u > low && !is_far { u - 1 } else { u }
            }
            None => {
                let u = self.first_expected(0, low, high);
                if u < high {
                    high - (high - u + 3) / 4
                } else {
                    high - 1
                }
            }
        }
    }

    /// The error that is thought of after `u` was tried in vain.
    pub(crate) fn greater_error(&self, error: Option<i64>, u: u32) -> Option<i64>
        requires { u ≤ most_precision }
    {
        match error {
            Some(error) if self.expects(error, u) => {
                Some(error.saturating_add(error).saturating_add(1))
            }
            _ => error,
        }
    }
}
