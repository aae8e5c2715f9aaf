//! What a state is worth in terms of a later one.

/// In place of a position, where there is no later state.
pub(crate) const NOWHERE: u32 = (1 << 28) - 1;

/// A state leaves its part with the probability `leak`, and else comes to the state at the position `to`. What it
/// leaves for and what is added on the way are worth `gain` together.
#[derive(Clone, Copy)]
pub(crate) struct Step {
    pub(crate) leak: f64,
    pub(crate) gain: f64,
    pub(crate) to: u32,
}

impl Step {
    /// What the state is worth where the later one is worth so much.
    pub(crate) fn worth(self, later: f64) -> f64 {
        self.gain + (1.0 - self.leak) * later
    }

    /// The step to the state that the later one comes to.
    pub(crate) fn then(self, next: Step) -> Step {
        let on = 1.0 - self.leak;
        Step {
            leak: self.leak + on * next.leak,
            gain: self.gain + on * next.gain,
            to: next.to,
        }
    }
}

/// Where an entry of a row leads to.
#[derive(Clone, Copy)]
pub(crate) enum Ahead {
    /// Out of the part, to what is worth so much.
    Out(f64),
    /// To the row's own state.
    Here,
    /// To the state at a later position, which is worth so much now.
    Later(u32, f64),
    /// To an earlier state, and by its step back to the row's own.
    Back(Step),
    /// To an earlier state, and by its step to a later one, which is worth so much now.
    On(Step, f64),
}

/// What a row's weight comes to, once the states at earlier positions are put in. What stays in the row's own
/// state isn't counted, so that nothing is ever taken from 1.
#[derive(Clone, Copy)]
pub(crate) struct Outlook {
    // the weight that leaves the part, and what it is worth there, with what is added on the way
    leaving: f64,
    gain: f64,
    // the weight that comes back by earlier states
    back: f64,
    // the weight that comes to later states, and what it is worth there now
    coming: f64,
    hope: f64,
    // one of them, and whether there are more
    to: u32,
    more: bool,
}

impl Outlook {
    /// That of no weight.
    pub(crate) const NONE: Outlook = Outlook {
        leaving: 0.0,
        gain: 0.0,
        back: 0.0,
        coming: 0.0,
        hope: 0.0,
        to: NOWHERE,
        more: false,
    };

    /// That of a weight that leaves for what is worth the most.
    pub(crate) const MOST: Outlook = Outlook {
        leaving: 1.0,
        gain: 1.0,
        ..Outlook::NONE
    };

    /// With a weight of which such a share leaves the part, which gains so much.
    fn leave(self, weight: f64, leak: f64, gain: f64) -> Outlook {
        let mut next = self;
        next.leaving += weight * leak;
        next.gain += weight * gain;
        next
    }

    /// With so much that is added to the row's sum.
    pub(crate) fn plus(self, added: f64) -> Outlook {
        let mut next = self;
        next.gain += added;
        next
    }

    /// With a weight that comes back to the row's own state by earlier ones.
    fn come_back(self, weight: f64) -> Outlook {
        let mut next = self;
        next.back += weight;
        next
    }

    /// With a weight that comes to the state at a later position, which is worth so much now.
    fn come(self, weight: f64, worth: f64, to: u32) -> Outlook {
        if weight <= 0.0 {
            return self;
        }
        let mut next = self;
        next.coming += weight;
        next.hope += weight * worth;
        next.more = self.more || (self.to != NOWHERE && self.to != to);
        next.to = to;
        next
    }

    /// With a weight that leads there.
    pub(crate) fn with(self, weight: f64, ahead: Ahead) -> Outlook {
        match ahead {
            Ahead::Out(worth) => self.leave(weight, 1.0, worth),
            Ahead::Here => self,
            Ahead::Later(at, worth) => self.come(weight, worth, at),
            Ahead::Back(step) => self
                .leave(weight, step.leak, step.gain)
                .come_back(weight * (1.0 - step.leak)),
            Ahead::On(step, worth) => self
                .leave(weight, step.leak, step.gain)
                .come(weight * (1.0 - step.leak), worth, step.to),
        }
    }

    /// What the row is worth, given what later states are worth now. Where its weight leads nowhere else, that is
    /// without end.
    pub(crate) fn worth(self) -> f64 {
        let all = self.leaving + self.coming;
        if all > 0.0 {
            (self.gain + self.hope) / all
        } else if self.gain > 0.0 {
            1.0
        } else {
            0.0
        }
    }

    /// The row's step, if it comes to one later state at most. Each time that the row is taken brings so
    /// much besides.
    pub(crate) fn step(self, extra: f64) -> Option<Step> {
        if self.more {
            return None;
        }
        let all = self.leaving + self.coming;
        if all <= 0.0 {
            return Some(Step {
                leak: 1.0,
                gain: self.worth(),
                to: NOWHERE,
            });
        }
        Some(Step {
            leak: self.leaving / all,
            gain: (self.gain + extra * (all + self.back)) / all,
            to: self.to,
        })
    }
}
