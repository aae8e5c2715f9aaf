//! What a visit of a state adds to its number, where numbers stand for costs.

ghost use Rattle.std.specs.Prelude.{◌≡◌, ◌≤◌};
ghost use Rattle.corner_lift.specs.Case.{most_precision};
ghost use Rattle.float_guess.specs.Reward.{reward};

use corner_lift::one_at;
use lift_costs::Costs;

/// What a visit of each state costs, where 1 stands for the cost `cap`.
#[derive(Clone, Copy)]
pub struct Rewards<'a> {
    /// The costs.
    pub costs: &'a Costs,
    /// The cap.
    pub cap: u32,
    ghost some: { 1 ≤ cap },
}

impl Rewards<'_> {
    /// The reward of a state: its cost over the cap, as a number of which 2 to the `w` stands for 1, rounded up.
    pub fn of(&self, w: u32, s: u32) -> u128
        requires { w ≤ most_precision }
        ensures { result ≡ reward w self.now.costs.now self.now.cap s }
    {
        if s as usize >= self.costs.len() {
            return 0;
        }
        let (num, den) = self.costs.get(s);
        let due = num as u128 * one_at(w) as u128;
        let whole = den as u128 * i64::from(self.cap) as u128;
        match (u64::try_from(due), u64::try_from(whole)) {
            (Ok(due), Ok(whole)) => u128::from(due.div_ceil(whole)),
            _ => due.div_ceil(whole),
        }
    }
}
