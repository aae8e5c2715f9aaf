//! Chains, which have one scheduler.

ghost use Rattle.std.specs.Prelude.{◌≡◌, ◌<◌, length, if◌then◌else◌};
ghost use Rattle.lift_model.specs.Model.{is_goal};
ghost use Rattle.corner_lift.specs.Certificate.{unmarked};
ghost use Rattle.lift_dual.specs.Chains.{AreFirstChoices};

use crate::ranks::NONE;
use lift_model::Model;

/// The first choice of a state, and none where it is a goal state.
fn first_choice(model: &Model, s: u32) -> u32
    requires { s < length model.now.states }
    ensures { result ≡ (if is_goal model.now s then unmarked else 0) }
{
    if model.is_goal(s) { NONE } else { 0 }
}

/// Leaves in `picks` the first choice of each state that is no goal state, and `u32::MAX` for goal states: in a chain
/// there is no other choice. What `picks` holds at entry is free.
pub fn choose_first(model: &Model, picks: &mut [u32])
    requires { length picks.old ≡ length model.now.states }
    ensures { AreFirstChoices model.now picks.new }
{
    for s in 0..model.states() {
        picks[s as usize] = first_choice(model, s);
    }
}
