// The choices of a state, and one more choice or transition.
ghost use Rattle.std.specs.Prelude.{◌≡◌, ◌∷◌, [], IfOk, OnOk, OnErr};
ghost use Rattle.drn_read.specs.Parts.{is_empty};
ghost use Rattle.drn_read.specs.Keeping.{with_choice, with_transitions};

use crate::state::{State, Transition};
use std::alloc::{AllocError, Global};

/// How many transitions a choice has room for at first.
const FIRST_ROOM: usize = 2;

/// A choice without transitions, with room for its first ones.
fn empty_choice(alloc: Global) -> Result<Vec<Transition>, AllocError>
    ensures { IfOk result (λ choice. choice.items ≡ []) }
{
    Vec::with_capacity(alloc, FIRST_ROOM)
}

impl State {
    /// Whether there is no choice yet.
    #[tactic(auto, using(crate::proofs::LastOnes::no_rows))]
    pub fn is_choiceless(&self) -> bool
        ensures { result ≡ is_empty self.now.choices }
    {
        self.choices.is_empty()
    }

    /// One more choice, without transitions. Nothing has changed where memory is wanting.
    pub fn add_choice(&mut self, alloc: Global) -> Result<(), AllocError>
        ensures ok { OnOk result (self.new ≡ with_choice self.old) }
        ensures err { OnErr result (self.new ≡ self.old) }
    {
        self.choices.push(empty_choice(alloc)?)?;
        Ok(())
    }

    /// One more transition of the last choice, which is a first choice where there is none. Nothing
    /// has changed where memory is wanting.
    pub fn add_transition(
        &mut self,
        alloc: Global,
        transition: Transition,
    ) -> Result<(), AllocError>
        ensures ok { OnOk result (self.new ≡ with_transitions (transition ∷ []) self.old) }
        ensures err { OnErr result (self.new ≡ self.old) }
    {
        match self.choices.last_mut() {
            Some(choice) => choice.push(transition)?,
            None => {
                let mut choice = empty_choice(alloc)?;
                choice.push(transition)?;
                self.choices = Vec::from_array(alloc, [choice])?;
            }
        }
        Ok(())
    }
}
