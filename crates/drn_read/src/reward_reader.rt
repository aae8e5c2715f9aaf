// What the lines of a text say of rewards.
ghost use Rattle.std.specs.Prelude.{◌≡◌, ◌≤ℤ◌, pos, ◌++◌, ◌∷◌, [], length, is_some, OnOk};
ghost use Rattle.std.specs.Option.{option_map, option_and_then};
ghost use Rattle.lift_frac.specs.Frac.{ratio_of};
ghost use Rattle.lift_costs.specs.Costs.{cost};
ghost use Rattle.drn_read.specs.Faults.{fault_of};
ghost use Rattle.drn_read.specs.Rewards.{reward_name_fault, reward_names_fault, reward_name};
ghost use Rattle.drn_read.specs.Rewards.{rewards_fault};
ghost use Rattle.drn_read.specs.RewardLines.{words_rewards_fault};
ghost use Rattle.drn_read.specs.Costs.{place_of, cost_in};
ghost use Rattle.drn_read.specs.CostKeeping.{with_reward_names, with_reward_words};
ghost use Rattle.drn_read.specs.Shown.{Tells, left, piece};

use crate::cursor::{Cursor, LineWord};
use crate::error::DrnCause;
use crate::header::HeaderReader;
use crate::labels::is_closed;
use crate::model_lines::ModelReader;
use crate::owner::Owner;
use crate::reward_group::{test_rewards, value_at};
use crate::reward_words::{behind_word, state_rewards};
use drn_lexer::{WordForm, unquoted};
use lift_costs::Costs;
use lift_frac::Frac;
use std::alloc::{AllocError, Global};

/// The names of rewards that were declared so far, and the costs of the states: their values of the
/// reward that is asked for.
#[derive(Drop)]
pub(crate) struct RewardReader<'t> {
    alloc: Global,
    asked: &'t [u8],
    names: Vec<&'t [u8]>,
    place: Option<usize>,
    costs: Costs,
}

impl<'t> std::marker::Model for RewardReader<'t> {
    ghost use Rattle.std.specs.Prelude.{◌≡◌, map};
    ghost use Rattle.drn_read.specs.Costs.{Rewards, place_of};

    ghost Value = { Rewards };

    ghost view = { λ r. record {
      asked = r.asked.now;
      names = map (λ name. name.now) r.names.items;
      costs = r.costs;
    } };

    ghost invariant = { λ r. r.place ≡ place_of (record {
      asked = r.asked.now;
      names = map (λ name. name.now) r.names.items;
      costs = r.costs;
    }) };
}

/// Tests a word of the list of names.
fn test_reward_name(word: LineWord<'_>) -> Result<(), DrnCause>
    ensures { fault_of result ≡ reward_name_fault (piece word.entry) }
{
    match word.form {
        WordForm::Group if !is_closed(word) => Err(DrnCause::Syntax),
        _ => Ok(()),
    }
}

impl<'t> RewardReader<'t> {
    /// Nothing was read yet. It takes no memory.
    pub fn new(alloc: Global, asked: &'t [u8]) -> RewardReader<'t>
        ensures { result ≡ record { asked = asked.now; names = []; costs = [] } }
    {
        RewardReader {
            alloc,
            asked,
            names: Vec::new(alloc),
            place: None,
            costs: Costs::new(alloc),
        }
    }

    /// Whether the reward that is asked for was declared.
    pub fn is_known(&self) -> bool
        ensures { result ≡ is_some (place_of self.now) }
    {
        self.place.is_some()
    }

    /// The costs alone.
    pub fn into_costs(self) -> Costs
        ensures { result ≡ self.entry.costs }
    {
        self.costs
    }

    /// One more name.
    fn add_name(&mut self, name: &'t [u8]) -> Result<(), AllocError>
        ensures { OnOk result (self.new ≡ record self.old { names = self.old.names ++ name.now ∷ [] }) }
    {
        self.names.push(name)?;
        if self.place.is_none() && name == self.asked {
            self.place = Some(self.names.len() - 1);
        }
        Ok(())
    }

    /// Reads the list of names.
    pub fn read_names(&mut self, words: Cursor<'t>) -> Result<(), DrnCause>
        ensures fault { Tells result (reward_names_fault (left words.entry)) }
        ensures after { OnOk result (self.new ≡ with_reward_names self.old (left words.entry)) }
    {
        let mut words = words;
        while let Some(word) = words.next_word()? {
            test_reward_name(word)?;
            self.add_name(unquoted(word.form, word.bytes))?;
        }
        Ok(())
    }

    /// Tests the rewards of a state or an action, if there are any.
    fn test(&self, owner: Owner, group: Option<&[u8]>) -> Result<(), DrnCause>
        ensures { let found = option_map (λ group. group.now) group.entry in
            Tells result (option_and_then (rewards_fault (length self.now.names) owner) found) }
    {
        match group {
            Some(group) => test_rewards(self.alloc, self.names.len(), owner, group),
            None => Ok(()),
        }
    }

    /// Tests the rewards of a line of the model that the reading reaches, where these are the states
    /// before it.
    pub fn test_line(
        &self,
        header: &HeaderReader,
        model: &ModelReader,
        line: Cursor<'_>,
    ) -> Result<(), DrnCause>
        ensures { let count = length self.now.names in
            Tells result (words_rewards_fault count header.now model.now (left line.entry)) }
    {
        if let Some(words) = behind_word(line, b"state") {
            self.test(Owner::State, model.reached_in_state(words))
        } else if let Some(words) = behind_word(line, b"action") {
            self.test(Owner::Action, model.reached_in_action(header.kind(), words))
        } else {
            Ok(())
        }
    }

    /// The cost in these rewards, 0 without them.
    fn cost_in(&self, group: Option<&[u8]>) -> Frac
        ensures value { cost (ratio_of result)
            ≡ cost_in (place_of self.now) (option_map (λ group. group.now) group.entry) }
        ensures sign { pos 0 ≤ℤ result.num }
    {
        match (self.place, group) {
            (Some(place), Some(group)) => value_at(group, place),
            _ => Frac::whole(0),
        }
    }

    /// Keeps the cost of the state that a line of the model begins, if it begins one.
    pub fn add_line(&mut self, line: Cursor<'_>) -> Result<(), AllocError>
        ensures { OnOk result (self.new ≡ with_reward_words self.old (left line.entry)) }
    {
        if let Some(words) = behind_word(line, b"state") {
            let cost = self.cost_in(state_rewards(words));
            self.costs.push(cost)?;
        }
        Ok(())
    }
}
