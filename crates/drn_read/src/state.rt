use crate::shared::SharedValue;
use std::marker::Model;

/// A transition of a choice: its line, its target and its value.
#[derive(Drop)]
pub struct Transition {
    pub line: u32,
    pub target: u128,
    pub value: SharedValue,
}

/// A state: its line, whether it carries `init` and whether the goal's label, and its choices.
#[derive(Drop)]
pub(crate) struct State {
    pub line: u32,
    pub init: bool,
    pub goal: bool,
    pub choices: Vec<Vec<Transition>>,
}

impl Model for State {
    ghost use Rattle.std.specs.Prelude.{map};
    ghost use Rattle.drn_read.specs.States.{StateText};

    ghost Value = { StateText };

    ghost view = { λ s. record {
      line = s.line;
      init = s.init;
      goal = s.goal;
      choices = map (λ row. row.items) s.choices.items;
    } };
}
