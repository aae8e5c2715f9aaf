// Reads a text with rewards line by line.
ghost use Rattle.std.specs.Prelude.{◌≡◌, ◌==◌, ℕ, List, [], None, length, OnOk};
ghost use Rattle.std.specs.List.{list_any};
ghost use Rattle.lift_bytes.specs.Bytes.{code};
ghost use Rattle.drn_lexer.specs.Lines.{TextLine};
ghost use Rattle.drn_read.specs.Faults.{reported};
ghost use Rattle.drn_read.specs.RewardLines.{words_rewards_fault};
ghost use Rattle.drn_read.specs.Costs.{cost_said, cost_line_fault};
ghost use Rattle.drn_read.specs.CostKeeping.{with_reward_words, with_cost_line};
ghost use Rattle.drn_read.specs.Shown.{TellsLine, IsSource, left};

use crate::cursor::Cursor;
use crate::error::{DrnCause, DrnError};
use crate::model_lines::{is_transition, on_line};
use crate::reader::Reader;
use crate::reward_reader::RewardReader;
use crate::section::Phase;
use crate::text::is_head;
use std::alloc::Global;

/// What the lines so far have said, with their rewards.
#[derive(Drop)]
pub(crate) struct CostReader<'t> {
    pub reader: Reader,
    pub rewards: RewardReader<'t>,
}

impl<'t> std::marker::Model for CostReader<'t> {
    ghost use Rattle.drn_read.specs.Costs.{CostSaid};

    ghost Value = { CostSaid };

    ghost view = { λ r. record { said = r.reader; rewards = r.rewards } };
}

/// Whether a group may begin on a line that says this.
fn has_bracket(content: &[u8]) -> bool
    ensures { result ≡ list_any (λ b. b == code "[") content.now }
{
    content.contains(&b'[')
}

impl<'t> CostReader<'t> {
    /// Nothing was read yet. It takes no memory.
    pub fn new(alloc: Global, reward: &'t [u8]) -> CostReader<'t>
        ensures { (label : List ℕ)
            → result ≡ cost_said (record { label = label; reward = reward.now }) [] }
    {
        CostReader {
            reader: Reader::new(alloc),
            rewards: RewardReader::new(alloc, reward),
        }
    }

    /// Reads the list of rewards' names, or a line that begins a section in its place.
    fn read_list(&mut self, label: &[u8], line: Cursor<'t>) -> Result<(), DrnError>
        requires { self.old.said.header.phase ≡ Phase.RewardList }
        ensures fault { (source : TextLine) → IsSource line.entry source
            → TellsLine result (cost_line_fault self.old source) }
        ensures after { OnOk result ((source : TextLine) → IsSource line.entry source
            → self.new ≡ with_cost_line label.now self.old source) }
    {
        if !is_head(line.rest()) {
            on_line(line.line.number, self.rewards.read_names(line))?;
        }
        self.reader.read_line(label, line)
    }

    /// Tests the rewards of a line of the model that the reading reaches. A line without a bracket
    /// takes one look.
    fn test_line(&self, line: Cursor<'_>) -> Result<(), DrnError>
        ensures { let r = self.now in
            let count = length r.rewards.names in
            (source : TextLine) → line.entry.line.number ≡ source.number → TellsLine result
            (reported source.number (words_rewards_fault count r.said.header r.said.states (left line.entry))) }
    {
        if !has_bracket(line.rest()) {
            return Ok(());
        }
        let reader = &self.reader;
        on_line(
            line.line.number,
            self.rewards.test_line(&reader.header, &reader.model, line),
        )
    }

    /// Keeps the cost of the state that a line of the model begins, if it begins one.
    fn add_line(&mut self, line: Cursor<'_>) -> Result<(), DrnError>
        ensures fault { TellsLine result None }
        ensures after { OnOk result (self.new
            ≡ record self.old { rewards = with_reward_words self.old.rewards (left line.entry) }) }
    {
        match self.rewards.add_line(line) {
            Ok(()) => Ok(()),
            Err(_) => Err(DrnError {
                line: line.line.number,
                cause: DrnCause::Memory,
            }),
        }
    }

    /// Reads a line of the model. A transition has no rewards.
    fn read_model_line(&mut self, label: &[u8], line: Cursor<'t>) -> Result<(), DrnError>
        requires { self.old.said.header.phase ≡ Phase.Model }
        ensures fault { (source : TextLine) → IsSource line.entry source
            → TellsLine result (cost_line_fault self.old source) }
        ensures after { OnOk result ((source : TextLine) → IsSource line.entry source
            → self.new ≡ with_cost_line label.now self.old source) }
    {
        if is_transition(line.rest()) {
            return self.reader.read_line(label, line);
        }
        self.test_line(line)?;
        self.reader.read_line(label, line)?;
        self.add_line(line)
    }

    /// Reads a line that is no comment, for a goal's label.
    pub fn read_line(&mut self, label: &[u8], line: Cursor<'t>) -> Result<(), DrnError>
        ensures fault { (source : TextLine) → IsSource line.entry source
            → TellsLine result (cost_line_fault self.old source) }
        ensures after { OnOk result ((source : TextLine) → IsSource line.entry source
            → self.new ≡ with_cost_line label.now self.old source) }
    {
        match self.reader.header.phase() {
            Phase::RewardList => self.read_list(label, line),
            Phase::Model => self.read_model_line(label, line),
            _ => self.reader.read_line(label, line),
        }
    }
}
