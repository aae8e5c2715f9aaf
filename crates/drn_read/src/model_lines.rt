// Reads the lines of the model.
ghost use Rattle.std.specs.Prelude.{◌≤◌, ◌≡◌, ◌==◌, ◌<◌, ◌++◌, ◌∷◌, [], None, drop, false, is_some};
ghost use Rattle.std.specs.Prelude.{length, OnOk, OnErr};
ghost use Rattle.std.specs.Option.{option_copied, option_map};
ghost use Rattle.drn_lexer.specs.Lines.{TextLine};
ghost use Rattle.lift_model.specs.Valid.{most_states, most_choices};
ghost use Rattle.drn_read.specs.Faults.{first_of, fault_of, reported};
ghost use Rattle.drn_read.specs.Parts.{last, is_empty};
ghost use Rattle.drn_read.specs.States.{is_transition, target_of, entry_value};
ghost use Rattle.drn_read.specs.Judging.{model_fault, words_fault, transition_fault, target_fault};
ghost use Rattle.drn_read.specs.Judging.{action_fault, state_fault, choiceless, open_choice};
ghost use Rattle.drn_read.specs.Judging.{choice_count, is_chain, choice_fault, room_fault};
ghost use Rattle.drn_read.specs.Keeping.{states_with, on_last, with_choice, with_transitions};
ghost use Rattle.drn_read.specs.RewardLines.{reached_in_action, reached_in_state};
ghost use Rattle.drn_read.specs.Shown.{Tells, TellsLine, IsSource, rest, left, piece};
ghost use Rattle.drn_read.specs.Recent.{AreKnown};
ghost use Rattle.drn_read.specs.ModelSteps.{on_line, transition_at, new_state, words_with};

use crate::cursor::{Cursor, LineWord};
use crate::entry::transition_front;
use crate::error::{DrnCause, DrnError};
use crate::header::HeaderReader;
use crate::known::KnownValues;
use crate::labels::{Labels, read_action, read_state, test_number};
use crate::last::test_last_state;
use crate::reward_words::{action_rewards, rewards_at};
use crate::state::{State, Transition};
use crate::targets::Targets;
use crate::text::is_head;
use lift_model::Kind;
use std::alloc::{AllocError, Global};

/// How many choices a model may have.
const MOST_CHOICES: usize = 131_072;

/// How many transitions a model may have.
const MOST_TRANSITIONS: usize = 262_144;

/// The states of the model that were read so far, and the targets of the last choice.
#[derive(Drop)]
pub(crate) struct ModelReader {
    alloc: Global,
    states: Vec<State>,
    choices: usize,
    transitions: usize,
    targets: Targets,
}

impl std::marker::Model for ModelReader {
    ghost use Rattle.std.specs.Prelude.{List};
    ghost use Rattle.drn_read.specs.States.{StateText};
    ghost use Rattle.drn_read.specs.ModelSteps.{IsKept};

    ghost Value = { List StateText };

    ghost view = { λ m. m.states.items };

    ghost invariant = { λ m. IsKept m.states.items m.choices m.transitions m.targets };
}

/// Whether a state of such a model has one choice.
fn is_chain(kind: Option<Kind>) -> bool
    ensures { result ≡ is_chain kind }
{
    match kind {
        Some(Kind::Mdp) => false,
        _ => true,
    }
}

/// Whether a line that says this is a transition.
pub(crate) fn is_transition(content: &[u8]) -> bool
    ensures { result ≡ is_transition content.now }
{
    match content {
        [first, ..] => first.is_ascii_digit(),
        [] => false,
    }
}

/// The same outcome, whose fault is told of this line.
pub(crate) fn on_line(line: u32, outcome: Result<(), DrnCause>) -> Result<(), DrnError>
    ensures { result ≡ on_line line outcome }
{
    match outcome {
        Ok(()) => Ok(()),
        Err(cause) => Err(DrnError { line, cause }),
    }
}

/// One more choice of the last state. Nothing has changed where memory is wanting.
fn push_choice(states: &mut Vec<State>, alloc: Global) -> Result<(), AllocError>
    requires { is_empty states.old.items ≡ false }
    ensures ok { OnOk result (states.new.items ≡ on_last with_choice states.old.items) }
    ensures err { OnErr result (states.new.items ≡ states.old.items) }
{
    let last = states.len() - 1;
    states[last].add_choice(alloc)
}

/// One more transition of the last state. Nothing has changed where memory is wanting.
fn push_transition(
    states: &mut Vec<State>,
    alloc: Global,
    transition: Transition,
) -> Result<(), AllocError>
    requires { is_empty states.old.items ≡ false }
    ensures ok { OnOk result (states.new.items
        ≡ on_last (with_transitions (transition ∷ [])) states.old.items) }
    ensures err { OnErr result (states.new.items ≡ states.old.items) }
{
    let last = states.len() - 1;
    states[last].add_transition(alloc, transition)
}

/// The same with its target.
fn push_both(
    targets: &mut Targets,
    states: &mut Vec<State>,
    alloc: Global,
    transition: Transition,
) -> Result<(), AllocError>
    requires { is_empty states.old.items ≡ false }
    ensures targets { OnOk result (targets.new ≡ targets.old ++ transition.target ∷ []) }
    ensures states { OnOk result (states.new.items
        ≡ on_last (with_transitions (transition ∷ [])) states.old.items) }
{
    targets.push(transition.target)?;
    push_transition(states, alloc, transition)
}

impl ModelReader {
    /// No state was read yet. It takes no memory.
    pub fn new(alloc: Global) -> Self
        ensures { result ≡ [] }
    {
        ModelReader {
            alloc,
            states: Vec::new(alloc),
            choices: 0,
            transitions: 0,
            targets: Targets::new(alloc),
        }
    }

    /// The states.
    pub fn states(&self) -> &[State]
        ensures { result.now ≡ self.now }
    {
        &self.states
    }

    /// How many choices they have together.
    pub fn choices(&self) -> usize
        ensures { result ≡ choice_count self.now }
    {
        self.choices
    }

    /// The states alone.
    pub fn into_states(self) -> Vec<State>
        ensures states { result.items ≡ self }
        ensures few { length result.items ≤ most_states }
    {
        self.states
    }

    /// The last state.
    #[tactic(auto, using(crate::proofs::LastOnes::last_is))]
    fn last_state(&self) -> Option<&State>
        ensures { option_copied result ≡ last self.now }
    {
        self.states.last()
    }

    /// Whether the last state has a choice.
    #[tactic(auto, using(crate::proofs::LastOnes::has_choice, crate::proofs::LastOnes::has_no_choice))]
    fn has_choice(&self) -> bool
        ensures { result ≡ is_some (open_choice self.now) }
    {
        match self.last_state() {
            Some(state) => !state.is_choiceless(),
            None => false,
        }
    }

    /// A target begins the first choice of its state, or is a new one of the last choice.
    fn test_target(&self, target: u128) -> Result<(), DrnCause>
        ensures { fault_of result ≡ target_fault self.now target }
    {
        if self.has_choice() {
            if self.targets.contains(target) {
                return Err(DrnCause::RepeatedTarget);
            }
        } else if self.choices == MOST_CHOICES {
            return Err(DrnCause::LimitChoices);
        }
        Ok(())
    }

    /// There is room for a transition to this target.
    fn test_room(&self, target: u128) -> Result<(), DrnCause>
        ensures { fault_of result ≡ room_fault self.now target }
    {
        self.test_target(target)?;
        if self.transitions == MOST_TRANSITIONS {
            return Err(DrnCause::LimitTransitions);
        }
        Ok(())
    }

    /// There is room for one more choice.
    fn test_choice(&self, kind: Option<Kind>) -> Result<(), DrnCause>
        ensures { fault_of result ≡ choice_fault kind self.now }
    {
        if self.states.is_empty() {
            return Err(DrnCause::Syntax);
        }
        if is_chain(kind) && self.has_choice() {
            return Err(DrnCause::ExtraChoice);
        }
        if self.choices == MOST_CHOICES {
            return Err(DrnCause::LimitChoices);
        }
        Ok(())
    }

    /// The rewards of an action that the reading reaches, by the words behind `action`.
    pub fn reached_in_action<'t>(&self, kind: Option<Kind>, words: Cursor<'t>) -> Option<&'t [u8]>
        ensures { option_map (λ group. group.now) result
            ≡ reached_in_action kind self.now (left words.entry) }
    {
        if self.test_choice(kind).is_err() {
            return None;
        }
        action_rewards(words)
    }

    /// The rewards of a state that the reading reaches, by the words behind `state`.
    pub fn reached_in_state<'t>(&self, words: Cursor<'t>) -> Option<&'t [u8]>
        ensures { option_map (λ group. group.now) result
            ≡ reached_in_state self.now (left words.entry) }
    {
        let mut words = words;
        let Ok(Some(number)) = words.next_word() else {
            return None;
        };
        if test_last_state(&self.states).is_err()
            || test_number(self.states.len(), number).is_err()
        {
            return None;
        }
        rewards_at(words)
    }

    /// One more state, of this line and without choice.
    fn add_state(&mut self, line: u32, labels: Labels) -> Result<(), AllocError>
        requires { length self.old < most_states }
        ensures { OnOk result (self.new
            ≡ self.old
            ++ record { line = line; init = labels.init; goal = labels.goal; choices = [] } ∷ []) }
    {
        self.states.push(State {
            line,
            init: labels.init,
            goal: labels.goal,
            choices: Vec::new(self.alloc),
        })?;
        self.targets.clear();
        Ok(())
    }

    /// One more choice of the last state.
    fn add_choice(&mut self) -> Result<(), AllocError>
        requires some { is_empty self.old ≡ false }
        requires room { choice_count self.old < most_choices }
        ensures { OnOk result (self.new ≡ on_last with_choice self.old) }
    {
        push_choice(&mut self.states, self.alloc)?;
        self.choices += 1;
        self.targets.clear();
        Ok(())
    }

    /// One more transition of the last state. Where memory is wanting, nothing is kept any more.
    fn add_transition(&mut self, transition: Transition) -> Result<(), AllocError>
        requires some { is_empty self.old ≡ false }
        requires room { room_fault self.old transition.target ≡ None }
        ensures { OnOk result (self.new ≡ on_last (with_transitions (transition ∷ [])) self.old) }
    {
        let begins_choice = !self.has_choice();
        let pushed = push_both(&mut self.targets, &mut self.states, self.alloc, transition);
        if let Err(error) = pushed {
            self.states.clear();
            self.choices = 0;
            self.transitions = 0;
            self.targets.clear();
            return Err(error);
        }
        self.choices += usize::from(begins_choice);
        self.transitions += 1;
        Ok(())
    }

    /// A transition's line.
    fn read_transition(
        &mut self,
        header: &HeaderReader,
        known: &mut KnownValues,
        line: Cursor<'_>,
    ) -> Result<(), DrnCause>
        requires { AreKnown header.now.names header.now.placeholders known.old.values.items }
        ensures fault { Tells result (transition_fault header.now self.old (rest line.entry)) }
        ensures after { let content = rest line.entry in
            let value = entry_value header.now.names header.now.placeholders content in
            let transition = transition_at line.entry.line.number (target_of content) value in
            OnOk result (self.new ≡ on_last (with_transitions transition) self.old) }
        ensures known { AreKnown header.now.names header.now.placeholders known.new.values.items }
    {
        if self.states.is_empty() {
            return Err(DrnCause::Syntax);
        }
        let Some(front) = transition_front(line) else {
            return Err(DrnCause::Syntax);
        };
        self.test_room(front.target)?;
        let value = known.named_value(
            self.alloc,
            front.value,
            header.names(),
            header.placeholders(),
        )?;
        self.add_transition(Transition {
            line: line.line.number,
            target: front.target,
            value,
        })?;
        Ok(())
    }

    /// The words behind `action`: they begin a choice.
    fn begin_choice(&mut self, header: &HeaderReader, words: Cursor<'_>) -> Result<(), DrnCause>
        ensures fault { Tells result (action_fault header.now self.old (left words.entry)) }
        ensures after { OnOk result (self.new ≡ on_last with_choice self.old) }
    {
        self.test_choice(header.kind())?;
        read_action(words)?;
        self.add_choice()?;
        Ok(())
    }

    /// The words behind `state`, on this line: they begin a state.
    fn begin_state(&mut self, label: &[u8], line: u32, words: Cursor<'_>) -> Result<(), DrnCause>
        ensures fault { Tells result (state_fault (length self.old) (left words.entry)) }
        ensures after { OnOk result (self.new
            ≡ self.old ++ new_state label.now line (drop 1 (left words.entry)) ∷ []) }
    {
        let labels = read_state(self.states.len(), words, label)?;
        self.add_state(line, labels)?;
        Ok(())
    }

    /// The same behind the last state, which has a choice.
    fn close_and_begin_state(
        &mut self,
        label: &[u8],
        line: u32,
        words: Cursor<'_>,
    ) -> Result<(), DrnError>
        ensures fault { (source : TextLine) → line ≡ source.number
            → TellsLine result (first_of (choiceless self.old
            ∷ reported source.number (state_fault (length self.old) (left words.entry)) ∷ [])) }
        ensures after { OnOk result (self.new
            ≡ self.old ++ new_state label.now line (drop 1 (left words.entry)) ∷ []) }
    {
        test_last_state(&self.states)?;
        on_line(line, self.begin_state(label, line, words))
    }

    /// A line that begins a state or a choice, by its first word and those behind it.
    fn read_keyword(
        &mut self,
        header: &HeaderReader,
        label: &[u8],
        line: u32,
        word: LineWord<'_>,
        behind: Cursor<'_>,
    ) -> Result<(), DrnError>
        ensures fault { (source : TextLine) → line ≡ source.number
            → TellsLine result
            (words_fault header.now self.old source (piece word.entry ∷ left behind.entry)) }
        ensures after { OnOk result (self.new
            ≡ words_with label.now self.old line (piece word.entry ∷ left behind.entry)) }
    {
        if word.bytes == b"state".as_slice() {
            self.close_and_begin_state(label, line, behind)
        } else if word.bytes == b"action".as_slice() {
            on_line(line, self.begin_choice(header, behind))
        } else {
            Err(DrnError {
                line,
                cause: DrnCause::Syntax,
            })
        }
    }

    /// A line that begins a state or a choice, by its words.
    fn read_words(
        &mut self,
        header: &HeaderReader,
        label: &[u8],
        line: u32,
        words: Cursor<'_>,
    ) -> Result<(), DrnError>
        ensures fault { (source : TextLine) → line ≡ source.number
            → TellsLine result (words_fault header.now self.old source (left words.entry)) }
        ensures after { OnOk result (self.new
            ≡ words_with label.now self.old line (left words.entry)) }
    {
        let mut words = words;
        match words.next_word() {
            Ok(Some(word)) => self.read_keyword(header, label, line, word, words),
            Ok(None) => Err(DrnError {
                line,
                cause: DrnCause::Syntax,
            }),
            Err(cause) => Err(DrnError { line, cause }),
        }
    }

    /// Reads the next line of the model, for a goal's label. It is refused exactly where it has a
    /// fault, and its first fault is told; `Memory` only where memory is wanting. A name takes one
    /// look-up and a target one search among those of its choice, and the rest is linear in the
    /// line.
    pub fn read_line(
        &mut self,
        header: &HeaderReader,
        known: &mut KnownValues,
        label: &[u8],
        line: Cursor<'_>,
    ) -> Result<(), DrnError>
        requires { AreKnown header.now.names header.now.placeholders known.old.values.items }
        ensures fault { (source : TextLine) → IsSource line.entry source
            → TellsLine result (model_fault header.now self.old source) }
        ensures after { OnOk result ((source : TextLine) → IsSource line.entry source
            → self.new ≡ states_with label.now header.now self.old source) }
        ensures known { AreKnown header.now.names header.now.placeholders known.new.values.items }
    {
        let number = line.line.number;
        let content = line.rest();
        if is_head(content) {
            Err(DrnError {
                line: number,
                cause: DrnCause::UnknownSection,
            })
        } else if content.is_empty() {
            Ok(())
        } else if is_transition(content) {
            on_line(number, self.read_transition(header, known, line))
        } else {
            self.read_words(header, label, number, line)
        }
    }
}
