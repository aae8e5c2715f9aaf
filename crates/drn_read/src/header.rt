// Reads the lines before the model.
ghost use Rattle.std.specs.Prelude.{◌≡◌, ◌≤◌, [], length, IfOk, OnOk, if◌then◌else◌};
ghost use Rattle.std.specs.Str.Parse.{digits_value};
ghost use Rattle.drn_lexer.specs.Lines.{TextLine};
ghost use Rattle.lift_model.specs.Valid.{most_parameters};
ghost use Rattle.drn_read.specs.Faults.{fault_of};
ghost use Rattle.drn_read.specs.Sections.{header, section_number, is_same, phase_in, kind_of};
ghost use Rattle.drn_read.specs.Sections.{type_text};
ghost use Rattle.drn_read.specs.Judging.{has, section_fault, head_fault, names_fault, count_fault};
ghost use Rattle.drn_read.specs.Judging.{placeholder_fault, header_fault};
ghost use Rattle.drn_read.specs.Keeping.{with_section, with_head, with_names, with_state_count};
ghost use Rattle.drn_read.specs.Keeping.{with_choice_count, with_placeholder, header_with};
ghost use Rattle.drn_read.specs.Shown.{Tells, IsSource, rest, left};

use crate::cursor::Cursor;
use crate::digits::{MOST_DIGITS, is_digits, number_of};
use crate::error::DrnCause;
use crate::parameters::read_names;
use crate::placeholder_line::read_placeholder_name;
use crate::placeholders::Placeholders;
use crate::section::{Phase, Section, section_of};
use crate::shared::SharedValue;
use crate::text::is_head;
use crate::type_line::kind_in;
use crate::value::value_behind;
use lift_model::Kind;
use lift_names::Names;
use std::alloc::Global;

/// The place of a section in the order of their table.
fn section_number(section: Section) -> u8
    ensures { result ≡ section_number section }
{
    match section {
        Section::ModelType => 0,
        Section::ValueType => 1,
        Section::Parameters => 2,
        Section::RewardModels => 3,
        Section::NrStates => 4,
        Section::NrChoices => 5,
        Section::Placeholders => 6,
        Section::Model => 7,
    }
}

fn is_same(a: Section, b: Section) -> bool
    ensures { result ≡ is_same a b }
{
    section_number(a) == section_number(b)
}

/// What may stand behind the line that begins a section.
fn opened(section: Section) -> Phase
    ensures { result ≡ phase_in section [] }
{
    match section {
        Section::ModelType | Section::ValueType => Phase::Sections,
        Section::Parameters => Phase::NameList,
        Section::RewardModels => Phase::RewardList,
        Section::NrStates => Phase::StateCount,
        Section::NrChoices => Phase::ChoiceCount,
        Section::Placeholders => Phase::Placeholders,
        Section::Model => Phase::Model,
    }
}

/// The number that a line announces: 1 to 20 digits.
fn read_count(line: &[u8]) -> Result<u128, DrnCause>
    ensures fault { fault_of result ≡ count_fault line.now }
    ensures count { IfOk result (λ count. count ≡ digits_value 10 line.now) }
{
    if !is_digits(line) || line.len() > MOST_DIGITS {
        return Err(DrnCause::Syntax);
    }
    number_of(line).ok_or(DrnCause::Syntax)
}

/// What the lines before the model have said so far.
#[derive(Drop)]
pub(crate) struct HeaderReader {
    alloc: Global,
    phase: Phase,
    seen: Vec<Section>,
    kind: Option<Kind>,
    names: Names,
    placeholders: Placeholders,
    state_count: Option<u128>,
    choice_count: Option<u128>,
}

impl std::marker::Model for HeaderReader {
    ghost use Rattle.std.specs.Prelude.{◌≤◌, length};
    ghost use Rattle.lift_model.specs.Valid.{most_parameters};
    ghost use Rattle.drn_read.specs.Sections.{Header};

    ghost Value = { Header };

    ghost view = { λ h. record {
      phase = h.phase;
      seen = h.seen.items;
      kind = h.kind;
      names = h.names;
      placeholders = h.placeholders;
      state_count = h.state_count;
      choice_count = h.choice_count;
    } };

    ghost invariant = { λ h. length h.names ≤ most_parameters };
}

impl HeaderReader {
    /// Nothing was read yet. It takes no memory.
    pub fn new(alloc: Global) -> Self
        ensures { result ≡ header [] }
    {
        HeaderReader {
            alloc,
            phase: Phase::Sections,
            seen: Vec::new(alloc),
            kind: None,
            names: Names::new(alloc),
            placeholders: Placeholders::new(alloc),
            state_count: None,
            choice_count: None,
        }
    }

    /// What may stand next.
    pub fn phase(&self) -> Phase
        ensures { result ≡ self.now.phase }
    {
        self.phase
    }

    /// The type that was named.
    pub fn kind(&self) -> Option<Kind>
        ensures { result ≡ self.now.kind }
    {
        self.kind
    }

    /// The parameters, at most 16.
    pub fn names(&self) -> &Names
        ensures names { result.now ≡ self.now.names }
        ensures few { length self.now.names ≤ most_parameters }
    {
        &self.names
    }

    /// The placeholders.
    pub fn placeholders(&self) -> &Placeholders
        ensures { result.now ≡ self.now.placeholders }
    {
        &self.placeholders
    }

    /// The number of states that was announced.
    pub fn state_count(&self) -> Option<u128>
        ensures { result ≡ self.now.state_count }
    {
        self.state_count
    }

    /// The number of choices that was announced.
    pub fn choice_count(&self) -> Option<u128>
        ensures { result ≡ self.now.choice_count }
    {
        self.choice_count
    }

    /// The parameters, and nothing else is kept.
    pub fn into_names(self) -> Names
        ensures { result ≡ self.names }
    {
        self.names
    }

    /// Whether this section stood there.
    pub fn has(&self, section: Section) -> bool
        ensures { result ≡ has section self.now }
    {
        self.seen.iter().any(|seen| is_same(section, *seen))
    }

    /// Tests a line that begins this section.
    fn test_section(&self, section: Section, line: &[u8]) -> Result<(), DrnCause>
        ensures { fault_of result ≡ section_fault self.now line.now section }
    {
        if self.has(section) {
            return Err(DrnCause::RepeatedSection);
        }
        if is_same(section, Section::ModelType) && kind_in(line).is_none() {
            return Err(DrnCause::UnsupportedType);
        }
        if is_same(section, Section::Model) && !self.has(Section::ModelType) {
            return Err(DrnCause::MissingSection);
        }
        Ok(())
    }

    /// The type behind a line that begins this section.
    fn kind_behind(&self, section: Section, line: &[u8]) -> Option<Kind>
        ensures { result ≡ (if is_same section Section.ModelType
            then kind_of (type_text line.now) else self.now.kind) }
    {
        if is_same(section, Section::ModelType) {
            kind_in(line)
        } else {
            self.kind
        }
    }

    /// Keeps what a line says that begins this section and has no fault.
    fn begin(&mut self, section: Section, line: &[u8]) -> Result<(), DrnCause>
        ensures fault { Tells result None }
        ensures after { OnOk result (self.new ≡ with_section line.now self.old section) }
    {
        self.seen.push(section)?;
        self.kind = self.kind_behind(section, line);
        self.phase = opened(section);
        Ok(())
    }

    /// Reads a line that begins with `@`.
    fn read_head(&mut self, line: &[u8]) -> Result<(), DrnCause>
        ensures fault { Tells result (head_fault self.old line.now) }
        ensures after { OnOk result (self.new ≡ with_head self.old line.now) }
    {
        let section = section_of(line).ok_or(DrnCause::UnknownSection)?;
        self.test_section(section, line)?;
        self.begin(section, line)
    }

    /// Reads the list of parameters.
    fn read_name_list(&mut self, words: Cursor<'_>) -> Result<(), DrnCause>
        ensures fault { Tells result (names_fault self.old.names (left words.entry)) }
        ensures after { OnOk result (self.new ≡ with_names self.old (rest words.entry)) }
    {
        read_names(&mut self.names, words)?;
        self.phase = Phase::Sections;
        Ok(())
    }

    /// Passes over the list of reward models.
    fn pass_rewards(&mut self)
        ensures { self.new ≡ record self.old { phase = Phase.Sections } }
    {
        self.phase = Phase::Sections;
    }

    /// Reads the line of the number of states.
    fn read_state_count(&mut self, line: &[u8]) -> Result<(), DrnCause>
        ensures fault { fault_of result ≡ count_fault line.now }
        ensures after { OnOk result (self.new ≡ with_state_count self.old line.now) }
    {
        self.state_count = Some(read_count(line)?);
        self.phase = Phase::Sections;
        Ok(())
    }

    /// Reads the line of the number of choices.
    fn read_choice_count(&mut self, line: &[u8]) -> Result<(), DrnCause>
        ensures fault { fault_of result ≡ count_fault line.now }
        ensures after { OnOk result (self.new ≡ with_choice_count self.old line.now) }
    {
        self.choice_count = Some(read_count(line)?);
        self.phase = Phase::Sections;
        Ok(())
    }

    /// Reads a placeholder's line.
    fn read_placeholder(&mut self, line: Cursor<'_>) -> Result<(), DrnCause>
        ensures fault { Tells result (placeholder_fault self.old (rest line.entry)) }
        ensures after { OnOk result (self.new ≡ with_placeholder self.old (rest line.entry)) }
    {
        let name = read_placeholder_name(&self.placeholders, line.rest())?;
        let value = value_behind(self.alloc, line.forward(1 + name.len()), &self.names)?;
        self.placeholders
            .push(name, SharedValue::new(self.alloc, value)?)?;
        Ok(())
    }

    /// Reads the next line, which stands before the model, and keeps what it says. An error names
    /// the line's first fault, and after it the reader is of no more use. Linear in the line: no
    /// earlier line is gone over again.
    pub fn read_line(&mut self, line: Cursor<'_>) -> Result<(), DrnCause>
        ensures fault { (source : TextLine) → IsSource line.entry source
            → Tells result (header_fault self.old source) }
        ensures after { OnOk result ((source : TextLine) → IsSource line.entry source
            → self.new ≡ header_with self.old source) }
    {
        let content = line.rest();
        match self.phase {
            Phase::StateCount | Phase::ChoiceCount if content.is_empty() => Ok(()),
            Phase::StateCount => self.read_state_count(content),
            Phase::ChoiceCount => self.read_choice_count(content),
            _ if is_head(content) => self.read_head(content),
            Phase::NameList => self.read_name_list(line),
            Phase::RewardList => {
                self.pass_rewards();
                Ok(())
            }
            _ if content.is_empty() => Ok(()),
            Phase::Placeholders => self.read_placeholder(line),
            Phase::Sections | Phase::Model => Err(DrnCause::Syntax),
        }
    }
}
