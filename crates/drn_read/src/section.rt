ghost use Rattle.std.specs.Prelude.{◌≡◌};
ghost use Rattle.drn_read.specs.Sections.{section_of};

/// A section of a model text.
#[derive(Clone, Copy)]
pub enum Section {
    /// `@type:` and the model's type behind it.
    ModelType,
    /// `@value_type:` and any text.
    ValueType,
    /// `@parameters`, and a line with their names.
    Parameters,
    /// `@reward_models`, and a line with their names.
    RewardModels,
    /// `@nr_states`, and a line with their number.
    NrStates,
    /// `@nr_choices`, and a line with their number.
    NrChoices,
    /// `@placeholders`, and a line for each.
    Placeholders,
    /// `@model`, and the model up to the end of the text.
    Model,
}

/// What may stand next in a model text.
#[derive(Clone, Copy)]
pub enum Phase {
    /// A section.
    Sections,
    /// The names of the parameters, or a section.
    NameList,
    /// The names of the reward models, or a section.
    RewardList,
    /// The number of states.
    StateCount,
    /// The number of choices.
    ChoiceCount,
    /// A placeholder, or a section.
    Placeholders,
    /// A line of the model.
    Model,
}

/// The section that a line which begins with `@` begins, if there is one.
pub(crate) fn section_of(content: &[u8]) -> Option<Section>
    ensures { result ≡ section_of content.now }
{
    if content.starts_with(b"@type:") {
        Some(Section::ModelType)
    } else if content.starts_with(b"@value_type:") {
        Some(Section::ValueType)
    } else if content == b"@parameters".as_slice() {
        Some(Section::Parameters)
    } else if content == b"@reward_models".as_slice() {
        Some(Section::RewardModels)
    } else if content == b"@nr_states".as_slice() {
        Some(Section::NrStates)
    } else if content == b"@nr_choices".as_slice() {
        Some(Section::NrChoices)
    } else if content == b"@placeholders".as_slice() {
        Some(Section::Placeholders)
    } else if content == b"@model".as_slice() {
        Some(Section::Model)
    } else {
        None
    }
}
