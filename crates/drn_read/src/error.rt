ghost use Rattle.std.specs.Prelude.{◌≡◌};
ghost use Rattle.drn_read.specs.Faults.{lexed, valued, cause_name, cause_number};
ghost use Rattle.drn_read.specs.declared.error.DrnCause.TheVariants.{Memory};

use drn_expr::ExprError;
use drn_lexer::LexError;
use std::alloc::{AllocError, AllocFailed};

/// Why a model text is refused.
#[derive(Clone, Copy)]
pub enum DrnCause {
    /// A line that isn't a comment holds a byte that is neither a tab nor from 32 to 126.
    NotText,
    /// A line has more than 2^20 bytes without its line feed.
    LongLine,
    /// A word begins with a quote that has no end on its line.
    OpenQuote,
    /// A line, a word or a symbol that doesn't fit where it stands.
    Syntax,
    /// A name in a value that isn't a declared parameter.
    UnknownName,
    /// A `^` in a value.
    Power,
    /// A product whose factors share a parameter.
    SharedParameter,
    /// A divisor that holds a parameter.
    ParametricDivisor,
    /// A divisor that is 0.
    DivisionByZero,
    /// A number in a value that is too large.
    Wide,
    /// More than 64 parentheses and unary minus signs around one place of a value.
    Deep,
    /// A value of more than 4,096 symbols.
    Long,
    /// A type that is neither DTMC nor MDP.
    UnsupportedType,
    /// No `@model`, or no `@type` before it.
    MissingSection,
    /// A section that stands twice.
    RepeatedSection,
    /// A line that begins with `@` and begins no section, or that stands behind `@model`.
    UnknownSection,
    /// A parameter or a placeholder that stands twice.
    RepeatedName,
    /// A placeholder that isn't defined.
    UnknownPlace,
    /// A state whose number isn't the next one.
    StateOrder,
    /// An exit rate on a state's line.
    ExitRate,
    /// An observation on a state's line.
    Observation,
    /// A second choice of a Markov chain's state.
    ExtraChoice,
    /// A state without a choice.
    NoChoice,
    /// A target that stands twice in one choice.
    RepeatedTarget,
    /// More than 65,536 states.
    LimitStates,
    /// More than 131,072 choices.
    LimitChoices,
    /// More than 262,144 transitions.
    LimitTransitions,
    /// More than 65,536 placeholders.
    LimitPlaces,
    /// More than 16 parameters.
    LimitParameters,
    /// A name of more than 64 bytes.
    LimitName,
    /// More than 4 parameters in one value.
    LimitValueParameters,
    /// No state.
    NoState,
    /// A number of states or choices that isn't the one that the text announces.
    CountMismatch,
    /// A target that isn't a state.
    TargetRange,
    /// Not exactly one state carries `init`.
    InitCount,
    /// No state carries the label that was asked for.
    UnknownLabel,
    /// A common denominator of 2^62 or more, or a coefficient over it of size 2^100 or more.
    CommonDenominator,
    /// No memory is left.
    Memory,
    /// No reward has the name that was asked for.
    UnknownReward,
    /// A group that doesn't hold a value for each reward, or a divisor of 0 in it.
    RewardSyntax,
    /// A number in a group of rewards that is too large.
    RewardWide,
    /// An action's reward that isn't 0.
    ActionReward,
}

impl DrnCause {
    /// The name of the cause, as it is told.
    pub fn name(self) -> &'static str
        ensures { result.now ≡ cause_name self }
    {
        match self {
            DrnCause::NotText => "NotText",
            DrnCause::LongLine => "LongLine",
            DrnCause::OpenQuote => "OpenQuote",
            DrnCause::Syntax => "Syntax",
            DrnCause::UnknownName => "UnknownName",
            DrnCause::Power => "Power",
            DrnCause::SharedParameter => "SharedParameter",
            DrnCause::ParametricDivisor => "ParametricDivisor",
            DrnCause::DivisionByZero => "DivisionByZero",
            DrnCause::Wide => "Wide",
            DrnCause::Deep => "Deep",
            DrnCause::Long => "Long",
            DrnCause::UnsupportedType => "UnsupportedType",
            DrnCause::MissingSection => "MissingSection",
            DrnCause::RepeatedSection => "RepeatedSection",
            DrnCause::UnknownSection => "UnknownSection",
            DrnCause::RepeatedName => "RepeatedName",
            DrnCause::UnknownPlace => "UnknownPlace",
            DrnCause::StateOrder => "StateOrder",
            DrnCause::ExitRate => "ExitRate",
            DrnCause::Observation => "Observation",
            DrnCause::ExtraChoice => "ExtraChoice",
            DrnCause::NoChoice => "NoChoice",
            DrnCause::RepeatedTarget => "RepeatedTarget",
            DrnCause::LimitStates => "LimitStates",
            DrnCause::LimitChoices => "LimitChoices",
            DrnCause::LimitTransitions => "LimitTransitions",
            DrnCause::LimitPlaces => "LimitPlaces",
            DrnCause::LimitParameters => "LimitParameters",
            DrnCause::LimitName => "LimitName",
            DrnCause::LimitValueParameters => "LimitValueParameters",
            DrnCause::NoState => "NoState",
            DrnCause::CountMismatch => "CountMismatch",
            DrnCause::TargetRange => "TargetRange",
            DrnCause::InitCount => "InitCount",
            DrnCause::UnknownLabel => "UnknownLabel",
            DrnCause::CommonDenominator => "CommonDenominator",
            DrnCause::Memory => "Memory",
            DrnCause::UnknownReward => "UnknownReward",
            DrnCause::RewardSyntax => "RewardSyntax",
            DrnCause::RewardWide => "RewardWide",
            DrnCause::ActionReward => "ActionReward",
        }
    }

    /// The number of the cause, from 1 to 26. Causes of one kind share theirs.
    pub fn number(self) -> u32
        ensures { result ≡ cause_number self }
    {
        match self {
            DrnCause::NotText | DrnCause::LongLine | DrnCause::OpenQuote => 1,
            DrnCause::UnknownName
            | DrnCause::Power
            | DrnCause::SharedParameter
            | DrnCause::ParametricDivisor
            | DrnCause::DivisionByZero
            | DrnCause::Wide
            | DrnCause::Deep
            | DrnCause::Long => 2,
            DrnCause::Syntax => 3,
            DrnCause::UnsupportedType => 4,
            DrnCause::MissingSection => 5,
            DrnCause::RepeatedSection => 6,
            DrnCause::UnknownSection => 7,
            DrnCause::RepeatedName => 8,
            DrnCause::UnknownPlace => 9,
            DrnCause::StateOrder => 10,
            DrnCause::ExitRate | DrnCause::Observation => 11,
            DrnCause::ExtraChoice => 12,
            DrnCause::NoChoice => 13,
            DrnCause::RepeatedTarget => 14,
            DrnCause::LimitStates
            | DrnCause::LimitChoices
            | DrnCause::LimitTransitions
            | DrnCause::LimitPlaces
            | DrnCause::LimitParameters
            | DrnCause::LimitName
            | DrnCause::LimitValueParameters => 15,
            DrnCause::NoState => 16,
            DrnCause::CountMismatch => 17,
            DrnCause::TargetRange => 18,
            DrnCause::InitCount => 19,
            DrnCause::UnknownLabel => 20,
            DrnCause::CommonDenominator => 21,
            DrnCause::Memory => 22,
            DrnCause::UnknownReward => 23,
            DrnCause::RewardSyntax => 24,
            DrnCause::RewardWide => 25,
            DrnCause::ActionReward => 26,
        }
    }
}

/// Where and why a model text is refused. Lines are numbered from 1; the empty text has line 0
/// alone.
#[derive(Clone, Copy)]
pub struct DrnError {
    pub line: u32,
    pub cause: DrnCause,
}

impl From<LexError> for DrnCause {
    ghost from_gives = { λ fault cause. cause ≡ lexed fault };

    fn from(fault: LexError) -> Self {
        match fault {
            LexError::NotText => DrnCause::NotText,
            LexError::LongLine => DrnCause::LongLine,
            LexError::OpenQuote => DrnCause::OpenQuote,
        }
    }
}

impl From<ExprError> for DrnCause {
    ghost from_gives = { λ fault cause. cause ≡ valued fault };

    fn from(fault: ExprError) -> Self {
        match fault {
            ExprError::Syntax => DrnCause::Syntax,
            ExprError::UnknownName => DrnCause::UnknownName,
            ExprError::Power => DrnCause::Power,
            ExprError::SharedParameter => DrnCause::SharedParameter,
            ExprError::ParametricDivisor => DrnCause::ParametricDivisor,
            ExprError::DivisionByZero => DrnCause::DivisionByZero,
            ExprError::Wide => DrnCause::Wide,
            ExprError::Deep => DrnCause::Deep,
            ExprError::Long => DrnCause::Long,
            ExprError::Memory => DrnCause::Memory,
        }
    }
}

impl From<AllocError> for DrnCause {
    ghost from_gives = { λ _ cause. cause ≡ Memory };

    fn from(_: AllocError) -> Self {
        DrnCause::Memory
    }
}

impl<T: Drop> From<AllocFailed<T>> for DrnCause {
    ghost from_gives = { λ _ cause. cause ≡ Memory };

    fn from(_: AllocFailed<T>) -> Self {
        DrnCause::Memory
    }
}
