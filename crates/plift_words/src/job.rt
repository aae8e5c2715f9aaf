// A job, and the parts of the command line that ask for it.
ghost use Rattle.std.specs.Prelude.{◌≡◌, ◌≢◌, ◌≤◌, ◌<◌, true, None};
ghost use Rattle.std.specs.Option.{ForSome};
ghost use Rattle.lift_grid.specs.Rectangle.{most_halvings};
ghost use Rattle.corner_lift.specs.Case.{most_precision};
ghost use Rattle.plift_words.specs.Values.{most_steps};
ghost use Rattle.lift_cert.specs.Bound.{IsBound, part_limit};
ghost use Rattle.plift_words.specs.Query.{query_bound, query_steps, query_from, query_cap, is_reported, is_cost};

use crate::query::Query;
use model_gen::Ladder;

/// A part of the command line that can be at fault.
#[derive(Clone, Copy)]
pub enum Field {
    /// The line isn't plain.
    Words,
    Goal,
    Bound,
    Depth,
    Precision,
    Steps,
    /// The least precision of a range.
    From,
    /// The number of blocks.
    Blocks,
    /// The formula isn't one.
    Formula,
    /// The bound of the formula.
    FormulaBound,
    Reward,
    Cap,
    Budget,
}

/// What is to be verified.
#[derive(Clone, Copy)]
pub struct VerifyJob<'a> {
    pub goal: &'a [u8],
    /// The label of the states that a path may pass through; all where there is none, as where a report is written.
    pub safe: Option<&'a [u8]>,
    /// The name of the reward that is paid, where it is asked what is.
    pub reward: Option<&'a [u8]>,
    /// The text that names the region; it is read against the model's parameters.
    pub region: &'a [u8],
    /// How often a rectangle may be halved, from 0 to 20.
    pub depth: u32,
    /// A certificate's numbers are over 2^precision, from 1 to 40.
    pub precision: u32,
    /// What is asked, with its bound; a number of steps is from 1 to 64, the least precision of a range from 1 to the
    /// greatest, a cap at least 1.
    pub query: Query,
    ghost in_range: { (depth ≤ most_halvings) × (1 ≤ precision) × (precision ≤ most_precision) },
    ghost read_alone: { is_reported query ≡ true → (safe ≡ None) × (reward ≡ None) },
    ghost reward_is_named: { is_cost query ≡ true → reward ≢ None },
    ghost bound_is_one: { ForSome (query_bound query) (λ b. IsBound b × (b.den < part_limit)) },
    ghost steps_in_range: { ForSome (query_steps query) (λ h. (1 ≤ h) × (h ≤ most_steps)) },
    ghost from_in_range: { ForSome (query_from query) (λ from. (1 ≤ from) × (from ≤ precision)) },
    ghost cap_in_range: { ForSome (query_cap query) (λ cap. 1 ≤ cap) },
}

/// To which depth a report is refined.
#[derive(Clone, Copy)]
pub struct RefineJob {
    /// From 1 to 20.
    pub depth: u32,
    ghost in_range: { (1 ≤ depth) × (depth ≤ most_halvings) },
}

/// What the words ask for: a command, with what it is asked.
#[derive(Clone, Copy)]
pub enum Job<'a> {
    /// `verify`, `bounded`, `lumped`, `property` or `cost`.
    Verify(VerifyJob<'a>),
    /// Checks a report.
    Check,
    /// Writes a report with a range of precisions.
    Migrate,
    /// Goes on from a report to a greater depth.
    Refine(RefineJob),
    /// Writes a ladder.
    Generate(Ladder),
    /// Verifies a ladder and checks the report.
    Selftest(Ladder),
}
