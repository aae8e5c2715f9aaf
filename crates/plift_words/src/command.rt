// Reads the command line.
ghost use Rattle.std.specs.Prelude.{◌≡◌, ◌≤◌, Some, codes, drop, [], map, true, option_and_then};
ghost use Rattle.std.specs.Prelude.{string_bytes, IfOk, IfSome, if◌then◌else◌};
ghost use Rattle.std.specs.Option.{option_map, unwrap_or};
ghost use Rattle.clap.specs.Words.{found_of, first_value};
ghost use Rattle.plift_words.specs.Line.{is_lumped, is_asking};
ghost use Rattle.lift_grid.specs.Rectangle.{most_halvings};
ghost use Rattle.corner_lift.specs.Case.{most_precision};
ghost use Rattle.plift_words.specs.Values.{goal_of, reward_of, bound_of, option_number, most_steps, blocks_of};
ghost use Rattle.plift_words.specs.Job.{from_in, query_in, depth_of, precision_of, formula_in, limits_in};
ghost use Rattle.plift_words.specs.Job.{verify_job, property_job, cost_job, asking_job, refine_job, other_job};
ghost use Rattle.plift_words.specs.Query.{query_steps, query_from};
ghost use Rattle.plift_words.specs.Given.{answer_data, asked, Asks};

use crate::error::WordsError;
use crate::job::{Field, Job, RefineJob, VerifyJob};
use crate::line::{
    depth_behind, is_asking, is_check, is_cost, is_lumped, is_migrate, is_property, word_behind,
};
use crate::parser::parse;
use crate::query::{CostLimits, Query};
use crate::values::{
    bound_of, budget_of, cap_of, goal_of, ladder_of, option_number, reward_of, steps_of,
};
use clap::ArgMatches;
use lift_cert::Bound;
use property_text::{FormulaError, FormulaIn, formula_in};
use std::alloc::Global;

/// How often a rectangle may be halved at most.
const MOST_HALVINGS: u32 = 20;

/// The greatest precision.
const MOST_PRECISION: u32 = 40;

/// The depth where none is given.
const DEFAULT_DEPTH: &str = "0";

/// The precision where none is given.
const DEFAULT_PRECISION: &str = "24";

fn goal_in<'a>(matches: &ArgMatches<'a>) -> Option<&'a [u8]>
    ensures { option_map (λ label. label.now) result
        ≡ option_and_then goal_of (first_value (found_of matches.now) (codes "goal")) }
{
    goal_of(matches.get_str("goal")?.as_bytes())
}

fn bound_in(matches: &ArgMatches<'_>) -> Option<Bound>
    ensures { result ≡ option_and_then bound_of (first_value (found_of matches.now) (codes "bound")) }
{
    bound_of(matches.get_str("bound")?)
}

// The text that names the region, which may be left out.
fn region_in<'a>(matches: &ArgMatches<'a>) -> &'a [u8]
    ensures { result.now ≡ unwrap_or (first_value (found_of matches.now) (codes "region")) [] }
{
    match matches.get_str("region") {
        Some(text) => text.as_bytes(),
        None => b"",
    }
}

// The number of an option that may be left out.
fn number_in(matches: &ArgMatches<'_>, id: &str, default: &str, low: u32, high: u32) -> Option<u32>
    ensures value { result
        ≡ option_number low high (unwrap_or (first_value (found_of matches.now) id.now) default.now) }
    ensures range { IfSome result (λ n. (low ≤ n) × (n ≤ high)) }
{
    option_number(matches.get_str(id).unwrap_or(default), low, high)
}

fn depth_in(matches: &ArgMatches<'_>) -> Result<u32, Field>
    ensures value { result ≡ depth_of (first_value (found_of matches.now) (codes "depth")) }
    ensures range { IfOk result (λ depth. depth ≤ most_halvings) }
{
    number_in(matches, "depth", DEFAULT_DEPTH, 0, MOST_HALVINGS).ok_or(Field::Depth)
}

fn precision_in(matches: &ArgMatches<'_>) -> Result<u32, Field>
    ensures value { result ≡ precision_of (first_value (found_of matches.now) (codes "precision")) }
    ensures range { IfOk result (λ precision. (1 ≤ precision) × (precision ≤ most_precision)) }
{
    number_in(matches, "precision", DEFAULT_PRECISION, 1, MOST_PRECISION).ok_or(Field::Precision)
}

// The least precision of a range up to this one, where one is told.
fn from_in(matches: &ArgMatches<'_>, precision: u32) -> Result<Option<u32>, Field>
    ensures value { result ≡ from_in precision (first_value (found_of matches.now) (codes "from")) }
    ensures range { IfOk result (λ reported. IfSome reported (λ from. (1 ≤ from) × (from ≤ precision))) }
{
    match matches.get_str("from") {
        Some(word) => Ok(Some(option_number(word, 1, precision).ok_or(Field::From)?)),
        None => Ok(None),
    }
}

// What is asked with a bound: within how many steps, where their option stands there.
fn query_in(
    matches: &ArgMatches<'_>,
    bound: Bound,
    lumps: bool,
    precision: u32,
) -> Result<Query, Field>
    ensures value { let given = first_value (found_of matches.now) in
        result ≡ query_in bound lumps precision (given (codes "steps")) (given (codes "from")) }
    ensures steps { IfOk result (λ query. IfSome (query_steps query) (λ h. (1 ≤ h) × (h ≤ most_steps))) }
    ensures from { IfOk result (λ query. IfSome (query_from query) (λ v. (1 ≤ v) × (v ≤ precision))) }
{
    match matches.get_str("steps") {
        Some(word) => Ok(Query::Within(bound, steps_of(word).ok_or(Field::Steps)?)),
        None if lumps => Ok(Query::Lumped(bound)),
        None => Ok(Query::Whole(bound, from_in(matches, precision)?)),
    }
}

// The parser finds a value by its option's name without the dashes.
fn job_in<'a>(matches: &ArgMatches<'a>, lumps: bool) -> Result<Job<'a>, Field>
    ensures { answer_data result ≡ verify_job lumps (λ name. first_value (found_of matches.now) (drop 2 name)) }
{
    let goal = goal_in(matches).ok_or(Field::Goal)?;
    let bound = bound_in(matches).ok_or(Field::Bound)?;
    let region = region_in(matches);
    let depth = depth_in(matches)?;
    let precision = precision_in(matches)?;
    let query = query_in(matches, bound, lumps, precision)?;
    Ok(Job::Verify(VerifyJob {
        goal,
        safe: None,
        reward: None,
        region,
        depth,
        precision,
        query,
    }))
}

// The formula that a word is.
fn formula_of(word: &str) -> Result<FormulaIn<'_>, Field>
    ensures { result ≡ formula_in (Some word.now) }
{
    match formula_in(word.as_bytes()) {
        Ok(formula) => Ok(formula),
        Err(FormulaError::Bound) => Err(Field::FormulaBound),
        Err(_) => Err(Field::Formula),
    }
}

fn property_in<'a>(matches: &ArgMatches<'a>) -> Result<Job<'a>, Field>
    ensures { answer_data result ≡ property_job (λ name. first_value (found_of matches.now) (drop 2 name)) }
{
    let formula = formula_of(matches.get_str("formula").ok_or(Field::Formula)?)?;
    let depth = depth_in(matches)?;
    let precision = precision_in(matches)?;
    let from = from_in(matches, precision)?;
    Ok(Job::Verify(VerifyJob {
        goal: formula.goal,
        safe: formula.safe,
        reward: None,
        region: region_in(matches),
        depth,
        precision,
        query: Query::Property(formula.bound, formula.op, from),
    }))
}

fn reward_in<'a>(matches: &ArgMatches<'a>) -> Option<&'a [u8]>
    ensures { option_map (λ name. name.now) result
        ≡ option_and_then reward_of (first_value (found_of matches.now) (codes "reward")) }
{
    reward_of(matches.get_str("reward")?.as_bytes())
}

// The cap and the budget.
fn limits_in(matches: &ArgMatches<'_>) -> Result<CostLimits, Field>
    ensures value { let given = first_value (found_of matches.now) in
        result ≡ limits_in (given (codes "cap")) (given (codes "budget")) }
    ensures cap { IfOk result (λ limits. 1 ≤ limits.cap) }
{
    let cap = cap_of(matches.get_str("cap").ok_or(Field::Cap)?).ok_or(Field::Cap)?;
    let word = matches.get_str("budget").ok_or(Field::Budget)?;
    let budget = budget_of(word, cap).ok_or(Field::Budget)?;
    Ok(CostLimits { cap, budget })
}

fn cost_in<'a>(matches: &ArgMatches<'a>) -> Result<Job<'a>, Field>
    ensures { answer_data result ≡ cost_job (λ name. first_value (found_of matches.now) (drop 2 name)) }
{
    let goal = goal_in(matches).ok_or(Field::Goal)?;
    let depth = depth_in(matches)?;
    let precision = precision_in(matches)?;
    let reward = reward_in(matches).ok_or(Field::Reward)?;
    let limits = limits_in(matches)?;
    Ok(Job::Verify(VerifyJob {
        goal,
        safe: None,
        reward: Some(reward),
        region: region_in(matches),
        depth,
        precision,
        query: Query::Cost(limits),
    }))
}

// What the values of a line of `verify`, `bounded`, `lumped`, `property` or `cost` ask for.
fn asking_job<'a>(matches: &ArgMatches<'a>, words: &[String]) -> Result<Job<'a>, Field>
    ensures { answer_data result
        ≡ asking_job (map string_bytes words.now) (λ name. first_value (found_of matches.now) (drop 2 name)) }
{
    if is_property(words) {
        property_in(matches)
    } else if is_cost(words) {
        cost_in(matches)
    } else {
        job_in(matches, is_lumped(words))
    }
}

// What a plain line of `verify`, `bounded`, `lumped`, `property` or `cost` asks for.
fn verify_job(alloc: Global, words: &[String]) -> Result<Job<'_>, WordsError>
    requires { is_asking (map string_bytes words.now) ≡ true }
    ensures { Asks (asked words.entry.now) result }
{
    // On a plain line nothing but want of memory fails.
    let Ok(matches) = parse(alloc, words) else {
        return Err(WordsError::Memory);
    };
    match asking_job(&matches, words) {
        Ok(job) => Ok(job),
        Err(field) => Err(WordsError::Usage(field)),
    }
}

// The depth to which a report is refined.
fn refine_job(word: &str) -> Result<Job<'static>, Field>
    ensures { answer_data result ≡ refine_job word.now }
{
    let depth = option_number(word, 1, MOST_HALVINGS).ok_or(Field::Depth)?;
    Ok(Job::Refine(RefineJob { depth }))
}

// What a line of another command asks for.
fn other_job(words: &[String]) -> Result<Job<'static>, Field>
    ensures { answer_data result ≡ other_job (map string_bytes words.now) }
{
    if is_check(words) {
        return Ok(Job::Check);
    }
    if is_migrate(words) {
        return Ok(Job::Migrate);
    }
    if let Some(word) = depth_behind("refine", words) {
        return refine_job(word);
    }
    if let Some(word) = word_behind("generate", words) {
        return Ok(Job::Generate(ladder_of(word).ok_or(Field::Blocks)?));
    }
    if let Some(word) = word_behind("selftest", words) {
        return Ok(Job::Selftest(ladder_of(word).ok_or(Field::Blocks)?));
    }
    Err(Field::Words)
}

/// What the words after the program's name ask for. `Usage` with the part of them that is at fault,
/// or `Memory`, which comes only where the line is a plain one of `verify`, `bounded`, `lumped`, `property` or `cost`.
pub fn job_of(alloc: Global, words: &[String]) -> Result<Job<'_>, WordsError>
    ensures { Asks (asked words.entry.now) result }
{
    if is_asking(words) {
        return verify_job(alloc, words);
    }
    match other_job(words) {
        Ok(job) => Ok(job),
        Err(field) => Err(WordsError::Usage(field)),
    }
}
