// What the words of a command line ask for.
ghost use Rattle.std.specs.Prelude.{◌≡◌, ◌∷◌, [], codes, map, IfOk, string_bytes};
ghost use Rattle.std.specs.Option.{option_map, unwrap_or};
ghost use Rattle.clap.specs.Words.{all_of, first_of, found_of, rows_of};
ghost use Rattle.view_words.specs.Words.{is_plain, is_set, job, job_by, job_in, wish_in};
ghost use Rattle.view_words.specs.Given.{Asks, job_data, wish_data};

use crate::error::WordsError;
use crate::job::{Job, Usage, View, Wish};
use crate::parser::parse;
use clap::ArgMatches;
use clap::error::ErrorKind;
use std::alloc::{AllocError, Global};

// The first value of an option.
fn value_in<'a>(matches: &ArgMatches<'a>, id: &str) -> Option<&'a str>
    ensures { option_map (λ v. v.now) result ≡ first_of id.now (rows_of (found_of matches.now)) }
{
    matches.get_str(id)
}

// All values of an option.
fn values_in<'a>(
    alloc: Global,
    matches: &ArgMatches<'a>,
    id: &str,
) -> Result<Vec<&'a str>, AllocError>
    ensures { IfOk result (λ vs. map (λ v. v.now) vs.items
        ≡ unwrap_or (all_of id.now (rows_of (found_of matches.now))) []) }
{
    match matches.get_strs(id) {
        Some(values) => Vec::from_slice(alloc, values),
        None => Ok(Vec::new(alloc)),
    }
}

fn is_set(value: Option<&str>) -> bool
    ensures { result ≡ is_set (option_map (λ v. v.now) value.entry) }
{
    match value {
        Some(text) => text == "true",
        None => false,
    }
}

fn wish_in<'a>(alloc: Global, matches: &ArgMatches<'a>) -> Result<Wish<'a>, AllocError>
    ensures { IfOk result (λ w. wish_data w ≡ wish_in (rows_of (found_of matches.now))) }
{
    let at = values_in(alloc, matches, "at")?;
    Ok(Wish {
        x: value_in(matches, "x"),
        y: value_in(matches, "y"),
        at,
    })
}

impl Wish<'_> {
    // Whether nothing is said of a picture.
    fn is_plain(&self) -> bool
        ensures { result ≡ is_plain (wish_data self.now) }
    {
        self.x.is_none() && self.y.is_none() && self.at.is_empty()
    }
}

// The job of the options that stand there.
fn job_by(wish: Wish<'_>, summary: bool, follow: bool) -> Option<Job<'_>>
    ensures { option_map job_data result ≡ job_by (wish_data wish.entry) summary follow }
{
    match (summary, follow) {
        (false, false) => Some(Job::Show(View::Picture(wish))),
        (true, false) if wish.is_plain() => Some(Job::Show(View::Summary)),
        (false, true) if wish.is_plain() => Some(Job::Follow),
        _ => None,
    }
}

// The job, by the values that were found.
fn job_in<'a>(alloc: Global, matches: &ArgMatches<'a>) -> Result<Option<Job<'a>>, AllocError>
    ensures { IfOk result (λ j. option_map job_data j ≡ job_in (rows_of (found_of matches.now))) }
{
    let summary = is_set(value_in(matches, "summary"));
    let follow = is_set(value_in(matches, "follow"));
    let wish = wish_in(alloc, matches)?;
    Ok(job_by(wish, summary, follow))
}

/// What the words after the program's name ask for. `Usage` where they are at fault, or `Memory`.
pub fn job_of(alloc: Global, words: &[String]) -> Result<Job<'_>, WordsError>
    ensures { Asks (job (map string_bytes words.entry.now)) result }
{
    match parse(alloc, words) {
        Ok(matches) => {
            let found = job_in(alloc, &matches)?;
            found.ok_or(WordsError::Usage(Usage::Words))
        }
        Err(error) => match error.kind() {
            ErrorKind::OutOfMemory => Err(WordsError::Memory),
            _ => Err(WordsError::Usage(Usage::Words)),
        },
    }
}
