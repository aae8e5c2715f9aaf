// Reads the words by the parser of command lines.
ghost use Rattle.std.specs.Prelude.{◌≡◌, IfOk, map, string_bytes};
ghost use Rattle.clap.specs.Words.{FailsBy, app_of, fault_of, found_of};
ghost use Rattle.clap.specs.Words.{matches_of, new_app, rows_of, with_rule};
ghost use Rattle.view_words.specs.Words.{option, view_app, without_name};

use clap::{Arg, ArgAction, ArgMatches, Command, Error};
use std::alloc::{AllocError, Global};

fn with_option<'a>(
    alloc: Global,
    command: Command<'a>,
    name: &'a str,
    action: ArgAction,
) -> Result<Command<'a>, AllocError>
    ensures { IfOk result (λ c.
        app_of c ≡ with_rule (app_of command.entry) (option name.entry.now action)) }
{
    let option = Arg::new(alloc, name).long(name).action(action);
    command.arg(option)
}

fn named_command<'a>(alloc: Global, name: &'a str) -> Command<'a>
    ensures { app_of result ≡ without_name (new_app name.entry.now) }
{
    Command::new(alloc, name).no_binary_name(true)
}

#[tactic(auto, unfolding(crate::specs::Words::view_app))]
fn view_command<'a>(alloc: Global) -> Result<Command<'a>, AllocError>
    ensures { IfOk result (λ c. app_of c ≡ view_app) }
{
    let command = named_command(alloc, "plift-view");
    let command = with_option(alloc, command, "x", ArgAction::Set)?;
    let command = with_option(alloc, command, "y", ArgAction::Set)?;
    let command = with_option(alloc, command, "at", ArgAction::Append)?;
    let command = with_option(alloc, command, "summary", ArgAction::SetTrue)?;
    with_option(alloc, command, "follow", ArgAction::SetTrue)
}

/// The options and values that stand in the words.
pub fn parse<'a>(alloc: Global, words: &'a [String]) -> Result<ArgMatches<'a>, Error>
    ensures rows { IfOk result (λ m.
        rows_of (found_of m) ≡ matches_of view_app (map string_bytes words.entry.now)) }
    ensures fails { FailsBy (fault_of view_app (map string_bytes words.entry.now)) result }
{
    let command = view_command(alloc)?;
    command.try_get_matches_from(words)
}
