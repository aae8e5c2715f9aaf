// Reads the options of a line of `verify`, `bounded`, `lumped`, `property` or `cost` by the parser of command lines.
ghost use Rattle.std.specs.Prelude.{◌≡◌, IfOk, IfErr, true, map, drop, string_bytes};
ghost use Rattle.clap.specs.Words.{app_of, with_rule, found_of, kind_of};
ghost use Rattle.plift_words.specs.Line.{is_asking, options};
ghost use Rattle.plift_words.specs.Parser.{option, verify_app, HasValues};

use clap::error::ErrorKind;
use clap::{Arg, ArgAction, ArgMatches, Command, Error};
use std::alloc::{AllocError, Global};

fn with_option<'a>(
    alloc: Global,
    command: Command<'a>,
    name: &'a str,
) -> Result<Command<'a>, AllocError>
    ensures { IfOk result (λ c.
        app_of c ≡ with_rule (app_of command.entry) (option name.entry.now)) }
{
    let option = Arg::new(alloc, name).long(name).action(ArgAction::Set);
    command.arg(option)
}

fn verify_command<'a>(alloc: Global) -> Result<Command<'a>, AllocError>
    ensures { IfOk result (λ c. app_of c ≡ verify_app) }
{
    let command = Command::new(alloc, "verify");
    let command = with_option(alloc, command, "goal")?;
    let command = with_option(alloc, command, "bound")?;
    let command = with_option(alloc, command, "region")?;
    let command = with_option(alloc, command, "depth")?;
    let command = with_option(alloc, command, "precision")?;
    let command = with_option(alloc, command, "steps")?;
    let command = with_option(alloc, command, "from")?;
    let command = with_option(alloc, command, "formula")?;
    let command = with_option(alloc, command, "reward")?;
    let command = with_option(alloc, command, "budget")?;
    with_option(alloc, command, "cap")
}

/// The values of the options of a plain line of `verify`, `bounded`, `lumped`, `property` or `cost`. Fails for want of
/// memory alone: such a line is one that the parser takes.
pub fn parse<'a>(alloc: Global, words: &'a [String]) -> Result<ArgMatches<'a>, Error>
    requires { is_asking (map string_bytes words.now) ≡ true }
    ensures values { IfOk result (λ m.
        HasValues (found_of m) (options (drop 1 (map string_bytes words.entry.now)))) }
    ensures memory { IfErr result (λ e. kind_of e ≡ ErrorKind.OutOfMemory) }
{
    let command = verify_command(alloc)?;
    command.try_get_matches_from(words)
}
