// The words behind a command, as `clap` reads them.
ghost use Rattle.std.specs.Prelude.{◌≡◌, [], map, string_bytes, IfOk};
ghost use Rattle.clap.specs.Words.{app_of, found_of};
ghost use Rattle.clap.specs.Values.{kind_of};
ghost use Rattle.clap.specs.Walk.{rows_of};
ghost use Rattle.tool_words.specs.Line.{line_app, values_of, fault_by, Parts};

use crate::request::WordsFault;
use clap::error::ErrorKind;
use clap::{Arg, ArgAction, ArgMatches, Command, Error};
use run_model::Misuse;
use std::alloc::Global;

// The words as `clap` is told of them.
fn line_command<'a>(alloc: Global) -> Result<Command<'a>, Error>
    ensures { IfOk result (λ command. app_of command ≡ line_app) }
{
    let workers = Arg::new(alloc, "workers")
        .long("workers")
        .action(ArgAction::Append);
    let words = Arg::new(alloc, "words").action(ArgAction::Append);
    let command = Command::new(alloc, "words")
        .no_binary_name(true)
        .disable_help_flag(true)
        .arg(workers)?
        .arg(words)?;
    Ok(command)
}

// The values of an id, or else `none`, which is empty.
pub(crate) fn values<'m, 'a>(
    matches: &'m ArgMatches<'a>,
    id: &str,
    none: &'m [&'a str],
) -> &'m [&'a str]
    requires { none.now ≡ [] }
    ensures { map (λ v. v.now) result.now ≡ values_of id.now (rows_of (found_of matches.now)) }
{
    matches.get_strs(id).unwrap_or(none)
}

// Why a parse failed.
fn fault_of(error: &Error) -> WordsFault
    ensures { result ≡ fault_by (kind_of error.now) }
{
    match error.kind() {
        ErrorKind::OutOfMemory => WordsFault::Memory,
        _ => WordsFault::Misuse(Misuse::Words),
    }
}

// What `clap` makes of the words behind a command.
pub(crate) fn line_matches<'a>(
    alloc: Global,
    words: &'a [String],
) -> Result<ArgMatches<'a>, WordsFault>
    ensures { Parts result (map string_bytes words.now) }
{
    let Ok(command) = line_command(alloc) else {
        return Err(WordsFault::Memory);
    };
    match command.try_get_matches_from(words) {
        Ok(matches) => Ok(matches),
        Err(error) => Err(fault_of(&error)),
    }
}
