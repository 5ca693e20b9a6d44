// Words as a command, read by clap.
ghost use Rattle.std.specs.Prelude.{◌≡◌, None, Some, Ok, IfOk, map, option_map, string_bytes};
ghost use Rattle.command_model.specs.CommandLine.{command, command_with};
ghost use Rattle.command_words.specs.Commands.{command_meant};
ghost use Rattle.clap_words.specs.Found.{settings_in};
ghost use Rattle.clap_words.specs.Told.{AreOptionsOf, verb_in};

use crate::options::options_of;
use crate::parser::{matches_in, parser};
use crate::values::command_found;
use clap::ArgMatches;
use command_words::Command;
use std::alloc::{AllocError, Global};

/// The command of some words, or None where they are none. `AllocError` comes for want of memory alone, and never for
/// words that are no command.
#[tactic(auto, unfolding(command_model::specs::CommandLine::command))]
pub fn read<'a>(alloc: Global, words: &'a [String]) -> Result<Option<Command<'a>>, AllocError>
    ensures exact { IfOk result (λ answer. option_map command_meant answer ≡ command (map string_bytes words.now)) }
    ensures refused { command (map string_bytes words.now) ≡ None → result ≡ Ok None }
{
    match words {
        [] => Ok(None),
        [_, rest @ ..] => match command_words::read(words) {
            Ok(command) => read_again(alloc, &command, rest),
            Err(_) => Ok(None),
        },
    }
}

// The command that clap reads in the words behind the first one, which are those of a command of the same kind.
fn read_again<'a>(
    alloc: Global,
    command: &Command<'_>,
    words: &'a [String],
) -> Result<Option<Command<'a>>, AllocError>
    requires { AreOptionsOf (command_meant command.now) (map string_bytes words.now) }
    ensures { IfOk result (λ answer. option_map command_meant answer ≡ Some (command_meant command.now)) }
{
    let found = matches_of(alloc, command, words)?;
    Ok(command_found(command, &found))
}

// What clap finds in the words behind the first one.
fn matches_of<'a>(
    alloc: Global,
    command: &Command<'_>,
    words: &'a [String],
) -> Result<ArgMatches<'a>, AllocError>
    requires { AreOptionsOf (command_meant command.now) (map string_bytes words.now) }
    ensures { IfOk result (λ m. command_with (verb_in (command_meant command.now)) (settings_in m) ≡ Some (command_meant command.now)) }
{
    let parser = parser(alloc, options_of(command))?;
    matches_in(parser, words)
}
