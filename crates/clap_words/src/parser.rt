// clap, told of a command's options.
ghost use Rattle.std.specs.Prelude.{◌≡◌, true, IfOk, map, fold, [], string_bytes};
ghost use Rattle.clap.specs.Simple.{matches_of};
ghost use Rattle.clap.specs.Words.{app_of, found_of, rows_of, takes, with_rule};
ghost use Rattle.clap_words.specs.Told.{value_rule, flag_rule, rules_for, app_with};
ghost use Rattle.command_words.specs.Shapes.{words_meant};

use crate::options::Options;
use clap::error::ErrorKind;
use clap::{Arg, ArgAction, ArgMatches, Command};
use std::alloc::{AllocError, Global};

/// clap with these options. Which of them a command needs was asked before. `AllocError` comes for want of memory.
pub(crate) fn parser<'a>(alloc: Global, options: Options) -> Result<Command<'a>, AllocError>
    ensures { IfOk result (λ c. app_of c ≡ app_with (rules_for (words_meant options.values.now) (words_meant options.flags.now))) }
{
    let command = with_values(alloc, bare(alloc), options.values)?;
    with_flags(alloc, command, options.flags)
}

/// What clap finds in words that it takes. `AllocError` comes for want of memory.
pub(crate) fn matches_in<'a>(
    parser: Command<'a>,
    words: &'a [String],
) -> Result<ArgMatches<'a>, AllocError>
    requires { takes (app_of parser) (map string_bytes words.now) ≡ true }
    ensures { IfOk result (λ m. rows_of (found_of m) ≡ matches_of (app_of parser.entry) (map string_bytes words.now)) }
{
    match parser.try_get_matches_from(words) {
        Ok(matches) => Ok(matches),
        Err(error) => {
            // It refuses none of these words.
            let is_memory = error.kind() == ErrorKind::OutOfMemory;
            prove!(is_memory);
            Err(AllocError)
        }
    }
}

// A command without options, whose words hold no program's name.
fn bare<'a>(alloc: Global) -> Command<'a>
    ensures { app_of result ≡ app_with [] }
{
    Command::new(alloc, "zenfs")
        .no_binary_name(true)
        .disable_help_flag(true)
        .disable_version_flag(true)
}

// Options that have values.
fn with_values<'a>(
    alloc: Global,
    command: Command<'a>,
    names: &[&'a str],
) -> Result<Command<'a>, AllocError>
    ensures { IfOk result (λ c. app_of c ≡ fold with_rule (app_of command.entry) (map value_rule (words_meant names.now))) }
{
    match names {
        [] => Ok(command),
        [first, rest @ ..] => {
            let option = Arg::new(alloc, first).long(first).action(ArgAction::Set);
            let command = command.arg(option)?;
            with_values(alloc, command, rest)
        }
    }
}

// Flags.
fn with_flags<'a>(
    alloc: Global,
    command: Command<'a>,
    names: &[&'a str],
) -> Result<Command<'a>, AllocError>
    ensures { IfOk result (λ c. app_of c ≡ fold with_rule (app_of command.entry) (map flag_rule (words_meant names.now))) }
{
    match names {
        [] => Ok(command),
        [first, rest @ ..] => {
            let option = Arg::new(alloc, first)
                .long(first)
                .action(ArgAction::SetTrue);
            let command = command.arg(option)?;
            with_flags(alloc, command, rest)
        }
    }
}
