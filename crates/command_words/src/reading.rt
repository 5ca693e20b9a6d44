// Words as a command.
ghost use Rattle.std.specs.Prelude.{◌≡◌, map, option_map, string_bytes};
ghost use Rattle.std.specs.Option.{option_copied};
ghost use Rattle.std.specs.Result.{result_ok};
ghost use Rattle.command_model.specs.CommandLine.{command, image_path};
ghost use Rattle.command_words.specs.Commands.{command_meant, command_after, command_of_all};
ghost use Rattle.command_words.specs.Settings.{settings_in};
ghost use Rattle.command_words.specs.Shapes.{verb_meant};

use crate::command::Command;
use crate::settings::Settings;
use crate::shapes::Verb;
use crate::splitting::first_setting;
use crate::values::command_with;
use thiserror::Error;

/// The words are no command.
#[derive(Clone, Copy, Debug, PartialEq, Eq, Drop, Error)]
#[error("bad command line")]
pub struct BadWords;

/// The command of some words. `BadWords` comes exactly where they are none; no memory is taken.
pub fn read(words: &[String]) -> Result<Command<'_>, BadWords>
    ensures { option_map command_meant (result_ok result) ≡ command (map string_bytes words.now) }
{
    match command_of(words) {
        Some(command) => Ok(command),
        None => Err(BadWords),
    }
}

/// The path of the image that some words name, or None where they are no command.
pub fn image_path(words: &[String]) -> Option<&str>
    ensures { option_copied result ≡ image_path (map string_bytes words.now) }
{
    match command_of(words) {
        Some(command) => Some(command.image()),
        None => None,
    }
}

#[tactic(auto, unfolding(command_model::specs::CommandLine::command))]
fn command_of(words: &[String]) -> Option<Command<'_>>
    ensures { option_map command_meant result ≡ command (map string_bytes words.now) }
{
    match words {
        [] => None,
        [word, rest @ ..] => {
            let verb = Verb::of(word.as_str())?;
            command_after(verb, &Settings::Empty, rest)
        }
    }
}

// The command of the words behind those whose options were read. Since no option may be given twice, it calls itself
// no more often than a command has options.
fn command_after<'a>(
    verb: Verb,
    seen: &Settings<'_, 'a>,
    words: &'a [String],
) -> Option<Command<'a>>
    ensures { option_map command_meant result ≡ command_after (verb_meant verb) (settings_in seen.now) (map string_bytes words.now) }
{
    if words.is_empty() {
        return completed(verb, seen);
    }
    let (setting, rest) = first_setting(&verb.shape(), words)?;
    if seen.is_set(setting.name) {
        return None;
    }
    command_after(verb, &Settings::After(&*seen, setting), rest)
}

// The command of all options.
fn completed<'a>(verb: Verb, seen: &Settings<'_, 'a>) -> Option<Command<'a>>
    ensures { option_map command_meant result ≡ command_of_all (verb_meant verb) (settings_in seen.now) }
{
    if !seen.has_all(verb.shape().required) {
        return None;
    }
    command_with(verb, seen)
}
