// What a command does with its image.
ghost use Rattle.std.specs.Prelude.{◌≡◌, map, string_bytes};
ghost use Rattle.command_words.specs.Commands.{command_meant};
ghost use Rattle.image_backend.specs.Accesses.{is_change};
ghost use Rattle.zenfs_cmd.specs.Words.{changes, command_in, if_built};

use command_words::{Command, read};
use image_backend::Access;

// How the image of these words is opened: it is changed exactly where the words are a command that changes it.
pub(crate) fn access_of(words: &[String]) -> Access
    ensures { is_change result ≡ changes (command_in (map string_bytes words.now)) }
{
    match read(words) {
        Ok(command) => access_for(command),
        Err(_) => Access::Read,
    }
}

// The same for a command. One that isn't built opens nothing.
fn access_for(command: Command<'_>) -> Access
    ensures { is_change result ≡ changes (if_built (command_meant command.entry)) }
{
    match command {
        Command::MakeImage { .. } => Access::Change,
        Command::MakeFs { .. } => Access::Change,
        Command::LinkFile { .. } => Access::Change,
        Command::RenameFile { .. } => Access::Change,
        Command::DeleteFile { .. } => Access::Change,
        Command::ListFiles { .. } => Access::Read,
        Command::ShowInfo { .. } => Access::Read,
        Command::ShowSpace { .. } => Access::Read,
        Command::Dump { .. } => Access::Read,
        Command::Backup { .. } => Access::Read,
        Command::Restore { .. } => Access::Read,
    }
}
