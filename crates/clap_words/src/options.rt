// The names of a command's options.
ghost use Rattle.std.specs.Prelude.{◌≡◌, ◌++◌};
ghost use Rattle.command_words.specs.Commands.{command_meant};
ghost use Rattle.clap_words.specs.Told.{bare_names, shape_for};
ghost use Rattle.command_words.specs.Shapes.{words_meant};

use command_words::Command;

/// The options of a command that have values, and its flags, without hyphens.
#[derive(Clone, Copy)]
pub(crate) struct Options {
    pub(crate) values: &'static [&'static str],
    pub(crate) flags: &'static [&'static str],
}

/// The options of a command.
pub(crate) fn options_of(command: &Command<'_>) -> Options
    ensures values { let shape = shape_for (command_meant command.now) in words_meant result.values.now ≡ bare_names (shape.required ++ shape.optional) }
    ensures flags { words_meant result.flags.now ≡ bare_names (shape_for (command_meant command.now)).flags }
{
    match command {
        Command::MakeImage { .. } => Options {
            values: &[
                "image",
                "block",
                "zone_blocks",
                "capacity",
                "zones",
                "active",
            ],
            flags: &["force"],
        },
        Command::MakeFs { .. } => Options {
            values: &["image", "aux_path", "finish_threshold"],
            flags: &["force", "enable_gc"],
        },
        Command::ListFiles { .. } | Command::DeleteFile { .. } => Options {
            values: &["image", "path"],
            flags: &[],
        },
        Command::ShowSpace { .. } | Command::Dump { .. } | Command::ShowInfo { .. } => Options {
            values: &["image"],
            flags: &[],
        },
        Command::Backup { .. } => Options {
            values: &["image", "path", "backup_path"],
            flags: &[],
        },
        Command::Restore { .. } => Options {
            values: &["image", "path", "restore_path"],
            flags: &[],
        },
        Command::LinkFile { .. } | Command::RenameFile { .. } => Options {
            values: &["image", "src_file", "dst_file"],
            flags: &[],
        },
    }
}
