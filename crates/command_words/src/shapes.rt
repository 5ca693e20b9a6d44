// The commands, and the options that each of them has.
ghost use Rattle.std.specs.Prelude.{◌≡◌, Some, None, option_map};
ghost use Rattle.command_model.specs.CommandLine.{verb_of, shape_of};
ghost use Rattle.command_model.specs.Options.{is_one_of, takes_value};
ghost use Rattle.command_words.specs.Shapes.{verb_meant, shape_meant, words_meant};

/// What the first word stands for.
#[derive(Clone, Copy)]
pub(crate) enum Verb {
    MakeImage,
    MakeFs,
    ListFiles,
    ShowSpace,
    Dump,
    ShowInfo,
    Backup,
    Restore,
    LinkFile,
    RenameFile,
    DeleteFile,
}

/// The options that a command needs, those that it may have, and its flags.
#[derive(Clone, Copy)]
pub(crate) struct Shape {
    pub(crate) required: &'static [&'static str],
    pub(crate) optional: &'static [&'static str],
    pub(crate) flags: &'static [&'static str],
}

impl Verb {
    /// The command of a first word, if there is one.
    pub(crate) fn of(word: &str) -> Option<Verb>
        ensures { option_map verb_meant result ≡ verb_of word.now }
    {
        match word {
            "mkimage" => Some(Verb::MakeImage),
            "mkfs" => Some(Verb::MakeFs),
            "list" => Some(Verb::ListFiles),
            "df" => Some(Verb::ShowSpace),
            "dump" => Some(Verb::Dump),
            "fs-info" => Some(Verb::ShowInfo),
            "backup" => Some(Verb::Backup),
            "restore" => Some(Verb::Restore),
            "link" => Some(Verb::LinkFile),
            "rename" => Some(Verb::RenameFile),
            "delete" => Some(Verb::DeleteFile),
            _ => None,
        }
    }

    /// The options of a command.
    pub(crate) fn shape(self) -> Shape
        ensures { shape_meant result ≡ shape_of (verb_meant self) }
    {
        match self {
            Verb::MakeImage => Shape {
                required: &[
                    "--image",
                    "--block",
                    "--zone_blocks",
                    "--capacity",
                    "--zones",
                    "--active",
                ],
                optional: &[],
                flags: &["--force"],
            },
            Verb::MakeFs => Shape {
                required: &["--image", "--aux_path"],
                optional: &["--finish_threshold"],
                flags: &["--force", "--enable_gc"],
            },
            Verb::ListFiles => Shape {
                required: &["--image"],
                optional: &["--path"],
                flags: &[],
            },
            Verb::ShowSpace | Verb::Dump | Verb::ShowInfo => Shape {
                required: &["--image"],
                optional: &[],
                flags: &[],
            },
            Verb::Backup => Shape {
                required: &["--image", "--path"],
                optional: &["--backup_path"],
                flags: &[],
            },
            Verb::Restore => Shape {
                required: &["--image", "--path"],
                optional: &["--restore_path"],
                flags: &[],
            },
            Verb::LinkFile | Verb::RenameFile => Shape {
                required: &["--image", "--src_file", "--dst_file"],
                optional: &[],
                flags: &[],
            },
            Verb::DeleteFile => Shape {
                required: &["--image", "--path"],
                optional: &[],
                flags: &[],
            },
        }
    }
}

impl Shape {
    /// Whether an option has a value.
    pub(crate) fn takes_value(&self, word: &str) -> bool
        ensures { result ≡ takes_value (shape_meant self.now) word.now }
    {
        is_one_of(self.required, word) || is_one_of(self.optional, word)
    }

    /// Whether an option is a flag.
    pub(crate) fn is_flag(&self, word: &str) -> bool
        ensures { result ≡ is_one_of (shape_meant self.now).flags word.now }
    {
        is_one_of(self.flags, word)
    }
}

// Whether a word is one of these.
fn is_one_of(names: &[&str], word: &str) -> bool
    ensures { result ≡ is_one_of (words_meant names.now) word.now }
{
    match names {
        [] => false,
        [first, rest @ ..] => *first == word || is_one_of(rest, word),
    }
}
