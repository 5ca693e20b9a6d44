// The command that some words are.
ghost use Rattle.std.specs.Prelude.{◌≡◌, ⊤, Some, None, IsSomeAnd, is_some, map, string_bytes, option_map, IfOk, IfSome, IsErr};
ghost use Rattle.command_words.specs.Commands.{command_meant};
ghost use Rattle.command_model.specs.Options.{Word};
ghost use Rattle.zenfs_cmd.specs.Plans.{source_of, target_of};
ghost use Rattle.zenfs_cmd.specs.Words.{HasAuxPath, command_asked, command_in, if_built, meaning_of};

use clap_words::read;
use command_words::Command;
use std::alloc::{AllocError, Global};
use zone_image::Geometry;

/// A command that is built, with the values of its options.
#[derive(Clone, Copy, Debug, PartialEq, Eq)]
pub(crate) enum Built<'a> {
    /// Makes an image, over what is there where `force` is set.
    MakeImage {
        image: &'a str,
        geometry: Geometry,
        force: bool,
    },
    /// Makes a file system.
    MakeFs {
        image: &'a str,
        options: FsOptions<'a>,
    },
    /// Lists the files, or those under a prefix.
    List {
        image: &'a str,
        prefix: Option<&'a str>,
    },
    /// Shows the space.
    Space {
        image: &'a str,
    },
    /// Writes all of the tables.
    Dump {
        image: &'a str,
    },
    /// Shows the superblock.
    Info {
        image: &'a str,
    },
    /// Changes names.
    Change {
        image: &'a str,
        change: Asked<'a>,
    },
}

/// A change of names, as it is asked for; whether they are names is asked later.
#[derive(Clone, Copy, Debug, PartialEq, Eq)]
pub(crate) enum Asked<'a> {
    /// Gives a file one more name.
    Link { source: &'a str, target: &'a str },
    /// Gives a file another name in the place of this one.
    Rename { source: &'a str, target: &'a str },
    /// Takes a name away.
    Delete { path: &'a str },
}

/// How a new file system is made.
#[derive(Clone, Copy, Debug, PartialEq, Eq)]
pub(crate) struct FsOptions<'a> {
    pub(crate) aux_path: &'a str,
    pub(crate) finish_threshold: u32,
    pub(crate) collect: bool,
    /// What is there is replaced.
    pub(crate) force: bool,
}

impl<'a> Asked<'a> {
    /// The name that is looked up.
    pub(crate) fn source(self) -> &'a str
        ensures { (at : Word) → source_of (command_asked at self.entry) ≡ Some result.now }
    {
        match self {
            Asked::Link { source, .. } => source,
            Asked::Rename { source, .. } => source,
            Asked::Delete { path } => path,
        }
    }

    /// The name that is given; a deletion gives none.
    pub(crate) fn target(self) -> &'a str
        requires { (at : Word) → IsSomeAnd (target_of (command_asked at self)) (λ _. ⊤) }
        ensures { (at : Word) → target_of (command_asked at self.entry) ≡ Some result.now }
    {
        match self {
            Asked::Link { target, .. } => target,
            Asked::Rename { target, .. } => target,
            Asked::Delete { .. } => unreachable!(),
        }
    }
}

// A command, if it is built.
fn if_built(command: Command<'_>) -> Option<Built<'_>>
    ensures exact { option_map meaning_of result ≡ if_built (command_meant command.entry) }
    ensures aux_path { HasAuxPath (command_meant command.entry) → IfSome result (λ built. HasAuxPath (meaning_of built)) }
{
    match command {
        Command::MakeImage {
            image,
            geometry,
            force,
        } => Some(Built::MakeImage {
            image,
            geometry,
            force,
        }),
        Command::MakeFs {
            image,
            aux_path,
            finish_threshold,
            collect,
            force,
        } => Some(Built::MakeFs {
            image,
            options: FsOptions {
                aux_path,
                finish_threshold,
                collect,
                force,
            },
        }),
        Command::ListFiles { image, prefix } => Some(Built::List { image, prefix }),
        Command::ShowSpace { image } => Some(Built::Space { image }),
        Command::Dump { image } => Some(Built::Dump { image }),
        Command::ShowInfo { image } => Some(Built::Info { image }),
        Command::LinkFile {
            image,
            source,
            target,
        } => Some(Built::Change {
            image,
            change: Asked::Link { source, target },
        }),
        Command::RenameFile {
            image,
            source,
            target,
        } => Some(Built::Change {
            image,
            change: Asked::Rename { source, target },
        }),
        Command::DeleteFile { image, path } => Some(Built::Change {
            image,
            change: Asked::Delete { path },
        }),
        Command::Backup { .. } => None,
        Command::Restore { .. } => None,
    }
}

// Whether the words are a command that is built, by our own test. It takes no memory.
fn are_command(words: &[String]) -> bool
    ensures { result ≡ is_some (command_in (map string_bytes words.now)) }
{
    match command_words::read(words) {
        Ok(command) => if_built(command).is_some(),
        Err(_) => false,
    }
}

/// The command of the words, or None where they are none that is built. Our own test decides which words are one, and
/// `clap` reads those. `AllocError` comes for want of memory, and never for words that are none.
pub(crate) fn built_command<'a>(
    alloc: Global,
    words: &'a [String],
) -> Result<Option<Built<'a>>, AllocError>
    ensures exact { IfOk result (λ found. option_map meaning_of found ≡ command_in (map string_bytes words.now)) }
    ensures aux_path { IfOk result (λ found. IfSome found (λ built. HasAuxPath (meaning_of built))) }
    ensures wanted { IsErr result → command_in (map string_bytes words.now) ≡ None → ⊥ }
{
    if !are_command(words) {
        return Ok(None);
    }
    match read(alloc, words) {
        Ok(Some(command)) => Ok(if_built(command)),
        Ok(None) => Ok(None),
        Err(e) => Err(e),
    }
}
