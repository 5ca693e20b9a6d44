// A command with its values.
ghost use Rattle.std.specs.Prelude.{◌≡◌};
ghost use Rattle.command_model.specs.CommandLine.{image_of};
ghost use Rattle.command_words.specs.Commands.{command_meant};

use zone_image::Geometry;

/// A command with its values, as the words have them. Whether names and the geometry are right is asked later.
#[derive(Clone, Copy, Debug, PartialEq, Eq)]
pub enum Command<'a> {
    /// Makes an image in a file, over what is there where `force` is set.
    MakeImage {
        image: &'a str,
        geometry: Geometry,
        force: bool,
    },
    /// Makes a file system. The finish threshold is a percentage, 0 where none was given.
    MakeFs {
        image: &'a str,
        aux_path: &'a str,
        finish_threshold: u32,
        collect: bool,
        force: bool,
    },
    /// Lists the files, or those under a prefix.
    ListFiles {
        image: &'a str,
        prefix: Option<&'a str>,
    },
    /// Shows the space.
    ShowSpace {
        image: &'a str,
    },
    /// Writes all of the tables.
    Dump {
        image: &'a str,
    },
    /// Shows the superblock.
    ShowInfo {
        image: &'a str,
    },
    /// Saves files to a host directory, all or those under a prefix.
    Backup {
        image: &'a str,
        directory: &'a str,
        prefix: Option<&'a str>,
    },
    /// Restores files from a host directory, under a prefix if there is one.
    Restore {
        image: &'a str,
        directory: &'a str,
        prefix: Option<&'a str>,
    },
    /// Gives a file a second name.
    LinkFile {
        image: &'a str,
        source: &'a str,
        target: &'a str,
    },
    /// Gives a file another name.
    RenameFile {
        image: &'a str,
        source: &'a str,
        target: &'a str,
    },
    /// Deletes a file by its name.
    DeleteFile {
        image: &'a str,
        path: &'a str,
    },
}

impl<'a> Command<'a> {
    /// The path of the image.
    pub fn image(&self) -> &'a str
        ensures { result.now ≡ image_of (command_meant self.now) }
    {
        match self {
            Command::MakeImage { image, .. } => image,
            Command::MakeFs { image, .. } => image,
            Command::ListFiles { image, .. } => image,
            Command::ShowSpace { image } => image,
            Command::Dump { image } => image,
            Command::ShowInfo { image } => image,
            Command::Backup { image, .. } => image,
            Command::Restore { image, .. } => image,
            Command::LinkFile { image, .. } => image,
            Command::RenameFile { image, .. } => image,
            Command::DeleteFile { image, .. } => image,
        }
    }
}
