//! The values that records hold.

ghost use Rattle.std.specs.Prelude.{◌≡◌};

use crate::name::Name;
use std::marker::Model;

/// The active extent start of a file that has no active extent.
pub const NO_ACTIVE: u64 = u64::MAX;

/// The greatest id of a file.
pub const MAX_ID: u64 = u64::MAX - 1;

/// A run of bytes of one zone: where it starts on the device, and its length, both in bytes.
#[derive(Clone, Copy, Debug, PartialEq, Eq)]
pub struct Extent {
    pub start: u64,
    pub len: u64,
}

/// Extents in the order in which a file's bytes lie in them. Contracts see a list.
#[derive(Debug, Drop)]
pub struct Extents {
    items: Vec<Extent>,
}

impl Model for Extents {
    ghost use Rattle.std.specs.Prelude.{List};
    ghost use Rattle.record_model.specs.declared.types.Extent.{Extent};

    ghost Value = { List Extent };

    ghost view = { λ e. e.items.items };
}

impl Extents {
    /// The list of these extents.
    pub fn from_vec(items: Vec<Extent>) -> Extents
        ensures { result ≡ items.items }
    {
        Extents { items }
    }

    /// The extents.
    pub fn items(&self) -> &[Extent]
        ensures { result.now ≡ self.now }
    {
        &self.items
    }

    /// The extents, given back as a vector, without taking memory.
    pub fn into_vec(self) -> Vec<Extent>
        ensures { result.items ≡ self }
    {
        self.items
    }
}

/// The names of a file. Contracts see a list of lists of bytes.
#[derive(Debug, Drop)]
pub struct Names {
    items: Vec<Name>,
}

impl Model for Names {
    ghost use Rattle.std.specs.Prelude.{List, ℕ};

    ghost Value = { List (List ℕ) };

    ghost view = { λ n. n.items.items };
}

impl Names {
    /// The list of these names.
    pub fn from_vec(items: Vec<Name>) -> Names
        ensures { result ≡ items.items }
    {
        Names { items }
    }

    /// The names.
    pub fn items(&self) -> &[Name]
        ensures { result.now ≡ self.now }
    {
        &self.items
    }

    /// The names, given back as a vector, without taking memory.
    pub fn into_vec(self) -> Vec<Name>
        ensures { result.items ≡ self }
    {
        self.items
    }
}

/// A file as it stands in a record.
#[derive(Debug, Drop)]
pub struct FileEntry {
    /// The file's number, at most `MAX_ID` in a record.
    pub id: u64,
    /// The bytes of all the file's extents, also of those that this record leaves out.
    pub size: u64,
    /// The expected lifetime, 0 to 5 in a record.
    pub hint: u32,
    /// The modification time in seconds since 1970.
    pub time: u64,
    /// The byte address at which the active extent starts, or `NO_ACTIVE`.
    pub active: u64,
    /// Whether the file is written in frames that each state their own length.
    pub sparse: bool,
    /// The extents that the record adds, or all of them in a snapshot or a replacement.
    pub extents: Extents,
    /// The file's names: at least one in a record, and none twice.
    pub names: Names,
}

/// A list of files.
#[derive(Debug, Drop)]
pub struct Files {
    items: Vec<FileEntry>,
}

impl Model for Files {
    ghost use Rattle.std.specs.Prelude.{List};
    ghost use Rattle.record_model.specs.declared.types.FileEntry.{FileEntry};

    ghost Value = { List FileEntry };

    ghost view = { λ n. n.items.items };
}

impl Files {
    /// The list of these files.
    pub fn from_vec(items: Vec<FileEntry>) -> Files
        ensures { result ≡ items.items }
    {
        Files { items }
    }

    /// The files.
    pub fn items(&self) -> &[FileEntry]
        ensures { result.now ≡ self.now }
    {
        &self.items
    }

    /// The files, given back as a vector, without taking memory.
    pub fn into_vec(self) -> Vec<FileEntry>
        ensures { result.items ≡ self }
    {
        self.items
    }
}

/// One record of the metadata log.
#[derive(Debug, Drop)]
pub enum Record {
    /// All files: it replaces the table.
    Snapshot(Files),
    /// A new file, or new extents and new other fields of a file that is there.
    Update(FileEntry),
    /// A name is taken from a file.
    Deletion { id: u64, name: Name },
    /// The log ends here, and another zone goes on.
    End,
    /// A whole file in place of the one with its id.
    Replace(FileEntry),
}
