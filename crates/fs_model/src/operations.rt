// Operations under the lock, their replies, and the entries of the history.

use crate::FsError;
use record_model::Name;

/// An operation of a caller. A caller has at most one open writer.
#[derive(Drop)]
pub enum Op {
    /// Makes a file with a lifetime hint of 0 to 5, and opens the caller's writer on it.
    Open { name: Name, hint: u32, sparse: bool },
    /// Appends a byte so many times.
    Append { count: u32, byte: u8 },
    /// Makes the bytes of the caller's writer durable.
    Sync,
    /// Syncs and closes the caller's writer.
    Close,
    /// Gives the file of the old name a new name besides.
    Link { old: Name, new: Name },
    /// Puts a new name in the place of the old one; another file that has it loses it.
    Rename { old: Name, new: Name },
    /// Takes a name away; a file without names is gone.
    Delete { name: Name },
    /// Reads the whole file.
    Read { name: Name },
    /// One step of the collector.
    Collect,
}

/// What a step of the collector did.
#[derive(Clone, Copy, Debug, PartialEq, Eq)]
pub enum Step {
    /// No migration is under way, and no zone is worth collecting.
    Nothing,
    /// A migration was begun.
    Begun,
    /// An extent was copied.
    Copied,
    /// A file was recorded with its copies.
    Published,
    /// The file whose extents were copied is gone.
    Dropped,
    /// The zone that was emptied was reset.
    Retired,
}

/// The reply to an operation.
#[derive(Clone, Copy, Debug, PartialEq, Eq)]
pub enum Reply {
    /// It was done as a whole.
    Done,
    /// What a read found: the number of bytes, and their CRC-32C.
    Shown { bytes: u64, sum: u32 },
    /// What the collector did.
    Step(Step),
    /// The caller has no open writer.
    NoWriter,
    /// The caller has an open writer already.
    HasWriter,
    /// Memory was wanting for the history's entry, so nothing was done and no entry was made.
    NoEntry,
    /// It was refused.
    Refused(FsError),
}

/// A change of the tree that an entry made; names, hint, mark and time are those of the entry.
#[derive(Clone, Copy, Debug, PartialEq, Eq)]
pub enum Made {
    /// A file was made under this id.
    Create { id: u64 },
    /// So many bytes of the file are shown now.
    Grow { id: u64, shown: u64 },
    /// The file has the new name besides.
    Linked,
    /// The file has the new name in place of the old one.
    Renamed,
    /// The name is gone.
    Unlinked,
}

/// The changes that an entry made, in order.
#[derive(Drop)]
pub struct Changes {
    items: Vec<Made>,
}

impl std::marker::Model for Changes {
    ghost use Rattle.std.specs.Prelude.{List};
    ghost use Rattle.fs_model.specs.declared.operations.Made.{Made};

    ghost Value = { List Made };

    ghost view = { λ c. c.items.items };
}

impl Changes {
    ghost use Rattle.std.specs.Prelude.{◌≡◌};

    /// These changes. Takes no memory.
    pub fn from_vec(items: Vec<Made>) -> Changes
        ensures { result ≡ items.items }
    {
        Changes { items }
    }

    /// The changes in order.
    pub fn items(&self) -> &[Made]
        ensures { result.now ≡ self.now }
    {
        &self.items
    }
}

/// One operation as the history keeps it.
#[derive(Drop)]
pub struct Entry {
    /// The caller's number, from 1.
    pub caller: u32,
    pub op: Op,
    /// The time of the operation, in seconds.
    pub now: u64,
    pub reply: Reply,
    pub changes: Changes,
    /// Whether the last of the changes isn't acknowledged.
    pub unsure: bool,
    /// How many bytes an append handed in.
    pub taken: u32,
    /// The device's tick at the end of the operation.
    pub tick: u64,
}
