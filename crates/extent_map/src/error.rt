// Why a record isn't applied, and why a change isn't made.
ghost use Rattle.std.specs.Prelude.{◌≡◌};
ghost use Rattle.extent_map.specs.declared.error.ApplyError.TheVariants.{NoMemory};

use std::alloc::AllocError;
use std::fmt;
use thiserror::Error;

/// Why a record isn't applied to a table.
#[derive(Clone, Copy, Debug, PartialEq, Eq, Error)]
pub enum ApplyError {
    /// The record breaks the rule of this number, from 3 to 7, and none of a lower number.
    #[error("rule {0} is broken")]
    Rule(u8),
    /// Memory is wanting.
    #[error("out of memory")]
    NoMemory,
}

impl From<AllocError> for ApplyError {
    ghost from_gives = { λ _ e. e ≡ NoMemory };

    fn from(_e: AllocError) -> ApplyError {
        ApplyError::NoMemory
    }
}

/// Why a change of names isn't made, in the order in which the causes are tested.
#[derive(Clone, Copy, Debug, PartialEq, Eq, Error)]
pub enum TableError {
    /// No file has the old name.
    #[error("not found")]
    NotFound,
    /// A file has the new name.
    #[error("exists")]
    Exists,
    /// The greatest id is used.
    #[error("file ids at their end")]
    IdsEnd,
}

/// What a rename did.
#[derive(Clone, Copy, Debug, PartialEq, Eq)]
pub enum Moved {
    /// Both names are of one file, and nothing changed.
    Same,
    /// The file of this id has the new name in the place of the old one.
    Done { id: u64 },
}
