// Why a log can't be begun anew.
use std::alloc::AllocError;
use std::fmt;
use thiserror::Error;

/// Why a log can't be rolled.
#[derive(Clone, Copy, Debug, PartialEq, Eq, Error)]
pub enum RollError {
    /// No higher sequence is left.
    #[error("no sequence is left")]
    SequenceEnd,
    /// Superblock, snapshot and two more blocks need so many blocks, and a zone has fewer.
    #[error("the metadata need {need} blocks, and a zone has {capacity}")]
    MetaFull { need: u64, capacity: u32 },
    /// The device failed; it comes only where the device's count of faults rose.
    #[error("the device failed")]
    DevFault,
    /// Memory is wanting.
    #[error("out of memory")]
    NoMemory,
}
