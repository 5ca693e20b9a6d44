//! The superblock, the first record of a metadata log: its fields, its 512 bytes, and their faults.
#![tactic(auto)]

mod field;
mod identifier;
mod superblock;
mod text;

pub use superblock::{COLLECT_FLAG, Differs, SUPERBLOCK_BYTES, SbError, Superblock};
pub use text::{AuxPath, VersionText};
