// Why no log is chosen.
use log_model::Damage;
use std::fmt;
use thiserror::Error;

/// Why no log is chosen.
#[derive(Clone, Copy, Debug, PartialEq, Eq, Error)]
pub enum ChooseError {
    /// No metadata zone has a log with a snapshot.
    #[error("no file system")]
    NoFileSystem,
    /// A superblock of another version, or with unknown flags: both numbers as they stand.
    #[error("zone {zone}: unsupported version {version} flags {flags}")]
    Unsupported {
        zone: u32,
        version: u32,
        flags: u32,
    },
    /// A superblock of another device: its own block size in bytes, zone size in blocks and number of zones.
    #[error("zone {zone}: superblock states block {block} zone {zone_blocks} count {zones}")]
    Differs {
        zone: u32,
        block: u32,
        zone_blocks: u32,
        zones: u32,
    },
    /// A log is damaged.
    #[error("a log is damaged: {0:?}")]
    Damaged(Damage),
    /// The device failed; it comes only where the device's count of faults rose.
    #[error("the device failed")]
    DevFault,
    /// Memory is wanting.
    #[error("out of memory")]
    NoMemory,
}
