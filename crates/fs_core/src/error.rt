// Why a file system isn't mounted.
use log_model::Damage;
use std::fmt;
use thiserror::Error;

/// Why a device isn't mounted, in the order in which it is looked at.
#[derive(Clone, Copy, Debug, PartialEq, Eq, Error)]
pub enum MountError {
    /// The device failed; it comes only where the device's count of faults rose.
    #[error("device fault")]
    DevFault,
    /// The device tells that no image is there.
    #[error("not a zoned image")]
    NotAnImage,
    /// No metadata zone has a log with a snapshot.
    #[error("no file system")]
    NoFileSystem,
    /// A superblock of another version, or with unknown flags: both numbers as they stand.
    #[error("zone {zone}: unsupported version {version} flags {flags}")]
    Unsupported {
        zone: u32,
        version: u32,
        flags: u32,
    },
    /// A superblock of another device: its own block size in bytes, zone size in blocks and number of zones.
    #[error("zone {zone}: superblock states block {block} zone {zone_blocks} count {zones}")]
    Differs {
        zone: u32,
        block: u32,
        zone_blocks: u32,
        zones: u32,
    },
    /// A log is damaged, or its table breaks a rule.
    #[error("a log is damaged: {0:?}")]
    Damaged(Damage),
    /// Memory is wanting.
    #[error("out of memory")]
    NoMemory,
}

/// A device that isn't mounted, handed back with the cause.
#[derive(Drop)]
pub struct Refused<D> {
    pub dev: D,
    pub why: MountError,
}

/// Why a file isn't read.
#[derive(Clone, Copy, Debug, PartialEq, Eq, Error)]
pub enum ReadError {
    /// No file has the name.
    #[error("not found")]
    NotFound,
    /// The device failed; it comes only where the device's count of faults rose.
    #[error("device fault")]
    DevFault,
}
