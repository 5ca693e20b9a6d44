// The log that is selected, and why there is none.

use record_model::DecodeFault;
use superblock_core::Superblock;

/// What is wrong where a log is damaged.
#[derive(Clone, Copy, Debug, PartialEq, Eq)]
pub enum DamageWhy {
    /// A record's stored checksum isn't that of its length and payload. Both are masked.
    Sum { stored: u32, computed: u32 },
    /// A record states a length of 0.
    NoLength,
    /// The superblock's field of text at this byte breaks its rule.
    Text { at: u32 },
    /// A payload isn't a record: its first fault.
    Decode(DecodeFault),
    /// A metadata zone of a lower number begins with the same sequence.
    Twin { sequence: u32 },
    /// A record breaks the rule of this number, from 1 to 10 (docs/FORMAT.md has the list).
    Rule(u8),
}

/// Damage of a log, and where it stands.
#[derive(Clone, Copy, Debug, PartialEq, Eq)]
pub struct Damage {
    /// The metadata zone.
    pub zone: u32,
    /// The first block of the record in that zone.
    pub block: u32,
    /// What is wrong with it.
    pub why: DamageWhy,
}

/// The log that counts: the newest with a snapshot.
#[derive(Drop)]
pub struct Chosen {
    /// Its metadata zone.
    pub zone: u32,
    /// Its first record.
    pub superblock: Superblock,
    /// The greatest sequence of a superblock that was read, this one's or that of a log without a snapshot.
    pub greatest: u32,
    /// It ends with no rest and has no end record, so that one may be added.
    pub can_end: bool,
}

/// Why an image mounts to no tree: the first reason, in the order in which logs are read.
#[derive(Clone, Copy, Debug, PartialEq, Eq)]
pub enum Refusal {
    /// No metadata zone has a log with a snapshot.
    NoFileSystem,
    /// A superblock of another version, or with unknown flags: both numbers as they stand.
    Unsupported {
        zone: u32,
        version: u32,
        flags: u32,
    },
    /// A superblock of another device: its own block size in bytes, zone size in blocks and number of zones.
    Differs {
        zone: u32,
        block: u32,
        zone_blocks: u32,
        zones: u32,
    },
    /// A log is damaged.
    Damaged(Damage),
}
