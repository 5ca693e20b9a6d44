//! Zoned images: their geometry and zones, what the calls of a device make of them, and what a crash leaves.
#![tactic(auto)]

mod address;

/// The shape of a zoned device. Sizes are in blocks but for `block`.
#[derive(Clone, Copy, Debug, PartialEq, Eq)]
pub struct Geometry {
    /// Bytes of a block: 512 or 4,096.
    pub block: u32,
    /// Blocks from the start of one zone to the start of the next.
    pub zone_blocks: u32,
    /// Blocks that a zone can hold, at least 8.
    pub capacity: u32,
    /// Number of zones, 32 to 65,536.
    pub zones: u32,
    /// How many zones may be active, at least 3. A zone is active where it has a block and isn't sealed.
    pub active_limit: u32,
}

/// Where a byte address lies: a zone and the byte offset in it.
#[derive(Clone, Copy, Debug, PartialEq, Eq)]
pub struct Place {
    pub zone: u32,
    pub offset: u32,
}

/// The number of written blocks of a zone, and its seal.
#[derive(Clone, Copy, Debug, PartialEq, Eq)]
pub struct ZoneInfo {
    pub written: u32,
    pub sealed: bool,
}
