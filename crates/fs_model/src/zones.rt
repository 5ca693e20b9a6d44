use zone_image::ZoneInfo;

/// Who holds a zone.
#[derive(Clone, Copy, Debug, PartialEq, Eq)]
pub enum Owner {
    /// Nobody.
    Idle,
    /// The writer of the file with this id.
    Writer(u64),
    /// The collector, as the zone to which it copies.
    Collector,
    /// The collector, as the zone that it empties.
    Victim,
}

/// A zone with its owner, its lifetime hint, and its live blocks and bytes.
#[derive(Clone, Copy, Debug, PartialEq, Eq)]
pub struct ZoneState {
    pub info: ZoneInfo,
    pub owner: Owner,
    /// The lifetime hint of the file for which the zone was opened, 0 to 5.
    pub hint: u32,
    /// The blocks that live extents touch, summed over these extents.
    pub live: u64,
    /// The lengths of the live extents, summed.
    pub live_bytes: u64,
}

/// The byte address at which an extent started, and the one at which its copy starts.
#[derive(Clone, Copy, Debug, PartialEq, Eq)]
pub struct Move {
    pub from: u64,
    pub to: u64,
}
