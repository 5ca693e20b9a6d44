// The room that a log has left.
ghost use Rattle.std.specs.Prelude.{◌≡◌, ◌+◌, ◌<◌, true, false};
ghost use Rattle.log_store.specs.Room.{must_roll, room_left};

use zone_image::{Geometry, ZoneInfo};

// The blocks that a zone with this number and seal may still take.
fn room_left(geometry: &Geometry, info: ZoneInfo) -> u32
    ensures { result ≡ room_left geometry.now.capacity info }
{
    if info.sealed {
        0
    } else {
        geometry.capacity.saturating_sub(info.written)
    }
}

/// Whether a record of so many blocks needs a roll, where the log's zone has this number and seal: a block is to stay
/// for the end record.
pub fn must_roll(geometry: &Geometry, info: ZoneInfo, blocks: u64) -> bool
    ensures exact { result ≡ must_roll geometry.now.capacity info blocks }
    ensures unsealed { result ≡ false → info.sealed ≡ false }
    ensures fits { result ≡ false → info.written + blocks < geometry.now.capacity }
{
    u64::from(room_left(geometry, info)) <= blocks
}
