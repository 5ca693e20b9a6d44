// Where extents and recovery points may lie.
ghost use Rattle.std.specs.Prelude.{◌≡◌, ◌*◌, length, IsTrue};
ghost use Rattle.std.specs.List.{list_all};
ghost use Rattle.zone_image.specs.Image.{is_valid};
ghost use Rattle.mount_replay.specs.Rules.{is_written_in, is_recovery_point_in};

use record_model::Extent;
use zone_image::{Geometry, ZoneInfo};

const FIRST_DATA_ZONE: u64 = 3;

/// Whether an extent lies within the written part of one data zone.
pub(crate) fn is_written(geometry: &Geometry, infos: &[ZoneInfo], extent: &Extent) -> bool
    requires valid { IsTrue (is_valid geometry.now) }
    requires zones { length infos.now ≡ geometry.now.zones }
    ensures { result ≡ is_written_in geometry.now infos.now extent.now }
{
    let size = u64::from(geometry.zone_blocks) * u64::from(geometry.block);
    let zone = extent.start / size;
    if zone < FIRST_DATA_ZONE || u64::from(geometry.zones) <= zone {
        return false;
    }
    let end = u128::from(extent.start % size) + u128::from(extent.len);
    end <= u128::from(written_bytes(geometry, infos[zone as usize]))
}

/// Whether all extents do.
pub(crate) fn are_written(geometry: &Geometry, infos: &[ZoneInfo], extents: &[Extent]) -> bool
    requires valid { IsTrue (is_valid geometry.now) }
    requires zones { length infos.now ≡ geometry.now.zones }
    ensures { result ≡ list_all (is_written_in geometry.now infos.now) extents.now }
{
    extents
        .iter()
        .all(|extent| is_written(geometry, infos, extent))
}

/// Whether an address is the start of a block of a data zone, from the first to the one behind the last that is
/// written.
pub(crate) fn is_recovery_point(geometry: &Geometry, infos: &[ZoneInfo], start: u64) -> bool
    requires valid { IsTrue (is_valid geometry.now) }
    requires zones { length infos.now ≡ geometry.now.zones }
    ensures { result ≡ is_recovery_point_in geometry.now infos.now start }
{
    let size = u64::from(geometry.zone_blocks) * u64::from(geometry.block);
    let zone = start / size;
    if zone < FIRST_DATA_ZONE || u64::from(geometry.zones) <= zone {
        return false;
    }
    let offset = start % size;
    offset % u64::from(geometry.block) == 0
        && offset <= written_bytes(geometry, infos[zone as usize])
}

// The bytes of a zone's blocks.
fn written_bytes(geometry: &Geometry, info: ZoneInfo) -> u64
    ensures { result ≡ info.written * geometry.now.block }
{
    u64::from(info.written) * u64::from(geometry.block)
}
