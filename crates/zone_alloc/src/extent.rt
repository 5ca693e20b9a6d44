// Where an extent lies, and the blocks that it touches.
ghost use Rattle.std.specs.Prelude.{◌≡◌, IsTrue};
ghost use Rattle.zone_image.specs.Image.{is_valid, zone_of};
ghost use Rattle.fs_model.specs.FsState.{touched};
ghost use Rattle.zone_alloc.specs.ZoneTableState.{IsInDataZone};

use record_model::Extent;
use zone_image::Geometry;

/// The zone of an extent.
pub(crate) fn zone_of(geometry: &Geometry, extent: Extent) -> u32
    requires valid { IsTrue (is_valid geometry.now) }
    requires within { IsInDataZone geometry.now extent }
    ensures { result ≡ zone_of geometry.now extent.start }
{
    (extent.start / (u64::from(geometry.zone_blocks) * u64::from(geometry.block))) as u32
}

/// The blocks that an extent touches.
pub(crate) fn touched(geometry: &Geometry, extent: Extent) -> u64
    requires valid { IsTrue (is_valid geometry.now) }
    requires within { IsInDataZone geometry.now extent }
    ensures { result ≡ touched geometry.now.block extent }
{
    let block = u64::from(geometry.block);
    (extent.start + extent.len - 1) / block - extent.start / block + 1
}
