// Bytes of an extent.
ghost use Rattle.std.specs.Prelude.{◌≡◌, ◌+◌, ◌*◌, ◌≤◌, ◌<◌, length, take, IsErr, OnOk};
ghost use Rattle.zone_image.specs.Counts.{HasCause};
ghost use Rattle.zone_image.specs.Image.{zone_of, offset_of};
ghost use Rattle.zone_image.specs.Infos.{info_at};
ghost use Rattle.zone_image.specs.Reads.{OnlyReads};
ghost use Rattle.log_model.specs.Frames.{extent_bytes};

use crate::parts::ZonePlace;
use crate::zones::read_zone;
use record_model::Extent;
use zone_image::Geometry;
use zoned_device::{DevFault, ZonedDevice};

// Where an extent starts.
fn place_of(geometry: &Geometry, extent: Extent) -> ZonePlace
    requires some { 0 < geometry.now.block * geometry.now.zone_blocks }
    requires is_zone { zone_of geometry.now extent.start < geometry.now.zones }
    ensures zone { result.zone ≡ zone_of geometry.now extent.start }
    ensures offset { result.offset ≡ offset_of geometry.now extent.start }
{
    let size = u64::from(geometry.zone_blocks) * u64::from(geometry.block);
    ZonePlace {
        zone: (extent.start / size) as u32,
        offset: extent.start % size,
    }
}

/// Reads the first bytes of an extent, as many as `out` has, which aren't more than the extent's. Whole blocks are read
/// window by window, straight into `out`; bytes that lie in part of a block are read by way of `block`, a buffer of one block. It
/// takes no memory. `DevFault` comes only where the device's count of faults rose; the bytes of `out` are open then.
pub fn read_extent<D: ZonedDevice>(
    dev: &mut D,
    geometry: &Geometry,
    extent: Extent,
    block: &mut [u8],
    out: &mut [u8],
) -> Result<(), DevFault>
    requires is_known { D.known dev.old }
    requires same_geometry { geometry.now ≡ D.geometry dev.old }
    requires is_zone { zone_of geometry.now extent.start < geometry.now.zones }
    requires buffer { length block.old ≡ geometry.now.block }
    requires within { length out.old ≤ extent.len }
    requires written { offset_of geometry.now extent.start + length out.old
        ≤ (info_at (D.infos dev.old) (zone_of geometry.now extent.start)).written * geometry.now.block }
    ensures bytes { OnOk result (D.tells → out.new ≡ take (length out.old) (extent_bytes (D.image dev.old) extent)) }
    ensures same_len { length out.new ≡ length out.old }
    ensures same_buffer { length block.new ≡ length block.old }
    ensures device { OnlyReads D.known D.geometry D.infos D.tells D.image D.tick D.since D.failed_changes dev.old dev.new }
    ensures cause { HasCause (D.faults dev.old) (D.faults dev.new) (IsErr result) }
{
    let place = place_of(geometry, extent);
    read_zone(dev, geometry, place, block, out)?;
    Ok(())
}
