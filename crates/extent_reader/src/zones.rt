// Bytes of a zone.
ghost use Rattle.std.specs.Prelude.{◌≡◌, ◌+◌, ◌-◌, ◌*◌, ◌/◌, ◌%◌, ◌≤◌, ◌<◌, ◌⊎◌, length, IsErr, OnOk};
ghost use Rattle.zone_image.specs.Counts.{HasCause};
ghost use Rattle.zone_image.specs.Infos.{info_at};
ghost use Rattle.zone_image.specs.Reads.{OnlyReads};
ghost use Rattle.extent_reader.specs.ZoneParts.{zone_part};

use crate::parts::{ZonePlace, read_part, read_whole};
use zone_image::Geometry;
use zoned_device::{DevFault, ZonedDevice};

// How many of the bytes from a place on lie in a block that was begun before it.
fn begun_part(geometry: &Geometry, place: ZonePlace, len: usize) -> usize
    requires { 0 < geometry.now.block }
    ensures some { result ≤ len }
    ensures within { place.offset % geometry.now.block + result ≤ geometry.now.block }
    ensures then_whole { (result ≡ len) ⊎ ((place.offset + result) % geometry.now.block ≡ 0) }
{
    let skip = place.offset % u64::from(geometry.block);
    if skip == 0 {
        return 0;
    }
    let left = u64::from(geometry.block) - skip;
    if (len as u64) < left {
        len
    } else {
        left as usize
    }
}

// The bytes of whole blocks among so many.
fn whole_part(geometry: &Geometry, len: usize) -> usize
    requires { 0 < geometry.now.block }
    ensures some { result ≤ len }
    ensures whole { result % geometry.now.block ≡ 0 }
    ensures rest { len - result < geometry.now.block }
{
    len - len % geometry.block as usize
}

// Bytes of a zone from the start of a block on: whole blocks window by window, and what is left of the last one.
fn read_blocks<D: ZonedDevice>(
    dev: &mut D,
    geometry: &Geometry,
    place: ZonePlace,
    block: &mut [u8],
    out: &mut [u8],
) -> Result<(), DevFault>
    requires is_known { D.known dev.old }
    requires is_zone { place.zone < (D.geometry dev.old).zones }
    requires same_geometry { geometry.now ≡ D.geometry dev.old }
    requires buffer { length block.old ≡ geometry.now.block }
    requires starts { place.offset % geometry.now.block ≡ 0 }
    requires written { place.offset + length out.old ≤ (info_at (D.infos dev.old) place.zone).written * geometry.now.block }
    ensures bytes { OnOk result (D.tells → out.new ≡ zone_part (D.image dev.old) place.zone place.offset (length out.old)) }
    ensures same_len { length out.new ≡ length out.old }
    ensures same_buffer { length block.new ≡ length block.old }
    ensures device { OnlyReads D.known D.geometry D.infos D.tells D.image D.tick D.since D.failed_changes dev.old dev.new }
    ensures cause { HasCause (D.faults dev.old) (D.faults dev.new) (IsErr result) }
{
    let whole = whole_part(geometry, out.len());
    let (front, rest) = out.split_at_mut(whole);
    read_whole(dev, geometry, place, front)?;
    let behind = ZonePlace {
        zone: place.zone,
        offset: place.offset + whole as u64,
    };
    read_part(dev, geometry, behind, block, rest)?;
    Ok(())
}

/// Bytes of a zone. Whole blocks are read window by window, and what lies in part of a block by way of a buffer of one block.
pub(crate) fn read_zone<D: ZonedDevice>(
    dev: &mut D,
    geometry: &Geometry,
    place: ZonePlace,
    block: &mut [u8],
    out: &mut [u8],
) -> Result<(), DevFault>
    requires is_known { D.known dev.old }
    requires is_zone { place.zone < (D.geometry dev.old).zones }
    requires same_geometry { geometry.now ≡ D.geometry dev.old }
    requires buffer { length block.old ≡ geometry.now.block }
    requires written { place.offset + length out.old ≤ (info_at (D.infos dev.old) place.zone).written * geometry.now.block }
    ensures bytes { OnOk result (D.tells → out.new ≡ zone_part (D.image dev.old) place.zone place.offset (length out.old)) }
    ensures same_len { length out.new ≡ length out.old }
    ensures same_buffer { length block.new ≡ length block.old }
    ensures device { OnlyReads D.known D.geometry D.infos D.tells D.image D.tick D.since D.failed_changes dev.old dev.new }
    ensures cause { HasCause (D.faults dev.old) (D.faults dev.new) (IsErr result) }
{
    let first = begun_part(geometry, place, out.len());
    let (front, rest) = out.split_at_mut(first);
    read_part(dev, geometry, place, block, front)?;
    if rest.is_empty() {
        return Ok(());
    }
    let behind = ZonePlace {
        zone: place.zone,
        offset: place.offset + first as u64,
    };
    read_blocks(dev, geometry, behind, block, rest)?;
    Ok(())
}
