// Bytes of single blocks, and whole blocks.
ghost use Rattle.std.specs.Prelude.{◌≡◌, ◌+◌, ◌*◌, ◌/◌, ◌%◌, ◌≤◌, ◌<◌, length, take, drop, IsErr, OnOk};
ghost use Rattle.zone_image.specs.Counts.{HasCause};
ghost use Rattle.zone_image.specs.Infos.{info_at};
ghost use Rattle.zone_image.specs.Reads.{OnlyReads};
ghost use Rattle.zone_image.specs.Changes.{bytes_at};
ghost use Rattle.extent_reader.specs.ZoneParts.{zone_part};

use zone_image::Geometry;
use zoned_device::{DevFault, ZonedDevice, read_blocks, window};

/// Bytes of a zone, by its number and the offset of the first of them.
#[derive(Clone, Copy)]
pub(crate) struct ZonePlace {
    pub(crate) zone: u32,
    pub(crate) offset: u64,
}

// The block in which a place lies.
fn block_of(geometry: &Geometry, place: ZonePlace) -> u64
    requires { 0 < geometry.now.block }
    ensures { result ≡ place.offset / geometry.now.block }
{
    place.offset / u64::from(geometry.block)
}

/// Whole blocks of a zone, as many at once as the device reads.
pub(crate) fn read_whole<D: ZonedDevice>(
    dev: &mut D,
    geometry: &Geometry,
    place: ZonePlace,
    out: &mut [u8],
) -> Result<(), DevFault>
    requires is_known { D.known dev.old }
    requires is_zone { place.zone < (D.geometry dev.old).zones }
    requires same_geometry { geometry.now ≡ D.geometry dev.old }
    requires starts { place.offset % geometry.now.block ≡ 0 }
    requires whole { length out.old % geometry.now.block ≡ 0 }
    requires written { place.offset + length out.old ≤ (info_at (D.infos dev.old) place.zone).written * geometry.now.block }
    ensures bytes { OnOk result (D.tells → out.new ≡ zone_part (D.image dev.old) place.zone place.offset (length out.old)) }
    ensures same_len { length out.new ≡ length out.old }
    ensures device { OnlyReads D.known D.geometry D.infos D.tells D.image D.tick D.since D.failed_changes dev.old dev.new }
    ensures cause { HasCause (D.faults dev.old) (D.faults dev.new) (IsErr result) }
{
    if out.is_empty() {
        return Ok(());
    }
    let block = block_of(geometry, place) as u32;
    read_blocks(
        dev,
        geometry.block,
        window(geometry),
        place.zone,
        block,
        out,
    )?;
    Ok(())
}

/// Bytes of one block of a zone. The block is read as a whole.
pub(crate) fn read_part<D: ZonedDevice>(
    dev: &mut D,
    geometry: &Geometry,
    place: ZonePlace,
    block: &mut [u8],
    out: &mut [u8],
) -> Result<(), DevFault>
    requires is_known { D.known dev.old }
    requires is_zone { place.zone < (D.geometry dev.old).zones }
    requires same_geometry { geometry.now ≡ D.geometry dev.old }
    requires buffer { length block.old ≡ geometry.now.block }
    requires within { place.offset % geometry.now.block + length out.old ≤ geometry.now.block }
    requires written { place.offset + length out.old ≤ (info_at (D.infos dev.old) place.zone).written * geometry.now.block }
    ensures bytes { OnOk result (D.tells → out.new ≡ zone_part (D.image dev.old) place.zone place.offset (length out.old)) }
    ensures same_len { length out.new ≡ length out.old }
    ensures same_buffer { length block.new ≡ length block.old }
    ensures device { OnlyReads D.known D.geometry D.infos D.tells D.image D.tick D.since D.failed_changes dev.old dev.new }
    ensures cause { HasCause (D.faults dev.old) (D.faults dev.new) (IsErr result) }
{
    if out.is_empty() {
        return Ok(());
    }
    let number = block_of(geometry, place) as u32;
    dev.read(place.zone, number, block)?;
    let skip = skip_of(geometry, place) as usize;
    copy_part(block, skip, out);
    Ok(())
}

// How many bytes of its block lie before a place.
fn skip_of(geometry: &Geometry, place: ZonePlace) -> u64
    requires { 0 < geometry.now.block }
    ensures exact { result ≡ place.offset % geometry.now.block }
    ensures below { result < geometry.now.block }
{
    place.offset % u64::from(geometry.block)
}

// The bytes of a block behind the first ones.
fn copy_part(block: &[u8], skip: usize, out: &mut [u8])
    requires { skip + length out.old ≤ length block.now }
    ensures part { out.new ≡ take (length out.old) (drop skip block.now) }
    ensures same_len { length out.new ≡ length out.old }
{
    let end = skip + out.len();
    let found = &block[skip..end];
    out.copy_from_slice(found);
}
