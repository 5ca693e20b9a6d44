// Whether a device has the beginning of a log.
ghost use Rattle.std.specs.Prelude.{◌≡◌, ◌<◌, length, IfOk, IsErrOf};
ghost use Rattle.zone_image.specs.Counts.{HasCause};
ghost use Rattle.zone_image.specs.Reads.{OnlyReads};
ghost use Rattle.superblock_core.specs.Superblock.{magic, u32_at};
ghost use Rattle.log_model.specs.Format.{begins_in, first_payload, looks_formatted};
ghost use Rattle.log_roll.specs.Beginnings.{has_magic};

use crate::first::u32_at;
use crate::next::{NextRecord, next_record, written_of};
use meta_log::{LogError, LogReader};
use std::alloc::Global;
use superblock_core::SUPERBLOCK_BYTES;
use zone_image::Geometry;
use zoned_device::ZonedDevice;

// The number with which a superblock begins.
const MAGIC: u32 = 0x5A45_4E46;

/// The lowest metadata zone whose first payload has 512 bytes and begins with a superblock's magic
/// number, whatever else is wrong with it. It only reads. Where the device tells its image, the answer
/// is that of the image (`begins`). `DevFault` comes only where the device's count of faults rose, and
/// `NoMemory` where memory is wanting.
pub fn begins<D: ZonedDevice>(
    alloc: Global,
    dev: &mut D,
    geometry: &Geometry,
) -> Result<Option<u32>, LogError>
    requires is_known { D.known dev.old }
    requires same_geometry { geometry.now ≡ D.geometry dev.old }
    ensures begins { IfOk result (λ zone. D.tells → zone ≡ begins_in (D.image dev.old)) }
    ensures device { OnlyReads D.known D.geometry D.infos D.tells D.image D.tick D.since D.failed_changes dev.old dev.new }
    ensures cause { HasCause (D.faults dev.old) (D.faults dev.new) (IsErrOf result LogError.DevFault) }
{
    let first = looks_formatted(alloc, dev, geometry, 0)?;
    if first {
        return Ok(Some(0));
    }
    let second = looks_formatted(alloc, dev, geometry, 1)?;
    if second {
        return Ok(Some(1));
    }
    let third = looks_formatted(alloc, dev, geometry, 2)?;
    if third {
        return Ok(Some(2));
    }
    Ok(None)
}

// Whether the first payload of a metadata zone has the length and the magic number of a superblock.
fn looks_formatted<D: ZonedDevice>(
    alloc: Global,
    dev: &mut D,
    geometry: &Geometry,
    zone: u32,
) -> Result<bool, LogError>
    requires is_known { D.known dev.old }
    requires same_geometry { geometry.now ≡ D.geometry dev.old }
    requires is_metadata { zone < 3 }
    ensures looks { IfOk result (λ looks. D.tells → looks ≡ looks_formatted (first_payload (D.image dev.old) zone)) }
    ensures device { OnlyReads D.known D.geometry D.infos D.tells D.image D.tick D.since D.failed_changes dev.old dev.new }
    ensures cause { HasCause (D.faults dev.old) (D.faults dev.new) (IsErrOf result LogError.DevFault) }
{
    let written = written_of(dev, zone)?;
    let mut reader = LogReader::new(alloc, zone, geometry, written);
    let next = next_record(alloc, dev, &mut reader)?;
    match next {
        NextRecord::End(_) => Ok(false),
        NextRecord::Payload { block: _, bytes } => Ok(has_magic(bytes.items())),
    }
}

// Whether a payload has the length and the magic number of a superblock.
fn has_magic(payload: &[u8]) -> bool
    ensures { result ≡ has_magic payload.now }
{
    payload.len() == SUPERBLOCK_BYTES && u32_at(payload, 0) == MAGIC
}
