// The bytes of one record, read from a device.
ghost use Rattle.std.specs.Prelude.{◌≡◌, ◌+◌, ◌*◌, ◌≤◌, ◌<◌, ◌++◌, length, take, drop, IfOk, OnOk, IsErrOf};
ghost use Rattle.zone_image.specs.Changes.{bytes_at};
ghost use Rattle.zone_image.specs.Counts.{HasCause};
ghost use Rattle.zone_image.specs.Infos.{info_at};
ghost use Rattle.zone_image.specs.Reads.{OnlyReads};
ghost use Rattle.zoned_device.specs.Window.{window};

use crate::error::LogError;
use crate::record::HEADER;
use record_model::Payload;
use std::alloc::Global;
use zoned_device::ZonedDevice;

/// Reads so many blocks of a zone, from this one on, behind the bytes, and no more of them at once than `most`.
pub(crate) fn read_blocks<D: ZonedDevice>(
    dev: &mut D,
    zone: u32,
    from: u32,
    count: u32,
    block_size: u32,
    most: u32,
    bytes: &mut Vec<u8>,
) -> Result<(), LogError>
    requires is_known { D.known dev.old }
    requires is_zone { zone < (D.geometry dev.old).zones }
    requires same_block { block_size ≡ (D.geometry dev.old).block }
    requires same_window { most ≡ window (D.geometry dev.old) }
    requires written { from + count ≤ (info_at (D.infos dev.old) zone).written }
    ensures read { OnOk result (D.tells → bytes.new.items ≡ bytes.old.items ++ bytes_at (D.image dev.old) zone from count) }
    ensures len { OnOk result (length bytes.new.items ≡ length bytes.old.items + count * block_size) }
    ensures device { OnlyReads D.known D.geometry D.infos D.tells D.image D.tick D.since D.failed_changes dev.old dev.new }
    ensures cause { HasCause (D.faults dev.old) (D.faults dev.new) (IsErrOf result LogError.DevFault) }
{
    let old_len = bytes.len();
    let more = count as usize * block_size as usize;
    if bytes.resize(old_len + more, 0).is_err() {
        return Err(LogError::NoMemory);
    }
    let part = &mut bytes[old_len..];
    fill(dev, zone, from, count, block_size, most, part)?;
    Ok(())
}

// Reads so many blocks into a slice of just their length.
fn fill<D: ZonedDevice>(
    dev: &mut D,
    zone: u32,
    from: u32,
    count: u32,
    block_size: u32,
    most: u32,
    part: &mut [u8],
) -> Result<(), LogError>
    requires is_known { D.known dev.old }
    requires is_zone { zone < (D.geometry dev.old).zones }
    requires same_block { block_size ≡ (D.geometry dev.old).block }
    requires same_window { most ≡ window (D.geometry dev.old) }
    requires whole { length part.old ≡ count * block_size }
    requires written { from + count ≤ (info_at (D.infos dev.old) zone).written }
    ensures read { OnOk result (D.tells → part.new ≡ bytes_at (D.image dev.old) zone from count) }
    ensures device { OnlyReads D.known D.geometry D.infos D.tells D.image D.tick D.since D.failed_changes dev.old dev.new }
    ensures cause { HasCause (D.faults dev.old) (D.faults dev.new) (IsErrOf result LogError.DevFault) }
{
    match zoned_device::read_blocks(dev, block_size, most, zone, from, part) {
        Ok(()) => Ok(()),
        Err(_) => Err(LogError::DevFault),
    }
}

/// The payload of this length that stands behind the header of the record in these blocks.
pub(crate) fn copied(alloc: Global, blocks: &[u8], len: u32) -> Result<Payload, LogError>
    requires { HEADER + len ≤ length blocks.now }
    ensures payload { IfOk result (λ payload. payload ≡ take len (drop 8 blocks.now)) }
    ensures len { IfOk result (λ payload. length payload ≡ len) }
    ensures memory { IsErrOf result LogError.DevFault → ⊥ }
{
    let payload = &blocks[HEADER..HEADER + len as usize];
    match Vec::from_slice(alloc, payload) {
        Ok(bytes) => Ok(Payload::from_vec(bytes)),
        Err(_) => Err(LogError::NoMemory),
    }
}

/// What stands behind the header in the first block of a record, with room for the others: the record has so many bytes.
pub(crate) fn begun(alloc: Global, first: &[u8], size: usize) -> Result<Vec<u8>, LogError>
    requires first { HEADER ≤ length first.now }
    requires room { HEADER ≤ size }
    ensures bytes { IfOk result (λ bytes. bytes.items ≡ drop 8 first.now) }
    ensures memory { IsErrOf result LogError.DevFault → ⊥ }
{
    let Ok(mut bytes) = Vec::with_capacity(alloc, size - HEADER) else {
        return Err(LogError::NoMemory);
    };
    match bytes.extend_from_slice(&first[HEADER..]) {
        Ok(()) => Ok(bytes),
        Err(_) => Err(LogError::NoMemory),
    }
}
