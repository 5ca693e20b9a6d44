// A device is formatted: an empty file system is made on it.
ghost use Rattle.std.specs.Prelude.{◌≡◌, ℕ, ◌⊎◌, ◌*◌, ◌<◌, ◌≤◌, IsTrue, length, vec_capacity, IfOk, OnOk, IsErr, IsErrOf, []};
ghost use Rattle.zone_image.specs.Changes.{blank, synced};
ghost use Rattle.zone_image.specs.Image.{Image};
ghost use Rattle.zone_image.specs.Infos.{infos_blank, infos_of, IsValidImage};
ghost use Rattle.superblock_core.specs.Superblock.{fits};
ghost use Rattle.log_model.specs.LogScan.{blocks_of, record_blocks};
ghost use Rattle.log_model.specs.Format.{formatted_image, reset_order};
ghost use Rattle.zoned_device.specs.DeviceSteps.{ChangesDevice};
ghost use Rattle.log_roll.specs.Resets.{emptied_three, infos_emptied_three};
ghost use Rattle.log_roll.specs.NewLog.{begun, infos_begun};
ghost use Rattle.record_model.specs.Encoding.{payload_of};
ghost use Rattle.record_model.specs.declared.types.Record.TheVariants.{Snapshot};
ghost use Rattle.log_roll.specs.FormatLeaves.{HasNewLog};
ghost use Rattle.log_roll.specs.FormatOrder.{AreMetadata, zones_of};
ghost use Rattle.log_roll.specs.Formatting.{LeftByFormat, PassedByEmptying, PassedByFirstLog, PassedByFirstResets, PassedByFormat};

use crate::order::{ResetOrder, reset_order};
use crate::records::begin_log;
use crate::resets::{clear_data, reset_three};
use crate::steps::sync;
use meta_log::{LogError, blocks_of};
use std::alloc::{AllocError, Global};
use superblock_core::{SUPERBLOCK_BYTES, Superblock};
use zone_image::Geometry;
use zoned_device::{DevFault, ZonedDevice};

// The payload of a snapshot without files.
const EMPTY_SNAPSHOT: [u8; 5] = [1, 0, 0, 0, 0];

// Makes all blocks durable, and resets the metadata zones in this order.
fn reset_metadata<D: ZonedDevice>(
    dev: &mut D,
    first: u32,
    second: u32,
    third: u32,
) -> Result<(), DevFault>
    requires is_known { D.known dev.old }
    requires first_is_zone { first < (D.geometry dev.old).zones }
    requires second_is_zone { second < (D.geometry dev.old).zones }
    requires third_is_zone { third < (D.geometry dev.old).zones }
    ensures infos { OnOk result (D.infos dev.new ≡ infos_emptied_three (D.infos dev.old) first second third) }
    ensures image { OnOk result (D.tells → D.image dev.new ≡ emptied_three (synced (D.image dev.old)) first second third) }
    ensures device { ChangesDevice D.known D.geometry D.tells D.image D.tick D.since D.faults D.failed_changes dev.old dev.new (IsErr result)
        (PassedByFirstResets first second third (D.image dev.old)) }
{
    sync(dev)?;
    reset_three(dev, first, second, third)
}

// Empties all zones, the metadata zones in this order before the data zones.
fn empty_device<D: ZonedDevice>(
    dev: &mut D,
    geometry: &Geometry,
    order: ResetOrder,
) -> Result<(), DevFault>
    requires is_known { D.known dev.old }
    requires same_geometry { geometry.now ≡ D.geometry dev.old }
    requires metadata { 2 < (D.geometry dev.old).zones }
    requires all { AreMetadata order.first order.second order.third }
    ensures infos { OnOk result (D.infos dev.new ≡ infos_blank geometry.now) }
    ensures image { OnOk result (D.tells → D.image dev.new ≡ blank geometry.now) }
    ensures device { ChangesDevice D.known D.geometry D.tells D.image D.tick D.since D.faults D.failed_changes dev.old dev.new (IsErr result)
        (PassedByEmptying order.first order.second order.third (D.image dev.old)) }
{
    reset_metadata(dev, order.first, order.second, order.third)?;
    clear_data(dev, geometry.zones)
}

// Begins the log of an empty file system in zone 0 of an empty device, and makes it durable.
fn write_first_log<D: ZonedDevice>(
    dev: &mut D,
    geometry: &Geometry,
    superblock: &[u8],
    bytes: &mut Vec<u8>,
) -> Result<(), DevFault>
    requires is_known { D.known dev.old }
    requires same_geometry { geometry.now ≡ D.geometry dev.old }
    requires empty { D.infos dev.old ≡ infos_blank geometry.now }
    requires size { length superblock.now ≡ SUPERBLOCK_BYTES }
    requires memory { blocks_of geometry.now.block SUPERBLOCK_BYTES * geometry.now.block ≤ vec_capacity bytes.old }
    ensures infos { OnOk result (D.infos dev.new ≡ infos_begun geometry.now (D.infos dev.old) 0 (blocks_of geometry.now.block SUPERBLOCK_BYTES)
        (blocks_of geometry.now.block 5)) }
    ensures image { OnOk result (D.tells → D.image dev.new
        ≡ synced (begun 0 (record_blocks geometry.now.block superblock.now) (record_blocks geometry.now.block EMPTY_SNAPSHOT) (D.image dev.old))) }
    ensures device { ChangesDevice D.known D.geometry D.tells D.image D.tick D.since D.faults D.failed_changes dev.old dev.new (IsErr result)
        (PassedByFirstLog (record_blocks geometry.now.block superblock.now) (record_blocks geometry.now.block EMPTY_SNAPSHOT) (D.image dev.old)) }
{
    begin_log(dev, geometry, 0, superblock, &EMPTY_SNAPSHOT, bytes)?;
    sync(dev)
}

// Empties all zones, and begins the log of an empty file system.
fn write_format<D: ZonedDevice>(
    dev: &mut D,
    geometry: &Geometry,
    order: ResetOrder,
    superblock: &[u8],
    bytes: &mut Vec<u8>,
) -> Result<(), DevFault>
    requires is_known { D.known dev.old }
    requires same_geometry { geometry.now ≡ D.geometry dev.old }
    requires metadata { 2 < (D.geometry dev.old).zones }
    requires all { AreMetadata order.first order.second order.third }
    requires size { length superblock.now ≡ SUPERBLOCK_BYTES }
    requires memory { blocks_of geometry.now.block SUPERBLOCK_BYTES * geometry.now.block ≤ vec_capacity bytes.old }
    ensures infos { OnOk result (D.infos dev.new ≡ infos_begun geometry.now (infos_blank geometry.now) 0 (blocks_of geometry.now.block SUPERBLOCK_BYTES)
        (blocks_of geometry.now.block 5)) }
    ensures image { OnOk result (D.tells → D.image dev.new
        ≡ synced (begun 0 (record_blocks geometry.now.block superblock.now) (record_blocks geometry.now.block EMPTY_SNAPSHOT) (blank geometry.now))) }
    ensures device { ChangesDevice D.known D.geometry D.tells D.image D.tick D.since D.faults D.failed_changes dev.old dev.new (IsErr result)
        (PassedByFormat geometry.now order.first order.second order.third (record_blocks geometry.now.block superblock.now)
        (record_blocks geometry.now.block EMPTY_SNAPSHOT) (D.image dev.old)) }
{
    empty_device(dev, geometry, order)?;
    write_first_log(dev, geometry, superblock, bytes)
}

// The memory of a superblock's record, which that of an empty snapshot has room in.
fn format_memory(alloc: Global, block: u32) -> Result<Vec<u8>, AllocError>
    requires { (block ≡ 512) ⊎ (block ≡ 4096) }
    ensures { IfOk result (λ bytes. blocks_of block SUPERBLOCK_BYTES * block ≤ vec_capacity bytes) }
{
    let size = blocks_of(SUPERBLOCK_BYTES as u64, block) as usize * block as usize;
    Vec::with_capacity(alloc, size)
}

// The same with the metadata zones in this order.
fn format_in_order<D: ZonedDevice>(
    alloc: Global,
    dev: &mut D,
    geometry: &Geometry,
    superblock: &Superblock,
    order: ResetOrder,
) -> Result<(), LogError>
    requires is_known { D.known dev.old }
    requires same_geometry { geometry.now ≡ D.geometry dev.old }
    requires ordered { D.tells → zones_of order ≡ reset_order (D.image dev.old) }
    requires all { AreMetadata order.first order.second order.third }
    requires flags { superblock.now.flags ≤ 1 }
    requires first { superblock.now.sequence ≡ 1 }
    requires fits { IsTrue (fits superblock.now geometry.now) }
    ensures infos { OnOk result (D.infos dev.new ≡ infos_of (formatted_image geometry.now superblock.now)) }
    ensures image { OnOk result (D.tells → D.image dev.new ≡ formatted_image geometry.now superblock.now) }
    ensures log { OnOk result (D.tells → HasNewLog 0 superblock.now (payload_of (Snapshot [])) (D.image dev.new)) }

    ensures memory { IsErrOf result LogError.NoMemory → (D.infos dev.new ≡ D.infos dev.old) × (D.tells → D.image dev.new ≡ D.image dev.old) }

    ensures device { ChangesDevice D.known D.geometry D.tells D.image D.tick D.since D.faults D.failed_changes dev.old dev.new (IsErrOf result LogError.DevFault)
        (LeftByFormat geometry.now superblock.now (D.image dev.old)) }
{
    let mut bytes = match format_memory(alloc, geometry.block) {
        Ok(bytes) => bytes,
        Err(_) => return Err(LogError::NoMemory),
    };
    let mut block = [0; SUPERBLOCK_BYTES];
    superblock.encode(&mut block);
    match write_format(dev, geometry, order, &block, &mut bytes) {
        Ok(()) => Ok(()),
        Err(_) => Err(LogError::DevFault),
    }
}

/// Makes an empty file system on a device. What stood there is gone: all blocks are made durable, the metadata
/// zones are reset, first those that don't begin with a superblock that can be read and then the others by rising
/// sequence, then each data zone that has a block or a seal, and the superblock and an empty snapshot are written
/// into zone 0 and made durable. `NoMemory` comes before any change. `DevFault` comes only where the device's
/// count of faults rose.
///
/// Where each crash of the image at entry has a log that counts, what a crash leaves at any moment is one of three
/// things (`device`, `FormatLeaves`): the data zones and the log of such a crash; no file system; or a log in zone 0
/// that has this superblock and an empty snapshot and nothing else.
pub fn format<D: ZonedDevice>(
    alloc: Global,
    dev: &mut D,
    geometry: &Geometry,
    superblock: &Superblock,
) -> Result<(), LogError>
    requires is_known { D.known dev.old }
    requires same_geometry { geometry.now ≡ D.geometry dev.old }
    requires flags { superblock.now.flags ≤ 1 }
    requires first { superblock.now.sequence ≡ 1 }
    requires fits { IsTrue (fits superblock.now geometry.now) }
    ensures infos { OnOk result (D.infos dev.new ≡ infos_of (formatted_image geometry.now superblock.now)) }
    ensures image { OnOk result (D.tells → D.image dev.new ≡ formatted_image geometry.now superblock.now) }
    ensures log { OnOk result (D.tells → HasNewLog 0 superblock.now (payload_of (Snapshot [])) (D.image dev.new)) }

    // After want of memory nothing was written.
    ensures memory { IsErrOf result LogError.NoMemory → (D.infos dev.new ≡ D.infos dev.old) × (D.tells → D.image dev.new ≡ D.image dev.old) }

    ensures device { ChangesDevice D.known D.geometry D.tells D.image D.tick D.since D.faults D.failed_changes dev.old dev.new (IsErrOf result LogError.DevFault)
        (LeftByFormat geometry.now superblock.now (D.image dev.old)) }

    // No crash finds more zones active than the limit.
    ensures limits { (t : ℕ) (j : Image) → D.since dev.new t j → IsValidImage j }
{
    match reset_order(alloc, dev, geometry) {
        Ok(order) => format_in_order(alloc, dev, geometry, superblock, order),
        Err(fault) => Err(fault),
    }
}
