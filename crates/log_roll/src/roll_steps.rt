// The steps of a roll, without any memory.
ghost use Rattle.std.specs.Prelude.{◌≡◌, ◌+◌, ◌*◌, ◌^◌, ◌<◌, ◌≤◌, ◌++◌, drop, length, vec_capacity, OnOk, IsErr};
ghost use Rattle.zone_image.specs.Changes.{emptied, synced};
ghost use Rattle.zone_image.specs.Infos.{active_zones, info_at, infos_emptied, no_info};
ghost use Rattle.log_model.specs.LogScan.{blocks_of, record_blocks};
ghost use Rattle.zoned_device.specs.DataKept.{KeepsData};
ghost use Rattle.zoned_device.specs.DeviceSteps.{ChangesDevice};
ghost use Rattle.log_roll.specs.NewLog.{begun, infos_begun};
ghost use Rattle.log_roll.specs.Resets.{emptied_two, infos_emptied_two};
ghost use Rattle.log_roll.specs.Rolling.{PassedByOld, PassedByReplace, PassedByRoll, PassedByStart, PassedByWrite, infos_old_closed, next_zone, old_closed, rolled_image, rolled_infos, third_zone};

use crate::log_end::close_log;
use crate::records::begin_log;
use crate::resets::clear_two;
use crate::steps::{reset, sync};
use superblock_core::SUPERBLOCK_BYTES;
use zone_image::Geometry;
use zoned_device::{DevFault, ZonedDevice};

// Makes all blocks durable, and empties two zones.
fn start_roll<D: ZonedDevice>(dev: &mut D, first: u32, second: u32) -> Result<(), DevFault>
    requires is_known { D.known dev.old }
    requires first_is_zone { first < (D.geometry dev.old).zones }
    requires second_is_zone { second < (D.geometry dev.old).zones }
    ensures infos { OnOk result (D.infos dev.new ≡ infos_emptied_two (D.infos dev.old) first second) }
    ensures image { OnOk result (D.tells → D.image dev.new ≡ emptied_two (synced (D.image dev.old)) first second) }
    ensures device { ChangesDevice D.known D.geometry D.tells D.image D.tick D.since D.faults D.failed_changes dev.old dev.new (IsErr result)
        (PassedByStart first second (D.image dev.old)) }
    ensures data_kept { first < 3 → second < 3 → KeepsData D.infos D.tells D.image dev.old dev.new }
{
    sync(dev)?;
    clear_two(dev, first, second)
}

// The metadata zone behind this one.
pub(crate) fn next_zone(zone: u32) -> u32
    requires { zone < 3 }
    ensures { result ≡ next_zone zone }
{
    (zone + 1) % 3
}

// The metadata zone behind that.
fn third_zone(zone: u32) -> u32
    requires { zone < 3 }
    ensures { result ≡ third_zone zone }
{
    (zone + 2) % 3
}

// Makes all blocks durable, empties the other metadata zones, and ends and seals the old log.
fn close_old<D: ZonedDevice>(
    dev: &mut D,
    geometry: &Geometry,
    zone: u32,
    can_end: bool,
    bytes: &mut Vec<u8>,
) -> Result<(), DevFault>
    requires is_known { D.known dev.old }
    requires same_geometry { geometry.now ≡ D.geometry dev.old }
    requires is_metadata { zone < 3 }
    requires metadata { 2 < (D.geometry dev.old).zones }
    requires active { active_zones (drop 3 (D.infos dev.old)) < geometry.now.active_limit }
    requires memory { geometry.now.block ≤ vec_capacity bytes.old }
    ensures infos { OnOk result (D.infos dev.new ≡ infos_old_closed geometry.now can_end zone (D.infos dev.old)) }
    ensures image { OnOk result (D.tells → D.image dev.new ≡ old_closed can_end zone (D.image dev.old)) }
    ensures device { ChangesDevice D.known D.geometry D.tells D.image D.tick D.since D.faults D.failed_changes dev.old dev.new (IsErr result)
        (PassedByOld can_end zone (D.image dev.old)) }
    ensures data_kept { KeepsData D.infos D.tells D.image dev.old dev.new }
    ensures memory { vec_capacity bytes.old ≤ vec_capacity bytes.new }
{
    start_roll(dev, next_zone(zone), third_zone(zone))?;
    close_log(dev, geometry, zone, can_end, bytes)
}

// Begins a log in an empty zone, and makes it durable.
fn write_new<D: ZonedDevice>(
    dev: &mut D,
    geometry: &Geometry,
    zone: u32,
    superblock: &[u8],
    snapshot: &[u8],
    bytes: &mut Vec<u8>,
) -> Result<(), DevFault>
    requires is_known { D.known dev.old }
    requires same_geometry { geometry.now ≡ D.geometry dev.old }
    requires is_zone { zone < (D.geometry dev.old).zones }
    requires size { length superblock.now ≡ SUPERBLOCK_BYTES }
    requires some_snapshot { 1 ≤ length snapshot.now }
    requires snapshot_fits { length snapshot.now < 2 ^ 32 }
    requires empty { info_at (D.infos dev.old) zone ≡ no_info }
    requires room { blocks_of geometry.now.block SUPERBLOCK_BYTES + blocks_of geometry.now.block (length snapshot.now) < geometry.now.capacity }
    requires active { active_zones (D.infos dev.old) < geometry.now.active_limit }
    requires memory { blocks_of geometry.now.block SUPERBLOCK_BYTES * geometry.now.block ≤ vec_capacity bytes.old }
    requires more_memory { blocks_of geometry.now.block (length snapshot.now) * geometry.now.block ≤ vec_capacity bytes.old }
    ensures infos { OnOk result (D.infos dev.new ≡ infos_begun geometry.now (D.infos dev.old) zone (blocks_of geometry.now.block SUPERBLOCK_BYTES)
        (blocks_of geometry.now.block (length snapshot.now))) }
    ensures image { OnOk result (D.tells → D.image dev.new ≡ synced (begun zone (record_blocks geometry.now.block superblock.now)
        (record_blocks geometry.now.block snapshot.now) (D.image dev.old))) }
    ensures device { ChangesDevice D.known D.geometry D.tells D.image D.tick D.since D.faults D.failed_changes dev.old dev.new (IsErr result)
        (PassedByWrite zone (record_blocks geometry.now.block superblock.now) (record_blocks geometry.now.block snapshot.now) (D.image dev.old)) }
    ensures data_kept { zone < 3 → KeepsData D.infos D.tells D.image dev.old dev.new }
    ensures memory { vec_capacity bytes.old ≤ vec_capacity bytes.new }
{
    begin_log(dev, geometry, zone, superblock, snapshot, bytes)?;
    sync(dev)
}

// Begins a log in the empty zone behind the old one, makes it durable, and empties the old zone.
fn replace_old<D: ZonedDevice>(
    dev: &mut D,
    geometry: &Geometry,
    zone: u32,
    superblock: &[u8],
    snapshot: &[u8],
    bytes: &mut Vec<u8>,
) -> Result<(), DevFault>
    requires is_known { D.known dev.old }
    requires same_geometry { geometry.now ≡ D.geometry dev.old }
    requires is_metadata { zone < 3 }
    requires metadata { 2 < (D.geometry dev.old).zones }
    requires size { length superblock.now ≡ SUPERBLOCK_BYTES }
    requires some_snapshot { 1 ≤ length snapshot.now }
    requires snapshot_fits { length snapshot.now < 2 ^ 32 }
    requires empty { info_at (D.infos dev.old) (next_zone zone) ≡ no_info }
    requires room { blocks_of geometry.now.block SUPERBLOCK_BYTES + blocks_of geometry.now.block (length snapshot.now) < geometry.now.capacity }
    requires active { active_zones (D.infos dev.old) < geometry.now.active_limit }
    requires memory { blocks_of geometry.now.block SUPERBLOCK_BYTES * geometry.now.block ≤ vec_capacity bytes.old }
    requires more_memory { blocks_of geometry.now.block (length snapshot.now) * geometry.now.block ≤ vec_capacity bytes.old }
    ensures infos { OnOk result (D.infos dev.new ≡ infos_emptied (infos_begun geometry.now (D.infos dev.old) (next_zone zone) (blocks_of geometry.now.block SUPERBLOCK_BYTES)
        (blocks_of geometry.now.block (length snapshot.now))) zone) }
    ensures image { OnOk result (D.tells → D.image dev.new ≡ emptied (synced (begun (next_zone zone) (record_blocks geometry.now.block superblock.now)
        (record_blocks geometry.now.block snapshot.now) (D.image dev.old))) zone) }
    ensures device { ChangesDevice D.known D.geometry D.tells D.image D.tick D.since D.faults D.failed_changes dev.old dev.new (IsErr result)
        (PassedByReplace zone (record_blocks geometry.now.block superblock.now) (record_blocks geometry.now.block snapshot.now) (D.image dev.old)) }
    ensures data_kept { KeepsData D.infos D.tells D.image dev.old dev.new }
    ensures memory { vec_capacity bytes.old ≤ vec_capacity bytes.new }
{
    let next = next_zone(zone);
    write_new(dev, geometry, next, superblock, snapshot, bytes)?;
    reset(dev, zone)
}

// All steps of a roll.
pub(crate) fn write_roll<D: ZonedDevice>(
    dev: &mut D,
    geometry: &Geometry,
    zone: u32,
    can_end: bool,
    superblock: &[u8],
    snapshot: &[u8],
    bytes: &mut Vec<u8>,
) -> Result<(), DevFault>
    requires is_known { D.known dev.old }
    requires same_geometry { geometry.now ≡ D.geometry dev.old }
    requires is_metadata { zone < 3 }
    requires metadata { 2 < (D.geometry dev.old).zones }
    requires size { length superblock.now ≡ SUPERBLOCK_BYTES }
    requires some_snapshot { 1 ≤ length snapshot.now }
    requires snapshot_fits { length snapshot.now < 2 ^ 32 }
    requires room { blocks_of geometry.now.block SUPERBLOCK_BYTES + blocks_of geometry.now.block (length snapshot.now) < geometry.now.capacity }
    requires active { active_zones (drop 3 (D.infos dev.old)) < geometry.now.active_limit }
    requires end_memory { geometry.now.block ≤ vec_capacity bytes.old }
    requires memory { blocks_of geometry.now.block SUPERBLOCK_BYTES * geometry.now.block ≤ vec_capacity bytes.old }
    requires more_memory { blocks_of geometry.now.block (length snapshot.now) * geometry.now.block ≤ vec_capacity bytes.old }
    ensures infos { OnOk result (D.infos dev.new ≡ rolled_infos (D.infos dev.old) (next_zone zone) (blocks_of geometry.now.block SUPERBLOCK_BYTES
        + blocks_of geometry.now.block (length snapshot.now))) }
    ensures image { OnOk result (D.tells → D.image dev.new ≡ rolled_image (D.image dev.old) (next_zone zone) (record_blocks geometry.now.block superblock.now
        ++ record_blocks geometry.now.block snapshot.now)) }
    ensures device { ChangesDevice D.known D.geometry D.tells D.image D.tick D.since D.faults D.failed_changes dev.old dev.new (IsErr result)
        (PassedByRoll can_end zone (record_blocks geometry.now.block superblock.now) (record_blocks geometry.now.block snapshot.now) (D.image dev.old)) }
    ensures data_kept { KeepsData D.infos D.tells D.image dev.old dev.new }
    ensures memory { vec_capacity bytes.old ≤ vec_capacity bytes.new }
{
    match close_old(dev, geometry, zone, can_end, bytes) {
        Ok(()) => replace_old(dev, geometry, zone, superblock, snapshot, bytes),
        Err(fault) => Err(fault),
    }
}
