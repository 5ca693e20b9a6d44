// The old log of a roll: it gets an end record, and its zone is sealed.
ghost use Rattle.std.specs.Prelude.{◌≡◌, ◌*◌, ◌<◌, ◌≤◌, vec_capacity, OnOk, IsErr};
ghost use Rattle.zone_image.specs.Changes.{finished};
ghost use Rattle.zone_image.specs.Infos.{active_zones, info_at, infos_finished};
ghost use Rattle.zone_image.specs.Moments.{PassedByFinish};
ghost use Rattle.log_model.specs.LogScan.{blocks_of};
ghost use Rattle.zoned_device.specs.DataKept.{KeepsData};
ghost use Rattle.zoned_device.specs.DeviceSteps.{ChangesDevice};
ghost use Rattle.log_roll.specs.Rolling.{PassedByClose, PassedByEnd, closed, ended, gets_end, infos_closed, infos_ended};

use crate::records::write_record;
use crate::steps::{finish, report};
use zone_image::{Geometry, ZoneInfo};
use zoned_device::{DevFault, ZonedDevice};

// The payload of an end record.
const END: [u8; 4] = [4, 0, 0, 0];

// Adds an end record to the log of a zone that may have one, where the zone isn't sealed and has a free block.
fn end_log<D: ZonedDevice>(
    dev: &mut D,
    geometry: &Geometry,
    zone: u32,
    can_end: bool,
    bytes: &mut Vec<u8>,
) -> Result<(), DevFault>
    requires is_known { D.known dev.old }
    requires same_geometry { geometry.now ≡ D.geometry dev.old }
    requires is_zone { zone < (D.geometry dev.old).zones }
    requires active { (info_at (D.infos dev.old) zone).written ≡ 0 → active_zones (D.infos dev.old) < geometry.now.active_limit }
    requires memory { geometry.now.block ≤ vec_capacity bytes.old }
    ensures infos { OnOk result (D.infos dev.new ≡ infos_ended geometry.now can_end zone (D.infos dev.old)) }
    ensures image { OnOk result (D.tells → D.image dev.new ≡ ended can_end zone (D.image dev.old)) }
    ensures device { ChangesDevice D.known D.geometry D.tells D.image D.tick D.since D.faults D.failed_changes dev.old dev.new (IsErr result)
        (PassedByEnd can_end zone (D.image dev.old)) }
    ensures data_kept { zone < 3 → KeepsData D.infos D.tells D.image dev.old dev.new }
    ensures memory { vec_capacity bytes.old ≤ vec_capacity bytes.new }
{
    let info = report(dev, zone)?;
    end_with(dev, geometry, zone, can_end, info, bytes)
}

// The same, where the zone has this number and seal.
fn end_with<D: ZonedDevice>(
    dev: &mut D,
    geometry: &Geometry,
    zone: u32,
    can_end: bool,
    info: ZoneInfo,
    bytes: &mut Vec<u8>,
) -> Result<(), DevFault>
    requires is_known { D.known dev.old }
    requires same_geometry { geometry.now ≡ D.geometry dev.old }
    requires is_zone { zone < (D.geometry dev.old).zones }
    requires active { (info_at (D.infos dev.old) zone).written ≡ 0 → active_zones (D.infos dev.old) < geometry.now.active_limit }
    requires memory { geometry.now.block ≤ vec_capacity bytes.old }
    requires told { info ≡ info_at (D.infos dev.old) zone }
    ensures infos { OnOk result (D.infos dev.new ≡ infos_ended geometry.now can_end zone (D.infos dev.old)) }
    ensures image { OnOk result (D.tells → D.image dev.new ≡ ended can_end zone (D.image dev.old)) }
    ensures device { ChangesDevice D.known D.geometry D.tells D.image D.tick D.since D.faults D.failed_changes dev.old dev.new (IsErr result)
        (PassedByEnd can_end zone (D.image dev.old)) }
    ensures data_kept { zone < 3 → KeepsData D.infos D.tells D.image dev.old dev.new }
    ensures memory { vec_capacity bytes.old ≤ vec_capacity bytes.new }
{
    if gets_end(geometry.capacity, can_end, info) {
        return write_record(dev, geometry, zone, &END, bytes);
    }
    Ok(())
}

// Whether a zone gets an end record: its log may have one, and the zone isn't sealed and has a free block.
fn gets_end(capacity: u32, can_end: bool, info: ZoneInfo) -> bool
    ensures { result ≡ gets_end capacity can_end info }
{
    can_end && !info.sealed && info.written < capacity
}

// Seals a zone, unless it is sealed.
fn seal<D: ZonedDevice>(dev: &mut D, zone: u32) -> Result<(), DevFault>
    requires is_known { D.known dev.old }
    requires is_zone { zone < (D.geometry dev.old).zones }
    ensures infos { OnOk result (D.infos dev.new ≡ infos_finished (D.infos dev.old) zone) }
    ensures image { OnOk result (D.tells → D.image dev.new ≡ finished (D.image dev.old) zone) }
    ensures device { ChangesDevice D.known D.geometry D.tells D.image D.tick D.since D.faults D.failed_changes dev.old dev.new (IsErr result)
        (PassedByFinish (D.image dev.old) zone) }
    ensures data_kept { zone < 3 → KeepsData D.infos D.tells D.image dev.old dev.new }
{
    let info = report(dev, zone)?;
    seal_with(dev, zone, info)
}

// The same, where the zone has this number and seal.
fn seal_with<D: ZonedDevice>(dev: &mut D, zone: u32, info: ZoneInfo) -> Result<(), DevFault>
    requires is_known { D.known dev.old }
    requires is_zone { zone < (D.geometry dev.old).zones }
    requires told { info ≡ info_at (D.infos dev.old) zone }
    ensures infos { OnOk result (D.infos dev.new ≡ infos_finished (D.infos dev.old) zone) }
    ensures image { OnOk result (D.tells → D.image dev.new ≡ finished (D.image dev.old) zone) }
    ensures device { ChangesDevice D.known D.geometry D.tells D.image D.tick D.since D.faults D.failed_changes dev.old dev.new (IsErr result)
        (PassedByFinish (D.image dev.old) zone) }
    ensures data_kept { zone < 3 → KeepsData D.infos D.tells D.image dev.old dev.new }
{
    if info.sealed {
        return Ok(());
    }
    finish(dev, zone)
}

// Ends the log of a zone, and seals the zone.
pub(crate) fn close_log<D: ZonedDevice>(
    dev: &mut D,
    geometry: &Geometry,
    zone: u32,
    can_end: bool,
    bytes: &mut Vec<u8>,
) -> Result<(), DevFault>
    requires is_known { D.known dev.old }
    requires same_geometry { geometry.now ≡ D.geometry dev.old }
    requires is_zone { zone < (D.geometry dev.old).zones }
    requires active { (info_at (D.infos dev.old) zone).written ≡ 0 → active_zones (D.infos dev.old) < geometry.now.active_limit }
    requires memory { geometry.now.block ≤ vec_capacity bytes.old }
    ensures infos { OnOk result (D.infos dev.new ≡ infos_closed geometry.now can_end zone (D.infos dev.old)) }
    ensures image { OnOk result (D.tells → D.image dev.new ≡ closed can_end zone (D.image dev.old)) }
    ensures device { ChangesDevice D.known D.geometry D.tells D.image D.tick D.since D.faults D.failed_changes dev.old dev.new (IsErr result)
        (PassedByClose can_end zone (D.image dev.old)) }
    ensures data_kept { zone < 3 → KeepsData D.infos D.tells D.image dev.old dev.new }
    ensures memory { vec_capacity bytes.old ≤ vec_capacity bytes.new }
{
    end_log(dev, geometry, zone, can_end, bytes)?;
    seal(dev, zone)
}
