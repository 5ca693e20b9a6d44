// The calls of a device that change its log or empty a zone, each with one clause on what it leaves and passes.
ghost use Rattle.std.specs.Prelude.{◌≡◌, ◌+◌, ◌/◌, ◌%◌, ◌<◌, ◌≤◌, false, length, OnOk, IsErr, ◌==◌};
ghost use Rattle.zone_image.specs.Image.{IsCrash};
ghost use Rattle.zone_image.specs.Changes.{appended, blocks_in, emptied, finished, synced};
ghost use Rattle.zone_image.specs.Infos.{IsValidImage, active_zones, info_at, infos_appended, infos_emptied, infos_finished};
ghost use Rattle.zone_image.specs.Moments.{PassedByAppend, PassedByFinish, PassedByReset};
ghost use Rattle.zoned_device.specs.DataKept.{KeepsData};
ghost use Rattle.zoned_device.specs.DeviceSteps.{ChangesDevice};
ghost use Rattle.zoned_device.specs.OtherData.{KeepsBlocks, KeepsOtherData};

use crate::spelled::SpelledRecord;
use zone_image::Geometry;
use zoned_device::{DevFault, ZonedDevice};

// Makes all blocks durable.
pub(crate) fn sync<D: ZonedDevice>(dev: &mut D) -> Result<(), DevFault>
    requires { D.known dev.old }
    ensures infos { D.infos dev.new ≡ D.infos dev.old }
    ensures image { OnOk result (D.tells → D.image dev.new ≡ synced (D.image dev.old)) }
    ensures device { ChangesDevice D.known D.geometry D.tells D.image D.tick D.since D.faults D.failed_changes dev.old dev.new (IsErr result) (IsCrash (D.image dev.old)) }
    ensures data_kept { KeepsData D.infos D.tells D.image dev.old dev.new }
{
    dev.sync()
}

// Empties a zone.
pub(crate) fn reset<D: ZonedDevice>(dev: &mut D, zone: u32) -> Result<(), DevFault>
    requires is_known { D.known dev.old }
    requires is_zone { zone < (D.geometry dev.old).zones }
    ensures infos { OnOk result (D.infos dev.new ≡ infos_emptied (D.infos dev.old) zone) }
    ensures image { OnOk result (D.tells → D.image dev.new ≡ emptied (D.image dev.old) zone) }
    ensures device { ChangesDevice D.known D.geometry D.tells D.image D.tick D.since D.faults D.failed_changes dev.old dev.new (IsErr result) (PassedByReset (D.image dev.old) zone) }
    ensures data_kept { KeepsOtherData D.infos D.tells D.image (λ n. n == zone) dev.old dev.new }
{
    dev.reset(zone)
}

// Seals a zone.
pub(crate) fn seal<D: ZonedDevice>(dev: &mut D, zone: u32) -> Result<(), DevFault>
    requires is_known { D.known dev.old }
    requires is_zone { zone < (D.geometry dev.old).zones }
    ensures infos { OnOk result (D.infos dev.new ≡ infos_finished (D.infos dev.old) zone) }
    ensures image { OnOk result (D.tells → D.image dev.new ≡ finished (D.image dev.old) zone) }
    ensures device { ChangesDevice D.known D.geometry D.tells D.image D.tick D.since D.faults D.failed_changes dev.old dev.new (IsErr result) (PassedByFinish (D.image dev.old) zone) }
    ensures data_kept { KeepsBlocks D.infos D.tells D.image (λ n. n == zone) dev.old dev.new }
{
    dev.finish(zone)
}

// Appends the blocks of a record to a zone.
pub(crate) fn append<D: ZonedDevice>(
    dev: &mut D,
    geometry: &Geometry,
    zone: u32,
    added: &SpelledRecord,
) -> Result<(), DevFault>
    requires is_known { D.known dev.old }
    requires same_geometry { geometry.now ≡ D.geometry dev.old }
    requires same_block { added.now.block ≡ geometry.now.block }
    requires is_zone { zone < (D.geometry dev.old).zones }
    requires unsealed { (info_at (D.infos dev.old) zone).sealed ≡ false }
    requires room { (info_at (D.infos dev.old) zone).written + length added.now.blocks ≤ geometry.now.capacity }
    requires active { (info_at (D.infos dev.old) zone).written ≡ 0 → active_zones (D.infos dev.old) < geometry.now.active_limit }
    ensures infos { OnOk result (D.infos dev.new ≡ infos_appended geometry.now (D.infos dev.old) zone (length added.now.blocks)) }
    ensures image { OnOk result (D.tells → D.image dev.new ≡ appended (D.image dev.old) zone added.now.blocks) }
    ensures valid { D.tells → IsValidImage (appended (D.image dev.old) zone added.now.blocks) }
    ensures device { ChangesDevice D.known D.geometry D.tells D.image D.tick D.since D.faults D.failed_changes dev.old dev.new (IsErr result)
        (PassedByAppend (D.image dev.old) zone added.now.blocks) }
    ensures data_kept { zone < 3 → KeepsData D.infos D.tells D.image dev.old dev.new }
{
    let _some = added.count();
    append_bytes(dev, zone, added.bytes())
}

// Appends whole blocks to a zone.
fn append_bytes<D: ZonedDevice>(dev: &mut D, zone: u32, bytes: &[u8]) -> Result<(), DevFault>
    requires is_known { D.known dev.old }
    requires is_zone { zone < (D.geometry dev.old).zones }
    requires some { 0 < length bytes.now }
    requires whole { length bytes.now % (D.geometry dev.old).block ≡ 0 }
    requires unsealed { (info_at (D.infos dev.old) zone).sealed ≡ false }
    requires room { (info_at (D.infos dev.old) zone).written + length bytes.now / (D.geometry dev.old).block
        ≤ (D.geometry dev.old).capacity }
    requires active { (info_at (D.infos dev.old) zone).written ≡ 0
        → active_zones (D.infos dev.old) < (D.geometry dev.old).active_limit }
    ensures infos { OnOk result (D.infos dev.new ≡ infos_appended (D.geometry dev.old) (D.infos dev.old) zone
        (length bytes.now / (D.geometry dev.old).block)) }
    ensures image { OnOk result (D.tells → D.image dev.new ≡ appended (D.image dev.old) zone (blocks_in (D.geometry dev.old) bytes.now)) }
    ensures device { ChangesDevice D.known D.geometry D.tells D.image D.tick D.since D.faults D.failed_changes dev.old dev.new (IsErr result)
        (PassedByAppend (D.image dev.old) zone (blocks_in (D.geometry dev.old) bytes.now)) }
    ensures data_kept { zone < 3 → KeepsData D.infos D.tells D.image dev.old dev.new }
{
    match dev.append(zone, bytes) {
        Ok(_) => Ok(()),
        Err(fault) => Err(fault),
    }
}
