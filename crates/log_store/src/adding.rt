// A record is added to the log, and made durable.
ghost use Rattle.std.specs.Prelude.{◌≡◌, ◌+◌, ◌<◌, ◌≤◌, true, false, length, Ok, OnOk, IsErr};
ghost use Rattle.zone_image.specs.Changes.{appended, synced};
ghost use Rattle.zone_image.specs.Infos.{active_zones, info_at, infos_appended};
ghost use Rattle.log_model.specs.LogSelection.{selected_log};
ghost use Rattle.zoned_device.specs.DataKept.{KeepsData};
ghost use Rattle.zoned_device.specs.DeviceSteps.{ChangesDevice};
ghost use Rattle.log_store.specs.Adding.{GoesOn, LeftByRecord, RestsWithRecord};

use crate::calls::{append, sync};
use crate::spelled::SpelledRecord;
use log_model::Chosen;
use zone_image::Geometry;
use zoned_device::{DevFault, ZonedDevice};

/// Adds a record behind the log that counts, in one append, and makes it durable. The log's zone isn't sealed and has
/// room for it, and the log may get more records. It takes no memory.
///
/// Whatever table the device had at rest, after Ok it is at rest with the table that the record makes, and the same
/// log counts. A crash at any moment leaves the table before it, or the one after it (clause `device`). `DevFault`
/// comes only where the device's count of faults rose. Whatever the answer, the data zones are kept (clause `data_kept`).
pub fn add_record<D: ZonedDevice>(
    dev: &mut D,
    geometry: &Geometry,
    chosen: &Chosen,
    added: &SpelledRecord,
) -> Result<(), DevFault>
    requires is_known { D.known dev.old }
    requires same_geometry { geometry.now ≡ D.geometry dev.old }
    requires same_block { added.now.block ≡ geometry.now.block }
    requires is_metadata { chosen.now.zone < 3 }
    requires selected { D.tells → selected_log (D.image dev.old) ≡ Ok chosen.now }
    requires goes_on { chosen.now.can_end ≡ true }
    requires unsealed { (info_at (D.infos dev.old) chosen.now.zone).sealed ≡ false }
    requires room { (info_at (D.infos dev.old) chosen.now.zone).written + length added.now.blocks ≤ geometry.now.capacity }
    requires active { (info_at (D.infos dev.old) chosen.now.zone).written ≡ 0 → active_zones (D.infos dev.old) < geometry.now.active_limit }

    ensures infos { OnOk result (D.infos dev.new ≡ infos_appended geometry.now (D.infos dev.old) chosen.now.zone (length added.now.blocks)) }
    ensures image { OnOk result (D.tells → D.image dev.new ≡ synced (appended (D.image dev.old) chosen.now.zone added.now.blocks)) }
    ensures at_rest { OnOk result (D.tells → RestsWithRecord added.now.blocks (D.image dev.old) (D.image dev.new)) }
    ensures selects { OnOk result (D.tells → GoesOn chosen.now added.now.blocks (D.image dev.old) (D.image dev.new)) }
    ensures device { ChangesDevice D.known D.geometry D.tells D.image D.tick D.since D.faults D.failed_changes dev.old dev.new (IsErr result)
        (LeftByRecord added.now.blocks (D.image dev.old)) }
    ensures data_kept { KeepsData D.infos D.tells D.image dev.old dev.new }
{
    match append(dev, geometry, chosen.zone, added) {
        Ok(()) => sync(dev),
        Err(fault) => Err(fault),
    }
}
