// Data zones that are reset while the device is at rest.
ghost use Rattle.std.specs.Prelude.{◌≡◌, ◌<◌, ◌≤◌, OnOk, IsErr, ◌==◌};
ghost use Rattle.zone_image.specs.Changes.{emptied};
ghost use Rattle.zone_image.specs.Infos.{infos_emptied};
ghost use Rattle.zoned_device.specs.DeviceSteps.{ChangesDevice};
ghost use Rattle.zoned_device.specs.OtherData.{KeepsOtherData};
ghost use Rattle.log_store.specs.Resetting.{LeftByReset, RestsWithoutZone};

use crate::calls::reset;
use zoned_device::{DevFault, ZonedDevice};

/// Empties a data zone. Where the table that the device has at rest has nothing in it, the device is at rest with it
/// still, and a crash at any moment leaves it. `DevFault` comes only where the device's count of faults rose; the
/// zone was then emptied or not. Whatever the answer, the other data zones have the blocks, numbers and seals that they
/// had (clause `data_kept`).
pub fn reset_data_zone<D: ZonedDevice>(dev: &mut D, zone: u32) -> Result<(), DevFault>
    requires is_known { D.known dev.old }
    requires is_zone { zone < (D.geometry dev.old).zones }
    requires is_data { 3 ≤ zone }
    ensures infos { OnOk result (D.infos dev.new ≡ infos_emptied (D.infos dev.old) zone) }
    ensures image { OnOk result (D.tells → D.image dev.new ≡ emptied (D.image dev.old) zone) }
    ensures at_rest { OnOk result (D.tells → RestsWithoutZone zone (D.image dev.old) (D.image dev.new)) }
    ensures device { ChangesDevice D.known D.geometry D.tells D.image D.tick D.since D.faults D.failed_changes dev.old dev.new (IsErr result)
        (LeftByReset zone (D.image dev.old)) }
    ensures data_kept { KeepsOtherData D.infos D.tells D.image (λ n. n == zone) dev.old dev.new }
{
    reset(dev, zone)
}
