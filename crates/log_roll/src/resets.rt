// Zones that are emptied.
ghost use Rattle.std.specs.Prelude.{◌≡◌, ◌-◌, ◌<◌, ◌≤◌, OnOk, IsErr};
ghost use Rattle.zone_image.specs.Changes.{emptied};
ghost use Rattle.zone_image.specs.Infos.{info_at, infos_emptied};
ghost use Rattle.zone_image.specs.Moments.{PassedByReset};
ghost use Rattle.zoned_device.specs.DataKept.{KeepsData};
ghost use Rattle.zoned_device.specs.DeviceSteps.{ChangesDevice};
ghost use Rattle.log_roll.specs.Resets.{CrashesMetadata, PassedByThreeResets, PassedByTwoResets, cleared, emptied_three, emptied_two, infos_cleared, infos_emptied_three, infos_emptied_two};

use crate::steps::{report, reset};
use zone_image::ZoneInfo;
use zoned_device::{DevFault, ZonedDevice};

/// The first data zone. The zones before it hold metadata.
pub(crate) const FIRST_DATA_ZONE: u32 = 3;

// Empties a zone, where it has a block or a seal.
pub(crate) fn clear<D: ZonedDevice>(dev: &mut D, zone: u32) -> Result<(), DevFault>
    requires is_known { D.known dev.old }
    requires is_zone { zone < (D.geometry dev.old).zones }
    ensures infos { OnOk result (D.infos dev.new ≡ infos_emptied (D.infos dev.old) zone) }
    ensures image { OnOk result (D.tells → D.image dev.new ≡ emptied (D.image dev.old) zone) }
    ensures device { ChangesDevice D.known D.geometry D.tells D.image D.tick D.since D.faults D.failed_changes dev.old dev.new (IsErr result) (PassedByReset (D.image dev.old) zone) }
    ensures data_kept { zone < 3 → KeepsData D.infos D.tells D.image dev.old dev.new }
{
    let info = report(dev, zone)?;
    reset_used(dev, zone, info)
}

// Empties a zone of this written number and seal, where it has a block or a seal.
fn reset_used<D: ZonedDevice>(dev: &mut D, zone: u32, info: ZoneInfo) -> Result<(), DevFault>
    requires is_known { D.known dev.old }
    requires is_zone { zone < (D.geometry dev.old).zones }
    requires told { info ≡ info_at (D.infos dev.old) zone }
    ensures infos { OnOk result (D.infos dev.new ≡ infos_emptied (D.infos dev.old) zone) }
    ensures image { OnOk result (D.tells → D.image dev.new ≡ emptied (D.image dev.old) zone) }
    ensures device { ChangesDevice D.known D.geometry D.tells D.image D.tick D.since D.faults D.failed_changes dev.old dev.new (IsErr result) (PassedByReset (D.image dev.old) zone) }
    ensures data_kept { zone < 3 → KeepsData D.infos D.tells D.image dev.old dev.new }
{
    if info.written == 0 && !info.sealed {
        return Ok(());
    }
    reset(dev, zone)
}

// Empties two zones, each where it has a block or a seal.
pub(crate) fn clear_two<D: ZonedDevice>(
    dev: &mut D,
    first: u32,
    second: u32,
) -> Result<(), DevFault>
    requires is_known { D.known dev.old }
    requires first_is_zone { first < (D.geometry dev.old).zones }
    requires second_is_zone { second < (D.geometry dev.old).zones }
    ensures infos { OnOk result (D.infos dev.new ≡ infos_emptied_two (D.infos dev.old) first second) }
    ensures image { OnOk result (D.tells → D.image dev.new ≡ emptied_two (D.image dev.old) first second) }
    ensures device { ChangesDevice D.known D.geometry D.tells D.image D.tick D.since D.faults D.failed_changes dev.old dev.new (IsErr result)
        (PassedByTwoResets first second (D.image dev.old)) }
    ensures data_kept { first < 3 → second < 3 → KeepsData D.infos D.tells D.image dev.old dev.new }
{
    clear(dev, first)?;
    clear(dev, second)
}

// Resets two zones.
fn reset_two<D: ZonedDevice>(dev: &mut D, first: u32, second: u32) -> Result<(), DevFault>
    requires is_known { D.known dev.old }
    requires first_is_zone { first < (D.geometry dev.old).zones }
    requires second_is_zone { second < (D.geometry dev.old).zones }
    ensures infos { OnOk result (D.infos dev.new ≡ infos_emptied_two (D.infos dev.old) first second) }
    ensures image { OnOk result (D.tells → D.image dev.new ≡ emptied_two (D.image dev.old) first second) }
    ensures device { ChangesDevice D.known D.geometry D.tells D.image D.tick D.since D.faults D.failed_changes dev.old dev.new (IsErr result)
        (PassedByTwoResets first second (D.image dev.old)) }
{
    reset(dev, first)?;
    reset(dev, second)
}

// Resets three zones.
pub(crate) fn reset_three<D: ZonedDevice>(
    dev: &mut D,
    first: u32,
    second: u32,
    third: u32,
) -> Result<(), DevFault>
    requires is_known { D.known dev.old }
    requires first_is_zone { first < (D.geometry dev.old).zones }
    requires second_is_zone { second < (D.geometry dev.old).zones }
    requires third_is_zone { third < (D.geometry dev.old).zones }
    ensures infos { OnOk result (D.infos dev.new ≡ infos_emptied_three (D.infos dev.old) first second third) }
    ensures image { OnOk result (D.tells → D.image dev.new ≡ emptied_three (D.image dev.old) first second third) }
    ensures device { ChangesDevice D.known D.geometry D.tells D.image D.tick D.since D.faults D.failed_changes dev.old dev.new (IsErr result)
        (PassedByThreeResets first second third (D.image dev.old)) }
{
    reset(dev, first)?;
    reset_two(dev, second, third)
}

// Empties each data zone that has a block or a seal.
pub(crate) fn clear_data<D: ZonedDevice>(dev: &mut D, zones: u32) -> Result<(), DevFault>
    requires is_known { D.known dev.old }
    requires all_zones { zones ≡ (D.geometry dev.old).zones }
    requires some { FIRST_DATA_ZONE ≤ zones }
    ensures infos { OnOk result (D.infos dev.new ≡ infos_cleared FIRST_DATA_ZONE (zones - FIRST_DATA_ZONE) (D.infos dev.old)) }
    ensures image { OnOk result (D.tells → D.image dev.new ≡ cleared FIRST_DATA_ZONE (zones - FIRST_DATA_ZONE) (D.image dev.old)) }
    ensures device { ChangesDevice D.known D.geometry D.tells D.image D.tick D.since D.faults D.failed_changes dev.old dev.new (IsErr result)
        (CrashesMetadata (D.image dev.old)) }
{
    for zone in FIRST_DATA_ZONE..zones {
        match clear(dev, zone) {
            Ok(()) => {}
            Err(fault) => return Err(fault),
        }
    }
    Ok(())
}
