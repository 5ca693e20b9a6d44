// Data zones that nothing needs are reset, on the device and in the tables.
ghost use Rattle.std.specs.Prelude.{◌≡◌, ◌<◌, ◌==◌, [], OnErr, OnOk, IsErr};
ghost use Rattle.zone_image.specs.Changes.{emptied};
ghost use Rattle.zone_image.specs.Infos.{infos_emptied};
ghost use Rattle.zone_image.specs.Moments.{PassedByReset};
ghost use Rattle.fs_model.specs.FsState.{recorded};
ghost use Rattle.fs_model.specs.LogSteps.{resettable_zones};
ghost use Rattle.zoned_device.specs.DeviceSteps.{ChangesDevice};
ghost use Rattle.zoned_device.specs.OtherData.{KeepsOtherData};
ghost use Rattle.change_steps.specs.Resetting.{IsResetting, after_reset};
ghost use Rattle.change_cover.specs.Following.{Follows};
ghost use Rattle.change_cover.specs.Rests.{Stands};
ghost use Rattle.change_cover.specs.SameTrees.{MountsTheSame};
ghost use Rattle.fs_tables.specs.Steps.{infos_in};
ghost use Rattle.fs_tables.specs.Dead.{IsNextReset};
ghost use Rattle.fs_core.specs.DeadZones.{is_free};
ghost use Rattle.fs_core.specs.FsValue.{CanWrite};

use fs_tables::FsTables;
use zoned_device::{DevFault, ZonedDevice};

// Empties a zone of the device.
fn empty<D: ZonedDevice>(dev: &mut D, zone: u32) -> Result<(), DevFault>
    requires is_known { D.known dev.old }
    requires is_zone { zone < (D.geometry dev.old).zones }
    ensures infos { OnOk result (D.infos dev.new ≡ infos_emptied (D.infos dev.old) zone) }
    ensures image { OnOk result (D.tells → D.image dev.new ≡ emptied (D.image dev.old) zone) }
    ensures device { ChangesDevice D.known D.geometry D.tells D.image D.tick D.since D.faults D.failed_changes dev.old dev.new (IsErr result)
        (PassedByReset (D.image dev.old) zone) }
    ensures kept { KeepsOtherData D.infos D.tells D.image (λ n. n == zone) dev.old dev.new }
{
    dev.reset(zone)
}

// Resets the lowest zone that may be reset.
fn reset_dead<D: ZonedDevice>(dev: &mut D, tables: &mut FsTables, zone: u32) -> Result<(), DevFault>
    requires is_known { D.known dev.old }
    requires same_geometry { D.geometry dev.old ≡ tables.old.state.geometry }
    requires told { infos_in tables.old.state ≡ D.infos dev.old }
    requires dead { IsNextReset tables.old.state zone }
    ensures state { OnOk result (tables.new.state ≡ after_reset zone tables.old.state) }
    ensures same { OnErr result (tables.new ≡ tables.old) }
    ensures told { OnOk result (infos_in tables.new.state ≡ D.infos dev.new) }
    ensures stands { OnOk result (D.tells → Stands (D.image dev.old) tables.old.state → Follows (D.image dev.old) (D.image dev.new) tables.old.state tables.new.state) }
    ensures device { ChangesDevice D.known D.geometry D.tells D.image D.tick D.since D.faults D.failed_changes dev.old dev.new (IsErr result)
        (λ j. Stands (D.image dev.old) tables.old.state → MountsTheSame (D.image dev.old) j) }
    ensures kept { KeepsOtherData D.infos D.tells D.image (λ n. n == zone) dev.old dev.new }
    ensures writes { OnOk result (CanWrite tables.old.state → CanWrite tables.new.state) }
{
    tables.valid();
    match empty(dev, zone) {
        Ok(()) => {
            tables.reset(zone);
            Ok(())
        }
        Err(fault) => Err(fault),
    }
}

/// Resets the data zones that nothing needs, by rising number. It takes no memory.
pub(crate) fn reset_dead_zones<D: ZonedDevice>(
    dev: &mut D,
    tables: &mut FsTables,
) -> Result<(), DevFault>
    requires is_known { D.known dev.old }
    requires same_geometry { D.geometry dev.old ≡ tables.old.state.geometry }
    requires told { infos_in tables.old.state ≡ D.infos dev.old }
    ensures way { IsResetting tables.old.state tables.new.state }
    ensures none_left { OnOk result (resettable_zones tables.new.state ≡ []) }
    ensures told { OnOk result (infos_in tables.new.state ≡ D.infos dev.new) }
    ensures stands { OnOk result (D.tells → Stands (D.image dev.old) tables.old.state → Follows (D.image dev.old) (D.image dev.new) tables.old.state tables.new.state) }
    ensures device { ChangesDevice D.known D.geometry D.tells D.image D.tick D.since D.faults D.failed_changes dev.old dev.new (IsErr result)
        (λ j. Stands (D.image dev.old) tables.old.state → MountsTheSame (D.image dev.old) j) }
    ensures kept { KeepsOtherData D.infos D.tells D.image (is_free tables.old.state.geometry (recorded tables.old.state)) dev.old dev.new }
    ensures writes { CanWrite tables.old.state → CanWrite tables.new.state }
{
    while let Some(zone) = tables.resettable() {
        match reset_dead(dev, tables, zone) {
            Ok(()) => {}
            Err(fault) => return Err(fault),
        }
    }
    Ok(())
}
