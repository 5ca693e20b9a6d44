// What a device tells of all its zones.
ghost use Rattle.std.specs.Prelude.{◌≡◌, ◌++◌, ◌<◌, ◌∷◌, [], IfOk, OnOk, IfErr, IsErrOf};
ghost use Rattle.zone_image.specs.Counts.{HasCause};
ghost use Rattle.zone_image.specs.Infos.{info_at};
ghost use Rattle.zone_image.specs.Reads.{OnlyReads};
ghost use Rattle.mount_replay.specs.Payloads.{IsNoDamage};

use crate::error::ReplayError;
use std::alloc::Global;
use zone_image::{Geometry, ZoneInfo};
use zoned_device::ZonedDevice;

/// The written number and the seal of each zone of a device.
pub(crate) fn zone_infos<D: ZonedDevice>(
    alloc: Global,
    dev: &mut D,
    geometry: &Geometry,
) -> Result<Vec<ZoneInfo>, ReplayError>
    requires is_known { D.known dev.old }
    requires same_geometry { geometry.now ≡ D.geometry dev.old }
    ensures only { IfErr result IsNoDamage }
    ensures infos { IfOk result (λ infos. infos.items ≡ D.infos dev.old) }
    ensures device { OnlyReads D.known D.geometry D.infos D.tells D.image D.tick D.since D.failed_changes dev.old dev.new }
    ensures cause { HasCause (D.faults dev.old) (D.faults dev.new) (IsErrOf result ReplayError.DevFault) }
{
    let mut infos = Vec::new(alloc);
    for zone in 0..geometry.zones {
        push_info(dev, zone, &mut infos)?;
    }
    Ok(infos)
}

// What a device tells of a zone goes behind the others.
fn push_info<D: ZonedDevice>(
    dev: &mut D,
    zone: u32,
    infos: &mut Vec<ZoneInfo>,
) -> Result<(), ReplayError>
    requires is_known { D.known dev.old }
    requires is_zone { zone < (D.geometry dev.old).zones }
    ensures only { IfErr result IsNoDamage }
    ensures pushed { OnOk result (infos.new.items ≡ infos.old.items ++ info_at (D.infos dev.old) zone ∷ []) }
    ensures device { OnlyReads D.known D.geometry D.infos D.tells D.image D.tick D.since D.failed_changes dev.old dev.new }
    ensures cause { HasCause (D.faults dev.old) (D.faults dev.new) (IsErrOf result ReplayError.DevFault) }
{
    let info = match dev.report(zone) {
        Ok(info) => info,
        Err(_) => return Err(ReplayError::DevFault),
    };
    match infos.push(info) {
        Ok(()) => Ok(()),
        Err(_) => Err(ReplayError::NoMemory),
    }
}
