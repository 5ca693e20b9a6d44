// The files of the image of a device.
ghost use Rattle.std.specs.Prelude.{◌≡◌, ◌^◌, ◌<◌, Ok, All, IfOk, IfErr, IsErrOf};
ghost use Rattle.zone_image.specs.Counts.{HasCause};
ghost use Rattle.zone_image.specs.Infos.{info_at};
ghost use Rattle.zone_image.specs.Reads.{OnlyReads};
ghost use Rattle.log_model.specs.FileTable.{size_of};
ghost use Rattle.log_model.specs.Mounted.{all_extents, table_in};
ghost use Rattle.mount_replay.specs.Replaying.{IsSelectedZone, IsRefusedAs};
ghost use Rattle.mount_replay.specs.Rules.{IsWrittenExtent};
ghost use Rattle.mount_replay.specs.SoundTables.{IsSoundTable};

use crate::checks::{LastRecord, found_files};
use crate::error::ReplayError;
use crate::fold::LogZone;
use crate::log_table::log_table;
use crate::tables::entries_of;
use record_model::FileEntry;
use std::alloc::Global;
use zone_image::{Geometry, ZoneInfo};
use zoned_device::ZonedDevice;

/// The files of the image of a device, by rising id, with what is found again of them. `Damaged` comes exactly where
/// the image mounts to no tree.
pub(crate) fn mounted_files<D: ZonedDevice>(
    alloc: Global,
    dev: &mut D,
    geometry: &Geometry,
    infos: &[ZoneInfo],
    log: LogZone,
) -> Result<Vec<FileEntry>, ReplayError>
    requires is_known { D.known dev.old }
    requires same_geometry { geometry.now ≡ D.geometry dev.old }
    requires same_infos { infos.now ≡ D.infos dev.old }
    requires is_zone { log.zone < (D.geometry dev.old).zones }
    requires same_written { log.written ≡ (info_at (D.infos dev.old) log.zone).written }
    requires selected { D.tells → IsSelectedZone (D.image dev.old) log.zone }
    ensures mounted { IfOk result (λ files. D.tells → table_in (D.image dev.old) ≡ Ok files.items) }
    ensures sound { IfOk result (λ files. IsSoundTable files.items) }
    ensures lie { IfOk result (λ files. All (IsWrittenExtent geometry.now infos.now) (all_extents files.items)) }
    ensures fits { IfOk result (λ files. size_of (all_extents files.items) < 2 ^ 64) }
    ensures damaged { IfErr result (λ e. D.tells → IsRefusedAs (D.image dev.old) e) }
    ensures device { OnlyReads D.known D.geometry D.infos D.tells D.image D.tick D.since D.failed_changes dev.old dev.new }
    ensures cause { HasCause (D.faults dev.old) (D.faults dev.new) (IsErrOf result ReplayError.DevFault) }
{
    let made = match log_table(alloc, dev, geometry, log) {
        Ok(made) => made,
        Err(e) => return Err(e),
    };
    let last = LastRecord {
        zone: log.zone,
        block: made.last,
    };
    let mut files = entries_of(alloc, &made.table)?;
    match found_files(alloc, dev, geometry, infos, last, &mut files) {
        Ok(()) => Ok(files),
        Err(e) => Err(e),
    }
}
