// The tables of a mount.
ghost use Rattle.std.specs.Prelude.{◌≡◌, ◌^◌, ◌<◌, map, All, IfOk, IfErr, IsErrOf};
ghost use Rattle.std.specs.List.{AllByRecursion};
ghost use Rattle.zone_image.specs.Counts.{HasCause};
ghost use Rattle.zone_image.specs.Infos.{info_at};
ghost use Rattle.zone_image.specs.Reads.{OnlyReads};
ghost use Rattle.record_model.specs.Grammar.{IsWritable};
ghost use Rattle.log_model.specs.FileTable.{size_of};
ghost use Rattle.log_model.specs.Mounted.{all_extents};
ghost use Rattle.extent_map.specs.Applying.{rows_of};
ghost use Rattle.extent_map.specs.Records.{recorded_of, snapshot_len};
ghost use Rattle.mount_replay.specs.Filling.{filled_zones};
ghost use Rattle.mount_replay.specs.Replaying.{IsSelectedZone, HasTables, IsRefusedAs};
ghost use Rattle.mount_replay.specs.Rules.{IsWrittenExtent};

use crate::error::ReplayError;
use crate::filling::filled_table;
use crate::fold::LogZone;
use crate::infos::zone_infos;
use crate::mounted_files::mounted_files;
use crate::recovered::written_of;
use crate::tables::table_of;
use extent_map::FileTable;
use std::alloc::Global;
use zone_alloc::ZoneTable;
use zone_image::Geometry;
use zoned_device::ZonedDevice;

/// The tables of a file system.
#[derive(Drop)]
pub struct Mounted {
    /// Its files, with what is found again of them. Everything is recorded and shown.
    pub files: FileTable,
    /// Its zones, which nobody holds.
    pub zones: ZoneTable,
    /// The written blocks of the log's zone.
    pub log_blocks: u32,
}

/// The tables of the file system whose log stands in a metadata zone. Where the device tells its image, `zone` is the
/// zone of the log that is selected there.
///
/// Where the device tells its image, the files and zones are those of the mounted image (`tables`). `Damaged` then
/// comes exactly where that image mounts to no tree, with its place and cause (`damaged`): a payload that isn't a
/// record, the first broken rule of records, or the lowest broken rule on where files may lie, at the last record.
///
/// On any device everything is recorded (`settled`), the zones are of the device's shape and as it tells them (`shape`,
/// `infos`), with the hints and the live blocks and bytes that the files make (`states`), and each extent lies in what
/// is written of a data zone (`written`). A record may have each file (`writable`), and the bytes of all are fewer than
/// 2^64 (`fits`), as are those of a snapshot by far (`short`). Collection is as it was asked for (`collect`).
///
/// `DevFault` comes only where the device's count of faults rose (`cause`), and `NoMemory` where memory is wanting or a
/// snapshot of the files would have 2^62 bytes or more. Nothing is written.
pub fn replay<D: ZonedDevice>(
    alloc: Global,
    dev: &mut D,
    geometry: &Geometry,
    zone: u32,
    collect: bool,
) -> Result<Mounted, ReplayError>
    requires is_known { D.known dev.old }
    requires same_geometry { geometry.now ≡ D.geometry dev.old }
    requires is_metadata { zone < 3 }
    requires selected { D.tells → IsSelectedZone (D.image dev.old) zone }
    ensures tables { IfOk result (λ mounted. D.tells → HasTables (D.image dev.old) collect mounted.files mounted.zones) }
    ensures settled { IfOk result (λ mounted. mounted.files.rows ≡ rows_of (recorded_of mounted.files.rows)) }
    ensures shape { IfOk result (λ mounted. mounted.zones.geometry ≡ geometry.now) }
    ensures collect { IfOk result (λ mounted. mounted.zones.collect ≡ collect) }
    ensures infos { IfOk result (λ mounted. map (λ z. z.info) mounted.zones.zones ≡ D.infos dev.old) }
    ensures states { IfOk result (λ mounted. mounted.zones.zones ≡ filled_zones geometry.now (recorded_of mounted.files.rows) (D.infos dev.old)) }
    ensures written { IfOk result (λ mounted. All (IsWrittenExtent geometry.now (D.infos dev.old)) (all_extents (recorded_of mounted.files.rows))) }
    ensures writable { IfOk result (λ mounted. AllByRecursion IsWritable (recorded_of mounted.files.rows)) }
    ensures short { IfOk result (λ mounted. snapshot_len mounted.files.rows < 2 ^ 62) }
    ensures fits { IfOk result (λ mounted. size_of (all_extents (recorded_of mounted.files.rows)) < 2 ^ 64) }
    ensures log_blocks { IfOk result (λ mounted. mounted.log_blocks ≡ (info_at (D.infos dev.old) zone).written) }
    ensures damaged { IfErr result (λ e. D.tells → IsRefusedAs (D.image dev.old) e) }
    ensures device { OnlyReads D.known D.geometry D.infos D.tells D.image D.tick D.since D.failed_changes dev.old dev.new }
    ensures cause { HasCause (D.faults dev.old) (D.faults dev.new) (IsErrOf result ReplayError.DevFault) }
{
    let infos = match zone_infos(alloc, dev, geometry) {
        Ok(infos) => infos,
        Err(e) => return Err(e),
    };
    let log = LogZone {
        zone,
        written: written_of(&infos, zone),
    };
    let files = match mounted_files(alloc, dev, geometry, &infos, log) {
        Ok(files) => files,
        Err(e) => return Err(e),
    };
    let zones = filled_table(alloc, geometry, infos, collect, &files)?;
    let files = table_of(alloc, files)?;
    Ok(Mounted {
        files,
        zones,
        log_blocks: log.written,
    })
}
