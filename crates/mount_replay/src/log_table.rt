// The table that a log makes.
ghost use Rattle.std.specs.Prelude.{◌≡◌, ◌<◌, Ok, drop, IfOk, IfErr, IsErrOf};
ghost use Rattle.zone_image.specs.Counts.{HasCause};
ghost use Rattle.zone_image.specs.Infos.{info_at};
ghost use Rattle.zone_image.specs.Reads.{OnlyReads};
ghost use Rattle.log_model.specs.AppendLaws.{scan_at};
ghost use Rattle.log_model.specs.FileTable.{replay_log};
ghost use Rattle.log_model.specs.Mounted.{last_block};
ghost use Rattle.extent_map.specs.Records.{recorded_of};
ghost use Rattle.mount_replay.specs.Folding.{IsDamagedAs};
ghost use Rattle.mount_replay.specs.SoundTables.{IsSoundTable};

use crate::error::ReplayError;
use crate::fold::{LogZone, fold_log};
use crate::log::next_record;
use extent_map::FileTable;
use meta_log::LogReader;
use std::alloc::Global;
use zone_image::Geometry;
use zoned_device::ZonedDevice;

/// The table that a log makes, and the first block of its last record.
#[derive(Drop)]
pub(crate) struct LogTable {
    pub(crate) table: FileTable,
    pub(crate) last: u32,
}

/// The table that the log of a zone makes. Its first payload is its superblock. `Damaged` comes exactly where a later
/// one isn't a record or breaks a rule of records, with the first fault.
pub(crate) fn log_table<D: ZonedDevice>(
    alloc: Global,
    dev: &mut D,
    geometry: &Geometry,
    log: LogZone,
) -> Result<LogTable, ReplayError>
    requires is_known { D.known dev.old }
    requires is_zone { log.zone < (D.geometry dev.old).zones }
    requires same_geometry { geometry.now ≡ D.geometry dev.old }
    requires same_written { log.written ≡ (info_at (D.infos dev.old) log.zone).written }
    ensures table { IfOk result (λ made. D.tells → replay_log (drop 1 (scan_at (D.image dev.old) log.zone).payloads) ≡ Ok (recorded_of made.table.rows)) }
    ensures last { IfOk result (λ made. D.tells → made.last ≡ last_block (scan_at (D.image dev.old) log.zone).payloads) }
    ensures sound { IfOk result (λ made. IsSoundTable (recorded_of made.table.rows)) }
    ensures damaged { IfErr result (λ e. D.tells → IsDamagedAs log.zone (replay_log (drop 1 (scan_at (D.image dev.old) log.zone).payloads)) e) }
    ensures device { OnlyReads D.known D.geometry D.infos D.tells D.image D.tick D.since D.failed_changes dev.old dev.new }
    ensures cause { HasCause (D.faults dev.old) (D.faults dev.new) (IsErrOf result ReplayError.DevFault) }
{
    let mut reader = LogReader::new(alloc, log.zone, geometry, log.written);
    let mut table = FileTable::new(alloc);
    let Some(superblock) = next_record(alloc, dev, &mut reader)? else {
        return Ok(LogTable { table, last: 0 });
    };
    match fold_log(alloc, dev, log, superblock.block, &mut reader, &mut table) {
        Ok(last) => Ok(LogTable { table, last }),
        Err(e) => Err(e),
    }
}
