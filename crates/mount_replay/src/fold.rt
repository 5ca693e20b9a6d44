// A log, folded into a table.
ghost use Rattle.std.specs.Prelude.{◌≡◌, ◌<◌, Ok, false, IfOk, OnOk, IfErr, IsErrOf};
ghost use Rattle.zone_image.specs.Counts.{HasCause};
ghost use Rattle.zone_image.specs.Image.{zone_at};
ghost use Rattle.zone_image.specs.Infos.{info_at};
ghost use Rattle.zone_image.specs.Reads.{OnlyReads};
ghost use Rattle.zoned_device.specs.Window.{window};
ghost use Rattle.log_model.specs.FileTable.{replay_from};
ghost use Rattle.extent_map.specs.Applying.{rows_of};
ghost use Rattle.extent_map.specs.Records.{recorded_of};
ghost use Rattle.meta_log.specs.Reader.{IsHeld, scan_left};
ghost use Rattle.mount_replay.specs.Folding.{last_after, IsDamagedAs};
ghost use Rattle.mount_replay.specs.SoundTables.{IsSoundTable};

use crate::error::ReplayError;
use crate::log::next_record;
use crate::records::{RecordPlace, fold_record};
use extent_map::FileTable;
use meta_log::LogReader;
use std::alloc::Global;
use zoned_device::ZonedDevice;

/// A metadata zone, and its written number.
#[derive(Clone, Copy)]
pub(crate) struct LogZone {
    pub(crate) zone: u32,
    pub(crate) written: u32,
}

/// Makes of a table what the records make of it that a reader has before it, and answers the first block of the last
/// of them, and `before` where there is none. `Damaged` comes exactly where one of them isn't a record or breaks a rule of records, with the first fault.
pub(crate) fn fold_log<D: ZonedDevice>(
    alloc: Global,
    dev: &mut D,
    log: LogZone,
    before: u32,
    reader: &mut LogReader,
    table: &mut FileTable,
) -> Result<u32, ReplayError>
    requires is_known { D.known dev.old }
    requires same_log { reader.old.zone ≡ log.zone }
    requires same_length { reader.old.written ≡ log.written }
    requires is_zone { reader.old.zone < (D.geometry dev.old).zones }
    requires same_block { reader.old.block_size ≡ (D.geometry dev.old).block }
    requires same_window { reader.old.window ≡ window (D.geometry dev.old) }
    requires same_written { reader.old.written ≡ (info_at (D.infos dev.old) reader.old.zone).written }
    requires held { D.tells → IsHeld reader.old (D.image dev.old) }
    requires settled { table.old.rows ≡ rows_of (recorded_of table.old.rows) }
    requires sound { IsSoundTable (recorded_of table.old.rows) }
    ensures folded { IfOk result (λ last. D.tells → replay_from false (recorded_of table.old.rows)
        (scan_left reader.old (zone_at (D.image dev.old) reader.old.zone).blocks).payloads ≡ Ok (recorded_of table.new.rows)) }
    ensures last { IfOk result (λ last. D.tells → last ≡ last_after before (scan_left reader.old (zone_at (D.image dev.old) reader.old.zone).blocks).payloads) }
    ensures settled { OnOk result (table.new.rows ≡ rows_of (recorded_of table.new.rows)) }
    ensures sound { OnOk result (IsSoundTable (recorded_of table.new.rows)) }
    ensures damaged { IfErr result (λ e. D.tells → IsDamagedAs log.zone (replay_from false (recorded_of table.old.rows)
        (scan_left reader.old (zone_at (D.image dev.old) reader.old.zone).blocks).payloads) e) }
    ensures device { OnlyReads D.known D.geometry D.infos D.tells D.image D.tick D.since D.failed_changes dev.old dev.new }
    ensures cause { HasCause (D.faults dev.old) (D.faults dev.new) (IsErrOf result ReplayError.DevFault) }
{
    let mut ended = false;
    let mut last = before;
    for _taken in 0..log.written {
        let Some(found) = next_record(alloc, dev, reader)? else {
            return Ok(last);
        };
        let place = RecordPlace {
            zone: log.zone,
            block: found.block,
            ended,
        };
        ended = fold_record(alloc, place, found.payload.items(), table)?;
        last = found.block;
    }
    Ok(last)
}
