// The payloads of a log, one by one.
ghost use Rattle.std.specs.Prelude.{◌≡◌, ◌^◌, ◌<◌, ◌≤◌, length, IfOk, OnOk, IfErr, IfSome, IsErrOf};
ghost use Rattle.zone_image.specs.Counts.{HasCause};
ghost use Rattle.zone_image.specs.Image.{zone_at};
ghost use Rattle.zone_image.specs.Infos.{info_at};
ghost use Rattle.zone_image.specs.Reads.{OnlyReads};
ghost use Rattle.zoned_device.specs.Window.{window};
ghost use Rattle.meta_log.specs.Reader.{IsHeld, IsSameLog, scan_left};
ghost use Rattle.mount_replay.specs.Payloads.{Takes, IsShortRecord, IsNoDamage};

use crate::error::ReplayError;
use meta_log::{LogError, LogItem, LogReader};
use record_model::Payload;
use std::alloc::Global;
use zoned_device::ZonedDevice;

/// A payload with the first block of its record.
#[derive(Drop)]
pub(crate) struct LogRecord {
    pub(crate) block: u32,
    pub(crate) payload: Payload,
}

/// The next payload of a log, where there is one.
pub(crate) fn next_record<D: ZonedDevice>(
    alloc: Global,
    dev: &mut D,
    reader: &mut LogReader,
) -> Result<Option<LogRecord>, ReplayError>
    requires is_known { D.known dev.old }
    requires is_zone { reader.old.zone < (D.geometry dev.old).zones }
    requires same_block { reader.old.block_size ≡ (D.geometry dev.old).block }
    requires same_window { reader.old.window ≡ window (D.geometry dev.old) }
    requires same_written { reader.old.written ≡ (info_at (D.infos dev.old) reader.old.zone).written }
    requires held { D.tells → IsHeld reader.old (D.image dev.old) }
    ensures takes { IfOk result (λ found. D.tells → Takes (scan_left reader.old (zone_at (D.image dev.old) reader.old.zone).blocks) found
        (scan_left reader.new (zone_at (D.image dev.old) reader.old.zone).blocks)) }
    ensures short { IfOk result (λ found. IfSome found IsShortRecord) }
    ensures advances { IfOk result (λ found. IfSome found (λ _. reader.old.next < reader.new.next)) }
    ensures same { IsSameLog reader.old reader.new }
    ensures held { D.tells → IsHeld reader.new (D.image dev.new) }
    ensures only { IfErr result IsNoDamage }
    ensures device { OnlyReads D.known D.geometry D.infos D.tells D.image D.tick D.since D.failed_changes dev.old dev.new }
    ensures cause { HasCause (D.faults dev.old) (D.faults dev.new) (IsErrOf result ReplayError.DevFault) }
{
    match reader.next(alloc, dev) {
        Ok(LogItem::Payload { block, bytes }) => Ok(Some(LogRecord {
            block,
            payload: bytes,
        })),
        Ok(LogItem::Clean) => Ok(None),
        Ok(LogItem::Torn { .. }) => Ok(None),
        Ok(LogItem::Bad { .. }) => Ok(None),
        Err(LogError::NoMemory) => Err(ReplayError::NoMemory),
        Err(LogError::DevFault) => Err(ReplayError::DevFault),
    }
}
