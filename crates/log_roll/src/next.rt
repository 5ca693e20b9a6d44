// The records of a zone one by one, and how they end.
ghost use Rattle.std.specs.Prelude.{◌≡◌, ◌<◌, IfOk, IsErrOf};
ghost use Rattle.zone_image.specs.Counts.{HasCause};
ghost use Rattle.zone_image.specs.Image.{zone_at};
ghost use Rattle.zone_image.specs.Infos.{info_at};
ghost use Rattle.zone_image.specs.Reads.{OnlyReads};
ghost use Rattle.zoned_device.specs.Window.{window};
ghost use Rattle.log_model.specs.LogSelection.{bad_record};
ghost use Rattle.meta_log.specs.Reader.{IsHeld, IsSameLog, scan_left};
ghost use Rattle.log_roll.specs.Records.{Begins, IsShort};

use log_model::DamageWhy;
use meta_log::{LogError, LogItem, LogReader};
use record_model::Payload;
use std::alloc::Global;
use zoned_device::ZonedDevice;

/// How the records of a zone end.
#[derive(Clone, Copy, Debug, PartialEq, Eq)]
pub(crate) enum LogEnd {
    /// No block is left.
    Clean,
    /// The next record states more blocks than are left.
    Torn,
    /// The record at this block states no length, or its checksum is another one.
    Bad { block: u32, why: DamageWhy },
}

/// The next record of a zone, or the end.
#[derive(Debug, Drop)]
pub(crate) enum NextRecord {
    Payload { block: u32, bytes: Payload },
    End(LogEnd),
}

/// How many blocks of a zone are written.
pub(crate) fn written_of<D: ZonedDevice>(dev: &mut D, zone: u32) -> Result<u32, LogError>
    requires is_known { D.known dev.old }
    requires is_zone { zone < (D.geometry dev.old).zones }
    ensures written { IfOk result (λ written. written ≡ (info_at (D.infos dev.old) zone).written) }
    ensures device { OnlyReads D.known D.geometry D.infos D.tells D.image D.tick D.since D.failed_changes dev.old dev.new }
    ensures cause { HasCause (D.faults dev.old) (D.faults dev.new) (IsErrOf result LogError.DevFault) }
{
    match dev.report(zone) {
        Ok(info) => Ok(info.written),
        Err(_) => Err(LogError::DevFault),
    }
}

/// The next record of a zone, or the end.
pub(crate) fn next_record<D: ZonedDevice>(
    alloc: Global,
    dev: &mut D,
    reader: &mut LogReader,
) -> Result<NextRecord, LogError>
    requires is_known { D.known dev.old }
    requires is_zone { reader.old.zone < (D.geometry dev.old).zones }
    requires same_block { reader.old.block_size ≡ (D.geometry dev.old).block }
    requires same_window { reader.old.window ≡ window (D.geometry dev.old) }
    requires same_written { reader.old.written ≡ (info_at (D.infos dev.old) reader.old.zone).written }
    requires held { D.tells → IsHeld reader.old (D.image dev.old) }
    ensures begins { IfOk result (λ next. D.tells → Begins (scan_left reader.old (zone_at (D.image dev.old) reader.old.zone).blocks) next
        (scan_left reader.new (zone_at (D.image dev.old) reader.old.zone).blocks)) }
    ensures short { IfOk result IsShort }
    ensures same { IsSameLog reader.old reader.new }
    ensures held { D.tells → IsHeld reader.new (D.image dev.new) }
    ensures device { OnlyReads D.known D.geometry D.infos D.tells D.image D.tick D.since D.failed_changes dev.old dev.new }
    ensures cause { HasCause (D.faults dev.old) (D.faults dev.new) (IsErrOf result LogError.DevFault) }
{
    match reader.next(alloc, dev)? {
        LogItem::Payload { block, bytes } => Ok(NextRecord::Payload { block, bytes }),
        LogItem::Clean => Ok(NextRecord::End(LogEnd::Clean)),
        LogItem::Torn { block: _ } => Ok(NextRecord::End(LogEnd::Torn)),
        LogItem::Bad {
            block,
            len,
            stored,
            computed,
        } => Ok(NextRecord::End(LogEnd::Bad {
            block,
            why: bad_record(len, stored, computed),
        })),
    }
}

// What is wrong with a record that states this length and has these checksums.
fn bad_record(len: u32, stored: u32, computed: u32) -> DamageWhy
    ensures { result ≡ bad_record len stored computed }
{
    if len == 0 {
        DamageWhy::NoLength
    } else {
        DamageWhy::Sum { stored, computed }
    }
}
