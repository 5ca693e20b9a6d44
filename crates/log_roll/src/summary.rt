// A zone's log, as far as the choice of a log needs it.
ghost use Rattle.std.specs.Prelude.{◌≡◌, ◌^◌, ◌<◌, ◌≤◌, length, IfOk, IsErrOf};
ghost use Rattle.zone_image.specs.Counts.{HasCause};
ghost use Rattle.zone_image.specs.Image.{zone_at};
ghost use Rattle.zone_image.specs.Infos.{info_at};
ghost use Rattle.zone_image.specs.Reads.{OnlyReads};
ghost use Rattle.zoned_device.specs.Window.{window};
ghost use Rattle.record_model.specs.Decoding.{record_of};
ghost use Rattle.log_model.specs.LogScan.{scan};
ghost use Rattle.log_model.specs.LogSelection.{is_snapshot};
ghost use Rattle.meta_log.specs.Reader.{IsHeld, IsSameLog, scan_left};
ghost use Rattle.log_roll.specs.Summaries.{IsSoundLog, end_seen, is_clean_end, only_end, rest_with, unless_bad, without_log, zone_summary};
ghost use Rattle.log_roll.specs.Rests.{rest_of, tail_of};

use crate::first::superblock_in;
use crate::next::{LogEnd, NextRecord, next_record, written_of};
use log_model::{Damage, DamageWhy, Refusal};
use meta_log::{LogError, LogReader};
use record_codec::{DecodeError, decode};
use record_model::Record;
use std::alloc::Global;
use superblock_core::Superblock;
use zone_image::Geometry;
use zoned_device::ZonedDevice;

/// A zone's log, as far as the choice of a log needs it.
#[derive(Drop)]
pub(crate) struct LogSummary {
    pub zone: u32,
    pub superblock: Superblock,
    /// Whether the second record is a snapshot, false where there is none yet, or the log's damage.
    pub snapshot: Result<bool, Refusal>,
    /// It ends with no rest and has no end record.
    pub can_end: bool,
}

/// What stands behind the superblock of a log.
#[derive(Drop)]
pub(crate) struct LogRest {
    pub snapshot: Result<bool, Refusal>,
    pub can_end: bool,
}

/// What stands behind the first two records of a log: whether an end record does, and the end.
#[derive(Drop)]
pub(crate) struct LogTail {
    pub has_end: bool,
    pub end: LogEnd,
}

/// The log of a metadata zone, if it has one, or the refusal of its first record.
pub(crate) fn summary_of<D: ZonedDevice>(
    alloc: Global,
    dev: &mut D,
    geometry: &Geometry,
    zone: u32,
) -> Result<Result<Option<LogSummary>, Refusal>, LogError>
    requires is_known { D.known dev.old }
    requires same_geometry { geometry.now ≡ D.geometry dev.old }
    requires is_metadata { zone < 3 }
    ensures summary { IfOk result (λ found. D.tells → found ≡ zone_summary geometry.now zone (scan geometry.now.block (zone_at (D.image dev.old) zone).blocks)) }
    ensures sound { IfOk result (λ found. IfOk found IsSoundLog) }
    ensures device { OnlyReads D.known D.geometry D.infos D.tells D.image D.tick D.since D.failed_changes dev.old dev.new }
    ensures cause { HasCause (D.faults dev.old) (D.faults dev.new) (IsErrOf result LogError.DevFault) }
{
    let written = written_of(dev, zone)?;
    let mut reader = LogReader::new(alloc, zone, geometry, written);
    summary_by(alloc, dev, geometry, zone, written, &mut reader)
}

// The log that a reader has before it.
fn summary_by<D: ZonedDevice>(
    alloc: Global,
    dev: &mut D,
    geometry: &Geometry,
    zone: u32,
    written: u32,
    reader: &mut LogReader,
) -> Result<Result<Option<LogSummary>, Refusal>, LogError>
    requires is_known { D.known dev.old }
    requires is_metadata { zone < 3 }
    requires same_zone { reader.old.zone ≡ zone }
    requires is_zone { reader.old.zone < (D.geometry dev.old).zones }
    requires same_block { reader.old.block_size ≡ (D.geometry dev.old).block }
    requires same_window { reader.old.window ≡ window (D.geometry dev.old) }
    requires same_written { reader.old.written ≡ (info_at (D.infos dev.old) reader.old.zone).written }
    requires all_written { reader.old.written ≡ written }
    requires held { D.tells → IsHeld reader.old (D.image dev.old) }
    ensures summary { IfOk result (λ found. D.tells → found ≡ zone_summary geometry.now zone (scan_left reader.old (zone_at (D.image dev.old) reader.old.zone).blocks)) }
    ensures sound { IfOk result (λ found. IfOk found IsSoundLog) }
    ensures device { OnlyReads D.known D.geometry D.infos D.tells D.image D.tick D.since D.failed_changes dev.old dev.new }
    ensures cause { HasCause (D.faults dev.old) (D.faults dev.new) (IsErrOf result LogError.DevFault) }
{
    let next = next_record(alloc, dev, reader)?;
    let payload = match next {
        NextRecord::End(end) => return Ok(without_log(zone, end)),
        NextRecord::Payload { block: _, bytes } => bytes,
    };
    match superblock_in(geometry, zone, payload.items()) {
        Err(refusal) => Ok(Err(refusal)),
        Ok(None) => Ok(Ok(None)),
        Ok(Some(superblock)) => {
            let rest = rest_of(alloc, dev, zone, written, reader)?;
            Ok(Ok(Some(LogSummary {
                zone,
                superblock,
                snapshot: rest.snapshot,
                can_end: rest.can_end,
            })))
        }
    }
}

// What a zone without a whole first record is: passed over, or damaged.
fn without_log(zone: u32, end: LogEnd) -> Result<Option<LogSummary>, Refusal>
    ensures exact { result ≡ without_log zone end }
    ensures sound { IfOk result IsSoundLog }
{
    match end {
        LogEnd::Clean => Ok(None),
        LogEnd::Torn => Ok(None),
        LogEnd::Bad { block, why } => Err(Refusal::Damaged(Damage { zone, block, why })),
    }
}

// What stands behind the superblock, which the reader has behind it.
fn rest_of<D: ZonedDevice>(
    alloc: Global,
    dev: &mut D,
    zone: u32,
    written: u32,
    reader: &mut LogReader,
) -> Result<LogRest, LogError>
    requires is_known { D.known dev.old }
    requires is_zone { reader.old.zone < (D.geometry dev.old).zones }
    requires same_block { reader.old.block_size ≡ (D.geometry dev.old).block }
    requires same_window { reader.old.window ≡ window (D.geometry dev.old) }
    requires same_written { reader.old.written ≡ (info_at (D.infos dev.old) reader.old.zone).written }
    requires all_written { reader.old.written ≡ written }
    requires held { D.tells → IsHeld reader.old (D.image dev.old) }
    ensures rest { IfOk result (λ rest. D.tells → rest ≡ rest_of zone (scan_left reader.old (zone_at (D.image dev.old) reader.old.zone).blocks)) }
    ensures device { OnlyReads D.known D.geometry D.infos D.tells D.image D.tick D.since D.failed_changes dev.old dev.new }
    ensures cause { HasCause (D.faults dev.old) (D.faults dev.new) (IsErrOf result LogError.DevFault) }
{
    let next = next_record(alloc, dev, reader)?;
    match next {
        NextRecord::End(end) => Ok(only_end(zone, end)),
        NextRecord::Payload { block, bytes } => {
            let tail = tail_of(alloc, dev, written, reader)?;
            rest_with(alloc, zone, block, bytes.items(), &tail)
        }
    }
}

// A log of a superblock alone.
fn only_end(zone: u32, end: LogEnd) -> LogRest
    ensures { result ≡ only_end zone end }
{
    LogRest {
        snapshot: unless_bad(zone, end, Ok(false)),
        can_end: end == LogEnd::Clean,
    }
}

// A log whose second payload is this one.
fn rest_with(
    alloc: Global,
    zone: u32,
    block: u32,
    payload: &[u8],
    tail: &LogTail,
) -> Result<LogRest, LogError>
    requires { length payload.now < 2 ^ 32 }
    ensures exact { IfOk result (λ rest. rest ≡ rest_with zone block payload.now tail.now) }
    ensures memory { IsErrOf result LogError.DevFault → ⊥ }
{
    let there = is_snapshot(alloc, zone, block, payload)?;
    Ok(LogRest {
        snapshot: unless_bad(zone, tail.end, there),
        can_end: tail.end == LogEnd::Clean && !end_seen(tail.has_end, payload),
    })
}

// What is known of a snapshot, unless the log ends bad.
fn unless_bad(zone: u32, end: LogEnd, there: Result<bool, Refusal>) -> Result<bool, Refusal>
    ensures { result ≡ unless_bad zone end there }
{
    match end {
        LogEnd::Clean => there,
        LogEnd::Torn => there,
        LogEnd::Bad { block, why } => Err(Refusal::Damaged(Damage { zone, block, why })),
    }
}

// Whether the second payload of a log is a snapshot, as it has to be.
fn is_snapshot(
    alloc: Global,
    zone: u32,
    block: u32,
    payload: &[u8],
) -> Result<Result<bool, Refusal>, LogError>
    requires { length payload.now < 2 ^ 32 }
    ensures exact { IfOk result (λ there. there ≡ is_snapshot zone block (record_of payload.now)) }
    ensures memory { IsErrOf result LogError.DevFault → ⊥ }
{
    let why = match decode(alloc, payload) {
        Ok(Record::Snapshot(_)) => return Ok(Ok(true)),
        Ok(_) => DamageWhy::Rule(1),
        Err(DecodeError::Bad(fault)) => DamageWhy::Decode(fault),
        Err(DecodeError::NoMemory) => return Err(LogError::NoMemory),
    };
    Ok(Err(Refusal::Damaged(Damage { zone, block, why })))
}

// Whether a payload is an end record, or one was seen before.
fn end_seen(before: bool, payload: &[u8]) -> bool
    ensures { result ≡ end_seen before payload.now }
{
    before || payload == [4, 0, 0, 0].as_slice()
}

// What stands behind the records that the reader has behind it.
fn tail_of<D: ZonedDevice>(
    alloc: Global,
    dev: &mut D,
    written: u32,
    reader: &mut LogReader,
) -> Result<LogTail, LogError>
    requires is_known { D.known dev.old }
    requires is_zone { reader.old.zone < (D.geometry dev.old).zones }
    requires same_block { reader.old.block_size ≡ (D.geometry dev.old).block }
    requires same_window { reader.old.window ≡ window (D.geometry dev.old) }
    requires same_written { reader.old.written ≡ (info_at (D.infos dev.old) reader.old.zone).written }
    requires all_written { reader.old.written ≡ written }
    requires held { D.tells → IsHeld reader.old (D.image dev.old) }
    ensures tail { IfOk result (λ tail. D.tells → tail ≡ tail_of (scan_left reader.old (zone_at (D.image dev.old) reader.old.zone).blocks)) }
    ensures device { OnlyReads D.known D.geometry D.infos D.tells D.image D.tick D.since D.failed_changes dev.old dev.new }
    ensures cause { HasCause (D.faults dev.old) (D.faults dev.new) (IsErrOf result LogError.DevFault) }
{
    let mut has_end = false;
    let mut left = u64::from(written) + 1;
    while left > 0 {
        let next = match next_record(alloc, dev, reader) {
            Ok(next) => next,
            Err(e) => return Err(e),
        };
        let payload = match next {
            NextRecord::End(end) => return Ok(LogTail { has_end, end }),
            NextRecord::Payload { block: _, bytes } => bytes,
        };
        has_end = end_seen(has_end, payload.items());
        left -= 1;
    }
    // It isn't reached where the device tells its blocks: there are no more records than blocks.
    Ok(LogTail {
        has_end,
        end: LogEnd::Torn,
    })
}
