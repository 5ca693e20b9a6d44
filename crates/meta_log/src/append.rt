// A record added at the end of a log.
ghost use Rattle.std.specs.Prelude.{◌≡◌, ◌+◌, ◌*◌, ◌^◌, ◌<◌, ◌≤◌, false, length, IfOk, OnOk, OnErr, IsErr, IsErrOf};
ghost use Rattle.zone_image.specs.Changes.{appended, chunks};
ghost use Rattle.zone_image.specs.Counts.{Counts, HasCause};
ghost use Rattle.zone_image.specs.Infos.{info_at, active_zones, infos_appended, ShowsSome};
ghost use Rattle.zone_image.specs.Moments.{LeavesOnly, PassedByAppend};
ghost use Rattle.log_model.specs.LogScan.{blocks_of, record_blocks};
ghost use Rattle.meta_log.specs.Faults.{failed_after};

use crate::error::LogError;
use crate::record::{blocks_of, spell};
use std::alloc::Global;
use zone_image::Geometry;
use zoned_device::{DevFault, ZonedDevice};

/// Adds a record with this payload at the end of a zone, in one append, and answers its first block.
/// `NoMemory` comes before any call of the device. After `DevFault`, which comes only where the
/// device's count of faults rose, some of the record's first blocks may stand.
pub fn add<D: ZonedDevice>(
    alloc: Global,
    dev: &mut D,
    geometry: &Geometry,
    zone: u32,
    payload: &[u8],
) -> Result<u32, LogError>
    requires is_known { D.known dev.old }
    requires same_geometry { geometry.now ≡ D.geometry dev.old }
    requires is_zone { zone < (D.geometry dev.old).zones }
    requires some { 1 ≤ length payload.now }
    requires fits { length payload.now < 2 ^ 32 }
    requires unsealed { (info_at (D.infos dev.old) zone).sealed ≡ false }
    requires room { (info_at (D.infos dev.old) zone).written + blocks_of geometry.now.block (length payload.now) ≤ geometry.now.capacity }
    requires active { (info_at (D.infos dev.old) zone).written ≡ 0 → active_zones (D.infos dev.old) < geometry.now.active_limit }

    ensures first { IfOk result (λ first. first ≡ (info_at (D.infos dev.old) zone).written) }
    ensures new_infos { OnOk result (D.infos dev.new ≡ infos_appended geometry.now (D.infos dev.old) zone (blocks_of geometry.now.block (length payload.now))) }
    ensures new_image { OnOk result (D.tells → D.image dev.new ≡ appended (D.image dev.old) zone (record_blocks geometry.now.block payload.now)) }
    ensures memory { IsErrOf result LogError.NoMemory → dev.new ≡ dev.old }
    ensures after_fault { IsErrOf result LogError.DevFault → ShowsSome geometry.now D.tells zone (record_blocks geometry.now.block payload.now)
        (D.infos dev.old) (D.image dev.old) (D.infos dev.new) (D.image dev.new) }

    ensures still_known { D.known dev.new }
    ensures same_shape { D.geometry dev.new ≡ D.geometry dev.old }
    ensures passes { (IsErrOf result LogError.NoMemory → ⊥) → LeavesOnly D.tick D.since dev.old dev.new (PassedByAppend (D.image dev.old) zone (record_blocks geometry.now.block payload.now)) }
    ensures cause { HasCause (D.faults dev.old) (D.faults dev.new) (IsErrOf result LogError.DevFault) }
    ensures changes { D.failed_changes dev.new ≡ failed_after result (D.failed_changes dev.old) }
{
    let record = match spell(alloc, payload, geometry.block) {
        Ok(record) => record,
        Err(_) => return Err(LogError::NoMemory),
    };
    let count = blocks_of(payload.len() as u64, geometry.block) as u32;
    match append_blocks(dev, zone, record.items(), geometry.block, count) {
        Ok(first) => Ok(first),
        Err(_) => Err(LogError::DevFault),
    }
}

// Appends bytes that are so many blocks.
fn append_blocks<D: ZonedDevice>(
    dev: &mut D,
    zone: u32,
    bytes: &[u8],
    block: u32,
    count: u32,
) -> Result<u32, DevFault>
    requires is_known { D.known dev.old }
    requires is_zone { zone < (D.geometry dev.old).zones }
    requires same_block { block ≡ (D.geometry dev.old).block }
    requires some { 0 < count }
    requires whole { length bytes.now ≡ count * block }
    requires unsealed { (info_at (D.infos dev.old) zone).sealed ≡ false }
    requires room { (info_at (D.infos dev.old) zone).written + count ≤ (D.geometry dev.old).capacity }
    requires active { (info_at (D.infos dev.old) zone).written ≡ 0 → active_zones (D.infos dev.old) < (D.geometry dev.old).active_limit }

    ensures first { IfOk result (λ first. first ≡ (info_at (D.infos dev.old) zone).written) }
    ensures new_infos { OnOk result (D.infos dev.new ≡ infos_appended (D.geometry dev.old) (D.infos dev.old) zone count) }
    ensures new_image { OnOk result (D.tells → D.image dev.new ≡ appended (D.image dev.old) zone (chunks block count bytes.now)) }
    ensures after_fault { OnErr result (ShowsSome (D.geometry dev.old) D.tells zone (chunks block count bytes.now)
        (D.infos dev.old) (D.image dev.old) (D.infos dev.new) (D.image dev.new)) }

    ensures still_known { D.known dev.new }
    ensures same_shape { D.geometry dev.new ≡ D.geometry dev.old }
    ensures passes { LeavesOnly D.tick D.since dev.old dev.new (PassedByAppend (D.image dev.old) zone (chunks block count bytes.now)) }
    ensures cause { HasCause (D.faults dev.old) (D.faults dev.new) (IsErr result) }
    ensures changes { Counts (D.failed_changes dev.old) (D.failed_changes dev.new) result }
{
    dev.append(zone, bytes)
}
