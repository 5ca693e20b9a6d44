// The log of a device at rest is rolled, and a record may follow.
ghost use Rattle.std.specs.Prelude.{◌≡◌, ◌+◌, ◌<◌, ◌≤◌, ◌++◌, Ok, drop, length, true, false, IfErr, IfOk, OnOk, IsErrOf};
ghost use Rattle.zone_image.specs.Infos.{active_zones, info_at, infos_appended};
ghost use Rattle.superblock_core.specs.Superblock.{superblock_bytes};
ghost use Rattle.log_model.specs.LogScan.{blocks_of, record_blocks};
ghost use Rattle.log_model.specs.LogSelection.{selected_log};
ghost use Rattle.zoned_device.specs.DataKept.{KeepsData};
ghost use Rattle.zoned_device.specs.DeviceSteps.{ChangesDevice};
ghost use Rattle.log_roll.specs.Rolling.{IsSnapshot, IsUnwritten, RefusesAs, next_chosen, next_superblock, next_zone, roll_refusal, rolled_image, rolled_infos};
ghost use Rattle.log_store.specs.Adding.{GoesOn, LeftByRecord, RestsWithRecord};
ghost use Rattle.log_store.specs.RollCalls.{GoesOnRolled, LeftByBoth, LeftBySnapshot, RestsRolled, RestsWithSnapshot};

use crate::adding::add_record;
use crate::spelled::SpelledRecord;
use log_model::Chosen;
use log_roll::{RollBuffer, RollError, roll_with};
use zone_image::Geometry;
use zoned_device::ZonedDevice;

/// Rolls the log that counts with the snapshot of a table, by memory that was taken beforehand. The answer is what is
/// told of the new log.
///
/// Whatever table the device had at rest, after Ok it is at rest with the table of the snapshot, where that is a
/// pinned one. A crash at any moment leaves the table before it, or that of the snapshot (clause `device`).
/// `SequenceEnd` comes exactly where no higher sequence is left, and else `MetaFull` exactly where superblock,
/// snapshot and two more blocks don't fit into a zone; nothing was done then. `DevFault` comes only where the device's
/// count of faults rose, and `NoMemory` never. Whatever the answer, the data zones are kept (clause `data_kept`).
pub fn roll_log<D: ZonedDevice>(
    dev: &mut D,
    geometry: &Geometry,
    old: &Chosen,
    snapshot: &[u8],
    buffer: &mut RollBuffer,
) -> Result<Chosen, RollError>
    requires is_known { D.known dev.old }
    requires same_geometry { geometry.now ≡ D.geometry dev.old }
    requires is_metadata { old.now.zone < 3 }
    requires flags { old.now.superblock.flags ≤ 1 }
    requires selected { D.tells → selected_log (D.image dev.old) ≡ Ok old.now }
    requires snapshot { IsSnapshot snapshot.now }
    requires active { active_zones (drop 3 (D.infos dev.old)) < geometry.now.active_limit }
    requires buffer_block { buffer.old.block ≡ geometry.now.block }
    requires buffer_capacity { buffer.old.capacity ≡ geometry.now.capacity }
    requires buffer_len { length snapshot.now ≤ buffer.old.len }

    ensures refused { RefusesAs (roll_refusal geometry.now old.now (length snapshot.now)) result }
    ensures unwritten { IsUnwritten result → dev.new ≡ dev.old }
    ensures no_memory { IsErrOf result RollError.NoMemory → ⊥ }

    ensures chosen { IfOk result (λ chosen. chosen ≡ next_chosen old.now) }
    ensures infos { OnOk result (D.infos dev.new ≡ rolled_infos (D.infos dev.old) (next_zone old.now.zone)
        (blocks_of geometry.now.block 512 + blocks_of geometry.now.block (length snapshot.now))) }
    ensures image { OnOk result (D.tells → D.image dev.new ≡ rolled_image (D.image dev.old) (next_zone old.now.zone)
        (record_blocks geometry.now.block (superblock_bytes (next_superblock old.now)) ++ record_blocks geometry.now.block snapshot.now)) }
    ensures at_rest { OnOk result (D.tells → RestsWithSnapshot old.now snapshot.now (D.image dev.old) (D.image dev.new)) }
    ensures selects { OnOk result (D.tells → selected_log (D.image dev.new) ≡ Ok (next_chosen old.now)) }

    ensures device { ChangesDevice D.known D.geometry D.tells D.image D.tick D.since D.faults D.failed_changes dev.old dev.new (IsErrOf result RollError.DevFault)
        (LeftBySnapshot snapshot.now (D.image dev.old)) }
    ensures data_kept { KeepsData D.infos D.tells D.image dev.old dev.new }
    ensures same_buffer { buffer.new ≡ buffer.old }
{
    roll_with(dev, geometry, old, snapshot, buffer)
}

// Adds a record to the log that a roll made.
fn add_to_new<D: ZonedDevice>(
    dev: &mut D,
    geometry: &Geometry,
    chosen: Chosen,
    added: &SpelledRecord,
) -> Result<Chosen, RollError>
    requires is_known { D.known dev.old }
    requires same_geometry { geometry.now ≡ D.geometry dev.old }
    requires same_block { added.now.block ≡ geometry.now.block }
    requires is_metadata { chosen.zone < 3 }
    requires selected { D.tells → selected_log (D.image dev.old) ≡ Ok chosen }
    requires goes_on { chosen.can_end ≡ true }
    requires unsealed { (info_at (D.infos dev.old) chosen.zone).sealed ≡ false }
    requires some { 0 < (info_at (D.infos dev.old) chosen.zone).written }
    requires room { (info_at (D.infos dev.old) chosen.zone).written + length added.now.blocks ≤ geometry.now.capacity }

    ensures fault { IfErr result (λ why. why ≡ RollError.DevFault) }
    ensures chosen { IfOk result (λ same. same ≡ chosen) }
    ensures infos { OnOk result (D.infos dev.new ≡ infos_appended geometry.now (D.infos dev.old) chosen.zone (length added.now.blocks)) }
    ensures at_rest { OnOk result (D.tells → RestsWithRecord added.now.blocks (D.image dev.old) (D.image dev.new)) }
    ensures selects { OnOk result (D.tells → GoesOn chosen added.now.blocks (D.image dev.old) (D.image dev.new)) }
    ensures device { ChangesDevice D.known D.geometry D.tells D.image D.tick D.since D.faults D.failed_changes dev.old dev.new (IsErrOf result RollError.DevFault)
        (LeftByRecord added.now.blocks (D.image dev.old)) }
    ensures data_kept { KeepsData D.infos D.tells D.image dev.old dev.new }
{
    match add_record(dev, geometry, &chosen, added) {
        Ok(()) => Ok(chosen),
        Err(_) => Err(RollError::DevFault),
    }
}

/// Rolls the log that counts with the snapshot of its table, adds a record behind the snapshot, and makes it durable.
/// It takes no memory; the new log's zone has room for both. The answer is what is told of the new log.
///
/// Whatever table the device had at rest, after Ok it is at rest with the table that the record makes of it, and the
/// new log counts. A crash at any moment leaves the table before it, or the one after it (clause `device`). The
/// refusals are those of `roll_log`.
pub fn roll_and_add<D: ZonedDevice>(
    dev: &mut D,
    geometry: &Geometry,
    old: &Chosen,
    snapshot: &[u8],
    buffer: &mut RollBuffer,
    added: &SpelledRecord,
) -> Result<Chosen, RollError>
    requires is_known { D.known dev.old }
    requires same_geometry { geometry.now ≡ D.geometry dev.old }
    requires is_metadata { old.now.zone < 3 }
    requires flags { old.now.superblock.flags ≤ 1 }
    requires selected { D.tells → selected_log (D.image dev.old) ≡ Ok old.now }
    requires snapshot { IsSnapshot snapshot.now }
    requires active { active_zones (drop 3 (D.infos dev.old)) < geometry.now.active_limit }
    requires buffer_block { buffer.old.block ≡ geometry.now.block }
    requires buffer_capacity { buffer.old.capacity ≡ geometry.now.capacity }
    requires buffer_len { length snapshot.now ≤ buffer.old.len }
    requires same_block { added.now.block ≡ geometry.now.block }
    requires room { blocks_of geometry.now.block 512 + blocks_of geometry.now.block (length snapshot.now) + length added.now.blocks ≤ geometry.now.capacity }

    ensures refused { RefusesAs (roll_refusal geometry.now old.now (length snapshot.now)) result }
    ensures unwritten { IsUnwritten result → dev.new ≡ dev.old }
    ensures no_memory { IsErrOf result RollError.NoMemory → ⊥ }

    ensures chosen { IfOk result (λ chosen. chosen ≡ next_chosen old.now) }
    ensures infos { OnOk result (D.infos dev.new ≡ infos_appended geometry.now (rolled_infos (D.infos dev.old) (next_zone old.now.zone)
        (blocks_of geometry.now.block 512 + blocks_of geometry.now.block (length snapshot.now))) (next_zone old.now.zone) (length added.now.blocks)) }
    ensures at_rest { OnOk result (D.tells → RestsRolled old.now snapshot.now added.now.blocks (D.image dev.old) (D.image dev.new)) }
    ensures selects { OnOk result (D.tells → GoesOnRolled old.now snapshot.now added.now.blocks (D.image dev.old) (D.image dev.new)) }

    ensures device { ChangesDevice D.known D.geometry D.tells D.image D.tick D.since D.faults D.failed_changes dev.old dev.new (IsErrOf result RollError.DevFault)
        (LeftByBoth snapshot.now added.now.blocks (D.image dev.old)) }
    ensures data_kept { KeepsData D.infos D.tells D.image dev.old dev.new }
    ensures same_buffer { buffer.new ≡ buffer.old }
{
    match roll_log(dev, geometry, old, snapshot, buffer) {
        Ok(chosen) => add_to_new(dev, geometry, chosen, added),
        Err(why) => Err(why),
    }
}
