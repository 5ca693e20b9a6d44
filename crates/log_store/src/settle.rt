// The log of a mount that begins to write: nothing is pending behind it, and its table has no recovery point.
ghost use Rattle.std.specs.Prelude.{◌≡◌, ◌+◌, ◌<◌, ◌≤◌, Ok, drop, length, IfErr, IfOk, IfSome, OnOk, IsErr, IsErrOf};
ghost use Rattle.zone_image.specs.Changes.{synced};
ghost use Rattle.zone_image.specs.Infos.{active_zones};
ghost use Rattle.log_model.specs.LogScan.{blocks_of};
ghost use Rattle.log_model.specs.LogSelection.{selected_log};
ghost use Rattle.zoned_device.specs.DeviceSteps.{ChangesDevice};
ghost use Rattle.log_roll.specs.Rolling.{IsSnapshot, IsUnwritten, RefusesAs, next_chosen, next_zone, roll_refusal, rolled_infos};
ghost use Rattle.zoned_device.specs.OtherData.{KeepsBlocks};
ghost use Rattle.log_store.specs.Settling.{LeftBySeal, LeftBySettling, MountsAlike, PassedBySeal, RestsSettled, infos_sealed, is_sealed_by, sealed_image};

use crate::calls::{seal, sync};
use log_model::Chosen;
use log_roll::{RollBuffer, RollError, roll_refusal, roll_with};
use zone_image::Geometry;
use zoned_device::{DevFault, ZonedDevice};

// Seals a zone, if there is one to be sealed.
fn seal_any<D: ZonedDevice>(dev: &mut D, finish: Option<u32>) -> Result<(), DevFault>
    requires is_known { D.known dev.old }
    requires is_zone { IfSome finish (λ zone. zone < (D.geometry dev.old).zones) }
    ensures infos { OnOk result (D.infos dev.new ≡ infos_sealed (D.infos dev.old) finish) }
    ensures image { OnOk result (D.tells → D.image dev.new ≡ sealed_image (D.image dev.old) finish) }
    ensures device { ChangesDevice D.known D.geometry D.tells D.image D.tick D.since D.faults D.failed_changes dev.old dev.new (IsErr result)
        (PassedBySeal finish (D.image dev.old)) }
    ensures data_kept { KeepsBlocks D.infos D.tells D.image (is_sealed_by finish) dev.old dev.new }
{
    match finish {
        Some(zone) => seal(dev, zone),
        None => Ok(()),
    }
}

// Makes all blocks durable, and seals a zone, if there is one to be sealed.
fn seal_synced<D: ZonedDevice>(dev: &mut D, finish: Option<u32>) -> Result<(), DevFault>
    requires is_known { D.known dev.old }
    requires is_zone { IfSome finish (λ zone. zone < (D.geometry dev.old).zones) }
    ensures infos { OnOk result (D.infos dev.new ≡ infos_sealed (D.infos dev.old) finish) }
    ensures image { OnOk result (D.tells → D.image dev.new ≡ sealed_image (synced (D.image dev.old)) finish) }
    ensures device { ChangesDevice D.known D.geometry D.tells D.image D.tick D.since D.faults D.failed_changes dev.old dev.new (IsErr result)
        (LeftBySeal (D.image dev.old)) }
    ensures data_kept { KeepsBlocks D.infos D.tells D.image (is_sealed_by finish) dev.old dev.new }
{
    match sync(dev) {
        Ok(()) => seal_any(dev, finish),
        Err(fault) => Err(fault),
    }
}

// All steps of a roll that isn't refused.
fn settle_allowed<D: ZonedDevice>(
    dev: &mut D,
    geometry: &Geometry,
    old: &Chosen,
    finish: Option<u32>,
    snapshot: &[u8],
    buffer: &mut RollBuffer,
) -> Result<Chosen, RollError>
    requires is_known { D.known dev.old }
    requires same_geometry { geometry.now ≡ D.geometry dev.old }
    requires is_metadata { old.now.zone < 3 }
    requires flags { old.now.superblock.flags ≤ 1 }
    requires selected { D.tells → selected_log (D.image dev.old) ≡ Ok old.now }
    requires snapshot { IsSnapshot snapshot.now }
    requires is_zone { IfSome finish (λ zone. zone < geometry.now.zones) }
    requires active { active_zones (drop 3 (infos_sealed (D.infos dev.old) finish)) < geometry.now.active_limit }
    requires buffer_block { buffer.old.block ≡ geometry.now.block }
    requires buffer_capacity { buffer.old.capacity ≡ geometry.now.capacity }
    requires buffer_len { length snapshot.now ≤ buffer.old.len }
    requires allowed { roll_refusal geometry.now old.now (length snapshot.now) ≡ Ok tt }

    ensures fault { IfErr result (λ why. why ≡ RollError.DevFault) }
    ensures chosen { IfOk result (λ chosen. chosen ≡ next_chosen old.now) }
    ensures infos { OnOk result (D.infos dev.new ≡ rolled_infos (infos_sealed (D.infos dev.old) finish) (next_zone old.now.zone)
        (blocks_of geometry.now.block 512 + blocks_of geometry.now.block (length snapshot.now))) }
    ensures at_rest { OnOk result (D.tells → RestsSettled old.now snapshot.now (D.image dev.old) (D.image dev.new)) }
    ensures alike { OnOk result (D.tells → MountsAlike (D.image dev.old) snapshot.now (D.image dev.new)) }
    ensures selects { OnOk result (D.tells → selected_log (D.image dev.new) ≡ Ok (next_chosen old.now)) }
    ensures device { ChangesDevice D.known D.geometry D.tells D.image D.tick D.since D.faults D.failed_changes dev.old dev.new (IsErrOf result RollError.DevFault)
        (LeftBySettling snapshot.now (D.image dev.old)) }
    ensures data_kept { KeepsBlocks D.infos D.tells D.image (is_sealed_by finish) dev.old dev.new }
    ensures same_buffer { buffer.new ≡ buffer.old }
{
    match seal_synced(dev, finish) {
        Ok(()) => roll_with(dev, geometry, old, snapshot, buffer),
        Err(_) => Err(RollError::DevFault),
    }
}

/// Does what a mount does before it writes: all blocks are made durable, a data zone is sealed where one is to be, and
/// the log is rolled by memory that was taken beforehand. Nothing is asked of what was pending. The answer is what is
/// told of the new log.
///
/// Whatever table the image mounts, with the extents that are found again: where the snapshot has it without recovery
/// points, after Ok the device is at rest with that table (clause `at_rest`), and mounts to the same tree (clause
/// `alike`). A crash at any moment leaves a crash of the image that stood, or the tree to which that mounts (clause
/// `device`). `SequenceEnd` comes exactly where no higher sequence is left, and else `MetaFull` exactly where
/// superblock, snapshot and two more blocks don't fit into a zone; nothing was done then. `DevFault` comes only where
/// the device's count of faults rose, and `NoMemory` never. Whatever the answer, the data zones have the blocks that
/// they had, and all but the one to be sealed their seals (clause `data_kept`).
pub fn settle_log<D: ZonedDevice>(
    dev: &mut D,
    geometry: &Geometry,
    old: &Chosen,
    finish: Option<u32>,
    snapshot: &[u8],
    buffer: &mut RollBuffer,
) -> Result<Chosen, RollError>
    requires is_known { D.known dev.old }
    requires same_geometry { geometry.now ≡ D.geometry dev.old }
    requires is_metadata { old.now.zone < 3 }
    requires flags { old.now.superblock.flags ≤ 1 }
    requires selected { D.tells → selected_log (D.image dev.old) ≡ Ok old.now }
    requires snapshot { IsSnapshot snapshot.now }
    requires is_zone { IfSome finish (λ zone. zone < geometry.now.zones) }
    requires active { active_zones (drop 3 (infos_sealed (D.infos dev.old) finish)) < geometry.now.active_limit }
    requires buffer_block { buffer.old.block ≡ geometry.now.block }
    requires buffer_capacity { buffer.old.capacity ≡ geometry.now.capacity }
    requires buffer_len { length snapshot.now ≤ buffer.old.len }

    ensures refused { RefusesAs (roll_refusal geometry.now old.now (length snapshot.now)) result }
    ensures unwritten { IsUnwritten result → dev.new ≡ dev.old }
    ensures no_memory { IsErrOf result RollError.NoMemory → ⊥ }

    ensures chosen { IfOk result (λ chosen. chosen ≡ next_chosen old.now) }
    ensures infos { OnOk result (D.infos dev.new ≡ rolled_infos (infos_sealed (D.infos dev.old) finish) (next_zone old.now.zone)
        (blocks_of geometry.now.block 512 + blocks_of geometry.now.block (length snapshot.now))) }
    ensures at_rest { OnOk result (D.tells → RestsSettled old.now snapshot.now (D.image dev.old) (D.image dev.new)) }
    ensures alike { OnOk result (D.tells → MountsAlike (D.image dev.old) snapshot.now (D.image dev.new)) }
    ensures selects { OnOk result (D.tells → selected_log (D.image dev.new) ≡ Ok (next_chosen old.now)) }

    ensures device { ChangesDevice D.known D.geometry D.tells D.image D.tick D.since D.faults D.failed_changes dev.old dev.new (IsErrOf result RollError.DevFault)
        (LeftBySettling snapshot.now (D.image dev.old)) }
    ensures data_kept { KeepsBlocks D.infos D.tells D.image (is_sealed_by finish) dev.old dev.new }
    ensures same_buffer { buffer.new ≡ buffer.old }
{
    match roll_refusal(geometry, old, snapshot.len() as u64) {
        Ok(()) => settle_allowed(dev, geometry, old, finish, snapshot, buffer),
        Err(why) => Err(why),
    }
}
