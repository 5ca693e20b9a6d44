// A log is rolled: its table goes into a new log in the next metadata zone.
ghost use Rattle.std.specs.Prelude.{◌≡◌, ℕ, ◌⊎◌, ◌+◌, ◌*◌, ◌^◌, ◌<◌, ◌≤◌, ◌++◌, Ok, codes, drop, length, vec_capacity, IfErr, IfOk, OnOk, IsErrOf};
ghost use Rattle.zone_image.specs.Image.{Image};
ghost use Rattle.zone_image.specs.Infos.{active_zones, IsValidImage};
ghost use Rattle.superblock_core.specs.Superblock.{superblock_bytes};
ghost use Rattle.log_model.specs.LogScan.{blocks_of, record_blocks};
ghost use Rattle.log_model.specs.LogSelection.{selected_log};
ghost use Rattle.zoned_device.specs.DataKept.{KeepsData};
ghost use Rattle.zoned_device.specs.DeviceSteps.{ChangesDevice};
ghost use Rattle.log_roll.specs.FormatLeaves.{HasNewLog};
ghost use Rattle.log_roll.specs.RollLeaves.{LeftByRoll};
ghost use Rattle.log_roll.specs.Rolling.{IsSnapshot, IsUnwritten, RefusesAs, last_sequence, next_chosen, next_superblock, next_zone, roll_need, roll_refusal, rolled_image, rolled_infos};

use crate::buffer::RollBuffer;
use crate::roll_error::RollError;
use crate::roll_steps::{next_zone, write_roll};
use log_model::Chosen;
use meta_log::blocks_of;
use std::alloc::Global;
use superblock_core::{SUPERBLOCK_BYTES, Superblock, VersionText};
use zone_image::Geometry;
use zoned_device::ZonedDevice;

// What names this program's version in a superblock.
const VERSION: &str = "profile-2";

// The version's text.
fn version_text() -> VersionText
    ensures { result ≡ codes "profile-2" }
{
    match VersionText::read(VERSION) {
        Some(text) => text,
        None => unreachable!(),
    }
}

// The superblock of the log that follows.
fn next_superblock(old: &Chosen) -> Superblock
    requires { old.now.greatest < last_sequence }
    ensures { result ≡ next_superblock old.now }
{
    let before = &old.superblock;
    Superblock {
        id: before.id,
        sequence: old.greatest + 1,
        flags: before.flags,
        block: before.block,
        zone_blocks: before.zone_blocks,
        zones: before.zones,
        finish_threshold: before.finish_threshold,
        aux_path: before.aux_path,
        version_text: version_text(),
    }
}

/// Why a log can't be rolled with a snapshot of so many bytes, by what is known before: `SequenceEnd` where no higher
/// sequence is left, and else `MetaFull` where superblock, snapshot and two more blocks don't fit into a zone.
pub fn roll_refusal(geometry: &Geometry, old: &Chosen, len: u64) -> Result<(), RollError>
    requires block_size { (geometry.now.block ≡ 512) ⊎ (geometry.now.block ≡ 4096) }
    requires fits { len < 2 ^ 63 }
    ensures { result ≡ roll_refusal geometry.now old.now len }
{
    if old.greatest == u32::MAX {
        return Err(RollError::SequenceEnd);
    }
    let need = blocks_of(SUPERBLOCK_BYTES as u64, geometry.block)
        + blocks_of(len, geometry.block)
        + 2;
    if u64::from(geometry.capacity) < need {
        return Err(RollError::MetaFull {
            need,
            capacity: geometry.capacity,
        });
    }
    Ok(())
}

// The log that a roll makes.
fn next_chosen(old: &Chosen, superblock: Superblock) -> Chosen
    requires below { old.now.zone < 3 }
    requires more { old.now.greatest < last_sequence }
    requires next { superblock ≡ next_superblock old.now }
    ensures { result ≡ next_chosen old.now }
{
    Chosen {
        zone: next_zone(old.zone),
        superblock,
        greatest: old.greatest + 1,
        can_end: true,
    }
}

// All steps of a roll that isn't refused.
fn roll_written<D: ZonedDevice>(
    dev: &mut D,
    geometry: &Geometry,
    old: &Chosen,
    snapshot: &[u8],
    bytes: &mut Vec<u8>,
) -> Result<Chosen, RollError>
    requires is_known { D.known dev.old }
    requires same_geometry { geometry.now ≡ D.geometry dev.old }
    requires is_metadata { old.now.zone < 3 }
    requires flags { old.now.superblock.flags ≤ 1 }
    requires selected { D.tells → selected_log (D.image dev.old) ≡ Ok old.now }
    requires snapshot { IsSnapshot snapshot.now }
    requires active { active_zones (drop 3 (D.infos dev.old)) < geometry.now.active_limit }
    requires more { old.now.greatest < last_sequence }
    requires room { roll_need geometry.now.block (length snapshot.now) ≤ geometry.now.capacity }
    requires end_memory { geometry.now.block ≤ vec_capacity bytes.old }
    requires memory { blocks_of geometry.now.block SUPERBLOCK_BYTES * geometry.now.block ≤ vec_capacity bytes.old }
    requires more_memory { blocks_of geometry.now.block (length snapshot.now) * geometry.now.block ≤ vec_capacity bytes.old }

    ensures fault { IfErr result (λ why. why ≡ RollError.DevFault) }
    ensures chosen { IfOk result (λ chosen. chosen ≡ next_chosen old.now) }
    ensures infos { OnOk result (D.infos dev.new ≡ rolled_infos (D.infos dev.old) (next_zone old.now.zone)
        (blocks_of geometry.now.block 512 + blocks_of geometry.now.block (length snapshot.now))) }
    ensures image { OnOk result (D.tells → D.image dev.new ≡ rolled_image (D.image dev.old) (next_zone old.now.zone)
        (record_blocks geometry.now.block (superblock_bytes (next_superblock old.now)) ++ record_blocks geometry.now.block snapshot.now)) }
    ensures log { OnOk result (D.tells → HasNewLog (next_zone old.now.zone) (next_superblock old.now) snapshot.now (D.image dev.new)) }
    ensures selects { OnOk result (D.tells → selected_log (D.image dev.new) ≡ Ok (next_chosen old.now)) }
    ensures device { ChangesDevice D.known D.geometry D.tells D.image D.tick D.since D.faults D.failed_changes dev.old dev.new (IsErrOf result RollError.DevFault)
        (LeftByRoll old.now snapshot.now (D.image dev.old)) }
    ensures data_kept { KeepsData D.infos D.tells D.image dev.old dev.new }
    ensures memory { vec_capacity bytes.old ≤ vec_capacity bytes.new }
{
    let superblock = next_superblock(old);
    let mut block = [0; SUPERBLOCK_BYTES];
    superblock.encode(&mut block);
    match write_roll(
        dev,
        geometry,
        old.zone,
        old.can_end,
        &block,
        snapshot,
        bytes,
    ) {
        Ok(()) => Ok(next_chosen(old, superblock)),
        Err(_) => Err(RollError::DevFault),
    }
}

/// Rolls a log with memory that was taken beforehand; see `roll`. It takes no memory and never answers `NoMemory`.
pub fn roll_with<D: ZonedDevice>(
    dev: &mut D,
    geometry: &Geometry,
    old: &Chosen,
    snapshot: &[u8],
    buffer: &mut RollBuffer,
) -> Result<Chosen, RollError>
    requires is_known { D.known dev.old }
    requires same_geometry { geometry.now ≡ D.geometry dev.old }
    requires is_metadata { old.now.zone < 3 }
    requires flags { old.now.superblock.flags ≤ 1 }
    requires selected { D.tells → selected_log (D.image dev.old) ≡ Ok old.now }
    requires snapshot { IsSnapshot snapshot.now }
    requires active { active_zones (drop 3 (D.infos dev.old)) < geometry.now.active_limit }
    requires buffer_block { buffer.old.block ≡ geometry.now.block }
    requires buffer_capacity { buffer.old.capacity ≡ geometry.now.capacity }
    requires buffer_len { length snapshot.now ≤ buffer.old.len }

    ensures refused { RefusesAs (roll_refusal geometry.now old.now (length snapshot.now)) result }
    ensures unwritten { IsUnwritten result → dev.new ≡ dev.old }
    ensures no_memory { IsErrOf result RollError.NoMemory → ⊥ }

    ensures chosen { IfOk result (λ chosen. chosen ≡ next_chosen old.now) }
    ensures infos { OnOk result (D.infos dev.new ≡ rolled_infos (D.infos dev.old) (next_zone old.now.zone)
        (blocks_of geometry.now.block 512 + blocks_of geometry.now.block (length snapshot.now))) }
    ensures image { OnOk result (D.tells → D.image dev.new ≡ rolled_image (D.image dev.old) (next_zone old.now.zone)
        (record_blocks geometry.now.block (superblock_bytes (next_superblock old.now)) ++ record_blocks geometry.now.block snapshot.now)) }
    ensures log { OnOk result (D.tells → HasNewLog (next_zone old.now.zone) (next_superblock old.now) snapshot.now (D.image dev.new)) }
    ensures selects { OnOk result (D.tells → selected_log (D.image dev.new) ≡ Ok (next_chosen old.now)) }

    ensures device { ChangesDevice D.known D.geometry D.tells D.image D.tick D.since D.faults D.failed_changes dev.old dev.new (IsErrOf result RollError.DevFault)
        (LeftByRoll old.now snapshot.now (D.image dev.old)) }
    ensures data_kept { KeepsData D.infos D.tells D.image dev.old dev.new }
    ensures limits { (t : ℕ) (j : Image) → D.since dev.new t j → IsValidImage j }
    ensures same_buffer { buffer.new ≡ buffer.old }
{
    let _greatest = old.greatest;
    match roll_refusal(geometry, old, snapshot.len() as u64) {
        Ok(()) => roll_written(dev, geometry, old, snapshot, &mut buffer.bytes),
        Err(why) => Err(why),
    }
}

// Rolls a log that nothing known before refuses, after its memory was taken.
fn roll_taking<D: ZonedDevice>(
    alloc: Global,
    dev: &mut D,
    geometry: &Geometry,
    old: &Chosen,
    snapshot: &[u8],
) -> Result<Chosen, RollError>
    requires is_known { D.known dev.old }
    requires same_geometry { geometry.now ≡ D.geometry dev.old }
    requires is_metadata { old.now.zone < 3 }
    requires flags { old.now.superblock.flags ≤ 1 }
    requires selected { D.tells → selected_log (D.image dev.old) ≡ Ok old.now }
    requires snapshot { IsSnapshot snapshot.now }
    requires allowed { roll_refusal geometry.now old.now (length snapshot.now) ≡ Ok tt }
    requires active { active_zones (drop 3 (D.infos dev.old)) < geometry.now.active_limit }

    ensures refused { RefusesAs (roll_refusal geometry.now old.now (length snapshot.now)) result }
    ensures unwritten { IsUnwritten result → dev.new ≡ dev.old }

    ensures chosen { IfOk result (λ chosen. chosen ≡ next_chosen old.now) }
    ensures infos { OnOk result (D.infos dev.new ≡ rolled_infos (D.infos dev.old) (next_zone old.now.zone)
        (blocks_of geometry.now.block 512 + blocks_of geometry.now.block (length snapshot.now))) }
    ensures image { OnOk result (D.tells → D.image dev.new ≡ rolled_image (D.image dev.old) (next_zone old.now.zone)
        (record_blocks geometry.now.block (superblock_bytes (next_superblock old.now)) ++ record_blocks geometry.now.block snapshot.now)) }
    ensures log { OnOk result (D.tells → HasNewLog (next_zone old.now.zone) (next_superblock old.now) snapshot.now (D.image dev.new)) }
    ensures selects { OnOk result (D.tells → selected_log (D.image dev.new) ≡ Ok (next_chosen old.now)) }

    ensures device { ChangesDevice D.known D.geometry D.tells D.image D.tick D.since D.faults D.failed_changes dev.old dev.new (IsErrOf result RollError.DevFault)
        (LeftByRoll old.now snapshot.now (D.image dev.old)) }
    ensures data_kept { KeepsData D.infos D.tells D.image dev.old dev.new }
{
    match RollBuffer::new(alloc, geometry, snapshot.len() as u64) {
        Ok(mut buffer) => roll_with(dev, geometry, old, snapshot, &mut buffer),
        Err(_) => Err(RollError::NoMemory),
    }
}

/// Rolls a log: all blocks are made durable, the other two metadata zones are emptied, the old log gets an end record
/// where it may have one and its zone has a free block, its zone is sealed, a new log with the next sequence and this
/// snapshot is written into the metadata zone behind it and made durable, and the old zone is emptied. The answer is
/// what is told of the new log.
///
/// `SequenceEnd` comes exactly where no higher sequence is left, and else `MetaFull` exactly where superblock,
/// snapshot and two more blocks don't fit into a zone. After these and `NoMemory` nothing was done. `DevFault` comes
/// only where the device's count of faults rose. Whatever the answer, the data zones have the blocks, numbers and
/// seals that they had (clause `data_kept`).
pub fn roll<D: ZonedDevice>(
    alloc: Global,
    dev: &mut D,
    geometry: &Geometry,
    old: &Chosen,
    snapshot: &[u8],
) -> Result<Chosen, RollError>
    requires is_known { D.known dev.old }
    requires same_geometry { geometry.now ≡ D.geometry dev.old }
    requires is_metadata { old.now.zone < 3 }
    requires flags { old.now.superblock.flags ≤ 1 }
    requires selected { D.tells → selected_log (D.image dev.old) ≡ Ok old.now }
    requires snapshot { IsSnapshot snapshot.now }
    requires active { active_zones (drop 3 (D.infos dev.old)) < geometry.now.active_limit }

    // Want of memory comes only where nothing else refuses.
    ensures refused { RefusesAs (roll_refusal geometry.now old.now (length snapshot.now)) result }
    ensures unwritten { IsUnwritten result → dev.new ≡ dev.old }

    ensures chosen { IfOk result (λ chosen. chosen ≡ next_chosen old.now) }
    ensures infos { OnOk result (D.infos dev.new ≡ rolled_infos (D.infos dev.old) (next_zone old.now.zone)
        (blocks_of geometry.now.block 512 + blocks_of geometry.now.block (length snapshot.now))) }
    ensures image { OnOk result (D.tells → D.image dev.new ≡ rolled_image (D.image dev.old) (next_zone old.now.zone)
        (record_blocks geometry.now.block (superblock_bytes (next_superblock old.now)) ++ record_blocks geometry.now.block snapshot.now)) }
    ensures log { OnOk result (D.tells → HasNewLog (next_zone old.now.zone) (next_superblock old.now) snapshot.now (D.image dev.new)) }
    ensures selects { OnOk result (D.tells → selected_log (D.image dev.new) ≡ Ok (next_chosen old.now)) }

    ensures device { ChangesDevice D.known D.geometry D.tells D.image D.tick D.since D.faults D.failed_changes dev.old dev.new (IsErrOf result RollError.DevFault)
        (LeftByRoll old.now snapshot.now (D.image dev.old)) }
    ensures data_kept { KeepsData D.infos D.tells D.image dev.old dev.new }

    // No crash finds more zones active than the limit.
    ensures limits { (t : ℕ) (j : Image) → D.since dev.new t j → IsValidImage j }
{
    match roll_refusal(geometry, old, snapshot.len() as u64) {
        Ok(()) => roll_taking(alloc, dev, geometry, old, snapshot),
        Err(why) => Err(why),
    }
}
