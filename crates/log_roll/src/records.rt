// Records that are written without taking memory.
ghost use Rattle.std.specs.Prelude.{◌≡◌, ◌⊎◌, ◌+◌, ◌-◌, ◌*◌, ◌^◌, ◌<◌, ◌≤◌, ◌++◌, false, length, replicate, vec_capacity, vec_len, OnOk, IsErr};
ghost use Rattle.zone_image.specs.Changes.{appended, chunks};
ghost use Rattle.zone_image.specs.Infos.{info_at, active_zones, infos_appended, no_info};
ghost use Rattle.zone_image.specs.Moments.{PassedByAppend};
ghost use Rattle.log_model.specs.LogScan.{blocks_of, record_blocks, record_sum};
ghost use Rattle.zoned_device.specs.DataKept.{KeepsData};
ghost use Rattle.zoned_device.specs.DeviceSteps.{ChangesDevice};
ghost use Rattle.log_roll.specs.NewLog.{PassedByNewLog, begun, infos_begun};

use crate::steps::append;
use crc32c_core::{crc32c, extend, mask};
use meta_log::blocks_of;
use zone_image::Geometry;
use zoned_device::{DevFault, ZonedDevice};

// The bytes before a payload.
const HEADER: usize = 8;

// Puts bytes behind others, where there is room for them.
fn put(bytes: &mut Vec<u8>, part: &[u8])
    requires { vec_len bytes.old + length part.now ≤ vec_capacity bytes.old }
    ensures items { bytes.new.items ≡ bytes.old.items ++ part.now }
    ensures memory { vec_capacity bytes.old ≤ vec_capacity bytes.new }
{
    let _ = bytes.extend_from_slice(part);
}

// Puts zeros behind bytes, where there is room for them.
fn put_zeros(bytes: &mut Vec<u8>, count: usize)
    requires { vec_len bytes.old + count ≤ vec_capacity bytes.old }
    ensures items { bytes.new.items ≡ bytes.old.items ++ replicate count 0 }
    ensures memory { vec_capacity bytes.old ≤ vec_capacity bytes.new }
{
    for put in 0..count {
        let _ = put;
        bytes.push_reserved(0);
    }
}

// The checksum that is stored before a payload and its length.
fn record_sum(payload: &[u8]) -> u32
    requires { length payload.now < 2 ^ 32 }
    ensures { result ≡ record_sum payload.now }
{
    let len = (payload.len() as u32).to_le_bytes();
    mask(extend(crc32c(&len), payload))
}

// Writes the blocks of a record with this payload in place of the bytes, which have the memory for them.
#[tactic(auto, unfolding(log_model::specs::LogScan::record_blocks))]
fn spell(payload: &[u8], block: u32, bytes: &mut Vec<u8>)
    requires block_size { (block ≡ 512) ⊎ (block ≡ 4096) }
    requires some { 1 ≤ length payload.now }
    requires fits { length payload.now < 2 ^ 32 }
    requires memory { blocks_of block (length payload.now) * block ≤ vec_capacity bytes.old }
    ensures blocks { chunks block (blocks_of block (length payload.now)) bytes.new.items ≡ record_blocks block payload.now }
    ensures whole { length bytes.new.items ≡ blocks_of block (length payload.now) * block }
    ensures memory { vec_capacity bytes.old ≤ vec_capacity bytes.new }
{
    let len = payload.len();
    let size = blocks_of(len as u64, block) as usize * block as usize;
    bytes.clear();
    put(bytes, &record_sum(payload).to_le_bytes());
    put(bytes, &(len as u32).to_le_bytes());
    put(bytes, payload);
    put_zeros(bytes, size - (HEADER + len));
}

// Appends bytes that are so many blocks.
fn append_blocks<D: ZonedDevice>(
    dev: &mut D,
    zone: u32,
    bytes: &[u8],
    block: u32,
    count: u32,
) -> Result<(), DevFault>
    requires is_known { D.known dev.old }
    requires is_zone { zone < (D.geometry dev.old).zones }
    requires same_block { block ≡ (D.geometry dev.old).block }
    requires some { 0 < count }
    requires whole { length bytes.now ≡ count * block }
    requires unsealed { (info_at (D.infos dev.old) zone).sealed ≡ false }
    requires room { (info_at (D.infos dev.old) zone).written + count ≤ (D.geometry dev.old).capacity }
    requires active { (info_at (D.infos dev.old) zone).written ≡ 0 → active_zones (D.infos dev.old) < (D.geometry dev.old).active_limit }
    ensures infos { OnOk result (D.infos dev.new ≡ infos_appended (D.geometry dev.old) (D.infos dev.old) zone count) }
    ensures image { OnOk result (D.tells → D.image dev.new ≡ appended (D.image dev.old) zone (chunks block count bytes.now)) }
    ensures device { ChangesDevice D.known D.geometry D.tells D.image D.tick D.since D.faults D.failed_changes dev.old dev.new (IsErr result)
        (PassedByAppend (D.image dev.old) zone (chunks block count bytes.now)) }
    ensures data_kept { zone < 3 → KeepsData D.infos D.tells D.image dev.old dev.new }
{
    append(dev, zone, bytes)
}

// Adds a record with this payload at the end of a zone, in one append.
pub(crate) fn write_record<D: ZonedDevice>(
    dev: &mut D,
    geometry: &Geometry,
    zone: u32,
    payload: &[u8],
    bytes: &mut Vec<u8>,
) -> Result<(), DevFault>
    requires is_known { D.known dev.old }
    requires same_geometry { geometry.now ≡ D.geometry dev.old }
    requires is_zone { zone < (D.geometry dev.old).zones }
    requires some { 1 ≤ length payload.now }
    requires fits { length payload.now < 2 ^ 32 }
    requires unsealed { (info_at (D.infos dev.old) zone).sealed ≡ false }
    requires room { (info_at (D.infos dev.old) zone).written + blocks_of geometry.now.block (length payload.now) ≤ geometry.now.capacity }
    requires active { (info_at (D.infos dev.old) zone).written ≡ 0 → active_zones (D.infos dev.old) < geometry.now.active_limit }
    requires memory { blocks_of geometry.now.block (length payload.now) * geometry.now.block ≤ vec_capacity bytes.old }
    ensures infos { OnOk result (D.infos dev.new ≡ infos_appended geometry.now (D.infos dev.old) zone (blocks_of geometry.now.block (length payload.now))) }
    ensures image { OnOk result (D.tells → D.image dev.new ≡ appended (D.image dev.old) zone (record_blocks geometry.now.block payload.now)) }
    ensures device { ChangesDevice D.known D.geometry D.tells D.image D.tick D.since D.faults D.failed_changes dev.old dev.new (IsErr result)
        (PassedByAppend (D.image dev.old) zone (record_blocks geometry.now.block payload.now)) }
    ensures data_kept { zone < 3 → KeepsData D.infos D.tells D.image dev.old dev.new }
    ensures memory { vec_capacity bytes.old ≤ vec_capacity bytes.new }
{
    let block = geometry.block;
    spell(payload, block, bytes);
    let count = blocks_of(payload.len() as u64, block) as u32;
    append_blocks(dev, zone, bytes, block, count)
}

// Begins a log in an empty zone: its superblock, and its snapshot in a second append.
pub(crate) fn begin_log<D: ZonedDevice>(
    dev: &mut D,
    geometry: &Geometry,
    zone: u32,
    superblock: &[u8],
    snapshot: &[u8],
    bytes: &mut Vec<u8>,
) -> Result<(), DevFault>
    requires is_known { D.known dev.old }
    requires same_geometry { geometry.now ≡ D.geometry dev.old }
    requires is_zone { zone < (D.geometry dev.old).zones }
    requires some_superblock { 1 ≤ length superblock.now }
    requires superblock_fits { length superblock.now < 2 ^ 32 }
    requires some_snapshot { 1 ≤ length snapshot.now }
    requires snapshot_fits { length snapshot.now < 2 ^ 32 }
    requires empty { info_at (D.infos dev.old) zone ≡ no_info }
    requires room { blocks_of geometry.now.block (length superblock.now) + blocks_of geometry.now.block (length snapshot.now) < geometry.now.capacity }
    requires active { active_zones (D.infos dev.old) < geometry.now.active_limit }
    requires memory { blocks_of geometry.now.block (length superblock.now) * geometry.now.block ≤ vec_capacity bytes.old }
    requires more_memory { blocks_of geometry.now.block (length snapshot.now) * geometry.now.block ≤ vec_capacity bytes.old }
    ensures infos { OnOk result (D.infos dev.new ≡ infos_begun geometry.now (D.infos dev.old) zone (blocks_of geometry.now.block (length superblock.now))
        (blocks_of geometry.now.block (length snapshot.now))) }
    ensures image { OnOk result (D.tells → D.image dev.new ≡ begun zone (record_blocks geometry.now.block superblock.now)
        (record_blocks geometry.now.block snapshot.now) (D.image dev.old)) }
    ensures device { ChangesDevice D.known D.geometry D.tells D.image D.tick D.since D.faults D.failed_changes dev.old dev.new (IsErr result)
        (PassedByNewLog zone (record_blocks geometry.now.block superblock.now) (record_blocks geometry.now.block snapshot.now) (D.image dev.old)) }
    ensures data_kept { zone < 3 → KeepsData D.infos D.tells D.image dev.old dev.new }
    ensures memory { vec_capacity bytes.old ≤ vec_capacity bytes.new }
{
    write_record(dev, geometry, zone, superblock, bytes)?;
    write_record(dev, geometry, zone, snapshot, bytes)
}
