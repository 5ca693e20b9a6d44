// How a record lies in its blocks.
ghost use Rattle.std.specs.Prelude.{◌≡◌, ◌⊎◌, ◌+◌, ◌-◌, ◌*◌, ◌^◌, ◌<◌, ◌≤◌, ◌++◌, replicate, length, IfOk};
ghost use Rattle.zone_image.specs.Changes.{chunks};
ghost use Rattle.log_model.specs.LogScan.{blocks_of, record_blocks, record_bytes, record_sum};
ghost use Rattle.superblock_core.specs.Superblock.{u32_at};

use crc32c_core::{crc32c, extend, mask};
use record_model::Payload;
use std::alloc::{AllocError, Global};

/// Bytes before the payload: its checksum and its length.
pub(crate) const HEADER: usize = 8;

/// How many blocks a record takes whose payload has `len` bytes, on a device of this block size.
pub fn blocks_of(len: u64, block: u32) -> u64
    requires block_size { (block ≡ 512) ⊎ (block ≡ 4096) }
    requires fits { len < 2 ^ 63 }
    ensures { result ≡ blocks_of block len }
{
    (len + HEADER as u64).div_ceil(u64::from(block))
}

/// The number of four bytes at a place, the lowest first.
pub(crate) fn u32_at(bytes: &[u8], at: usize) -> u32
    requires { at + 4 ≤ length bytes.now }
    ensures { result ≡ u32_at at bytes.now }
{
    u32::from_le_bytes([bytes[at], bytes[at + 1], bytes[at + 2], bytes[at + 3]])
}

/// The checksum that is stored before a payload and its length.
pub(crate) fn record_sum(payload: &[u8]) -> u32
    requires { length payload.now < 2 ^ 32 }
    ensures { result ≡ record_sum payload.now }
{
    let len = (payload.len() as u32).to_le_bytes();
    mask(extend(crc32c(&len), payload))
}

/// The blocks of a record with this payload: its checksum, its length, the payload, and zeros to the
/// end of the last block.
#[tactic(auto, unfolding(log_model::specs::LogScan::record_blocks))]
pub fn spell(alloc: Global, payload: &[u8], block: u32) -> Result<Payload, AllocError>
    requires block_size { (block ≡ 512) ⊎ (block ≡ 4096) }
    requires some { 1 ≤ length payload.now }
    requires fits { length payload.now < 2 ^ 32 }
    ensures bytes { IfOk result (λ bytes. bytes ≡ record_bytes payload.now ++ replicate (block * blocks_of block (length payload.now) - (8 + length payload.now)) 0) }
    ensures blocks { IfOk result (λ bytes. chunks block (blocks_of block (length payload.now)) bytes ≡ record_blocks block payload.now) }
    ensures whole { IfOk result (λ bytes. length bytes ≡ blocks_of block (length payload.now) * block) }
{
    let len = payload.len();
    let size = blocks_of(len as u64, block) as usize * block as usize;
    let mut bytes = Vec::with_capacity(alloc, size)?;
    bytes.extend_from_slice(&record_sum(payload).to_le_bytes())?;
    bytes.extend_from_slice(&(len as u32).to_le_bytes())?;
    bytes.extend_from_slice(payload)?;
    bytes.resize(size, 0)?;
    Ok(Payload::from_vec(bytes))
}
