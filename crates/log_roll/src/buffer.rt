// The memory of a roll.
ghost use Rattle.std.specs.Prelude.{◌≡◌, ◌⊎◌, IfOk, IsTrue};
ghost use Rattle.zone_image.specs.Image.{is_valid};
ghost use Rattle.log_roll.specs.RollMemory.{roll_blocks};

use meta_log::blocks_of;
use std::alloc::{AllocError, Global};
use std::marker::Model;
use superblock_core::SUPERBLOCK_BYTES;
use zone_image::Geometry;

/// The memory of a roll, taken beforehand. Contracts see for what it was made: the device's block size and
/// capacity, and the greatest length of a snapshot's payload in bytes.
#[derive(Drop)]
pub struct RollBuffer {
    block: u32,
    capacity: u32,
    len: u64,
    pub(crate) bytes: Vec<u8>,
}

impl Model for RollBuffer {
    ghost use Rattle.std.specs.Prelude.{◌*◌, ◌≤◌, vec_capacity};
    ghost use Rattle.log_roll.specs.RollMemory.{RollMemory, roll_blocks};

    ghost Value = { RollMemory };

    ghost view = { λ b. record { block = b.block; capacity = b.capacity; len = b.len } };

    ghost invariant = { λ b. roll_blocks b.block b.capacity b.len * b.block ≤ vec_capacity b.bytes };
}

impl RollBuffer {
    /// Takes all the memory of a roll on such a device whose snapshot's payload has at most `len` bytes.
    pub fn new(alloc: Global, geometry: &Geometry, len: u64) -> Result<RollBuffer, AllocError>
        requires { IsTrue (is_valid geometry.now) }
        ensures { IfOk result (λ b. b ≡ record { block = geometry.now.block; capacity = geometry.now.capacity; len = len }) }
    {
        let blocks = roll_blocks(geometry.block, geometry.capacity, len);
        let bytes = Vec::with_capacity(alloc, blocks as usize * geometry.block as usize)?;
        Ok(RollBuffer {
            block: geometry.block,
            capacity: geometry.capacity,
            len,
            bytes,
        })
    }
}

// The blocks of the greater record of a roll, at most those of a zone.
fn roll_blocks(block: u32, capacity: u32, len: u64) -> u32
    requires { (block ≡ 512) ⊎ (block ≡ 4096) }
    ensures exact { result ≡ roll_blocks block capacity len }
{
    let len = len.max(SUPERBLOCK_BYTES as u64);
    if u64::from(capacity) * u64::from(block) <= len {
        return capacity;
    }
    let blocks = blocks_of(len, block);
    blocks.min(u64::from(capacity)) as u32
}
