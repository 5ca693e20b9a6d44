// Records whose blocks are spelled before they are added.
ghost use Rattle.std.specs.Prelude.{◌≡◌, ◌⊎◌, ◌*◌, ◌^◌, ◌<◌, ◌≤◌, length, IfOk};
ghost use Rattle.zone_image.specs.Changes.{chunks};
ghost use Rattle.log_model.specs.LogScan.{record_blocks};

use meta_log::{blocks_of, spell};
use record_model::Payload;
use std::alloc::{AllocError, Global};
use std::marker::Model;

/// A record whose blocks are spelled, so that it can be added to a log without taking memory. Contracts see the block
/// size and the blocks.
#[derive(Drop)]
pub struct SpelledRecord {
    block: u32,
    count: u32,
    bytes: Payload,
}

impl Model for SpelledRecord {
    ghost use Rattle.std.specs.Prelude.{◌≡◌, ◌*◌, ◌<◌, length};
    ghost use Rattle.zone_image.specs.Changes.{chunks};
    ghost use Rattle.log_store.specs.Spelled.{SpelledBlocks};

    ghost Value = { SpelledBlocks };

    ghost view = { λ r. record { block = r.block; blocks = chunks r.block r.count r.bytes } };

    ghost invariant = { λ r. (0 < r.count) × (length r.bytes ≡ r.count * r.block) };
}

impl SpelledRecord {
    /// Spells the record of a payload for a device of this block size.
    pub fn new(alloc: Global, payload: &[u8], block: u32) -> Result<SpelledRecord, AllocError>
        requires block_size { (block ≡ 512) ⊎ (block ≡ 4096) }
        requires some { 1 ≤ length payload.now }
        requires fits { length payload.now < 2 ^ 32 }
        ensures spelled { IfOk result (λ r. r ≡ record { block = block; blocks = record_blocks block payload.now }) }
    {
        let bytes = spell(alloc, payload, block)?;
        let count = blocks_of(payload.len() as u64, block) as u32;
        Ok(SpelledRecord {
            block,
            count,
            bytes,
        })
    }

    /// How many blocks the record has.
    pub fn count(&self) -> u32
        ensures exact { result ≡ length self.now.blocks }
        ensures some { 0 < result }
    {
        self.count
    }

    /// The bytes of the blocks.
    pub fn bytes(&self) -> &[u8]
        ensures whole { length result.now ≡ length self.now.blocks * self.now.block }
        ensures blocks { chunks self.now.block (length self.now.blocks) result.now ≡ self.now.blocks }
    {
        self.bytes.items()
    }
}
