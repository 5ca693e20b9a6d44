// The memory for the log with which a mount begins to write.
ghost use Rattle.std.specs.Prelude.{◌≡◌, ◌+◌, ◌^◌, ◌⊎◌, ◌<◌, length, IfOk};
ghost use Rattle.log_model.specs.LogScan.{blocks_of};
ghost use Rattle.change_cover.specs.MountRoom.{MayMount};
ghost use Rattle.fs_core.specs.Beginning.{IsReady};

use fs_tables::FsTables;
use log_store::RollBuffer;
use meta_log::blocks_of;
use record_codec::encode;
use record_model::Payload;
use std::alloc::{AllocError, Global};
use superblock_core::SUPERBLOCK_BYTES;
use zone_image::Geometry;

/// The snapshot of a table without recovery points, and a roll's memory.
#[derive(Drop)]
pub(crate) struct NewLog {
    pub(crate) snapshot: Payload,
    pub(crate) buffer: RollBuffer,
}

/// Takes that memory for the table of a mount that may begin to write.
pub(crate) fn spell_log(alloc: Global, tables: &FsTables) -> Result<NewLog, AllocError>
    requires { MayMount tables.now.state }
    ensures { IfOk result (λ log. IsReady tables.now.state log.snapshot log.buffer) }
{
    tables.valid();
    let record = tables.cleared_snapshot(alloc)?;
    let snapshot = encode(alloc, &record)?;
    let geometry = tables.geometry();
    let buffer = RollBuffer::new(alloc, &geometry, snapshot.items().len() as u64)?;
    Ok(NewLog { snapshot, buffer })
}

/// The blocks of a superblock and of a snapshot of so many bytes, which fit a zone.
pub(crate) fn log_blocks(geometry: &Geometry, len: u64) -> u32
    requires block { (geometry.now.block ≡ 512) ⊎ (geometry.now.block ≡ 4096) }
    requires fits { len < 2 ^ 63 }
    requires room { blocks_of geometry.now.block 512 + blocks_of geometry.now.block len < 2 ^ 32 }
    ensures { result ≡ blocks_of geometry.now.block 512 + blocks_of geometry.now.block len }
{
    let superblock = blocks_of(SUPERBLOCK_BYTES as u64, geometry.block);
    let snapshot = blocks_of(len, geometry.block);
    (superblock + snapshot) as u32
}
