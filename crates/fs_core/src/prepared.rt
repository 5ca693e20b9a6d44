// The memory of a change, taken before anything is written.
ghost use Rattle.std.specs.Prelude.{◌≡◌, ◌+◌, ◌<◌, ◌≤◌, IfOk};
ghost use Rattle.log_model.specs.Headroom.{blocks_of_record};
ghost use Rattle.fs_core.specs.Storing.{IsPrepared, IsRollOf, new_log_blocks};

use crate::new_log::log_blocks;
use fs_tables::FsTables;
use log_roll::RollBuffer;
use log_store::SpelledRecord;
use record_codec::encode;
use record_model::{Payload, Record};
use std::alloc::{AllocError, Global};

/// The memory of a roll: the snapshot of the table, the blocks of the new log with it, and a buffer.
#[derive(Drop)]
pub(crate) struct PreparedRoll {
    pub(crate) snapshot: Payload,
    pub(crate) blocks: u32,
    pub(crate) buffer: RollBuffer,
}

/// The memory of a record: it is spelled, and where the log must roll before it there is the memory of that.
#[derive(Drop)]
pub(crate) struct PreparedRecord {
    pub(crate) added: SpelledRecord,
    pub(crate) rolled: Option<PreparedRoll>,
}

// Takes the memory of a roll of the tables' log.
fn prepare_roll(alloc: Global, tables: &FsTables) -> Result<PreparedRoll, AllocError>
    requires { new_log_blocks tables.now.state + 2 ≤ tables.now.state.geometry.capacity }
    ensures { IfOk result (IsRollOf tables.now.state) }
{
    tables.valid();
    let record = tables.snapshot_record(alloc)?;
    let snapshot = encode(alloc, &record)?;
    let geometry = tables.geometry();
    let len = snapshot.items().len() as u64;
    let buffer = RollBuffer::new(alloc, &geometry, len)?;
    Ok(PreparedRoll {
        snapshot,
        blocks: log_blocks(&geometry, len),
        buffer,
    })
}

/// Takes the memory of a record, behind which there is room in a new log for one more block.
pub(crate) fn prepare_record(
    alloc: Global,
    tables: &FsTables,
    record: &Record,
) -> Result<PreparedRecord, AllocError>
    requires { new_log_blocks tables.now.state + blocks_of_record tables.now.state.geometry.block record.now < tables.now.state.geometry.capacity }
    ensures { IfOk result (IsPrepared tables.now.state record.now) }
{
    tables.valid();
    let payload = encode(alloc, record)?;
    let geometry = tables.geometry();
    let added = SpelledRecord::new(alloc, payload.items(), geometry.block)?;
    if !tables.must_roll(u64::from(added.count())) {
        return Ok(PreparedRecord {
            added,
            rolled: None,
        });
    }
    let rolled = prepare_roll(alloc, tables)?;
    Ok(PreparedRecord {
        added,
        rolled: Some(rolled),
    })
}
