// Lengths in blocks.
ghost use Rattle.std.specs.Prelude.{◌≡◌, ◌+◌, ◌^◌, ◌<◌, ◌≤◌, length};
ghost use Rattle.record_model.specs.Encoding.{payload_of};
ghost use Rattle.record_model.specs.declared.types.Record.TheVariants.{Snapshot};
ghost use Rattle.log_model.specs.FileTable.{Table};
ghost use Rattle.record_model.specs.declared.types.Record.{Record};
ghost use Rattle.log_model.specs.Headroom.{blocks_of_record, change_need, log_need, need_of};
ghost use Rattle.log_model.specs.LogScan.{blocks_of};
ghost use Rattle.extent_map.specs.Records.{greatest_len};
ghost use Rattle.fs_tables.specs.Needs.{AreLengths, AreShort};

use extent_map::ChangeLengths;

/// The bytes of a superblock.
const SUPERBLOCK_BYTES: u64 = 512;

/// The bytes of a record's head.
const HEAD_BYTES: u64 = 8;

/// The blocks of a record whose payload has so many bytes.
pub(crate) fn blocks_of(block: u64, payload: u64) -> u64
    requires block { 512 ≤ block }
    requires payload { payload < 2 ^ 63 }
    ensures blocks { result ≡ blocks_of block payload }
    ensures bound { result ≤ 8 + payload }
{
    (HEAD_BYTES + payload).div_ceil(block)
}

/// What a new log needs to take a table and the greatest of its records, whose lengths are given.
pub(crate) fn log_need(block: u64, snapshot: u64, longest: u64) -> u64
    requires block { 512 ≤ block }
    requires snapshot { snapshot < 2 ^ 62 + 2 ^ 60 }
    requires longest { longest < 2 ^ 62 + 2 ^ 60 }
    ensures { (es : Table) → snapshot ≡ length (payload_of (Snapshot es)) → longest ≡ greatest_len es → result ≡ log_need block es }
{
    let greatest = blocks_of(block, longest).max(1);
    blocks_of(block, SUPERBLOCK_BYTES) + blocks_of(block, snapshot) + greatest + 1
}

/// What a new log needs to take a table, whose snapshot's length is given, and a record of so many blocks.
pub(crate) fn change_need(block: u64, snapshot: u64, blocks: u64) -> u64
    requires block { 512 ≤ block }
    requires snapshot { snapshot < 2 ^ 62 + 2 ^ 60 }
    requires blocks { blocks < 2 ^ 63 }
    ensures { (es : Table) → snapshot ≡ length (payload_of (Snapshot es)) → result ≡ change_need block es blocks }
{
    blocks_of(block, SUPERBLOCK_BYTES) + blocks_of(block, snapshot) + blocks + 1
}

/// The blocks of a change's record, and what a new log needs to take the table before the change with that record, and to take
/// the table after it with the greatest of its records.
#[derive(Clone, Copy, Debug, PartialEq, Eq)]
pub struct ChangeNeed {
    /// The blocks of the record.
    pub blocks: u64,
    /// The blocks that a new log needs.
    pub need: u64,
}

/// The need of a change, whose lengths are given with that of the snapshot before it.
pub(crate) fn need_of(block: u64, before: u64, lengths: ChangeLengths) -> ChangeNeed
    requires block { 512 ≤ block }
    requires before { before < 2 ^ 62 }
    requires short { AreShort lengths }
    ensures blocks { (r : Record) (after : Table) → AreLengths lengths r after → result.blocks ≡ blocks_of_record block r }
    ensures need { (es after : Table) (r : Record) → before ≡ length (payload_of (Snapshot es)) → AreLengths lengths r after
        → result.need ≡ need_of block es after (blocks_of_record block r) }
{
    let blocks = blocks_of(block, lengths.change_bytes);
    let after = log_need(block, lengths.snapshot_bytes, lengths.longest_bytes);
    ChangeNeed {
        blocks,
        need: after.max(change_need(block, before, blocks)),
    }
}
