// Entries of a table and the table.
ghost use Rattle.std.specs.Prelude.{◌≡◌, ◌^◌, ◌<◌, IfOk};
ghost use Rattle.fs_model.specs.FsState.{greatest_id};
ghost use Rattle.extent_map.specs.Applying.{rows_of};
ghost use Rattle.extent_map.specs.Records.{recorded_of, snapshot_len};
ghost use Rattle.mount_replay.specs.SoundTables.{IsSoundTable};

use extent_map::FileTable;
use record_codec::encoded_len;
use record_model::{FileEntry, Files, Record};
use std::alloc::{AllocError, Global};

/// The recorded entries of a table, by rising id.
pub(crate) fn entries_of(alloc: Global, table: &FileTable) -> Result<Vec<FileEntry>, AllocError>
    ensures { IfOk result (λ entries. entries.items ≡ recorded_of table.now.rows) }
{
    match table.snapshot(alloc)? {
        Record::Snapshot(files) => Ok(files.into_vec()),
        _ => Ok(Vec::new(alloc)),
    }
}

// No machine holds a snapshot of so many bytes.
const TOO_LONG: u64 = 1 << 62;

/// The table of these entries, in which everything is recorded and shown. A table's entries break no rule of a
/// snapshot, so that only memory can be wanting.
pub(crate) fn table_of(alloc: Global, entries: Vec<FileEntry>) -> Result<FileTable, AllocError>
    requires { IsSoundTable entries.items }
    ensures rows { IfOk result (λ table. table.rows ≡ rows_of entries.items) }
    ensures recorded { IfOk result (λ table. recorded_of table.rows ≡ entries.items) }
    ensures short { IfOk result (λ table. snapshot_len table.rows < 2 ^ 62) }
    ensures greatest { IfOk result (λ table. table.greatest ≡ greatest_id (recorded_of table.rows)) }
{
    let snapshot = Record::Snapshot(Files::from_vec(entries));
    if encoded_len(&snapshot) >= TOO_LONG {
        return Err(AllocError);
    }
    let mut table = FileTable::new(alloc);
    match table.apply(&snapshot) {
        Ok(()) => Ok(table),
        Err(_) => Err(AllocError),
    }
}
