//! The records of changes of a file's data, before they are made.

ghost use Rattle.std.specs.Prelude.{◌≡◌, [], IfOk, IsSome};
ghost use Rattle.std.specs.Option.{ForSome};
ghost use Rattle.record_model.specs.declared.types.Record.TheVariants.{Replace, Update};
ghost use Rattle.fs_model.specs.FileSteps.{commit_record, commit_time, moved, with_recovery_point};
ghost use Rattle.fs_model.specs.FsState.{row_of, working_entry};
ghost use Rattle.fs_model.specs.TreeSteps.{entry_update};

use crate::copies::{copy_extents, copy_names};
use crate::lookups::row_of;
use crate::moves::moved_extents;
use crate::row::Row;
use crate::table::FileTable;
use fs_model::Move;
use record_model::{Extent, Extents, FileEntry, NO_ACTIVE, Record};
use std::alloc::{AllocError, Global};

impl FileTable {
    /// The update with which a commit at this time records a file: the extents that aren't recorded,
    /// the size of all, no recovery point, and this time where more bytes are shown then.
    pub fn commit_record(&self, alloc: Global, id: u64, now: u64) -> Result<Record, AllocError>
        requires { IsSome (row_of id self.now.rows) }
        ensures { IfOk result (λ update. ForSome (row_of id self.now.rows) (λ r. update ≡ commit_record now r)) }
    {
        let row = row_of(&self.rows, id).unwrap();
        committed_update(alloc, row, now)
    }

    /// The update that gives a file this recovery point.
    pub fn point_record(&self, alloc: Global, id: u64, start: u64) -> Result<Record, AllocError>
        requires { IsSome (row_of id self.now.rows) }
        ensures { IfOk result (λ update. ForSome (row_of id self.now.rows) (λ r. update ≡ entry_update (with_recovery_point start r).entry)) }
    {
        let row = row_of(&self.rows, id).unwrap();
        pointed_update(alloc, row, start)
    }

    /// The replacement of a file by its recorded entry, whose extents are moved so.
    pub fn moved_record(&self, alloc: Global, id: u64, moves: &[Move]) -> Result<Record, AllocError>
        requires { IsSome (row_of id self.now.rows) }
        ensures { IfOk result (λ whole. ForSome (row_of id self.now.rows) (λ r. whole ≡ Replace (moved moves.now r).entry)) }
    {
        let row = row_of(&self.rows, id).unwrap();
        moved_entry(alloc, row, moves)
    }
}

/// The update of a commit.
fn committed_update(alloc: Global, row: &Row, now: u64) -> Result<Record, AllocError>
    ensures { IfOk result (λ update. update ≡ commit_record now row.now) }
{
    let time = row.commit_time(now);
    let entry = changed_entry(
        alloc,
        row.entry(),
        row.size(),
        time,
        NO_ACTIVE,
        row.unrecorded(),
    )?;
    Ok(Record::Update(entry))
}

/// The update of a recovery point.
fn pointed_update(alloc: Global, row: &Row, start: u64) -> Result<Record, AllocError>
    ensures { IfOk result (λ update. update ≡ entry_update (with_recovery_point start row.now).entry) }
{
    let entry = row.entry();
    Ok(Record::Update(changed_entry(alloc, entry, entry.size, entry.time, start, &[])?))
}

/// The replacement of moved extents.
fn moved_entry(alloc: Global, row: &Row, moves: &[Move]) -> Result<Record, AllocError>
    ensures { IfOk result (λ whole. whole ≡ Replace (moved moves.now row.now).entry) }
{
    let entry = row.entry();
    let extents = copy_extents(alloc, entry.extents.items())?;
    Ok(Record::Replace(FileEntry {
        id: entry.id,
        size: entry.size,
        hint: entry.hint,
        time: entry.time,
        active: entry.active,
        sparse: entry.sparse,
        extents: moved_extents(extents, moves),
        names: copy_names(alloc, &entry.names)?,
    }))
}

/// The entry with another size, time, recovery point, and other extents.
fn changed_entry(
    alloc: Global,
    entry: &FileEntry,
    size: u64,
    time: u64,
    active: u64,
    extents: &[Extent],
) -> Result<FileEntry, AllocError>
    ensures { IfOk result (λ copy. copy ≡ record (entry.now) { size = size; time = time; active = active; extents = extents.now }) }
{
    Ok(FileEntry {
        id: entry.id,
        size,
        hint: entry.hint,
        time,
        active,
        sparse: entry.sparse,
        extents: copy_extents(alloc, extents)?,
        names: copy_names(alloc, &entry.names)?,
    })
}
