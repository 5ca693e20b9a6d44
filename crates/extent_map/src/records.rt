//! The records of the table, and its copy.

ghost use Rattle.std.specs.Prelude.{◌≡◌, Some, IfOk, IsSome};
ghost use Rattle.std.specs.Option.{option_map};
ghost use Rattle.record_model.specs.declared.types.Record.TheVariants as records;
ghost use Rattle.fs_model.specs.FsState.{row_of};
ghost use Rattle.extent_map.specs.Records.{recorded_of, update_of};

use crate::copies::{copy_entry, copy_with};
use crate::lookups::row_of;
use crate::row::Row;
use crate::table::FileTable;
use record_model::{FileEntry, Files, Record};
use std::alloc::{AllocError, Global};

impl FileTable {
    /// The same table, for which no room is made.
    pub fn copy(&self, alloc: Global) -> Result<FileTable, AllocError>
        ensures files { IfOk result (λ copy. copy.rows ≡ self.now.rows) }
        ensures greatest { IfOk result (λ copy. copy.greatest ≡ self.now.greatest) }
    {
        Ok(FileTable {
            rows: copy_rows(alloc, &self.rows)?,
            greatest: self.greatest,
            reserved: None,
            room: None,
            first_names: Vec::new(alloc),
            more_names: Vec::new(alloc),
            holders: None,
        })
    }

    /// The snapshot of the recorded entries, by rising id.
    pub fn snapshot(&self, alloc: Global) -> Result<Record, AllocError>
        ensures { IfOk result (λ snapshot. snapshot ≡ records.Snapshot (recorded_of self.now.rows)) }
    {
        let files = copy_entries(alloc, &self.rows)?;
        Ok(Record::Snapshot(Files::from_vec(files)))
    }

    /// The update that records what isn't recorded of a file: its entry with the extents that aren't
    /// recorded, and the size of all its extents.
    pub fn update(&self, alloc: Global, id: u64) -> Result<Record, AllocError>
        requires { IsSome (row_of id self.now.rows) }
        ensures { IfOk result (λ update. Some update ≡ option_map update_of (row_of id self.now.rows)) }
    {
        let row = row_of(&self.rows, id).unwrap();
        update_of(alloc, row)
    }

    /// The replacement of a file by its recorded entry.
    pub fn whole(&self, alloc: Global, id: u64) -> Result<Record, AllocError>
        requires { IsSome (row_of id self.now.rows) }
        ensures { IfOk result (λ whole. Some whole ≡ option_map (λ r. records.Replace r.entry) (row_of id self.now.rows)) }
    {
        let row = row_of(&self.rows, id).unwrap();
        Ok(Record::Replace(copy_entry(alloc, row.entry())?))
    }
}

/// The same files.
fn copy_rows(alloc: Global, rows: &[Row]) -> Result<Vec<Row>, AllocError>
    ensures { IfOk result (λ copies. copies.items ≡ rows.now) }
{
    let mut copies = Vec::new(alloc);
    for row in rows {
        copies.push(row.copy(alloc)?)?;
    }
    Ok(copies)
}

/// The recorded entries.
fn copy_entries(alloc: Global, rows: &[Row]) -> Result<Vec<FileEntry>, AllocError>
    ensures { IfOk result (λ entries. entries.items ≡ recorded_of rows.now) }
{
    let mut entries = Vec::new(alloc);
    for row in rows {
        entries.push(copy_entry(alloc, row.entry())?)?;
    }
    Ok(entries)
}

/// The update that records what isn't recorded of a file.
fn update_of(alloc: Global, row: &Row) -> Result<Record, AllocError>
    ensures { IfOk result (λ update. update ≡ update_of row.now) }
{
    let entry = copy_with(alloc, row.entry(), row.size(), row.unrecorded())?;
    Ok(Record::Update(entry))
}
