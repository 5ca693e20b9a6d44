//! The records of changes of names, before they are made.

ghost use Rattle.std.specs.Prelude.{◌≡◌, ◌+◌, ◌-◌, ◌^◌, ◌<◌, ◌++◌, [], ◌∷◌, map, if◌then◌else◌, IfOk, IsSome};
ghost use Rattle.std.specs.Option.{ForSome};
ghost use Rattle.std.specs.Str.{bytes_eq};
ghost use Rattle.record_model.specs.declared.types.Record.TheVariants.{Snapshot, Update, Deletion};
ghost use Rattle.log_model.specs.FileTree.{renamed};
ghost use Rattle.fs_model.specs.FsState.{row_named};
ghost use Rattle.fs_model.specs.TreeSteps.{cleared, entry_in, entry_update, new_entry, renamed_rows, with_names};
ghost use Rattle.extent_map.specs.Records.{recorded_of};

use crate::copies::{copy_entry, copy_name, copy_names};
use crate::create::new_entry;
use crate::lookups::row_named;
use crate::row::Row;
use crate::table::FileTable;
use record_model::{Extents, FileEntry, Files, NO_ACTIVE, Name, Names, Record};
use std::alloc::{AllocError, Global};

impl FileTable {
    /// The update that makes an empty file, of the greatest id and one.
    pub fn create_record(
        &self,
        alloc: Global,
        name: &Name,
        hint: u32,
        sparse: bool,
        time: u64,
    ) -> Result<Record, AllocError>
        requires { self.now.greatest < 2 ^ 64 - 2 }
        ensures { IfOk result (λ update. update ≡ Update (new_entry (self.now.greatest + 1) name.now hint sparse time)) }
    {
        let mut names = Vec::new(alloc);
        names.push(copy_name(alloc, name)?)?;
        let names = Names::from_vec(names);
        Ok(Record::Update(new_entry(alloc, self.greatest + 1, names, hint, sparse, time)))
    }

    /// The update that gives the file of a name one more.
    pub fn link_record(&self, alloc: Global, old: &Name, new: &Name) -> Result<Record, AllocError>
        requires { IsSome (row_named old.now self.now.rows) }
        ensures { IfOk result (λ update. ForSome (row_named old.now self.now.rows) (λ r.
            update ≡ entry_update (with_names (r.entry.names ++ new.now ∷ []) r).entry)) }
    {
        let row = row_named(&self.rows, old).unwrap();
        let names = linked_names(alloc, &row.entry().names, new)?;
        Ok(named_update(alloc, row, names))
    }

    /// The update that puts a name of a file in the place of another one.
    pub fn rename_record(&self, alloc: Global, old: &Name, new: &Name) -> Result<Record, AllocError>
        requires { IsSome (row_named old.now self.now.rows) }
        ensures { IfOk result (λ update. ForSome (row_named old.now self.now.rows) (λ r.
            update ≡ entry_update (entry_in r.entry.id (renamed_rows r (row_named new.now self.now.rows) old.now new.now self.now.rows) r.entry))) }
    {
        let row = row_named(&self.rows, old).unwrap();
        match row_named(&self.rows, new) {
            None => {
                let update = renamed_update(alloc, row, old, new)?;
                Ok(update)
            }
            Some(other) => {
                if other.id() == row.id() {
                    let update = same_update(alloc, row)?;
                    return Ok(update);
                }
                let update = renamed_update(alloc, row, old, new)?;
                Ok(update)
            }
        }
    }

    /// The deletion of a name.
    pub fn delete_record(&self, alloc: Global, name: &Name) -> Result<Record, AllocError>
        requires { IsSome (row_named name.now self.now.rows) }
        ensures { IfOk result (λ deletion. ForSome (row_named name.now self.now.rows) (λ r. deletion ≡ Deletion r.entry.id name.now)) }
    {
        let row = row_named(&self.rows, name).unwrap();
        Ok(Record::Deletion {
            id: row.id(),
            name: copy_name(alloc, name)?,
        })
    }

    /// The snapshot of the recorded entries, by rising id, without recovery points.
    pub fn cleared_snapshot(&self, alloc: Global) -> Result<Record, AllocError>
        ensures { IfOk result (λ snapshot. snapshot ≡ Snapshot (recorded_of (map cleared self.now.rows))) }
    {
        let files = cleared_entries(alloc, &self.rows)?;
        Ok(Record::Snapshot(Files::from_vec(files)))
    }
}

/// The same names and one more.
fn linked_names(alloc: Global, names: &Names, new: &Name) -> Result<Names, AllocError>
    ensures { IfOk result (λ copies. copies ≡ names.now ++ new.now ∷ []) }
{
    let mut copies = copy_names(alloc, names)?.into_vec();
    copies.push(copy_name(alloc, new)?)?;
    Ok(Names::from_vec(copies))
}

/// The same names, with one in the place of another.
fn renamed_names(alloc: Global, names: &[Name], old: &Name, new: &Name) -> Result<Names, AllocError>
    ensures { IfOk result (λ copies. copies ≡ renamed old.now new.now names.now) }
{
    let mut copies = Vec::new(alloc);
    for name in names {
        copies.push(renamed_name(alloc, name, old, new)?)?;
    }
    Ok(Names::from_vec(copies))
}

/// The same name, or the new one where it is the old one.
fn renamed_name(alloc: Global, name: &Name, old: &Name, new: &Name) -> Result<Name, AllocError>
    ensures { IfOk result (λ copy. copy ≡ (if bytes_eq name.now old.now then new.now else name.now)) }
{
    if name.items() == old.items() {
        copy_name(alloc, new)
    } else {
        copy_name(alloc, name)
    }
}

/// The update of a file without extents, with a name in the place of another.
fn renamed_update(alloc: Global, row: &Row, old: &Name, new: &Name) -> Result<Record, AllocError>
    ensures { IfOk result (λ update. update ≡ entry_update (with_names (renamed old.now new.now row.now.entry.names) row.now).entry) }
{
    let names = renamed_names(alloc, row.entry().names.items(), old, new)?;
    Ok(named_update(alloc, row, names))
}

/// The update of a file without extents, under the names that it has.
fn same_update(alloc: Global, row: &Row) -> Result<Record, AllocError>
    ensures { IfOk result (λ update. update ≡ entry_update row.now.entry) }
{
    let names = copy_names(alloc, &row.entry().names)?;
    Ok(named_update(alloc, row, names))
}

/// The update of a file without extents, under these names.
fn named_update(alloc: Global, row: &Row, names: Names) -> Record
    ensures { result ≡ entry_update (with_names names row.now).entry }
{
    let entry = row.entry();
    Record::Update(FileEntry {
        id: entry.id,
        size: entry.size,
        hint: entry.hint,
        time: entry.time,
        active: entry.active,
        sparse: entry.sparse,
        extents: Extents::from_vec(Vec::new(alloc)),
        names,
    })
}

/// The recorded entries without recovery points.
fn cleared_entries(alloc: Global, rows: &[Row]) -> Result<Vec<FileEntry>, AllocError>
    ensures { IfOk result (λ entries. entries.items ≡ recorded_of (map cleared rows.now)) }
{
    let mut entries = Vec::new(alloc);
    for row in rows {
        entries.push(cleared_entry(alloc, row)?)?;
    }
    Ok(entries)
}

/// The recorded entry without its recovery point.
fn cleared_entry(alloc: Global, row: &Row) -> Result<FileEntry, AllocError>
    ensures { IfOk result (λ entry. entry ≡ (cleared row.now).entry) }
{
    let mut entry = copy_entry(alloc, row.entry())?;
    entry.active = NO_ACTIVE;
    Ok(entry)
}
