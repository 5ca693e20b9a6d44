//! Records applied to the table.

ghost use Rattle.std.specs.Prelude.{◌≡◌, ◌≤◌, ◌-◌, ◌^◌, [], All, None, Ok, OnOk, IfOk, IfErr, OnErr, vec_capacity};
ghost use Rattle.std.specs.List.{AllByRecursion};
ghost use Rattle.std.specs.Option.{ForSome};
ghost use Rattle.record_model.specs.Grammar.{InGrammar, IsWritable};
ghost use Rattle.record_model.specs.declared.types.Record.TheVariants as records;
ghost use Rattle.log_model.specs.FileTable.{after_record};
ghost use Rattle.log_model.specs.TableLaws.{IdsRise, IsTable};
ghost use Rattle.fs_model.specs.FsState.{greatest_id};
ghost use Rattle.extent_map.specs.Applying.{ArePlain, AreSettled, IsMade, IsRefused, snapshot_table};
ghost use Rattle.extent_map.specs.Holding.{AreKnown, IsKept};
ghost use Rattle.extent_map.specs.Records.{recorded_of};

use crate::error::ApplyError;
use crate::holders::{Holders, holders_of};
use crate::lookups::row_of;
use crate::place::index_of;
use crate::row::Row;
use crate::setting::{grow_row, put_new, put_whole};
use crate::snapshot::rows_of_snapshot;
use crate::table::FileTable;
use crate::taken::take_names;
use record_model::{FileEntry, Name, Record};
use std::alloc::{AllocError, Global};
use std::slice;

impl FileTable {
    /// Makes of a table in which everything is recorded the one that a record makes of it. All files
    /// are then shown as a whole, and the greatest id is that of the files that are there. A record of
    /// the log's end changes nothing else. `Rule` comes exactly where the record breaks a rule of
    /// records, with the lowest, and `NoMemory` where memory is wanting; the table is then as before.
    pub fn apply(&mut self, value: &Record) -> Result<(), ApplyError>
        requires recorded { All (λ r. r.unrecorded ≡ []) self.old.rows }
        requires grammar { InGrammar value.now }
        ensures made { OnOk result
            (IsMade (after_record value.now (recorded_of self.old.rows)) self.new.rows) }
        ensures recorded { OnOk result (All (λ r. r.unrecorded ≡ []) self.new.rows) }
        ensures greatest { OnOk result (self.new.greatest ≡ greatest_id (recorded_of self.new.rows)) }
        ensures refused { IfErr result
            (IsRefused (after_record value.now (recorded_of self.old.rows))) }
        ensures unchanged { OnErr result (self.new ≡ self.old) }
    {
        let alloc = *self.rows.allocator();
        let holders = known_holders(self.holders.take(), alloc, &self.rows)?;
        self.holders = change_rows(alloc, &mut self.rows, holders, value)?;
        self.greatest = greatest_id(&self.rows);
        Ok(())
    }
}

/// Who has which name, if nothing was changed but by records; else what the rows tell.
fn known_holders(
    kept: Option<Holders>,
    alloc: Global,
    rows: &[Row],
) -> Result<Option<Holders>, AllocError>
    requires { ForSome kept (λ h. IsKept h rows.now) }
    ensures known { IfOk result (λ holders. AreKnown holders (recorded_of rows.now)) }
    ensures settled { OnOk result (AreSettled rows.now) }
{
    match kept {
        Some(holders) => Ok(Some(holders)),
        None => holders_of(alloc, rows),
    }
}

/// The greatest id, which the last file has, and 0 where there is no file.
fn greatest_id(rows: &[Row]) -> u64
    requires { IdsRise 0 (recorded_of rows.now) }
    ensures greatest { result ≡ greatest_id (recorded_of rows.now) }
    ensures limit { result ≤ 2 ^ 64 - 2 }
{
    let count = rows.len();
    if count == 0 {
        0
    } else {
        rows[count - 1].entry().id
    }
}

/// Makes of rows in which everything is recorded those that a record makes of them, and tells who has which name then.
fn change_rows(
    alloc: Global,
    rows: &mut Vec<Row>,
    holders: Option<Holders>,
    value: &Record,
) -> Result<Option<Holders>, ApplyError>
    requires plain { ArePlain rows.old.items }
    requires table { IsTable (recorded_of rows.old.items) }
    requires known { AreKnown holders (recorded_of rows.old.items) }
    requires grammar { InGrammar value.now }
    ensures made { OnOk result (after_record value.now (recorded_of rows.old.items) ≡ Ok (recorded_of rows.new.items)) }
    ensures plain { OnOk result (ArePlain rows.new.items) }
    ensures known { IfOk result (λ new. AreKnown new (recorded_of rows.new.items)) }
    ensures refused { IfErr result (IsRefused (after_record value.now (recorded_of rows.old.items))) }
    ensures items { OnErr result (rows.new.items ≡ rows.old.items) }
    ensures capacity { OnErr result (vec_capacity rows.new ≡ vec_capacity rows.old) }
{
    match value {
        Record::Snapshot(files) => take_snapshot(alloc, rows, files.items()),
        Record::Update(entry) => update(alloc, rows, holders, entry),
        Record::Deletion { id, name } => delete(rows, holders, *id, name),
        Record::End => Ok(holders),
        Record::Replace(entry) => replace(alloc, rows, holders, entry),
    }
}

/// Puts the rows of a snapshot in place of all others. Who has which name is then asked of the rows.
#[tactic(auto, using(crate::proofs::SettingLaws::made_plain))]
fn take_snapshot(
    alloc: Global,
    rows: &mut Vec<Row>,
    files: &[FileEntry],
) -> Result<Option<Holders>, ApplyError>
    requires { AllByRecursion IsWritable files.now }
    ensures made { OnOk result (snapshot_table files.now ≡ Ok (recorded_of rows.new.items)) }
    ensures plain { OnOk result (ArePlain rows.new.items) }
    ensures known { IfOk result (λ new. new ≡ None) }
    ensures refused { IfErr result (IsRefused (snapshot_table files.now)) }
    ensures items { OnErr result (rows.new.items ≡ rows.old.items) }
    ensures capacity { OnErr result (vec_capacity rows.new ≡ vec_capacity rows.old) }
{
    match rows_of_snapshot(alloc, files) {
        Err(error) => Err(error),
        Ok(made) => {
            *rows = made;
            Ok(None)
        }
    }
}

/// Puts a file that isn't there in its place, or makes one that is there grow.
fn update(
    alloc: Global,
    rows: &mut Vec<Row>,
    holders: Option<Holders>,
    entry: &FileEntry,
) -> Result<Option<Holders>, ApplyError>
    requires plain { ArePlain rows.old.items }
    requires table { IsTable (recorded_of rows.old.items) }
    requires known { AreKnown holders (recorded_of rows.old.items) }
    requires writable { IsWritable entry.now }
    ensures made { OnOk result (after_record (records.Update entry.now) (recorded_of rows.old.items) ≡ Ok (recorded_of rows.new.items)) }
    ensures plain { OnOk result (ArePlain rows.new.items) }
    ensures known { IfOk result (λ new. AreKnown new (recorded_of rows.new.items)) }
    ensures refused { IfErr result (IsRefused (after_record (records.Update entry.now) (recorded_of rows.old.items))) }
    ensures items { OnErr result (rows.new.items ≡ rows.old.items) }
    ensures capacity { OnErr result (vec_capacity rows.new ≡ vec_capacity rows.old) }
{
    match index_of(rows, entry.id) {
        None => put_new(alloc, rows, holders, entry),
        Some(at) => grow_row(alloc, rows, holders, at, entry),
    }
}

/// Takes a name from its file.
fn delete(
    rows: &mut Vec<Row>,
    holders: Option<Holders>,
    id: u64,
    name: &Name,
) -> Result<Option<Holders>, ApplyError>
    requires plain { ArePlain rows.old.items }
    requires table { IsTable (recorded_of rows.old.items) }
    requires known { AreKnown holders (recorded_of rows.old.items) }
    ensures made { OnOk result (after_record (records.Deletion id name.now) (recorded_of rows.old.items) ≡ Ok (recorded_of rows.new.items)) }
    ensures plain { OnOk result (ArePlain rows.new.items) }
    ensures known { IfOk result (λ new. AreKnown new (recorded_of rows.new.items)) }
    ensures refused { IfErr result (IsRefused (after_record (records.Deletion id name.now) (recorded_of rows.old.items))) }
    ensures items { OnErr result (rows.new.items ≡ rows.old.items) }
    ensures capacity { OnErr result (vec_capacity rows.new ≡ vec_capacity rows.old) }
{
    match row_of(rows, id) {
        None => Err(ApplyError::Rule(3)),
        Some(row) => {
            if !row.has_name(name) {
                return Err(ApplyError::Rule(4));
            }
            take_names(rows, slice::from_ref(name));
            Ok(holders)
        }
    }
}

/// Puts an entry in the place of the one that is there.
fn replace(
    alloc: Global,
    rows: &mut Vec<Row>,
    holders: Option<Holders>,
    entry: &FileEntry,
) -> Result<Option<Holders>, ApplyError>
    requires plain { ArePlain rows.old.items }
    requires table { IsTable (recorded_of rows.old.items) }
    requires known { AreKnown holders (recorded_of rows.old.items) }
    requires writable { IsWritable entry.now }
    ensures made { OnOk result (after_record (records.Replace entry.now) (recorded_of rows.old.items) ≡ Ok (recorded_of rows.new.items)) }
    ensures plain { OnOk result (ArePlain rows.new.items) }
    ensures known { IfOk result (λ new. AreKnown new (recorded_of rows.new.items)) }
    ensures refused { IfErr result (IsRefused (after_record (records.Replace entry.now) (recorded_of rows.old.items))) }
    ensures items { OnErr result (rows.new.items ≡ rows.old.items) }
    ensures capacity { OnErr result (vec_capacity rows.new ≡ vec_capacity rows.old) }
{
    match index_of(rows, entry.id) {
        None => Err(ApplyError::Rule(3)),
        Some(at) => put_whole(alloc, rows, holders, at, entry),
    }
}
