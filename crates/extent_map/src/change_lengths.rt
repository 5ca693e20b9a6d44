//! The lengths of the records that a change of names brings, before it is made. They stop at the greatest 64-bit number,
//! and take no memory.

ghost use Rattle.std.specs.Prelude.{◌≡◌, ◌+◌, ◌++◌, [], ◌∷◌, ℕ, List, length, IsSome};
ghost use Rattle.std.specs.Option.{ForSome};
ghost use Rattle.record_model.specs.Encoding.{payload_of, slice};
ghost use Rattle.record_model.specs.declared.types.Record.TheVariants.{Update, Deletion};
ghost use Rattle.record_codec.specs.Length.{told};
ghost use Rattle.fs_model.specs.FsState.{row_named};
ghost use Rattle.fs_model.specs.TreeSteps.{entry_in, entry_update, new_entry, new_row, renamed_rows, with_names};
ghost use Rattle.extent_map.specs.ChangeLengths.{IsLittleLonger, TellsLengths};
ghost use Rattle.extent_map.specs.Naming.{linked_rows};
ghost use Rattle.extent_map.specs.RowsAfter.{AreNamesOf, rows_after};

use crate::lengths::{
    bare_len, entries_len, greatest_len, names_len, slice_len, snapshot_told, tagged_len,
};
use crate::lookups::row_named;
use crate::name_lengths::{is_short, linked_len, name_len, renamed_len};
use crate::row::Row;
use crate::rows_after::{entries_len_after, greatest_len_after};
use crate::table::FileTable;
use record_model::Name;
use std::slice;

/// Lengths in bytes of payloads: of a change's record, and after the change of the snapshot and of the longest update
/// that has a file's whole entry, were all extents recorded. Each stops at the greatest 64-bit number.
#[derive(Clone, Copy, Debug, PartialEq, Eq)]
pub struct ChangeLengths {
    /// Of the change's record.
    pub change_bytes: u64,
    /// Of the snapshot after the change.
    pub snapshot_bytes: u64,
    /// Of the longest update after the change; 0 where there is no file.
    pub longest_bytes: u64,
}

impl FileTable {
    /// The lengths for a new file of this name, whatever its id, its hint and its time; `little` bounds how much longer they are
    /// than those before.
    pub fn create_lengths(&self, name: &Name, sparse: bool) -> ChangeLengths
        ensures lengths { (id hint time : ℕ) → TellsLengths result (Update (new_entry id name.now hint sparse time))
            (self.now.rows ++ new_row (new_entry id name.now hint sparse time) ∷ []) }
        ensures little { (id hint time : ℕ) → IsLittleLonger self.now.rows
            (self.now.rows ++ new_row (new_entry id name.now hint sparse time) ∷ []) (Update (new_entry id name.now hint sparse time)) }
    {
        is_short(name);
        created_lengths(&self.rows, name, sparse)
    }

    /// The lengths for one more name of the file that has the old one.
    pub fn link_lengths(&self, old: &Name, new: &Name) -> ChangeLengths
        requires { IsSome (row_named old.now self.now.rows) }
        ensures lengths { ForSome (row_named old.now self.now.rows) (λ r.
            TellsLengths result (entry_update (with_names (r.entry.names ++ new.now ∷ []) r).entry) (linked_rows new.now r self.now.rows)) }
        ensures little { ForSome (row_named old.now self.now.rows) (λ r.
            IsLittleLonger self.now.rows (linked_rows new.now r self.now.rows) (entry_update (with_names (r.entry.names ++ new.now ∷ []) r).entry)) }
    {
        is_short(new);
        let row = row_named(&self.rows, old).unwrap();
        let names = linked_len(row.entry().names.items(), new);
        lengths_after(&self.rows, row, names, &[])
    }

    /// The lengths for a name in the place of another of a file, which is taken from another file that has it.
    pub fn rename_lengths(&self, old: &Name, new: &Name) -> ChangeLengths
        requires { IsSome (row_named old.now self.now.rows) }
        ensures lengths { ForSome (row_named old.now self.now.rows) (λ r.
            TellsLengths result (entry_update (entry_in r.entry.id (renamed_rows r (row_named new.now self.now.rows) old.now new.now self.now.rows) r.entry))
            (renamed_rows r (row_named new.now self.now.rows) old.now new.now self.now.rows)) }
        ensures little { ForSome (row_named old.now self.now.rows) (λ r.
            IsLittleLonger self.now.rows (renamed_rows r (row_named new.now self.now.rows) old.now new.now self.now.rows)
            (entry_update (entry_in r.entry.id (renamed_rows r (row_named new.now self.now.rows) old.now new.now self.now.rows) r.entry))) }
    {
        is_short(new);
        let row = row_named(&self.rows, old).unwrap();
        let names = renamed_len(row.entry().names.items(), old, new);
        match row_named(&self.rows, new) {
            None => lengths_after(&self.rows, row, names, &[]),
            Some(other) => {
                if other.id() == row.id() {
                    return same_lengths(&self.rows, row);
                }
                lengths_after(&self.rows, row, names, slice::from_ref(new))
            }
        }
    }
}

/// The length of the record that deletes a name of any file.
pub fn deletion_bytes(name: &Name) -> u64
    ensures { (id : ℕ) → result ≡ told (length (payload_of (Deletion id name.now))) }
{
    tagged_len(deletion_len(name))
}

/// The bytes of a deletion's slice: an id, and the name as a slice.
fn deletion_len(name: &Name) -> u64
    ensures { result ≡ told (8 + length (slice name.now)) }
{
    slice_len(name.items().len() as u64).saturating_add(8)
}

/// The lengths for a new file behind these.
fn created_lengths(rows: &[Row], name: &Name, sparse: bool) -> ChangeLengths
    ensures { (id hint time : ℕ) → TellsLengths result (Update (new_entry id name.now hint sparse time)) (rows.now ++ new_row (new_entry id name.now hint sparse time) ∷ []) }
{
    let entry = bare_len(name_len(name), sparse);
    let change_bytes = tagged_len(entry);
    ChangeLengths {
        change_bytes,
        snapshot_bytes: tagged_len(entries_len(rows).saturating_add(slice_len(entry))),
        longest_bytes: greatest_len(rows).max(change_bytes),
    }
}

/// The lengths where names are taken, and then the file of this row has names whose fields take so many bytes.
fn lengths_after(rows: &[Row], row: &Row, names_len: u64, taken: &[Name]) -> ChangeLengths
    ensures { (names : List (List ℕ)) → AreNamesOf names_len names
        → TellsLengths result (entry_update (with_names names row.now).entry) (rows_after row.now.entry.id names taken.now rows.now) }
{
    let entry = bare_len(names_len, row.entry().sparse);
    ChangeLengths {
        change_bytes: tagged_len(entry),
        snapshot_bytes: tagged_len(entries_len_after(rows, row.id(), names_len, taken)),
        longest_bytes: greatest_len_after(rows, row.id(), names_len, taken),
    }
}

/// The lengths where the file of this row is recorded again with the names that it has.
fn same_lengths(rows: &[Row], row: &Row) -> ChangeLengths
    ensures { TellsLengths result (entry_update row.now.entry) rows.now }
{
    let entry = bare_len(names_len(row.entry().names.items()), row.entry().sparse);
    ChangeLengths {
        change_bytes: tagged_len(entry),
        snapshot_bytes: snapshot_told(rows),
        longest_bytes: greatest_len(rows),
    }
}
