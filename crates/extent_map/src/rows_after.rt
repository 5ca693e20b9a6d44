//! The lengths of records of a table's rows after a change of names: names are taken from every file, and then one file
//! gets other names, of which only the bytes of their fields are given.

ghost use Rattle.std.specs.Prelude.{◌≡◌, ℕ, List, [], ◌∷◌, true, false, length, IfNone, IfSome};
ghost use Rattle.record_model.specs.Encoding.{entry_bytes};
ghost use Rattle.record_codec.specs.Length.{told};
ghost use Rattle.log_model.specs.FileTable.{is_named};
ghost use Rattle.fs_model.specs.FsState.{working_entry, working_of};
ghost use Rattle.fs_model.specs.TreeSteps.{with_names};
ghost use Rattle.extent_map.specs.Naming.{without_names};
ghost use Rattle.extent_map.specs.Records.{greatest_len};
ghost use Rattle.extent_map.specs.RowsAfter.{rows_after, row_after, AreNamesOf, entries_bytes};

use crate::lengths::{slice_len, tagged_len, working_len_with};
use crate::name_lengths::left_len;
use crate::name_lists::keeps_name;
use crate::row::Row;
use record_model::Name;

/// The bytes of the entries after the change, each in a slice.
pub(crate) fn entries_len_after(rows: &[Row], id: u64, names_len: u64, taken: &[Name]) -> u64
    ensures { (names : List (List ℕ)) → AreNamesOf names_len names → result ≡ told (length (entries_bytes (rows_after id names taken.now rows.now))) }
{
    let mut len: u64 = 0;
    for row in rows {
        len = len.saturating_add(slice_len_after(row, id, names_len, taken));
    }
    len
}

/// The length of the longest update after the change that has a whole entry; 0 where there is no file.
pub(crate) fn greatest_len_after(rows: &[Row], id: u64, names_len: u64, taken: &[Name]) -> u64
    ensures { (names : List (List ℕ)) → AreNamesOf names_len names → result ≡ told (greatest_len (working_of (rows_after id names taken.now rows.now))) }
{
    let mut greatest: u64 = 0;
    for row in rows {
        greatest = greatest.max(update_len_after(row, id, names_len, taken));
    }
    greatest
}

/// The bytes of a file's entry in a slice, and none where the file is gone.
fn slice_len_after(row: &Row, id: u64, names_len: u64, taken: &[Name]) -> u64
    ensures { (names : List (List ℕ)) → AreNamesOf names_len names → result ≡ told (length (entries_bytes (rows_after id names taken.now (row.now ∷ [])))) }
{
    match working_len_after(row, id, names_len, taken) {
        None => 0,
        Some(len) => slice_len(len),
    }
}

/// The length of the update that has a file's whole entry, and 0 where the file is gone.
fn update_len_after(row: &Row, id: u64, names_len: u64, taken: &[Name]) -> u64
    ensures { (names : List (List ℕ)) → AreNamesOf names_len names → result ≡ told (greatest_len (working_of (rows_after id names taken.now (row.now ∷ [])))) }
{
    match working_len_after(row, id, names_len, taken) {
        None => 0,
        Some(len) => tagged_len(len),
    }
}

/// The bytes of a file's entry with all its extents; `None` where the file is gone.
fn working_len_after(row: &Row, id: u64, names_len: u64, taken: &[Name]) -> Option<u64>
    ensures gone { IfNone result (is_named (without_names taken.now row.now).entry ≡ false) }
    ensures there { IfSome result (λ _. is_named (without_names taken.now row.now).entry ≡ true) }
    ensures length { IfSome result (λ len. (names : List (List ℕ)) → AreNamesOf names_len names
        → len ≡ told (length (entry_bytes (working_entry (row_after id names (without_names taken.now row.now)))))) }
{
    if !keeps_name(row.entry().names.items(), taken) {
        return None;
    }
    Some(working_len_with(row, names_len_after(row, id, names_len, taken)))
}

/// The bytes of the fields of a file's names.
fn names_len_after(row: &Row, id: u64, names_len: u64, taken: &[Name]) -> u64
    ensures { (names : List (List ℕ)) → AreNamesOf names_len names → AreNamesOf result (row_after id names (without_names taken.now row.now)).entry.names }
{
    if row.id() == id {
        names_len
    } else {
        left_len(row.entry().names.items(), taken)
    }
}
