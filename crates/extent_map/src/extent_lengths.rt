//! The lengths of the table's records once a file has one more extent, before it has it. They stop at the greatest 64-bit
//! number, and take no memory.

ghost use Rattle.std.specs.Prelude.{◌≡◌, length};
ghost use Rattle.record_model.specs.Encoding.{entry_bytes};
ghost use Rattle.record_codec.specs.Length.{told};
ghost use Rattle.fs_model.specs.FsState.{working_entry, working_of};
ghost use Rattle.extent_map.specs.ExtentLengths.{TellsExtentLengths, row_with_extent, rows_with_extent};
ghost use Rattle.extent_map.specs.Records.{greatest_len};
ghost use Rattle.extent_map.specs.RowsAfter.{entries_bytes};

use crate::lengths::{EXTENT_FIELD_BYTES, slice_len, tagged_len, working_len};
use crate::row::Row;
use crate::table::FileTable;

/// Lengths in bytes of payloads once a file has one more extent, were all extents recorded. Each stops at the greatest 64-bit
/// number. The numbers of the extent don't matter, since each extent takes as many bytes.
#[derive(Clone, Copy, Debug, PartialEq, Eq)]
pub struct ExtentLengths {
    /// Of the snapshot.
    pub snapshot_bytes: u64,
    /// Of the longest update that has a file's whole entry; 0 where there is no file.
    pub longest_bytes: u64,
}

impl FileTable {
    /// The lengths once this file has one more extent that isn't recorded.
    pub fn extent_lengths(&self, id: u64) -> ExtentLengths
        ensures { TellsExtentLengths result (rows_with_extent id self.now.rows) }
    {
        lengths_with_extent(&self.rows, id)
    }
}

/// The lengths once a file has one more extent.
fn lengths_with_extent(rows: &[Row], id: u64) -> ExtentLengths
    ensures { TellsExtentLengths result (rows_with_extent id rows.now) }
{
    ExtentLengths {
        snapshot_bytes: tagged_len(entries_len_with_extent(rows, id)),
        longest_bytes: longest_with_extent(rows, id),
    }
}

/// The bytes of the entries then, each in a slice.
fn entries_len_with_extent(rows: &[Row], id: u64) -> u64
    ensures { result ≡ told (length (entries_bytes (rows_with_extent id rows.now))) }
{
    let mut len: u64 = 0;
    for row in rows {
        len = len.saturating_add(slice_len(len_with_extent(row, id)));
    }
    len
}

/// The length of the longest update then.
fn longest_with_extent(rows: &[Row], id: u64) -> u64
    ensures { result ≡ told (greatest_len (working_of (rows_with_extent id rows.now))) }
{
    let mut greatest: u64 = 0;
    for row in rows {
        greatest = greatest.max(tagged_len(len_with_extent(row, id)));
    }
    greatest
}

/// The bytes of a file's entry then.
fn len_with_extent(row: &Row, id: u64) -> u64
    ensures { result ≡ told (length (entry_bytes (working_entry (row_with_extent id row.now)))) }
{
    let len = working_len(row);
    if row.id() == id {
        len.saturating_add(EXTENT_FIELD_BYTES)
    } else {
        len
    }
}
