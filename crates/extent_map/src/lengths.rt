//! The lengths of the table's records, with what isn't recorded yet.
//!
//! The numbers stop at the greatest 64-bit number on the way, which no length comes to that may be
//! asked for.

ghost use Rattle.std.specs.Prelude.{◌≡◌, ◌+◌, ◌^◌, ◌<◌, ◌≤◌, ℕ, List, cond, length, max};
ghost use Rattle.std.specs.List.{flat_map};
ghost use Rattle.record_model.specs.Numbers.{varint};
ghost use Rattle.record_model.specs.Encoding.{field_bytes, entry_bytes, slice};
ghost use Rattle.record_model.specs.declared.field.Field.TheVariants.{Linked};
ghost use Rattle.record_codec.specs.Length.{told};
ghost use Rattle.log_model.specs.Headroom.{greatest_blocks};
ghost use Rattle.log_model.specs.LogScan.{blocks_of};
ghost use Rattle.fs_model.specs.FsState.{working_entry, working_of};
ghost use Rattle.fs_model.specs.TreeSteps.{with_names};
ghost use Rattle.extent_map.specs.Records.{snapshot_len, greatest_len};
ghost use Rattle.extent_map.specs.RowsAfter.{AreNamesOf};

use crate::row::Row;
use crate::table::FileTable;
use record_model::Name;

/// The bytes of a tag.
const TAG_BYTES: u64 = 4;

/// The bytes of an extent's field: the tag, the length, and two 64-bit numbers.
pub(crate) const EXTENT_FIELD_BYTES: u64 = TAG_BYTES + 1 + 16;

/// The bytes of an id, a size, a hint, a time and an active start.
const FIXED_FIELDS_BYTES: u64 = 4 * (TAG_BYTES + 8) + (TAG_BYTES + 4);

impl FileTable {
    /// The length of the snapshot's payload, were all extents recorded.
    pub fn snapshot_len(&self) -> u64
        requires { snapshot_len self.now.rows < 2 ^ 63 }
        ensures { result ≡ snapshot_len self.now.rows }
    {
        snapshot_told(&self.rows)
    }

    /// The length of the longest payload of an update that has a file's whole entry, were all extents
    /// recorded; 0 where there is no file.
    pub fn greatest_record(&self) -> u64
        requires { snapshot_len self.now.rows < 2 ^ 63 }
        ensures length { result ≡ greatest_len (working_of self.now.rows) }
        // Its blocks are those that the room of a log is judged with.
        ensures blocks { (block : ℕ) → 8 ≤ block
            → greatest_blocks block (working_of self.now.rows) ≡ max 1 (blocks_of block result) }
    {
        greatest_len(&self.rows)
    }
}

/// The length of the snapshot's payload, or the greatest 64-bit number.
pub(crate) fn snapshot_told(rows: &[Row]) -> u64
    ensures { result ≡ told (snapshot_len rows.now) }
{
    tagged_len(entries_len(rows))
}

/// The same of the longest update.
pub(crate) fn greatest_len(rows: &[Row]) -> u64
    ensures { result ≡ told (greatest_len (working_of rows.now)) }
{
    let mut greatest: u64 = 0;
    for row in rows {
        greatest = greatest.max(tagged_len(working_len(row)));
    }
    greatest
}

/// The bytes of the entries, each in a slice.
pub(crate) fn entries_len(rows: &[Row]) -> u64
    ensures { result ≡ told (length (flat_map (λ e. slice (entry_bytes e)) (working_of rows.now))) }
{
    let mut len: u64 = 0;
    for row in rows {
        len = len.saturating_add(slice_len(working_len(row)));
    }
    len
}

/// The bytes of a file's entry with all its extents.
pub(crate) fn working_len(row: &Row) -> u64
    ensures { result ≡ told (length (entry_bytes (working_entry row.now))) }
{
    working_len_with(row, names_len(row.entry().names.items()))
}

/// The same, with names whose fields take so many bytes.
pub(crate) fn working_len_with(row: &Row, names_len: u64) -> u64
    ensures { (names : List (List ℕ)) → AreNamesOf names_len names → result ≡ told (length (entry_bytes (working_entry (with_names names row.now)))) }
{
    let entry = row.entry();
    let recorded = EXTENT_FIELD_BYTES.saturating_mul(entry.extents.items().len() as u64);
    let unrecorded = EXTENT_FIELD_BYTES.saturating_mul(row.unrecorded().len() as u64);
    bare_len(names_len, entry.sparse)
        .saturating_add(recorded)
        .saturating_add(unrecorded)
}

/// The bytes of an entry without extents, and with names whose fields take so many bytes.
pub(crate) fn bare_len(names_len: u64, sparse: bool) -> u64
    ensures { result ≡ told (56 + cond sparse 4 0 + names_len) }
{
    let mark = if sparse { TAG_BYTES } else { 0 };
    names_len.saturating_add(FIXED_FIELDS_BYTES + mark)
}

/// The bytes of the fields of names.
pub(crate) fn names_len(names: &[Name]) -> u64
    ensures { result ≡ told (length (flat_map (λ name. field_bytes (Linked name)) names.now)) }
{
    let mut len: u64 = 0;
    for name in names {
        len = len.saturating_add(tagged_len(name.items().len() as u64));
    }
    len
}

/// The bytes of a tag and of a slice of so many bytes.
pub(crate) fn tagged_len(content: u64) -> u64
    ensures { result ≡ told (4 + (length (varint content) + content)) }
{
    TAG_BYTES.saturating_add(slice_len(content))
}

/// The bytes of a slice of so many bytes.
pub(crate) fn slice_len(content: u64) -> u64
    ensures { result ≡ told (length (varint content) + content) }
{
    varint_len(content).saturating_add(content)
}

/// How many bytes the varint of a number takes, where the number is below 2^35; 5 above.
fn varint_len(number: u64) -> u64
    ensures { result ≡ length (varint number) }
{
    if number < 1 << 7 {
        1
    } else if number < 1 << 14 {
        2
    } else if number < 1 << 21 {
        3
    } else if number < 1 << 28 {
        4
    } else {
        5
    }
}
