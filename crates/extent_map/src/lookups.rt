//! What is looked up in the table.

ghost use Rattle.std.specs.Prelude.{◌≡◌, option_map, option_copied};
ghost use Rattle.log_model.specs.TableLaws.{IdsRise};
ghost use Rattle.fs_model.specs.FsState.{row_of, row_named};
ghost use Rattle.extent_map.specs.Lookups.{id_at, id_named, least_id_from};
ghost use Rattle.extent_map.specs.Records.{recorded_of};

use crate::place::{index_of, place_of};
use crate::row::Row;
use crate::table::FileTable;
use record_model::{Extent, FileEntry, Name};

impl FileTable {
    /// The greatest id that was given since the mount, or that a file had then.
    pub fn greatest(&self) -> u64
        ensures { result ≡ self.now.greatest }
    {
        self.greatest
    }

    /// The id of the file that has this name; `None` exactly where no file has it.
    pub fn find(&self, name: &Name) -> Option<u64>
        ensures { result ≡ id_named name.now self.now.rows }
    {
        row_named(&self.rows, name).map(|row| row.id())
    }

    /// The recorded entry of a file; `None` exactly where the file isn't there.
    pub fn file(&self, id: u64) -> Option<&FileEntry>
        ensures { option_copied result ≡ option_map (λ r. r.entry) (row_of id self.now.rows) }
    {
        row_of(&self.rows, id).map(|row| row.entry())
    }

    /// The least id of a file that is at least `from`; `None` exactly where there is none.
    pub fn next_id(&self, from: u64) -> Option<u64>
        ensures { result ≡ least_id_from from self.now.rows }
    {
        let at = place_of(&self.rows, from);
        id_at(&self.rows, at)
    }

    /// The extents of a file that aren't recorded, in the file's order; `None` exactly where the file
    /// isn't there.
    pub fn unrecorded(&self, id: u64) -> Option<&[Extent]>
        ensures { option_copied result ≡ option_map (λ r. r.unrecorded) (row_of id self.now.rows) }
    {
        row_of(&self.rows, id).map(|row| row.unrecorded())
    }

    /// How many bytes of a file are shown to readers; `None` exactly where the file isn't there.
    pub fn shown(&self, id: u64) -> Option<u64>
        ensures { result ≡ option_map (λ r. r.shown) (row_of id self.now.rows) }
    {
        row_of(&self.rows, id).map(|row| row.shown())
    }
}

/// The id of the row that stands there, if one does.
fn id_at(rows: &[Row], at: usize) -> Option<u64>
    ensures { result ≡ id_at at rows.now }
{
    if at < rows.len() {
        Some(rows[at].id())
    } else {
        None
    }
}

/// The row of an id.
pub(crate) fn row_of(rows: &[Row], id: u64) -> Option<&Row>
    requires { IdsRise 0 (recorded_of rows.now) }
    ensures { option_copied result ≡ row_of id rows.now }
{
    match index_of(rows, id) {
        None => None,
        Some(at) => Some(&rows[at]),
    }
}

/// The row of a name.
pub(crate) fn row_named<'a>(rows: &'a [Row], name: &Name) -> Option<&'a Row>
    ensures { option_copied result ≡ row_named name.now rows.now }
{
    for row in rows {
        if row.has_name(name) {
            return Some(row);
        }
    }
    None
}
