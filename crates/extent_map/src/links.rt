//! Names that files are given, keep and lose.

ghost use Rattle.std.specs.Prelude.{◌≡◌, ◌≤◌, ◌<◌, ◌-◌, length, slice_index_or, Some, None, Ok, IfSome, IfNone, IsSome, OnOk, OnErr};
ghost use Rattle.std.specs.Option.{ForSome};
ghost use Rattle.log_model.specs.FileTree.{renamed};
ghost use Rattle.log_model.specs.TableLaws.{IdsRise};
ghost use Rattle.fs_model.specs.FsState.{TableRow, on_row, row_named, row_of};
ghost use Rattle.fs_model.specs.TreeSteps.{drop_name, renamed_rows, with_names};
ghost use Rattle.extent_map.specs.declared.error.Moved.TheVariants as moves;
ghost use Rattle.extent_map.specs.Records.{recorded_of};
ghost use Rattle.extent_map.specs.Naming.{linked_id, linked_rows, lost_by, lost_extents, moved_id, unlinked_id};

use crate::error::{Moved, TableError};
use crate::lookups::row_named;
use crate::name_lists::keeps_name;
use crate::place::index_of;
use crate::row::Row;
use crate::table::FileTable;
use crate::taken::take_names;
use record_model::{Extent, Name};
use std::{mem, slice};

impl FileTable {
    /// Gives the file of a name one more, which stands last among its names, and tells the file's id.
    /// `NotFound` comes exactly where no file has the old name, and `Exists` exactly where one has it
    /// and a file has the new one; the table is then as before. It takes no memory.
    pub fn link(&mut self, old: &Name, new: Name) -> Result<u64, TableError>
        requires spare { 1 ≤ self.old.names_spare }
        requires reserved { ForSome (row_named old.now self.old.rows) (λ r. self.old.reserved ≡ Some r.entry.id) }
        ensures answer { result ≡ linked_id (row_named old.now self.old.rows) (row_named new self.old.rows) }
        ensures rows { OnOk result (ForSome (row_named old.now self.old.rows) (λ r. self.new.rows ≡ linked_rows new r self.old.rows)) }
        ensures greatest { self.new.greatest ≡ self.old.greatest }
        ensures refused { OnErr result (self.new ≡ self.old) }
    {
        let Some(at) = index_named(&self.rows, old) else {
            return Err(TableError::NotFound);
        };
        if row_named(&self.rows, &new).is_some() {
            return Err(TableError::Exists);
        }
        let alloc = *self.rows.allocator();
        self.holders = None;
        let room = mem::replace(&mut self.more_names, Vec::new(alloc));
        let row = &mut self.rows[at];
        row.add_name(new, room);
        Ok(row.id())
    }

    /// Puts a name of a file in the place of another one, and takes it from another file that has it,
    /// which is gone where it has no name left. Nothing changes where both names are of one file.
    /// `NotFound` comes exactly where no file has the old name; the table is then as before. It takes
    /// no memory.
    pub fn rename(&mut self, old: &Name, new: Name) -> Result<Moved, TableError>
        ensures answer { result ≡ moved_id (row_named old.now self.old.rows) (row_named new self.old.rows) }
        ensures rows { ForSome (row_named old.now self.old.rows) (λ r.
            self.new.rows ≡ renamed_rows r (row_named new self.old.rows) old.now new self.old.rows) }
        ensures greatest { self.new.greatest ≡ self.old.greatest }
        ensures same { result ≡ Ok moves.Same → self.new ≡ self.old }
        ensures refused { OnErr result (self.new ≡ self.old) }
    {
        let Some(at) = index_named(&self.rows, old) else {
            return Err(TableError::NotFound);
        };
        let id = self.rows[at].id();
        match row_named(&self.rows, &new) {
            None => {
                self.holders = None;
                rename_row(&mut self.rows, id, old, new);
                Ok(Moved::Done { id })
            }
            Some(other) => {
                if other.id() == id {
                    return Ok(Moved::Same);
                }
                self.holders = None;
                take_names(&mut self.rows, slice::from_ref(&new));
                rename_row(&mut self.rows, id, old, new);
                Ok(Moved::Done { id })
            }
        }
    }

    /// The recorded extents of the file that is gone once this name is taken away, and none where no file is.
    pub fn lost_extents(&self, name: &Name) -> &[Extent]
        ensures { result.now ≡ lost_extents name.now self.now.rows }
    {
        match row_named(&self.rows, name) {
            None => &[],
            Some(row) => lost_by(row, name),
        }
    }

    /// Takes a name from its file, which is gone where it has none left, and tells the file's id.
    /// `NotFound` comes exactly where no file has the name; the table is then as before. It takes no
    /// memory.
    pub fn unlink(&mut self, name: &Name) -> Result<u64, TableError>
        ensures answer { result ≡ unlinked_id (row_named name.now self.old.rows) }
        ensures rows { OnOk result (self.new.rows ≡ drop_name name.now self.old.rows) }
        ensures greatest { self.new.greatest ≡ self.old.greatest }
        ensures refused { OnErr result (self.new ≡ self.old) }
    {
        let Some(row) = row_named(&self.rows, name) else {
            return Err(TableError::NotFound);
        };
        let id = row.id();
        self.holders = None;
        take_names(&mut self.rows, slice::from_ref(name));
        Ok(id)
    }
}

/// The extents of a file that is gone without this name, and none where it keeps another.
fn lost_by<'a>(row: &'a Row, name: &Name) -> &'a [Extent]
    ensures { result.now ≡ lost_by name.now (Some row.now) }
{
    if keeps_name(row.entry().names.items(), slice::from_ref(name)) {
        &[]
    } else {
        row.entry().extents.items()
    }
}

/// Where the row of a name stands.
fn index_named(rows: &[Row], name: &Name) -> Option<usize>
    ensures absent { IfNone result (row_named name.now rows.now ≡ None) }
    ensures within { IfSome result (λ at. at < length rows.now) }
    ensures row { IfSome result (λ at. (d : TableRow) → row_named name.now rows.now ≡ Some (slice_index_or rows.now at d)) }
{
    for (i, row) in rows.iter().enumerate() {
        if row.has_name(name) {
            return Some(i);
        }
    }
    None
}

/// Puts a name of the file of this id in the place of another one. No file has it.
fn rename_row(rows: &mut Vec<Row>, id: u64, old: &Name, new: Name)
    requires there { IsSome (row_of id rows.old.items) }
    requires unused { row_named new rows.old.items ≡ None }
    requires ids { IdsRise 0 (recorded_of rows.old.items) }
    ensures { ForSome (row_of id rows.old.items) (λ r. rows.new.items ≡ on_row id (with_names (renamed old.now new r.entry.names)) rows.old.items) }
{
    let at = index_of(rows, id).unwrap();
    let row = &mut rows[at];
    row.rename(old, new);
}
