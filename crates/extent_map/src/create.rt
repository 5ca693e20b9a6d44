//! New files.

ghost use Rattle.std.specs.Prelude.{◌≡◌, ◌≤◌, ◌++◌, ℕ, List, [], ◌∷◌, vec_capacity, IfOk, OnErr};
ghost use Rattle.fs_model.specs.TreeSteps.{new_entry, new_row};
ghost use Rattle.extent_map.specs.Creating.{new_id};

use crate::error::TableError;
use crate::lookups::row_named;
use crate::row::Row;
use crate::table::FileTable;
use record_model::{Extents, FileEntry, MAX_ID, NO_ACTIVE, Name, Names};
use std::alloc::Global;
use std::mem;

impl FileTable {
    /// Makes an empty file, and tells its id, which is the greatest since the mount and one. `Exists`
    /// comes exactly where a file has the name, and `IdsEnd` exactly where none has it and the greatest
    /// id is used; the table is then as before. It takes no memory.
    pub fn create(
        &mut self,
        name: Name,
        hint: u32,
        sparse: bool,
        time: u64,
    ) -> Result<u64, TableError>
        requires spare { 1 ≤ self.old.names_spare }
        requires hint { hint ≤ 5 }
        ensures answer { result ≡ new_id name self.old.rows self.old.greatest }
        ensures rows { IfOk result (λ id. self.new.rows ≡ self.old.rows ++ new_row (new_entry id name hint sparse time) ∷ []) }
        ensures greatest { IfOk result (λ id. self.new.greatest ≡ id) }
        ensures refused { OnErr result (self.new ≡ self.old) }
    {
        if row_named(&self.rows, &name).is_some() {
            return Err(TableError::Exists);
        }
        if self.greatest == MAX_ID {
            return Err(TableError::IdsEnd);
        }
        let id = self.greatest + 1;
        let alloc = *self.rows.allocator();
        let room = mem::replace(&mut self.first_names, Vec::new(alloc));
        let entry = new_entry(alloc, id, only_name(room, name), hint, sparse, time);
        self.holders = None;
        self.rows.push_reserved(Row::new(alloc, entry));
        self.greatest = id;
        Ok(id)
    }
}

/// The list of one name, in this room.
fn only_name(mut room: Vec<Name>, name: Name) -> Names
    requires { 1 ≤ vec_capacity room }
    ensures { result ≡ name ∷ [] }
{
    room.clear();
    room.push_reserved(name);
    Names::from_vec(room)
}

/// The entry of a new file.
pub(crate) fn new_entry(
    alloc: Global,
    id: u64,
    names: Names,
    hint: u32,
    sparse: bool,
    time: u64,
) -> FileEntry
    ensures { (name : List ℕ) → names ≡ name ∷ [] → result ≡ new_entry id name hint sparse time }
{
    FileEntry {
        id,
        size: 0,
        hint,
        time,
        active: NO_ACTIVE,
        sparse,
        extents: Extents::from_vec(Vec::new(alloc)),
        names,
    }
}
