//! Changes of one file of the table.

ghost use Rattle.std.specs.Prelude.{◌≡◌, ◌+◌, ◌^◌, ◌<◌, ◌≤◌, length, IsSome, Some, OnOk, IfOk, vec_capacity};
ghost use Rattle.std.specs.Option.{ForSome};
ghost use Rattle.log_model.specs.FileTable.{size_of};
ghost use Rattle.log_model.specs.TableLaws.{IdsRise};
ghost use Rattle.fs_model.specs.FileSteps.{committed, moved, note, shown_row, with_recovery_point};
ghost use Rattle.extent_map.specs.Lookups.{extents_of};
ghost use Rattle.extent_map.specs.Spare.{extents_more, spare_at};
ghost use Rattle.fs_model.specs.FsState.{on_row, row_of};
ghost use Rattle.extent_map.specs.Changes.{recorded_row};
ghost use Rattle.extent_map.specs.Records.{recorded_of};

use crate::lookups::row_of;
use crate::place::index_of;
use crate::room::{Room, room_for_name, room_for_one};
use crate::row::Row;
use crate::table::FileTable;
use fs_model::Move;
use record_model::{Extent, Name};
use std::alloc::{AllocError, Global};

impl FileTable {
    /// Makes room for one more file, and for one more name and one more extent of the file of this id.
    /// After want of memory the files are as before.
    pub fn reserve(&mut self, id: u64) -> Result<(), AllocError>
        ensures rows { self.new.rows ≡ self.old.rows }
        ensures greatest { self.new.greatest ≡ self.old.greatest }
        ensures reserved { OnOk result (self.new.reserved ≡ Some id) }
        ensures names_spare { OnOk result (1 ≤ self.new.names_spare) }
        ensures spare { OnOk result (IsSome (row_of id self.new.rows) → 1 ≤ spare_at id self.new.spare) }
    {
        self.holders = None;
        let alloc = *self.rows.allocator();
        let room = room_in(alloc, &self.rows, id)?;
        self.rows.reserve(1)?;
        self.first_names.clear();
        self.first_names.reserve(1)?;
        self.more_names = names_room(alloc, &self.rows, id)?;
        self.room = Some(room);
        self.reserved = Some(id);
        Ok(())
    }

    /// Adds an extent of a file that isn't recorded. It makes the last of them longer, where it begins
    /// where that one ends. It takes no memory.
    pub fn note(&mut self, id: u64, extent: Extent)
        requires there { IsSome (row_of id self.old.rows) }
        requires spare { 1 ≤ spare_at id self.old.spare }
        requires sum { ForSome (row_of id self.old.rows) (λ r. size_of (extents_of r) + extent.len < 2 ^ 64) }
        ensures rows { self.new.rows ≡ on_row id (note extent) self.old.rows }
        ensures greatest { self.new.greatest ≡ self.old.greatest }
    {
        self.holders = None;
        let at = index_of(&self.rows, id).unwrap();
        let room = self.room.take().unwrap();
        let row = &mut self.rows[at];
        row.note(extent, room);
    }

    /// Shows all bytes of a file, and sets its time.
    pub fn show(&mut self, id: u64, time: u64)
        requires { IsSome (row_of id self.old.rows) }
        ensures rows { self.new.rows ≡ on_row id (shown_row time) self.old.rows }
        ensures greatest { self.new.greatest ≡ self.old.greatest }
    {
        self.holders = None;
        let at = index_of(&self.rows, id).unwrap();
        let row = &mut self.rows[at];
        row.show(time);
    }

    /// Gives each recorded extent of a file that starts where a move begins the start to which the first
    /// such move leads. It takes no memory.
    pub fn replace(&mut self, id: u64, moves: &[Move])
        requires { IsSome (row_of id self.old.rows) }
        ensures rows { self.new.rows ≡ on_row id (moved moves.now) self.old.rows }
        ensures greatest { self.new.greatest ≡ self.old.greatest }
    {
        self.holders = None;
        let at = index_of(&self.rows, id).unwrap();
        let row = &mut self.rows[at];
        row.move_extents(moves);
    }

    /// Takes all extents of a file as recorded, and all its bytes as shown; `active` is where its next
    /// frames begin, or `NO_ACTIVE`.
    pub fn recorded(&mut self, id: u64, active: u64)
        requires { IsSome (row_of id self.old.rows) }
        ensures rows { self.new.rows ≡ on_row id (recorded_row active) self.old.rows }
        ensures greatest { self.new.greatest ≡ self.old.greatest }
    {
        self.holders = None;
        let at = index_of(&self.rows, id).unwrap();
        let row = &mut self.rows[at];
        row.record(active);
    }

    /// Takes all extents of a file as recorded, all its bytes as shown, and its recovery point away; where
    /// it shows more bytes so, its time is this one. It takes no memory.
    pub fn commit(&mut self, id: u64, now: u64)
        requires { IsSome (row_of id self.old.rows) }
        ensures rows { self.new.rows ≡ on_row id (committed now) self.old.rows }
        ensures greatest { self.new.greatest ≡ self.old.greatest }
    {
        self.holders = None;
        let at = index_of(&self.rows, id).unwrap();
        let row = &mut self.rows[at];
        row.commit(now);
    }

    /// Sets where the next frames of a file begin. It takes no memory.
    pub fn set_point(&mut self, id: u64, start: u64)
        requires { IsSome (row_of id self.old.rows) }
        ensures rows { self.new.rows ≡ on_row id (with_recovery_point start) self.old.rows }
        ensures greatest { self.new.greatest ≡ self.old.greatest }
    {
        self.holders = None;
        let at = index_of(&self.rows, id).unwrap();
        let row = &mut self.rows[at];
        row.set_point(start);
    }
}

/// Room for one more extent of a file, and none to speak of where it isn't there.
fn room_in(alloc: Global, rows: &[Row], id: u64) -> Result<Room, AllocError>
    requires { IdsRise 0 (recorded_of rows.now) }
    ensures id { IfOk result (λ room. room.id ≡ id) }
    ensures more { IfOk result (λ room. ForSome (row_of id rows.now) (λ r. 1 ≤ extents_more room r)) }
{
    match row_of(rows, id) {
        None => room_for_one(alloc, id, &[], &[]),
        Some(row) => room_for_one(alloc, id, row.entry().extents.items(), row.unrecorded()),
    }
}

/// Room for the names of a file and one more, and none where the file isn't there.
fn names_room(alloc: Global, rows: &[Row], id: u64) -> Result<Vec<Name>, AllocError>
    requires { IdsRise 0 (recorded_of rows.now) }
    ensures { IfOk result (λ room. ForSome (row_of id rows.now) (λ r. length r.entry.names < vec_capacity room)) }
{
    match row_of(rows, id) {
        None => Ok(Vec::new(alloc)),
        Some(row) => room_for_name(alloc, row.entry().names.items()),
    }
}
