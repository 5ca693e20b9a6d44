//! One file of the table.

ghost use Rattle.std.specs.Prelude.{◌≡◌, ◌↔◌, ◌+◌, ◌^◌, ◌<◌, ◌++◌, [], ◌∷◌, false, Some, length, vec_capacity, IsTrue, IfOk, OnOk, OnErr};
ghost use Rattle.log_model.specs.FileTable.{grown, is_among, is_named, size_of};
ghost use Rattle.log_model.specs.FileTree.{renamed};
ghost use Rattle.fs_model.specs.FsState.{mounted_row};
ghost use Rattle.fs_model.specs.FileSteps.{commit_time, committed, moved, note, shown_row, with_recovery_point};
ghost use Rattle.fs_model.specs.TreeSteps.{cleared, with_names};
ghost use Rattle.extent_map.specs.Lookups.{extents_of};
ghost use Rattle.extent_map.specs.Changes.{recorded_row, joined_row};
ghost use Rattle.extent_map.specs.Naming.{without_names};
ghost use Rattle.extent_map.specs.Sound.{IsRow, IsSound};

use crate::copies::{copy_entry, size_of};
use crate::extents::{add_extent, joined, room_for};
use crate::moves::moved_extents;
use crate::name_lists::{keeps_name, names_left, renamed, with_name};
use crate::room::Room;
use fs_model::Move;
use record_model::{Extent, Extents, FileEntry, NO_ACTIVE, Name, Names};
use std::alloc::{AllocError, Global};
use std::marker::Model;
use std::mem;

/// A file: its recorded entry, its extents that aren't recorded yet, and how many of its bytes are
/// shown to readers.
#[derive(Debug, Drop)]
pub(crate) struct Row {
    entry: FileEntry,
    unrecorded: Vec<Extent>,
    shown: u64,
    /// Room for all extents, where some aren't recorded yet.
    room: Vec<Extent>,
}

impl Model for Row {
    ghost use Rattle.fs_model.specs.FsState.{TableRow};

    ghost Value = { TableRow };

    ghost use Rattle.std.specs.Prelude.{length, vec_capacity};
    ghost use Rattle.extent_map.specs.Sound.{HasRoom, IsRow};

    ghost view = { λ r. record { entry = r.entry; unrecorded = r.unrecorded.items; shown = r.shown } };

    ghost invariant = { λ r.
        IsRow (record { entry = r.entry; unrecorded = r.unrecorded.items; shown = r.shown })
        × HasRoom (length r.entry.extents) (length r.unrecorded.items) (vec_capacity r.room) };
}

impl Row {
    /// The row of an entry of which everything is recorded and shown.
    pub(crate) fn new(alloc: Global, entry: FileEntry) -> Row
        requires { IsSound entry }
        ensures { result ≡ mounted_row entry }
    {
        let shown = entry.size;
        Row {
            entry,
            unrecorded: Vec::new(alloc),
            shown,
            room: Vec::new(alloc),
        }
    }

    /// The file's number.
    pub(crate) fn id(&self) -> u64
        ensures { result ≡ self.now.entry.id }
    {
        self.entry.id
    }

    /// What holds of every row.
    pub(crate) fn valid(&self)
        ensures { IsRow self.now }
    {
        let _ = &self.entry;
    }

    /// The recorded entry.
    pub(crate) fn entry(&self) -> &FileEntry
        ensures value { result.now ≡ self.now.entry }
        ensures sound { IsSound result.now }
        ensures settled { self.now.unrecorded ≡ [] → self.now.shown ≡ self.now.entry.size }
    {
        &self.entry
    }

    /// The extents that aren't recorded, in the file's order.
    pub(crate) fn unrecorded(&self) -> &[Extent]
        ensures { result.now ≡ self.now.unrecorded }
    {
        &self.unrecorded
    }

    /// How many bytes are shown to readers.
    pub(crate) fn shown(&self) -> u64
        ensures { result ≡ self.now.shown }
    {
        self.shown
    }

    /// The sum of the lengths of all extents of the file.
    pub(crate) fn size(&self) -> u64
        ensures value { result ≡ self.now.entry.size + size_of self.now.unrecorded }
        ensures sum { result ≡ size_of (extents_of self.now) }
    {
        self.entry.size + size_of(&self.unrecorded)
    }

    /// The same file.
    pub(crate) fn copy(&self, alloc: Global) -> Result<Row, AllocError>
        ensures { IfOk result (λ copy. copy ≡ self.now) }
    {
        Ok(Row {
            entry: copy_entry(alloc, &self.entry)?,
            unrecorded: Vec::from_slice(alloc, &self.unrecorded)?,
            shown: self.shown,
            room: room_for(alloc, self.entry.extents.items(), &self.unrecorded)?,
        })
    }

    /// Shows all bytes of the file, and sets its time.
    pub(crate) fn show(&mut self, time: u64)
        ensures { self.new ≡ shown_row time self.old }
    {
        self.shown = self.entry.size + size_of(&self.unrecorded);
        self.entry.time = time;
    }

    /// Adds an extent that isn't recorded, in room that was made for it.
    pub(crate) fn note(&mut self, extent: Extent, room: Room)
        requires noted { length self.old.unrecorded < vec_capacity room.noted }
        requires joined { length self.old.entry.extents + length self.old.unrecorded < vec_capacity room.joined }
        requires sum { size_of (extents_of self.old) + extent.len < 2 ^ 64 }
        ensures { self.new ≡ note extent self.old }
    {
        let Room {
            id: _,
            noted,
            joined,
        } = room;
        add_extent(&mut self.unrecorded, noted, extent);
        self.room = joined;
    }

    /// Takes all extents as recorded, and all bytes as shown.
    pub(crate) fn record(&mut self, active: u64)
        ensures { self.new ≡ recorded_row active self.old }
    {
        if !self.unrecorded.is_empty() {
            self.join();
        }
        self.entry.active = active;
    }

    /// The time that a commit records: this one where it shows more bytes, else that of the file.
    pub(crate) fn commit_time(&self, now: u64) -> u64
        ensures { result ≡ commit_time now self.now }
    {
        if self.shown < self.entry.size + size_of(&self.unrecorded) {
            now
        } else {
            self.entry.time
        }
    }

    /// Takes all extents as recorded, all bytes as shown, and the recovery point away.
    pub(crate) fn commit(&mut self, now: u64)
        ensures { self.new ≡ committed now self.old }
    {
        let time = self.commit_time(now);
        self.entry.time = time;
        self.record(NO_ACTIVE);
    }

    /// Sets the recovery point.
    pub(crate) fn set_point(&mut self, start: u64)
        ensures { self.new ≡ with_recovery_point start self.old }
    {
        self.entry.active = start;
    }

    /// Takes all extents as recorded, and all bytes as shown.
    fn join(&mut self)
        requires { 0 < length self.old.unrecorded }
        ensures { self.new ≡ joined_row self.old }
    {
        let alloc = *self.unrecorded.allocator();
        let room = mem::replace(&mut self.room, Vec::new(alloc));
        self.entry.size += size_of(&self.unrecorded);
        self.entry.extents = joined(room, self.entry.extents.items(), &self.unrecorded);
        self.unrecorded.clear();
        self.shown = self.entry.size;
    }

    /// Makes the file grow by what an update adds, with the update's names. After want of memory the row
    /// is as before.
    pub(crate) fn grow(&mut self, entry: &FileEntry, names: Names) -> Result<(), AllocError>
        requires settled { self.old.unrecorded ≡ [] }
        requires id { self.old.entry.id ≡ entry.now.id }
        requires names { names ≡ entry.now.names }
        requires sound { IsSound (grown (Some self.old.entry) entry.now) }
        requires size { entry.now.size < 2 ^ 64 }
        ensures grown { OnOk result (self.new ≡ mounted_row (grown (Some self.old.entry) entry.now)) }
        ensures same { OnErr result (self.new ≡ self.old) }
    {
        let alloc = *self.unrecorded.allocator();
        let extents = mem::replace(&mut self.entry.extents, Extents::from_vec(Vec::new(alloc)));
        let mut extents = extents.into_vec();
        let added = extents.extend_from_slice(entry.extents.items());
        self.entry.extents = Extents::from_vec(extents);
        added?;
        self.entry.size = entry.size;
        self.entry.hint = entry.hint;
        self.entry.time = entry.time;
        self.entry.active = entry.active;
        self.entry.sparse = entry.sparse;
        self.entry.names = names;
        self.shown = entry.size;
        Ok(())
    }

    /// Gives the file one more name, behind the others, in room that was made for it.
    pub(crate) fn add_name(&mut self, new: Name, room: Vec<Name>)
        requires room { length self.old.entry.names < vec_capacity room }
        requires unused { is_among self.old.entry.names new ≡ false }
        ensures { self.new ≡ with_names (self.old.entry.names ++ new ∷ []) self.old }
    {
        let alloc = *self.unrecorded.allocator();
        let names = mem::replace(&mut self.entry.names, Names::from_vec(Vec::new(alloc)));
        self.entry.names = with_name(room, names, new);
    }

    /// Puts a name in the place of another one.
    pub(crate) fn rename(&mut self, old: &Name, new: Name)
        requires { is_among self.old.entry.names new ≡ false }
        ensures { self.new ≡ with_names (renamed old.now new self.old.entry.names) self.old }
    {
        let alloc = *self.unrecorded.allocator();
        let names = mem::replace(&mut self.entry.names, Names::from_vec(Vec::new(alloc)));
        self.entry.names = renamed(names, old, new);
    }

    /// Takes these names from the file, and tells whether one is left. Where none is, the row is as
    /// before.
    pub(crate) fn lose_names(&mut self, taken: &[Name]) -> bool
        ensures left { result ≡ is_named (without_names taken.now self.old).entry }
        ensures row { IsTrue result → self.new ≡ without_names taken.now self.old }
        ensures same { result ≡ false → self.new ≡ self.old }
    {
        if !keeps_name(self.entry.names.items(), taken) {
            return false;
        }
        let alloc = *self.unrecorded.allocator();
        let names = mem::replace(&mut self.entry.names, Names::from_vec(Vec::new(alloc)));
        self.entry.names = names_left(names, taken);
        true
    }

    /// Takes the recovery point away.
    pub(crate) fn clear_point(&mut self)
        ensures { self.new ≡ cleared self.old }
    {
        self.entry.active = NO_ACTIVE;
    }

    /// Moves the recorded extents that start where one of these moves begins.
    pub(crate) fn move_extents(&mut self, moves: &[Move])
        ensures { self.new ≡ moved moves.now self.old }
    {
        let alloc = *self.unrecorded.allocator();
        let extents = mem::replace(&mut self.entry.extents, Extents::from_vec(Vec::new(alloc)));
        self.entry.extents = moved_extents(extents, moves);
    }

    /// Whether the byte of an offset is shown to readers, as only bytes of the file are.
    pub(crate) fn shows(&self, offset: u64) -> bool
        ensures shown { IsTrue result ↔ (offset < self.now.shown) }
        ensures within { IsTrue result → offset < size_of self.now.entry.extents + size_of self.now.unrecorded }
    {
        offset < self.shown
    }

    /// Whether the file has this name.
    pub(crate) fn has_name(&self, name: &Name) -> bool
        ensures { result ≡ is_among self.now.entry.names name.now }
    {
        is_among(self.entry.names.items(), name)
    }
}

/// Whether a name is one of these.
pub(crate) fn is_among(names: &[Name], name: &Name) -> bool
    ensures { result ≡ is_among names.now name.now }
{
    names.iter().any(|other| other.items() == name.items())
}
