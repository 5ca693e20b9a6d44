// A host tree in memory.
ghost use Rattle.std.specs.Prelude.{◌≡◌, ◌≢◌, ◌↔◌, ◌&&◌, ◌<◌, [], ◌∷◌, ◌++◌, length, min, take, Option, Some, None, IsSome, is_err, IsTrue, IfOk, IfErr, OnOk, OnErr, IsErrOf};
ghost use Rattle.zone_image.specs.Counts.{HasCause};
ghost use Rattle.host_tree.specs.HostFiles.{IsListing, OthersSame, open_bytes, unread};
ghost use Rattle.host_tree.specs.MemTreeState.{file_at, entry_at, is_of, mode_of, open_in, empty_file, extended, is_next_listed, read_on, called, called_closed, MemTreeState};

use crate::entries::{add_empty, copy_front, extend_open, last_of};
use crate::host_file::HostFile;
use crate::host_path::HostPath;
use crate::host_tree::{HostError, HostTree, OpenMode};
use crate::listing::listing;
use std::alloc::Global;
use std::marker::Model;

/// What is open of a tree in memory.
#[derive(Clone, Copy, Debug, PartialEq, Eq)]
pub enum Opened {
    /// Nothing.
    Closed,
    /// The entry of this number is read, from this place on.
    Reading { entry: usize, place: usize },
    /// The last entry is written.
    Writing,
}

/// Files in memory, which tells them. Of several entries of one directory and path the last alone counts.
///
/// Its calls, counted from 1, fail exactly where the list has their number; such a call does nothing but end what was
/// open, where `open`, `create` and `close` do. A call that answers want of memory does as little.
#[derive(Drop)]
pub struct MemTree {
    alloc: Global,
    files: Vec<HostFile>,
    opened: Opened,
    calls: u64,
    fails: Vec<u64>,
    faults: u64,
}

impl Model for MemTree {
    ghost use Rattle.host_tree.specs.MemTreeState.{MemTreeState, IsThere};

    ghost Value = { MemTreeState };

    ghost view = { λ t. record { files = t.files.items; opened = t.opened; calls = t.calls; fails = t.fails.items; faults = t.faults } };

    ghost invariant = { λ t. IsThere t.files.items t.opened };
}

impl MemTree {
    /// A tree with these files, whose calls with these numbers fail. Nothing is open. It takes no memory; what its
    /// calls take comes from `alloc`.
    pub fn new(alloc: Global, files: Vec<HostFile>, fails: Vec<u64>) -> MemTree
        ensures { result ≡ record { files = files.items; opened = Opened.Closed; calls = 0; fails = fails.items; faults = 0 } }
    {
        MemTree {
            alloc,
            files,
            opened: Opened::Closed,
            calls: 0,
            fails,
            faults: 0,
        }
    }

    /// The entries: those that it was made of, and behind them one for each file that was created.
    pub fn files(&self) -> &[HostFile]
        ensures { result.now ≡ self.now.files }
    {
        &self.files
    }

    // Begins a call, and answers whether it fails, which is counted.
    fn begins_failing(&mut self) -> bool
        ensures answer { result ≡ is_next_listed self.old }
        ensures after { self.new ≡ called self.old }
        ensures cause { HasCause self.old.faults self.new.faults (IsTrue result) }
    {
        self.calls = self.calls.saturating_add(1);
        let fails = self.fails.contains(&self.calls);
        if fails {
            self.faults = self.faults.saturating_add(1);
        }
        fails
    }
}

impl HostTree for MemTree {
    ghost use Rattle.host_tree.specs.MemTreeState.{file_at, mode_of, open_in};

    ghost tells = { Unit {0} };

    ghost files = { λ t. file_at t.files };

    ghost mode = { λ t. mode_of t.opened };

    ghost at = { λ t. open_in t.files t.opened };

    ghost faults = { λ t. t.faults };

    // Each call fails exactly where it is listed, and does as good as nothing then.
    fn list(&mut self, alloc: Global, dir: &str) -> Result<Vec<HostPath>, HostError>
        ensures listed { IsErrOf result HostError.Fault ↔ IsTrue (is_next_listed self.old) }
        ensures after { self.new ≡ called self.old }
        ensures listing { IfOk result (λ paths. IsListing (file_at self.old.files) dir.now paths.items) }
        ensures cause { HasCause self.old.faults self.new.faults (IsErrOf result HostError.Fault) }
    {
        if self.begins_failing() {
            return Err(HostError::Fault);
        }
        match listing(alloc, &self.files, dir) {
            Ok(paths) => Ok(paths),
            Err(_) => Err(HostError::NoMemory),
        }
    }

    fn open(&mut self, dir: &str, path: &HostPath) -> Result<(), HostError>
        requires there { IsSome (file_at self.old.files dir.now path.now) }
        ensures listed { is_err result ≡ is_next_listed self.old }
        ensures kind { IfErr result (λ e. e ≡ HostError.Fault) }
        ensures same { self.new ≡ record (called self.old) { opened = self.new.opened } }
        ensures for_reading { OnOk result (mode_of self.new.opened ≡ OpenMode.Reading) }
        ensures at_start { OnOk result (open_in self.old.files self.new.opened ≡ record { dir = dir.now; path = path.now; place = 0 }) }
        ensures none_open { OnErr result (self.new.opened ≡ Opened.Closed) }
        ensures cause { HasCause self.old.faults self.new.faults (IsErrOf result HostError.Fault) }
    {
        self.opened = Opened::Closed;
        if self.begins_failing() {
            return Err(HostError::Fault);
        }
        match last_of(&self.files, dir, path) {
            Some(entry) => {
                self.opened = Opened::Reading { entry, place: 0 };
                Ok(())
            }
            None => unreachable!(),
        }
    }

    // As much as fits is read.
    fn read(&mut self, out: &mut [u8]) -> Result<usize, HostError>
        requires { mode_of self.old.opened ≡ OpenMode.Reading }
        ensures listed { is_err result ≡ is_next_listed self.old }
        ensures kind { IfErr result (λ e. e ≡ HostError.Fault) }
        ensures same { self.new ≡ record (called self.old) { opened = self.new.opened } }
        ensures not_done { OnErr result (self.new.opened ≡ self.old.opened) }
        ensures taken { IfOk result (λ n. n ≡ min (length out.old) (length (unread (file_at self.old.files) (open_in self.old.files self.old.opened)))) }
        ensures bytes { IfOk result (λ n. take n out.new ≡ take n (unread (file_at self.old.files) (open_in self.old.files self.old.opened))) }
        ensures moved { IfOk result (λ n. self.new.opened ≡ read_on self.old.opened n) }
        ensures ended { IfOk result (λ n. n ≡ 0 → out.old ≢ [] → unread (file_at self.old.files) (open_in self.old.files self.old.opened) ≡ []) }
        ensures cause { HasCause self.old.faults self.new.faults (IsErrOf result HostError.Fault) }
    {
        if self.begins_failing() {
            return Err(HostError::Fault);
        }
        match self.opened {
            Opened::Reading { entry, place } => {
                let taken = copy_front(self.files[entry].bytes.items(), place, out);
                self.opened = Opened::Reading {
                    entry,
                    place: place + taken,
                };
                Ok(taken)
            }
            Opened::Closed => unreachable!(),
            Opened::Writing => unreachable!(),
        }
    }

    fn create(&mut self, dir: &str, path: &HostPath) -> Result<(), HostError>
        ensures listed { IsErrOf result HostError.Fault ↔ IsTrue (is_next_listed self.old) }
        ensures after { OnOk result (self.new ≡ record (called self.old) { files = self.old.files ++ empty_file dir.now path.now ∷ []; opened = Opened.Writing }) }
        ensures not_done { OnErr result (self.new ≡ called_closed self.old) }
        ensures which { OnOk result (open_in self.new.files self.new.opened ≡ record { dir = dir.now; path = path.now; place = 0 }) }
        ensures empty { OnOk result (file_at self.new.files dir.now path.now ≡ Some []) }
        ensures others { OthersSame dir.now path.now (file_at self.old.files) (file_at self.new.files) }
        ensures cause { HasCause self.old.faults self.new.faults (IsErrOf result HostError.Fault) }
    {
        self.opened = Opened::Closed;
        if self.begins_failing() {
            return Err(HostError::Fault);
        }
        if add_empty(self.alloc, &mut self.files, dir, path).is_err() {
            return Err(HostError::NoMemory);
        }
        self.opened = Opened::Writing;
        Ok(())
    }

    // The whole piece is written.
    fn write(&mut self, piece: &[u8]) -> Result<usize, HostError>
        requires { mode_of self.old.opened ≡ OpenMode.Writing }
        ensures listed { IsErrOf result HostError.Fault ↔ IsTrue (is_next_listed self.old) }
        ensures taken { IfOk result (λ n. n ≡ length piece.now) }
        ensures after { OnOk result (self.new ≡ record (called self.old) { files = extended self.old.files piece.now }) }
        ensures not_done { OnErr result (self.new ≡ called self.old) }
        ensures added { OnOk result (file_at self.new.files (open_in self.old.files self.old.opened).dir (open_in self.old.files self.old.opened).path
            ≡ Some (open_bytes (file_at self.old.files) (open_in self.old.files self.old.opened) ++ piece.now)) }
        ensures others { OthersSame (open_in self.old.files self.old.opened).dir (open_in self.old.files self.old.opened).path (file_at self.old.files) (file_at self.new.files) }
        ensures same_file { open_in self.new.files self.new.opened ≡ open_in self.old.files self.old.opened }
        ensures cause { HasCause self.old.faults self.new.faults (IsErrOf result HostError.Fault) }
    {
        if self.begins_failing() {
            return Err(HostError::Fault);
        }
        if extend_open(self.alloc, &mut self.files, self.opened, piece).is_err() {
            return Err(HostError::NoMemory);
        }
        Ok(piece.len())
    }

    fn close(&mut self) -> Result<(), HostError>
        requires { mode_of self.old.opened ≢ OpenMode.Closed }
        ensures listed { is_err result ≡ is_next_listed self.old }
        ensures kind { IfErr result (λ e. e ≡ HostError.Fault) }
        ensures after { self.new ≡ called_closed self.old }
        ensures cause { HasCause self.old.faults self.new.faults (IsErrOf result HostError.Fault) }
    {
        self.opened = Opened::Closed;
        if self.begins_failing() {
            return Err(HostError::Fault);
        }
        Ok(())
    }
}
