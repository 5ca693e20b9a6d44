// A file in memory.
ghost use Rattle.std.specs.Prelude.{◌≡◌, ◌↔◌, ◌+◌, ◌≤◌, [], length, min, take, drop, true, false, is_err, IsTrue, IfOk, OnOk, OnErr, IsErr, IsErrOf, if◌then◌else◌};
ghost use Rattle.zone_image.specs.Counts.{next_count, HasCause};
ghost use Rattle.image_backend.specs.Contents.{resized, patched};
ghost use Rattle.image_backend.specs.MemFileState.{is_next_listed, called};

use crate::byte_file::{ByteFile, FileFault, SetLenError};
use std::alloc::Global;
use std::marker::Model;

/// A file in memory, which tells its bytes. Its calls, counted from 1, fail exactly where the list has their number; a
/// call that fails does nothing.
#[derive(Drop)]
pub struct MemFile {
    there: bool,
    bytes: Vec<u8>,
    durable: bool,
    calls: u64,
    fails: Vec<u64>,
    faults: u64,
}

impl Model for MemFile {
    ghost use Rattle.image_backend.specs.MemFileState.{MemFileState};
    ghost use Rattle.std.specs.Prelude.{◌≡◌, [], false};

    ghost Value = { MemFileState };

    ghost view = { λ f. record { there = f.there; bytes = f.bytes.items; durable = f.durable; calls = f.calls; fails = f.fails.items; faults = f.faults } };

    ghost invariant = { λ f. f.there ≡ false → f.bytes.items ≡ [] };
}

impl MemFile {
    /// A file with these bytes, whose calls with these numbers fail.
    pub fn new(bytes: Vec<u8>, fails: Vec<u64>) -> MemFile
        ensures { result ≡ record { there = true; bytes = bytes.items; durable = true; calls = 0; fails = fails.items; faults = 0 } }
    {
        MemFile {
            there: true,
            bytes,
            durable: true,
            calls: 0,
            fails,
            faults: 0,
        }
    }

    /// No file, until one is created.
    pub fn none(alloc: Global, fails: Vec<u64>) -> MemFile
        ensures { result ≡ record { there = false; bytes = []; durable = true; calls = 0; fails = fails.items; faults = 0 } }
    {
        MemFile {
            there: false,
            bytes: Vec::new(alloc),
            durable: true,
            calls: 0,
            fails,
            faults: 0,
        }
    }

    /// The bytes, none where no file is there.
    pub fn bytes(&self) -> &[u8]
        ensures { result.now ≡ self.now.bytes }
    {
        &self.bytes
    }

    // Begins a call, which fails where it is listed.
    fn begin(&mut self) -> Result<(), FileFault>
        ensures answer { is_err result ≡ is_next_listed self.old }
        ensures cause { HasCause self.old.faults self.new.faults (IsErr result) }
        ensures after { self.new ≡ record self.old {
          calls = next_count self.old.calls;
          faults = if is_next_listed self.old then next_count self.old.faults else self.old.faults;
        } }
    {
        self.calls = self.calls.saturating_add(1);
        if self.fails.contains(&self.calls) {
            self.faults = self.faults.saturating_add(1);
            return Err(FileFault);
        }
        Ok(())
    }
}

impl ByteFile for MemFile {
    ghost use Rattle.std.specs.Prelude.{◌≡◌, true, false, length, refl};
    ghost use Rattle.image_backend.specs.MemFileState.{mem_contents, no_contents};

    ghost is_open = { λ f. f.there ≡ true };

    ghost is_absent = { λ f. f.there ≡ false };

    ghost is_sized = { λ f. f.there ≡ true };

    ghost size = { λ f. length (mem_contents f) };

    ghost tells = { Unit {0} };

    ghost contents = { mem_contents };

    ghost is_durable = { λ f. f.durable ≡ true };

    ghost faults = { λ f. f.faults };

    // Each call fails exactly where it is listed, and does nothing then.
    fn open(&mut self) -> Result<bool, FileFault>
        ensures listed { is_err result ≡ is_next_listed self.old }
        ensures answer { IfOk result (λ there. there ≡ self.old.there) }
        ensures after { self.new ≡ called self.old }
        ensures cause { HasCause self.old.faults self.new.faults (IsErr result) }
    {
        self.begin()?;
        Ok(self.there)
    }

    fn create(&mut self) -> Result<(), FileFault>
        requires { self.old.there ≡ false }
        ensures listed { is_err result ≡ is_next_listed self.old }
        ensures after { OnOk result (self.new ≡ record (called self.old) { there = true; bytes = []; durable = false }) }
        ensures after_fault { OnErr result (self.new ≡ called self.old) }
        ensures cause { HasCause self.old.faults self.new.faults (IsErr result) }
    {
        self.begin()?;
        self.there = true;
        self.durable = false;
        Ok(())
    }

    // It never fails, and isn't counted.
    fn remove(&mut self)
        ensures after { self.new ≡ record self.old { there = false; bytes = []; durable = false } }
        ensures empty { mem_contents self.new ≡ [] }
        ensures no_fault { self.new.faults ≡ self.old.faults }
    {
        self.there = false;
        self.bytes.clear();
        self.durable = false;
    }

    fn len(&mut self) -> Result<u64, FileFault>
        requires { self.old.there ≡ true }
        ensures listed { is_err result ≡ is_next_listed self.old }
        ensures answer { IfOk result (λ count. count ≡ length self.old.bytes) }
        ensures after { self.new ≡ called self.old }
        ensures cause { HasCause self.old.faults self.new.faults (IsErr result) }
    {
        self.begin()?;
        Ok(self.bytes.len() as u64)
    }

    fn set_len(&mut self, count: u64) -> Result<(), SetLenError>
        requires { self.old.there ≡ true }
        ensures listed { IsErrOf result SetLenError.Failed ↔ IsTrue (is_next_listed self.old) }
        ensures after { OnOk result (self.new ≡ record (called self.old) { bytes = resized count self.old.bytes; durable = false }) }
        ensures after_fault { OnErr result (self.new ≡ called self.old) }
        ensures cause { HasCause self.old.faults self.new.faults (IsErrOf result SetLenError.Failed) }
    {
        if self.begin().is_err() {
            return Err(SetLenError::Failed);
        }
        match self.bytes.resize(count as usize, 0) {
            Ok(()) => {
                self.durable = false;
                Ok(())
            }
            Err(_) => Err(SetLenError::NoMemory),
        }
    }

    fn read_at(&mut self, at: u64, out: &mut [u8]) -> Result<(), FileFault>
        requires opened { self.old.there ≡ true }
        requires within { at + length out.old ≤ length self.old.bytes }
        ensures listed { is_err result ≡ is_next_listed self.old }
        ensures bytes { OnOk result (out.new ≡ take (length out.old) (drop at self.old.bytes)) }
        ensures after { self.new ≡ called self.old }
        ensures cause { HasCause self.old.faults self.new.faults (IsErr result) }
    {
        self.begin()?;
        let rest = &self.bytes[at as usize..];
        let part = &rest[..out.len()];
        out.copy_from_slice(part);
        Ok(())
    }

    fn write_at(&mut self, at: u64, bytes: &[u8]) -> Result<(), FileFault>
        requires opened { self.old.there ≡ true }
        requires within { at + length bytes.now ≤ length self.old.bytes }
        ensures listed { is_err result ≡ is_next_listed self.old }
        ensures after { OnOk result (self.new ≡ record (called self.old) { bytes = patched at bytes.now self.old.bytes; durable = false }) }
        ensures after_fault { OnErr result (self.new ≡ called self.old) }
        ensures cause { HasCause self.old.faults self.new.faults (IsErr result) }
    {
        self.begin()?;
        write_over(&mut self.bytes, at as usize, bytes);
        self.durable = false;
        Ok(())
    }

    fn sync(&mut self) -> Result<(), FileFault>
        requires { self.old.there ≡ true }
        ensures listed { is_err result ≡ is_next_listed self.old }
        ensures after { OnOk result (self.new ≡ record (called self.old) { durable = true }) }
        ensures after_fault { OnErr result (self.new ≡ called self.old) }
        ensures cause { HasCause self.old.faults self.new.faults (IsErr result) }
    {
        self.begin()?;
        self.durable = true;
        Ok(())
    }

    ghost none = { λ f _ absent. no_contents f absent };

    ghost told = { λ f _ _. refl };
}

// Writes a piece over the bytes from this offset on.
fn write_over(bytes: &mut [u8], at: usize, piece: &[u8])
    requires { at + length piece.now ≤ length bytes.old }
    ensures { bytes.new ≡ patched at piece.now bytes.old }
{
    let end = at + piece.len();
    bytes[at..end].copy_from_slice(piece);
}
