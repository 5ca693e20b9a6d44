// A file in memory that tells what a loss of power may leave of it.
ghost use Rattle.std.specs.Prelude.{◌≡◌, ◌↔◌, ◌+◌, ◌<◌, ◌≤◌, ◌++◌, ◌∷◌, [], length, min, take, drop, replicate, true, false, is_err, IsTrue, IfOk, OnOk, OnErr, IsErr, IsErrOf};
ghost use Rattle.zone_image.specs.Counts.{next_count, HasCause};
ghost use Rattle.image_backend.specs.Contents.{resized, patched};
ghost use Rattle.power_image.specs.OpenBytes.{opened, all_closed, flags_resized, open_count, filled};
ghost use Rattle.power_image.specs.PowerMemState.{stood_of, is_refused, is_change_refused, passed, failed, changed, called, standing, kept, made_durable, mem_contents};

use crate::power_file::PowerFile;
use image_backend::{ByteFile, FileFault, SetLenError};
use std::alloc::{AllocError, Global};
use std::marker::Model;

/// What stood until a call: the bytes, and which of them were open.
#[derive(Drop)]
pub(crate) struct Moment {
    pub(crate) tick: u64,
    pub(crate) bytes: Vec<u8>,
    pub(crate) flags: Vec<bool>,
}

/// A file in memory, which tells its bytes and what a loss of power may leave of them. Its calls, counted from 1, fail
/// where the list has their number, and a changing call also where there was room for no more. A call that fails changes no
/// byte, but one that was to write leaves its range open.
///
/// It keeps the bytes that stood before each good sync and each change of the length, and so the moments since it was made
/// or last removed: what stood before a `remove` isn't told.
#[derive(Drop)]
pub struct PowerMem {
    alloc: Global,
    there: bool,
    bytes: Vec<u8>,
    flags: Vec<bool>,
    moments: Vec<Moment>,
    changes: u32,
    room: u32,
    calls: u64,
    fails: Vec<u64>,
    faults: u64,
}

impl Model for PowerMem {
    ghost use Rattle.std.specs.Prelude.{◌≡◌, ◌≤◌, ◌-◌, ◌+◌, [], length, map, false};
    ghost use Rattle.std.specs.Vec.{vec_capacity};
    ghost use Rattle.power_image.specs.PowerMemState.{PowerMemState, stood_of};

    ghost Value = { PowerMemState };

    ghost view = { λ f. record {
      there = f.there;
      bytes = f.bytes.items;
      flags = f.flags.items;
      moments = map stood_of f.moments.items;
      changes = f.changes;
      room = f.room;
      calls = f.calls;
      fails = f.fails.items;
      faults = f.faults;
    } };

    ghost invariant = { λ f. (f.there ≡ false → f.bytes.items ≡ []) × (length f.flags.items ≡ length f.bytes.items)
        × (length f.moments.items ≤ f.changes) × (f.room ≤ vec_capacity f.moments) };
}

impl PowerMem {
    /// A file with these bytes, none of them open, whose calls with these numbers fail. There is room for so many changing
    /// calls. It takes memory for the flags and for the moments that it is to keep.
    pub fn new(
        alloc: Global,
        bytes: Vec<u8>,
        fails: Vec<u64>,
        room: u32,
    ) -> Result<PowerMem, AllocError>
        ensures { IfOk result (λ f. f ≡ record {
          there = true;
          bytes = bytes.items;
          flags = replicate (length bytes.items) false;
          moments = [];
          changes = 0;
          room = room;
          calls = 0;
          fails = fails.items;
          faults = 0;
        }) }
    {
        let flags = vec![in alloc; false; bytes.len()]?;
        let moments = Vec::with_capacity(alloc, room as usize)?;
        Ok(PowerMem {
            alloc,
            there: true,
            bytes,
            flags,
            moments,
            changes: 0,
            room,
            calls: 0,
            fails,
            faults: 0,
        })
    }

    /// The bytes, none where no file is there.
    pub fn bytes(&self) -> &[u8]
        ensures { result.now ≡ self.now.bytes }
    {
        &self.bytes
    }

    /// How many of the bytes are open.
    pub fn open_count(&self) -> usize
        ensures { result ≡ open_count self.now.flags }
    {
        count_open(&self.flags)
    }

    // A call failed.
    fn fail(&mut self) -> FileFault
        ensures after { self.new ≡ failed self.old }
        ensures cause { HasCause self.old.faults self.new.faults (Unit {0}) }
    {
        self.calls = self.calls.saturating_add(1);
        self.faults = self.faults.saturating_add(1);
        FileFault
    }

    // Begins a call, which fails where it is listed.
    fn begin(&mut self) -> Result<(), FileFault>
        ensures answer { is_err result ≡ is_refused self.old }
        ensures begun { OnOk result (self.new ≡ passed self.old) }
        ensures refused { OnErr result (self.new ≡ failed self.old) }
        ensures cause { HasCause self.old.faults self.new.faults (IsErr result) }
    {
        if self.calls == u64::MAX || self.fails.contains(&(self.calls + 1)) {
            return Err(self.fail());
        }
        self.calls += 1;
        Ok(())
    }

    // Begins a changing call, which fails where it is listed and where there was room for no more.
    fn begin_change(&mut self) -> Result<(), FileFault>
        ensures answer { is_err result ≡ is_change_refused self.old }
        ensures begun { OnOk result (self.new ≡ passed self.old) }
        ensures room { OnOk result (self.old.changes < self.old.room) }
        ensures refused { OnErr result (self.new ≡ failed self.old) }
        ensures cause { HasCause self.old.faults self.new.faults (IsErr result) }
    {
        if self.changes >= self.room {
            return Err(self.fail());
        }
        self.begin()
    }

    // Counts a changing call for which there is room.
    fn count(&mut self)
        requires { self.old.changes < self.old.room }
        ensures { self.new ≡ record self.old { changes = self.old.changes + 1 } }
    {
        self.changes += 1;
    }

    // Counts a changing call for which there is room, and keeps what stood until it.
    fn keep(&mut self, moment: Moment)
        requires { self.old.changes < self.old.room }
        ensures { self.new ≡ record self.old { moments = self.old.moments ++ stood_of moment ∷ []; changes = self.old.changes + 1 } }
    {
        self.moments.push_reserved(moment);
        self.changes += 1;
    }

    // What stands, as a moment that ends now.
    fn standing(&self) -> Result<Moment, AllocError>
        ensures { IfOk result (λ m. stood_of m ≡ standing self.now) }
    {
        Ok(Moment {
            tick: self.calls,
            bytes: self.bytes.clone()?,
            flags: self.flags.clone()?,
        })
    }

    // The bytes after the length was set.
    fn resized_bytes(&self, count: u64) -> Result<Vec<u8>, AllocError>
        ensures { IfOk result (λ bytes. bytes.items ≡ resized count self.now.bytes) }
    {
        let mut bytes = self.bytes.clone()?;
        bytes.resize(count as usize, 0)?;
        Ok(bytes)
    }

    // For each byte whether it is open after the length was set.
    fn resized_flags(&self, count: u64) -> Result<Vec<bool>, AllocError>
        ensures { IfOk result (λ flags. flags.items ≡ flags_resized count self.now.flags) }
    {
        let mut flags = self.flags.clone()?;
        flags.resize(count as usize, true)?;
        Ok(flags)
    }

    /// What a loss of power leaves that puts these bytes into the open places, in their order. No byte is open then, no
    /// moment is told but the present one, no call is to fail, and the counts are 0. So each is left that may be, and no
    /// other, as `laws::fillings_are_left` says.
    pub fn crash(self, fill: &[u8]) -> PowerMem
        requires { length fill.now ≡ open_count self.flags }
        ensures { result ≡ record self {
          bytes = filled self.flags self.bytes fill.now;
          flags = all_closed self.flags;
          moments = [];
          changes = 0;
          calls = 0;
          fails = [];
          faults = 0;
        } }
    {
        let mut left = self;
        fill_open(&mut left.bytes, &left.flags, fill);
        close_all(&mut left.flags);
        left.moments.clear();
        left.changes = 0;
        left.calls = 0;
        left.fails.clear();
        left.faults = 0;
        left
    }
}

// How many of these bytes are open.
fn count_open(flags: &[bool]) -> usize
    ensures { result ≡ open_count flags.now }
{
    let mut count = 0;
    for n in 0..flags.len() {
        if flags[n] {
            count += 1;
        }
    }
    count
}

// Puts bytes into the open places, in their order.
fn fill_open(bytes: &mut [u8], flags: &[bool], fill: &[u8])
    requires flags { length flags.now ≡ length bytes.old }
    requires enough { length fill.now ≡ open_count flags.now }
    ensures { bytes.new ≡ filled flags.now bytes.old fill.now }
{
    let mut at = 0;
    for n in 0..bytes.len() {
        if flags[n] {
            bytes[n] = fill[at];
            at += 1;
        }
    }
}

// Leaves no byte open.
fn close_all(flags: &mut [bool])
    ensures { flags.new ≡ all_closed flags.old }
{
    flags.fill(false);
}

// Writes a piece over the bytes from this offset on.
fn write_over(bytes: &mut [u8], at: usize, piece: &[u8])
    requires { at + length piece.now ≤ length bytes.old }
    ensures { bytes.new ≡ patched at piece.now bytes.old }
{
    let end = at + piece.len();
    bytes[at..end].copy_from_slice(piece);
}

// Leaves so many bytes from this offset on open.
fn open_range(flags: &mut [bool], at: usize, count: usize)
    requires { at + count ≤ length flags.old }
    ensures { flags.new ≡ opened at count flags.old }
{
    let end = at + count;
    flags[at..end].fill(true);
}

impl ByteFile for PowerMem {
    ghost use Rattle.std.specs.Prelude.{◌≡◌, true, false, length, refl};
    ghost use Rattle.power_image.specs.OpenBytes.{all_closed};
    ghost use Rattle.power_image.specs.PowerMemState.{mem_contents, no_contents};

    ghost is_open = { λ f. f.there ≡ true };

    ghost is_absent = { λ f. f.there ≡ false };

    ghost is_sized = { λ f. f.there ≡ true };

    ghost size = { λ f. length (mem_contents f) };

    ghost tells = { Unit {0} };

    ghost contents = { mem_contents };

    ghost is_durable = { λ f. f.flags ≡ all_closed f.flags };

    ghost faults = { λ f. f.faults };

    fn open(&mut self) -> Result<bool, FileFault>
        ensures listed { is_err result ≡ is_refused self.old }
        ensures answer { IfOk result (λ there. there ≡ self.old.there) }
        ensures after { self.new ≡ called self.old }
        ensures cause { HasCause self.old.faults self.new.faults (IsErr result) }
    {
        self.begin()?;
        Ok(self.there)
    }

    fn create(&mut self) -> Result<(), FileFault>
        requires { self.old.there ≡ false }
        ensures refused { IsTrue (is_change_refused self.old) → IsErr result }
        ensures after { OnOk result (self.new ≡ record (changed self.old) { there = true; bytes = []; flags = [] }) }
        ensures after_fault { OnErr result (self.new ≡ failed self.old) }
        ensures cause { HasCause self.old.faults self.new.faults (IsErr result) }
    {
        self.begin_change()?;
        self.count();
        self.there = true;
        Ok(())
    }

    // It never fails, and isn't counted. What stood before it isn't told.
    fn remove(&mut self)
        ensures after { self.new ≡ record self.old { there = false; bytes = []; flags = []; moments = [] } }
        ensures empty { mem_contents self.new ≡ [] }
        ensures no_fault { self.new.faults ≡ self.old.faults }
    {
        self.there = false;
        self.bytes.clear();
        self.flags.clear();
        self.moments.clear();
    }

    fn len(&mut self) -> Result<u64, FileFault>
        requires { self.old.there ≡ true }
        ensures listed { is_err result ≡ is_refused self.old }
        ensures answer { IfOk result (λ count. count ≡ length self.old.bytes) }
        ensures after { self.new ≡ called self.old }
        ensures cause { HasCause self.old.faults self.new.faults (IsErr result) }
    {
        self.begin()?;
        Ok(self.bytes.len() as u64)
    }

    fn set_len(&mut self, count: u64) -> Result<(), SetLenError>
        requires { self.old.there ≡ true }
        ensures refused { IsTrue (is_change_refused self.old) → IsErr result }
        ensures after { OnOk result (self.new ≡ record (kept self.old) {
          bytes = resized count self.old.bytes;
          flags = flags_resized count self.old.flags;
        }) }
        ensures after_fault { IsErrOf result SetLenError.Failed → self.new ≡ failed self.old }
        ensures no_memory { IsErrOf result SetLenError.NoMemory → self.new ≡ self.old }
        ensures cause { HasCause self.old.faults self.new.faults (IsErrOf result SetLenError.Failed) }
    {
        let Ok(moment) = self.standing() else {
            return Err(SetLenError::NoMemory);
        };
        let Ok(flags) = self.resized_flags(count) else {
            return Err(SetLenError::NoMemory);
        };
        let Ok(bytes) = self.resized_bytes(count) else {
            return Err(SetLenError::NoMemory);
        };
        if self.begin_change().is_err() {
            return Err(SetLenError::Failed);
        }
        self.keep(moment);
        self.flags = flags;
        self.bytes = bytes;
        Ok(())
    }

    fn read_at(&mut self, at: u64, out: &mut [u8]) -> Result<(), FileFault>
        requires opened { self.old.there ≡ true }
        requires within { at + length out.old ≤ length self.old.bytes }
        ensures listed { is_err result ≡ is_refused self.old }
        ensures bytes { OnOk result (out.new ≡ take (length out.old) (drop at self.old.bytes)) }
        ensures after { self.new ≡ called self.old }
        ensures cause { HasCause self.old.faults self.new.faults (IsErr result) }
    {
        self.begin()?;
        let rest = &self.bytes[at as usize..];
        let part = &rest[..out.len()];
        out.copy_from_slice(part);
        Ok(())
    }

    fn write_at(&mut self, at: u64, bytes: &[u8]) -> Result<(), FileFault>
        requires opened { self.old.there ≡ true }
        requires within { at + length bytes.now ≤ length self.old.bytes }
        ensures listed { is_err result ≡ is_change_refused self.old }
        ensures after { OnOk result (self.new ≡ record (changed self.old) {
          bytes = patched at bytes.now self.old.bytes;
          flags = opened at (length bytes.now) self.old.flags;
        }) }
        ensures after_fault { OnErr result (self.new ≡ record (failed self.old) { flags = opened at (length bytes.now) self.old.flags }) }
        ensures cause { HasCause self.old.faults self.new.faults (IsErr result) }
    {
        open_range(&mut self.flags, at as usize, bytes.len());
        self.begin_change()?;
        self.count();
        write_over(&mut self.bytes, at as usize, bytes);
        Ok(())
    }

    fn sync(&mut self) -> Result<(), FileFault>
        requires { self.old.there ≡ true }
        ensures refused { IsTrue (is_change_refused self.old) → IsErr result }
        ensures after { OnOk result (self.new ≡ made_durable self.old) }
        ensures after_fault { OnErr result (self.new ≡ failed self.old) }
        ensures cause { HasCause self.old.faults self.new.faults (IsErr result) }
    {
        let Ok(moment) = self.standing() else {
            return Err(self.fail());
        };
        self.begin_change()?;
        self.keep(moment);
        close_all(&mut self.flags);
        Ok(())
    }

    ghost none = { λ f _ absent. no_contents f absent };

    ghost told = { λ f _ _. refl };
}

impl PowerFile for PowerMem {
    ghost use Rattle.power_image.specs.PowerMemState.{May, Might, might_now, might_earlier, may_stand, may_durable};
    ghost use Rattle.std.proofs.Common.{inl};

    ghost tells_power = { Unit {0} };

    ghost may = { May };

    ghost might = { Might };

    ghost tick = { λ f. f.calls };

    ghost stays = { λ f _. may_stand f };

    ghost long = { λ f left may. may.long };

    ghost durable = { λ f left _ durable may. may_durable f left durable may };

    ghost since_now = { λ f t left may. inl may };

    ghost now = { λ f left might. might_now f left might };

    ghost earlier = { λ f t u left le might. might_earlier f t u left le might };
}
