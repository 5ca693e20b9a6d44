// A file on a disk.
ghost use Rattle.std.specs.Prelude.{◌≡◌, None, false, IsErr, string_bytes};
ghost use Rattle.zone_image.specs.Counts.{next_count, HasCause};
ghost use Rattle.image_backend.specs.DiskFileState.{SameButFaults};

use crate::access::{self, Access};
use crate::byte_file::{ByteFile, FileFault, SetLenError};
use std::alloc::Alloc;
use std::fs::File;
use std::io;
use std::marker::Model;
use std::os::unix::fs::FileExt;
use std::rt::Files;

/// The file of a path. It is opened by `open`, and an absent file is no fault. It tells nothing of its bytes.
///
/// While it is open nobody else changes it, and where it is changed nobody else has it: `open` and `create` take the
/// system's lock on the file, which is kept until this is dropped, and don't wait for others that hold one. A lock that
/// somebody holds is a fault, and so is a file system without locks. A file that was found to be missing stays so until
/// `create`, which makes it but takes none that has bytes by then.
#[derive(Drop)]
pub struct DiskFile<R: Files<File = File> + Alloc + Drop> {
    runtime: R,
    path: String,
    access: Access,
    file: Option<File>,
    missing: bool,
    size: Option<u64>,
    faults: u64,
}

impl<R: Files<File = File> + Alloc + Drop> Model for DiskFile<R> {
    ghost use Rattle.std.specs.Prelude.{is_some, string_bytes};
    ghost use Rattle.image_backend.specs.DiskFileState.{DiskFileState};

    ghost Value = { DiskFileState };

    ghost view = { λ f. record { path = string_bytes f.path; access = f.access; opened = is_some f.file; missing = f.missing; size = f.size; faults = f.faults } };
}

impl<R: Files<File = File> + Alloc + Drop> DiskFile<R> {
    /// The file of this path, which isn't opened yet, and what is done with it. One that is only read takes no other
    /// calls than `open`, `len` and `read_at`: each other one is a fault.
    pub fn new(runtime: R, path: String, access: Access) -> DiskFile<R>
        ensures { result ≡ record { path = string_bytes path; access = access; opened = false; missing = false; size = None; faults = 0 } }
    {
        DiskFile {
            runtime,
            path,
            access,
            file: None,
            missing: false,
            size: None,
            faults: 0,
        }
    }

    // Counts a fault, and answers it.
    fn fault(&mut self) -> FileFault
        ensures counted { self.new ≡ record self.old { faults = next_count self.old.faults } }
        ensures cause { HasCause self.old.faults self.new.faults (Unit {0}) }
    {
        self.faults = self.faults.saturating_add(1);
        FileFault
    }

    // What a call of the system answered; an error is counted as a fault.
    fn checked(&mut self, answer: io::Result<()>) -> Result<(), FileFault>
        ensures same { SameButFaults self.old self.new }
        ensures cause { HasCause self.old.faults self.new.faults (IsErr result) }
    {
        match answer {
            Ok(()) => Ok(()),
            Err(_) => Err(self.fault()),
        }
    }
}

impl<R: Files<File = File> + Alloc + Drop> ByteFile for DiskFile<R> {
    ghost use Rattle.std.specs.Prelude.{◌≡◌, true, [], IsSome};
    ghost use Rattle.image_backend.specs.DiskFileState.{disk_size};

    ghost is_open = { λ f. f.opened ≡ true };

    ghost is_absent = { λ f. f.missing ≡ true };

    ghost is_sized = { λ f. IsSome f.size };

    ghost size = { disk_size };

    ghost tells = { ⊥ };

    ghost contents = { λ _. [] };

    ghost is_durable = { λ _. ⊥ };

    ghost faults = { λ f. f.faults };

    fn open(&mut self) -> Result<bool, FileFault> {
        if self.file.is_some() {
            return Ok(true);
        }
        // What somebody else made meanwhile is left alone: `create` refuses it.
        if self.missing {
            return Ok(false);
        }
        match access::open_locked(&self.runtime, self.path.as_str(), self.access) {
            Ok(Some(file)) => {
                self.file = Some(file);
                Ok(true)
            }
            Ok(None) => {
                self.missing = true;
                Ok(false)
            }
            Err(_) => Err(self.fault()),
        }
    }

    fn create(&mut self) -> Result<(), FileFault> {
        if self.access == Access::Read {
            return Err(self.fault());
        }
        match access::create_locked(&self.runtime, self.path.as_str()) {
            Ok(file) => {
                self.file = Some(file);
                self.missing = false;
                self.size = Some(0);
                Ok(())
            }
            Err(_) => {
                self.missing = false;
                Err(self.fault())
            }
        }
    }

    // The lock is kept until the file is gone, so that nobody else's is taken away.
    fn remove(&mut self) {
        let _ = access::remove(&self.runtime, self.path.as_str());
        self.file = None;
        self.missing = false;
        self.size = None;
    }

    // The system is asked once: no call but `set_len` changes the length.
    fn len(&mut self) -> Result<u64, FileFault> {
        if let Some(size) = self.size {
            return Ok(size);
        }
        let answer = match &self.file {
            Some(file) => file.metadata(),
            None => unreachable!(),
        };
        match answer {
            Ok(metadata) => {
                let size = metadata.len();
                self.size = Some(size);
                Ok(size)
            }
            Err(_) => Err(self.fault()),
        }
    }

    fn set_len(&mut self, count: u64) -> Result<(), SetLenError> {
        self.size = None;
        let answer = match &self.file {
            Some(file) => file.set_len(count),
            None => unreachable!(),
        };
        if self.checked(answer).is_err() {
            return Err(SetLenError::Failed);
        }
        self.size = Some(count);
        Ok(())
    }

    fn read_at(&mut self, at: u64, out: &mut [u8]) -> Result<(), FileFault> {
        let answer = match &self.file {
            Some(file) => file.read_exact_at(out, at),
            None => unreachable!(),
        };
        self.checked(answer)
    }

    fn write_at(&mut self, at: u64, bytes: &[u8]) -> Result<(), FileFault> {
        let answer = match &self.file {
            Some(file) => file.write_all_at(bytes, at),
            None => unreachable!(),
        };
        self.checked(answer)
    }

    fn sync(&mut self) -> Result<(), FileFault> {
        let answer = match &self.file {
            Some(file) => file.sync_all(),
            None => unreachable!(),
        };
        self.checked(answer)
    }

    ghost none = { λ _ untold _. absurd untold };

    ghost told = { λ _ untold _. absurd untold };
}
