// How a file on a disk is opened, and who else may have it open meanwhile.
ghost use Rattle.std.specs.Prelude.{◌≡◌, ◌≢◌, ◌↔◌, None, true, IfOk, IsErr, IsErrAnd};
ghost use Rattle.std.specs.Fs.{new_options, with_create, with_read, with_write};
ghost use Rattle.std.specs.IoError.{error_kind};
ghost use Rattle.image_backend.specs.Accesses.{is_change};

use crate::byte_file::FileFault;
use std::alloc::Alloc;
use std::fs::{File, OpenOptions, TryLockError};
use std::io::ErrorKind;
use std::os::unix::fs::MetadataExt;
use std::rt::Files;
use std::{fs, io};

/// What is done with a file.
#[derive(Clone, Copy, Debug, PartialEq, Eq)]
pub enum Access {
    /// It is read, beside others that read it. It needn't be one that may be written.
    Read,
    /// It is read and written, and nobody else has it meanwhile.
    Change,
}

impl Access {
    /// Whether the file is written.
    fn is_change(self) -> bool
        ensures { result ≡ is_change self }
    {
        match self {
            Access::Read => false,
            Access::Change => true,
        }
    }

    // A file that is there is opened as it stands: none is made, and none is cut.
    fn options(self) -> OpenOptions
        ensures { result ≡ with_write (with_read new_options true) (is_change self) }
    {
        let mut options = OpenOptions::new();
        options.read(true).write(self.is_change());
        options
    }

    // Takes the lock on a file, without waiting for others that hold one.
    fn lock(self, file: &File) -> Result<(), TryLockError> {
        if self.is_change() {
            file.try_lock()
        } else {
            file.try_lock_shared()
        }
    }
}

/// Opens the file of a path and takes its lock, or answers None where none is there.
pub(crate) fn open_locked<R: Files<File = File>>(
    files: &R,
    path: &str,
    access: Access,
) -> Result<Option<File>, FileFault> {
    match there(access.options().open(files, path))? {
        Some(file) => {
            hold(&file, access)?;
            Ok(Some(file))
        }
        None => Ok(None),
    }
}

// A file, or None exactly where the system said that none is there. Any other error is a fault.
fn there(answer: io::Result<File>) -> Result<Option<File>, FileFault>
    ensures missing { IfOk result (λ file. (file ≡ None) ↔ IsErrAnd answer (λ e. error_kind e ≡ ErrorKind.NotFound)) }
    ensures fault { IsErrAnd answer (λ e. error_kind e ≢ ErrorKind.NotFound) ↔ IsErr result }
{
    match answer {
        Ok(file) => Ok(Some(file)),
        Err(error) if error.kind() == ErrorKind::NotFound => Ok(None),
        Err(_) => Err(FileFault),
    }
}

// Takes the lock on a file that was opened. Where it is to be changed, all that others left in it is made durable, so
// that what is read there is what a loss of power keeps.
fn hold(file: &File, access: Access) -> Result<(), FileFault> {
    access.lock(file).map_err(|_| FileFault)?;
    let metadata = file.metadata().map_err(|_| FileFault)?;
    // Whoever had the lock before may have taken the file away.
    if metadata.nlink() == 0 {
        return Err(FileFault);
    }
    if access.is_change() && metadata.len() > 0 {
        file.sync_all().map_err(|_| FileFault)?;
    }
    Ok(())
}

/// Makes an empty file where none is, and takes its lock. A link to a missing file is followed, and that file is made.
pub(crate) fn create_locked<R: Files<File = File>>(
    files: &R,
    path: &str,
) -> Result<File, FileFault> {
    let file = creation().open(files, path).map_err(|_| FileFault)?;
    hold(&file, Access::Change)?;
    let size = file.metadata().map_err(|_| FileFault)?.len();
    // Somebody else made a file of this name meanwhile.
    if size > 0 {
        return Err(FileFault);
    }
    Ok(file)
}

// A file is made where none is, and one that is there isn't cut.
fn creation() -> OpenOptions
    ensures { result ≡ with_create (with_write (with_read new_options true) true) true }
{
    let mut options = OpenOptions::new();
    options.read(true).write(true).create(true);
    options
}

/// Takes a file away; of a link, the file that it leads to.
pub(crate) fn remove<R: Files<File = File> + Alloc>(runtime: &R, path: &str) -> io::Result<()> {
    let target = fs::canonicalize(runtime, path)?;
    fs::remove_file(runtime, &target)
}
