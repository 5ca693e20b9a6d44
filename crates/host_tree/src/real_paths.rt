// Paths of real files below a directory. No link below the directory is followed.
use crate::host_tree::HostError;
use std::alloc::{Alloc, Global};
use std::fs::{File, Metadata};
use std::io::ErrorKind;
use std::os::unix::fs::MetadataExt;
use std::rt::Files;
use std::{fs, io};

/// What an error of the system is to a caller.
pub(crate) fn cause(error: io::Error) -> HostError {
    if error.kind() == ErrorKind::OutOfMemory {
        HostError::NoMemory
    } else {
        HostError::Fault
    }
}

/// The path of what stands below a directory; of the directory itself, where nothing is said of below. The directory
/// must have a name, since a path that began with a slash would lead elsewhere.
pub(crate) fn below(alloc: Global, dir: &str, path: &str) -> Result<String, HostError> {
    if dir.is_empty() {
        return Err(HostError::Fault);
    }
    let mut whole = String::from_str(alloc, dir)?;
    if !path.is_empty() {
        whole.push('/')?;
        whole.push_str(path)?;
    }
    Ok(whole)
}

/// Whether a path leads to one place below a directory: it isn't absolute, and has no part that is empty, `.` or `..`.
pub(crate) fn is_inside(path: &str) -> bool {
    path.split('/')
        .all(|part| !part.is_empty() && part != "." && part != "..")
}

/// What stands at a path, if anything does. A link isn't followed.
pub(crate) fn standing<R: Files>(runtime: &R, path: &str) -> Result<Option<Metadata>, HostError> {
    match fs::symlink_metadata(runtime, path) {
        Ok(metadata) => Ok(Some(metadata)),
        Err(error) if error.kind() == ErrorKind::NotFound => Ok(None),
        Err(error) => Err(cause(error)),
    }
}

/// Whether two descriptions are of one file.
pub(crate) fn is_same(first: &Metadata, second: &Metadata) -> bool {
    first.dev() == second.dev() && first.ino() == second.ino()
}

/// Fails where what stands at a path below a directory has another name there: the host takes the two as one, and one
/// file would replace the other.
pub(crate) fn stands_as_named<R: Files<File = File> + Alloc + Clone + Drop>(
    runtime: &R,
    dir: &str,
    name: &str,
) -> Result<(), HostError> {
    for entry in fs::read_dir(runtime, dir).map_err(cause)? {
        if entry.map_err(cause)?.file_name() == name {
            return Ok(());
        }
    }
    Err(HostError::Fault)
}
