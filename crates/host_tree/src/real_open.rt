// Real files that are opened and created below a directory, of which no link is followed.
use crate::host_tree::HostError;
use crate::real_paths::{below, cause, is_inside, is_same, standing, stands_as_named};
use std::alloc::{Alloc, Global};
use std::fs;
use std::fs::{File, Metadata, OpenOptions};
use std::os::unix::fs::MetadataExt;
use std::rt::Files;

/// Opens a regular file for reading. Only real directories lie on the way to it.
pub(crate) fn open_file<R: Files<File = File> + Alloc + Clone + Drop>(
    runtime: &R,
    alloc: Global,
    dir: &str,
    path: &str,
) -> Result<File, HostError> {
    if !is_inside(path) {
        return Err(HostError::Fault);
    }
    for (at, _) in path.match_indices('/') {
        let folder = below(alloc, dir, &path[..at])?;
        if !is_folder(runtime, folder.as_str())? {
            return Err(HostError::Fault);
        }
    }
    let whole = below(alloc, dir, path)?;
    match standing(runtime, whole.as_str())? {
        Some(metadata) if metadata.is_file() => {
            let mut options = OpenOptions::new();
            options.read(true);
            opened_as(runtime, &options, whole.as_str(), &metadata)
        }
        _ => Err(HostError::Fault),
    }
}

// Whether a real directory stands there.
fn is_folder<R: Files>(runtime: &R, path: &str) -> Result<bool, HostError> {
    match standing(runtime, path)? {
        Some(metadata) => Ok(metadata.is_dir()),
        None => Ok(false),
    }
}

// Opens the file that this description is of, and no other that was put in its place.
fn opened_as<R: Files<File = File>>(
    runtime: &R,
    options: &OpenOptions,
    path: &str,
    metadata: &Metadata,
) -> Result<File, HostError> {
    let file = options.open(runtime, path).map_err(cause)?;
    let opened = file.metadata().map_err(cause)?;
    if !is_same(&opened, metadata) {
        return Err(HostError::Fault);
    }
    Ok(file)
}

/// Makes an empty file, the directory and all parents. A file that is there is emptied, unless it has other names too:
/// one of these may lie elsewhere, and its bytes would be gone there.
pub(crate) fn create_file<R: Files<File = File> + Alloc + Clone + Drop>(
    runtime: &R,
    alloc: Global,
    dir: &str,
    path: &str,
) -> Result<File, HostError> {
    if dir.is_empty() || !is_inside(path) {
        return Err(HostError::Fault);
    }
    fs::create_dir_all(runtime, dir).map_err(cause)?;
    for (at, _) in path.match_indices('/') {
        make_folder(runtime, alloc, dir, &path[..at])?;
    }
    let whole = below(alloc, dir, path)?;
    match standing(runtime, whole.as_str())? {
        None => File::create_new(runtime, whole.as_str()).map_err(cause),
        Some(metadata) => {
            has_its_name(runtime, alloc, dir, path)?;
            empty_file(runtime, whole.as_str(), &metadata)
        }
    }
}

// Makes a directory, unless a real one stands there by that very name.
fn make_folder<R: Files<File = File> + Alloc + Clone + Drop>(
    runtime: &R,
    alloc: Global,
    dir: &str,
    path: &str,
) -> Result<(), HostError> {
    let whole = below(alloc, dir, path)?;
    match standing(runtime, whole.as_str())? {
        None => fs::create_dir(runtime, whole.as_str()).map_err(cause),
        Some(metadata) if metadata.is_dir() => has_its_name(runtime, alloc, dir, path),
        Some(_) => Err(HostError::Fault),
    }
}

// Fails where the host lists what stands at a path by another name.
fn has_its_name<R: Files<File = File> + Alloc + Clone + Drop>(
    runtime: &R,
    alloc: Global,
    dir: &str,
    path: &str,
) -> Result<(), HostError> {
    match path.rsplit_once('/') {
        Some((folder, name)) => stands_as_named(runtime, below(alloc, dir, folder)?.as_str(), name),
        None => stands_as_named(runtime, dir, path),
    }
}

// Empties a regular file that has one name.
fn empty_file<R: Files<File = File>>(
    runtime: &R,
    path: &str,
    metadata: &Metadata,
) -> Result<File, HostError> {
    if !metadata.is_file() || metadata.nlink() != 1 {
        return Err(HostError::Fault);
    }
    let mut options = OpenOptions::new();
    options.write(true);
    let file = opened_as(runtime, &options, path, metadata)?;
    file.set_len(0).map_err(cause)?;
    Ok(file)
}
