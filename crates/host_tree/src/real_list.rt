// The files below a real directory.
use crate::host_path::HostPath;
use crate::host_tree::HostError;
use crate::real_paths::{below, cause};
use std::alloc::{Alloc, Global};
use std::fs;
use std::fs::File;
use std::rt::Files;

// What was found below a directory, and what of it wasn't looked into yet.
#[derive(Drop)]
struct Walk {
    folders: Vec<String>,
    paths: Vec<HostPath>,
}

/// The relative paths of the regular files in a directory and in the real directories below it, in byte order.
pub(crate) fn files_below<R: Files<File = File> + Alloc + Clone + Drop>(
    runtime: &R,
    alloc: Global,
    dir: &str,
) -> Result<Vec<HostPath>, HostError> {
    let mut walk = Walk {
        folders: Vec::new(alloc),
        paths: Vec::new(alloc),
    };
    look_into(runtime, alloc, dir, "", &mut walk)?;
    for _ in 0..u64::MAX {
        match walk.folders.pop() {
            Some(folder) => look_into(runtime, alloc, dir, folder.as_str(), &mut walk)?,
            None => {
                walk.paths.sort_unstable();
                return Ok(walk.paths);
            }
        }
    }
    Err(HostError::Fault)
}

// Adds the files of one directory, and the directories in it. Links and whatever else stands there are left out.
fn look_into<R: Files<File = File> + Alloc + Clone + Drop>(
    runtime: &R,
    alloc: Global,
    dir: &str,
    folder: &str,
    walk: &mut Walk,
) -> Result<(), HostError> {
    let whole = below(alloc, dir, folder)?;
    for entry in fs::read_dir(runtime, whole.as_str()).map_err(cause)? {
        let entry = entry.map_err(cause)?;
        let kind = entry.file_type().map_err(cause)?;
        let path = inside(alloc, folder, entry.file_name())?;
        if kind.is_dir() {
            add_folder(walk, path)?;
        } else if kind.is_file() {
            add_path(walk, path)?;
        }
    }
    Ok(())
}

// The relative path of a name in a directory, of which the empty path is the topmost.
fn inside(alloc: Global, folder: &str, name: &str) -> Result<String, HostError> {
    if folder.is_empty() {
        return Ok(String::from_str(alloc, name)?);
    }
    below(alloc, folder, name)
}

fn add_folder(walk: &mut Walk, path: String) -> Result<(), HostError> {
    match walk.folders.push(path) {
        Ok(()) => Ok(()),
        Err(_) => Err(HostError::NoMemory),
    }
}

fn add_path(walk: &mut Walk, path: String) -> Result<(), HostError> {
    match walk.paths.push(HostPath::new(path)) {
        Ok(()) => Ok(()),
        Err(_) => Err(HostError::NoMemory),
    }
}
