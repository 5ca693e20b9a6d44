// Changes of names of what is mounted.
use crate::machine::Machine;
use crate::mounts::{done, refused};
use crate::texts::{number, number64, option, said};
use fs_core::Fs;
use fs_model::FsError;
use record_model::Name;
use std::alloc::{AllocError, Global};
use zoned_device::FuseZones;

// A name, or none where the text breaks the rule of names.
fn name(alloc: Global, text: &str) -> Option<Name> {
    Name::read(alloc, text).ok()
}

/// Makes an empty file, and shows its id. The hint, the time and whether it is sparse may be stated.
pub fn create(alloc: Global, machine: &mut Machine, words: &str) -> Result<String, AllocError> {
    let (text, rest) = words.split_once(' ').unwrap_or((words, ""));
    let hint = number(option(rest, "hint").unwrap_or("0"));
    let time = number64(option(rest, "time").unwrap_or("1700000000"));
    let sparse = option(rest, "sparse").is_some();
    let Some(fs) = &mut machine.fs else {
        return said(alloc, "not mounted");
    };
    let answer = created(alloc, fs, text, hint, sparse, time);
    match answer {
        Ok(id) => format!(in alloc; "file {id}\n"),
        Err(error) => refused(alloc, machine, error),
    }
}

// Makes a file. A text that is no name shows as a file that is gone, and a mount that only reads as one in use: no change shows these.
fn created(
    alloc: Global,
    fs: &mut Fs<FuseZones>,
    text: &str,
    hint: u32,
    sparse: bool,
    time: u64,
) -> Result<u64, FsError> {
    let Some(name) = name(alloc, text) else {
        return Err(FsError::Gone);
    };
    if !fs.writing() || hint > 5 {
        return Err(FsError::InUse);
    }
    fs.create(alloc, name, hint, sparse, time)
}

/// Gives the file of a name another one besides.
pub fn link(alloc: Global, machine: &mut Machine, words: &str) -> Result<String, AllocError> {
    let Some(fs) = &mut machine.fs else {
        return said(alloc, "not mounted");
    };
    let answer = linked(alloc, fs, words);
    done(alloc, machine, answer)
}

// Gives the file of the first word the second one besides.
fn linked(alloc: Global, fs: &mut Fs<FuseZones>, words: &str) -> Result<(), FsError> {
    let (old, new) = words.split_once(' ').unwrap_or((words, ""));
    let Some(old) = name(alloc, old) else {
        return Err(FsError::Gone);
    };
    let Some(new) = name(alloc, new) else {
        return Err(FsError::Gone);
    };
    if !fs.writing() {
        return Err(FsError::InUse);
    }
    fs.link(alloc, &old, new)
}

/// Gives the file of a name another one in its place.
pub fn rename(alloc: Global, machine: &mut Machine, words: &str) -> Result<String, AllocError> {
    let Some(fs) = &mut machine.fs else {
        return said(alloc, "not mounted");
    };
    let answer = renamed(alloc, fs, words);
    done(alloc, machine, answer)
}

// Gives the file of the first word the second one in its place.
fn renamed(alloc: Global, fs: &mut Fs<FuseZones>, words: &str) -> Result<(), FsError> {
    let (old, new) = words.split_once(' ').unwrap_or((words, ""));
    let Some(old) = name(alloc, old) else {
        return Err(FsError::Gone);
    };
    let Some(new) = name(alloc, new) else {
        return Err(FsError::Gone);
    };
    if !fs.writing() {
        return Err(FsError::InUse);
    }
    fs.rename(alloc, &old, new)
}

/// Takes a name away.
pub fn delete(alloc: Global, machine: &mut Machine, word: &str) -> Result<String, AllocError> {
    let Some(fs) = &mut machine.fs else {
        return said(alloc, "not mounted");
    };
    let answer = deleted(alloc, fs, word);
    done(alloc, machine, answer)
}

// Takes a name away.
fn deleted(alloc: Global, fs: &mut Fs<FuseZones>, word: &str) -> Result<(), FsError> {
    let Some(old) = name(alloc, word) else {
        return Err(FsError::Gone);
    };
    if !fs.writing() {
        return Err(FsError::InUse);
    }
    fs.delete(alloc, &old)
}
