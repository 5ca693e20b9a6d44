// What is mounted, and what is shown of it.
use crate::machine::Machine;
use crate::texts::{push_bytes, quiet, said, verdict};
use fs_core::{Fs, MountError};
use fs_model::FsError;
use record_model::Name;
use std::alloc::{AllocError, Global};
use zoned_device::{FuseZones, MemZones};

/// Mounts the device.
pub fn mount(alloc: Global, machine: &mut Machine) -> Result<String, AllocError> {
    match machine.dev.take() {
        Some(dev) => mount_it(alloc, machine, dev),
        None => said(alloc, "no device"),
    }
}

// Mounts this device.
fn mount_it(alloc: Global, machine: &mut Machine, dev: MemZones) -> Result<String, AllocError> {
    match Fs::mount(alloc, machine.fused(dev)) {
        Ok(fs) => {
            machine.fs = Some(fs);
            quiet(alloc)
        }
        Err(refused) => {
            machine.dev = Some(refused.dev.into_inner());
            if matches!(refused.why, MountError::DevFault) {
                machine.note_fault();
            }
            said(alloc, "not mounted")
        }
    }
}

/// Lets the mounted file system write.
pub fn mount_write(alloc: Global, machine: &mut Machine) -> Result<String, AllocError> {
    let Some(fs) = &mut machine.fs else {
        return said(alloc, "not mounted");
    };
    if fs.writing() {
        return said(alloc, "it writes already");
    }
    let answer = fs.mount_write(alloc);
    done(alloc, machine, answer)
}

/// What is shown of a change, and whether the device failed.
pub fn done(
    alloc: Global,
    machine: &mut Machine,
    answer: Result<(), FsError>,
) -> Result<String, AllocError> {
    match answer {
        Ok(()) => quiet(alloc),
        Err(error) => refused(alloc, machine, error),
    }
}

/// What is shown of a change that isn't made.
pub fn refused(alloc: Global, machine: &mut Machine, error: FsError) -> Result<String, AllocError> {
    if error == FsError::DevFault {
        machine.note_fault();
    }
    format!(in alloc; "{error}\n")
}

/// Notes how many calls of the device were made.
pub fn note_calls(alloc: Global, machine: &mut Machine) -> Result<String, AllocError> {
    if let Some(fs) = &machine.fs {
        machine.calls = fs.tick();
    }
    quiet(alloc)
}

/// Shows the files in the order of their ids, each with each of its names.
pub fn show_files(alloc: Global, machine: &mut Machine) -> Result<String, AllocError> {
    let mut text = String::new(alloc);
    let Some(fs) = &machine.fs else {
        return said(alloc, "not mounted");
    };
    for id in 0..20 {
        if let Some(file) = fs.files().file(id) {
            for name in file.names.items() {
                push_file(alloc, &mut text, id, name)?;
            }
        }
    }
    if fs.files().next_id(20).is_some() {
        text.push_str("and more\n")?;
    }
    if text.is_empty() {
        return said(alloc, "no files");
    }
    Ok(text)
}

// Adds the line of a name of a file.
fn push_file(alloc: Global, text: &mut String, id: u64, name: &Name) -> Result<(), AllocError> {
    text.push_str(format!(in alloc; "{id} ")?.as_str())?;
    push_bytes(text, name.items())?;
    text.push_str("\n")
}

/// Shows of each name the id of its file and the sum of the first 1,000 bytes, or that no file has it.
pub fn show_names(alloc: Global, machine: &mut Machine, words: &str) -> Result<String, AllocError> {
    let mut text = String::new(alloc);
    for word in words.split_whitespace() {
        if !text.is_empty() {
            text.push_str(", ")?;
        }
        text.push_str(word)?;
        text.push_str(show_name(alloc, machine, word)?.as_str())?;
    }
    text.push_str("\n")?;
    Ok(text)
}

// What is shown of a name.
fn show_name(alloc: Global, machine: &mut Machine, word: &str) -> Result<String, AllocError> {
    let Some(fs) = &mut machine.fs else {
        return String::from_str(alloc, " is not mounted");
    };
    match Name::read(alloc, word) {
        Ok(name) => shown(alloc, fs, &name),
        Err(_) => String::from_str(alloc, " is no name"),
    }
}

// The id of the file of a name, and the sum of its bytes.
fn shown(alloc: Global, fs: &mut Fs<FuseZones>, name: &Name) -> Result<String, AllocError> {
    let Some(id) = fs.files().find(name) else {
        return String::from_str(alloc, " none");
    };
    match sum_of(fs, name) {
        Some(sum) => format!(in alloc; " {id} {sum}"),
        None => String::from_str(alloc, " is not read"),
    }
}

// The sum of the first 1,000 bytes of a file.
fn sum_of(fs: &mut Fs<FuseZones>, name: &Name) -> Option<u64> {
    let mut out = [0u8; 1000];
    if fs.read(name, 0, &mut out).is_err() {
        return None;
    }
    Some(added(&out))
}

// The sum of bytes.
fn added(bytes: &[u8]) -> u64 {
    let mut sum: u64 = 0;
    for byte in bytes {
        sum = sum.wrapping_add(u64::from(*byte));
    }
    sum
}

/// Shows the zone of the log and its sequence.
pub fn show_log(alloc: Global, machine: &mut Machine) -> Result<String, AllocError> {
    let Some(fs) = &machine.fs else {
        return said(alloc, "not mounted");
    };
    let zone = fs.log().zone;
    let sequence = fs.superblock().sequence;
    format!(in alloc; "zone {zone} sequence {sequence}\n")
}

/// Shows whether the log takes an end.
pub fn show_end(alloc: Global, machine: &mut Machine) -> Result<String, AllocError> {
    let Some(fs) = &machine.fs else {
        return said(alloc, "not mounted");
    };
    verdict(alloc, fs.log().can_end)
}

/// Shows whether the greatest sequence of the logs is above a number.
pub fn show_above(alloc: Global, machine: &mut Machine, least: u32) -> Result<String, AllocError> {
    let Some(fs) = &machine.fs else {
        return said(alloc, "not mounted");
    };
    verdict(alloc, fs.log().greatest > least)
}
