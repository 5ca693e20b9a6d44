// The file in memory under a device.
use crate::machine::{Device, Machine};
use crate::texts::{bytes_of, number, quiet, said};
use image_backend::{ImageZones, MemFile};
use std::alloc::{AllocError, Global};

/// Looks at the file under the device, or does something with it.
pub fn file_step(
    alloc: Global,
    machine: &mut Machine,
    word: &str,
    rest: &str,
) -> Result<String, AllocError> {
    match machine.device.take() {
        Some(Device::Image(dev)) => step_over(alloc, machine, word, rest, dev.into_file()),
        _ => said(alloc, "no file"),
    }
}

// Does something with a file, over which another device stands then.
fn step_over(
    alloc: Global,
    machine: &mut Machine,
    word: &str,
    rest: &str,
    file: MemFile,
) -> Result<String, AllocError> {
    let shown = match word {
        "length" => show_length(alloc, &file)?,
        "bytes" => show_bytes(alloc, &file, rest)?,
        _ => quiet(alloc)?,
    };
    let left = if word == "set" {
        changed(alloc, &file, rest)?
    } else {
        file
    };
    machine.device = Some(Device::Image(ImageZones::new(alloc, left)));
    Ok(shown)
}

// Shows the file's length.
fn show_length(alloc: Global, file: &MemFile) -> Result<String, AllocError> {
    let length = file.bytes().len();
    format!(in alloc; "{length} bytes\n")
}

// Shows so many bytes from an offset on.
fn show_bytes(alloc: Global, file: &MemFile, rest: &str) -> Result<String, AllocError> {
    let (at, count) = rest.split_once(' ').unwrap_or((rest, "1"));
    let mut text = String::new(alloc);
    for byte in file
        .bytes()
        .iter()
        .skip(number(at) as usize)
        .take(number(count) as usize)
    {
        let shown = format!(in alloc; "{byte} ")?;
        text.push_str(shown.as_str())?;
    }
    said(alloc, text.as_str().trim_end())
}

// A file with other bytes from an offset on.
fn changed(alloc: Global, file: &MemFile, rest: &str) -> Result<MemFile, AllocError> {
    let (at, listed) = rest.split_once(' ').unwrap_or((rest, ""));
    let piece = bytes_of(alloc, listed)?;
    let mut bytes = Vec::from_slice(alloc, file.bytes())?;
    for (place, byte) in bytes
        .iter_mut()
        .skip(number(at) as usize)
        .zip(piece.as_slice())
    {
        *place = *byte;
    }
    Ok(MemFile::new(bytes, Vec::new(alloc)))
}
