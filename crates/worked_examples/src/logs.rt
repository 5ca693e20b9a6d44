// Logs that are written by hand.
use crate::blocks::block_of;
use crate::machine::Machine;
use crate::texts::{hex_bytes, number, number64, option, quiet, said};
use meta_log::spell;
use std::alloc::{AllocError, Global};
use superblock_core::{AuxPath, Superblock, VersionText};

/// Begins a log without blocks; the one before it is the other one.
pub fn begin_log(alloc: Global, machine: &mut Machine) -> Result<String, AllocError> {
    machine.other = std::mem::replace(&mut machine.log, Vec::new(alloc));
    quiet(alloc)
}

// The superblock of these words: its identifier, its sequence and its number of zones, where they aren't 0, 1 and 32.
fn superblock(words: &str) -> Option<Superblock> {
    let aux_path = AuxPath::read("/aux")?;
    let version_text = VersionText::read("profile-2")?;
    Some(Superblock {
        id: u128::from(number64(option(words, "id").unwrap_or("0"))),
        sequence: number(option(words, "sequence").unwrap_or("1")),
        flags: 0,
        block: 512,
        zone_blocks: 16,
        zones: number(option(words, "zones").unwrap_or("32")),
        finish_threshold: 0,
        aux_path,
        version_text,
    })
}

// The bytes of a superblock of these words.
fn superblock_bytes(words: &str) -> Option<[u8; 512]> {
    let stated = superblock(words)?;
    if stated.flags > 1 {
        return None;
    }
    let mut bytes = [0; 512];
    stated.encode(&mut bytes);
    if let Some(version) = option(words, "version") {
        bytes[45] = (number(version) % 256) as u8;
    }
    Some(bytes)
}

/// Adds the record of a superblock to the log.
pub fn add_superblock(
    alloc: Global,
    machine: &mut Machine,
    words: &str,
) -> Result<String, AllocError> {
    match superblock_bytes(words) {
        Some(bytes) => add_record(alloc, machine, &bytes),
        None => said(alloc, "no superblock"),
    }
}

/// Adds the record of a payload to the log.
pub fn add_record(
    alloc: Global,
    machine: &mut Machine,
    payload: &[u8],
) -> Result<String, AllocError> {
    if payload.is_empty() || payload.len() > 512 {
        return said(alloc, "no such record");
    }
    let blocks = spell(alloc, payload, 512)?;
    machine.log.extend_from_slice(blocks.items())?;
    quiet(alloc)
}

/// Adds the record of a payload that is written in hexadecimal digits.
pub fn add_digits(alloc: Global, machine: &mut Machine, words: &str) -> Result<String, AllocError> {
    let payload = hex_bytes(alloc, words)?;
    add_record(alloc, machine, payload.as_slice())
}

/// Adds a block of the device to the log.
pub fn add_block(
    alloc: Global,
    machine: &mut Machine,
    zone: u32,
    block: u32,
) -> Result<String, AllocError> {
    let found = match &mut machine.dev {
        Some(dev) => block_of(dev, zone, block),
        None => None,
    };
    match found {
        Some(bytes) => {
            machine.log.extend_from_slice(&bytes)?;
            quiet(alloc)
        }
        None => said(alloc, "no such block"),
    }
}

/// Changes a byte of the log, and shows what it was.
pub fn set_byte(alloc: Global, machine: &mut Machine, words: &str) -> Result<String, AllocError> {
    let (at, value) = words.split_once(' ').unwrap_or((words, "0"));
    let at = number(at) as usize;
    if at >= machine.log.len() {
        return said(alloc, "no such byte");
    }
    let old = machine.log[at];
    machine.log[at] = (number(value) % 256) as u8;
    format!(in alloc; "{old}\n")
}
