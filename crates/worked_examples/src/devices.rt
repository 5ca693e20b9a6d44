// Devices in memory: empty ones, kept ones, and ones that are written by hand.
use crate::machine::{Machine, Saved};
use crate::texts::{number, number64, quiet, said};
use std::alloc::{AllocError, Global};
use zone_image::Geometry;
use zoned_device::{Failing, MemZones};

/// 32 zones of 16 blocks of 512 bytes, of which 6 may be active.
pub const SHAPE: Geometry = Geometry {
    block: 512,
    zone_blocks: 16,
    capacity: 16,
    zones: 32,
    active_limit: 6,
};

// The shape, but that three zones may be active.
const NARROW: Geometry = Geometry {
    active_limit: 3,
    ..SHAPE
};

/// Makes a device on which all zones are empty.
pub fn make_empty(alloc: Global, machine: &mut Machine) -> Result<String, AllocError> {
    machine.dev = Some(MemZones::new(alloc, SHAPE, Vec::new(alloc))?);
    quiet(alloc)
}

/// Makes a device on which no image is.
pub fn make_blank(alloc: Global, machine: &mut Machine) -> Result<String, AllocError> {
    machine.dev = Some(MemZones::blank(alloc, Vec::new(alloc)));
    quiet(alloc)
}

/// Lets the call of this number fail, or the one so many calls behind the noted ones, behind so much of it.
pub fn set_fail(alloc: Global, machine: &mut Machine, words: &str) -> Result<String, AllocError> {
    let (call, part) = words.split_once(' ').unwrap_or((words, "0"));
    let call = match call.strip_prefix("+") {
        Some(more) => machine.calls.wrapping_add(number64(more)),
        None => number64(call),
    };
    let mut fails = Vec::new(alloc);
    fails.push(Failing {
        call,
        part: number(part),
    })?;
    if let Some(dev) = &mut machine.dev {
        dev.set_fails(fails);
    }
    quiet(alloc)
}

/// Keeps a copy of the device under a name.
pub fn save(alloc: Global, machine: &mut Machine, name: &str) -> Result<(), AllocError> {
    let name = String::from_str(alloc, name)?;
    if let Some(dev) = machine.copy()? {
        machine.saved.push(Saved { name, dev })?;
    }
    Ok(())
}

/// Keeps a copy of the device under a name, if the last step showed this and no device has the name.
pub fn save_if(alloc: Global, machine: &mut Machine, words: &str) -> Result<(), AllocError> {
    let Some((name, wanted)) = words.split_once(" if ") else {
        return save(alloc, machine, words);
    };
    if machine.answer.as_str().trim_end() == wanted && find(machine, name).is_none() {
        return save(alloc, machine, name);
    }
    Ok(())
}

// The place of a kept device.
fn find(machine: &Machine, name: &str) -> Option<usize> {
    machine
        .saved
        .iter()
        .position(|saved| saved.name.as_str() == name)
}

/// Takes a copy of a kept device.
pub fn take_saved(alloc: Global, machine: &mut Machine, name: &str) -> Result<String, AllocError> {
    let Some(at) = find(machine, name) else {
        return said(alloc, "no such device");
    };
    if let Some(saved) = machine.saved.get(at) {
        machine.dev = Some(saved.dev.copy()?);
    }
    quiet(alloc)
}

/// Makes a device whose zone 0 has the log, all of it durable.
pub fn put_log(alloc: Global, machine: &mut Machine) -> Result<String, AllocError> {
    let log = machine.log.as_slice();
    let mut dev = MemZones::new(alloc, SHAPE, Vec::new(alloc))?;
    match log.len() {
        1536 => dev.put(0, log, 3, false),
        2048 => dev.put(0, log, 4, false),
        _ => return said(alloc, "no such log"),
    }
    machine.dev = Some(dev);
    quiet(alloc)
}

/// Makes a device whose zones 0 and 1 have both logs, all of them durable.
pub fn put_logs(alloc: Global, machine: &mut Machine) -> Result<String, AllocError> {
    let first = machine.other.as_slice();
    let second = machine.log.as_slice();
    let dev = if first.len() == 1024 && second.len() == 1024 {
        two_short(alloc, first, second)?
    } else if first.len() == 1536 && second.len() == 1536 {
        two_long(alloc, first, second)?
    } else {
        return said(alloc, "no such logs");
    };
    machine.dev = Some(dev);
    quiet(alloc)
}

// A device with two blocks in each of the zones 0 and 1.
fn two_short(alloc: Global, first: &[u8], second: &[u8]) -> Result<MemZones, AllocError> {
    let mut dev = MemZones::new(alloc, SHAPE, Vec::new(alloc))?;
    if first.len() == 1024 && second.len() == 1024 {
        dev.put(0, first, 2, false);
        dev.put(1, second, 2, false);
    }
    Ok(dev)
}

// A device with three blocks in each of the zones 0 and 1.
fn two_long(alloc: Global, first: &[u8], second: &[u8]) -> Result<MemZones, AllocError> {
    let mut dev = MemZones::new(alloc, SHAPE, Vec::new(alloc))?;
    if first.len() == 1536 && second.len() == 1536 {
        dev.put(0, first, 3, false);
        dev.put(1, second, 3, false);
    }
    Ok(dev)
}

/// Makes a device with the log in zone 1, and with bytes in zones 3 and 4, all of it durable.
pub fn put_with_files(alloc: Global, machine: &mut Machine) -> Result<String, AllocError> {
    let log = machine.log.as_slice();
    if log.len() != 1536 {
        return said(alloc, "no such log");
    }
    let mut dev = MemZones::new(alloc, SHAPE, Vec::new(alloc))?;
    dev.put(1, log, 3, false);
    dev.put(3, &[1; 1024], 2, false);
    dev.put(4, &[2; 512], 1, false);
    machine.dev = Some(dev);
    quiet(alloc)
}

/// Makes a device whose three active zones have bytes, and no more may be active. The log in zone 1 is sealed.
pub fn put_all_active(alloc: Global, machine: &mut Machine) -> Result<String, AllocError> {
    let log = machine.log.as_slice();
    if log.len() != 1536 {
        return said(alloc, "no such log");
    }
    let mut dev = MemZones::new(alloc, NARROW, Vec::new(alloc))?;
    dev.put(1, log, 3, true);
    dev.put(3, &[1; 1024], 2, false);
    dev.put(4, &[2; 512], 1, false);
    dev.put(5, &[3; 512], 1, false);
    machine.dev = Some(dev);
    quiet(alloc)
}
