// Blocks of the device.
use crate::machine::Machine;
use crate::texts::{push_hex, said};
use std::alloc::{AllocError, Global};
use zoned_device::{MemZones, ZonedDevice};

/// A block of 512 bytes of a zone, if the device has it.
pub fn block_of(dev: &mut MemZones, zone: u32, block: u32) -> Option<[u8; 512]> {
    let Ok(shape) = dev.probe() else {
        return None;
    };
    if shape.block != 512 || zone >= shape.zones {
        return None;
    }
    let Ok(info) = dev.report(zone) else {
        return None;
    };
    if block >= info.written {
        return None;
    }
    let mut bytes = [0; 512];
    match dev.read(zone, block, &mut bytes) {
        Ok(()) => Some(bytes),
        Err(_) => None,
    }
}

/// Shows the bytes of a block up to its last one that isn't 0, in hexadecimal digits.
pub fn show_block(
    alloc: Global,
    machine: &mut Machine,
    zone: u32,
    block: u32,
) -> Result<String, AllocError> {
    let found = match &mut machine.dev {
        Some(dev) => block_of(dev, zone, block),
        None => None,
    };
    match found {
        Some(bytes) => {
            let mut text = String::new(alloc);
            push_hex(&mut text, up_to_zeros(&bytes))?;
            said(alloc, text.as_str())
        }
        None => said(alloc, "no such block"),
    }
}

// The bytes of a block up to the last one that isn't 0.
fn up_to_zeros(bytes: &[u8; 512]) -> &[u8] {
    let mut end: usize = 0;
    for at in 0..512 {
        if bytes[at] != 0 {
            end = at + 1;
        }
    }
    if end > 512 { bytes } else { &bytes[..end] }
}

/// Shows the shape of the device.
pub fn show_shape(alloc: Global, machine: &mut Machine) -> Result<String, AllocError> {
    let Some(dev) = &mut machine.dev else {
        return said(alloc, "no device");
    };
    match dev.probe() {
        Ok(shape) => {
            let block = shape.block;
            let zone = shape.zone_blocks;
            let capacity = shape.capacity;
            let zones = shape.zones;
            let active = shape.active_limit;
            format!(in alloc;
                "block {block} zone {zone} capacity {capacity} zones {zones} active {active}\n"
            )
        }
        Err(_) => said(alloc, "no image"),
    }
}
