// What a call of a device shows.
use crate::calls::{self, NARROW, SHAPE};
use crate::stop::{Stop, show_done, show_stop};
use crate::texts::{blocks_of, number, said};
use std::alloc::{AllocError, Global};
use zone_image::ZoneInfo;
use zoned_device::ZonedDevice;

/// Does a call of a device, and shows what it answers.
pub fn show_call<D: ZonedDevice>(
    alloc: Global,
    dev: &mut D,
    word: &str,
    rest: &str,
) -> Result<String, AllocError> {
    match word {
        "probe" => show_shape(alloc, dev),
        "make" => show_done(alloc, make(dev, rest)),
        "report" => show_zone(alloc, dev, number(rest)),
        "read" => show_byte(alloc, dev, rest),
        "append" => show_append(alloc, dev, rest),
        "finish" => show_done(alloc, calls::finish(dev, number(rest))),
        "reset" => show_done(alloc, calls::reset(dev, number(rest))),
        "sync" => show_done(alloc, calls::sync(dev)),
        "counts" => show_counts(alloc, dev),
        _ => said(alloc, "no such step"),
    }
}

// Makes an image.
fn make<D: ZonedDevice>(dev: &mut D, rest: &str) -> Result<(), Stop> {
    if rest == "narrow" {
        Ok(dev.make(&NARROW)?)
    } else {
        Ok(dev.make(&SHAPE)?)
    }
}

// Shows the shape of a device.
fn show_shape<D: ZonedDevice>(alloc: Global, dev: &mut D) -> Result<String, AllocError> {
    match dev.probe() {
        Ok(shape) => {
            let block = shape.block;
            let zones = shape.zones;
            let capacity = shape.capacity;
            let active = shape.active_limit;
            format!(in alloc; "{zones} zones of {capacity} blocks of {block}, {active} active\n")
        }
        Err(error) => show_stop(alloc, Stop::from(error)),
    }
}

// Shows how many blocks a zone has, and whether it is sealed.
fn show_zone<D: ZonedDevice>(alloc: Global, dev: &mut D, zone: u32) -> Result<String, AllocError> {
    match calls::report(dev, zone) {
        Ok(info) => show_info(alloc, info),
        Err(stop) => show_stop(alloc, stop),
    }
}

// Shows how many blocks there are, and a seal.
fn show_info(alloc: Global, info: ZoneInfo) -> Result<String, AllocError> {
    let written = info.written;
    if info.sealed {
        format!(in alloc; "{written} sealed\n")
    } else {
        format!(in alloc; "{written}\n")
    }
}

// Shows the first byte of a block.
fn show_byte<D: ZonedDevice>(alloc: Global, dev: &mut D, rest: &str) -> Result<String, AllocError> {
    let (zone, at) = rest.split_once(' ').unwrap_or((rest, "0"));
    match calls::read(dev, number(zone), number(at)) {
        Ok(byte) => format!(in alloc; "{byte}\n"),
        Err(stop) => show_stop(alloc, stop),
    }
}

// Appends blocks, each of one byte, and shows the number of the first.
fn show_append<D: ZonedDevice>(
    alloc: Global,
    dev: &mut D,
    rest: &str,
) -> Result<String, AllocError> {
    let (zone, bytes) = rest.split_once(' ').unwrap_or((rest, ""));
    let blocks = blocks_of(alloc, bytes)?;
    match calls::append(dev, number(zone), blocks.as_slice()) {
        Ok(first) => format!(in alloc; "{first}\n"),
        Err(stop) => show_stop(alloc, stop),
    }
}

// Shows how many calls there were, how many failed, and how many of these were changes.
fn show_counts<D: ZonedDevice>(alloc: Global, dev: &mut D) -> Result<String, AllocError> {
    let tick = dev.tick();
    let faults = dev.faults();
    let changes = dev.failed_changes();
    format!(in alloc; "{tick} calls, {faults} failed, {changes} of them changes\n")
}
