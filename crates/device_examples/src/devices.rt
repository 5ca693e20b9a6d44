// Devices of each kind, and what becomes of them.
use crate::calls;
use crate::calls::SHAPE;
use crate::machine::{Device, Machine};
use crate::stop::{Stop, show_done, show_stop};
use crate::texts::{blocks_of, number, number64, numbers, quiet, said};
use image_backend::{ImageZones, MemFile};
use std::alloc::{AllocError, Global};
use zoned_device::{Failing, FuseZones, MemZones, SureZones};

/// Makes a device, or does something with the one that is there that isn't a call.
pub fn device_step(
    alloc: Global,
    machine: &mut Machine,
    word: &str,
    rest: &str,
) -> Result<String, AllocError> {
    match word {
        "memory" => make_memory(alloc, machine, rest),
        "blank" => make_blank(alloc, machine, rest),
        "sure" => make_sure(alloc, machine),
        "image" => make_image(alloc, machine, rest),
        "fuse" => fuse(alloc, machine, rest),
        "unfuse" => unfuse(alloc, machine),
        "fails" => set_fails(alloc, machine, rest),
        "crash" => crash(alloc, machine, number(rest)),
        "put" => put(alloc, machine, rest),
        _ => said(alloc, "no such step"),
    }
}

// The calls that are listed as NUMBER:PART, and the one of the round.
fn failing(alloc: Global, machine: &Machine, rest: &str) -> Result<Vec<Failing>, AllocError> {
    let mut fails = Vec::new(alloc);
    for word in rest.split_whitespace() {
        let (call, part) = word.split_once(':').unwrap_or((word, "0"));
        fails.push(Failing {
            call: number64(call),
            part: number(part),
        })?;
    }
    if let Some(round) = &machine.round {
        fails.push(Failing {
            call: round.call,
            part: round.part,
        })?;
    }
    Ok(fails)
}

// Makes an empty device in memory.
fn make_memory(alloc: Global, machine: &mut Machine, rest: &str) -> Result<String, AllocError> {
    let fails = failing(alloc, machine, rest)?;
    machine.device = Some(Device::Memory(MemZones::new(alloc, SHAPE, fails)?));
    quiet(alloc)
}

// Makes a device in memory on which no image is.
fn make_blank(alloc: Global, machine: &mut Machine, rest: &str) -> Result<String, AllocError> {
    let fails = failing(alloc, machine, rest)?;
    machine.device = Some(Device::Memory(MemZones::blank(alloc, fails)));
    quiet(alloc)
}

// Makes an empty device that doesn't fail.
fn make_sure(alloc: Global, machine: &mut Machine) -> Result<String, AllocError> {
    machine.device = Some(Device::Sure(SureZones::new(alloc, SHAPE)?));
    quiet(alloc)
}

// Makes a device over a file that is missing.
fn make_image(alloc: Global, machine: &mut Machine, rest: &str) -> Result<String, AllocError> {
    let mut fails = numbers(alloc, rest)?;
    if let Some(round) = &machine.round {
        fails.push(round.call)?;
    }
    let file = MemFile::none(alloc, fails);
    machine.device = Some(Device::Image(ImageZones::new(alloc, file)));
    quiet(alloc)
}

// Lets so many calls pass of a device in memory, or one less than the round's.
fn fuse(alloc: Global, machine: &mut Machine, rest: &str) -> Result<String, AllocError> {
    let passes = match &machine.round {
        Some(round) => round.call.wrapping_sub(1),
        None => number64(rest),
    };
    match machine.device.take() {
        Some(Device::Memory(dev)) => {
            machine.device = Some(Device::Fuse(FuseZones::new(dev, passes)));
            quiet(alloc)
        }
        _ => said(alloc, "no device in memory"),
    }
}

// Takes the fuse away.
fn unfuse(alloc: Global, machine: &mut Machine) -> Result<String, AllocError> {
    match machine.device.take() {
        Some(Device::Fuse(dev)) => {
            machine.device = Some(Device::Memory(dev.into_inner()));
            quiet(alloc)
        }
        _ => said(alloc, "no fuse"),
    }
}

// Gives a device in memory another list of failing calls.
fn set_fails(alloc: Global, machine: &mut Machine, rest: &str) -> Result<String, AllocError> {
    let mut fails = Vec::new(alloc);
    for word in rest.split_whitespace() {
        let (call, part) = word.split_once(':').unwrap_or((word, "0"));
        fails.push(Failing {
            call: number64(call),
            part: number(part),
        })?;
    }
    match &mut machine.device {
        Some(Device::Memory(dev)) => {
            dev.set_fails(fails);
            quiet(alloc)
        }
        _ => said(alloc, "no device in memory"),
    }
}

// Leaves what a crash leaves that keeps so many blocks of each zone.
fn crash(alloc: Global, machine: &mut Machine, keep: u32) -> Result<String, AllocError> {
    match left_by_crash(machine, keep) {
        Ok(dev) => {
            machine.device = Some(Device::Memory(dev));
            quiet(alloc)
        }
        Err(stop) => show_stop(alloc, stop),
    }
}

// What a crash leaves of a device in memory.
fn left_by_crash(machine: &Machine, keep: u32) -> Result<MemZones, Stop> {
    match &machine.device {
        Some(Device::Memory(dev)) => calls::crash(dev, keep),
        _ => Err(Stop::NoPlace),
    }
}

// Puts blocks into a zone, so many of them durable.
fn put(alloc: Global, machine: &mut Machine, rest: &str) -> Result<String, AllocError> {
    let (zone, behind) = rest.split_once(' ').unwrap_or((rest, ""));
    let (kept, bytes) = behind.split_once(' ').unwrap_or((behind, ""));
    let blocks = blocks_of(alloc, bytes)?;
    match &mut machine.device {
        Some(Device::Memory(dev)) => show_done(
            alloc,
            calls::put(dev, number(zone), blocks.as_slice(), number(kept)),
        ),
        _ => said(alloc, "no device in memory"),
    }
}
