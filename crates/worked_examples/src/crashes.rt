// What is written on the device, and what crashes leave of it.
use crate::machine::Machine;
use crate::texts::{number, quiet, said};
use std::alloc::{AllocError, Global};
use zone_image::ZoneInfo;
use zoned_device::{MemZones, ZonedDevice};

/// How many blocks a crash keeps of zone 0, 1 and 2, and of each other zone.
pub type Keep = [u32; 4];

// What a device of 32 zones tells of a zone, or that it is empty.
fn info_of(dev: &mut MemZones, zone: u32) -> ZoneInfo {
    let none = ZoneInfo {
        written: 0,
        sealed: false,
    };
    match dev.probe() {
        Ok(shape) => {
            if zone >= shape.zones {
                return none;
            }
            dev.report(zone).unwrap_or(none)
        }
        Err(_) => none,
    }
}

// The number of blocks in zone 0, 1 and 2, and in all others.
fn written(dev: &mut MemZones) -> Keep {
    let mut others: u32 = 0;
    for zone in 3..32 {
        others = others.wrapping_add(info_of(dev, zone).written);
    }
    let first = info_of(dev, 0).written;
    let second = info_of(dev, 1).written;
    let third = info_of(dev, 2).written;
    [first, second, third, others]
}

/// What a crash leaves of a device of 32 zones that keeps so many blocks; nothing of a device of another shape.
pub fn crashed(dev: &MemZones, keep: &Keep) -> Result<Option<MemZones>, AllocError> {
    let mut dev = dev.copy()?;
    match dev.probe() {
        Ok(shape) => {
            if shape.zones != 32 {
                return Ok(None);
            }
            let mut kept = [keep[3]; 32];
            kept[0] = keep[0];
            kept[1] = keep[1];
            kept[2] = keep[2];
            Ok(Some(dev.crash(&kept)))
        }
        Err(_) => Ok(None),
    }
}

// The number of blocks that are durable.
fn durable(dev: &MemZones) -> Result<Keep, AllocError> {
    match crashed(dev, &[0; 4])? {
        Some(mut least) => Ok(written(&mut least)),
        None => Ok([0; 4]),
    }
}

/// All that crashes may keep: of each of the zones 0, 1 and 2 its durable blocks, or more, up to all, and none or all of what isn't
/// durable elsewhere. The first choice keeps least.
pub fn choices(alloc: Global, dev: &MemZones) -> Result<Vec<Keep>, AllocError> {
    let most = written(&mut dev.copy()?);
    let least = durable(dev)?;
    let mut choices = Vec::new(alloc);
    push_choices(&mut choices, &least, &most, 0)?;
    if most[3] != least[3] {
        push_choices(&mut choices, &least, &most, 16)?;
    }
    Ok(choices)
}

// Adds all choices that keep so many blocks of other zones.
fn push_choices(
    choices: &mut Vec<Keep>,
    least: &Keep,
    most: &Keep,
    others: u32,
) -> Result<(), AllocError> {
    for first in least[0]..=most[0] {
        for second in least[1]..=most[1] {
            for third in least[2]..=most[2] {
                choices.push([first, second, third, others])?;
            }
        }
    }
    Ok(())
}

/// Shows the numbers of blocks in these zones.
pub fn show_blocks(
    alloc: Global,
    machine: &mut Machine,
    words: &str,
) -> Result<String, AllocError> {
    let mut text = String::new(alloc);
    if let Some(dev) = &mut machine.dev {
        for word in words.split_whitespace() {
            let blocks = info_of(dev, number(word)).written;
            push_word(alloc, &mut text, format!(in alloc; "{blocks}")?.as_str())?;
        }
    }
    said(alloc, text.as_str())
}

/// Shows which of these zones are sealed.
pub fn show_seals(alloc: Global, machine: &mut Machine, words: &str) -> Result<String, AllocError> {
    let mut text = String::new(alloc);
    if let Some(dev) = &mut machine.dev {
        for word in words.split_whitespace() {
            let sealed = info_of(dev, number(word)).sealed;
            push_word(alloc, &mut text, if sealed { "sealed" } else { "open" })?;
        }
    }
    said(alloc, text.as_str())
}

/// Shows nothing if a zone has no more blocks.
pub fn show_within(
    alloc: Global,
    machine: &mut Machine,
    words: &str,
) -> Result<String, AllocError> {
    let (zone, most) = words.split_once(' ').unwrap_or((words, "0"));
    let Some(dev) = &mut machine.dev else {
        return said(alloc, "no device");
    };
    let blocks = info_of(dev, number(zone)).written;
    if blocks <= number(most) {
        return quiet(alloc);
    }
    format!(in alloc; "{blocks} blocks\n")
}

// Adds a word to a text, behind a space where it isn't the first.
fn push_word(_alloc: Global, text: &mut String, word: &str) -> Result<(), AllocError> {
    if !text.is_empty() {
        text.push_str(" ")?;
    }
    text.push_str(word)
}

/// Leaves of the device what a crash leaves: `all`, `none`, or so many blocks of the zones 0, 1 and 2 and all of the others.
pub fn crash(alloc: Global, machine: &mut Machine, words: &str) -> Result<String, AllocError> {
    let keep = match words {
        "all" => [16; 4],
        "none" => [0; 4],
        _ => keep_of(words),
    };
    match machine.dev.take() {
        Some(dev) => {
            machine.dev = crashed(&dev, &keep)?;
            quiet(alloc)
        }
        None => said(alloc, "no device"),
    }
}

// The numbers of blocks that are kept of the zones 0, 1 and 2.
fn keep_of(words: &str) -> Keep {
    let mut keep = [16; 4];
    let mut zone: usize = 0;
    for word in words.split_whitespace() {
        if zone < 3 {
            keep[zone] = number(word);
            zone += 1;
        }
    }
    keep
}

/// Empties a zone.
pub fn reset_zone(alloc: Global, machine: &mut Machine, zone: u32) -> Result<String, AllocError> {
    match &mut machine.dev {
        Some(dev) => {
            if reset(dev, zone) {
                quiet(alloc)
            } else {
                said(alloc, "not reset")
            }
        }
        None => said(alloc, "no device"),
    }
}

// Empties a zone; whether that is done.
fn reset(dev: &mut MemZones, zone: u32) -> bool {
    match dev.probe() {
        Ok(shape) => zone < shape.zones && dev.reset(zone).is_ok(),
        Err(_) => false,
    }
}
