// The calls of a device. Each looks first whether the device allows it.
ghost use Rattle.std.specs.Prelude.{◌≡◌, ◌≤◌, false};

use crate::stop::Stop;
use zone_image::{Geometry, ZoneInfo};
use zoned_device::{MemZones, ZonedDevice};

/// 32 zones of 8 blocks of 512 bytes, all of which may be active.
pub const SHAPE: Geometry = Geometry {
    block: 512,
    zone_blocks: 16,
    capacity: 8,
    zones: 32,
    active_limit: 32,
};

/// The shape, but that six zones may be active.
pub const NARROW: Geometry = Geometry {
    active_limit: 6,
    ..SHAPE
};

// Whether fewer zones may be active than there are.
fn is_narrow(geometry: &Geometry) -> bool
    ensures { result ≡ false → geometry.now.zones ≤ geometry.now.active_limit }
{
    geometry.active_limit < geometry.zones
}

/// Puts blocks in a zone, fewer than it has room for, so many of them durable.
pub fn put(dev: &mut MemZones, zone: u32, bytes: &[u8], kept: u32) -> Result<(), Stop> {
    let shape = dev.probe()?;
    if is_narrow(&shape) || shape.block != 512 || zone >= shape.zones {
        return Err(Stop::NoPlace);
    }
    let blocks = bytes.len() / 512;
    if bytes.len() % 512 != 0 || blocks >= shape.capacity as usize || kept as usize > blocks {
        return Err(Stop::NoPlace);
    }
    dev.put(zone, bytes, kept, false);
    Ok(())
}

/// Appends blocks to a zone that has room for them, and answers the first one's number.
pub fn append<D: ZonedDevice>(dev: &mut D, zone: u32, bytes: &[u8]) -> Result<u32, Stop> {
    let shape = dev.probe()?;
    if is_narrow(&shape) {
        return Err(Stop::NoPlace);
    }
    if zone >= shape.zones {
        return Err(Stop::NoPlace);
    }
    if shape.block != 512 || shape.capacity != 8 {
        return Err(Stop::NoPlace);
    }
    let info = dev.report(zone)?;
    let blocks = bytes.len() / 512;
    if bytes.len() % 512 != 0 || blocks == 0 {
        return Err(Stop::NoPlace);
    }
    if info.sealed || info.written > 8 || blocks > 8 - info.written as usize {
        return Err(Stop::NoPlace);
    }
    Ok(dev.append(zone, bytes)?)
}

/// The number of blocks in a zone, and its seal.
pub fn report<D: ZonedDevice>(dev: &mut D, zone: u32) -> Result<ZoneInfo, Stop> {
    let shape = dev.probe()?;
    if zone >= shape.zones {
        return Err(Stop::NoPlace);
    }
    Ok(dev.report(zone)?)
}

/// The first byte of a block of a zone.
pub fn read<D: ZonedDevice>(dev: &mut D, zone: u32, at: u32) -> Result<u8, Stop> {
    let shape = dev.probe()?;
    if shape != SHAPE || zone >= 32 {
        return Err(Stop::NoPlace);
    }
    if dev.report(zone)?.written <= at {
        return Err(Stop::NoPlace);
    }
    let mut block = [0; 512];
    dev.read(zone, at, &mut block)?;
    Ok(block[0])
}

/// Seals a zone.
pub fn finish<D: ZonedDevice>(dev: &mut D, zone: u32) -> Result<(), Stop> {
    let shape = dev.probe()?;
    if zone >= shape.zones {
        return Err(Stop::NoPlace);
    }
    Ok(dev.finish(zone)?)
}

/// Empties a zone.
pub fn reset<D: ZonedDevice>(dev: &mut D, zone: u32) -> Result<(), Stop> {
    let shape = dev.probe()?;
    if zone >= shape.zones {
        return Err(Stop::NoPlace);
    }
    Ok(dev.reset(zone)?)
}

/// Makes all blocks durable.
pub fn sync<D: ZonedDevice>(dev: &mut D) -> Result<(), Stop> {
    dev.probe()?;
    Ok(dev.sync()?)
}

/// What a crash leaves that keeps so many blocks of each zone.
pub fn crash(dev: &MemZones, keep: u32) -> Result<MemZones, Stop> {
    let Ok(mut dev) = dev.copy() else {
        return Err(Stop::NoMemory);
    };
    let shape = dev.probe()?;
    if shape.zones != 32 {
        return Err(Stop::NoPlace);
    }
    Ok(dev.crash(&[keep; 32]))
}
