// A zone in memory. Its memory is taken when it is made.
ghost use Rattle.std.specs.Prelude.{map, replicate, All, ◌≡◌, ◌+◌, ◌*◌, ◌/◌, ◌%◌, ◌≤◌, length, take, drop, IsTrue, IfOk};
ghost use Rattle.zone_image.specs.Image.{no_zone, is_valid};
ghost use Rattle.zone_image.specs.Changes.{blocks_in, zone_appended, zone_crashed, zones_crashed};
ghost use Rattle.zoned_device.specs.Memory.{zone_in, synced_buffer, IsBuffer};

use std::alloc::{AllocError, Global};
use zone_image::Geometry;

#[derive(Drop)]
pub(crate) struct ZoneBuffer {
    pub(crate) bytes: Vec<u8>,
    pub(crate) written: u32,
    pub(crate) kept: u32,
    pub(crate) sealed: bool,
}

impl ZoneBuffer {
    /// An empty zone with room for its capacity.
    pub(crate) fn new(alloc: Global, geometry: &Geometry) -> Result<Self, AllocError>
        requires { IsTrue (is_valid geometry.now) }
        ensures buffer { IfOk result (IsBuffer geometry.now) }
        ensures empty { IfOk result (λ b. zone_in geometry.now.block b ≡ no_zone) }
    {
        let room = geometry.capacity as usize * geometry.block as usize;
        Ok(ZoneBuffer {
            bytes: Vec::with_capacity(alloc, room)?,
            written: 0,
            kept: 0,
            sealed: false,
        })
    }

    /// Writes whole blocks at the end, and seals the zone once it is full.
    pub(crate) fn append(&mut self, geometry: &Geometry, bytes: &[u8])
        requires valid { IsTrue (is_valid geometry.now) }
        requires buffer { IsBuffer geometry.now self.old }
        requires whole { length bytes.now % geometry.now.block ≡ 0 }
        requires room { self.old.written + length bytes.now / geometry.now.block ≤ geometry.now.capacity }
        ensures buffer { IsBuffer geometry.now self.new }
        ensures zone { zone_in geometry.now.block self.new
            ≡ zone_appended geometry.now.capacity (blocks_in geometry.now bytes.now) (zone_in geometry.now.block self.old) }
    {
        let count = bytes.len() / geometry.block as usize;
        let _ = self.bytes.extend_from_slice(bytes);
        self.written += count as u32;
        self.sealed = self.sealed || self.written == geometry.capacity;
    }

    /// Empties the zone.
    pub(crate) fn reset(&mut self, geometry: &Geometry)
        requires { IsBuffer geometry.now self.old }
        ensures buffer { IsBuffer geometry.now self.new }
        ensures zone { zone_in geometry.now.block self.new ≡ no_zone }
    {
        self.bytes.clear();
        self.written = 0;
        self.kept = 0;
        self.sealed = false;
    }

    /// Puts other content in place of what is there.
    pub(crate) fn put(&mut self, geometry: &Geometry, bytes: &[u8], kept: u32, sealed: bool)
        requires valid { IsTrue (is_valid geometry.now) }
        requires buffer { IsBuffer geometry.now self.old }
        requires whole { length bytes.now % geometry.now.block ≡ 0 }
        requires room { length bytes.now / geometry.now.block ≤ geometry.now.capacity }
        requires durable { kept ≤ length bytes.now / geometry.now.block }
        ensures buffer { IsBuffer geometry.now self.new }
        ensures zone { zone_in geometry.now.block self.new
            ≡ record { blocks = blocks_in geometry.now bytes.now; kept = kept; sealed = sealed } }
    {
        let count = bytes.len() / geometry.block as usize;
        self.bytes.clear();
        let _ = self.bytes.extend_from_slice(bytes);
        self.written = count as u32;
        self.kept = kept;
        self.sealed = sealed;
    }

    /// Takes over the content of another buffer.
    pub(crate) fn copy_from(&mut self, geometry: &Geometry, other: &ZoneBuffer)
        requires valid { IsTrue (is_valid geometry.now) }
        requires buffer { IsBuffer geometry.now self.old }
        requires other { IsBuffer geometry.now other.now }
        ensures buffer { IsBuffer geometry.now self.new }
        ensures zone { zone_in geometry.now.block self.new ≡ zone_in geometry.now.block other.now }
    {
        self.bytes.clear();
        let _ = self.bytes.extend_from_slice(&other.bytes);
        self.written = other.written;
        self.kept = other.kept;
        self.sealed = other.sealed;
    }

    /// What a crash leaves that keeps so many blocks, and no fewer than the durable ones.
    pub(crate) fn crash(&mut self, geometry: &Geometry, keep: u32)
        requires valid { IsTrue (is_valid geometry.now) }
        requires buffer { IsBuffer geometry.now self.old }
        ensures buffer { IsBuffer geometry.now self.new }
        ensures zone { zone_in geometry.now.block self.new ≡ zone_crashed (zone_in geometry.now.block self.old) keep }
    {
        let left = self.written.min(self.kept.max(keep));
        self.bytes.truncate(left as usize * geometry.block as usize);
        self.written = left;
        self.kept = left;
    }

    /// Reads whole blocks from this block on.
    pub(crate) fn read(&self, geometry: &Geometry, block: u32, out: &mut [u8])
        requires buffer { IsBuffer geometry.now self.now }
        requires valid { IsTrue (is_valid geometry.now) }
        requires whole { length out.old % geometry.now.block ≡ 0 }
        requires written { block + length out.old / geometry.now.block ≤ self.now.written }
        ensures { out.new ≡ take (length out.old) (drop (block * geometry.now.block) self.now.bytes.items) }
    {
        let start = block as usize * geometry.block as usize;
        let end = start + out.len();
        let part = &self.bytes[start..end];
        out.copy_from_slice(part);
    }
}

/// The zones of a new device.
pub(crate) fn empty_zones(alloc: Global, geometry: &Geometry) -> Result<Vec<ZoneBuffer>, AllocError>
    requires { IsTrue (is_valid geometry.now) }
    ensures buffers { IfOk result (λ zones. All (IsBuffer geometry.now) zones.items) }
    ensures empty { IfOk result (λ zones. map (zone_in geometry.now.block) zones.items ≡ replicate geometry.now.zones no_zone) }
{
    let mut zones = Vec::with_capacity(alloc, geometry.zones as usize)?;
    for _zone in 0..geometry.zones {
        zones.push(ZoneBuffer::new(alloc, geometry)?)?;
    }
    Ok(zones)
}

/// Makes all blocks durable.
pub(crate) fn sync(zones: &mut [ZoneBuffer])
    ensures { zones.new ≡ map synced_buffer zones.old }
{
    for buffer in zones.iter_mut() {
        buffer.kept = buffer.written;
    }
}

/// Takes over the content of other zones, one by one.
pub(crate) fn copy_zones(geometry: &Geometry, zones: &mut [ZoneBuffer], others: &[ZoneBuffer])
    requires valid { IsTrue (is_valid geometry.now) }
    requires buffers { All (IsBuffer geometry.now) zones.old }
    requires others { All (IsBuffer geometry.now) others.now }
    requires count { length others.now ≡ length zones.old }
    ensures buffers { All (IsBuffer geometry.now) zones.new }
    ensures same { map (zone_in geometry.now.block) zones.new ≡ map (zone_in geometry.now.block) others.now }
{
    for i in 0..zones.len() {
        let zone = &mut zones[i];
        let other = &others[i];
        zone.copy_from(geometry, other);
    }
}

/// What a crash leaves of each zone that keeps so many of its blocks.
pub(crate) fn crash_zones(geometry: &Geometry, zones: &mut [ZoneBuffer], keep: &[u32])
    requires valid { IsTrue (is_valid geometry.now) }
    requires buffers { All (IsBuffer geometry.now) zones.old }
    requires count { length keep.now ≡ length zones.old }
    ensures buffers { All (IsBuffer geometry.now) zones.new }
    ensures left { map (zone_in geometry.now.block) zones.new ≡ zones_crashed (map (zone_in geometry.now.block) zones.old) keep.now }
{
    for i in 0..zones.len() {
        let zone = &mut zones[i];
        zone.crash(geometry, keep[i]);
    }
}
