// An image in memory, all of it taken when the image is made.
ghost use Rattle.std.specs.Prelude.{◌≡◌, ◌+◌, ◌/◌, ◌%◌, ◌<◌, ◌≤◌, false, length, IsTrue, IfOk};
ghost use Rattle.zone_image.specs.Image.{is_valid};
ghost use Rattle.zone_image.specs.Changes.{blocks_in, bytes_at, appended, finished, emptied, synced, blank, crashed, with_content};
ghost use Rattle.zone_image.specs.Infos.{info_at, infos_of, active_zones, IsValidImage};

use crate::zone_buffer::{self, ZoneBuffer};
use std::alloc::{AllocError, Global};
use std::marker::Model;
use zone_image::{Geometry, ZoneInfo};

#[derive(Drop)]
pub(crate) struct Memory {
    geometry: Geometry,
    zones: Vec<ZoneBuffer>,
}

impl Model for Memory {
    ghost use Rattle.zone_image.specs.Image.{Image};

    ghost Value = { Image };

    ghost use Rattle.zoned_device.specs.Memory.{image_in, IsMemory};

    ghost view = { λ m. image_in m.geometry m.zones.items };

    ghost invariant = { λ m. IsMemory m.geometry m.zones.items };
}

impl Memory {
    /// The zones of a new device.
    pub(crate) fn new(alloc: Global, geometry: &Geometry) -> Result<Self, AllocError>
        requires { IsTrue (is_valid geometry.now) }
        ensures { IfOk result (λ m. m ≡ blank geometry.now) }
    {
        Ok(Memory {
            geometry: *geometry,
            zones: zone_buffer::empty_zones(alloc, geometry)?,
        })
    }

    pub(crate) fn geometry(&self) -> Geometry
        ensures geometry { result ≡ self.now.geometry }
        ensures valid { IsValidImage self.now }
    {
        self.geometry
    }

    pub(crate) fn info(&self, zone: u32) -> ZoneInfo
        requires { zone < self.now.geometry.zones }
        ensures { result ≡ info_at (infos_of self.now) zone }
    {
        let buffer = &self.zones[zone as usize];
        ZoneInfo {
            written: buffer.written,
            sealed: buffer.sealed,
        }
    }

    /// Reads whole written blocks of a zone.
    pub(crate) fn read(&self, zone: u32, block: u32, out: &mut [u8])
        requires is_zone { zone < self.now.geometry.zones }
        requires whole { length out.old % self.now.geometry.block ≡ 0 }
        requires written { block + length out.old / self.now.geometry.block ≤ (info_at (infos_of self.now) zone).written }
        ensures { out.new ≡ bytes_at self.now zone block (length out.old / self.now.geometry.block) }
    {
        let buffer = &self.zones[zone as usize];
        buffer.read(&self.geometry, block, out);
    }

    /// Writes whole blocks at the end of a zone.
    pub(crate) fn append(&mut self, zone: u32, bytes: &[u8])
        requires is_zone { zone < self.old.geometry.zones }
        requires whole { length bytes.now % self.old.geometry.block ≡ 0 }
        requires unsealed { (info_at (infos_of self.old) zone).sealed ≡ false }
        requires room { (info_at (infos_of self.old) zone).written + length bytes.now / self.old.geometry.block
            ≤ self.old.geometry.capacity }
        requires active { (info_at (infos_of self.old) zone).written ≡ 0
            → active_zones (infos_of self.old) < self.old.geometry.active_limit }
        ensures { self.new ≡ appended self.old zone (blocks_in self.old.geometry bytes.now) }
    {
        let buffer = &mut self.zones[zone as usize];
        buffer.append(&self.geometry, bytes);
    }

    /// Seals a zone.
    pub(crate) fn finish(&mut self, zone: u32)
        requires { zone < self.old.geometry.zones }
        ensures { self.new ≡ finished self.old zone }
    {
        let buffer = &mut self.zones[zone as usize];
        buffer.sealed = true;
    }

    /// Empties a zone.
    pub(crate) fn reset(&mut self, zone: u32)
        requires { zone < self.old.geometry.zones }
        ensures { self.new ≡ emptied self.old zone }
    {
        let buffer = &mut self.zones[zone as usize];
        buffer.reset(&self.geometry);
    }

    /// Makes all blocks durable.
    pub(crate) fn sync(&mut self)
        ensures { self.new ≡ synced self.old }
    {
        zone_buffer::sync(&mut self.zones);
    }

    /// Puts other content in a zone.
    pub(crate) fn put(&mut self, zone: u32, bytes: &[u8], kept: u32, sealed: bool)
        requires is_zone { zone < self.old.geometry.zones }
        requires whole { length bytes.now % self.old.geometry.block ≡ 0 }
        requires room { length bytes.now / self.old.geometry.block ≤ self.old.geometry.capacity }
        requires durable { kept ≤ length bytes.now / self.old.geometry.block }
        requires full { length bytes.now / self.old.geometry.block ≡ self.old.geometry.capacity → IsTrue sealed }
        requires active { active_zones (infos_of (with_content self.old zone (blocks_in self.old.geometry bytes.now) kept sealed))
            ≤ self.old.geometry.active_limit }
        ensures { self.new ≡ with_content self.old zone (blocks_in self.old.geometry bytes.now) kept sealed }
    {
        let buffer = &mut self.zones[zone as usize];
        buffer.put(&self.geometry, bytes, kept, sealed);
    }

    /// Takes over the content of another image of this geometry.
    pub(crate) fn copy_from(&mut self, other: &Memory)
        requires { other.now.geometry ≡ self.old.geometry }
        ensures { self.new ≡ other.now }
    {
        zone_buffer::copy_zones(&self.geometry, &mut self.zones, &other.zones);
    }

    /// What a crash leaves that keeps so many blocks of each zone.
    pub(crate) fn crash(&mut self, keep: &[u32])
        requires { length keep.now ≡ self.old.geometry.zones }
        ensures { self.new ≡ crashed self.old keep.now }
    {
        zone_buffer::crash_zones(&self.geometry, &mut self.zones, keep);
    }
}
