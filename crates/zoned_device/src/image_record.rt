// An image in memory with a record of how it came to be, so that each image that it passed is known.
ghost use Rattle.std.specs.Prelude.{◌≡◌, ◌+◌, ◌*◌, ◌/◌, ◌%◌, ◌<◌, ◌≤◌, false, length, nat_lt, nat_le, ◌&&◌, if◌then◌else◌, IsTrue, IfOk};
ghost use Rattle.zone_image.specs.Image.{is_valid};
ghost use Rattle.zone_image.specs.Changes.{blocks_in, blank, crashed, with_content};
ghost use Rattle.zone_image.specs.Infos.{info_at, infos_of, active_zones, IsValidImage};
ghost use Rattle.zoned_device.specs.Content.{Append, Finish, Reset, Sync, has_room, with_change, begun_with, most_changes, most_bytes};

use crate::memory::Memory;
use crate::step::{Kind, Step};
use std::alloc::{AllocError, Global};
use std::marker::Model;
use zone_image::Geometry;

const MOST_CHANGES: usize = 65536;

#[derive(Drop)]
pub(crate) struct Record {
    standing: Memory,
    start: Memory,
    steps: Vec<Step>,
    bytes: Vec<u8>,
}

impl Model for Record {
    ghost use Rattle.std.specs.Vec.{vec_capacity};
    ghost use Rattle.zoned_device.specs.Content.{Content};
    ghost use Rattle.zoned_device.specs.Record.{content_in, IsRecord};

    ghost Value = { Content };

    ghost view = { λ r. content_in r.standing r.start r.steps.items r.bytes.items };

    ghost invariant = { λ r. IsRecord r.standing r.start r.steps.items (vec_capacity r.steps) r.bytes.items (vec_capacity r.bytes) };
}

impl Record {
    /// A new image, on which all zones are empty.
    pub(crate) fn new(alloc: Global, geometry: &Geometry) -> Result<Self, AllocError>
        requires { IsTrue (is_valid geometry.now) }
        ensures { IfOk result (λ r. r ≡ begun_with (blank geometry.now)) }
    {
        Ok(Record {
            standing: Memory::new(alloc, geometry)?,
            start: Memory::new(alloc, geometry)?,
            steps: Vec::with_capacity(alloc, MOST_CHANGES)?,
            bytes: Vec::with_capacity(alloc, most_bytes(geometry))?,
        })
    }

    /// The image that stands.
    pub(crate) fn standing(&self) -> &Memory
        ensures { result.now ≡ self.now.standing }
    {
        &self.standing
    }

    /// Writes whole blocks at the end of a zone, unless there is no room to keep them.
    pub(crate) fn append(&mut self, tick: u64, zone: u32, bytes: &[u8]) -> bool
        requires is_zone { zone < self.old.standing.geometry.zones }
        requires whole { length bytes.now % self.old.standing.geometry.block ≡ 0 }
        requires unsealed { (info_at (infos_of self.old.standing) zone).sealed ≡ false }
        requires room { (info_at (infos_of self.old.standing) zone).written + length bytes.now / self.old.standing.geometry.block
            ≤ self.old.standing.geometry.capacity }
        requires active { (info_at (infos_of self.old.standing) zone).written ≡ 0
            → active_zones (infos_of self.old.standing) < self.old.standing.geometry.active_limit }
        ensures answer { result ≡ has_room self.old (Append zone (blocks_in self.old.standing.geometry bytes.now)) }
        ensures content { self.new ≡ (if result then with_change tick (Append zone (blocks_in self.old.standing.geometry bytes.now)) self.old else self.old) }
    {
        if !self.has_room(bytes.len()) {
            return false;
        }
        let from = self.bytes.len();
        let count = (bytes.len() / self.standing.geometry().block as usize) as u32;
        self.standing.append(zone, bytes);
        let _ = self.bytes.extend_from_slice(bytes);
        self.steps.push_reserved(Step {
            tick,
            zone,
            kind: Kind::Append { from, count },
        });
        true
    }

    /// Seals a zone, unless there is no room to keep that.
    pub(crate) fn finish(&mut self, tick: u64, zone: u32) -> bool
        requires { zone < self.old.standing.geometry.zones }
        ensures answer { result ≡ has_room self.old (Finish zone) }
        ensures content { self.new ≡ (if result then with_change tick (Finish zone) self.old else self.old) }
    {
        if !self.has_room(0) {
            return false;
        }
        self.standing.finish(zone);
        let kind = Kind::Finish;
        self.steps.push_reserved(Step { tick, zone, kind });
        true
    }

    /// Empties a zone, unless there is no room to keep that.
    pub(crate) fn reset(&mut self, tick: u64, zone: u32) -> bool
        requires { zone < self.old.standing.geometry.zones }
        ensures answer { result ≡ has_room self.old (Reset zone) }
        ensures content { self.new ≡ (if result then with_change tick (Reset zone) self.old else self.old) }
    {
        if !self.has_room(0) {
            return false;
        }
        self.standing.reset(zone);
        let kind = Kind::Reset;
        self.steps.push_reserved(Step { tick, zone, kind });
        true
    }

    /// Makes all blocks durable, unless there is no room to keep that.
    pub(crate) fn sync(&mut self, tick: u64) -> bool
        ensures answer { result ≡ has_room self.old Sync }
        ensures content { self.new ≡ (if result then with_change tick Sync self.old else self.old) }
    {
        if !self.has_room(0) {
            return false;
        }
        self.standing.sync();
        let kind = Kind::Sync;
        self.steps.push_reserved(Step {
            tick,
            zone: 0,
            kind,
        });
        true
    }

    /// Puts other content in a zone. The record begins anew.
    pub(crate) fn put(&mut self, zone: u32, bytes: &[u8], kept: u32, sealed: bool)
        requires is_zone { zone < self.old.standing.geometry.zones }
        requires whole { length bytes.now % self.old.standing.geometry.block ≡ 0 }
        requires room { length bytes.now / self.old.standing.geometry.block ≤ self.old.standing.geometry.capacity }
        requires durable { kept ≤ length bytes.now / self.old.standing.geometry.block }
        requires full { length bytes.now / self.old.standing.geometry.block ≡ self.old.standing.geometry.capacity → IsTrue sealed }
        requires active { active_zones (infos_of (with_content self.old.standing zone (blocks_in self.old.standing.geometry bytes.now) kept sealed))
            ≤ self.old.standing.geometry.active_limit }
        ensures { self.new ≡ begun_with (with_content self.old.standing zone (blocks_in self.old.standing.geometry bytes.now) kept sealed) }
    {
        self.standing.put(zone, bytes, kept, sealed);
        self.start.copy_from(&self.standing);
        self.steps.clear();
        self.bytes.clear();
    }

    /// What a crash leaves that keeps so many blocks of each zone. The record begins anew.
    pub(crate) fn crash(&mut self, keep: &[u32])
        requires { length keep.now ≡ self.old.standing.geometry.zones }
        ensures { self.new ≡ begun_with (crashed self.old.standing keep.now) }
    {
        self.standing.crash(keep);
        self.start.copy_from(&self.standing);
        self.steps.clear();
        self.bytes.clear();
    }

    /// The same image, with a record of its own that begins with it.
    pub(crate) fn copy(&self, alloc: Global) -> Result<Self, AllocError>
        ensures { IfOk result (λ r. r ≡ begun_with self.now.standing) }
    {
        let mut copy = Record::new(alloc, &self.standing.geometry())?;
        copy.standing.copy_from(&self.standing);
        copy.start.copy_from(&self.standing);
        Ok(copy)
    }

    // Whether there is room for one more change that writes so many bytes.
    fn has_room(&self, bytes: usize) -> bool
        ensures { result ≡ (nat_lt self.now.changes most_changes
            && nat_le (self.now.bytes + bytes) (most_bytes self.now.standing.geometry)) }
    {
        let limit = most_bytes(&self.standing.geometry());
        self.steps.len() < MOST_CHANGES && bytes <= limit - self.bytes.len()
    }
}

// The number of written bytes that a record has room for.
fn most_bytes(geometry: &Geometry) -> usize
    requires { IsTrue (is_valid geometry.now) }
    ensures { result ≡ most_bytes geometry.now }
{
    let zone_bytes = geometry.zone_blocks as usize * geometry.block as usize;
    4 * (geometry.zones as usize * zone_bytes)
}
