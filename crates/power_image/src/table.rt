// What is known of the zones of an image file.
ghost use Rattle.std.specs.Prelude.{◌≡◌, ◌+◌, ◌<◌, ◌≤◌, length, map, IfOk};
ghost use Rattle.zone_image.specs.Infos.{is_active_info};
ghost use Rattle.image_backend.specs.Table.{slot_at, slot_info, slot_of, slot_appended, slot_finished, no_slot, with_slot, table_synced};
ghost use Rattle.power_image.specs.Table.{numbers_of, zone_kept, descriptor_in, with_descriptor, known_blank};
ghost use Rattle.power_image.specs.State.{same_seal, is_pending};

use crate::descriptor::{Descriptor, NO_DESCRIPTOR};
use std::alloc::{AllocError, Global};
use std::marker::Model;
use zone_image::{Geometry, ZoneInfo};

/// A zone: its written blocks, how many of them are known to be durable, and its seal.
#[derive(Clone, Copy)]
pub(crate) struct Zone {
    pub(crate) written: u32,
    pub(crate) kept: u32,
    pub(crate) sealed: bool,
}

/// An empty zone.
pub(crate) const NO_ZONE: Zone = Zone {
    written: 0,
    kept: 0,
    sealed: false,
};

impl Zone {
    /// A zone as its descriptor tells it.
    pub(crate) fn of(info: ZoneInfo) -> Zone
        ensures { numbers_of result ≡ slot_of info }
    {
        Zone {
            written: info.written,
            kept: info.written,
            sealed: info.sealed,
        }
    }

    /// The zone with so many blocks more. It is sealed once it has as many as its capacity.
    pub(crate) fn appended(self, capacity: u32, count: u32) -> Zone
        requires { self.written + count ≤ capacity }
        ensures { numbers_of result ≡ slot_appended capacity count (numbers_of self) }
    {
        let written = self.written + count;
        Zone {
            written,
            kept: self.kept,
            sealed: self.sealed || written == capacity,
        }
    }

    /// The zone, sealed.
    pub(crate) fn finished(self) -> Zone
        ensures { numbers_of result ≡ slot_finished (numbers_of self) }
    {
        Zone {
            written: self.written,
            kept: self.kept,
            sealed: true,
        }
    }

    /// Whether the zone has a block and isn't sealed.
    pub(crate) fn is_active(&self) -> bool
        ensures { result ≡ is_active_info (slot_info (numbers_of self.now)) }
    {
        self.written > 0 && !self.sealed
    }

    /// What is told of the zone.
    pub(crate) fn info(&self) -> ZoneInfo
        ensures { result ≡ slot_info (numbers_of self.now) }
    {
        ZoneInfo {
            written: self.written,
            sealed: self.sealed,
        }
    }
}

/// The numbers of each zone, and what its descriptor says.
#[derive(Drop)]
pub(crate) struct Table {
    geometry: Geometry,
    zones: Vec<Zone>,
    descriptors: Vec<Descriptor>,
}

impl Model for Table {
    ghost use Rattle.std.specs.Prelude.{map};
    ghost use Rattle.power_image.specs.Table.{Known, numbers_of};

    ghost Value = { Known };

    ghost view = { λ t. record { zones = record { geometry = t.geometry; slots = map numbers_of t.zones.items }; descriptors = t.descriptors.items } };
}

impl Table {
    /// The zones of a file, and its descriptors.
    pub(crate) fn new(geometry: Geometry, zones: Vec<Zone>, descriptors: Vec<Descriptor>) -> Table
        ensures { result ≡ record { zones = record { geometry = geometry; slots = map numbers_of zones.items }; descriptors = descriptors.items } }
    {
        Table {
            geometry,
            zones,
            descriptors,
        }
    }

    /// The zones of a new image.
    pub(crate) fn blank(alloc: Global, geometry: &Geometry) -> Result<Table, AllocError>
        ensures { IfOk result (λ t. t ≡ known_blank geometry.now) }
    {
        Ok(Table {
            geometry: *geometry,
            zones: vec![in alloc; NO_ZONE; geometry.zones as usize]?,
            descriptors: vec![in alloc; NO_DESCRIPTOR; geometry.zones as usize]?,
        })
    }

    pub(crate) fn geometry(&self) -> Geometry
        ensures { result ≡ self.now.zones.geometry }
    {
        self.geometry
    }

    /// A zone, by number.
    pub(crate) fn zone(&self, zone: u32) -> Zone
        requires { zone < length self.now.zones.slots }
        ensures { numbers_of result ≡ slot_at self.now.zones zone }
    {
        self.zones[zone as usize]
    }

    /// Takes other numbers for a zone.
    pub(crate) fn set_zone(&mut self, zone: u32, numbers: Zone)
        requires { zone < length self.old.zones.slots }
        ensures { self.new ≡ record self.old { zones = with_slot self.old.zones zone (numbers_of numbers) } }
    {
        self.zones[zone as usize] = numbers;
    }

    /// What the descriptor of a zone says.
    pub(crate) fn descriptor(&self, zone: u32) -> Descriptor
        requires { zone < length self.now.descriptors }
        ensures { result ≡ descriptor_in self.now zone }
    {
        self.descriptors[zone as usize]
    }

    /// The descriptor of a zone says something else.
    pub(crate) fn set_descriptor(&mut self, zone: u32, descriptor: Descriptor)
        requires { zone < length self.old.descriptors }
        ensures { self.new ≡ with_descriptor self.old zone descriptor }
    {
        self.descriptors[zone as usize] = descriptor;
    }

    /// Whether a zone's descriptor tells other numbers than the zone has.
    pub(crate) fn is_pending(&self, zone: u32) -> bool
        requires zone { zone < length self.now.zones.slots }
        requires descriptor { zone < length self.now.descriptors }
        ensures { result ≡ is_pending self.now zone }
    {
        let info = self.zone(zone).info();
        let told = self.descriptor(zone).counting.info();
        !(told.written == info.written && same_seal(told.sealed, info.sealed))
    }

    /// All blocks are durable.
    pub(crate) fn sync(&mut self)
        ensures { self.new ≡ record self.old { zones = table_synced self.old.zones } }
    {
        keep_all(&mut self.zones);
    }
}

// Whether two seals are the same.
fn same_seal(a: bool, b: bool) -> bool
    ensures { result ≡ same_seal a b }
{
    if a { b } else { !b }
}

// Makes all blocks of all zones durable.
fn keep_all(zones: &mut [Zone])
    ensures { zones.new ≡ map zone_kept zones.old }
{
    for zone in zones.iter_mut() {
        zone.kept = zone.written;
    }
}
