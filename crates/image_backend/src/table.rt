// What is known of the zones of an image file.
ghost use Rattle.std.specs.Prelude.{◌≡◌, ◌+◌, ◌<◌, ◌≤◌, ◌||◌, nat_lt, length, map, IfOk};
ghost use Rattle.zone_image.specs.Infos.{is_active_info};
ghost use Rattle.image_backend.specs.Table.{slot_at, slot_info, slot_of, slot_appended, slot_finished, slot_synced, with_slot, table_blank, table_synced};

use std::alloc::{AllocError, Global};
use std::marker::Model;
use zone_image::{Geometry, ZoneInfo};

/// A zone: its written blocks, how many of them are known to be durable, and its seal.
#[derive(Clone, Copy)]
pub(crate) struct Slot {
    pub(crate) written: u32,
    pub(crate) kept: u32,
    pub(crate) sealed: bool,
}

/// An empty zone.
pub(crate) const NO_SLOT: Slot = Slot {
    written: 0,
    kept: 0,
    sealed: false,
};

impl Slot {
    /// A zone as a file has it.
    pub(crate) fn of(info: ZoneInfo) -> Slot
        ensures { result ≡ slot_of info }
    {
        Slot {
            written: info.written,
            kept: info.written,
            sealed: info.sealed,
        }
    }

    /// The zone with so many blocks more. It is sealed once it has as many as its capacity.
    pub(crate) fn appended(self, capacity: u32, count: u32) -> Slot
        requires { self.written + count ≤ capacity }
        ensures { result ≡ slot_appended capacity count self }
    {
        let written = self.written + count;
        Slot {
            written,
            kept: self.kept,
            sealed: self.sealed || written == capacity,
        }
    }

    /// The zone, sealed.
    pub(crate) fn finished(self) -> Slot
        ensures { result ≡ slot_finished self }
    {
        Slot {
            written: self.written,
            kept: self.kept,
            sealed: true,
        }
    }

    /// Whether the zone has a block and isn't sealed.
    pub(crate) fn is_active(&self) -> bool
        ensures { result ≡ is_active_info (slot_info self.now) }
    {
        self.written > 0 && !self.sealed
    }

    /// Whether the zone has a block or a seal.
    pub(crate) fn is_used(&self) -> bool
        ensures { result ≡ (nat_lt 0 self.now.written || self.now.sealed) }
    {
        self.written > 0 || self.sealed
    }

    /// What is told of the zone.
    pub(crate) fn info(&self) -> ZoneInfo
        ensures { result ≡ slot_info self.now }
    {
        ZoneInfo {
            written: self.written,
            sealed: self.sealed,
        }
    }
}

#[derive(Drop)]
pub(crate) struct Table {
    geometry: Geometry,
    slots: Vec<Slot>,
}

impl Model for Table {
    ghost use Rattle.image_backend.specs.Table.{TableState};

    ghost Value = { TableState };

    ghost view = { λ t. record { geometry = t.geometry; slots = t.slots.items } };
}

impl Table {
    /// The zones of a file.
    pub(crate) fn new(geometry: Geometry, slots: Vec<Slot>) -> Table
        ensures { result ≡ record { geometry = geometry; slots = slots.items } }
    {
        Table { geometry, slots }
    }

    /// The zones of a new image.
    pub(crate) fn blank(alloc: Global, geometry: &Geometry) -> Result<Table, AllocError>
        ensures { IfOk result (λ t. t ≡ table_blank geometry.now) }
    {
        Ok(Table {
            geometry: *geometry,
            slots: vec![in alloc; NO_SLOT; geometry.zones as usize]?,
        })
    }

    pub(crate) fn geometry(&self) -> Geometry
        ensures { result ≡ self.now.geometry }
    {
        self.geometry
    }

    /// A zone, by number.
    pub(crate) fn slot(&self, zone: u32) -> Slot
        requires { zone < length self.now.slots }
        ensures { result ≡ slot_at self.now zone }
    {
        self.slots[zone as usize]
    }

    /// Takes other numbers for a zone.
    pub(crate) fn set(&mut self, zone: u32, slot: Slot)
        requires { zone < length self.old.slots }
        ensures { self.new ≡ with_slot self.old zone slot }
    {
        self.slots[zone as usize] = slot;
    }

    /// All blocks are durable.
    pub(crate) fn sync(&mut self)
        ensures { self.new ≡ table_synced self.old }
    {
        keep_all(&mut self.slots);
    }
}

// Makes all blocks of all zones durable.
fn keep_all(slots: &mut [Slot])
    ensures { slots.new ≡ map slot_synced slots.old }
{
    for slot in slots.iter_mut() {
        slot.kept = slot.written;
    }
}
