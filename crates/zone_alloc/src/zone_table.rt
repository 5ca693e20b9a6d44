// The table of all zones.
ghost use Rattle.std.specs.Prelude.{◌≡◌, ◌+◌, ◌^◌, ◌<◌, ◌≤◌, map, not, IsTrue, IfOk};
ghost use Rattle.zone_image.specs.Infos.{IsPossible, IsPossibleInfo};
ghost use Rattle.fs_model.specs.FsState.{touched};
ghost use Rattle.fs_model.specs.ZonePolicy.{is_idle, is_open, choose_zone, space};
ghost use Rattle.fs_model.specs.VictimPolicy.{victim, resettable};
ghost use Rattle.zone_alloc.specs.ZoneTableState.{IsZoneTable, unused_state, state_at};
ghost use Rattle.zone_alloc.specs.Finishing.{zone_to_finish, NamesActiveZone};
ghost use Rattle.zone_alloc.specs.NamedZones.{NamesIdleZones, IsLowestResettable};

use crate::choosing::chosen_zone;
use crate::collecting::{next_victim, resettable_zone};
use crate::extent::{touched, zone_of};
use crate::finishing::zone_to_finish;
use crate::space::space_of;
use fs_model::{Choice, Owner, Plan, Space, ZoneState};
use record_model::Extent;
use std::alloc::{AllocError, Global};
use std::marker::Model;
use zone_image::{Geometry, ZoneInfo};

/// The zones of a device with their owners, lifetime hints and live extents. Contracts see the geometry, whether
/// collection is on, and the list of zones. No call takes memory but `new` and `copy`.
#[derive(Drop)]
pub struct ZoneTable {
    geometry: Geometry,
    collect: bool,
    zones: Vec<ZoneState>,
}

impl Model for ZoneTable {
    ghost use Rattle.zone_alloc.specs.ZoneTableState.{ZoneTableState, IsZoneTable};

    ghost Value = { ZoneTableState };

    ghost view = { λ t. record { geometry = t.geometry; collect = t.collect; zones = t.zones.items } };

    ghost invariant = { λ t. IsZoneTable t.geometry t.zones.items };
}

impl ZoneTable {
    /// The zones as a device tells them: nobody holds one, and nothing in them is live. Only want of memory is
    /// an error.
    pub fn new(
        alloc: Global,
        geometry: &Geometry,
        infos: Vec<ZoneInfo>,
        collect: bool,
    ) -> Result<ZoneTable, AllocError>
        requires { IsPossible geometry.now infos.items }
        ensures { IfOk result (λ t. t ≡ record { geometry = geometry.now; collect = collect; zones = map unused_state infos.items }) }
    {
        Ok(ZoneTable {
            geometry: *geometry,
            collect,
            zones: unused_zones(alloc, &infos)?,
        })
    }

    /// The same table. Only want of memory is an error.
    pub fn copy(&self) -> Result<ZoneTable, AllocError>
        ensures { IfOk result (λ t. t ≡ self.now) }
    {
        Ok(ZoneTable {
            geometry: self.geometry,
            collect: self.collect,
            zones: self.zones.clone()?,
        })
    }

    /// The shape of the device.
    pub fn geometry(&self) -> Geometry
        ensures value { result ≡ self.now.geometry }
        ensures table { IsZoneTable self.now.geometry self.now.zones }
    {
        self.geometry
    }

    /// A zone, by number.
    pub fn state(&self, zone: u32) -> &ZoneState
        requires { zone < self.now.geometry.zones }
        ensures value { result.now ≡ state_at self.now zone }
        ensures possible { IsPossibleInfo self.now.geometry result.now.info }
        ensures table { IsZoneTable self.now.geometry self.now.zones }
    {
        &self.zones[zone as usize]
    }

    /// Which zone a writer with no zone gets for a file of this hint: the first of an active zone of a lifetime that
    /// is a little longer, an empty one while a token is free, an active one of the same lifetime, an empty one in
    /// place of an active one, and any active one. It is `Busy` where no token is free, and `NoSpace` otherwise.
    pub fn choose_zone(&self, hint: u32) -> Choice
        ensures exact { result ≡ choose_zone self.now.geometry self.now.collect self.now.zones hint }
        ensures idle { NamesIdleZones self.now result }
    {
        chosen_zone(&self.geometry, self.collect, &self.zones, hint)
    }

    /// The zone that is collected next, and where its live blocks go. None where collection is off, where more than
    /// 20 percent are free, or where no zone has enough garbage and a destination at which a block is gained.
    pub fn victim(&self) -> Option<Plan>
        ensures { result ≡ victim self.now.geometry self.now.collect self.now.zones }
    {
        next_victim(&self.geometry, self.collect, &self.zones)
    }

    /// The lowest data zone that nobody holds, with a block or a seal and nothing live.
    pub fn resettable(&self) -> Option<u32>
        ensures exact { result ≡ resettable self.now.zones }
        ensures lowest { IsLowestResettable self.now result }
    {
        resettable_zone(&self.zones)
    }

    /// The active data zone with least room among those that nobody holds, where these are as many as the device allows. It
    /// has to be finished before one more is active. None where they are not so many.
    pub fn zone_to_finish(&self) -> Option<u32>
        ensures exact { result ≡ zone_to_finish self.now.geometry self.now.zones }
        ensures active { NamesActiveZone self.now result }
    {
        zone_to_finish(&self.geometry, &self.zones)
    }

    /// The free blocks of data zones, the bytes of live extents, the bytes of sealed data zones that aren't live, and
    /// the free blocks in percent.
    pub fn space(&self) -> Space
        ensures { result ≡ space self.now.geometry self.now.zones }
    {
        space_of(&self.geometry, &self.zones)
    }
}

impl ZoneTable {
    ghost use Rattle.zone_alloc.specs.ZoneTableState.{with_state, live_blocks, live_bytes, can_open, opened, released, state_appended, state_finished, state_emptied, with_hint, IsInDataZone, live_added, live_removed};
    ghost use Rattle.zone_image.specs.Image.{zone_of};

    // Takes another state for a zone.
    fn set(&mut self, zone: u32, state: ZoneState)
        requires is_zone { zone < self.old.geometry.zones }
        requires possible { IsPossibleInfo self.old.geometry state.info }
        requires blocks_fit { live_blocks self.old.zones + state.live < 2 ^ 64 + (state_at self.old zone).live }
        requires bytes_fit { live_bytes self.old.zones + state.live_bytes < 2 ^ 64 + (state_at self.old zone).live_bytes }
        ensures { (f : ZoneState → ZoneState) → state ≡ f (state_at self.old zone) → self.new ≡ with_state self.old zone f }
    {
        self.zones[zone as usize] = state;
    }

    /// A zone has an owner from now on. One that is empty takes the hint, the lifetime of the file or of the victim
    /// for which it is opened.
    pub fn open(&mut self, zone: u32, owner: Owner, hint: u32)
        requires is_zone { zone < self.old.geometry.zones }
        requires idle { IsTrue (can_open owner (state_at self.old zone)) }
        ensures { self.new ≡ with_state self.old zone (opened owner hint) }
    {
        let mut state = *self.state(zone);
        if !state.info.sealed && state.info.written == 0 {
            state.hint = hint;
        }
        state.owner = owner;
        self.set(zone, state);
    }

    /// Nobody holds a zone any more.
    pub fn release(&mut self, zone: u32)
        requires is_zone { zone < self.old.geometry.zones }
        requires owned { IsTrue (not (is_idle (state_at self.old zone))) }
        ensures { self.new ≡ with_state self.old zone released }
    {
        let mut state = *self.state(zone);
        state.owner = Owner::Idle;
        self.set(zone, state);
    }

    /// So many blocks were appended to a zone. It is sealed once it has as many as its capacity.
    pub fn appended(&mut self, zone: u32, blocks: u32)
        requires is_zone { zone < self.old.geometry.zones }
        requires unsealed { IsTrue (is_open (state_at self.old zone)) }
        requires room { (state_at self.old zone).info.written + blocks ≤ self.old.geometry.capacity }
        ensures { self.new ≡ with_state self.old zone (state_appended self.old.geometry.capacity blocks) }
    {
        let mut state = *self.state(zone);
        let written = state.info.written + blocks;
        state.info = ZoneInfo {
            written,
            sealed: state.info.sealed || written == self.geometry.capacity,
        };
        self.set(zone, state);
    }

    /// A zone was finished: it is sealed.
    pub fn finished(&mut self, zone: u32)
        requires { zone < self.old.geometry.zones }
        ensures { self.new ≡ with_state self.old zone state_finished }
    {
        let mut state = *self.state(zone);
        state.info.sealed = true;
        self.set(zone, state);
    }

    /// A zone without live extents was reset: it is empty and not sealed. Its owner and its hint stay.
    pub fn was_reset(&mut self, zone: u32)
        requires is_zone { zone < self.old.geometry.zones }
        requires dead { (state_at self.old zone).live ≡ 0 }
        ensures { self.new ≡ with_state self.old zone state_emptied }
    {
        let mut state = *self.state(zone);
        state.info = ZoneInfo {
            written: 0,
            sealed: false,
        };
        self.set(zone, state);
    }

    /// The lifetime hint of a data zone that nobody holds, as a mount finds it.
    pub fn set_hint(&mut self, zone: u32, hint: u32)
        requires is_zone { zone < self.old.geometry.zones }
        requires behind_metadata { 3 ≤ zone }
        requires idle { IsTrue (is_idle (state_at self.old zone)) }
        ensures { self.new ≡ with_state self.old zone (with_hint hint) }
    {
        let mut state = *self.state(zone);
        state.hint = hint;
        self.set(zone, state);
    }

    /// An extent is live from now on. Its zone's live blocks rise by the blocks that it touches, and its live bytes
    /// by its length.
    pub fn live_add(&mut self, extent: Extent)
        requires within { IsInDataZone self.old.geometry extent }
        requires blocks_fit { live_blocks self.old.zones + touched self.old.geometry.block extent < 2 ^ 64 }
        requires bytes_fit { live_bytes self.old.zones + extent.len < 2 ^ 64 }
        ensures { self.new ≡ with_state self.old (zone_of self.old.geometry extent.start) (live_added self.old.geometry.block extent) }
    {
        let zone = zone_of(&self.geometry, extent);
        let mut state = *self.state(zone);
        state.live += touched(&self.geometry, extent);
        state.live_bytes += extent.len;
        self.set(zone, state);
    }

    /// An extent is live no more.
    pub fn live_remove(&mut self, extent: Extent)
        requires within { IsInDataZone self.old.geometry extent }
        requires live { touched self.old.geometry.block extent ≤ (state_at self.old (zone_of self.old.geometry extent.start)).live }
        requires bytes { extent.len ≤ (state_at self.old (zone_of self.old.geometry extent.start)).live_bytes }
        ensures { self.new ≡ with_state self.old (zone_of self.old.geometry extent.start) (live_removed self.old.geometry.block extent) }
    {
        let zone = zone_of(&self.geometry, extent);
        let mut state = *self.state(zone);
        state.live -= touched(&self.geometry, extent);
        state.live_bytes -= extent.len;
        self.set(zone, state);
    }
}

// The zones as a device tells them.
fn unused_zones(alloc: Global, infos: &[ZoneInfo]) -> Result<Vec<ZoneState>, AllocError>
    ensures { IfOk result (λ zones. zones.items ≡ map unused_state infos.now) }
{
    infos.iter().map(|info| unused_zone(*info)).collect(alloc)
}

// A zone as a device tells it.
fn unused_zone(info: ZoneInfo) -> ZoneState
    ensures { result ≡ unused_state info }
{
    ZoneState {
        info,
        owner: Owner::Idle,
        hint: 0,
        live: 0,
        live_bytes: 0,
    }
}
