// A device in memory that tells everything and fails as it is told.
ghost use Rattle.std.specs.Prelude.{◌⊎◌, ◌/◌, ◌%◌, ◌<◌, ◌≤◌, length, [], ◌≡◌, Some, None, IsTrue, IsSome, IfOk};
ghost use Rattle.zone_image.specs.Image.{is_valid, IsCrash};
ghost use Rattle.zone_image.specs.Changes.{blank, blocks_in, crashed, with_content};
ghost use Rattle.zone_image.specs.Counts.{next_tick, HasCause};
ghost use Rattle.zone_image.specs.Moments.{LeavesOnly};
ghost use Rattle.zoned_device.specs.CallState.{no_calls, fault_of};
ghost use Rattle.zoned_device.specs.Content.{begun_with};

use crate::failing::{Calls, Failing};
use crate::image_record::Record;
use crate::{DevFault, MakeError, ProbeError, ZonedDevice, calls};
use std::alloc::{AllocError, Global};
use std::marker::Model;
use zone_image::{Geometry, ZoneInfo};

/// A device in memory. It tells its image and every image that it passed, which it keeps in room that it takes when
/// the image is made: for 65,536 changing calls and four times the bytes of the device. A call fails where the list
/// says so, a changing call where no room is left, and every call at the last tick. Each call says by `after_call` all
/// that the device is then: the list, the number of the call, the passes, the counts, the image and the room.
#[derive(Drop)]
pub struct MemZones {
    alloc: Global,
    record: Option<Record>,
    calls: Calls,
}

impl Model for MemZones {
    ghost use Rattle.zoned_device.specs.MemState.{MemState, HoldsMoments};

    ghost Value = { MemState };

    ghost view = { λ m. record { content = m.«record»; calls = m.calls } };

    ghost invariant = { λ m. HoldsMoments m.calls.tick m.«record» };
}

impl MemZones {
    ghost use Rattle.zoned_device.specs.MemState.{IsKnown};

    /// A device on which all zones are empty.
    pub fn new(alloc: Global, geometry: Geometry, fails: Vec<Failing>) -> Result<Self, AllocError>
        requires { IsTrue (is_valid geometry) }
        ensures made { IfOk result (λ m. m ≡ record { content = Some (begun_with (blank geometry)); calls = no_calls fails.items }) }
        ensures known { IfOk result IsKnown }
    {
        Ok(MemZones {
            alloc,
            record: Some(Record::new(alloc, &geometry)?),
            calls: Calls::new(fails),
        })
    }

    /// A device on which no image is until one is made.
    pub fn blank(alloc: Global, fails: Vec<Failing>) -> Self
        ensures { result ≡ record { content = None; calls = no_calls fails.items } }
    {
        MemZones {
            alloc,
            record: None,
            calls: Calls::new(fails),
        }
    }
}

impl MemZones {
    ghost use Rattle.zone_image.specs.Infos.{infos_of, active_zones};
    ghost use Rattle.zoned_device.specs.MemState.{image_of, geometry_of, copied, IsKnown};

    /// Other calls are to fail; their numbers start again at 1.
    pub fn set_fails(&mut self, fails: Vec<Failing>)
        ensures { self.new ≡ record self.old { calls = record self.old.calls { fails = fails.items; number = 0 } } }
    {
        self.calls.set_fails(fails);
    }

    /// Puts other content in a zone: whole blocks, the first `kept` of them durable, and a seal. The record of moments
    /// begins anew with the image after it.
    pub fn put(&mut self, zone: u32, bytes: &[u8], kept: u32, sealed: bool)
        requires is_known { IsKnown self.old }
        requires is_zone { zone < (geometry_of self.old).zones }
        requires whole { length bytes.now % (geometry_of self.old).block ≡ 0 }
        requires room { length bytes.now / (geometry_of self.old).block ≤ (geometry_of self.old).capacity }
        requires durable { kept ≤ length bytes.now / (geometry_of self.old).block }
        requires full { length bytes.now / (geometry_of self.old).block ≡ (geometry_of self.old).capacity → IsTrue sealed }
        requires active { active_zones (infos_of (with_content (image_of self.old) zone (blocks_in (geometry_of self.old) bytes.now) kept sealed))
            ≤ (geometry_of self.old).active_limit }
        ensures known { IsKnown self.new }
        ensures after { self.new ≡ record self.old {
          content = Some (begun_with (with_content (image_of self.old) zone (blocks_in (geometry_of self.old) bytes.now) kept sealed));
        } }
    {
        match &mut self.record {
            Some(record) => record.put(zone, bytes, kept, sealed),
            None => unreachable!(),
        }
    }

    /// A device with the same image, or with none. Its record of moments begins with that image, no call of it is to
    /// fail, and its tick and its counts are 0.
    pub fn copy(&self) -> Result<Self, AllocError>
        ensures copied { IfOk result (λ m. m ≡ record { content = copied self.now.content; calls = no_calls [] }) }
        ensures known { IsKnown self.now → IfOk result IsKnown }
    {
        let record = match &self.record {
            Some(record) => Some(record.copy(self.alloc)?),
            None => None,
        };
        Ok(MemZones {
            alloc: self.alloc,
            record,
            calls: Calls::new(Vec::new(self.alloc)),
        })
    }

    /// What a crash leaves: of zone i the least of its written blocks and the greater of its durable ones and
    /// `keep[i]`. The record of moments begins with that image, no call is to fail, and the tick and the counts are 0.
    pub fn crash(self, keep: &[u32]) -> Self
        requires is_known { IsKnown self }
        requires numbers { length keep.now ≡ (geometry_of self).zones }
        ensures left { result ≡ record { content = Some (begun_with (crashed (image_of self) keep.now)); calls = no_calls [] } }
        ensures crash { IsCrash (image_of self) (image_of result) }
        ensures known { IsKnown result }
    {
        let MemZones {
            alloc,
            mut record,
            calls: _,
        } = self;
        match &mut record {
            Some(record) => record.crash(keep),
            None => unreachable!(),
        }
        MemZones {
            alloc,
            record,
            calls: Calls::new(Vec::new(alloc)),
        }
    }

    // From now on so many calls pass, or all.
    pub(crate) fn set_passes(&mut self, passes: Option<u64>)
        ensures { self.new ≡ record self.old { calls = record self.old.calls { passes = passes } } }
    {
        self.calls.set_passes(passes);
    }
}

impl MemZones {
    ghost use Rattle.zoned_device.specs.MemState.{image_of, tick_of, since_of, called};

    // Begins a call that changes no image, and counts it as a fault if it is to fail. It answers how much of the
    // call is done before it fails.
    fn begin(&mut self) -> Option<u32>
        ensures fault { result ≡ fault_of self.old.calls }
        ensures counted { self.new ≡ called self.old }
        ensures passes { LeavesOnly tick_of since_of self.old self.new (IsCrash (image_of self.old)) }
        ensures cause { HasCause self.old.calls.faults self.new.calls.faults (IsSome result) }
        ensures ticks { self.new.calls.tick ≡ next_tick self.old.calls.tick }
    {
        let fault = self.calls.begin();
        if fault.is_some() {
            self.calls.count_fault();
        }
        fault
    }

    // Puts a new image in place of what is there, if there is memory for it.
    fn replace(&mut self, shape: &Geometry)
        requires { IsTrue (is_valid shape.now) }
        ensures same_calls { self.new.calls ≡ self.old.calls }
        ensures content { (self.new.content ≡ self.old.content) ⊎ (self.new.content ≡ Some (begun_with (blank shape.now))) }
    {
        if let Ok(record) = Record::new(self.alloc, shape) {
            self.record = Some(record);
        }
    }
}

impl ZonedDevice for MemZones {
    ghost use Rattle.zoned_device.specs.MemState.{image_of, geometry_of, infos_in, tick_of, since_of, IsKnown, IsAbsent, Fails, IsAfter};
    ghost use Rattle.zoned_device.specs.MemLaws.{mem_moments, mem_possible, mem_told, mem_there, mem_valid_since, mem_since_all, mem_ends};

    ghost known = { IsKnown };

    ghost geometry = { geometry_of };

    ghost infos = { infos_in };

    ghost tells = { Unit {0} };

    ghost absent = { IsAbsent };

    ghost image = { image_of };

    ghost tells_moments = { Unit {0} };

    ghost since = { since_of };

    ghost tick = { tick_of };

    ghost faults = { λ m. m.calls.faults };

    ghost failed_changes = { λ m. m.calls.failed_changes };

    ghost may_fail = { Fails };

    ghost must_fail = { Fails };

    ghost after_call = { IsAfter };

    fn probe(&mut self) -> Result<Geometry, ProbeError> {
        if self.begin().is_some() {
            return Err(ProbeError::Failed);
        }
        match &self.record {
            Some(record) => Ok(record.standing().geometry()),
            None => Err(ProbeError::NotAnImage),
        }
    }

    fn make(&mut self, shape: &Geometry) -> Result<(), MakeError> {
        if let Some(part) = self.begin() {
            if part != 0 {
                self.replace(shape);
            }
            return Err(MakeError::Failed);
        }
        self.record = Some(Record::new(self.alloc, shape)?);
        Ok(())
    }

    fn report(&mut self, zone: u32) -> Result<ZoneInfo, DevFault> {
        if self.begin().is_some() {
            return Err(DevFault);
        }
        match &self.record {
            Some(record) => Ok(record.standing().info(zone)),
            None => unreachable!(),
        }
    }

    fn read(&mut self, zone: u32, block: u32, out: &mut [u8]) -> Result<(), DevFault> {
        if self.begin().is_some() {
            return Err(DevFault);
        }
        match &self.record {
            Some(record) => record.standing().read(zone, block, out),
            None => unreachable!(),
        }
        Ok(())
    }

    fn append(&mut self, zone: u32, bytes: &[u8]) -> Result<u32, DevFault> {
        match &mut self.record {
            Some(record) => calls::append(record, &mut self.calls, zone, bytes),
            None => unreachable!(),
        }
    }

    fn finish(&mut self, zone: u32) -> Result<(), DevFault> {
        match &mut self.record {
            Some(record) => calls::finish(record, &mut self.calls, zone),
            None => unreachable!(),
        }
    }

    fn reset(&mut self, zone: u32) -> Result<(), DevFault> {
        match &mut self.record {
            Some(record) => calls::reset(record, &mut self.calls, zone),
            None => unreachable!(),
        }
    }

    fn sync(&mut self) -> Result<(), DevFault> {
        match &mut self.record {
            Some(record) => calls::sync(record, &mut self.calls),
            None => unreachable!(),
        }
    }

    fn tick(&self) -> u64 {
        self.calls.tick()
    }

    fn faults(&self) -> u64 {
        self.calls.faults()
    }

    fn failed_changes(&self) -> u64 {
        self.calls.failed_changes()
    }

    ghost possible = { mem_possible };

    ghost told = { λ m _ known. mem_told m known };

    ghost there = { λ m _ known absent. mem_there m known absent };

    ghost moments = { mem_moments };

    ghost valid_since = { λ m t j known left. mem_valid_since m t j known left };

    ghost since_all = { λ m j _ known crash. mem_since_all m j known crash };

    ghost ends = { λ m call _ end. mem_ends m call end };
}
