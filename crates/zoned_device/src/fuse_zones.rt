// A device in memory that stops after some calls.
ghost use Rattle.std.specs.Prelude.{◌≡◌, Some, None};

use crate::mem_zones::MemZones;
use crate::{DevFault, MakeError, ProbeError, ZonedDevice};
use std::marker::Model;
use zone_image::{Geometry, ZoneInfo};

/// A device in memory that passes so many calls and then fails each without effect, as a device does that lost its
/// power. It tells all that the device in it tells.
#[derive(Drop)]
pub struct FuseZones {
    inner: MemZones,
}

impl Model for FuseZones {
    ghost use Rattle.zoned_device.specs.MemState.{MemState};

    ghost Value = { MemState };

    ghost view = { λ f. f.inner };
}

impl FuseZones {
    /// The device, of which so many more calls pass.
    pub fn new(mut inner: MemZones, passes: u64) -> Self
        ensures { result ≡ record inner { calls = record inner.calls { passes = Some passes } } }
    {
        inner.set_passes(Some(passes));
        FuseZones { inner }
    }

    /// The device, of which all calls pass again.
    pub fn into_inner(self) -> MemZones
        ensures { result ≡ record self { calls = record self.calls { passes = None } } }
    {
        let FuseZones { mut inner } = self;
        inner.set_passes(None);
        inner
    }
}

impl ZonedDevice for FuseZones {
    ghost use Rattle.zoned_device.specs.MemState.{image_of, geometry_of, infos_in, tick_of, since_of, IsKnown, IsAbsent, Fails, IsAfter};
    ghost use Rattle.zoned_device.specs.MemLaws.{mem_moments, mem_possible, mem_told, mem_there, mem_valid_since, mem_since_all, mem_ends};

    ghost known = { IsKnown };

    ghost geometry = { geometry_of };

    ghost infos = { infos_in };

    ghost tells = { Unit {0} };

    ghost absent = { IsAbsent };

    ghost image = { image_of };

    ghost tells_moments = { Unit {0} };

    ghost since = { since_of };

    ghost tick = { tick_of };

    ghost faults = { λ f. f.calls.faults };

    ghost failed_changes = { λ f. f.calls.failed_changes };

    ghost may_fail = { Fails };

    ghost must_fail = { Fails };

    ghost after_call = { IsAfter };

    fn probe(&mut self) -> Result<Geometry, ProbeError> {
        self.inner.probe()
    }

    fn make(&mut self, shape: &Geometry) -> Result<(), MakeError> {
        self.inner.make(shape)
    }

    fn report(&mut self, zone: u32) -> Result<ZoneInfo, DevFault> {
        self.inner.report(zone)
    }

    fn read(&mut self, zone: u32, block: u32, out: &mut [u8]) -> Result<(), DevFault> {
        self.inner.read(zone, block, out)
    }

    fn append(&mut self, zone: u32, bytes: &[u8]) -> Result<u32, DevFault> {
        self.inner.append(zone, bytes)
    }

    fn finish(&mut self, zone: u32) -> Result<(), DevFault> {
        self.inner.finish(zone)
    }

    fn reset(&mut self, zone: u32) -> Result<(), DevFault> {
        self.inner.reset(zone)
    }

    fn sync(&mut self) -> Result<(), DevFault> {
        self.inner.sync()
    }

    fn tick(&self) -> u64 {
        self.inner.tick()
    }

    fn faults(&self) -> u64 {
        self.inner.faults()
    }

    fn failed_changes(&self) -> u64 {
        self.inner.failed_changes()
    }

    ghost possible = { mem_possible };

    ghost told = { λ m _ known. mem_told m known };

    ghost there = { λ m _ known absent. mem_there m known absent };

    ghost moments = { mem_moments };

    ghost valid_since = { λ m t j known left. mem_valid_since m t j known left };

    ghost since_all = { λ m j _ known crash. mem_since_all m j known crash };

    ghost ends = { λ m call _ end. mem_ends m call end };
}
