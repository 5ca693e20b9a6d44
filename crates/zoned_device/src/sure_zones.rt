// A device in memory that never fails.
ghost use Rattle.std.specs.Prelude.{◌≡◌, IsTrue, IfOk};
ghost use Rattle.zone_image.specs.Image.{is_valid};
ghost use Rattle.zone_image.specs.Changes.{blank};
ghost use Rattle.zone_image.specs.Infos.{IsValidImage};

use crate::counters::tick_after;
use crate::memory::Memory;
use crate::{DevFault, MakeError, ProbeError, ZonedDevice};
use std::alloc::{AllocError, Global};
use std::marker::Model;
use zone_image::{Geometry, ZoneInfo};

/// A device in memory that never fails. It tells its image and what a crash leaves of it now, and no earlier
/// moments. Its count of faults is the constant 0, so that none of its calls answers a fault.
#[derive(Drop)]
pub struct SureZones {
    alloc: Global,
    memory: Memory,
    tick: u64,
}

impl Model for SureZones {
    ghost use Rattle.zoned_device.specs.SureState.{SureState};

    ghost Value = { SureState };

    ghost view = { λ d. record { image = d.memory; tick = d.tick } };

    ghost use Rattle.std.specs.Prelude.{◌≤◌};
    ghost use Rattle.zone_image.specs.Counts.{last_tick};

    ghost invariant = { λ d. d.tick ≤ last_tick };
}

impl SureZones {
    /// A device on which all zones are empty.
    pub fn new(alloc: Global, geometry: Geometry) -> Result<Self, AllocError>
        requires { IsTrue (is_valid geometry) }
        ensures made { IfOk result (λ d. d ≡ record { image = blank geometry; tick = 0 }) }
        ensures known { IfOk result (λ d. IsValidImage d.image) }
    {
        Ok(SureZones {
            alloc,
            memory: Memory::new(alloc, &geometry)?,
            tick: 0,
        })
    }
}

impl ZonedDevice for SureZones {
    ghost use Rattle.std.specs.Prelude.{◌≡◌, refl};
    ghost use Rattle.zone_image.specs.Infos.{infos_of, IsValidImage};

    ghost known = { λ d. IsValidImage d.image };

    ghost geometry = { λ d. d.image.geometry };

    ghost infos = { λ d. infos_of d.image };

    ghost tells = { Unit {0} };

    ghost absent = { λ _. ⊥ };

    ghost image = { λ d. d.image };

    ghost tells_moments = { ⊥ };

    ghost since = { λ _ _ _. ⊥ };

    ghost tick = { λ d. d.tick };

    ghost faults = { λ _. 0 };

    ghost failed_changes = { λ _. 0 };

    ghost may_fail = { λ _ _. ⊥ };

    ghost must_fail = { λ _ _. ⊥ };

    fn probe(&mut self) -> Result<Geometry, ProbeError> {
        self.tick = tick_after(self.tick);
        Ok(self.memory.geometry())
    }

    fn make(&mut self, shape: &Geometry) -> Result<(), MakeError> {
        self.tick = tick_after(self.tick);
        self.memory = Memory::new(self.alloc, shape)?;
        Ok(())
    }

    fn report(&mut self, zone: u32) -> Result<ZoneInfo, DevFault> {
        self.tick = tick_after(self.tick);
        Ok(self.memory.info(zone))
    }

    fn read(&mut self, zone: u32, block: u32, out: &mut [u8]) -> Result<(), DevFault> {
        self.tick = tick_after(self.tick);
        self.memory.read(zone, block, out);
        Ok(())
    }

    fn append(&mut self, zone: u32, bytes: &[u8]) -> Result<u32, DevFault> {
        self.tick = tick_after(self.tick);
        let first = self.memory.info(zone).written;
        self.memory.append(zone, bytes);
        Ok(first)
    }

    fn finish(&mut self, zone: u32) -> Result<(), DevFault> {
        self.tick = tick_after(self.tick);
        self.memory.finish(zone);
        Ok(())
    }

    fn reset(&mut self, zone: u32) -> Result<(), DevFault> {
        self.tick = tick_after(self.tick);
        self.memory.reset(zone);
        Ok(())
    }

    fn sync(&mut self) -> Result<(), DevFault> {
        self.tick = tick_after(self.tick);
        self.memory.sync();
        Ok(())
    }

    fn tick(&self) -> u64 {
        self.tick
    }

    fn faults(&self) -> u64 {
        0
    }

    fn failed_changes(&self) -> u64 {
        0
    }

    ghost possible = { λ d is. is.possible };

    ghost told = { λ d _ is. record { shape = refl; told = refl; zones = is.zones } };

    ghost there = { λ _ _ _ none. none };

    ghost moments = { record { earlier = λ _ _ _ _ _ none. absurd none; since_now = λ _ _ none. absurd none; since_told = λ _ _ _ none. tt } };

    ghost valid_since = { λ _ _ _ _ none. absurd none };

    ghost since_all = { λ _ _ none _ _. absurd none };

    ghost ends = { λ _ _ none _. absurd none };
}
