// A zoned device kept in an image file that survives a loss of power.
ghost use Rattle.std.specs.Prelude.{◌≡◌, None, false};
ghost use Rattle.power_image.specs.State.{IsSaidIn};

use crate::counts::Counts;
use crate::power_file::PowerFile;
use crate::table::Table;
use crate::{changes, making, reads, scanning};
use std::alloc::Global;
use std::marker::Model;
use zone_image::{Geometry, ZoneInfo};
use zoned_device::{DevFault, MakeError, ProbeError, ZonedDevice};

/// A device over a file that holds an image which survives a loss of power. Where the file tells its bytes, the device tells
/// its image: the blocks of a zone are the bytes at its place. Blocks are written past those that the zone's descriptor
/// tells, and `sync`, `finish`, `reset` and an append that fills a zone change descriptors, in steps of which each may be cut.
/// After a failed call within these steps each later append, finish, reset and sync fails. Apart from these, a call is a
/// fault only where the file's count rose in it, as `after_call` says.
#[derive(Drop)]
pub struct PowerZones<F: PowerFile> {
    alloc: Global,
    file: F,
    table: Option<Table>,
    counts: Counts,
}

impl<F: PowerFile> Model for PowerZones<F> {
    ghost use Rattle.power_image.specs.State.{PowerState};

    ghost Value = { PowerState F };

    ghost view = { λ d. record { file = d.file; table = d.table; counts = d.counts } };

    ghost use Rattle.power_image.specs.State.{IsHeld, IsSaidIn};

    ghost invariant = { λ d. IsHeld F.is_open F.is_sized F.size d.table d.file
        × IsSaidIn F.tells d.counts.broken d.table (F.contents d.file) };
}

impl<F: PowerFile> PowerZones<F> {
    ghost use Rattle.power_image.specs.State.{no_counts};

    /// A device over this file, which isn't looked at yet.
    pub fn new(alloc: Global, file: F) -> PowerZones<F>
        ensures { result ≡ record { file = file; table = None; counts = no_counts } }
    {
        PowerZones {
            alloc,
            file,
            table: None,
            counts: Counts {
                broken: false,
                faults: 0,
                failed_changes: 0,
            },
        }
    }

    /// The file. Where zones are known, and no call failed within a change of descriptors, its bytes say what is known of
    /// the descriptors.
    pub fn into_file(self) -> F
        ensures file { result ≡ self.file }
        ensures said { IsSaidIn F.tells self.counts.broken self.table (F.contents result) }
    {
        self.file
    }
}

impl<F: PowerFile> ZonedDevice for PowerZones<F> {
    ghost use Rattle.zone_image.specs.Counts.{last_tick};
    ghost use Rattle.power_image.specs.State.{IsKnown, geometry_in, infos_in, known_possible};
    ghost use Rattle.power_image.specs.Table.{standing_image, IsNoImage};
    ghost use Rattle.image_backend.specs.AfterCall.{IsRefused};
    ghost use Rattle.power_image.specs.AfterCall.{IsAfterCall};
    ghost use Rattle.power_image.specs.Laws.{known_image, known_there};

    ghost known = { λ d. IsKnown F.is_open F.is_sized F.size d.table d.file };

    ghost geometry = { λ d. geometry_in d.table };

    ghost infos = { λ d. infos_in d.table };

    ghost tells = { F.tells };

    ghost absent = { λ d. IsNoImage d.table (F.contents d.file) };

    ghost image = { λ d. standing_image d.table (F.contents d.file) };

    ghost tells_moments = { ⊥ };

    ghost since = { λ _ _ _. ⊥ };

    ghost tick = { λ _. last_tick };

    ghost faults = { λ d. d.counts.faults };

    ghost failed_changes = { λ d. d.counts.failed_changes };

    ghost must_fail = { λ d call. IsRefused d.counts.broken call };

    ghost after_call = { λ old call done new. IsAfterCall F.faults old call done new };

    fn probe(&mut self) -> Result<Geometry, ProbeError> {
        if let Some(table) = &self.table {
            return Ok(table.geometry());
        }
        match scanning::scan(self.alloc, &mut self.file) {
            Ok(table) => {
                let geometry = table.geometry();
                self.table = Some(table);
                Ok(geometry)
            }
            Err(ProbeError::Failed) => {
                self.counts.fault();
                Err(ProbeError::Failed)
            }
            Err(error) => Err(error),
        }
    }

    fn make(&mut self, shape: &Geometry) -> Result<(), MakeError> {
        let table = Table::blank(self.alloc, shape)?;
        match making::write_image(self.alloc, &mut self.file, shape) {
            Ok(()) => {
                self.table = Some(table);
                self.counts.broken = false;
                Ok(())
            }
            Err(MakeError::Failed) => {
                self.table = None;
                self.counts.fault();
                Err(MakeError::Failed)
            }
            Err(MakeError::NoMemory) => Err(MakeError::NoMemory),
        }
    }

    fn report(&mut self, zone: u32) -> Result<ZoneInfo, DevFault> {
        match &self.table {
            Some(table) => Ok(table.zone(zone).info()),
            None => unreachable!(),
        }
    }

    fn read(&mut self, zone: u32, block: u32, out: &mut [u8]) -> Result<(), DevFault> {
        let answer = match &self.table {
            Some(table) => reads::read(&mut self.file, table, zone, block, out),
            None => unreachable!(),
        };
        match answer {
            Ok(()) => Ok(()),
            Err(_) => Err(self.counts.fault()),
        }
    }

    fn append(&mut self, zone: u32, bytes: &[u8]) -> Result<u32, DevFault> {
        match &mut self.table {
            Some(table) => { changes::append(&mut self.file, table, &mut self.counts, zone, bytes) }
            None => unreachable!(),
        }
    }

    fn finish(&mut self, zone: u32) -> Result<(), DevFault> {
        match &mut self.table {
            Some(table) => changes::finish(&mut self.file, table, &mut self.counts, zone),
            None => unreachable!(),
        }
    }

    fn reset(&mut self, zone: u32) -> Result<(), DevFault> {
        match &mut self.table {
            Some(table) => changes::reset(&mut self.file, table, &mut self.counts, zone),
            None => unreachable!(),
        }
    }

    fn sync(&mut self) -> Result<(), DevFault> {
        match &mut self.table {
            Some(table) => changes::sync(&mut self.file, table, &mut self.counts),
            None => unreachable!(),
        }
    }

    // The tick of a device that tells no moments stays at its end.
    fn tick(&self) -> u64 {
        u64::MAX - 1
    }

    fn faults(&self) -> u64 {
        self.counts.faults
    }

    fn failed_changes(&self) -> u64 {
        self.counts.failed_changes
    }

    ghost possible = { λ d known. known_possible F.is_open F.is_sized F.size d.table d.file known };

    ghost told = { λ d tells known. known_image F.is_open F.is_sized F.size d.table d.file (F.contents d.file) (F.told d.file tells) known };

    ghost there = { λ d _ known absent. known_there F.is_open F.is_sized F.size d.table d.file (F.contents d.file) known absent };

    ghost moments = { record { earlier = λ _ _ _ _ _ none. absurd none; since_now = λ _ _ none. absurd none; since_told = λ _ _ _ none. absurd none } };

    ghost valid_since = { λ _ _ _ _ none. absurd none };

    ghost since_all = { λ _ _ untold _ _. absurd untold };

    ghost ends = { λ _ _ untold _. absurd untold };
}
