// What a mount reads of a device.
ghost use Rattle.std.specs.Prelude.{◌≡◌, ◌≤◌, ◌<◌, Ok, Err, All, IfOk, IfErr, OnOk, ◌==◌, ◌%◌};
ghost use Rattle.zone_image.specs.Counts.{HasCause, Rose};
ghost use Rattle.zone_image.specs.Image.{IsCrash};
ghost use Rattle.zone_image.specs.Moments.{LeavesOnly};
ghost use Rattle.zone_image.specs.Reads.{OnlyReads};
ghost use Rattle.log_model.specs.LogSelection.{selected_log};
ghost use Rattle.log_model.specs.Mounted.{all_extents};
ghost use Rattle.fs_model.specs.FsState.{recorded, state_in};
ghost use Rattle.mount_replay.specs.Rules.{IsWrittenExtent};
ghost use Rattle.fs_tables.specs.MountedTables.{AreMounted, state_from};
ghost use Rattle.fs_tables.specs.Steps.{infos_in};
ghost use Rattle.fs_core.specs.Mounting.{HasMountReason};

use crate::error::MountError;
use fs_tables::FsTables;
use log_model::Chosen;
use log_roll::{ChooseError, choose};
use mount_replay::{Mounted, ReplayError, replay};
use std::alloc::Global;
use zone_image::Geometry;
use zoned_device::{ProbeError, ZonedDevice};

/// The shape of the device.
pub(crate) fn shape_of<D: ZonedDevice>(dev: &mut D) -> Result<Geometry, MountError>
    ensures known { OnOk result (D.known dev.new) }
    ensures still_known { D.known dev.old → D.known dev.new }
    ensures shape { IfOk result (λ geometry. geometry ≡ D.geometry dev.new) }
    ensures there { OnOk result (D.tells → D.absent dev.old → ⊥) }
    ensures refused { IfErr result (λ why. HasMountReason (Rose (D.faults dev.old) (D.faults dev.new)) D.tells (D.absent dev.old) (state_in (D.image dev.old)) why) }
    ensures same_image { D.tells → D.image dev.new ≡ D.image dev.old }
    ensures any_moment { LeavesOnly D.tick D.since dev.old dev.new (IsCrash (D.image dev.old)) }
    ensures changes { D.failed_changes dev.new ≡ D.failed_changes dev.old }
    ensures never_falls { D.faults dev.old ≤ D.faults dev.new }
{
    match dev.probe() {
        Ok(geometry) => Ok(geometry),
        Err(ProbeError::NotAnImage) => Err(MountError::NotAnImage),
        Err(ProbeError::Failed) => Err(MountError::DevFault),
        Err(ProbeError::NoMemory) => Err(MountError::NoMemory),
    }
}

// The log that counts.
fn log_of<D: ZonedDevice>(
    alloc: Global,
    dev: &mut D,
    geometry: &Geometry,
) -> Result<Chosen, MountError>
    requires is_known { D.known dev.old }
    requires same_geometry { geometry.now ≡ D.geometry dev.old }
    ensures chosen { IfOk result (λ chosen. D.tells → selected_log (D.image dev.old) ≡ Ok chosen) }
    ensures is_metadata { IfOk result (λ chosen. chosen.zone < 3) }
    ensures known_flags { IfOk result (λ chosen. chosen.superblock.flags ≤ 1) }
    ensures refused { IfErr result (λ why. HasMountReason (Rose (D.faults dev.old) (D.faults dev.new)) D.tells ⊥ (selected_log (D.image dev.old)) why) }
    ensures device { OnlyReads D.known D.geometry D.infos D.tells D.image D.tick D.since D.failed_changes dev.old dev.new }
    ensures never_falls { D.faults dev.old ≤ D.faults dev.new }
{
    match choose(alloc, dev, geometry) {
        Ok(chosen) => Ok(chosen),
        Err(ChooseError::NoFileSystem) => Err(MountError::NoFileSystem),
        Err(
            ChooseError::Unsupported {
                zone,
                version,
                flags,
            },
        ) => Err(MountError::Unsupported {
            zone,
            version,
            flags,
        }),
        Err(
            ChooseError::Differs {
                zone,
                block,
                zone_blocks,
                zones,
            },
        ) => Err(MountError::Differs {
            zone,
            block,
            zone_blocks,
            zones,
        }),
        Err(ChooseError::Damaged(damage)) => Err(MountError::Damaged(damage)),
        Err(ChooseError::DevFault) => Err(MountError::DevFault),
        Err(ChooseError::NoMemory) => Err(MountError::NoMemory),
    }
}

// Whether its superblock has collection on.
fn collects(log: &Chosen) -> bool
    ensures { result ≡ (log.now.superblock.flags % 2 == 1) }
{
    log.superblock.flags % 2 == 1
}

// The tables of a log.
fn tables_of<D: ZonedDevice>(
    alloc: Global,
    dev: &mut D,
    geometry: &Geometry,
    log: &Chosen,
) -> Result<Mounted, MountError>
    requires is_known { D.known dev.old }
    requires same_geometry { geometry.now ≡ D.geometry dev.old }
    requires is_metadata { log.now.zone < 3 }
    requires known_flags { log.now.superblock.flags ≤ 1 }
    requires selected { D.tells → selected_log (D.image dev.old) ≡ Ok log.now }
    ensures mounted { IfOk result (λ m. AreMounted geometry.now log.now m.files m.zones) }
    ensures written { IfOk result (λ m. All (IsWrittenExtent geometry.now (D.infos dev.old)) (all_extents (recorded (state_from geometry.now log.now m.files m.zones)))) }
    ensures told { IfOk result (λ m. infos_in (state_from geometry.now log.now m.files m.zones) ≡ D.infos dev.old) }
    ensures state { IfOk result (λ m. D.tells → state_in (D.image dev.old) ≡ Ok (state_from geometry.now log.now m.files m.zones)) }
    ensures refused { IfErr result (λ why. HasMountReason (Rose (D.faults dev.old) (D.faults dev.new)) D.tells ⊥ (state_in (D.image dev.old)) why) }
    ensures device { OnlyReads D.known D.geometry D.infos D.tells D.image D.tick D.since D.failed_changes dev.old dev.new }
    ensures never_falls { D.faults dev.old ≤ D.faults dev.new }
{
    match replay(alloc, dev, geometry, log.zone, collects(log)) {
        Ok(mounted) => Ok(mounted),
        Err(ReplayError::Damaged(damage)) => Err(MountError::Damaged(damage)),
        Err(ReplayError::DevFault) => Err(MountError::DevFault),
        Err(ReplayError::NoMemory) => Err(MountError::NoMemory),
    }
}

/// The tables of the log that counts on a device.
pub(crate) fn read_tables<D: ZonedDevice>(
    alloc: Global,
    dev: &mut D,
    geometry: &Geometry,
) -> Result<FsTables, MountError>
    requires is_known { D.known dev.old }
    requires same_geometry { geometry.now ≡ D.geometry dev.old }
    ensures geometry { IfOk result (λ t. t.state.geometry ≡ geometry.now) }
    ensures written { IfOk result (λ t. All (IsWrittenExtent geometry.now (D.infos dev.old)) (all_extents (recorded t.state))) }
    ensures told { IfOk result (λ t. infos_in t.state ≡ D.infos dev.old) }
    ensures state { IfOk result (λ t. D.tells → state_in (D.image dev.old) ≡ Ok t.state) }
    ensures refused { IfErr result (λ why. HasMountReason (Rose (D.faults dev.old) (D.faults dev.new)) D.tells ⊥ (state_in (D.image dev.old)) why) }
    ensures device { OnlyReads D.known D.geometry D.infos D.tells D.image D.tick D.since D.failed_changes dev.old dev.new }
    ensures never_falls { D.faults dev.old ≤ D.faults dev.new }
{
    let log = match log_of(alloc, dev, geometry) {
        Ok(log) => log,
        Err(why) => return Err(why),
    };
    match tables_of(alloc, dev, geometry, &log) {
        Ok(mounted) => Ok(FsTables::new(*geometry, log, mounted.files, mounted.zones)),
        Err(why) => Err(why),
    }
}
