// A device is mounted.
ghost use Rattle.std.specs.Prelude.{◌≡◌, ◌≤◌, false, length, Ok, All, IfOk, IfErr, OnOk};
ghost use Rattle.zone_image.specs.Counts.{Rose};
ghost use Rattle.zone_image.specs.Image.{IsCrash};
ghost use Rattle.zone_image.specs.Moments.{LeavesOnly};
ghost use Rattle.log_model.specs.Mounted.{all_extents};
ghost use Rattle.fs_model.specs.FsState.{recorded, state_in};
ghost use Rattle.mount_replay.specs.Rules.{IsWrittenExtent};
ghost use Rattle.fs_tables.specs.Steps.{infos_in};
ghost use Rattle.fs_core.specs.Mounting.{HasMountReason};

use crate::error::{MountError, Refused};
use crate::file_system::Fs;
use crate::tables::{read_tables, shape_of};
use fs_tables::FsTables;
use std::alloc::Global;
use zoned_device::ZonedDevice;

// What is mounted, but for the device.
#[derive(Drop)]
struct Parts {
    tables: FsTables,
    block: Vec<u8>,
}

// All that is read of a device.
fn parts_of<D: ZonedDevice>(alloc: Global, dev: &mut D) -> Result<Parts, MountError>
    ensures known { OnOk result (D.known dev.new) }
    ensures still_known { D.known dev.old → D.known dev.new }
    ensures there { OnOk result (D.tells → D.absent dev.old → ⊥) }
    ensures geometry { IfOk result (λ p. D.geometry dev.new ≡ p.tables.state.geometry) }
    ensures written { IfOk result (λ p. All (IsWrittenExtent p.tables.state.geometry (D.infos dev.new)) (all_extents (recorded p.tables.state))) }
    ensures told { IfOk result (λ p. infos_in p.tables.state ≡ D.infos dev.new) }
    ensures buffer { IfOk result (λ p. length p.block.items ≡ p.tables.state.geometry.block) }
    ensures state { IfOk result (λ p. D.tells → state_in (D.image dev.old) ≡ Ok p.tables.state) }
    ensures refused { IfErr result (λ why. HasMountReason (Rose (D.faults dev.old) (D.faults dev.new)) D.tells (D.absent dev.old) (state_in (D.image dev.old)) why) }
    ensures same_image { D.tells → D.image dev.new ≡ D.image dev.old }
    ensures any_moment { LeavesOnly D.tick D.since dev.old dev.new (IsCrash (D.image dev.old)) }
    ensures changes { D.failed_changes dev.new ≡ D.failed_changes dev.old }
    ensures never_falls { D.faults dev.old ≤ D.faults dev.new }
{
    let geometry = match shape_of(dev) {
        Ok(geometry) => geometry,
        Err(why) => return Err(why),
    };
    let tables = match read_tables(alloc, dev, &geometry) {
        Ok(tables) => tables,
        Err(why) => return Err(why),
    };
    match vec![in alloc; 0; geometry.block as usize] {
        Ok(block) => Ok(Parts { tables, block }),
        Err(_) => Err(MountError::NoMemory),
    }
}

impl<D: ZonedDevice> Fs<D> {
    /// Mounts a device. Its state is that of the image (`state`), and it doesn't write yet. Nothing is written: the image
    /// stays, and a crash at any moment is a crash of it.
    ///
    /// `DevFault` comes only where the device's count of faults rose, and `NotAnImage` exactly where the device tells that
    /// no image is there. The other refusals are those of the image, with their places and values: the log that counts
    /// can't be named, or it is damaged, or its table breaks a rule.
    pub fn mount(alloc: Global, mut dev: D) -> Result<Fs<D>, Refused<D>>
        ensures state { IfOk result (λ f. D.tells → state_in (D.image dev) ≡ Ok f.state) }
        ensures there { OnOk result (D.tells → D.absent dev → ⊥) }
        ensures reads_only { IfOk result (λ f. (f.writing ≡ false) × (f.stopped ≡ false)) }
        ensures refused { IfErr result (λ r. HasMountReason (Rose (D.faults dev) (D.faults r.dev)) D.tells (D.absent dev) (state_in (D.image dev)) r.why) }
        ensures same_image { IfOk result (λ f. D.tells → D.image f.device ≡ D.image dev) }
        ensures image_stays { IfErr result (λ r. D.tells → D.image r.dev ≡ D.image dev) }
        ensures any_moment { IfOk result (λ f. LeavesOnly D.tick D.since dev f.device (IsCrash (D.image dev))) }
        ensures still_known { IfErr result (λ r. D.known dev → D.known r.dev) }
        ensures moments_stay { IfErr result (λ r. LeavesOnly D.tick D.since dev r.dev (IsCrash (D.image dev))) }
        ensures changes { IfOk result (λ f. D.failed_changes f.device ≡ D.failed_changes dev) }
        ensures changes_stay { IfErr result (λ r. D.failed_changes r.dev ≡ D.failed_changes dev) }
        ensures never_falls { IfOk result (λ f. D.faults dev ≤ D.faults f.device) }
    {
        match parts_of(alloc, &mut dev) {
            Ok(parts) => Ok(Fs {
                dev,
                tables: parts.tables,
                block: parts.block,
                writing: false,
                stopped: false,
            }),
            Err(why) => Err(Refused { dev, why }),
        }
    }
}
