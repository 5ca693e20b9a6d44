// The command that makes a file system.
ghost use Rattle.std.specs.Prelude.{◌≡◌, ◌≤◌, ◌⊎◌, ◌++◌, not, None, Some, IsTrue, IfOk, OnOk, IfErr};
ghost use Rattle.zone_image.specs.Counts.{Rose};
ghost use Rattle.zone_image.specs.Image.{IsCrash};
ghost use Rattle.zone_image.specs.Moments.{LeavesOnly};
ghost use Rattle.log_model.specs.Format.{begins_in};
ghost use Rattle.command_model.specs.ReportTexts.{made_fs_text};
ghost use Rattle.fs_report.specs.Written.{AddsFront};
ghost use Rattle.making_cmd.specs.NewFs.{HasFsReason, HasNewFs, IsSilent, LeavesOldOrNewFs, StaysUnmade, superblock_for};

use crate::error::MakeFsError;
use crate::settings::{Settings, new_superblock};
use fs_report::{Sink, made_fs_text, write_all};
use log_roll::{LogError, begins, format};
use std::alloc::Global;
use zone_image::Geometry;
use zoned_device::{ProbeError, ZonedDevice};

/// Makes an empty file system, and says so. `NotAnImage` comes exactly where the device tells that no image is
/// there, and then `FsExists` exactly where a metadata zone begins with a superblock's magic number and what is
/// there isn't to be replaced by `force`. After an output fault the file system is made. Where each crash of the
/// image at entry has a log that counts, what a crash leaves within the command is the old file system, none, or the
/// new one (`any_moment`).
pub fn make_fs<D: ZonedDevice, O: Sink>(
    alloc: Global,
    dev: &mut D,
    out: &mut O,
    settings: &Settings,
    force: bool,
    random: u128,
) -> Result<(), MakeFsError>
    ensures made { OnOk result (HasNewFs D.known D.geometry D.infos D.tells D.image (superblock_for settings.now random) dev.old dev.new) }
    ensures said { OnOk result (O.tells → O.written out.new ≡ O.written out.old ++ made_fs_text (D.geometry dev.new)) }
    ensures may_replace { OnOk result (IsTrue force ⊎ (D.tells → begins_in (D.image dev.old) ≡ None)) }
    ensures present { OnOk result (D.tells → D.absent dev.old → ⊥) }

    ensures refused { IfErr result (HasFsReason
        (Rose (D.faults dev.old) (D.faults dev.new))
        (Rose (O.faults out.old) (O.faults out.new)
        × HasNewFs D.known D.geometry D.infos D.tells D.image (superblock_for settings.now random) dev.old dev.new
        × (O.tells → AddsFront (O.written out.old) (made_fs_text (D.geometry dev.new)) (O.written out.new)))
        (D.tells → D.absent dev.old)
        (λ zone. IsTrue (not force) × (D.tells → (D.absent dev.old → ⊥) × (begins_in (D.image dev.old) ≡ Some zone)))) }
    ensures unchanged { IfErr result (StaysUnmade (D.tells → D.image dev.new ≡ D.image dev.old)) }
    ensures still_known { D.known dev.old → D.known dev.new }
    ensures any_moment { LeavesOnly D.tick D.since dev.old dev.new (LeavesOldOrNewFs (superblock_for settings.now random) (D.image dev.old)) }
    ensures silent { IfErr result (IsSilent (out.new ≡ out.old)) }
{
    let geometry = shape_to_format(alloc, dev, force)?;
    let text = match made_fs_text(alloc, &geometry) {
        Ok(text) => text,
        Err(_) => return Err(MakeFsError::NoMemory),
    };
    write_fs(alloc, dev, &geometry, settings, random)?;
    match write_all(out, text.items()) {
        Ok(()) => Ok(()),
        Err(_) => Err(MakeFsError::OutputFault),
    }
}

// The shape of a device on which a file system may be made.
fn shape_to_format<D: ZonedDevice>(
    alloc: Global,
    dev: &mut D,
    force: bool,
) -> Result<Geometry, MakeFsError>
    ensures known { OnOk result (D.known dev.new) }
    ensures shape { IfOk result (λ geometry. geometry ≡ D.geometry dev.new) }
    ensures may_replace { OnOk result (IsTrue force ⊎ (D.tells → begins_in (D.image dev.old) ≡ None)) }
    ensures present { OnOk result (D.tells → D.absent dev.old → ⊥) }
    ensures refused { IfErr result (HasFsReason (Rose (D.faults dev.old) (D.faults dev.new)) ⊥ (D.tells → D.absent dev.old)
        (λ zone. IsTrue (not force) × (D.tells → (D.absent dev.old → ⊥) × (begins_in (D.image dev.old) ≡ Some zone)))) }
    ensures same_image { D.tells → D.image dev.new ≡ D.image dev.old }
    ensures never_falls { D.faults dev.old ≤ D.faults dev.new }
    ensures still_known { D.known dev.old → D.known dev.new }
    ensures any_moment { LeavesOnly D.tick D.since dev.old dev.new (IsCrash (D.image dev.old)) }
{
    let geometry = shape_of(dev)?;
    if force {
        return Ok(geometry);
    }
    refuse_fs(alloc, dev, &geometry)?;
    Ok(geometry)
}

// The shape of the device.
fn shape_of<D: ZonedDevice>(dev: &mut D) -> Result<Geometry, MakeFsError>
    ensures known { OnOk result (D.known dev.new) }
    ensures shape { IfOk result (λ geometry. geometry ≡ D.geometry dev.new) }
    ensures present { OnOk result (D.tells → D.absent dev.old → ⊥) }
    ensures refused { IfErr result (HasFsReason (Rose (D.faults dev.old) (D.faults dev.new)) ⊥ (D.tells → D.absent dev.old) (λ _. ⊥)) }
    ensures same_image { D.tells → D.image dev.new ≡ D.image dev.old }
    ensures never_falls { D.faults dev.old ≤ D.faults dev.new }
    ensures still_known { D.known dev.old → D.known dev.new }
    ensures any_moment { LeavesOnly D.tick D.since dev.old dev.new (IsCrash (D.image dev.old)) }
{
    match dev.probe() {
        Ok(geometry) => Ok(geometry),
        Err(ProbeError::NotAnImage) => Err(MakeFsError::NotAnImage),
        Err(ProbeError::Failed) => Err(MakeFsError::DeviceFault),
        Err(ProbeError::NoMemory) => Err(MakeFsError::NoMemory),
    }
}

// Refuses where a file system is there.
fn refuse_fs<D: ZonedDevice>(
    alloc: Global,
    dev: &mut D,
    geometry: &Geometry,
) -> Result<(), MakeFsError>
    requires is_known { D.known dev.old }
    requires same_geometry { geometry.now ≡ D.geometry dev.old }
    ensures none { OnOk result (D.tells → begins_in (D.image dev.old) ≡ None) }
    ensures refused { IfErr result (HasFsReason (Rose (D.faults dev.old) (D.faults dev.new)) ⊥ ⊥ (λ zone. D.tells → begins_in (D.image dev.old) ≡ Some zone)) }
    ensures still_known { D.known dev.new }
    ensures still_shaped { D.geometry dev.new ≡ D.geometry dev.old }
    ensures same_image { D.tells → D.image dev.new ≡ D.image dev.old }
    ensures never_falls { D.faults dev.old ≤ D.faults dev.new }
    ensures any_moment { LeavesOnly D.tick D.since dev.old dev.new (IsCrash (D.image dev.old)) }
{
    match begins(alloc, dev, geometry) {
        Ok(None) => Ok(()),
        Ok(Some(zone)) => Err(MakeFsError::FsExists { zone }),
        Err(LogError::DevFault) => Err(MakeFsError::DeviceFault),
        Err(LogError::NoMemory) => Err(MakeFsError::NoMemory),
    }
}

// Formats the device.
fn write_fs<D: ZonedDevice>(
    alloc: Global,
    dev: &mut D,
    geometry: &Geometry,
    settings: &Settings,
    random: u128,
) -> Result<(), MakeFsError>
    requires is_known { D.known dev.old }
    requires same_geometry { geometry.now ≡ D.geometry dev.old }
    ensures made { OnOk result (HasNewFs D.known D.geometry D.infos D.tells D.image (superblock_for settings.now random) dev.old dev.new) }
    ensures refused { IfErr result (HasFsReason (Rose (D.faults dev.old) (D.faults dev.new)) ⊥ ⊥ (λ _. ⊥)) }
    ensures unchanged { IfErr result (StaysUnmade (D.tells → D.image dev.new ≡ D.image dev.old)) }
    ensures still_shaped { D.geometry dev.new ≡ D.geometry dev.old }
    ensures still_known { D.known dev.new }
    ensures any_moment { LeavesOnly D.tick D.since dev.old dev.new (LeavesOldOrNewFs (superblock_for settings.now random) (D.image dev.old)) }
{
    let superblock = new_superblock(geometry, settings, random);
    match format(alloc, dev, geometry, &superblock) {
        Ok(()) => Ok(()),
        Err(LogError::DevFault) => Err(MakeFsError::DeviceFault),
        Err(LogError::NoMemory) => Err(MakeFsError::NoMemory),
    }
}
