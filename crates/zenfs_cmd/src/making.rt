// The commands `mkimage` and `mkfs`.
ghost use Rattle.std.specs.Prelude.{◌≡◌, ℕ, Some, None, IsTrue, OnOk, IfErr};
ghost use Rattle.zone_image.specs.Counts.{Rose};
ghost use Rattle.zone_image.specs.Moments.{LeavesOnly};
ghost use Rattle.log_model.specs.Format.{is_aux_path};
ghost use Rattle.command_model.specs.CommandLine.Command.{MakeImage, MakeFs};
ghost use Rattle.command_model.specs.Options.{Word};
ghost use Rattle.zenfs_cmd.specs.Leaving.{Leaves, MayLeave};
ghost use Rattle.zenfs_cmd.specs.Printing.{IsCutShort, IsPrinted, IsSilent, output_text};
ghost use Rattle.zenfs_cmd.specs.Reasons.{CanBeDone, HasReason, IsUnwritten};

use crate::words::FsOptions;
use fs_report::{Cause, Sink};
use making_cmd::{MakeDeviceError, MakeFsError, Settings, make_device, make_fs};
use std::alloc::Global;
use superblock_core::AuxPath;
use zone_image::Geometry;
use zoned_device::ZonedDevice;

/// Makes an image, and says so.
pub(crate) fn make_image<'a, D: ZonedDevice, O: Sink>(
    alloc: Global,
    dev: &mut D,
    out: &mut O,
    geometry: &Geometry,
    force: bool,
) -> Result<(), Cause<'a>>
    ensures left { (at : Word) (random : ℕ) → OnOk result (Leaves D.known D.geometry D.infos D.tells D.image (out.new ≡ out.old) random dev.old dev.new (MakeImage at geometry.now force)) }
    ensures allowed { (at : Word) → OnOk result (D.tells → CanBeDone (D.absent dev.old) (D.image dev.old) (MakeImage at geometry.now force)) }
    ensures printed { (at : Word) → OnOk result (D.tells → O.tells → IsPrinted (output_text (MakeImage at geometry.now force) (D.image dev.old)) (O.written out.old) (O.written out.new)) }
    ensures refused { (at : Word) (random : ℕ) → IfErr result (HasReason (Some (MakeImage at geometry.now force))
        (Rose (D.faults dev.old) (D.faults dev.new))
        (IsCutShort (Rose (O.faults out.old) (O.faults out.new)) (Leaves D.known D.geometry D.infos D.tells D.image (out.new ≡ out.old) random dev.old dev.new)
        (D.tells × O.tells) (O.written out.old) (O.written out.new) (D.image dev.old))
        D.tells (D.absent dev.old) (D.image dev.old)) }
    ensures silent { IfErr result (λ cause. IsSilent cause (out.new ≡ out.old)) }
    ensures unwritten { IfErr result (λ cause. IsUnwritten None cause (D.tells → D.image dev.new ≡ D.image dev.old)) }
{
    match make_device(alloc, dev, out, geometry, force) {
        Ok(()) => Ok(()),
        Err(MakeDeviceError::DeviceFault) => Err(Cause::DeviceFault),
        Err(MakeDeviceError::OutputFault) => Err(Cause::OutputFault),
        Err(MakeDeviceError::NoMemory) => Err(Cause::NoMemory),
        Err(MakeDeviceError::ImageExists) => Err(Cause::ImageExists),
        Err(MakeDeviceError::BadGeometry) => Err(Cause::BadGeometry),
    }
}

/// Makes a file system with an identifier of these random bits, and says so.
pub(crate) fn make_file_system<'a, D: ZonedDevice, O: Sink>(
    alloc: Global,
    dev: &mut D,
    out: &mut O,
    options: &FsOptions<'_>,
    random: u128,
) -> Result<(), Cause<'a>>
    requires { IsTrue (is_aux_path options.now.aux_path.now) }
    ensures left { (at : Word) → OnOk result (Leaves D.known D.geometry D.infos D.tells D.image (out.new ≡ out.old) random dev.old dev.new
        (MakeFs at options.now.aux_path.now options.now.finish_threshold options.now.collect options.now.force)) }
    ensures allowed { (at : Word) → OnOk result (D.tells → CanBeDone (D.absent dev.old) (D.image dev.old)
        (MakeFs at options.now.aux_path.now options.now.finish_threshold options.now.collect options.now.force)) }
    ensures printed { (at : Word) → OnOk result (D.tells → O.tells → IsPrinted
        (output_text (MakeFs at options.now.aux_path.now options.now.finish_threshold options.now.collect options.now.force) (D.image dev.old))
        (O.written out.old) (O.written out.new)) }
    ensures refused { (at : Word) → IfErr result (HasReason (Some (MakeFs at options.now.aux_path.now options.now.finish_threshold options.now.collect options.now.force))
        (Rose (D.faults dev.old) (D.faults dev.new))
        (IsCutShort (Rose (O.faults out.old) (O.faults out.new)) (Leaves D.known D.geometry D.infos D.tells D.image (out.new ≡ out.old) random dev.old dev.new)
        (D.tells × O.tells) (O.written out.old) (O.written out.new) (D.image dev.old))
        D.tells (D.absent dev.old) (D.image dev.old)) }
    ensures silent { IfErr result (λ cause. IsSilent cause (out.new ≡ out.old)) }
    ensures unwritten { IfErr result (λ cause. IsUnwritten None cause (D.tells → D.image dev.new ≡ D.image dev.old)) }
    ensures still_known { D.known dev.old → D.known dev.new }
    ensures any_moment { (at : Word) → LeavesOnly D.tick D.since dev.old dev.new (MayLeave random
        (Some (MakeFs at options.now.aux_path.now options.now.finish_threshold options.now.collect options.now.force)) (D.image dev.old)) }
{
    let settings = settings_of(options);
    match make_fs(alloc, dev, out, &settings, options.force, random) {
        Ok(()) => Ok(()),
        Err(MakeFsError::DeviceFault) => Err(Cause::DeviceFault),
        Err(MakeFsError::OutputFault) => Err(Cause::OutputFault),
        Err(MakeFsError::NoMemory) => Err(Cause::NoMemory),
        Err(MakeFsError::NotAnImage) => Err(Cause::NotAnImage),
        Err(MakeFsError::FsExists { zone }) => Err(Cause::FsExists { zone }),
    }
}

// The settings that the options state.
fn settings_of(options: &FsOptions<'_>) -> Settings
    requires { IsTrue (is_aux_path options.now.aux_path.now) }
    ensures aux_path { result.aux_path ≡ options.now.aux_path.now }
    ensures threshold { result.finish_threshold ≡ options.now.finish_threshold }
    ensures collect { result.collect ≡ options.now.collect }
{
    match AuxPath::read(options.aux_path) {
        Some(aux_path) => Settings {
            aux_path,
            finish_threshold: options.finish_threshold,
            collect: options.collect,
        },
        None => unreachable!(),
    }
}
